//! Where things lie in a plan's bytes.

/// From a place up to another. (A struct of its own and no `Range`, which cannot be copied.)
#[derive(Clone, Copy)]
pub struct Extent {
    pub from: usize,
    pub to: usize,
}
