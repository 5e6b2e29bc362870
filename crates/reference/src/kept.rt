//! A row of at most N things that lets go of them without a write: those behind the first `count` are spare.
//!
//! `ArrayVec` writes a blank over each thing that it lets go, so a start would take a time that grows with what was held.
ghost use Rattle.std.specs.Prelude.{◌≤◌, length};

use arrayvec::ArrayVec;

mod methods;

#[derive(Drop)]
pub(crate) struct Kept<T, const N: usize> {
    things: ArrayVec<T, N>,
    count: usize,
    ghost within: { count ≤ length things.items },
}
