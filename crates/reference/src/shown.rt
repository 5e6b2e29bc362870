//! What comes of a tick.

/// A byte, the partition that showed it, and the tick in which it did.
#[derive(Clone, Copy, Debug, PartialEq, Eq)]
pub struct Shown {
    pub partition: u8,
    pub tick: u64,
    pub byte: u8,
}

/// Why a tick or a run is refused.
#[derive(Clone, Copy, Debug, PartialEq, Eq)]
pub enum Refused {
    /// A tick would come after the 2^40th.
    Over,
    /// There are fewer places for what is shown than ticks.
    Places,
}
