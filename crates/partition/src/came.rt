//! What instructions come to.
use model::plan::State;

// Stays an enum: what an instruction comes to has data.
/// What an instruction comes to for the task that did it.
#[derive(Clone, Copy)]
pub(crate) enum Came {
    /// It goes on.
    Goes,
    /// It goes on, and the partition shows a byte.
    Shows(u8),
    /// It waits for its next period.
    Waits,
    /// It was no instruction that may be done: the task stops.
    Stops,
}

/// A burst of instructions: how many ticks it took, and how it left the task.
#[derive(Clone, Copy)]
pub(crate) struct Burst {
    pub ticks: u64,
    pub end: State,
}
