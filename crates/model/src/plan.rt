//! What a plan is made of, and what a tick brings from outside.

/// A window: whose it is, and how many ticks it has.
#[derive(Clone, Copy, PartialEq, Eq, Debug)]
pub struct Window {
    pub partition: u8,
    pub ticks: u32,
}

/// A channel: from which partition, to which, the most bytes of a message, and its places. With no places it keeps the
/// last message; with some, messages wait in the order in which they came.
#[derive(Clone, Copy, PartialEq, Eq, Debug)]
pub struct Channel {
    pub from: u8,
    pub to: u8,
    pub bytes: u16,
    pub places: u8,
}

/// A task: the higher priority goes first; its period; by when after each beginning it has to wait again; and how often
/// it may be late before it is stopped.
#[derive(Clone, Copy, PartialEq, Eq, Debug)]
pub struct Task {
    pub priority: u8,
    pub period: u32,
    pub deadline: u32,
    pub lates: u8,
}

/// A byte from outside, and the partition that it is for.
#[derive(Clone, Copy, PartialEq, Eq, Debug)]
pub struct Arrival {
    pub partition: u8,
    pub byte: u8,
}

/// What a task is doing.
#[derive(Clone, Copy, PartialEq, Eq, Debug)]
pub enum State {
    /// It may do instructions.
    Ready,
    /// It waits for its next period.
    Waiting,
    /// It does nothing more.
    Stopped,
}
