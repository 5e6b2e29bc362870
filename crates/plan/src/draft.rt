//! A plan to be written.
use model::plan::{Channel, Task, Window};

pub mod methods;

/// A partition of a plan to be written: its tasks, and its memory at the start, which is whole pages.
#[derive(Clone, Copy)]
pub struct DraftPart<'a> {
    pub tasks: &'a [Task],
    pub memory: &'a [u8],
}

/// A plan with its memories: the windows, the channels and the partitions.
#[derive(Clone, Copy)]
pub struct Draft<'a> {
    pub system: u16,
    pub windows: &'a [Window],
    pub channels: &'a [Channel],
    pub parts: &'a [DraftPart<'a>],
}

/// Why a draft is not written.
#[derive(Clone, Copy, Debug, PartialEq, Eq)]
pub enum Unwritten {
    /// It has more windows, channels or partitions than a plan may have, or more than 512 tasks in all; or a partition has more
    /// than 255 tasks, more than 65,535 pages, or a memory that is not whole pages.
    Counts,
    /// The slice is too short; how many bytes would do.
    Short(usize),
}
