//! A partition's part of a plan's bytes, as it was found.
use crate::head::PartHead;

/// A partition's part: what it begins with, where its tasks lie, and the pages of the partitions before it.
#[derive(Clone, Copy)]
pub(crate) struct Part {
    pub head: PartHead,
    pub tasks_at: usize,
    pub before: u32,
}
