//! The whole computer, over lent memory.
use crate::part::Partition;
use crate::queue::Queue;
use model::plan::Window;

mod methods;
mod step;

/// A computer under way: its windows, the time, its partitions, their memories one after the other, and its channels, all
/// lent.
#[derive(Drop)]
pub struct World<'a> {
    system: u16,
    windows: &'a [Window],
    time: u64,
    parts: &'a mut [Partition],
    // Stays beside the partitions: `Partition::new`, which is public, takes no pages, and all memories lie in one row.
    pages: &'a [u16],
    memory: &'a mut [u8],
    channels: &'a mut [Queue],
}
