//! What a text says, with its bounds.
ghost use Rattle.std.specs.Prelude.{◌<◌, ◌≤◌, IfOk, vec_len};

use crate::faults::{Fault, NameFault};
use crate::names::{Named, checked, find};
use crate::words::Word;
use model::plan::{Channel, Task, Window};
use std::alloc::Global;

/// What a partition's memory holds.
#[derive(Drop)]
pub enum Memory {
    /// So many pages of zeros.
    Zeros(u16),
    /// A program's file, in as many pages as its line says, if it says so.
    Program { file: String, pages: Option<u16> },
}

/// A partition: its memory, and its tasks.
#[derive(Drop)]
pub struct Partition {
    pub memory: Memory,
    pub tasks: Vec<Named<Task>>,
    ghost few: { vec_len tasks ≤ 16 },
}

/// What a text says.
#[derive(Drop)]
pub struct Plan {
    pub system: u16,
    pub partitions: Vec<Named<Partition>>,
    pub channels: Vec<Named<Channel>>,
    pub windows: Vec<Window>,
    ghost few_partitions: { vec_len partitions ≤ 32 },
    ghost few_channels: { vec_len channels ≤ 128 },
    ghost few_windows: { vec_len windows ≤ 256 },
}

impl Plan {
    /// The plan of which nothing was read.
    pub(crate) fn new(heap: Global) -> Plan {
        Plan {
            system: 0,
            partitions: Vec::new(heap),
            channels: Vec::new(heap),
            windows: Vec::new(heap),
        }
    }

    /// Which of the partitions has this name.
    pub(crate) fn partition_named(&self, word: &Word) -> Result<u8, Fault>
        ensures bound { IfOk result (λ i. i < vec_len self.now.partitions) }
    {
        let name = checked(word)?;
        let partitions = self.partitions.as_slice();
        if let Some(i) = find(partitions, word.text) {
            return Ok(i as u8);
        }
        if partitions.is_empty() {
            return Err(NameFault::NoPartitions(name).into());
        }
        let above = partitions.join(*self.partitions.allocator(), ", ")?;
        Err(NameFault::NoPartition { name, above }.into())
    }
}
