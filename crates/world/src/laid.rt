//! What a plan's bytes say, as the computer takes it.
use model::plan::Window;
use plan::view::View;
use reference::part::Partition;
use reference::queue::Queue;
use reference::world::World;
use std::alloc::{AllocError, Global};

/// All that a computer is made of, which it is lent when it starts: the memories one after the other.
#[derive(Drop)]
pub(crate) struct Laid {
    system: u16,
    windows: Vec<Window>,
    parts: Vec<Partition>,
    pages: Vec<u16>,
    memory: Vec<u8>,
    channels: Vec<Queue>,
}

impl Laid {
    pub(crate) fn new(heap: Global, view: &View<'_>) -> Result<Laid, AllocError> {
        let windows = (0..view.windows()).filter_map(|i| view.window(i));
        let parts = (0..view.partitions()).map(|q| partition_of(view, q));
        let pages = (0..view.partitions()).filter_map(|q| view.pages(q));
        let channels = (0..view.channels()).filter_map(|i| view.channel(i).and_then(Queue::new));
        Ok(Laid {
            system: view.system(),
            windows: windows.collect(heap)?,
            parts: parts.collect(heap)?,
            pages: pages.collect(heap)?,
            memory: memory_of(heap, view)?,
            channels: channels.collect(heap)?,
        })
    }

    /// The computer at its start.
    pub(crate) fn start(&mut self) -> World<'_> {
        World::start(
            self.system,
            self.windows.as_slice(),
            self.parts.as_mut_slice(),
            self.pages.as_slice(),
            self.memory.as_mut_slice(),
            self.channels.as_mut_slice(),
        )
    }
}

/// A partition with its tasks.
fn partition_of(view: &View<'_>, q: u8) -> Partition {
    let mut part = Partition::new();
    for task in (0..16u8).filter_map(|i| view.task(q, i)) {
        let _ = part.add(task);
    }
    part
}

/// The memories, one after the other.
fn memory_of(heap: Global, view: &View<'_>) -> Result<Vec<u8>, AllocError> {
    let mut all = Vec::new(heap);
    // Stays a loop: so a memory is copied at a time, and not a byte.
    for q in 0..view.partitions() {
        all.extend_from_slice(view.memory_bytes(q))?;
    }
    Ok(all)
}
