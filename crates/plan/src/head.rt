//! The fixed parts of a plan's bytes that say how much comes behind them.
ghost use Rattle.std.specs.Prelude.{◌≡◌};

use crate::record::FromBytes;
use model::plan::{Channel, Window};

/// What a plan's first bytes say: the ticks at the beginning of each window that are the system's, and how many
/// partitions, windows and channels there are.
#[derive(Clone, Copy)]
pub struct Header {
    pub system: u16,
    pub partitions: u8,
    pub windows: u16,
    pub channels: u8,
}

impl Header {
    ghost use Rattle.plan.specs.Places.{channels_from, parts_from};

    /// How many bytes it has.
    pub(crate) const SIZE: usize = 10;

    /// Where the channels begin.
    pub(crate) fn channels_from(self) -> usize
        ensures value { result ≡ channels_from self }
    {
        Header::SIZE + Window::SIZE * usize::from(self.windows)
    }

    /// Where the partitions' parts begin.
    pub(crate) fn parts_from(self) -> usize
        ensures value { result ≡ parts_from self }
    {
        self.channels_from() + Channel::SIZE * usize::from(self.channels)
    }
}

/// What a partition's part begins with: the pages of its memory, and how many tasks it has.
#[derive(Clone, Copy)]
pub struct PartHead {
    pub pages: u16,
    pub tasks: u8,
}
