//! The records of a plan's bytes, front to back, for the checker and for the view.
ghost use Rattle.std.specs.Prelude.{◌≡◌, ℕ, true};
ghost use Rattle.std.specs.List.{slice_get};
ghost use Rattle.codec.specs.Codec.{Codec, times};
ghost use Rattle.plan.specs.Reads.{Reads};
ghost use Rattle.plan.specs.Layout.{window, channel, task, part_head};
ghost use Rattle.plan.specs.Records.{HasSize};
ghost use Rattle.plan.specs.Taken.{was_read, things};
ghost use Rattle.plan.specs.Sizes.{window_size, channel_size, task_size, part_head_size};

use crate::head::{Header, PartHead};
use crate::reader::Reader;
use crate::refusal::Refusal;
use model::plan::{Channel, Task, Window};

/// "TIME", low byte first.
pub(crate) const TIME: u32 = 0x454d_4954;

/// A record of the format, which has always the same number of bytes.
pub(crate) trait FromBytes: Copy {
    /// What the ranges of its numbers depend on.
    type Around: Copy;

    ghost SIZE: { ℕ };

    /// How it lies in bytes.
    ghost codec: { Self.Around → Codec Self };

    const SIZE: usize;

    /// The next record.
    fn read(r: &mut Reader<'_>, around: Self::Around) -> Result<Self, Refusal>
        ensures { Reads r.old r.new result (codec around).read };

    ghost sized: { (a : Self.Around) → HasSize (codec a) SIZE };
}

/// Record `i` of the `n` that lie from `from` on, one behind the other.
pub(crate) fn nth<R: FromBytes>(
    b: &[u8],
    from: usize,
    n: u16,
    i: u16,
    around: R::Around,
) -> Option<R>
    requires { was_read ((times n (R.codec around)).read b.now from) ≡ true }
    ensures value { result ≡ slice_get (things ((times n (R.codec around)).read b.now from)) i }
{
    if i >= n {
        return None;
    }
    let mut r = Reader {
        bytes: b,
        at: from + R::SIZE * usize::from(i),
    };
    R::read(&mut r, around).ok()
}

impl FromBytes for Window {
    type Around = Header;

    ghost SIZE = { 5 };

    ghost codec = { λ h. window h.system h.partitions };

    const SIZE: usize = 5;

    fn read(r: &mut Reader<'_>, h: Header) -> Result<Window, Refusal> {
        let partition = r.field(0, h.partitions.saturating_sub(1))?;
        let ticks = r.field(u32::from(h.system) + 1, 1_000_000)?;
        Ok(Window { partition, ticks })
    }

    ghost sized = { λ h. window_size h.system h.partitions };
}

impl FromBytes for Channel {
    type Around = Header;

    ghost SIZE = { 5 };

    ghost codec = { λ h. channel h.partitions };

    const SIZE: usize = 5;

    fn read(r: &mut Reader<'_>, h: Header) -> Result<Channel, Refusal> {
        let last = h.partitions.saturating_sub(1);
        let from = r.field(0, last)?;
        let to = r.field(0, last)?;
        let bytes = r.field(0, 1024)?;
        let places = r.field(0, 64)?;
        Ok(Channel {
            from,
            to,
            bytes,
            places,
        })
    }

    ghost sized = { λ h. channel_size h.partitions };
}

impl FromBytes for Task {
    type Around = ();

    ghost SIZE = { 10 };

    ghost codec = { λ u. task };

    const SIZE: usize = 10;

    fn read(r: &mut Reader<'_>, _around: ()) -> Result<Task, Refusal> {
        let priority = r.field(0, 255)?;
        let period = r.field(1, 100_000_000)?;
        let deadline = r.field(1, period)?;
        let lates = r.field(0, 255)?;
        Ok(Task {
            priority,
            period,
            deadline,
            lates,
        })
    }

    ghost sized = { λ u. task_size };
}

impl FromBytes for PartHead {
    type Around = ();

    ghost SIZE = { 3 };

    ghost codec = { λ u. part_head };

    const SIZE: usize = 3;

    fn read(r: &mut Reader<'_>, _around: ()) -> Result<PartHead, Refusal> {
        let pages = r.field(1, 256)?;
        let tasks = r.field(0, 16)?;
        Ok(PartHead { pages, tasks })
    }

    ghost sized = { λ u. part_head_size };
}
