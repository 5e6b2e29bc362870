//! A draft as bytes.
ghost use Rattle.std.specs.Prelude.{◌≡◌, ◌+◌, ◌≤◌, length, take, IfOk, IfSome, MatchOption};
ghost use Rattle.std.specs.List.{flat_map, All};
ghost use Rattle.codec.specs.Codec.{got};
ghost use Rattle.octets.specs.Bytes.{put};
ghost use Rattle.plan.specs.Layout.{read_plan, write_plan};
ghost use Rattle.plan.specs.Bounds.{InBounds};
ghost use Rattle.plan.specs.Given.{Fits};
ghost use Rattle.plan.specs.Drafts.{given, head_of, part_bytes, memory_bytes, draft_image, draft_bytes, Counted, Wrote};
ghost use Rattle.plan.specs.Writes.{Puts};

use super::{Draft, DraftPart, Unwritten};
use crate::check::PAGE;
use crate::head::{Header, PartHead};
use crate::record::FromBytes;
use crate::write::{ToBytes, put_bytes, write_all};
use model::plan::{Channel, Task, Window};

impl DraftPart<'_> {
    /// What the part begins with; none where its numbers cannot say it.
    fn head(&self) -> Option<PartHead>
        ensures value { MatchOption result (Fits (given self.now) → ⊥) (λ h. Fits (given self.now) × (h ≡ head_of self.now)) }
    {
        if self.memory.len() % PAGE != 0 {
            return None;
        }
        Some(PartHead {
            pages: u16::try_from(self.memory.len() / PAGE).ok()?,
            tasks: u8::try_from(self.tasks.len()).ok()?,
        })
    }

    /// How many bytes the part and the memory have; none where the part's head cannot say it.
    fn size(&self) -> Option<usize>
        ensures value { MatchOption result (Fits (given self.now) → ⊥) (λ n. Fits (given self.now) × (n ≡ length (part_bytes self.now) + length (memory_bytes self.now))) }
        ensures bound { IfSome result (λ n. n ≤ 268435456) }
    {
        let _head = self.head()?;
        Some(PartHead::SIZE + Task::SIZE * self.tasks.len() + self.memory.len())
    }
}

impl ToBytes for DraftPart<'_> {
    ghost bytes = { part_bytes };

    ghost can_write = { λ p. Fits (given p) };

    #[tactic(auto, using(crate::proofs::Writing::lengths))]
    fn write(self, out: &mut [u8], k: usize) -> usize {
        let head = self.head().unwrap();
        let k = head.write(out, k);
        write_all(out, k, self.tasks)
    }
}

/// Writes all memories from `k` on, one behind the other.
fn write_memories(out: &mut [u8], from: usize, parts: &[DraftPart<'_>]) -> usize
    requires { from + length (flat_map memory_bytes parts.now) ≤ length out.old }
    ensures puts { Puts out.old out.new from result (flat_map memory_bytes parts.now) }
{
    // Stays beside `write_all`: a part's memory does not stand in the part's own bytes, but behind all parts.
    let mut k = from;
    for part in parts {
        k = put_bytes(out, k, part.memory);
    }
    k
}

impl Draft<'_> {
    /// How many bytes the plan has; none where the draft does not add up.
    pub fn size(&self) -> Option<usize>
        ensures value { MatchOption result (Counted self.now → ⊥) (λ n. Counted self.now × (n ≡ length (write_plan (draft_image self.now)))) }
    {
        let windows = self.windows.len();
        let channels = self.channels.len();
        if windows > 256 || channels > 128 || self.parts.len() > 32 {
            return None;
        }
        let mut size = Header::SIZE + Window::SIZE * windows + Channel::SIZE * channels;
        let mut tasks = 0;
        for part in self.parts {
            size += part.size()?;
            tasks += part.tasks.len();
        }
        if tasks > 512 {
            return None;
        }
        Some(size)
    }

    /// Writes the plan's bytes at the front; the place behind them.
    #[tactic(auto, using(crate::proofs::Writing::lengths))]
    fn fill(&self, out: &mut [u8]) -> usize
        requires counted { Counted self.now }
        requires room { length (draft_bytes self.now) ≤ length out.old }
        ensures puts { Puts out.old out.new 0 result (draft_bytes self.now) }
    {
        // Stays `as`: that the draft is counted keeps each number in its range.
        let h = Header {
            system: self.system,
            partitions: self.parts.len() as u8,
            windows: self.windows.len() as u16,
            channels: self.channels.len() as u8,
        };
        let from_windows = h.write(out, 0);
        let from_channels = write_all(out, from_windows, self.windows);
        let from_parts = write_all(out, from_channels, self.channels);
        let from_memories = write_all(out, from_parts, self.parts);
        write_memories(out, from_memories, self.parts)
    }

    /// Writes the plan's bytes at the front of a slice, and says how many they are. Where the slice is too short, or the
    /// draft does not add up, nothing is written.
    pub fn write(&self, out: &mut [u8]) -> Result<usize, Unwritten>
        ensures value { Wrote self.now out.old out.new result }
        ensures read { InBounds (draft_image self.now) → IfOk result (λ n. read_plan (take n out.new) ≡ got (draft_image self.now) n) }
    {
        let Some(n) = self.size() else {
            return Err(Unwritten::Counts);
        };
        if out.len() < n {
            return Err(Unwritten::Short(n));
        }
        self.fill(out);
        Ok(n)
    }
}
