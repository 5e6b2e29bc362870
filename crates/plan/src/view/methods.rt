//! What a checked plan says.
ghost use Rattle.std.specs.Prelude.{◌≡◌, ◌*◌, ◌≤◌, true, [], map, length, MatchOption};
ghost use Rattle.std.specs.List.{slice_get, between};
ghost use Rattle.codec.specs.Codec.{got, map_out, times};
ghost use Rattle.plan.specs.Ends.{pages_of};
ghost use Rattle.plan.specs.Layout.{header, partition};
ghost use Rattle.plan.specs.Places.{parts_from, IsPart};
ghost use Rattle.plan.specs.Taken.{accepts, pages_in};
ghost use Rattle.plan.specs.Views.{bytes_of, plan_of, memories_of, tasks_of, memory_of};

use super::View;
use crate::check::PAGE;
use crate::extent::Extent;
use crate::head::{Header, PartHead};
use crate::part::Part;
use crate::reader::Reader;
use crate::record::{FromBytes, nth};
use model::plan::{Channel, Task, Window};

impl<'a> View<'a> {
    /// The plan in bytes that `check` took.
    pub fn new(bytes: &'a [u8]) -> View<'a>
        requires { accepts bytes.now ≡ true }
        ensures value { bytes_of result ≡ bytes.now }
    {
        View { bytes }
    }

    /// What the first bytes say.
    fn header(&self) -> Header
        ensures value { got result 10 ≡ header.read (bytes_of self.now) 0 }
    {
        let mut r = Reader {
            bytes: self.bytes,
            at: 0,
        };
        r.header().unwrap()
    }

    /// The ticks at the beginning of each window that are the system's.
    pub fn system(&self) -> u16
        ensures value { result ≡ (plan_of self.now).system }
    {
        self.header().system
    }

    /// How many windows there are.
    pub fn windows(&self) -> u16
        ensures value { result ≡ length (plan_of self.now).windows }
    {
        self.header().windows
    }

    /// How many channels there are.
    pub fn channels(&self) -> u8
        ensures value { result ≡ length (plan_of self.now).channels }
    {
        self.header().channels
    }

    /// How many partitions there are.
    pub fn partitions(&self) -> u8
        ensures value { result ≡ length (plan_of self.now).tasks }
    {
        self.header().partitions
    }

    /// A window, by its place in the round.
    pub fn window(&self, i: u16) -> Option<Window>
        ensures value { result ≡ slice_get (plan_of self.now).windows i }
    {
        let h = self.header();
        nth(self.bytes, Header::SIZE, h.windows, i, h)
    }

    /// A channel, by its number.
    pub fn channel(&self, i: u8) -> Option<Channel>
        ensures value { result ≡ slice_get (plan_of self.now).channels i }
    {
        let h = self.header();
        nth(
            self.bytes,
            h.channels_from(),
            u16::from(h.channels),
            u16::from(i),
            h,
        )
    }

    /// The parts of the first partitions passed: the pages of those, and where the next lies.
    fn passed(&self, h: Header, n: u8) -> (u32, Reader<'a>)
        requires header { got h 10 ≡ header.read (bytes_of self.now) 0 }
        requires there { n ≤ h.partitions }
        ensures bytes { result.1.bytes.now ≡ bytes_of self.now }
        ensures value { got result.0 result.1.at ≡ map_out pages_of ((times n partition).read (bytes_of self.now) (parts_from h)) }
        ensures bound { result.0 ≤ 65535 * 255 }
    {
        let mut r = Reader {
            bytes: self.bytes,
            at: h.parts_from(),
        };
        let pages = r.pass_parts(n).unwrap();
        (pages, r)
    }

    /// Where a partition's part lies.
    fn part(&self, q: u8) -> Option<Part>
        ensures value { MatchOption result ((length (plan_of self.now).tasks ≤ q) × (length (memories_of self.now) ≤ q)) (IsPart (bytes_of self.now) q) }
    {
        let h = self.header();
        if q >= h.partitions {
            return None;
        }
        let (before, mut r) = self.passed(h, q);
        let head = PartHead::read(&mut r, ()).unwrap();
        Some(Part {
            head,
            tasks_at: r.at,
            before,
        })
    }

    /// The pages of a partition's memory.
    pub fn pages(&self, q: u8) -> Option<u16>
        ensures value { result ≡ slice_get (map pages_in (memories_of self.now)) q }
    {
        Some(self.part(q)?.head.pages)
    }

    /// How many tasks a partition has.
    pub fn tasks(&self, q: u8) -> Option<u8>
        ensures value { result ≡ slice_get (map (λ ts. length ts) (plan_of self.now).tasks) q }
    {
        Some(self.part(q)?.head.tasks)
    }

    /// A partition's task, by its number there.
    pub fn task(&self, q: u8, i: u8) -> Option<Task>
        ensures value { result ≡ slice_get (tasks_of self.now q) i }
    {
        let part = self.part(q)?;
        nth(
            self.bytes,
            part.tasks_at,
            u16::from(part.head.tasks),
            u16::from(i),
            (),
        )
    }

    /// Where a partition's memory lies in the bytes; nothing, at their front, where there is no such partition.
    pub fn memory(&self, q: u8) -> Extent
        ensures value { between result.from result.to (bytes_of self.now) ≡ memory_of self.now q }
        ensures bound { (result.from ≤ result.to) × (result.to ≤ length (bytes_of self.now)) }
    {
        // Stays an empty extent where there is none: what could not fail still cannot.
        let Some(part) = self.part(q) else {
            return Extent { from: 0, to: 0 };
        };
        let h = self.header();
        let (_, r) = self.passed(h, h.partitions);
        let from = r.at + PAGE * part.before as usize;
        Extent {
            from,
            to: from + PAGE * usize::from(part.head.pages),
        }
    }

    /// A partition's memory at the start; nothing where there is no such partition.
    pub fn memory_bytes(&self, q: u8) -> &'a [u8]
        ensures value { result.now ≡ memory_of self.now q }
    {
        let Extent { from, to } = self.memory(q);
        &self.bytes[from..to]
    }
}
