//! Lent bytes that are read front to back.
ghost use Rattle.std.specs.Prelude.{◌≤◌, length};

use crate::head::{Header, PartHead};
use crate::record::{FromBytes, TIME};
use crate::refusal::Refusal;
use codec::{Unfit, number};
use model::plan::Task;
use octets::Number;

/// Lent bytes, and the place that is read next.
#[derive(Clone, Copy)]
pub(crate) struct Reader<'a> {
    pub bytes: &'a [u8],
    pub at: usize,
    ghost within: { at ≤ length bytes.now },
}

impl Reader<'_> {
    ghost use Rattle.std.specs.Prelude.{◌≡◌, ◌*◌, ◌≤◌, length, IfOk};
    ghost use Rattle.codec.specs.Codec.{number as kind, map_out, times};
    ghost use Rattle.plan.specs.Refusals.{number_of, place_of, told};
    ghost use Rattle.plan.specs.Reads.{Reads, as_number};
    ghost use Rattle.plan.specs.Ends.{seen, pages_of, fits};
    ghost use Rattle.plan.specs.Layout.{field, header, partition};

    /// The next number, if it is there and lies from `lo` to `hi`; else this refusal or that.
    pub fn number<N: Number>(
        &mut self,
        lo: N,
        hi: N,
        missing: Refusal,
        fault: Refusal,
    ) -> Result<N, Refusal>
        requires missing { place_of missing ≡ length self.old.bytes.now }
        requires fault { place_of fault ≡ self.old.at }
        ensures { Reads self.old self.new (as_number N.value result) (kind (number_of missing) (number_of fault) N.SIZE (N.value lo) (N.value hi)).read }
    {
        match number(self.bytes, self.at, lo.value(), hi.value()) {
            Ok(v) => {
                self.at += N::SIZE;
                Ok(v)
            }
            Err(Unfit::Missing) => Err(missing),
            Err(Unfit::OutOfRange) => Err(fault),
        }
    }

    /// The next number of a plan, if it is there and lies from `lo` to `hi`.
    pub fn field<N: Number>(&mut self, lo: N, hi: N) -> Result<N, Refusal>
        ensures { Reads self.old self.new (as_number N.value result) (field N.SIZE (N.value lo) (N.value hi)).read }
    {
        let missing = Refusal::Short(self.bytes.len());
        let fault = Refusal::Number(self.at);
        self.number(lo, hi, missing, fault)
    }

    /// Passes so many records of one kind, one behind the other.
    pub fn pass<R: FromBytes>(&mut self, n: u16, around: R::Around) -> Result<(), Refusal>
        ensures { Reads self.old self.new result (λ xs k. seen ((times n (R.codec around)).read xs k)) }
    {
        // A copy of its own is read on: so the place needs no way through memory from record to record.
        let mut r = *self;
        for _i in 0..n {
            R::read(&mut r, around)?;
        }
        *self = r;
        Ok(())
    }

    /// What a plan's first bytes say.
    pub fn header(&mut self) -> Result<Header, Refusal>
        requires { self.old.at ≡ 0 }
        ensures { Reads self.old self.new result header.read }
    {
        let missing = Refusal::Short(self.bytes.len());
        let _name = self.number(TIME, TIME, missing, Refusal::Name)?;
        let system = self.field(16, 65_535)?;
        let partitions = self.field(1, 32)?;
        let windows = self.field(1, 256)?;
        let channels = self.field(0, 128)?;
        Ok(Header {
            system,
            partitions,
            windows,
            channels,
        })
    }

    /// Passes a partition's part; the pages of its memory.
    fn pass_part(&mut self) -> Result<u16, Refusal>
        ensures { Reads self.old self.new result (λ xs k. map_out (λ p. p.pages) (partition.read xs k)) }
    {
        let head = PartHead::read(self, ())?;
        self.pass::<Task>(u16::from(head.tasks), ())?;
        Ok(head.pages)
    }

    /// Passes so many partitions' parts; the pages of all their memories.
    pub fn pass_parts(&mut self, n: u8) -> Result<u32, Refusal>
        ensures reads { Reads self.old self.new result (λ xs k. map_out pages_of ((times n partition).read xs k)) }
        ensures bound { IfOk result (λ pages. pages ≤ 65535 * 255) }
    {
        // Stays beside `pass`: parts differ in size, and what they say is added up.
        let mut pages = 0u32;
        let mut r = *self;
        for _i in 0..n {
            pages += u32::from(r.pass_part()?);
        }
        *self = r;
        Ok(pages)
    }

    /// Whether the memories, so many bytes, are what is left.
    pub fn memories_fit(&self, memories: usize) -> Result<(), Refusal>
        requires { memories ≤ 4096 * (65535 * 255) }
        ensures value { told (length self.now.bytes.now) result ≡ fits self.now.bytes.now self.now.at memories }
    {
        let left = self.bytes.len() - self.at;
        if left < memories {
            return Err(Refusal::Short(self.bytes.len()));
        }
        if memories < left {
            return Err(Refusal::Long(self.at + memories));
        }
        Ok(())
    }
}
