//! Whether bytes are a plan.
ghost use Rattle.std.specs.Prelude.{◌≡◌, ◌+◌, ◌*◌, ◌≤◌, true, length, is_ok, IfOk};
ghost use Rattle.codec.specs.Codec.{times, map_out};
ghost use Rattle.plan.specs.Refusals.{told};
ghost use Rattle.plan.specs.Reads.{Reads};
ghost use Rattle.plan.specs.Taken.{accepts, image_in};
ghost use Rattle.plan.specs.Promise.{Exactly, Says};
ghost use Rattle.plan.specs.Ends.{seen, pages_of, fits};
ghost use Rattle.plan.specs.Layout.{partition, read_plan};

use crate::reader::Reader;
use crate::refusal::Refusal;
use model::plan::{Channel, Window};

/// The bytes of a page.
pub(crate) const PAGE: usize = 4096;

/// The plan's parts, front to back, and the first refusal on the way.
fn walk(b: &[u8]) -> Result<(), Refusal>
    ensures value { told (length b.now) result ≡ seen (read_plan b.now) }
{
    let mut r = Reader { bytes: b, at: 0 };
    let h = r.header()?;
    r.pass::<Window>(h.windows, h)?;
    r.pass::<Channel>(u16::from(h.channels), h)?;
    let pages = r.pass_parts(h.partitions)?;
    r.memories_fit(PAGE * pages as usize)
}

/// Whether the bytes are a plan, and else why not. Those that are taken are exactly the bytes of plans in bounds.
pub fn check(b: &[u8]) -> Result<(), Refusal>
    ensures value { told (length b.now) result ≡ seen (read_plan b.now) }
    ensures taken { is_ok result ≡ accepts b.now }
    ensures exact { Exactly b.now (is_ok result) }
    ensures plan { accepts b.now ≡ true → Says b.now (image_in b.now) }
{
    walk(b)
}
