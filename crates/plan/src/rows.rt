//! Rows of bytes from outside: for each tick how many, each with partition and byte.
ghost use Rattle.std.specs.Prelude.{◌≡◌, ◌+◌, ◌<◌, ◌≤◌, true, length, IfOk, OnOk};
ghost use Rattle.plan.specs.Reads.{Reads};
ghost use Rattle.plan.specs.Ends.{seen, ended};
ghost use Rattle.plan.specs.Rows.{row_byte, arrival, read_row, takes_row};
ghost use Rattle.plan.specs.Sizes.{arrival_size};

use crate::reader::Reader;
use crate::record::FromBytes;
use crate::refusal::Refusal;
use model::plan::Arrival;

/// The most ticks from the start.
pub const TICKS: u64 = 1 << 40;

/// The next byte of a row, up to `hi`.
pub(crate) fn row_byte(r: &mut Reader<'_>, hi: u8) -> Result<u8, Refusal>
    ensures { Reads r.old r.new result (row_byte hi).read }
{
    let missing = Refusal::Row(r.bytes.len());
    let fault = Refusal::Row(r.at);
    r.number(0, hi, missing, fault)
}

impl FromBytes for Arrival {
    type Around = u8;

    ghost SIZE = { 2 };

    ghost codec = { λ n. arrival n };

    const SIZE: usize = 2;

    fn read(r: &mut Reader<'_>, partitions: u8) -> Result<Arrival, Refusal> {
        let partition = row_byte(r, partitions.saturating_sub(1))?;
        let byte = row_byte(r, 255)?;
        Ok(Arrival { partition, byte })
    }

    ghost sized = { λ n. arrival_size n };
}

/// The place behind the row that begins at `k`, where there are so many partitions, for a tick after so many others.
pub fn row_end(b: &[u8], k: usize, partitions: u8, time: u64) -> Result<usize, Refusal>
    ensures value { ended result ≡ seen (read_row partitions time b.now k) }
    ensures room { IfOk result (λ j. (k < j) × (j ≤ length b.now)) }
    ensures taken { OnOk result (takes_row partitions b.now k ≡ true) }
{
    if time >= TICKS {
        return Err(Refusal::Row(k));
    }
    if k > b.len() {
        return Err(Refusal::Row(b.len()));
    }
    let mut r = Reader { bytes: b, at: k };
    let n = row_byte(&mut r, 255)?;
    r.pass::<Arrival>(u16::from(n), partitions)?;
    Ok(r.at)
}
