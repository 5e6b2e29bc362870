//! Things in bytes: the kinds from which a format is put together.
//!
//! Owns `Codec`: how a thing is read at a place, how it is written, and which ones are proper; the ways to make one from
//! others (a number in a range, bytes as they are, one behind another that depends on it, one for each of a row, another
//! name); and one law for each, both ways: what is proper and stands at a place is read there, and what is read at a place
//! is proper and stands there. Those of a number and of bytes stand in `laws_stand`, and all of them in `proofs/Laws`, for
//! the formats above. Promises that the function `number` reads a number as the kind `number` does. Knows no format, and of
//! a refusal only its number and place. Headline: `number`, clause `value`.
#![tactic(auto)]

ghost use Rattle.std.specs.Prelude.{◌≡◌, ℕ, ◌+◌, ◌≤◌, length, IfOk, OnOk};
ghost use Rattle.codec.specs.Codec.{number as kind};
ghost use Rattle.codec.specs.Lawful.{NumberLaw, RawLaw};
ghost use Rattle.codec.specs.Fields.{outcome};

use octets::{Number, read};

/// Why a number is not read.
#[derive(Clone, Copy)]
pub enum Unfit {
    /// Its bytes are not all there.
    Missing,
    /// It is out of its range.
    OutOfRange,
}

/// The number from `k` on, if it is there and lies from `lo` to `hi`.
pub fn number<N: Number>(b: &[u8], k: usize, lo: u64, hi: u64) -> Result<N, Unfit>
    ensures value { (missing fault : ℕ) → outcome N.value missing fault b.now k N.SIZE result ≡ (kind missing fault N.SIZE lo hi).read b.now k }
    ensures bound { IfOk result (λ v. (lo ≤ N.value v) × (N.value v ≤ hi)) }
    ensures room { OnOk result (k + N.SIZE ≤ length b.now) }
{
    let n = N::SIZE;
    if b.len() < n || b.len() - n < k {
        return Err(Unfit::Missing);
    }
    let v: N = read(b, k);
    if v.value() < lo || hi < v.value() {
        return Err(Unfit::OutOfRange);
    }
    Ok(v)
}

/// A number in its range, and bytes as they are, are read as they were written, and written as they were read.
pub fn laws_stand() -> u8
    ensures number { NumberLaw }
    ensures raw { RawLaw }
{
    0
}
