//! Accesses to memory: whether they lie in it, what a load reads and makes of it, and what a store writes.
ghost use Rattle.std.specs.Prelude.{◌≡◌, ◌+◌, ◌<◌, ◌≤◌, length};
ghost use Rattle.octets.specs.Bytes.{at, put, bytes_of};
ghost use Rattle.cpu.specs.Effects.{inside};
ghost use Rattle.cpu.specs.Meaning.{extended, load_bytes, low, store_bytes};
ghost use Rattle.decode.specs.Fields.{signed};

use decode::instruction::{LoadKind, StoreKind};

/// What a load makes of the number that it read.
pub fn finish(kind: LoadKind, raw: u32) -> u32
    ensures value { result ≡ extended kind raw }
{
    match kind {
        LoadKind::Lb => extend(128, raw % 256),
        LoadKind::Lh => extend(32768, raw % 65536),
        LoadKind::Lw => raw,
        LoadKind::Lbu => raw % 256,
        LoadKind::Lhu => raw % 65536,
    }
}

// Stays a function of `half`: by casts each of the two arms would take four of them.
/// The sign of a number, where `half` is the weight of its highest bit, in all higher bits.
fn extend(half: u32, raw: u32) -> u32
    requires small { half < 65536 }
    ensures value { result ≡ low (signed half raw) }
{
    if raw < half {
        raw
    } else {
        raw.wrapping_sub(2 * half)
    }
}

/// Whether an access of n bytes lies in memory, at a multiple of n.
pub(crate) fn is_inside(n: u32, k: u32, size: usize) -> bool
    requires some { 0 < n }
    ensures value { result ≡ inside n k size }
{
    k % n == 0 && k as usize + n as usize <= size
}

/// How many bytes a load reads.
pub(crate) fn load_bytes(kind: LoadKind) -> u32
    ensures value { result ≡ load_bytes kind }
    ensures some { 0 < result }
{
    match kind {
        LoadKind::Lb | LoadKind::Lbu => 1,
        LoadKind::Lh | LoadKind::Lhu => 2,
        LoadKind::Lw => 4,
    }
}

/// How many bytes a store writes.
pub(crate) fn store_bytes(kind: StoreKind) -> u32
    ensures value { result ≡ store_bytes kind }
    ensures some { 0 < result }
{
    match kind {
        StoreKind::Sb => 1,
        StoreKind::Sh => 2,
        StoreKind::Sw => 4,
    }
}

/// The number that a load reads from `k` on.
pub fn read(b: &[u8], kind: LoadKind, k: usize) -> u32
    requires { k + load_bytes kind ≤ length b.now }
    ensures value { result ≡ at (load_bytes kind) b.now k }
{
    match kind {
        LoadKind::Lb | LoadKind::Lbu => u32::from(octets::read::<u8>(b, k)),
        LoadKind::Lh | LoadKind::Lhu => u32::from(octets::read::<u16>(b, k)),
        LoadKind::Lw => octets::read(b, k),
    }
}

/// Writes the low bytes of a number, as many as a store does, from `k` on.
pub fn write(b: &mut [u8], kind: StoreKind, k: usize, value: u32)
    requires { k + store_bytes kind ≤ length b.old }
    ensures after { b.new ≡ put b.old k (bytes_of (store_bytes kind) value) }
{
    match kind {
        StoreKind::Sb => octets::write(b, k, (value % 256) as u8),
        StoreKind::Sh => octets::write(b, k, (value % 65536) as u16),
        StoreKind::Sw => octets::write(b, k, value),
    }
}
