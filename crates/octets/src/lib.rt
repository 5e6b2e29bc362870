//! Numbers, low byte first, and copies in a lent byte slice.
//!
//! Owns the words in which all that lies in bytes is said: `put`, `number`, `bytes_of` and `at`, and their laws, once for
//! every width. Promises that a read gives the number at its place, and that a write changes the bytes of its place and no
//! others, for each kind of `Number`. Knows nothing of what the bytes are for. A place outside the slice is ruled out where
//! a function is called, as for an index. Headline: `write`, clause `after`.
#![tactic(auto)]

ghost use Rattle.std.specs.Prelude.{◌≡◌, ℕ, ◌+◌, ◌<◌, ◌≤◌, [], ◌∷◌, length};
ghost use Rattle.octets.specs.Bytes.{at, put, bytes_of, number};
ghost use Rattle.octets.specs.Laws.{ReadsBack, KeepsOthers, KeepsLength, Restores};

/// A number that can stand in bytes.
pub trait Number: Copy {
    /// How many bytes it has.
    ghost SIZE: { ℕ };

    /// The number itself.
    ghost value: { Self → ℕ };

    const SIZE: usize;

    /// The number that so many bytes stand for.
    fn of_bytes(b: &[u8]) -> Self
        requires { length b.now ≡ SIZE }
        ensures { value result ≡ number b.now };

    /// Fills so many bytes with its own.
    fn fill(self, b: &mut [u8])
        requires { length b.old ≡ SIZE }
        ensures { b.new ≡ bytes_of SIZE (value self) };

    /// The number as one of the widest kind.
    fn value(self) -> u64
        ensures { result ≡ value self };
}

// Four impls: the gate refuses one that a macro of the repository's own writes.

impl Number for u8 {
    ghost SIZE = { 1 };

    ghost value = { λ n. n };

    const SIZE: usize = 1;

    fn of_bytes(b: &[u8]) -> u8 {
        u8::from_le_bytes([b[0]])
    }

    fn fill(self, b: &mut [u8]) {
        b.copy_from_slice(&u8::to_le_bytes(self));
    }

    fn value(self) -> u64 {
        u64::from(self)
    }
}

impl Number for u16 {
    ghost SIZE = { 2 };

    ghost value = { λ n. n };

    const SIZE: usize = 2;

    fn of_bytes(b: &[u8]) -> u16 {
        u16::from_le_bytes([b[0], b[1]])
    }

    fn fill(self, b: &mut [u8]) {
        b.copy_from_slice(&u16::to_le_bytes(self));
    }

    fn value(self) -> u64 {
        u64::from(self)
    }
}

impl Number for u32 {
    ghost SIZE = { 4 };

    ghost value = { λ n. n };

    const SIZE: usize = 4;

    fn of_bytes(b: &[u8]) -> u32 {
        u32::from_le_bytes([b[0], b[1], b[2], b[3]])
    }

    fn fill(self, b: &mut [u8]) {
        b.copy_from_slice(&u32::to_le_bytes(self));
    }

    fn value(self) -> u64 {
        u64::from(self)
    }
}

impl Number for u64 {
    ghost SIZE = { 8 };

    ghost value = { λ n. n };

    const SIZE: usize = 8;

    fn of_bytes(b: &[u8]) -> u64 {
        u64::from_le_bytes([b[0], b[1], b[2], b[3], b[4], b[5], b[6], b[7]])
    }

    fn fill(self, b: &mut [u8]) {
        b.copy_from_slice(&u64::to_le_bytes(self));
    }

    fn value(self) -> u64 {
        self
    }
}

// A slice and an index, as in `b[k]`: a struct of both would be made and taken apart again at each call.

/// The number in the bytes from `k` on.
pub fn read<N: Number>(b: &[u8], k: usize) -> N
    requires { k + N.SIZE ≤ length b.now }
    ensures value { N.value result ≡ at N.SIZE b.now k }
{
    N::of_bytes(&b[k..k + N::SIZE])
}

/// Writes a number into the bytes from `k` on.
pub fn write<N: Number>(b: &mut [u8], k: usize, v: N)
    requires { k + N.SIZE ≤ length b.old }
    ensures after { b.new ≡ put b.old k (bytes_of N.SIZE (N.value v)) }
{
    v.fill(&mut b[k..k + N::SIZE]);
}

/// Copies bytes in from `k` on.
pub fn copy(b: &mut [u8], k: usize, from: &[u8])
    requires { k + length from.now ≤ length b.old }
    ensures after { b.new ≡ put b.old k from.now }
{
    b[k..k + from.len()].copy_from_slice(from);
}

/// The laws of reads and writes, for every width: what was written is read back; what lies elsewhere, and the length, stay;
/// and bytes are the bytes of their number.
pub fn laws_stand() -> u8
    ensures same { ReadsBack }
    ensures other { KeepsOthers }
    ensures len { KeepsLength }
    ensures bytes { Restores }
{
    0
}
