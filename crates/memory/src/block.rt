//! A partition's block, whose memory is behind page tables.
ghost use Rattle.std.specs.Prelude.{◌≡◌, ◌+◌, ◌*◌, ◌%◌, ◌^◌, ◌<◌, ◌≤◌, length, if◌then◌else◌, MatchOption, Some, None, nat_le, nat_lt};
ghost use Rattle.std.proofs.Props.{props};
ghost use Rattle.octets.specs.Bytes.{at};
ghost use Rattle.cpu.specs.Effects.{inside};
ghost use Rattle.cpu.specs.Meaning.{load_bytes, extended};
ghost use Rattle.memory.specs.Frames.{memory_of, frame, Mapped};

use crate::tables::{CONTROL, ENTRY, FRAME};
use cpu::access::{finish, read};
use decode::instruction::LoadKind;

// Stays beside `BlockMut`, as it is read where only a `&` is at hand: no type is generic over the kind of loan.
/// A block that is lent to be read: its tables map each page of its memory, and nothing else.
#[derive(Clone, Copy)]
pub struct Block<'a> {
    pub bytes: &'a [u8],
    pub ghost mapped: { Mapped bytes.now } by { Prim.hlevel props },
}

impl<'a> Block<'a> {
    /// How many bytes of memory the partition has.
    #[tactic(auto, using(crate::proofs::Sets::sizes))]
    pub fn size(&self) -> usize
        ensures value { result ≡ length (memory_of self.now.bytes.now) }
    {
        self.bytes.len() - CONTROL
    }

    /// Control frame `n`.
    #[tactic(auto, unfolding(crate::specs::Frames::frame))]
    pub fn frame(&self, n: usize) -> &'a [u8]
        requires control { n < 8 }
        ensures value { result.now ≡ frame n self.now.bytes.now }
        ensures size { length result.now ≡ 4096 }
    {
        &self.bytes[FRAME * n..FRAME * n + FRAME]
    }

    /// The frame that an entry of a table names, if it names one.
    fn entry(&self, table: usize, i: usize) -> Option<usize>
        requires table { table < 8 }
        requires below { i < 1024 }
        ensures value { MatchOption result (at 4 self.now.bytes.now (4096 * table + 4 * i) ≡ 0) (λ n. (n ≡ at 4 self.now.bytes.now (4096 * table + 4 * i)) × (0 < n) × (n < 2 ^ 32)) }
    {
        let n = octets::read::<u32>(self.bytes, FRAME * table + ENTRY * i) as usize;
        if n == 0 { None } else { Some(n) }
    }

    /// Where in the block an address of the partition's memory lies; an address without an entry is outside memory.
    #[tactic(auto, using(crate::proofs::Sets::walking))]
    pub fn walk(&self, address: u32) -> Option<usize>
        ensures value { result ≡ (if nat_lt address (length (memory_of self.now.bytes.now)) then Some (32768 + address) else None) }
    {
        let leaf = self.entry(0, (address >> 22) as usize)?;
        let page = self.entry(leaf, ((address >> 12) % 1024) as usize)?;
        Some(FRAME * page + (address % 4096) as usize)
    }

    /// The word at the pc, if the pc is a multiple of four in memory.
    #[tactic(auto, using(crate::proofs::Sets::fetching))]
    pub fn fetch(&self, pc: u32) -> Option<u32>
        ensures value { result ≡ (if inside 4 pc (length (memory_of self.now.bytes.now)) then Some (at 4 (memory_of self.now.bytes.now) pc) else None) }
    {
        if pc % 4 != 0 {
            return None;
        }
        let k = self.walk(pc)?;
        Some(octets::read(self.bytes, k))
    }

    /// What a load at an address gives, if the address is in memory.
    #[tactic(auto, using(crate::proofs::Sets::loading))]
    pub fn load(&self, kind: LoadKind, address: u32) -> Option<u32>
        requires aligned { address % load_bytes kind ≡ 0 }
        ensures value { result ≡ (if nat_le (address + load_bytes kind) (length (memory_of self.now.bytes.now)) then Some (extended kind (at (load_bytes kind) (memory_of self.now.bytes.now) address)) else None) }
    {
        let k = self.walk(address)?;
        Some(finish(kind, read(self.bytes, kind, k)))
    }
}
