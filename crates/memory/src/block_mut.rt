//! A partition's block, whose memory is behind page tables, to be written.
ghost use Rattle.std.specs.Prelude.{◌≡◌, ◌+◌, ◌%◌, ◌<◌, ◌≤◌, length, if◌then◌else◌, Some, None, nat_le};
ghost use Rattle.std.specs.Fn.{FnOnceReturnsAtMut};
ghost use Rattle.std.proofs.Props.{props};
ghost use Rattle.octets.specs.Bytes.{put, bytes_of};
ghost use Rattle.cpu.specs.Meaning.{store_bytes};
ghost use Rattle.memory.specs.Frames.{memory_of, control_of, frame, Mapped, OnlyFrame};

use crate::block::Block;
use crate::tables::FRAME;
use cpu::access;
use decode::instruction::StoreKind;

/// A block that is lent to be written: its tables map each page of its memory, and nothing else.
#[derive(Drop)]
pub struct BlockMut<'a> {
    pub bytes: &'a mut [u8],
    pub ghost mapped: { Mapped bytes.now } by { Prim.hlevel props },
}

impl BlockMut<'_> {
    /// The block, to be read.
    pub fn block(&self) -> Block<'_>
        ensures bytes { result.bytes.now ≡ self.now.bytes.now }
    {
        Block { bytes: self.bytes }
    }

    /// Lends control frame `n`, which is behind the tables, to be written.
    #[tactic(auto, using(crate::proofs::Sets::lending), unfolding(crate::specs::Frames::frame))]
    pub fn with_frame<R, F: FnOnce(&mut [u8]) -> R>(&mut self, n: usize, write: F) -> R
        requires behind { 2 ≤ n }
        requires control { n < 8 }
        requires may { (t : _) → t.now ≡ frame n self.old.bytes.now → length t.now ≡ 4096 → F.pre write t }
        ensures frame { FnOnceReturnsAtMut F.FnOnce write (frame n self.old.bytes.now) result (frame n self.new.bytes.now) }
        ensures only { OnlyFrame n self.old.bytes.now self.new.bytes.now }
        ensures block { self.new.bytes.ghost_name ≡ self.old.bytes.ghost_name }
    {
        write(&mut self.bytes[FRAME * n..FRAME * n + FRAME])
    }

    /// Stores the low bytes of a number at an address, if the address is in memory.
    #[tactic(auto, using(crate::proofs::Sets::storing))]
    pub fn store(&mut self, kind: StoreKind, address: u32, value: u32) -> Option<()>
        requires aligned { address % store_bytes kind ≡ 0 }
        ensures value { result ≡ (if nat_le (address + store_bytes kind) (length (memory_of self.old.bytes.now)) then Some tt else None) }
        ensures memory { memory_of self.new.bytes.now ≡ (if nat_le (address + store_bytes kind) (length (memory_of self.old.bytes.now)) then put (memory_of self.old.bytes.now) address (bytes_of (store_bytes kind) value) else memory_of self.old.bytes.now) }
        ensures control { control_of self.new.bytes.now ≡ control_of self.old.bytes.now }
        ensures block { self.new.bytes.ghost_name ≡ self.old.bytes.ghost_name }
    {
        let k = self.block().walk(address)?;
        access::write(self.bytes, kind, k, value);
        Some(())
    }
}
