//! The records of a plan as bytes, one behind the other.
ghost use Rattle.std.specs.Prelude.{◌≡◌, ℕ, ◌+◌, ◌≤◌, List, length};
ghost use Rattle.std.specs.List.{flat_map, All};
ghost use Rattle.octets.specs.Bytes.{bytes_of};
ghost use Rattle.plan.specs.Layout.{header};
ghost use Rattle.plan.specs.Drafts.{window_bytes, channel_bytes, task_bytes, head_bytes};
ghost use Rattle.plan.specs.Writes.{Puts};

use crate::head::{Header, PartHead};
use crate::record::TIME;
use model::plan::{Channel, Task, Window};
use octets::{Number, copy, write};

/// What can be written into a plan's bytes.
pub(crate) trait ToBytes: Copy {
    /// Its bytes.
    ghost bytes: { Self → List ℕ };

    /// Whether its numbers fit into them.
    ghost can_write: { Self → Type 0 } = { λ _. Unit {0} };

    /// Writes it at `k`; the place behind it.
    fn write(self, out: &mut [u8], k: usize) -> usize
        requires fits { can_write self }
        requires room { k + length (bytes self) ≤ length out.old }
        ensures puts { Puts out.old out.new k result (bytes self) };
}

/// Writes all of them from `k` on, one behind the other; the place behind them.
pub(crate) fn write_all<R: ToBytes>(out: &mut [u8], from: usize, records: &[R]) -> usize
    requires fit { All R.can_write records.now }
    requires room { from + length (flat_map R.bytes records.now) ≤ length out.old }
    ensures puts { Puts out.old out.new from result (flat_map R.bytes records.now) }
{
    let mut k = from;
    for r in records {
        k = r.write(out, k);
    }
    k
}

/// Writes a number at `k`; the place behind it.
fn put<N: Number>(out: &mut [u8], k: usize, v: N) -> usize
    requires { k + N.SIZE ≤ length out.old }
    ensures puts { Puts out.old out.new k result (bytes_of N.SIZE (N.value v)) }
    ensures place { result ≡ k + N.SIZE }
{
    write(out, k, v);
    k + N::SIZE
}

/// Copies bytes in at `k`; the place behind them.
pub(crate) fn put_bytes(out: &mut [u8], k: usize, bytes: &[u8]) -> usize
    requires { k + length bytes.now ≤ length out.old }
    ensures puts { Puts out.old out.new k result bytes.now }
{
    copy(out, k, bytes);
    k + bytes.len()
}

impl ToBytes for Header {
    ghost bytes = { header.write };

    #[tactic(auto, using(crate::proofs::Writing::lengths))]
    fn write(self, out: &mut [u8], k: usize) -> usize {
        let k = put(out, k, TIME);
        let k = put(out, k, self.system);
        let k = put(out, k, self.partitions);
        let k = put(out, k, self.windows);
        put(out, k, self.channels)
    }
}

impl ToBytes for Window {
    ghost bytes = { window_bytes };

    #[tactic(auto, using(crate::proofs::Writing::lengths))]
    fn write(self, out: &mut [u8], k: usize) -> usize {
        let k = put(out, k, self.partition);
        put(out, k, self.ticks)
    }
}

impl ToBytes for Channel {
    ghost bytes = { channel_bytes };

    #[tactic(auto, using(crate::proofs::Writing::lengths))]
    fn write(self, out: &mut [u8], k: usize) -> usize {
        let k = put(out, k, self.from);
        let k = put(out, k, self.to);
        let k = put(out, k, self.bytes);
        put(out, k, self.places)
    }
}

impl ToBytes for Task {
    ghost bytes = { task_bytes };

    #[tactic(auto, using(crate::proofs::Writing::lengths))]
    fn write(self, out: &mut [u8], k: usize) -> usize {
        let k = put(out, k, self.priority);
        let k = put(out, k, self.period);
        let k = put(out, k, self.deadline);
        put(out, k, self.lates)
    }
}

impl ToBytes for PartHead {
    ghost bytes = { head_bytes };

    #[tactic(auto, using(crate::proofs::Writing::lengths))]
    fn write(self, out: &mut [u8], k: usize) -> usize {
        let k = put(out, k, self.pages);
        put(out, k, self.tasks)
    }
}
