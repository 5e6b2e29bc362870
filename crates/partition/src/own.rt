//! A partition's own block, and its own ticks.
ghost use Rattle.std.specs.Prelude.{◌≡◌, ℕ, ◌+◌, ◌*◌, ◌<◌, ◌≤◌, [], List, length};
ghost use Rattle.cpu.specs.Rv32i.{rv32i};
ghost use Rattle.model.specs.Tick.{hearing, new_runs};
ghost use Rattle.memory.specs.Frames.{memory_of, frame, pages_of, Mapped, OnlyFrame};
ghost use Rattle.tasks.specs.Unheard.{heard_in};
ghost use Rattle.plan.specs.Views.{memory_of as memory_in, tasks_of as tasks_in};
ghost use Rattle.partition.specs.Block.{count_of, part_of, tasks_of, Own};
ghost use Rattle.partition.specs.Shown.{HasRoom, Ran};

use crate::burst::burst;
use crate::frames::{COUNT, TABLE, UNHEARD};
use crate::shown::Shown;
use crate::stretch::Stretch;
use crate::task::{TASK, look, place, settle};
use memory::block_mut::BlockMut;
use memory::tables;
use plan::view::View;
use tasks::record::Record;
use tasks::ring::Ring;

/// The block of partition q of a plan at the start, whatever it held before: its memory is the plan's, its tasks are ready and
/// new, and nothing is unheard.
pub fn lay(b: &mut [u8], view: &View<'_>, q: u8)
    requires size { length b.old ≡ 32768 + length (memory_in view.now q) }
    requires whole { length b.old ≡ 32768 + 4096 * pages_of b.old }
    requires few { pages_of b.old ≤ 1024 }
    requires one { length (tasks_in view.now q) ≤ 1 }
    ensures part { part_of b.new [] ≡ record { memory = memory_in view.now q; tasks = new_runs rv32i 0 (tasks_in view.now q); heard = []; shown = [] } }
    ensures plan { tasks_of b.new ≡ tasks_in view.now q }
    ensures own { Own b.new }
{
    fill(b, view.memory_bytes(q));
    begin(&mut BlockMut { bytes: b }, view, q);
}

// A clause `bytes` says, here and in all of this crate, that the block is the same loan as before: so its lender learns what
// came back. It is said of each function: a ghost field speaks of one value, and not of before and after.
/// A byte from outside comes, and is kept until it is heard, if there is a place for it.
#[tactic(auto, using(crate::proofs::Sets::arriving))]
pub fn arrive(b: &mut BlockMut<'_>, byte: u8)
    ensures part { (s : List (ℕ × ℕ)) → part_of b.new.bytes.now s ≡ hearing byte (part_of b.old.bytes.now s) }
    ensures plan { tasks_of b.new.bytes.now ≡ tasks_of b.old.bytes.now }
    ensures count { count_of b.new.bytes.now ≡ count_of b.old.bytes.now }
    ensures bytes { b.new.bytes.ghost_name ≡ b.old.bytes.ghost_name }
{
    b.with_frame(UNHEARD, |frame: &mut [u8]| Ring::new(frame).arrive(byte));
}

/// Own ticks. What is shown is written behind what is shown already.
pub fn own_ticks(b: &mut BlockMut<'_>, stretch: Stretch, shown: &mut Shown<'_>)
    requires few { count_of b.old.bytes.now ≤ 1 }
    requires room { HasRoom shown.old stretch.ticks }
    ensures ran { Ran b.old.bytes.now b.new.bytes.now shown.old shown.new stretch.from stretch.ticks }
    ensures bytes { b.new.bytes.ghost_name ≡ b.old.bytes.ghost_name }
{
    if count(b) == 0 {
        return;
    }
    let mut done = 0;
    // Stays a `while`: a bout takes as many ticks as it can, one at least.
    while done < stretch.ticks {
        let left = Stretch {
            from: stretch.from + done,
            ticks: stretch.ticks - done,
        };
        done += bout(b, left, shown);
    }
}

/// Page tables, and the memory at the start behind the control frames.
fn fill(b: &mut [u8], memory: &[u8])
    requires size { length b.old ≡ 32768 + length memory.now }
    requires whole { length b.old ≡ 32768 + 4096 * pages_of b.old }
    requires few { pages_of b.old ≤ 1024 }
    ensures memory { memory_of b.new ≡ memory.now }
    ensures mapped { Mapped b.new }
{
    tables::map(b);
    octets::copy(b, tables::CONTROL, memory);
}

/// What stands in the control frames behind the tables at the start.
#[tactic(auto, using(crate::proofs::Sets::beginning))]
fn begin(b: &mut BlockMut<'_>, view: &View<'_>, q: u8)
    requires memory { memory_of b.old.bytes.now ≡ memory_in view.now q }
    requires one { length (tasks_in view.now q) ≤ 1 }
    ensures part { part_of b.new.bytes.now [] ≡ record { memory = memory_in view.now q; tasks = new_runs rv32i 0 (tasks_in view.now q); heard = []; shown = [] } }
    ensures plan { tasks_of b.new.bytes.now ≡ tasks_in view.now q }
    ensures few { count_of b.new.bytes.now ≤ 1 }
    ensures bytes { b.new.bytes.ghost_name ≡ b.old.bytes.ghost_name }
{
    clear(b);
    match view.task(q, 0) {
        Some(task) => {
            place(b, task);
            set_count(b, 1);
        }
        None => set_count(b, 0),
    }
}

/// Nothing is unheard.
fn clear(b: &mut BlockMut<'_>)
    ensures heard { heard_in (frame 3 b.new.bytes.now) ≡ [] }
    ensures only { OnlyFrame 3 b.old.bytes.now b.new.bytes.now }
    ensures bytes { b.new.bytes.ghost_name ≡ b.old.bytes.ghost_name }
{
    b.with_frame(UNHEARD, |frame: &mut [u8]| Ring::new(frame).clear());
}

/// So many tasks.
#[tactic(auto, using(crate::proofs::Kept::count_written))]
fn set_count(b: &mut BlockMut<'_>, n: u8)
    ensures value { count_of b.new.bytes.now ≡ n }
    ensures only { OnlyFrame 4 b.old.bytes.now b.new.bytes.now }
    ensures bytes { b.new.bytes.ghost_name ≡ b.old.bytes.ghost_name }
{
    b.with_frame(COUNT, |frame: &mut [u8]| octets::write(frame, 0, n));
}

/// How many tasks the partition has.
#[tactic(auto, using(crate::proofs::Kept::count_is))]
fn count(b: &BlockMut<'_>) -> u8
    ensures value { result ≡ count_of b.now.bytes.now }
{
    octets::read(b.block().frame(COUNT), 0)
}

/// Some own ticks, of these: the task is looked at, and if it is ready it goes, as long as looking at it again would change
/// nothing. Comes back how many.
fn bout(b: &mut BlockMut<'_>, stretch: Stretch, shown: &mut Shown<'_>) -> u64
    requires one { count_of b.old.bytes.now ≡ 1 }
    requires some { 0 < stretch.ticks }
    requires room { HasRoom shown.old stretch.ticks }
    ensures ran { Ran b.old.bytes.now b.new.bytes.now shown.old shown.new stretch.from result }
    ensures some { (0 < result) × (result ≤ stretch.ticks) }
    ensures bytes { b.new.bytes.ghost_name ≡ b.old.bytes.ghost_name }
{
    look(b, stretch.from);
    let record = Record::new(b.block().frame(TABLE), TASK);
    let ticks = record.until(stretch.from + 1).min(stretch.ticks - 1) + 1;
    if !record.is_ready() {
        return ticks;
    }
    let mut core = record.registers();
    let left = Stretch {
        from: stretch.from,
        ticks,
    };
    let done = burst(b, &mut core, left, shown);
    settle(b, done.end, core);
    done.ticks
}
