//! One instruction of a task, whose registers are at hand.
ghost use Rattle.std.specs.Prelude.{◌≡◌, ℕ, List, ◌++◌, drop};
ghost use Rattle.cpu.specs.declared.call.Answer.TheVariants.{Value};
ghost use Rattle.cpu.specs.Core.{Core};
ghost use Rattle.cpu.specs.Held.{core_of};
ghost use Rattle.cpu.specs.Rv32i.{answered};
ghost use Rattle.cpu.specs.Rv32i.{called as call_by};
ghost use Rattle.model.specs.World.{Run};
ghost use Rattle.model.specs.Tick.{called, update, first_heard};
ghost use Rattle.memory.specs.Frames.{frame, OnlyFrame};
ghost use Rattle.tasks.specs.Unheard.{heard_in};
ghost use Rattle.partition.specs.Block.{over, TableKept};
ghost use Rattle.partition.specs.Stretch.{none_seen};
ghost use Rattle.partition.specs.Steps.{Did, Still, said_by, turned_by};

use crate::came::Came;
use crate::frames::UNHEARD;
use cpu::call::{Answer, Call};
use cpu::effect::Effect;
use cpu::registers::Registers;
use memory::block_mut::BlockMut;
use tasks::ring::Ring;

/// Takes the byte from outside that came first: the answer of the call that hears.
fn hear(b: &mut BlockMut<'_>) -> Answer
    ensures value { result ≡ Value (first_heard (heard_in (frame 3 b.old.bytes.now))) }
    ensures heard { heard_in (frame 3 b.new.bytes.now) ≡ drop 1 (heard_in (frame 3 b.old.bytes.now)) }
    ensures only { OnlyFrame 3 b.old.bytes.now b.new.bytes.now }
    ensures bytes { b.new.bytes.ghost_name ≡ b.old.bytes.ghost_name }
{
    match b.with_frame(UNHEARD, |frame: &mut [u8]| Ring::new(frame).hear()) {
        Some(byte) => Answer::Value(u32::from(byte)),
        None => Answer::NO,
    }
}

/// Does the call that the registers say, in a tick. A partition with no end of any channel is refused each send and take.
fn call(b: &mut BlockMut<'_>, core: &mut Registers, time: u64) -> Came
    ensures part { (q i : ℕ) (rs : List (Run Core)) (s : List (ℕ × ℕ)) → (called q time none_seen (over b.old.bytes.now rs s) i (call_by (core_of core.old)) (answered (core_of core.old))).part ≡ over b.new.bytes.now (update rs i (turned_by result (core_of core.new))) (s ++ said_by time result) }
    ensures still { Still result (core_of core.old) (core_of core.new) }
    ensures kept { TableKept b.old.bytes.now b.new.bytes.now }
    ensures bytes { b.new.bytes.ghost_name ≡ b.old.bytes.ghost_name }
{
    match core.call() {
        Call::Show(byte) => {
            core.answer(Answer::Value(0));
            Came::Shows(byte)
        }
        Call::Wait => {
            core.answer(Answer::Value(0));
            Came::Waits
        }
        Call::Clock => {
            core.answer(Answer::Value((time % 4294967296) as u32));
            Came::Goes
        }
        Call::Hear => {
            let answer = hear(b);
            core.answer(answer);
            Came::Goes
        }
        Call::Send { .. } | Call::Take { .. } | Call::Unknown => {
            core.answer(Answer::NO);
            Came::Goes
        }
    }
}

/// Does the instruction at the pc, in a tick.
pub(crate) fn instruction(b: &mut BlockMut<'_>, core: &mut Registers, time: u64) -> Came
    ensures did { Did b.old.bytes.now b.new.bytes.now (core_of core.old) (core_of core.new) time result }
    ensures bytes { b.new.bytes.ghost_name ≡ b.old.bytes.ghost_name }
{
    let block = b.block();
    let word = block.fetch(core.pc());
    match core.step(word, block.size()) {
        Effect::Sets { rd, value, next } => {
            core.set(rd, value);
            core.go(next);
            Came::Goes
        }
        Effect::Goes { next } => {
            core.go(next);
            Came::Goes
        }
        Effect::Loads { rd, kind, address } => {
            let Some(value) = block.load(kind, address) else {
                return Came::Stops;
            };
            core.set(rd, value);
            core.go_on();
            Came::Goes
        }
        Effect::Stores {
            kind,
            address,
            value,
        } => {
            let Some(()) = b.store(kind, address, value) else {
                return Came::Stops;
            };
            core.go_on();
            Came::Goes
        }
        Effect::Calls => call(b, core, time),
        Effect::Wrong => Came::Stops,
    }
}
