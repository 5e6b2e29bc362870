//! The one task of a partition, in its table.
ghost use Rattle.std.specs.Prelude.{◌≡◌, true};
ghost use Rattle.cpu.specs.Core.{fresh};
ghost use Rattle.cpu.specs.Held.{core_of};
ghost use Rattle.cpu.specs.Rv32i.{rv32i};
ghost use Rattle.model.specs.declared.plan.State.TheVariants.{Ready};
ghost use Rattle.model.specs.Tick.{is_ready, checked, woken};
ghost use Rattle.memory.specs.Frames.{frame, OnlyFrame};
ghost use Rattle.tasks.specs.Records.{run_at, task_at};
ghost use Rattle.tasks.specs.Lent.{run_of, task_of, Kept};
ghost use Rattle.partition.specs.Steps.{ended_by};

use crate::frames::TABLE;
use cpu::registers::Registers;
use memory::block_mut::BlockMut;
use model::plan::{State, Task};
use tasks::record_mut::RecordMut;

/// The task's number.
pub(crate) const TASK: usize = 0;

/// A new task with this plan.
pub(crate) fn place(b: &mut BlockMut<'_>, plan: Task)
    ensures run { run_at (frame 2 b.new.bytes.now) 0 ≡ record { state = Ready; core = fresh 0; began = 0; late = 0 } }
    ensures plan { task_at (frame 2 b.new.bytes.now) 0 ≡ plan }
    ensures only { OnlyFrame 2 b.old.bytes.now b.new.bytes.now }
    ensures bytes { b.new.bytes.ghost_name ≡ b.old.bytes.ghost_name }
{
    b.with_frame(
        TABLE,
        |table: &mut [u8]| RecordMut::new(table, TASK).place(plan),
    );
}

/// Looks at the task: whether it begins anew, and then whether it is late.
pub(crate) fn look(b: &mut BlockMut<'_>, time: u64)
    ensures run { run_at (frame 2 b.new.bytes.now) 0 ≡ checked (task_at (frame 2 b.old.bytes.now) 0) time (woken rv32i (task_at (frame 2 b.old.bytes.now) 0) 0 time (run_at (frame 2 b.old.bytes.now) 0)) }
    ensures plan { task_at (frame 2 b.new.bytes.now) 0 ≡ task_at (frame 2 b.old.bytes.now) 0 }
    ensures only { OnlyFrame 2 b.old.bytes.now b.new.bytes.now }
    ensures bytes { b.new.bytes.ghost_name ≡ b.old.bytes.ghost_name }
{
    b.with_frame(
        TABLE,
        |table: &mut [u8]| RecordMut::new(table, TASK).look(time),
    );
}

/// What became of the task, which is ready, goes back into its record.
pub(crate) fn settle(b: &mut BlockMut<'_>, end: State, core: Registers)
    requires ready { is_ready (run_at (frame 2 b.old.bytes.now) 0).state ≡ true }
    ensures run { run_at (frame 2 b.new.bytes.now) 0 ≡ ended_by end (core_of core) (run_at (frame 2 b.old.bytes.now) 0) }
    ensures plan { task_at (frame 2 b.new.bytes.now) 0 ≡ task_at (frame 2 b.old.bytes.now) 0 }
    ensures only { OnlyFrame 2 b.old.bytes.now b.new.bytes.now }
    ensures bytes { b.new.bytes.ghost_name ≡ b.old.bytes.ghost_name }
{
    b.with_frame(
        TABLE,
        |table: &mut [u8]| leave(&mut RecordMut::new(table, TASK), end, core),
    );
}

// Stays beside `settle`: this one knows a record alone, and that one which frame of the block the record lies in.
/// The same, in the record.
fn leave(task: &mut RecordMut<'_>, end: State, core: Registers)
    requires ready { is_ready (run_of task.old).state ≡ true }
    ensures run { run_of task.new ≡ ended_by end (core_of core) (run_of task.old) }
    ensures plan { task_of task.new ≡ task_of task.old }
    ensures kept { Kept task.old task.new }
{
    match end {
        State::Ready => task.go_on(core),
        State::Waiting => task.wait(core),
        State::Stopped => {
            task.go_on(core);
            task.stop();
        }
    }
}
