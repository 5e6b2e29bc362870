//! A task's record: what becomes of it.
ghost use Rattle.std.specs.Prelude.{◌≡◌, ◌+◌, ◌<◌, true, length, nat_le};
ghost use Rattle.cpu.specs.Core.{fresh};
ghost use Rattle.cpu.specs.Held.{core_of};
ghost use Rattle.cpu.specs.Rv32i.{rv32i};
ghost use Rattle.model.specs.declared.plan.State.TheVariants.{Ready};
ghost use Rattle.model.specs.Tick.{is_ready, woken, checked, goes_on, waits, stops};
ghost use Rattle.tasks.specs.Codes.{state_of, late_of};

use crate::code::Code;
use crate::record::{
    BEGAN, DEADLINE, LATE, LATES, PC, PERIOD, PRIORITY, RECORD, REGISTERS, Record,
};
use cpu::registers::Registers;
use model::plan::{State, Task};

/// A task's record in a table that is lent to be written, by its number.
#[derive(Drop)]
pub struct RecordMut<'a> {
    pub table: &'a mut [u8],
    pub number: usize,
    ghost size: { length table.now ≡ 4096 },
    ghost below: { number < 16 },
}

// What is kept is said of each method: a ghost field speaks of one value, and not of before and after.
impl<'a> RecordMut<'a> {
    ghost use Rattle.tasks.specs.Lent.{run_of, task_of, run_in, task_in, Kept};

    /// The record of the task with this number.
    pub fn new(table: &'a mut [u8], number: usize) -> RecordMut<'a>
        requires size { length table.old ≡ 4096 }
        requires below { number < 16 }
        ensures table { result.table.now ≡ table.old }
        ensures lent { result.table.ghost_name ≡ table.entry.ghost_name }
        ensures number { result.number ≡ number }
    {
        RecordMut { table, number }
    }

    /// The record, to be read.
    pub fn record(&self) -> Record<'_>
        ensures table { result.table.now ≡ self.now.table.now }
        ensures number { result.number ≡ self.now.number }
        ensures run { run_in result ≡ run_of self.now }
        ensures plan { task_in result ≡ task_of self.now }
    {
        Record {
            table: self.table,
            number: self.number,
        }
    }

    /// A new task with this plan.
    pub fn place(&mut self, plan: Task)
        ensures run { run_of self.new ≡ record { state = Ready; core = fresh self.old.number; began = 0; late = 0 } }
        ensures plan { task_of self.new ≡ plan }
        ensures kept { Kept self.old self.new }
    {
        self.set_plan(plan);
        self.set_state(Code::Ready, 0);
        self.set_began(0);
        self.set_core(Registers::new(self.number as u8));
    }

    /// Looks at the task: whether it begins anew, and then whether it is late.
    pub fn look(&mut self, time: u64)
        ensures run { run_of self.new ≡ checked (task_of self.old) time (woken rv32i (task_of self.old) self.old.number time (run_of self.old)) }
        ensures plan { task_of self.new ≡ task_of self.old }
        ensures kept { Kept self.old self.new }
    {
        self.wake(time);
        self.check(time);
    }

    /// A waiting task begins anew when its period is over.
    #[tactic(auto, using(crate::proofs::Sets::waking))]
    fn wake(&mut self, time: u64)
        ensures run { run_of self.new ≡ woken rv32i (task_of self.old) self.old.number time (run_of self.old) }
        ensures plan { task_of self.new ≡ task_of self.old }
        ensures kept { Kept self.old self.new }
    {
        let record = self.record();
        if record.state() != State::Waiting {
            return;
        }
        let began = record.began();
        let period = record.plan().period;
        if !is_over(began, period, time) {
            return;
        }
        let late = record.late();
        self.set_state(Code::Ready, late);
        self.set_began(began + u64::from(period));
        self.set_core(Registers::new(self.number as u8));
    }

    /// A ready task whose deadline has come is late once more.
    #[tactic(auto, using(crate::proofs::Sets::checking))]
    fn check(&mut self, time: u64)
        ensures run { run_of self.new ≡ checked (task_of self.old) time (run_of self.old) }
        ensures plan { task_of self.new ≡ task_of self.old }
        ensures kept { Kept self.old self.new }
    {
        let record = self.record();
        if record.state() != State::Ready {
            return;
        }
        let plan = record.plan();
        if !is_over(record.began(), plan.deadline, time) {
            return;
        }
        let late = record.late();
        if plan.lates <= late {
            self.set_state(Code::StoppedLate, late);
        } else {
            self.set_state(Code::Waiting, late + 1);
        }
    }

    /// The task, which is ready, goes on with this core.
    #[tactic(auto, using(crate::proofs::Sets::going))]
    pub fn go_on(&mut self, core: Registers)
        requires ready { is_ready (run_of self.old).state ≡ true }
        ensures run { run_of self.new ≡ goes_on (core_of core) (run_of self.old) }
        ensures plan { task_of self.new ≡ task_of self.old }
        ensures kept { Kept self.old self.new }
    {
        self.set_core(core);
    }

    /// The task waits with this core for its next period, and has not been late any more.
    #[tactic(auto, using(crate::proofs::Sets::waiting))]
    pub fn wait(&mut self, core: Registers)
        ensures run { run_of self.new ≡ waits (core_of core) (run_of self.old) }
        ensures plan { task_of self.new ≡ task_of self.old }
        ensures kept { Kept self.old self.new }
    {
        self.set_core(core);
        self.set_state(Code::Waiting, 0);
    }

    /// The task, which is ready, does nothing more; its core stays.
    #[tactic(auto, using(crate::proofs::Sets::stopping))]
    pub fn stop(&mut self)
        requires ready { is_ready (run_of self.old).state ≡ true }
        ensures run { run_of self.new ≡ stops (run_of self.old) }
        ensures plan { task_of self.new ≡ task_of self.old }
        ensures kept { Kept self.old self.new }
    {
        let late = self.record().late();
        self.set_state(Code::Stopped, late);
    }

    /// Writes the code of the state, and how often the task was late.
    #[tactic(auto, using(crate::proofs::Sets::coding))]
    fn set_state(&mut self, code: Code, late: u8)
        ensures run { run_of self.new ≡ record { state = state_of code; core = (run_of self.old).core; began = (run_of self.old).began; late = late_of code late } }
        ensures plan { task_of self.new ≡ task_of self.old }
        ensures kept { Kept self.old self.new }
    {
        octets::write(self.table, RECORD * self.number, u8::from(code));
        octets::write(self.table, RECORD * self.number + LATE, late);
    }

    /// Writes when the task last began.
    #[tactic(auto, using(crate::proofs::Sets::beginning))]
    fn set_began(&mut self, began: u64)
        ensures run { run_of self.new ≡ record { state = (run_of self.old).state; core = (run_of self.old).core; began = began; late = (run_of self.old).late } }
        ensures plan { task_of self.new ≡ task_of self.old }
        ensures kept { Kept self.old self.new }
    {
        octets::write(self.table, RECORD * self.number + BEGAN, began);
    }

    /// Writes the task's core.
    #[tactic(auto, using(crate::proofs::Sets::registering))]
    fn set_core(&mut self, core: Registers)
        ensures run { run_of self.new ≡ record { state = (run_of self.old).state; core = core_of core; began = (run_of self.old).began; late = (run_of self.old).late } }
        ensures plan { task_of self.new ≡ task_of self.old }
        ensures kept { Kept self.old self.new }
    {
        octets::write(self.table, RECORD * self.number + PC, core.pc());
        let first = RECORD * self.number + REGISTERS;
        for (r, value) in core.all().iter().enumerate() {
            octets::write(self.table, first + 4 * r, *value);
        }
    }

    /// Writes the task's plan.
    #[tactic(auto, using(crate::proofs::Sets::planning))]
    fn set_plan(&mut self, plan: Task)
        ensures plan { task_of self.new ≡ plan }
        ensures kept { Kept self.old self.new }
    {
        octets::write(self.table, RECORD * self.number + PRIORITY, plan.priority);
        octets::write(self.table, RECORD * self.number + LATES, plan.lates);
        octets::write(self.table, RECORD * self.number + PERIOD, plan.period);
        octets::write(self.table, RECORD * self.number + DEADLINE, plan.deadline);
    }
}

/// Whether so many ticks have passed since a beginning.
fn is_over(began: u64, ticks: u32, time: u64) -> bool
    ensures value { result ≡ nat_le (began + ticks) time }
{
    began <= time && time - began >= u64::from(ticks)
}
