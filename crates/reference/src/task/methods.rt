//! What becomes of a task.
#![tactic(auto, unfolding(crate::specs::Parts::run_of, model::specs::Tick::is_ready, model::specs::Tick::is_waiting, model::specs::Tick::woken, model::specs::Tick::checked))]

ghost use Rattle.std.specs.Prelude.{◌≡◌, ◌+◌, nat_le};
ghost use Rattle.cpu.specs.Core.{fresh};
ghost use Rattle.cpu.specs.Rv32i.{rv32i, answered, called};
ghost use Rattle.cpu.specs.Held.{core_of};
ghost use Rattle.model.specs.declared.plan.State.TheVariants.{Ready, Waiting, Stopped};
ghost use Rattle.model.specs.Tick.{woken, checked, is_ready};
ghost use Rattle.reference.specs.Parts.{run_of};

use super::{Progress, Running};
use cpu::call::{Answer, Call};
use cpu::registers::Registers;
use model::plan::{State, Task};

impl Progress {
    /// A new task of this number.
    pub(crate) fn new(number: u8) -> Progress
        ensures { run_of result ≡ record { state = Ready; core = fresh number; began = 0; late = 0 } }
    {
        Progress {
            state: State::Ready,
            core: Registers::new(number),
            began: 0,
            late: 0,
        }
    }

    /// Whether it may do an instruction.
    pub(crate) fn is_ready(&self) -> bool
        ensures { result ≡ is_ready (run_of self.now).state }
    {
        self.state == State::Ready
    }

    /// Its core.
    pub(crate) fn core(&self) -> Registers
        ensures { core_of result ≡ (run_of self.now).core }
    {
        self.core
    }

    /// The call that it makes.
    pub(crate) fn call(&self) -> Call
        ensures { result ≡ called (run_of self.now).core }
    {
        self.core.call()
    }

    /// Whether so many ticks have passed since it began.
    fn is_over(&self, ticks: u32, time: u64) -> bool
        ensures { result ≡ nat_le ((run_of self.now).began + ticks) time }
    {
        time >= self.began && time - self.began >= u64::from(ticks)
    }

    /// A waiting task begins anew when its period is over.
    pub(crate) fn wake(&mut self, plan: Task, number: u8, time: u64)
        ensures { run_of self.new ≡ woken rv32i plan number time (run_of self.old) }
    {
        let State::Waiting = self.state else {
            return;
        };
        if !self.is_over(plan.period, time) {
            return;
        }
        self.state = State::Ready;
        self.core = Registers::new(number);
        self.began += u64::from(plan.period);
    }

    /// A ready task whose deadline has come is late.
    pub(crate) fn check(&mut self, plan: Task, time: u64)
        ensures { run_of self.new ≡ checked plan time (run_of self.old) }
    {
        let State::Ready = self.state else {
            return;
        };
        if !self.is_over(plan.deadline, time) {
            return;
        }
        self.state = if u16::from(plan.lates) <= self.late {
            State::Stopped
        } else {
            State::Waiting
        };
        self.late += 1;
    }

    /// It goes on with this core.
    pub(crate) fn with_core(mut self, core: Registers) -> Progress
        ensures { run_of result ≡ record (run_of self) { core = core_of core } }
    {
        self.core = core;
        self
    }

    /// It goes on with what comes back of its call.
    pub(crate) fn answered(mut self, answer: Answer) -> Progress
        ensures { run_of result ≡ record (run_of self) { core = answered (run_of self).core answer } }
    {
        self.core.answer(answer);
        self
    }

    /// It waits for its next period, and has not been late any more.
    pub(crate) fn waits(mut self) -> Progress
        ensures { run_of result ≡ record (run_of self) { state = Waiting; late = 0 } }
    {
        self.state = State::Waiting;
        self.late = 0;
        self
    }

    /// It does nothing more.
    pub(crate) fn stops(mut self) -> Progress
        ensures { run_of result ≡ record (run_of self) { state = Stopped } }
    {
        self.state = State::Stopped;
        self
    }
}

impl Running {
    /// A new task of this number.
    pub(crate) fn new(plan: Task, number: u8) -> Running
        ensures plan { result.plan ≡ plan }
        ensures run { run_of result.progress ≡ record { state = Ready; core = fresh number; began = 0; late = 0 } }
    {
        Running {
            plan,
            progress: Progress::new(number),
        }
    }
}

/// What stands in a place that holds no task.
impl Default for Running {
    fn default() -> Running {
        let none = Task {
            priority: 0,
            period: 1,
            deadline: 1,
            lates: 0,
        };
        Running::new(none, 0)
    }
}
