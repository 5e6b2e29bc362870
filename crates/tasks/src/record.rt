//! A task's record: what it says.
ghost use Rattle.std.specs.Prelude.{◌≡◌, ℕ, ◌+◌, ◌<◌, length, ◌≢◌};
ghost use Rattle.cpu.specs.Held.{core_of};
ghost use Rattle.cpu.specs.Rv32i.{rv32i};
ghost use Rattle.model.specs.declared.plan.State.TheVariants.{Stopped};
ghost use Rattle.model.specs.Tick.{is_ready, woken, checked};
ghost use Rattle.tasks.specs.Records.{before, stays};

use crate::code::Code;
use cpu::registers::Registers;
use model::plan::{State, Task};

// Records stay bytes of a lent frame: fixed memory, no heap on the kernel's side.
/// How many bytes a record has.
pub(crate) const RECORD: usize = 256;

/// Where the parts of a record are; the code of the state is its first byte.
pub(crate) const LATE: usize = 1;

pub(crate) const PRIORITY: usize = 2;

pub(crate) const LATES: usize = 3;

pub(crate) const BEGAN: usize = 8;

pub(crate) const PC: usize = 16;

pub(crate) const PERIOD: usize = 20;

pub(crate) const DEADLINE: usize = 24;

pub(crate) const REGISTERS: usize = 128;

// Stays beside `RecordMut`, as it is read where only a `&` is at hand: no type is generic over the kind of loan.
/// A task's record in a lent table, by its number.
#[derive(Clone, Copy)]
pub struct Record<'a> {
    pub table: &'a [u8],
    pub number: usize,
    ghost size: { length table.now ≡ 4096 },
    ghost below: { number < 16 },
}

#[tactic(auto, unfolding(crate::specs::Records::run_at, crate::specs::Records::task_at))]
impl<'a> Record<'a> {
    ghost use Rattle.tasks.specs.Lent.{run_in, task_in};

    /// The record of the task with this number.
    pub fn new(table: &'a [u8], number: usize) -> Record<'a>
        requires size { length table.now ≡ 4096 }
        requires below { number < 16 }
        ensures table { result.table.now ≡ table.now }
        ensures number { result.number ≡ number }
    {
        Record { table, number }
    }

    /// What the task is doing.
    pub(crate) fn state(&self) -> State
        ensures value { result ≡ (run_in self.now).state }
    {
        State::from(Code::from(octets::read::<u8>(self.table, RECORD * self.number)))
    }

    /// How often the task, which is not stopped, has been late.
    #[tactic(auto, using(crate::proofs::Records::late_going), unfolding(crate::specs::Records::run_at))]
    pub(crate) fn late(&self) -> u8
        requires going { (run_in self.now).state ≢ Stopped }
        ensures value { result ≡ (run_in self.now).late }
    {
        octets::read(self.table, RECORD * self.number + LATE)
    }

    /// When the task last began.
    pub(crate) fn began(&self) -> u64
        ensures value { result ≡ (run_in self.now).began }
    {
        octets::read(self.table, RECORD * self.number + BEGAN)
    }

    /// The task's plan.
    pub(crate) fn plan(&self) -> Task
        ensures value { result ≡ task_in self.now }
    {
        Task {
            priority: octets::read(self.table, RECORD * self.number + PRIORITY),
            period: octets::read(self.table, RECORD * self.number + PERIOD),
            deadline: octets::read(self.table, RECORD * self.number + DEADLINE),
            lates: octets::read(self.table, RECORD * self.number + LATES),
        }
    }

    /// The task's core.
    pub fn registers(&self) -> Registers
        ensures value { core_of result ≡ (run_in self.now).core }
    {
        let mut x = [0; 32];
        for (r, value) in x.iter_mut().enumerate() {
            *value = octets::read(self.table, RECORD * self.number + REGISTERS + 4 * r);
        }
        Registers::of(octets::read(self.table, RECORD * self.number + PC), x)
    }

    /// Whether the task may do an instruction.
    #[tactic(auto, using(crate::proofs::Sets::readiness))]
    pub fn is_ready(&self) -> bool
        ensures value { result ≡ is_ready (run_in self.now).state }
    {
        self.state() == State::Ready
    }

    /// For how many ticks from this time on the task stays as it is, when it is looked at in each.
    #[tactic(auto, using(crate::proofs::Sets::staying))]
    pub fn until(&self, time: u64) -> u64
        ensures value { result ≡ stays (task_in self.now) time (run_in self.now) }
        ensures still { (k : ℕ) → k < result → checked (task_in self.now) (time + k) (woken rv32i (task_in self.now) self.now.number (time + k) (run_in self.now)) ≡ run_in self.now }
        ensures some { checked (task_in self.now) time (woken rv32i (task_in self.now) self.now.number time (run_in self.now)) ≡ run_in self.now → 0 < (task_in self.now).period → 0 < result }
    {
        match self.state() {
            State::Ready => left(self.began(), self.plan().deadline, time),
            State::Waiting => left(self.began(), self.plan().period, time),
            State::Stopped => u64::MAX,
        }
    }
}

/// How many ticks from this time on lie before so many have passed since a beginning.
#[tactic(auto, unfolding(crate::specs::Records::before))]
fn left(began: u64, ticks: u32, time: u64) -> u64
    ensures value { result ≡ before time began ticks }
{
    if began <= time {
        u64::from(ticks).saturating_sub(time - began)
    } else {
        (began - time).saturating_add(u64::from(ticks))
    }
}
