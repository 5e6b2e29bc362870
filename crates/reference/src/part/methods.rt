//! What becomes of a partition.
#![tactic(auto, unfolding(crate::specs::Parts::tasks_of, crate::specs::Parts::runs_of, crate::specs::Parts::heard_of, model::specs::Tick::first_heard, model::specs::Tick::better))]

ghost use Rattle.std.specs.Prelude.{◌≡◌, ◌<◌, ◌↔◌, [], ◌∷◌, ◌++◌, length, drop, if◌then◌else◌, Some, nat_lt, slice_index_or, slice_set, IsOk, OnOk, OnErr};
ghost use Rattle.std.specs.List.{slice_get};
ghost use Rattle.cpu.specs.Core.{fresh};
ghost use Rattle.cpu.specs.Rv32i.{rv32i};
ghost use Rattle.cpu.specs.declared.call.Answer.TheVariants.{Value};
ghost use Rattle.model.specs.declared.plan.State.TheVariants.{Ready};
ghost use Rattle.model.specs.World.{no_task};
ghost use Rattle.model.specs.Tick.{looked, first_ready, first_heard, better, most_unheard, new_runs};
ghost use Rattle.reference.specs.Parts.{tasks_of, runs_of, heard_of, run_of};

use super::{Full, Partition};
use crate::kept::Kept;
use crate::task::{Progress, Running};
use arrayvec::ArrayVec;
use cpu::call::Answer;
use model::plan::Task;

impl Partition {
    /// A partition without tasks.
    pub fn new() -> Partition
        ensures tasks { tasks_of result ≡ [] }
        ensures runs { runs_of result ≡ [] }
        ensures heard { heard_of result ≡ [] }
    {
        Partition {
            tasks: ArrayVec::new(),
            heard: Kept::new(),
        }
    }

    /// One task more, new; refused, and nothing changed, where there are sixteen.
    pub fn add(&mut self, plan: Task) -> Result<(), Full>
        ensures value { IsOk result ↔ (length (tasks_of self.old) < 16) }
        ensures tasks { OnOk result (tasks_of self.new ≡ tasks_of self.old ++ plan ∷ []) }
        ensures runs { OnOk result (runs_of self.new ≡ runs_of self.old ++ record { state = Ready; core = fresh (length (tasks_of self.old)); began = 0; late = 0 } ∷ []) }
        ensures heard { heard_of self.new ≡ heard_of self.old }
        ensures full { OnErr result (self.new ≡ self.old) }
    {
        let number = self.tasks.len() as u8;
        self.tasks
            .try_push(Running::new(plan, number))
            .map_err(|_| Full)
    }

    /// All tasks are as at the start, and nothing is unheard.
    pub(crate) fn renew(&mut self)
        ensures tasks { tasks_of self.new ≡ tasks_of self.old }
        ensures runs { runs_of self.new ≡ new_runs rv32i 0 (tasks_of self.old) }
        ensures heard { heard_of self.new ≡ [] }
    {
        self.heard.clear();
        for (i, task) in self.tasks.iter_mut().enumerate() {
            task.progress = Progress::new(i as u8);
        }
    }

    /// A byte from outside comes; where as many wait as may, it is lost.
    pub(crate) fn arrive(&mut self, byte: u8)
        ensures tasks { tasks_of self.new ≡ tasks_of self.old }
        ensures runs { runs_of self.new ≡ runs_of self.old }
        ensures heard { heard_of self.new ≡ (if nat_lt (length (heard_of self.old)) most_unheard then heard_of self.old ++ byte ∷ [] else heard_of self.old) }
    {
        self.heard.push_if_room(byte);
    }

    /// Takes the unheard byte that came first.
    pub(crate) fn hear(&mut self) -> Answer
        ensures value { result ≡ Value (first_heard (heard_of self.old)) }
        ensures tasks { tasks_of self.new ≡ tasks_of self.old }
        ensures runs { runs_of self.new ≡ runs_of self.old }
        ensures heard { heard_of self.new ≡ drop 1 (heard_of self.old) }
    {
        let Some(&byte) = self.heard.as_slice().first() else {
            return Answer::NO;
        };
        self.heard.drop_first();
        Answer::Value(u32::from(byte))
    }

    /// Looks at all tasks: each that waits may begin anew, and each that is ready may be late.
    pub(crate) fn look(&mut self, time: u64)
        ensures tasks { tasks_of self.new ≡ tasks_of self.old }
        ensures runs { runs_of self.new ≡ looked rv32i (tasks_of self.old) 0 time (runs_of self.old) }
        ensures heard { heard_of self.new ≡ heard_of self.old }
    {
        for (i, task) in self.tasks.iter_mut().enumerate() {
            task.progress.wake(task.plan, i as u8, time);
            task.progress.check(task.plan, time);
        }
    }

    /// The priority of a task.
    fn priority(&self, i: usize) -> u8
        ensures value { result ≡ (slice_index_or (tasks_of self.now) i no_task).priority }
    {
        self.tasks.get(i).map_or(0, |task| task.plan.priority)
    }

    /// The one that goes first of task i and the best of those behind it.
    fn better(&self, i: usize, ready: bool, best: Option<usize>) -> Option<usize>
        ensures value { result ≡ better (tasks_of self.now) i ready best }
    {
        if !ready {
            return best;
        }
        let Some(j) = best else {
            return Some(i);
        };
        if self.priority(i) < self.priority(j) {
            Some(j)
        } else {
            Some(i)
        }
    }

    /// The ready task with the highest priority, the first of equals.
    pub(crate) fn first_ready(&self) -> Option<usize>
        ensures value { result ≡ first_ready (tasks_of self.now) 0 (runs_of self.now) }
    {
        let mut best = None;
        // Stays a range: of `rfold` and `max_by_key` over numbered items, which of equals they give isn't proved.
        for i in (0..self.tasks.len()).rev() {
            best = self.better(i, self.tasks[i].progress.is_ready(), best);
        }
        best
    }

    /// How far task i is.
    pub(crate) fn progress(&self, i: usize) -> Progress
        requires { i < length (tasks_of self.now) }
        ensures value { slice_get (runs_of self.now) i ≡ Some (run_of result) }
    {
        self.tasks[i].progress
    }

    /// Task i, if there is one, is so far now.
    pub(crate) fn put(&mut self, i: usize, progress: Progress)
        ensures tasks { tasks_of self.new ≡ tasks_of self.old }
        ensures runs { runs_of self.new ≡ slice_set (runs_of self.old) i (run_of progress) }
        ensures heard { heard_of self.new ≡ heard_of self.old }
    {
        if let Some(task) = self.tasks.get_mut(i) {
            task.progress = progress;
        }
    }
}
