//! One tick: bytes come, and the partition whose tick it is has its own.
ghost use Rattle.std.specs.Prelude.{◌≡◌, ℕ, ◌+◌, ◌^◌, ◌<◌, List, ◌∷◌, Some};
ghost use Rattle.cpu.specs.Rv32i.{rv32i};
ghost use Rattle.model.specs.declared.plan.Arrival.{Arrival as Arriving};
ghost use Rattle.model.specs.World.{turn};
ghost use Rattle.model.specs.Tick.{came, work, tick};
ghost use Rattle.reference.specs.Own.{said};
ghost use Rattle.reference.specs.View.{showing, after};
ghost use Rattle.reference.specs.Whole.{plan_of, view_of};

use super::World;
use crate::own::own_tick;
use crate::place::region;
use crate::shown::Shown;
use crate::turn::turn_at;
use model::plan::Arrival;

// That the plan stays, and the time, is said of each method: a ghost field speaks of one value, and not of before and after.
impl World<'_> {
    /// A byte from outside comes for its partition, if there is such a partition.
    fn arrival(&mut self, a: Arrival)
        ensures value { (s : ℕ → List (ℕ × ℕ)) (rest : List Arriving) → came rest (view_of self.new s) ≡ came (a ∷ rest) (view_of self.old s) }
        ensures plan { plan_of self.new ≡ plan_of self.old }
        ensures time { self.new.time ≡ self.old.time }
    {
        // By index, as in all that is lent here: of a slice after `get_mut` a proof knows the length alone.
        let q = a.partition as usize;
        if q < self.parts.len() {
            self.parts[q].arrive(a.byte);
        }
    }

    /// Bytes from outside come, each for its partition.
    fn arrivals(&mut self, row: &[Arrival])
        ensures value { (s : ℕ → List (ℕ × ℕ)) → view_of self.new s ≡ came row.now (view_of self.old s) }
        ensures plan { plan_of self.new ≡ plan_of self.old }
        ensures time { self.new.time ≡ self.old.time }
    {
        for a in row {
            self.arrival(*a);
        }
    }

    /// Partition q has its own tick, if there is such a partition.
    fn turn_of(&mut self, q: u8) -> Option<u8>
        ensures value { (s : ℕ → List (ℕ × ℕ)) → view_of self.new (showing s q (said self.old.time result)) ≡ work rv32i (plan_of self.old) (view_of self.old s) (Some q) }
        ensures plan { plan_of self.new ≡ plan_of self.old }
        ensures time { self.new.time ≡ self.old.time }
    {
        let k = q as usize;
        if k >= self.parts.len() {
            return None;
        }
        let own = region(self.pages, k, self.memory.len());
        let parts = &mut *self.parts;
        let memory = &mut *self.memory;
        let channels = &mut *self.channels;
        own_tick(&mut parts[k], &mut memory[own], channels, q, self.time)
    }

    /// The partition whose tick it is, at a time below 2^40, has its own. What comes back is what was shown, if anything was.
    fn work(&mut self) -> Option<Shown>
        requires { self.old.time < 2 ^ 40 }
        ensures value { (s : ℕ → List (ℕ × ℕ)) → view_of self.new (after s result) ≡ work rv32i (plan_of self.old) (view_of self.old s) (turn (plan_of self.old) self.old.time) }
        ensures plan { plan_of self.new ≡ plan_of self.old }
        ensures time { self.new.time ≡ self.old.time }
    {
        let partition = turn_at(self.system, self.windows, self.time)?;
        let byte = self.turn_of(partition)?;
        Some(Shown {
            partition,
            tick: self.time,
            byte,
        })
    }

    /// One tick, at a time below 2^40. What comes back is what was shown, if anything was.
    pub(crate) fn advance(&mut self, row: &[Arrival]) -> Option<Shown>
        requires { self.old.time < 2 ^ 40 }
        ensures value { (s : ℕ → List (ℕ × ℕ)) → view_of self.new (after s result) ≡ tick rv32i (plan_of self.old) (view_of self.old s) row.now }
        ensures plan { plan_of self.new ≡ plan_of self.old }
        ensures time { self.new.time ≡ self.old.time + 1 }
    {
        self.arrivals(row);
        let shown = self.work();
        self.time += 1;
        shown
    }
}
