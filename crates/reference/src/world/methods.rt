//! What becomes of the computer.
ghost use Rattle.std.specs.Prelude.{◌≡◌, ℕ, ◌^◌, ◌≤◌, List, [], map, length, take, drop, IfErr, MatchResult};
ghost use Rattle.cpu.specs.Rv32i.{rv32i};
ghost use Rattle.model.specs.Tick.{tick, ticks, begin};
ghost use Rattle.reference.specs.Memories.{memories_in};
ghost use Rattle.reference.specs.View.{plan_in, after, after_all};
ghost use Rattle.reference.specs.Whole.{plan_of, view_of, Reason};

use super::World;
use crate::part::Partition;
use crate::queue::Queue;
use crate::shown::{Refused, Shown};
use model::plan::{Arrival, Window};

/// The first tick that there is not.
const END: u64 = 1 << 40;

impl<'a> World<'a> {
    /// The computer at its start, whatever was done before with what is lent: the time is 0, all tasks are ready and new,
    /// nothing is unheard, and the channels are empty.
    pub fn start(
        system: u16,
        windows: &'a [Window],
        parts: &'a mut [Partition],
        pages: &'a [u16],
        memory: &'a mut [u8],
        channels: &'a mut [Queue],
    ) -> World<'a>
        ensures plan { plan_of result ≡ plan_in system windows.now parts.old channels.old }
        ensures value { view_of result (λ _. []) ≡ begin rv32i (plan_of result) (memories_in pages.now memory.old) }
    {
        for part in parts.iter_mut() {
            part.renew();
        }
        for channel in channels.iter_mut() {
            channel.clear();
        }
        World {
            system,
            windows,
            time: 0,
            parts,
            pages,
            memory,
            channels,
        }
    }

    /// One tick, with the bytes that come in it. What comes back is what was shown, if anything was; after the last tick
    /// it is refused, and nothing is changed.
    pub fn tick(&mut self, row: &[Arrival]) -> Result<Option<Shown>, Refused>
        ensures plan { plan_of self.new ≡ plan_of self.old }
        ensures value { MatchResult result (λ b. (s : ℕ → List (ℕ × ℕ)) → view_of self.new (after s b) ≡ tick rv32i (plan_of self.old) (view_of self.old s) row.now) (λ _. (2 ^ 40 ≤ self.old.time) × ((s : ℕ → List (ℕ × ℕ)) → view_of self.new s ≡ view_of self.old s)) }
    {
        if self.time >= END {
            return Err(Refused::Over);
        }
        Ok(self.advance(row))
    }

    /// Many ticks, each with the bytes that come in it. What tick k shows goes to place k. It is refused, with nothing
    /// changed, where there are fewer places than ticks, or where a tick would come after the 2^40th.
    pub fn run(&mut self, rows: &[&[Arrival]], shown: &mut [Option<Shown>]) -> Result<(), Refused>
        ensures plan { plan_of self.new ≡ plan_of self.old }
        ensures value { MatchResult result (λ _. ((s : ℕ → List (ℕ × ℕ)) → view_of self.new (after_all s (take (length rows.now) shown.new)) ≡ ticks rv32i (plan_of self.old) (view_of self.old s) (map (λ row. row.now) rows.now)) × (drop (length rows.now) shown.new ≡ drop (length rows.now) shown.old)) (λ _. ((s : ℕ → List (ℕ × ℕ)) → view_of self.new s ≡ view_of self.old s) × (shown.new ≡ shown.old)) }
        ensures refused { IfErr result (λ e. Reason e (length rows.now) (length shown.old) self.old.time) }
    {
        if shown.len() < rows.len() {
            return Err(Refused::Places);
        }
        if self.time > END || rows.len() as u64 > END - self.time {
            return Err(Refused::Over);
        }
        for (k, row) in rows.iter().enumerate() {
            shown[k] = self.advance(row);
        }
        Ok(())
    }
}
