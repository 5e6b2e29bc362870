//! What is done in a partition's own tick.
ghost use Rattle.std.specs.Prelude.{◌≡◌, true, Some};
ghost use Rattle.std.specs.List.{slice_get};
ghost use Rattle.cpu.specs.declared.call.Call.TheVariants.{Send, Take};
ghost use Rattle.cpu.specs.Rv32i.{act, answered};
ghost use Rattle.cpu.specs.Rv32i.{called as call_by};
ghost use Rattle.model.specs.Tick.{called, acted, is_ready};
ghost use Rattle.reference.specs.Parts.{run_of, tasks_of, part_of};
ghost use Rattle.reference.specs.Own.{Exchanged, Did, Lends, Goes, seen_of};

use super::OwnTick;
use crate::access::effect;
use cpu::access::{finish, read, write};
use cpu::call::{Answer, Call};
use cpu::effect::Effect;

// That the same stays lent is said of each method: a ghost field speaks of one value, and not of before and after.
impl OwnTick<'_> {
    /// The partition sends bytes of its memory into a channel.
    fn send(&mut self, channel: u32, address: u32, length: u32) -> Answer
        ensures value { Exchanged (λ x i then. called self.old.q self.old.time (seen_of self.old.channels.now self.old.q) x i (Send channel address length) then) self.old.memory.now self.new.memory.now self.old.channels.now self.new.channels.now result }
        ensures memory { self.new.memory.now ≡ self.old.memory.now }
        ensures part { self.new.part.now ≡ self.old.part.now }
        ensures same { Lends self.old self.new }
    {
        // By index: after `get_mut` a proof knows a slice's length alone.
        let c = channel as usize;
        if c >= self.channels.len() {
            return Answer::NO;
        }
        let (q, time) = (self.q, self.time);
        let memory = &mut *self.memory;
        let channels = &mut *self.channels;
        channels[c].send(q, time, memory, address, length)
    }

    /// The partition takes the first message of a channel into its memory.
    fn take(&mut self, channel: u32, address: u32) -> Answer
        ensures value { Exchanged (λ x i then. called self.old.q self.old.time (seen_of self.old.channels.now self.old.q) x i (Take channel address) then) self.old.memory.now self.new.memory.now self.old.channels.now self.new.channels.now result }
        ensures part { self.new.part.now ≡ self.old.part.now }
        ensures same { Lends self.old self.new }
    {
        let c = channel as usize;
        if c >= self.channels.len() {
            return Answer::NO;
        }
        self.channels[c].take(self.q, self.time, self.memory, address)
    }

    /// Does the task's call; what comes back is the byte that is shown, if one is.
    fn call(&mut self) -> Option<u8>
        requires { Goes self.old }
        ensures value { Did (λ s. called self.old.q self.old.time (seen_of self.old.channels.now self.old.q) (part_of self.old.part.now self.old.memory.now s) self.old.i (call_by (run_of self.old.run).core) (answered (run_of self.old.run).core)) self.old.time self.new.part.now self.new.memory.now self.old.channels.now self.new.channels.now result }
        ensures tasks { tasks_of self.new.part.now ≡ tasks_of self.old.part.now }
        ensures same { Lends self.old self.new }
    {
        let (i, run) = (self.i, self.run);
        match run.call() {
            Call::Show(b) => {
                self.part.put(i, run.answered(Answer::Value(0)));
                Some(b)
            }
            Call::Wait => {
                let run = run.answered(Answer::Value(0));
                self.part.put(i, run.waits());
                None
            }
            Call::Clock => {
                let now = Answer::Value((self.time % 4294967296) as u32);
                self.part.put(i, run.answered(now));
                None
            }
            Call::Send {
                channel,
                address,
                length,
            } => {
                let answer = self.send(channel, address, length);
                self.part.put(i, run.answered(answer));
                None
            }
            Call::Take { channel, address } => {
                let answer = self.take(channel, address);
                self.part.put(i, run.answered(answer));
                None
            }
            Call::Hear => {
                let answer = self.part.hear();
                self.part.put(i, run.answered(answer));
                None
            }
            Call::Unknown => {
                self.part.put(i, run.answered(Answer::NO));
                None
            }
        }
    }

    /// The task does one instruction; what comes back is the byte that is shown, if one is.
    pub(crate) fn instruction(&mut self) -> Option<u8>
        requires { Goes self.old }
        ensures value { Did (λ s. acted self.old.q self.old.time (seen_of self.old.channels.now self.old.q) (part_of self.old.part.now self.old.memory.now s) self.old.i (act (run_of self.old.run).core self.old.memory.now)) self.old.time self.new.part.now self.new.memory.now self.old.channels.now self.new.channels.now result }
        ensures tasks { tasks_of self.new.part.now ≡ tasks_of self.old.part.now }
        ensures same { Lends self.old self.new }
    {
        let (i, run) = (self.i, self.run);
        let mut core = run.core();
        let memory = &mut *self.memory;
        match effect(&core, memory) {
            Effect::Sets { rd, value, next } => {
                core.set(rd, value);
                core.go(next);
                self.part.put(i, run.with_core(core));
                None
            }
            Effect::Goes { next } => {
                core.go(next);
                self.part.put(i, run.with_core(core));
                None
            }
            Effect::Loads { rd, kind, address } => {
                let raw = read(memory, kind, address as usize);
                core.set(rd, finish(kind, raw));
                core.go_on();
                self.part.put(i, run.with_core(core));
                None
            }
            Effect::Stores {
                kind,
                address,
                value,
            } => {
                write(memory, kind, address as usize, value);
                core.go_on();
                self.part.put(i, run.with_core(core));
                None
            }
            Effect::Calls => self.call(),
            Effect::Wrong => {
                self.part.put(i, run.stops());
                None
            }
        }
    }
}
