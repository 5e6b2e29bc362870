//! What is done with a channel.
#![tactic(auto, unfolding(crate::specs::Letters::sents_of, crate::specs::Letters::sent_of, crate::specs::Letters::sight_of, crate::specs::Letters::posting, crate::specs::Letters::collecting, crate::specs::Letters::collecting_first, crate::specs::Letters::refusing, model::specs::Tick::may_send, model::specs::Tick::sending))]

ghost use Rattle.std.specs.Prelude.{◌≡◌, ◌≤◌, [], MatchOption};
ghost use Rattle.reference.specs.Letters.{sents_of, sight_of, posting, collecting};

use super::Queue;
use crate::kept::Kept;
use crate::letter::Letter;
use cpu::call::Answer;
use model::plan::Channel;

// That the plan stays is said of each method: a ghost field speaks of one value, and not of before and after.
impl Queue {
    /// An empty channel, if its plan is in bounds: messages of up to 1,024 bytes, and up to 64 places.
    pub fn new(plan: Channel) -> Option<Queue>
        ensures cases { MatchOption result ((plan.bytes ≤ 1024) × (plan.places ≤ 64) → ⊥) (λ q. sight_of q ≡ record { plan = plan; messages = [] }) }
    {
        if plan.bytes > 1024 || plan.places > 64 {
            return None;
        }
        Some(Queue {
            plan,
            messages: Kept::new(),
        })
    }

    /// Takes all messages away.
    pub(crate) fn clear(&mut self)
        ensures after { sents_of self.new ≡ [] }
        ensures same { self.new.plan ≡ self.old.plan }
    {
        self.messages.clear();
    }

    /// Partition `from` sends so many bytes of its memory.
    pub(crate) fn send(
        &mut self,
        from: u8,
        time: u64,
        memory: &[u8],
        address: u32,
        length: u32,
    ) -> Answer
        ensures value { record { answer = result; messages = sents_of self.new; memory = memory.now } ≡ posting from time (sight_of self.old) memory.now address length }
        ensures same { self.new.plan ≡ self.old.plan }
    {
        let start = address as usize;
        let end = start + length as usize;
        if self.plan.from != from || length > u32::from(self.plan.bytes) || end > memory.len() {
            return Answer::NO;
        }
        let letter = Letter::new(time, &memory[start..end]);
        if self.plan.places == 0 {
            self.messages.clear();
            self.messages.push(letter);
            return Answer::Value(0);
        }
        if self.messages.len() >= self.plan.places as usize {
            return Answer::NO;
        }
        self.messages.push(letter);
        Answer::Value(0)
    }

    /// Partition `to` takes the first message into its memory.
    pub(crate) fn take(&mut self, to: u8, time: u64, memory: &mut [u8], address: u32) -> Answer
        ensures value { record { answer = result; messages = sents_of self.new; memory = memory.new } ≡ collecting to time (sight_of self.old) memory.old address }
        ensures same { self.new.plan ≡ self.old.plan }
    {
        if self.plan.to != to {
            return Answer::NO;
        }
        let Some(letter) = self.messages.as_slice().first() else {
            return Answer::NO;
        };
        let bytes = letter.bytes.as_slice();
        let start = address as usize;
        let size = bytes.len();
        if start + size > memory.len() {
            return Answer::NO;
        }
        octets::copy(memory, start, bytes);
        let age = (time.saturating_sub(letter.sent) % 4294967295) as u32;
        if self.plan.places > 0 {
            self.messages.drop_first();
        }
        Answer::Message {
            age,
            length: size as u32,
        }
    }
}
