//! What is done with such a row.
#![tactic(auto, unfolding(crate::specs::Kept::held))]

ghost use Rattle.std.specs.Prelude.{◌≡◌, ◌<◌, ◌≤◌, [], ◌∷◌, ◌++◌, ◌-◌, length, take, drop, if◌then◌else◌, nat_lt};
ghost use Rattle.reference.specs.Kept.{held};

use super::Kept;
use arrayvec::ArrayVec;

impl<T: Default + Drop, const N: usize> Kept<T, N> {
    /// An empty row.
    pub(crate) fn new() -> Kept<T, N>
        ensures value { held result ≡ [] }
    {
        Kept {
            things: ArrayVec::new(),
            count: 0,
        }
    }

    /// How many things it holds.
    pub(crate) fn len(&self) -> usize
        ensures value { result ≡ length (held self.now) }
    {
        self.count
    }

    /// The things, in the order in which they came.
    pub(crate) fn as_slice(&self) -> &[T]
        ensures value { result.now ≡ held self.now }
    {
        &self.things.as_slice()[..self.count]
    }

    /// One thing more at the end. There must be room.
    pub(crate) fn push(&mut self, x: T)
        requires { length (held self.old) < N }
        ensures after { held self.new ≡ held self.old ++ x ∷ [] }
    {
        let count = self.count;
        if count < self.things.len() {
            self.things.as_mut_slice()[count] = x;
        } else {
            self.things.push(x);
        }
        self.count = count + 1;
    }

    /// One thing more at the end, if there is room.
    pub(crate) fn push_if_room(&mut self, x: T)
        ensures after { held self.new ≡ (if nat_lt (length (held self.old)) N then held self.old ++ x ∷ [] else held self.old) }
    {
        if self.count < N {
            self.push(x);
        }
    }

    /// Lets all go.
    pub(crate) fn clear(&mut self)
        ensures after { held self.new ≡ [] }
    {
        self.count = 0;
    }

    /// Lets the first go, if there is one, and moves the others up.
    pub(crate) fn drop_first(&mut self)
        ensures after { held self.new ≡ drop 1 (held self.old) }
    {
        if self.count > 0 {
            first_to_end(self.things.as_mut_slice(), self.count);
            self.count -= 1;
        }
    }
}

// The first of the first `count` goes behind them, and each other moves up.
fn first_to_end<T>(things: &mut [T], count: usize)
    requires some { 0 < count }
    requires within { count ≤ length things.old }
    ensures after { take (count - 1) things.new ≡ drop 1 (take count things.old) }
    ensures len { length things.new ≡ length things.old }
{
    things[..count].rotate_left(1);
}
