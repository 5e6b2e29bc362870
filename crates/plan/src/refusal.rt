//! Why something is refused.
ghost use Rattle.std.specs.Prelude.{◌≡◌};
ghost use Rattle.plan.specs.Refusals.{number_of, place_of};

use std::fmt;

/// Why a plan, a row of bytes from outside, or what was lent is refused.
#[derive(Clone, Copy, Debug, PartialEq, Eq)]
pub enum Refusal {
    /// 1: the bytes end too early; their length.
    Short(usize),
    /// 1: the bytes go on; the first too many.
    Long(usize),
    /// 2: four bytes or more, and they do not begin with "TIME".
    Name,
    /// 3: a number out of range, or something that is not done yet; its first byte.
    Number(usize),
    /// 4: too few frames are lent; how many would do.
    Frames(usize),
    /// 5: a row is cut short, which is at the end of the rows' bytes; or a byte in it is in fault, or its tick is too late; that
    /// byte's place.
    Row(usize),
    /// 6: a slice for what a partition shows is too short; which partition's.
    Shown(usize),
}

impl Refusal {
    /// Its number.
    pub fn number(self) -> u8
        ensures value { result ≡ number_of self }
    {
        match self {
            Refusal::Short(_) | Refusal::Long(_) => 1,
            Refusal::Name => 2,
            Refusal::Number(_) => 3,
            Refusal::Frames(_) => 4,
            Refusal::Row(_) => 5,
            Refusal::Shown(_) => 6,
        }
    }

    /// Its place; 0 where it has none.
    pub fn place(self) -> usize
        ensures value { result ≡ place_of self }
    {
        match self {
            Refusal::Name => 0,
            Refusal::Short(p)
            | Refusal::Long(p)
            | Refusal::Number(p)
            | Refusal::Frames(p)
            | Refusal::Row(p)
            | Refusal::Shown(p) => p,
        }
    }
}

impl fmt::Display for Refusal {
    fn fmt<W: fmt::Write>(&self, f: &mut fmt::Formatter<W>) -> fmt::Result {
        let number = self.number();
        let place = self.place();
        write!(f, "refused {number} at {place}")
    }
}
