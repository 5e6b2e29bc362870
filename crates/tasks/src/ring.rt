//! The bytes from outside that a partition has not heard, in the order in which they came: a ring in one frame. The
//! place of the first byte is in bytes 0 to 3, how many there are in 4 to 7, and the bytes themselves are in the places
//! from 1024 on.
ghost use Rattle.std.specs.Prelude.{◌≡◌, ◌<◌, ◌≤◌, [], ◌∷◌, ◌++◌, length, drop, if◌then◌else◌, MatchOption, nat_lt};
ghost use Rattle.model.specs.Tick.{first_heard};
ghost use Rattle.tasks.specs.Unheard.{head_in, count_in, heard_in};

const COUNT: usize = 4;

const PLACES: usize = 1024;

const FIRST: usize = 1024;

/// The ring in a lent frame.
// Stays a bounded row: no heap on the kernel's side.
#[derive(Drop)]
pub struct Ring<'a> {
    pub frame: &'a mut [u8],
    ghost size: { length frame.now ≡ 4096 },
}

impl<'a> Ring<'a> {
    /// The ring in this frame.
    pub fn new(frame: &'a mut [u8]) -> Ring<'a>
        requires size { length frame.old ≡ 4096 }
        ensures frame { result.frame.now ≡ frame.old }
        ensures lent { result.frame.ghost_name ≡ frame.entry.ghost_name }
    {
        Ring { frame }
    }

    /// Where the first byte is, counted from the first place, round and round.
    #[tactic(auto, unfolding(crate::specs::Unheard::head_in))]
    fn head(&self) -> usize
        ensures value { result ≡ head_in self.now.frame.now }
        ensures below { result < 1024 }
    {
        octets::read::<u32>(self.frame, 0) as usize % PLACES
    }

    /// How many bytes there are.
    #[tactic(auto, unfolding(crate::specs::Unheard::count_in))]
    fn count(&self) -> usize
        ensures value { result ≡ count_in self.now.frame.now }
        ensures most { result ≤ 1024 }
    {
        (octets::read::<u32>(self.frame, COUNT) as usize).min(PLACES)
    }

    /// None is left.
    #[tactic(auto, using(crate::proofs::Unheard::cleared))]
    pub fn clear(&mut self)
        ensures heard { heard_in self.new.frame.now ≡ [] }
        ensures frame { self.new.frame.ghost_name ≡ self.old.frame.ghost_name }
    {
        octets::write(self.frame, COUNT, 0u32);
    }

    /// One more has come; it is lost if there are as many as are kept.
    #[tactic(auto, using(crate::proofs::Sets::arriving), unfolding(crate::specs::Unheard::place_of))]
    pub fn arrive(&mut self, byte: u8)
        ensures heard { heard_in self.new.frame.now ≡ (if nat_lt (length (heard_in self.old.frame.now)) 1024 then heard_in self.old.frame.now ++ byte ∷ [] else heard_in self.old.frame.now) }
        ensures frame { self.new.frame.ghost_name ≡ self.old.frame.ghost_name }
    {
        let many = self.count();
        if many == PLACES {
            return;
        }
        let place = FIRST + (self.head() + many) % PLACES;
        self.frame[place] = byte;
        octets::write(self.frame, COUNT, many as u32 + 1);
    }

    /// The byte that came first, which is then heard; `None` if there is none.
    #[tactic(auto, using(crate::proofs::Sets::hearing))]
    pub fn hear(&mut self) -> Option<u8>
        ensures value { MatchOption result (first_heard (heard_in self.old.frame.now) ≡ 4294967295) (λ b. first_heard (heard_in self.old.frame.now) ≡ b) }
        ensures heard { heard_in self.new.frame.now ≡ drop 1 (heard_in self.old.frame.now) }
        ensures frame { self.new.frame.ghost_name ≡ self.old.frame.ghost_name }
    {
        let many = self.count();
        if many == 0 {
            return None;
        }
        let first = self.head();
        let byte = self.frame[FIRST + first];
        octets::write(self.frame, 0, ((first + 1) % PLACES) as u32);
        octets::write(self.frame, COUNT, many as u32 - 1);
        Some(byte)
    }
}
