//! What is shown, as bytes in a slice that is lent for it.
ghost use Rattle.std.specs.Prelude.{◌≡◌, ◌+◌, ◌≤◌, length};
ghost use Rattle.octets.specs.Bytes.{put};
ghost use Rattle.partition.specs.Shown.{entry_bytes};

/// The bytes of an entry for a shown byte.
const ENTRY: usize = 9;

// Stays a lent slice with how far it is filled: no heap on the kernel's side, and whoever lends it says how long it is.
/// A lent slice, and up to where it holds what was shown: the next entry goes there.
#[derive(Drop)]
pub struct Shown<'a> {
    pub bytes: &'a mut [u8],
    pub at: usize,
}

impl Shown<'_> {
    /// Writes what is shown in a tick.
    pub(crate) fn note(&mut self, time: u64, byte: u8)
        requires room { self.old.at + 9 ≤ length self.old.bytes.now }
        ensures after { self.new.bytes.now ≡ put self.old.bytes.now self.old.at (entry_bytes (time, byte)) }
        ensures at { self.new.at ≡ self.old.at + 9 }
        ensures bytes { self.new.bytes.ghost_name ≡ self.old.bytes.ghost_name }
    {
        octets::write(self.bytes, self.at, time);
        octets::write(self.bytes, self.at + 8, byte);
        self.at += ENTRY;
    }
}
