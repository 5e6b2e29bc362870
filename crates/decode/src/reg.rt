//! The number of a register.
ghost use Rattle.std.specs.Prelude.{◌≡◌, ◌%◌, ◌<◌};

/// One of the registers x0 to x31, by its number.
#[derive(Clone, Copy, PartialEq, Eq, Debug)]
pub struct Reg {
    number: u8,
    ghost below: { number < 32 },
}

impl Reg {
    // No `From<u32>`: a conversion by From loses nothing, and this one drops the higher bits.
    /// The register that the five low bits name.
    pub fn of(bits: u32) -> Reg
        ensures value { result.number ≡ bits % 32 }
    {
        Reg {
            number: (bits % 32) as u8,
        }
    }

    /// Which of the registers it is.
    pub fn number(self) -> u8
        ensures value { result ≡ self.number }
        ensures bound { result < 32 }
    {
        self.number
    }
}
