//! The registers of a core.
ghost use Rattle.std.specs.Prelude.{◌≡◌, slice_index};

mod methods;

/// The program counter, and the registers x0 to x31, of which x0 is 0.
#[derive(Clone, Copy, PartialEq, Eq, Debug)]
pub struct Registers {
    pc: u32,
    x: [u32; 32],
    ghost zero: { slice_index x 0 ≡ 0 },
}
