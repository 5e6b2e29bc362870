//! Flat memory: what a core fetches, and what its instruction does.
ghost use Rattle.std.specs.Prelude.{◌≡◌, length, if◌then◌else◌, Some, None};
ghost use Rattle.octets.specs.Bytes.{at};
ghost use Rattle.cpu.specs.Effects.{inside, Inside};
ghost use Rattle.cpu.specs.Held.{core_of};
ghost use Rattle.cpu.specs.Rv32i.{effect_at};

use cpu::effect::Effect;
use cpu::registers::Registers;

/// The word at the pc, if it lies in memory.
fn fetch(memory: &[u8], pc: u32) -> Option<u32>
    ensures value { result ≡ (if inside 4 pc (length memory.now) then Some (at 4 memory.now pc) else None) }
{
    let k = pc as usize;
    if pc % 4 != 0 || k + 4 > memory.len() {
        return None;
    }
    Some(octets::read(memory, k))
}

/// What the instruction at the pc does.
pub(crate) fn effect(core: &Registers, memory: &[u8]) -> Effect
    ensures value { result ≡ effect_at (core_of core.now) memory.now }
    ensures inside { Inside (length memory.now) result }
{
    core.step(fetch(memory, core.pc()), memory.len())
}
