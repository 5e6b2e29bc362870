//! What an instruction does, given the values of the registers that it reads.
ghost use Rattle.std.specs.Prelude.{◌≡◌, ◌<◌, if◌then◌else◌};
ghost use Rattle.cpu.specs.Effects.{effect, following, inside, Inside, jumps, sources, x0};
ghost use Rattle.cpu.specs.declared.effect.Effect.TheVariants.{Wrong};

use crate::access::{is_inside, load_bytes, store_bytes};
use crate::effect::Effect;
use crate::operation::{displace, holds, shift, with_immediate, with_register};
use decode::instruction::Instruction;
use decode::reg::Reg;

/// What the instruction at pc does, where rs1 and rs2 hold a and b, and memory has so many bytes.
pub fn execute(i: Instruction, pc: u32, a: u32, b: u32, size: usize) -> Effect
    ensures value { result ≡ effect i pc a b size }
    ensures inside { Inside size result }
{
    match i {
        Instruction::Lui { rd, upper } => Effect::Sets {
            rd,
            value: upper << 12,
            next: after(pc),
        },
        Instruction::Auipc { rd, upper } => Effect::Sets {
            rd,
            value: pc.wrapping_add(upper << 12),
            next: after(pc),
        },
        Instruction::Jal { rd, offset } => jump(rd, pc, displace(pc, offset), size),
        Instruction::Jalr { rd, offset, .. } => {
            let target = displace(a, offset);
            jump(rd, pc, target - target % 2, size)
        }
        Instruction::Branch { on, offset, .. } if holds(on, a, b) => {
            let next = displace(pc, offset);
            if_inside(4, next, size, Effect::Goes { next })
        }
        Instruction::Branch { .. } => Effect::Goes { next: after(pc) },
        Instruction::Load {
            kind,
            rd,
            offset,
            ..
        } => {
            let address = displace(a, offset);
            if_inside(
                load_bytes(kind),
                address,
                size,
                Effect::Loads { rd, kind, address },
            )
        }
        Instruction::Store { kind, offset, .. } => {
            let address = displace(a, offset);
            let stores = Effect::Stores {
                kind,
                address,
                value: b,
            };
            if_inside(store_bytes(kind), address, size, stores)
        }
        Instruction::Immediate {
            op,
            rd,
            operand,
            ..
        } => {
            Effect::Sets {
                rd,
                value: with_immediate(op, a, operand),
                next: after(pc),
            }
        }
        Instruction::Shift { op, rd, amount, .. } => Effect::Sets {
            rd,
            value: shift(op, a, amount),
            next: after(pc),
        },
        Instruction::Register { op, rd, .. } => Effect::Sets {
            rd,
            value: with_register(op, a, b),
            next: after(pc),
        },
        Instruction::Fence => Effect::Goes { next: after(pc) },
        Instruction::Ecall => Effect::Calls,
    }
}

/// Where a task goes on after the instruction at pc.
fn after(pc: u32) -> u32
    ensures value { result ≡ following pc }
{
    pc.wrapping_add(4)
}

/// An effect, if the n bytes that it is about lie in memory, at a multiple of n.
fn if_inside(n: u32, k: u32, size: usize, effect: Effect) -> Effect
    requires some { 0 < n }
    ensures value { result ≡ (if inside n k size then effect else Wrong) }
{
    if is_inside(n, k, size) {
        effect
    } else {
        Effect::Wrong
    }
}

/// A jump that keeps where the task would have gone on.
fn jump(rd: Reg, pc: u32, target: u32, size: usize) -> Effect
    ensures value { result ≡ jumps rd (following pc) target size }
{
    let jumps = Effect::Sets {
        rd,
        value: after(pc),
        next: target,
    };
    if_inside(4, target, size, jumps)
}

/// The register that is always 0.
fn zero() -> Reg
    ensures value { result ≡ x0 }
{
    Reg::of(0)
}

/// The registers rs1 and rs2 of an instruction, x0 where it has none.
pub(crate) fn operands(i: &Instruction) -> (Reg, Reg)
    ensures value { result ≡ sources i.now }
{
    match *i {
        Instruction::Lui { .. } | Instruction::Auipc { .. } | Instruction::Jal { .. } => (
            zero(),
            zero(),
        ),
        Instruction::Jalr { rs1, .. }
        | Instruction::Load { rs1, .. }
        | Instruction::Immediate { rs1, .. }
        | Instruction::Shift { rs1, .. } => (rs1, zero()),
        Instruction::Branch { rs1, rs2, .. }
        | Instruction::Store { rs1, rs2, .. }
        | Instruction::Register { rs1, rs2, .. } => (rs1, rs2),
        Instruction::Fence | Instruction::Ecall => (zero(), zero()),
    }
}
