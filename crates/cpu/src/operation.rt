//! What the instructions compute.
ghost use Rattle.std.specs.Prelude.{◌≡◌};
ghost use Rattle.cpu.specs.Effects.{displaced};
ghost use Rattle.cpu.specs.Meaning.{
  left_by,
  low,
  meant,
  right_by,
  shifted,
  signed_right_by,
  taken,
  with_immediate,
  with_register,
};

use decode::instruction::{Condition, ImmediateOp, RegisterOp, ShiftOp};

/// The signed number that a register's number stands for.
fn signed_of(a: u32) -> i32
    ensures value { result ≡ meant a }
{
    a.cast_signed()
}

/// The register's number for a signed number.
fn bits_of(z: i32) -> u32
    ensures value { result ≡ low z }
{
    z.cast_unsigned()
}

/// An address and a signed offset.
pub fn displace(k: u32, offset: i32) -> u32
    ensures value { result ≡ displaced k offset }
{
    k.wrapping_add(bits_of(offset))
}

// What the registers rs1 and rs2 hold are two numbers, as in the manual: a struct of both would say no more.

/// Whether a branch is taken.
pub fn holds(on: Condition, a: u32, b: u32) -> bool
    ensures value { result ≡ taken on a b }
{
    match on {
        Condition::Beq => a == b,
        Condition::Bne => a != b,
        Condition::Blt => signed_of(a) < signed_of(b),
        Condition::Bge => signed_of(a) >= signed_of(b),
        Condition::Bltu => a < b,
        Condition::Bgeu => a >= b,
    }
}

/// What is computed of a register and an immediate.
pub fn with_immediate(op: ImmediateOp, a: u32, operand: i32) -> u32
    ensures value { result ≡ with_immediate op a operand }
{
    match op {
        ImmediateOp::Addi => displace(a, operand),
        ImmediateOp::Slti => u32::from(signed_of(a) < operand),
        ImmediateOp::Sltiu => u32::from(a < bits_of(operand)),
        ImmediateOp::Xori => a ^ bits_of(operand),
        ImmediateOp::Ori => a | bits_of(operand),
        ImmediateOp::Andi => a & bits_of(operand),
    }
}

/// Shifts go by the five low bits of n: to the left, to the right with zeros, to the right with the sign.
fn left(a: u32, n: u32) -> u32
    ensures value { result ≡ left_by a n }
{
    a << (n % 32)
}

fn right(a: u32, n: u32) -> u32
    ensures value { result ≡ right_by a n }
{
    a >> (n % 32)
}

fn signed_right(a: u32, n: u32) -> u32
    ensures value { result ≡ signed_right_by a n }
{
    bits_of(signed_of(a) >> (n % 32))
}

/// What is computed of a register and an amount.
pub fn shift(op: ShiftOp, a: u32, n: u32) -> u32
    ensures value { result ≡ shifted op a n }
{
    match op {
        ShiftOp::Slli => left(a, n),
        ShiftOp::Srli => right(a, n),
        ShiftOp::Srai => signed_right(a, n),
    }
}

fn sum(a: u32, b: u32) -> u32
    ensures value { result ≡ with_register RegisterOp.Add a b }
{
    a.wrapping_add(b)
}

fn difference(a: u32, b: u32) -> u32
    ensures value { result ≡ with_register RegisterOp.Sub a b }
{
    a.wrapping_sub(b)
}

/// What is computed of two registers.
pub fn with_register(op: RegisterOp, a: u32, b: u32) -> u32
    ensures value { result ≡ with_register op a b }
{
    match op {
        RegisterOp::Add => sum(a, b),
        RegisterOp::Sub => difference(a, b),
        RegisterOp::Sll => left(a, b),
        RegisterOp::Slt => u32::from(signed_of(a) < signed_of(b)),
        RegisterOp::Sltu => u32::from(a < b),
        RegisterOp::Xor => a ^ b,
        RegisterOp::Srl => right(a, b),
        RegisterOp::Sra => signed_right(a, b),
        RegisterOp::Or => a | b,
        RegisterOp::And => a & b,
    }
}
