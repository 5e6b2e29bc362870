//! 32-bit words to instructions.
//!
//! Owns what an instruction is, and the formats in which it is written. Knows nothing of registers' values or of memory.
//! Promises: `decode` gives the instruction that the manual's formats assemble into the word, and nothing for the words
//! that no instruction has. Headline: `decode`, clauses `encodes` and `only`.
#![tactic(auto)]

ghost use Rattle.std.specs.Prelude.{◌≡◌, ◌*◌, ◌/◌, ◌^◌, ◌<◌, ◌≤◌, Some};
ghost use Rattle.decode.specs.Decoded.{
  branch_with,
  condition_of,
  decoded,
  fence_with,
  immediate_op_of,
  immediate_with,
  jalr_with,
  load_kind_of,
  load_with,
  other_op_of,
  plain_op_of,
  register_op_of,
  register_with,
  shift_op_of,
  shift_with,
  store_kind_of,
  store_with,
  system_of,
};
ghost use Rattle.decode.specs.Encodes.{Encodes};
ghost use Rattle.decode.specs.Fields.{
  funct3_of,
  funct7_of,
  immediate_b,
  immediate_i,
  immediate_j,
  immediate_s,
  rd_of,
  rs1_of,
  rs2_of,
  signed,
};

pub mod instruction;
pub mod reg;

use instruction::{Condition, ImmediateOp, Instruction, LoadKind, RegisterOp, ShiftOp, StoreKind};
use reg::Reg;

/// The instruction of a word, or nothing if no instruction has it.
pub fn decode(word: u32) -> Option<Instruction>
    ensures value { result ≡ decoded word }
    ensures encodes { (i : Instruction) → result ≡ Some i → Encodes i word }
    ensures only { (i : Instruction) → Encodes i word → result ≡ Some i }
{
    by_opcode(word)
}

/// First the opcode: each class has its own second stage.
fn by_opcode(word: u32) -> Option<Instruction>
    ensures value { result ≡ decoded word }
{
    match word % 128 {
        0x37 => Some(Instruction::Lui {
            rd: rd(word),
            upper: word >> 12,
        }),
        0x17 => Some(Instruction::Auipc {
            rd: rd(word),
            upper: word >> 12,
        }),
        0x6f => Some(Instruction::Jal {
            rd: rd(word),
            offset: immediate_j(word),
        }),
        0x67 => jalr(word),
        0x63 => branch(word),
        0x03 => load(word),
        0x23 => store(word),
        0x13 => immediate(word),
        0x33 => registers(word),
        0x0f => fence(word),
        0x73 => system(word),
        _ => None,
    }
}

// Three names, as the manual has them: a place as an argument would have to be said, with its bound, at each use.

/// The registers that a word names, each by where its number stands.
fn rd(word: u32) -> Reg
    ensures value { result ≡ rd_of word }
{
    Reg::of(word >> 7)
}

fn rs1(word: u32) -> Reg
    ensures value { result ≡ rs1_of word }
{
    Reg::of(word >> 15)
}

fn rs2(word: u32) -> Reg
    ensures value { result ≡ rs2_of word }
{
    Reg::of(word >> 20)
}

/// What tells apart the instructions of an opcode.
fn funct3(word: u32) -> u32
    ensures value { result ≡ funct3_of word }
{
    (word >> 12) % 8
}

/// What tells apart those of a funct3.
fn funct7(word: u32) -> u32
    ensures value { result ≡ funct7_of word }
{
    word >> 25
}

/// Two's complement, where `half` is the weight of the highest bit.
fn signed_by(half: u32, n: u32) -> i32
    requires small { half ≤ 2 ^ 20 }
    requires below { n < 2 * half }
    ensures value { result ≡ signed half n }
{
    if n < half {
        n as i32
    } else {
        n as i32 - 2 * (half as i32)
    }
}

/// The immediates, each by its format: I, S, B and J.
fn immediate_i(word: u32) -> i32
    ensures value { result ≡ immediate_i word }
{
    signed_by(1 << 11, word >> 20)
}

fn immediate_s(word: u32) -> i32
    ensures value { result ≡ immediate_s word }
{
    signed_by(1 << 11, (word >> 25) * 32 + (word >> 7) % 32)
}

fn immediate_b(word: u32) -> i32
    ensures value { result ≡ immediate_b word }
{
    let high = (word >> 31) * 4096 + (word >> 7) % 2 * 2048;
    signed_by(
        1 << 12,
        high + (word >> 25) % 64 * 32 + (word >> 8) % 16 * 2,
    )
}

fn immediate_j(word: u32) -> i32
    ensures value { result ≡ immediate_j word }
{
    let high = (word >> 31) * 1048576 + (word >> 12) % 256 * 4096;
    signed_by(
        1 << 20,
        high + (word >> 20) % 2 * 2048 + (word >> 21) % 1024 * 2,
    )
}

// What funct3 and funct7 say of a class is a function to Option, and no TryFrom: there is nothing to say of a number that
// no instruction has, so an error type would be made only to be thrown away.

/// The second stage: JALR has funct3 0.
fn jalr(word: u32) -> Option<Instruction>
    ensures value { result ≡ jalr_with word (funct3_of word) }
{
    (funct3(word) == 0).then_some(Instruction::Jalr {
        rd: rd(word),
        rs1: rs1(word),
        offset: immediate_i(word),
    })
}

/// BRANCH, by funct3.
fn condition(funct3: u32) -> Option<Condition>
    ensures value { result ≡ condition_of funct3 }
{
    match funct3 {
        0 => Some(Condition::Beq),
        1 => Some(Condition::Bne),
        4 => Some(Condition::Blt),
        5 => Some(Condition::Bge),
        6 => Some(Condition::Bltu),
        7 => Some(Condition::Bgeu),
        _ => None,
    }
}

fn branch(word: u32) -> Option<Instruction>
    ensures value { result ≡ branch_with word (condition_of (funct3_of word)) }
{
    let on = condition(funct3(word))?;
    Some(Instruction::Branch {
        on,
        rs1: rs1(word),
        rs2: rs2(word),
        offset: immediate_b(word),
    })
}

/// LOAD, by funct3.
fn load_kind(funct3: u32) -> Option<LoadKind>
    ensures value { result ≡ load_kind_of funct3 }
{
    match funct3 {
        0 => Some(LoadKind::Lb),
        1 => Some(LoadKind::Lh),
        2 => Some(LoadKind::Lw),
        4 => Some(LoadKind::Lbu),
        5 => Some(LoadKind::Lhu),
        _ => None,
    }
}

fn load(word: u32) -> Option<Instruction>
    ensures value { result ≡ load_with word (load_kind_of (funct3_of word)) }
{
    let kind = load_kind(funct3(word))?;
    Some(Instruction::Load {
        kind,
        rd: rd(word),
        rs1: rs1(word),
        offset: immediate_i(word),
    })
}

/// STORE, by funct3.
fn store_kind(funct3: u32) -> Option<StoreKind>
    ensures value { result ≡ store_kind_of funct3 }
{
    match funct3 {
        0 => Some(StoreKind::Sb),
        1 => Some(StoreKind::Sh),
        2 => Some(StoreKind::Sw),
        _ => None,
    }
}

fn store(word: u32) -> Option<Instruction>
    ensures value { result ≡ store_with word (store_kind_of (funct3_of word)) }
{
    let kind = store_kind(funct3(word))?;
    Some(Instruction::Store {
        kind,
        rs1: rs1(word),
        rs2: rs2(word),
        offset: immediate_s(word),
    })
}

/// OP-IMM, by funct3; what is left are the shifts, by funct7 too.
fn immediate_op(funct3: u32) -> Option<ImmediateOp>
    ensures value { result ≡ immediate_op_of funct3 }
{
    match funct3 {
        0 => Some(ImmediateOp::Addi),
        2 => Some(ImmediateOp::Slti),
        3 => Some(ImmediateOp::Sltiu),
        4 => Some(ImmediateOp::Xori),
        6 => Some(ImmediateOp::Ori),
        7 => Some(ImmediateOp::Andi),
        _ => None,
    }
}

fn immediate(word: u32) -> Option<Instruction>
    ensures value { result ≡ immediate_with word (immediate_op_of (funct3_of word)) }
{
    match immediate_op(funct3(word)) {
        Some(op) => Some(Instruction::Immediate {
            op,
            rd: rd(word),
            rs1: rs1(word),
            operand: immediate_i(word),
        }),
        None => shift(word),
    }
}

fn shift_op(funct7: u32, funct3: u32) -> Option<ShiftOp>
    ensures value { result ≡ shift_op_of funct7 funct3 }
{
    match (funct7, funct3) {
        (0, 1) => Some(ShiftOp::Slli),
        (0, 5) => Some(ShiftOp::Srli),
        (0x20, 5) => Some(ShiftOp::Srai),
        _ => None,
    }
}

fn shift(word: u32) -> Option<Instruction>
    ensures value { result ≡ shift_with word (shift_op_of (funct7_of word) (funct3_of word)) }
{
    let op = shift_op(funct7(word), funct3(word))?;
    Some(Instruction::Shift {
        op,
        rd: rd(word),
        rs1: rs1(word),
        amount: (word >> 20) % 32,
    })
}

/// OP, where funct7 is 0, and where it is 0x20.
fn plain_op(funct3: u32) -> Option<RegisterOp>
    ensures value { result ≡ plain_op_of funct3 }
{
    match funct3 {
        0 => Some(RegisterOp::Add),
        1 => Some(RegisterOp::Sll),
        2 => Some(RegisterOp::Slt),
        3 => Some(RegisterOp::Sltu),
        4 => Some(RegisterOp::Xor),
        5 => Some(RegisterOp::Srl),
        6 => Some(RegisterOp::Or),
        7 => Some(RegisterOp::And),
        _ => None,
    }
}

fn other_op(funct3: u32) -> Option<RegisterOp>
    ensures value { result ≡ other_op_of funct3 }
{
    match funct3 {
        0 => Some(RegisterOp::Sub),
        5 => Some(RegisterOp::Sra),
        _ => None,
    }
}

fn register_op(funct7: u32, funct3: u32) -> Option<RegisterOp>
    ensures value { result ≡ register_op_of funct7 funct3 }
{
    match funct7 {
        0 => plain_op(funct3),
        0x20 => other_op(funct3),
        _ => None,
    }
}

fn registers(word: u32) -> Option<Instruction>
    ensures value { result ≡ register_with word (register_op_of (funct7_of word) (funct3_of word)) }
{
    let op = register_op(funct7(word), funct3(word))?;
    Some(Instruction::Register {
        op,
        rd: rd(word),
        rs1: rs1(word),
        rs2: rs2(word),
    })
}

/// MISC-MEM: FENCE has funct3 0, and its other fields say only what it orders.
fn fence(word: u32) -> Option<Instruction>
    ensures value { result ≡ fence_with (funct3_of word) }
{
    (funct3(word) == 0).then_some(Instruction::Fence)
}

/// SYSTEM: ECALL is one word.
fn system(word: u32) -> Option<Instruction>
    ensures value { result ≡ system_of word }
{
    (word == 0x73).then_some(Instruction::Ecall)
}
