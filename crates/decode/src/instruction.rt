//! The instructions, in the manual's words.
use crate::reg::Reg;

/// What a branch asks of the registers rs1 and rs2.
#[derive(Clone, Copy, PartialEq, Eq, Debug)]
pub enum Condition {
    /// They are equal.
    Beq,
    /// They are not.
    Bne,
    /// The first is less, as signed numbers.
    Blt,
    /// The first is not less, as signed numbers.
    Bge,
    /// The first is less, as unsigned numbers.
    Bltu,
    /// The first is not less, as unsigned numbers.
    Bgeu,
}

/// What a load reads, and how it fills the register.
#[derive(Clone, Copy, PartialEq, Eq, Debug)]
pub enum LoadKind {
    /// One byte, a signed number.
    Lb,
    /// Two bytes, a signed number.
    Lh,
    /// Four bytes.
    Lw,
    /// One byte, an unsigned number.
    Lbu,
    /// Two bytes, an unsigned number.
    Lhu,
}

/// How much of rs2 a store writes: the lowest byte, the two lowest, or all four.
#[derive(Clone, Copy, PartialEq, Eq, Debug)]
pub enum StoreKind {
    Sb,
    Sh,
    Sw,
}

/// What is done with rs1 and a number of twelve bits.
#[derive(Clone, Copy, PartialEq, Eq, Debug)]
pub enum ImmediateOp {
    Addi,
    Slti,
    Sltiu,
    Xori,
    Ori,
    Andi,
}

/// A shift of rs1 by a number of bits: left, right with zeros, right with the sign.
#[derive(Clone, Copy, PartialEq, Eq, Debug)]
pub enum ShiftOp {
    Slli,
    Srli,
    Srai,
}

/// What is done with rs1 and rs2.
#[derive(Clone, Copy, PartialEq, Eq, Debug)]
pub enum RegisterOp {
    Add,
    Sub,
    Sll,
    Slt,
    Sltu,
    Xor,
    Srl,
    Sra,
    Or,
    And,
}

/// An instruction of RV32I, without the environment's but ECALL.
#[derive(Clone, Copy, PartialEq, Eq, Debug)]
pub enum Instruction {
    /// LUI: `upper` becomes the 20 high bits of rd.
    Lui {
        rd: Reg,
        upper: u32,
    },
    /// AUIPC: the same, and the pc is added.
    Auipc {
        rd: Reg,
        upper: u32,
    },
    /// JAL: jumps by `offset`; rd says where it would have gone on.
    Jal {
        rd: Reg,
        offset: i32,
    },
    /// JALR: jumps to rs1 + `offset`; rd says where it would have gone on.
    Jalr {
        rd: Reg,
        rs1: Reg,
        offset: i32,
    },
    /// BEQ, BNE, BLT, BGE, BLTU, BGEU: jumps by `offset` if the condition holds.
    Branch {
        on: Condition,
        rs1: Reg,
        rs2: Reg,
        offset: i32,
    },
    /// LB, LH, LW, LBU, LHU: rd gets what is in memory at rs1 + `offset`.
    Load {
        kind: LoadKind,
        rd: Reg,
        rs1: Reg,
        offset: i32,
    },
    /// SB, SH, SW: memory at rs1 + `offset` gets what is in rs2.
    Store {
        kind: StoreKind,
        rs1: Reg,
        rs2: Reg,
        offset: i32,
    },
    /// ADDI, SLTI, SLTIU, XORI, ORI, ANDI.
    Immediate {
        op: ImmediateOp,
        rd: Reg,
        rs1: Reg,
        operand: i32,
    },
    /// SLLI, SRLI, SRAI.
    Shift {
        op: ShiftOp,
        rd: Reg,
        rs1: Reg,
        amount: u32,
    },
    /// ADD, SUB, SLL, SLT, SLTU, XOR, SRL, SRA, OR, AND.
    Register {
        op: RegisterOp,
        rd: Reg,
        rs1: Reg,
        rs2: Reg,
    },
    /// FENCE.
    Fence,
    /// ECALL.
    Ecall,
}
