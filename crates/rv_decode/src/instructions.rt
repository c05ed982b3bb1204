//! The instruction set: one variant for each of the forty-eight instructions of RV32IM.

use crate::fields::{
    BranchOffset, FenceWord, Immediate, JumpOffset, Register, ShiftAmount, UpperImmediate,
};

/// One instruction of RV32IM, as the RISC-V unprivileged ISA has it.
///
/// Immediates are sign-extended words. Sums wrap modulo 2^32.
#[derive(Clone, Copy)]
pub enum Instr {
    /// rd becomes imm.
    Lui {
        rd: Register,
        imm: UpperImmediate,
    },
    /// rd becomes pc + imm.
    Auipc {
        rd: Register,
        imm: UpperImmediate,
    },
    /// rd becomes pc + 4, and the pc goes to pc + imm.
    Jal {
        rd: Register,
        imm: JumpOffset,
    },
    /// rd becomes pc + 4, and the pc goes to rs1 + imm with bit 0 cleared.
    Jalr {
        rd: Register,
        rs1: Register,
        imm: Immediate,
    },
    /// Goes to pc + imm where rs1 = rs2.
    Beq {
        rs1: Register,
        rs2: Register,
        imm: BranchOffset,
    },
    /// Goes to pc + imm where rs1 and rs2 differ.
    Bne {
        rs1: Register,
        rs2: Register,
        imm: BranchOffset,
    },
    /// Goes to pc + imm where rs1 < rs2, signed.
    Blt {
        rs1: Register,
        rs2: Register,
        imm: BranchOffset,
    },
    /// Goes to pc + imm where rs1 >= rs2, signed.
    Bge {
        rs1: Register,
        rs2: Register,
        imm: BranchOffset,
    },
    /// Goes to pc + imm where rs1 < rs2, unsigned.
    Bltu {
        rs1: Register,
        rs2: Register,
        imm: BranchOffset,
    },
    /// Goes to pc + imm where rs1 >= rs2, unsigned.
    Bgeu {
        rs1: Register,
        rs2: Register,
        imm: BranchOffset,
    },
    /// rd becomes the byte at rs1 + imm, sign-extended.
    Lb {
        rd: Register,
        rs1: Register,
        imm: Immediate,
    },
    /// rd becomes the half at rs1 + imm, sign-extended.
    Lh {
        rd: Register,
        rs1: Register,
        imm: Immediate,
    },
    /// rd becomes the word at rs1 + imm.
    Lw {
        rd: Register,
        rs1: Register,
        imm: Immediate,
    },
    /// rd becomes the byte at rs1 + imm.
    Lbu {
        rd: Register,
        rs1: Register,
        imm: Immediate,
    },
    /// rd becomes the half at rs1 + imm.
    Lhu {
        rd: Register,
        rs1: Register,
        imm: Immediate,
    },
    /// The low byte of rs2 goes to rs1 + imm.
    Sb {
        rs1: Register,
        rs2: Register,
        imm: Immediate,
    },
    /// The low half of rs2 goes to rs1 + imm.
    Sh {
        rs1: Register,
        rs2: Register,
        imm: Immediate,
    },
    /// rs2 goes to rs1 + imm.
    Sw {
        rs1: Register,
        rs2: Register,
        imm: Immediate,
    },
    /// rd becomes rs1 + imm.
    Addi {
        rd: Register,
        rs1: Register,
        imm: Immediate,
    },
    /// rd becomes 1 where rs1 < imm, signed, else 0.
    Slti {
        rd: Register,
        rs1: Register,
        imm: Immediate,
    },
    /// rd becomes 1 where rs1 < imm, unsigned, else 0.
    Sltiu {
        rd: Register,
        rs1: Register,
        imm: Immediate,
    },
    /// rd becomes rs1 xor imm.
    Xori {
        rd: Register,
        rs1: Register,
        imm: Immediate,
    },
    /// rd becomes rs1 or imm.
    Ori {
        rd: Register,
        rs1: Register,
        imm: Immediate,
    },
    /// rd becomes rs1 and imm.
    Andi {
        rd: Register,
        rs1: Register,
        imm: Immediate,
    },
    /// rd becomes rs1 shifted up by imm.
    Slli {
        rd: Register,
        rs1: Register,
        imm: ShiftAmount,
    },
    /// rd becomes rs1 shifted down by imm.
    Srli {
        rd: Register,
        rs1: Register,
        imm: ShiftAmount,
    },
    /// rd becomes rs1 shifted down by imm, with copies of its sign.
    Srai {
        rd: Register,
        rs1: Register,
        imm: ShiftAmount,
    },
    /// rd becomes rs1 + rs2.
    Add {
        rd: Register,
        rs1: Register,
        rs2: Register,
    },
    /// rd becomes rs1 - rs2.
    Sub {
        rd: Register,
        rs1: Register,
        rs2: Register,
    },
    /// rd becomes rs1 shifted up by rs2 modulo 32.
    Sll {
        rd: Register,
        rs1: Register,
        rs2: Register,
    },
    /// rd becomes 1 where rs1 < rs2, signed, else 0.
    Slt {
        rd: Register,
        rs1: Register,
        rs2: Register,
    },
    /// rd becomes 1 where rs1 < rs2, unsigned, else 0.
    Sltu {
        rd: Register,
        rs1: Register,
        rs2: Register,
    },
    /// rd becomes rs1 xor rs2.
    Xor {
        rd: Register,
        rs1: Register,
        rs2: Register,
    },
    /// rd becomes rs1 shifted down by rs2 modulo 32.
    Srl {
        rd: Register,
        rs1: Register,
        rs2: Register,
    },
    /// rd becomes rs1 shifted down by rs2 modulo 32, with copies of its sign.
    Sra {
        rd: Register,
        rs1: Register,
        rs2: Register,
    },
    /// rd becomes rs1 or rs2.
    Or {
        rd: Register,
        rs1: Register,
        rs2: Register,
    },
    /// rd becomes rs1 and rs2.
    And {
        rd: Register,
        rs1: Register,
        rs2: Register,
    },
    /// rd becomes the low word of rs1 * rs2.
    Mul {
        rd: Register,
        rs1: Register,
        rs2: Register,
    },
    /// rd becomes the high word of rs1 * rs2, both signed.
    Mulh {
        rd: Register,
        rs1: Register,
        rs2: Register,
    },
    /// rd becomes the high word of rs1 * rs2, rs1 signed and rs2 unsigned.
    Mulhsu {
        rd: Register,
        rs1: Register,
        rs2: Register,
    },
    /// rd becomes the high word of rs1 * rs2, both unsigned.
    Mulhu {
        rd: Register,
        rs1: Register,
        rs2: Register,
    },
    /// rd becomes rs1 / rs2, signed and rounded toward zero: -1 where rs2 is 0, and -2^31 for -2^31 / -1.
    Div {
        rd: Register,
        rs1: Register,
        rs2: Register,
    },
    /// rd becomes rs1 / rs2, unsigned: 2^32 - 1 where rs2 is 0.
    Divu {
        rd: Register,
        rs1: Register,
        rs2: Register,
    },
    /// rd becomes the remainder of rs1 / rs2, signed, with the sign of rs1: rs1 where rs2 is 0.
    Rem {
        rd: Register,
        rs1: Register,
        rs2: Register,
    },
    /// rd becomes the remainder of rs1 / rs2, unsigned: rs1 where rs2 is 0.
    Remu {
        rd: Register,
        rs1: Register,
        rs2: Register,
    },
    /// Does nothing: one turn of a hart is atomic here.
    Fence {
        word: FenceWord,
    },
    /// Calls the service whose number is in a7.
    Ecall,
    /// Stops at a break and goes on.
    Ebreak,
}
