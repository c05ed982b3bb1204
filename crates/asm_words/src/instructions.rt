//! The instruction of an operation and its operands.

ghost use Rattle.std.specs.Prelude.{◌≡◌};
ghost use Rattle.asm_words.specs.Instructions.{branch_of, load_of, store_of, with_amount, with_immediate, with_registers, with_upper};

use asm_table::{
    BranchOperation, ImmediateOperation, LoadOperation, RegisterOperation, ShiftOperation,
    StoreOperation, UpperOperation,
};
use rv_decode::{BranchOffset, Immediate, Instr, Register, ShiftAmount, UpperImmediate};

/// The instruction of an operation on two registers.
pub(crate) fn with_registers(
    operation: RegisterOperation,
    rd: Register,
    rs1: Register,
    rs2: Register,
) -> Instr
    ensures { result ≡ with_registers operation rd rs1 rs2 }
{
    match operation {
        RegisterOperation::Add => Instr::Add { rd, rs1, rs2 },
        RegisterOperation::Sub => Instr::Sub { rd, rs1, rs2 },
        RegisterOperation::Sll => Instr::Sll { rd, rs1, rs2 },
        RegisterOperation::Slt => Instr::Slt { rd, rs1, rs2 },
        RegisterOperation::Sltu => Instr::Sltu { rd, rs1, rs2 },
        RegisterOperation::Xor => Instr::Xor { rd, rs1, rs2 },
        RegisterOperation::Srl => Instr::Srl { rd, rs1, rs2 },
        RegisterOperation::Sra => Instr::Sra { rd, rs1, rs2 },
        RegisterOperation::Or => Instr::Or { rd, rs1, rs2 },
        RegisterOperation::And => Instr::And { rd, rs1, rs2 },
        RegisterOperation::Mul => Instr::Mul { rd, rs1, rs2 },
        RegisterOperation::Mulh => Instr::Mulh { rd, rs1, rs2 },
        RegisterOperation::Mulhsu => Instr::Mulhsu { rd, rs1, rs2 },
        RegisterOperation::Mulhu => Instr::Mulhu { rd, rs1, rs2 },
        RegisterOperation::Div => Instr::Div { rd, rs1, rs2 },
        RegisterOperation::Divu => Instr::Divu { rd, rs1, rs2 },
        RegisterOperation::Rem => Instr::Rem { rd, rs1, rs2 },
        RegisterOperation::Remu => Instr::Remu { rd, rs1, rs2 },
    }
}

/// The instruction of an operation on a register and an immediate.
pub(crate) fn with_immediate(
    operation: ImmediateOperation,
    rd: Register,
    rs1: Register,
    imm: Immediate,
) -> Instr
    ensures { result ≡ with_immediate operation rd rs1 imm }
{
    match operation {
        ImmediateOperation::Addi => Instr::Addi { rd, rs1, imm },
        ImmediateOperation::Slti => Instr::Slti { rd, rs1, imm },
        ImmediateOperation::Sltiu => Instr::Sltiu { rd, rs1, imm },
        ImmediateOperation::Xori => Instr::Xori { rd, rs1, imm },
        ImmediateOperation::Ori => Instr::Ori { rd, rs1, imm },
        ImmediateOperation::Andi => Instr::Andi { rd, rs1, imm },
    }
}

/// The instruction of a shift by a constant.
pub(crate) fn with_amount(
    operation: ShiftOperation,
    rd: Register,
    rs1: Register,
    amount: ShiftAmount,
) -> Instr
    ensures { result ≡ with_amount operation rd rs1 amount }
{
    match operation {
        ShiftOperation::Slli => Instr::Slli {
            rd,
            rs1,
            imm: amount,
        },
        ShiftOperation::Srli => Instr::Srli {
            rd,
            rs1,
            imm: amount,
        },
        ShiftOperation::Srai => Instr::Srai {
            rd,
            rs1,
            imm: amount,
        },
    }
}

/// The instruction of an operation on the upper 20 bits.
pub(crate) fn with_upper(operation: UpperOperation, rd: Register, imm: UpperImmediate) -> Instr
    ensures { result ≡ with_upper operation rd imm }
{
    match operation {
        UpperOperation::Lui => Instr::Lui { rd, imm },
        UpperOperation::Auipc => Instr::Auipc { rd, imm },
    }
}

/// The instruction of a load.
pub(crate) fn load_of(
    operation: LoadOperation,
    rd: Register,
    rs1: Register,
    imm: Immediate,
) -> Instr
    ensures { result ≡ load_of operation rd rs1 imm }
{
    match operation {
        LoadOperation::Lb => Instr::Lb { rd, rs1, imm },
        LoadOperation::Lh => Instr::Lh { rd, rs1, imm },
        LoadOperation::Lw => Instr::Lw { rd, rs1, imm },
        LoadOperation::Lbu => Instr::Lbu { rd, rs1, imm },
        LoadOperation::Lhu => Instr::Lhu { rd, rs1, imm },
    }
}

/// The instruction of a store.
pub(crate) fn store_of(
    operation: StoreOperation,
    rs1: Register,
    rs2: Register,
    imm: Immediate,
) -> Instr
    ensures { result ≡ store_of operation rs1 rs2 imm }
{
    match operation {
        StoreOperation::Sb => Instr::Sb { rs1, rs2, imm },
        StoreOperation::Sh => Instr::Sh { rs1, rs2, imm },
        StoreOperation::Sw => Instr::Sw { rs1, rs2, imm },
    }
}

/// The instruction of a branch.
pub(crate) fn branch_of(
    operation: BranchOperation,
    rs1: Register,
    rs2: Register,
    imm: BranchOffset,
) -> Instr
    ensures { result ≡ branch_of operation rs1 rs2 imm }
{
    match operation {
        BranchOperation::Beq => Instr::Beq { rs1, rs2, imm },
        BranchOperation::Bne => Instr::Bne { rs1, rs2, imm },
        BranchOperation::Blt => Instr::Blt { rs1, rs2, imm },
        BranchOperation::Bge => Instr::Bge { rs1, rs2, imm },
        BranchOperation::Bltu => Instr::Bltu { rs1, rs2, imm },
        BranchOperation::Bgeu => Instr::Bgeu { rs1, rs2, imm },
    }
}
