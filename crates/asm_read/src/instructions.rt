//! The instructions, each by its operands.

ghost use Rattle.std.specs.Prelude.{◌≡◌};
ghost use Rattle.asm_read.specs.Instructions.{branch, immediate, jump, jump_register, load, registers, shift, store, upper};

use crate::addresses::access;
use crate::errors::AsmErrorKind;
use crate::operands::{three_operands, two_operands};
use crate::statements::Statement;
use crate::values::{number, register, target};
use asm_table::{
    BranchOperation, ImmediateOperation, LoadOperation, RegisterOperation, ShiftOperation,
    StoreOperation, UpperOperation,
};

/// `add rd, rs1, rs2` and its like.
#[tactic(auto, unfolding(crate::specs::Instructions::registers))]
pub(crate) fn registers<'a>(
    operation: RegisterOperation,
    text: &'a [u8],
) -> Result<Statement<'a>, AsmErrorKind>
    ensures { result ≡ registers operation text.now }
{
    let (rd, rs1, rs2) = three_operands(text)?;
    let rd = register(rd)?;
    let rs1 = register(rs1)?;
    let rs2 = register(rs2)?;
    Ok(Statement::Registers {
        operation,
        rd,
        rs1,
        rs2,
    })
}

/// `addi rd, rs1, n` and its like.
#[tactic(auto, unfolding(crate::specs::Instructions::immediate))]
pub(crate) fn immediate<'a>(
    operation: ImmediateOperation,
    text: &'a [u8],
) -> Result<Statement<'a>, AsmErrorKind>
    ensures { result ≡ immediate operation text.now }
{
    let (rd, rs1, written) = three_operands(text)?;
    let rd = register(rd)?;
    let rs1 = register(rs1)?;
    let number = number(written)?;
    Ok(Statement::Immediate {
        operation,
        rd,
        rs1,
        number,
    })
}

/// `slli rd, rs1, n` and its like.
#[tactic(auto, unfolding(crate::specs::Instructions::shift))]
pub(crate) fn shift<'a>(
    operation: ShiftOperation,
    text: &'a [u8],
) -> Result<Statement<'a>, AsmErrorKind>
    ensures { result ≡ shift operation text.now }
{
    let (rd, rs1, written) = three_operands(text)?;
    let rd = register(rd)?;
    let rs1 = register(rs1)?;
    let number = number(written)?;
    Ok(Statement::Shift {
        operation,
        rd,
        rs1,
        number,
    })
}

/// `lui rd, n` and its like.
#[tactic(auto, unfolding(crate::specs::Instructions::upper))]
pub(crate) fn upper<'a>(
    operation: UpperOperation,
    text: &'a [u8],
) -> Result<Statement<'a>, AsmErrorKind>
    ensures { result ≡ upper operation text.now }
{
    let (rd, written) = two_operands(text)?;
    let rd = register(rd)?;
    let number = number(written)?;
    Ok(Statement::Upper {
        operation,
        rd,
        number,
    })
}

/// `lw rd, n(rs1)` and its like.
#[tactic(auto, unfolding(crate::specs::Instructions::load))]
pub(crate) fn load<'a>(
    operation: LoadOperation,
    text: &'a [u8],
) -> Result<Statement<'a>, AsmErrorKind>
    ensures { result ≡ load operation text.now }
{
    let (rd, rs1, offset) = access(text)?;
    Ok(Statement::Load {
        operation,
        rd,
        rs1,
        offset,
    })
}

/// `sw rs2, n(rs1)` and its like.
#[tactic(auto, unfolding(crate::specs::Instructions::store))]
pub(crate) fn store<'a>(
    operation: StoreOperation,
    text: &'a [u8],
) -> Result<Statement<'a>, AsmErrorKind>
    ensures { result ≡ store operation text.now }
{
    let (rs2, rs1, offset) = access(text)?;
    Ok(Statement::Store {
        operation,
        rs2,
        rs1,
        offset,
    })
}

/// `beq rs1, rs2, T` and its like.
#[tactic(auto, unfolding(crate::specs::Instructions::branch))]
pub(crate) fn branch<'a>(
    operation: BranchOperation,
    text: &'a [u8],
) -> Result<Statement<'a>, AsmErrorKind>
    ensures { result ≡ branch operation text.now }
{
    let (rs1, rs2, target_text) = three_operands(text)?;
    let rs1 = register(rs1)?;
    let rs2 = register(rs2)?;
    let target = target(target_text)?;
    Ok(Statement::Branch {
        operation,
        rs1,
        rs2,
        target,
    })
}

/// `jal rd, T`.
#[tactic(auto, unfolding(crate::specs::Instructions::jump))]
pub(crate) fn jump<'a>(text: &'a [u8]) -> Result<Statement<'a>, AsmErrorKind>
    ensures { result ≡ jump text.now }
{
    let (rd, target_text) = two_operands(text)?;
    let rd = register(rd)?;
    let target = target(target_text)?;
    Ok(Statement::Jump { rd, target })
}

/// `jalr rd, n(rs1)`.
#[tactic(auto, unfolding(crate::specs::Instructions::jump_register))]
pub(crate) fn jump_register<'a>(text: &'a [u8]) -> Result<Statement<'a>, AsmErrorKind>
    ensures { result ≡ jump_register text.now }
{
    let (rd, rs1, offset) = access(text)?;
    Ok(Statement::JumpRegister { rd, rs1, offset })
}
