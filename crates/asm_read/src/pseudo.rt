//! The forms that stand for instructions, each by its operands.

ghost use Rattle.std.specs.Prelude.{◌≡◌};
ghost use Rattle.asm_read.specs.Pseudo.{jump_alone, load_address, load_number, move_register, no_operation, return_jump};

use crate::errors::AsmErrorKind;
use crate::operands::{no_operand, one_operand, two_operands};
use crate::statements::Statement;
use crate::values::{number, register, target};
use asm_table::ImmediateOperation;
use rv_decode::Register;

/// `li rd, n`.
#[tactic(auto, unfolding(crate::specs::Pseudo::load_number))]
pub(crate) fn load_number<'a>(text: &'a [u8]) -> Result<Statement<'a>, AsmErrorKind>
    ensures { result ≡ load_number text.now }
{
    let (rd, written) = two_operands(text)?;
    let rd = register(rd)?;
    let number = number(written)?;
    Ok(Statement::LoadNumber { rd, number })
}

/// `la rd, T`.
#[tactic(auto, unfolding(crate::specs::Pseudo::load_address))]
pub(crate) fn load_address<'a>(text: &'a [u8]) -> Result<Statement<'a>, AsmErrorKind>
    ensures { result ≡ load_address text.now }
{
    let (rd, target_text) = two_operands(text)?;
    let rd = register(rd)?;
    let target = target(target_text)?;
    Ok(Statement::LoadAddress { rd, target })
}

/// `mv rd, rs`, which is `addi rd, rs, 0`.
#[tactic(auto, unfolding(crate::specs::Pseudo::move_register))]
pub(crate) fn move_register<'a>(text: &'a [u8]) -> Result<Statement<'a>, AsmErrorKind>
    ensures { result ≡ move_register text.now }
{
    let (rd, rs) = two_operands(text)?;
    let rd = register(rd)?;
    let rs1 = register(rs)?;
    Ok(Statement::Immediate {
        operation: ImmediateOperation::Addi,
        rd,
        rs1,
        number: 0,
    })
}

/// `j T`, which is `jal x0, T`.
#[tactic(auto, unfolding(crate::specs::Pseudo::jump_alone))]
pub(crate) fn jump_alone<'a>(text: &'a [u8]) -> Result<Statement<'a>, AsmErrorKind>
    ensures { result ≡ jump_alone text.now }
{
    let target = target(one_operand(text)?)?;
    Ok(Statement::Jump {
        rd: Register::ZERO,
        target,
    })
}

/// `nop`, which is `addi x0, x0, 0`.
#[tactic(auto, unfolding(crate::specs::Pseudo::no_operation))]
pub(crate) fn no_operation<'a>(text: &'a [u8]) -> Result<Statement<'a>, AsmErrorKind>
    ensures { result ≡ no_operation text.now }
{
    no_operand(text)?;
    Ok(Statement::Immediate {
        operation: ImmediateOperation::Addi,
        rd: Register::ZERO,
        rs1: Register::ZERO,
        number: 0,
    })
}

/// `ret`, which is `jalr x0, 0(x1)`.
#[tactic(auto, unfolding(crate::specs::Pseudo::return_jump))]
pub(crate) fn return_jump<'a>(text: &'a [u8]) -> Result<Statement<'a>, AsmErrorKind>
    ensures { result ≡ return_jump text.now }
{
    no_operand(text)?;
    Ok(Statement::JumpRegister {
        rd: Register::ZERO,
        rs1: Register::RA,
        offset: 0,
    })
}
