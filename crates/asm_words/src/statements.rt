//! The words of each statement.

ghost use Rattle.std.specs.Prelude.{◌≡◌, IfOk};
ghost use Rattle.std.specs.FinMap as map;
ghost use Rattle.asm_words.specs.Emission.{branch, computation_emission, directive_emission, emission_of, fence, immediate, jump, jump_register, load, load_address, shift, store, upper, word, zeros};
ghost use Rattle.asm_words.specs.EmissionLaws.{Fits};

use crate::emissions::{Emission, one};
use crate::instructions::{
    branch_of, load_of, store_of, with_amount, with_immediate, with_registers, with_upper,
};
use crate::loads::{both_parts, load_number};
use crate::names::Names;
use crate::ranges::{amount_at, branch_offset, immediate_at, jump_offset, upper_at};
use crate::targets::address_of;
use asm_read::{AsmErrorKind, Statement, Target};
use asm_table::{
    BranchOperation, ImmediateOperation, LoadOperation, ShiftOperation, StoreOperation,
    UpperOperation,
};
use rv_decode::{FenceWord, Instr, Register};

/// `addi rd, rs1, n` and its like.
#[tactic(auto, unfolding(crate::specs::Emission::immediate))]
fn immediate(
    operation: ImmediateOperation,
    rd: Register,
    rs1: Register,
    number: i64,
) -> Result<Emission, AsmErrorKind>
    ensures value { result ≡ immediate operation rd rs1 number }
    ensures fits { IfOk result Fits }
{
    let imm = immediate_at(number)?;
    Ok(one(with_immediate(operation, rd, rs1, imm)))
}

/// `slli rd, rs1, n` and its like.
#[tactic(auto, unfolding(crate::specs::Emission::shift))]
fn shift(
    operation: ShiftOperation,
    rd: Register,
    rs1: Register,
    number: i64,
) -> Result<Emission, AsmErrorKind>
    ensures value { result ≡ shift operation rd rs1 number }
    ensures fits { IfOk result Fits }
{
    let amount = amount_at(number)?;
    Ok(one(with_amount(operation, rd, rs1, amount)))
}

/// `lui rd, n` and its like.
#[tactic(auto, unfolding(crate::specs::Emission::upper))]
fn upper(operation: UpperOperation, rd: Register, number: i64) -> Result<Emission, AsmErrorKind>
    ensures value { result ≡ upper operation rd number }
    ensures fits { IfOk result Fits }
{
    let imm = upper_at(number)?;
    Ok(one(with_upper(operation, rd, imm)))
}

/// `lw rd, n(rs1)` and its like.
#[tactic(auto, unfolding(crate::specs::Emission::load))]
fn load(
    operation: LoadOperation,
    rd: Register,
    rs1: Register,
    offset: i64,
) -> Result<Emission, AsmErrorKind>
    ensures value { result ≡ load operation rd rs1 offset }
    ensures fits { IfOk result Fits }
{
    let imm = immediate_at(offset)?;
    Ok(one(load_of(operation, rd, rs1, imm)))
}

/// `sw rs2, n(rs1)` and its like.
#[tactic(auto, unfolding(crate::specs::Emission::store))]
fn store(
    operation: StoreOperation,
    rs2: Register,
    rs1: Register,
    offset: i64,
) -> Result<Emission, AsmErrorKind>
    ensures value { result ≡ store operation rs2 rs1 offset }
    ensures fits { IfOk result Fits }
{
    let imm = immediate_at(offset)?;
    Ok(one(store_of(operation, rs1, rs2, imm)))
}

/// `beq rs1, rs2, T` and its like, at `place`.
#[tactic(auto, unfolding(crate::specs::Emission::branch))]
fn branch<'a>(
    names: &Names<'a>,
    place: u32,
    operation: BranchOperation,
    rs1: Register,
    rs2: Register,
    target: &Target<'a>,
) -> Result<Emission, AsmErrorKind>
    ensures value { result ≡ branch (map.get names.now) place operation rs1 rs2 target.now }
    ensures fits { IfOk result Fits }
{
    let address = address_of(names, target)?;
    let imm = branch_offset(place, address)?;
    Ok(one(branch_of(operation, rs1, rs2, imm)))
}

/// `jal rd, T`, at `place`.
#[tactic(auto, unfolding(crate::specs::Emission::jump))]
fn jump<'a>(
    names: &Names<'a>,
    place: u32,
    rd: Register,
    target: &Target<'a>,
) -> Result<Emission, AsmErrorKind>
    ensures value { result ≡ jump (map.get names.now) place rd target.now }
    ensures fits { IfOk result Fits }
{
    let address = address_of(names, target)?;
    let imm = jump_offset(place, address)?;
    Ok(one(Instr::Jal { rd, imm }))
}

/// `jalr rd, n(rs1)`.
#[tactic(auto, unfolding(crate::specs::Emission::jump_register))]
fn jump_register(rd: Register, rs1: Register, offset: i64) -> Result<Emission, AsmErrorKind>
    ensures value { result ≡ jump_register rd rs1 offset }
    ensures fits { IfOk result Fits }
{
    let imm = immediate_at(offset)?;
    Ok(one(Instr::Jalr { rd, rs1, imm }))
}

/// `la rd, T`.
#[tactic(auto, unfolding(crate::specs::Emission::load_address))]
fn load_address<'a>(
    names: &Names<'a>,
    rd: Register,
    target: &Target<'a>,
) -> Result<Emission, AsmErrorKind>
    ensures value { result ≡ load_address (map.get names.now) rd target.now }
    ensures fits { IfOk result Fits }
{
    let address = address_of(names, target)?;
    Ok(both_parts(rd, address))
}

/// `.word T`.
#[tactic(auto, unfolding(crate::specs::Emission::word))]
fn word<'a>(names: &Names<'a>, target: &Target<'a>) -> Result<Emission, AsmErrorKind>
    ensures value { result ≡ word (map.get names.now) target.now }
    ensures fits { IfOk result Fits }
{
    let address = address_of(names, target)?;
    Ok(Emission::One(address))
}

/// `.zero n`.
fn zeros(number: i64) -> Result<Emission, AsmErrorKind>
    ensures value { result ≡ zeros number }
    ensures fits { IfOk result Fits }
{
    match u64::try_from(number) {
        Ok(count) => Ok(Emission::Zeros(count)),
        Err(_) => Err(AsmErrorKind::Range),
    }
}

/// `fence`.
fn fence() -> Emission
    ensures value { result ≡ fence }
    ensures fits { Fits result }
{
    let word = FenceWord::FULL;
    one(Instr::Fence { word })
}

/// The words of `.zero`. The other directives emit nothing.
fn directive_emission(statement: &Statement<'_>) -> Result<Emission, AsmErrorKind>
    ensures value { result ≡ directive_emission statement.now }
    ensures fits { IfOk result Fits }
{
    match statement {
        Statement::Zeros(number) => zeros(*number),
        _ => Ok(Emission::Nothing),
    }
}

/// The words of an instruction of registers and numbers alone. The rest is directives.
fn computation_emission(statement: &Statement<'_>) -> Result<Emission, AsmErrorKind>
    ensures value { result ≡ computation_emission statement.now }
    ensures fits { IfOk result Fits }
{
    match statement {
        Statement::Registers {
            operation,
            rd,
            rs1,
            rs2,
        } => Ok(one(with_registers(*operation, *rd, *rs1, *rs2))),
        Statement::Immediate {
            operation,
            rd,
            rs1,
            number,
        } => immediate(*operation, *rd, *rs1, *number),
        Statement::Shift {
            operation,
            rd,
            rs1,
            number,
        } => shift(*operation, *rd, *rs1, *number),
        Statement::Upper {
            operation,
            rd,
            number,
        } => upper(*operation, *rd, *number),
        Statement::Fence => Ok(fence()),
        Statement::Ecall => Ok(one(Instr::Ecall)),
        Statement::Ebreak => Ok(one(Instr::Ebreak)),
        Statement::LoadNumber { rd, number } => Ok(load_number(*rd, *number)),
        _ => directive_emission(statement),
    }
}

/// The words of the statement at the address `place`, where names stand for their places.
///
/// A name that has no place is `NoName`, and then a number that is outside the range of its field `Range`: 12-bit immediates
/// -2048 to 2047, amounts of shifts 0 to 31, upper parts 0 to 1048575, offsets of branches even from -4096 to 4094 and of jumps
/// even from -1048576 to 1048574, where an offset is the target minus the place, modulo 2^32, as a signed number; `.zero` isn't
/// negative. The numbers of `li`, `la` and `.word` are taken modulo 2^32. What other directives say isn't asked here.
#[tactic(auto, unfolding(crate::specs::Emission::emission_of))]
pub fn emission_of<'a>(
    names: &Names<'a>,
    place: u32,
    statement: &Statement<'a>,
) -> Result<Emission, AsmErrorKind>
    ensures value { result ≡ emission_of (map.get names.now) place statement.now }
    ensures fits { IfOk result Fits }
{
    match statement {
        Statement::Load {
            operation,
            rd,
            rs1,
            offset,
        } => load(*operation, *rd, *rs1, *offset),
        Statement::Store {
            operation,
            rs2,
            rs1,
            offset,
        } => store(*operation, *rs2, *rs1, *offset),
        Statement::Branch {
            operation,
            rs1,
            rs2,
            target,
        } => branch(names, place, *operation, *rs1, *rs2, target),
        Statement::Jump { rd, target } => jump(names, place, *rd, target),
        Statement::JumpRegister { rd, rs1, offset } => jump_register(*rd, *rs1, *offset),
        Statement::LoadAddress { rd, target } => load_address(names, *rd, target),
        Statement::Word(target) => word(names, target),
        _ => computation_emission(statement),
    }
}
