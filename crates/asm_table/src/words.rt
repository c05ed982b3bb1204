//! The words of the forms.

ghost use Rattle.std.specs.Prelude.{◌≡◌};
ghost use Rattle.asm_table.specs.Words.{arithmetic_named, form_named, instruction_named};
ghost use Rattle.asm_table.specs.Words.{branch_named, directive_named, other_named, pseudo_named};
ghost use Rattle.asm_table.specs.Words.{immediate_named, load_named, registers_named, shift_named, store_named, upper_named};

use crate::forms::{
    BranchOperation, Directive, Form, ImmediateOperation, LoadOperation, RegisterOperation,
    ShiftOperation, StoreOperation, UpperOperation,
};
use crate::rows::beside;

/// The operations on two registers.
const REGISTERS_OPERATIONS: [(&[u8], RegisterOperation); 18] = [
    (b"add", RegisterOperation::Add),
    (b"sub", RegisterOperation::Sub),
    (b"sll", RegisterOperation::Sll),
    (b"slt", RegisterOperation::Slt),
    (b"sltu", RegisterOperation::Sltu),
    (b"xor", RegisterOperation::Xor),
    (b"srl", RegisterOperation::Srl),
    (b"sra", RegisterOperation::Sra),
    (b"or", RegisterOperation::Or),
    (b"and", RegisterOperation::And),
    (b"mul", RegisterOperation::Mul),
    (b"mulh", RegisterOperation::Mulh),
    (b"mulhsu", RegisterOperation::Mulhsu),
    (b"mulhu", RegisterOperation::Mulhu),
    (b"div", RegisterOperation::Div),
    (b"divu", RegisterOperation::Divu),
    (b"rem", RegisterOperation::Rem),
    (b"remu", RegisterOperation::Remu),
];

/// The operation on two registers of this name.
#[tactic(auto, unfolding(crate::specs::Words::registers_named))]
fn registers_operation(word: &[u8]) -> Option<RegisterOperation>
    ensures { result ≡ registers_named word.now }
{
    beside(word, &REGISTERS_OPERATIONS)
}

/// The operations on a register and a number.
const IMMEDIATE_OPERATIONS: [(&[u8], ImmediateOperation); 6] = [
    (b"addi", ImmediateOperation::Addi),
    (b"slti", ImmediateOperation::Slti),
    (b"sltiu", ImmediateOperation::Sltiu),
    (b"xori", ImmediateOperation::Xori),
    (b"ori", ImmediateOperation::Ori),
    (b"andi", ImmediateOperation::Andi),
];

/// The operation on a register and a number of this name.
#[tactic(auto, unfolding(crate::specs::Words::immediate_named))]
fn immediate_operation(word: &[u8]) -> Option<ImmediateOperation>
    ensures { result ≡ immediate_named word.now }
{
    beside(word, &IMMEDIATE_OPERATIONS)
}

/// The shifts by a number.
const SHIFT_OPERATIONS: [(&[u8], ShiftOperation); 3] = [
    (b"slli", ShiftOperation::Slli),
    (b"srli", ShiftOperation::Srli),
    (b"srai", ShiftOperation::Srai),
];

/// The shift by a number of this name.
#[tactic(auto, unfolding(crate::specs::Words::shift_named))]
fn shift_operation(word: &[u8]) -> Option<ShiftOperation>
    ensures { result ≡ shift_named word.now }
{
    beside(word, &SHIFT_OPERATIONS)
}

/// The operations on the upper bits.
const UPPER_OPERATIONS: [(&[u8], UpperOperation); 2] = [
    (b"lui", UpperOperation::Lui),
    (b"auipc", UpperOperation::Auipc),
];

/// The operation on the upper bits of this name.
#[tactic(auto, unfolding(crate::specs::Words::upper_named))]
fn upper_operation(word: &[u8]) -> Option<UpperOperation>
    ensures { result ≡ upper_named word.now }
{
    beside(word, &UPPER_OPERATIONS)
}

/// The loads.
const LOAD_OPERATIONS: [(&[u8], LoadOperation); 5] = [
    (b"lb", LoadOperation::Lb),
    (b"lh", LoadOperation::Lh),
    (b"lw", LoadOperation::Lw),
    (b"lbu", LoadOperation::Lbu),
    (b"lhu", LoadOperation::Lhu),
];

/// The load of this name.
#[tactic(auto, unfolding(crate::specs::Words::load_named))]
fn load_operation(word: &[u8]) -> Option<LoadOperation>
    ensures { result ≡ load_named word.now }
{
    beside(word, &LOAD_OPERATIONS)
}

/// The stores.
const STORE_OPERATIONS: [(&[u8], StoreOperation); 3] = [
    (b"sb", StoreOperation::Sb),
    (b"sh", StoreOperation::Sh),
    (b"sw", StoreOperation::Sw),
];

/// The store of this name.
#[tactic(auto, unfolding(crate::specs::Words::store_named))]
fn store_operation(word: &[u8]) -> Option<StoreOperation>
    ensures { result ≡ store_named word.now }
{
    beside(word, &STORE_OPERATIONS)
}

/// The branches.
const BRANCH_OPERATIONS: [(&[u8], BranchOperation); 6] = [
    (b"beq", BranchOperation::Beq),
    (b"bne", BranchOperation::Bne),
    (b"blt", BranchOperation::Blt),
    (b"bge", BranchOperation::Bge),
    (b"bltu", BranchOperation::Bltu),
    (b"bgeu", BranchOperation::Bgeu),
];

/// The branch of this name.
#[tactic(auto, unfolding(crate::specs::Words::branch_named))]
fn branch_operation(word: &[u8]) -> Option<BranchOperation>
    ensures { result ≡ branch_named word.now }
{
    beside(word, &BRANCH_OPERATIONS)
}

/// The other instructions.
const OTHER_INSTRUCTIONS: [(&[u8], Form); 5] = [
    (b"jal", Form::Jump),
    (b"jalr", Form::JumpRegister),
    (b"fence", Form::Fence),
    (b"ecall", Form::Ecall),
    (b"ebreak", Form::Ebreak),
];

/// The other instruction of this name.
#[tactic(auto, unfolding(crate::specs::Words::other_named))]
fn other_instruction(word: &[u8]) -> Option<Form>
    ensures { result ≡ other_named word.now }
{
    beside(word, &OTHER_INSTRUCTIONS)
}

/// The forms that stand for instructions.
const PSEUDO_INSTRUCTIONS: [(&[u8], Form); 6] = [
    (b"nop", Form::Nothing),
    (b"mv", Form::Move),
    (b"ret", Form::Return),
    (b"j", Form::JumpAlone),
    (b"li", Form::LoadNumber),
    (b"la", Form::LoadAddress),
];

/// The form of this name that stands for instructions.
#[tactic(auto, unfolding(crate::specs::Words::pseudo_named))]
fn pseudo_instruction(word: &[u8]) -> Option<Form>
    ensures { result ≡ pseudo_named word.now }
{
    beside(word, &PSEUDO_INSTRUCTIONS)
}

/// The directives.
const DIRECTIVES: [(&[u8], Directive); 13] = [
    (b".version", Directive::Version),
    (b".harts", Directive::Harts),
    (b".ram", Directive::Ram),
    (b".heap", Directive::Heap),
    (b".entry", Directive::Entry),
    (b".org", Directive::Origin),
    (b".word", Directive::Word),
    (b".zero", Directive::Zeros),
    (b".text", Directive::Text),
    (b".data", Directive::Data),
    (b".label", Directive::Label),
    (b".edge", Directive::Edge),
    (b".comp", Directive::Compartment),
];

/// The directive of this name.
#[tactic(auto, unfolding(crate::specs::Words::directive_named))]
fn directive(word: &[u8]) -> Option<Directive>
    ensures { result ≡ directive_named word.now }
{
    beside(word, &DIRECTIVES)
}

/// The instruction of this name that calculates.
#[tactic(auto, unfolding(crate::specs::Words::arithmetic_named))]
fn arithmetic(word: &[u8]) -> Option<Form>
    ensures { result ≡ arithmetic_named word.now }
{
    if let Some(operation) = registers_operation(word) {
        return Some(Form::Registers(operation));
    }
    if let Some(operation) = immediate_operation(word) {
        return Some(Form::Immediate(operation));
    }
    if let Some(operation) = shift_operation(word) {
        return Some(Form::Shift(operation));
    }
    let operation = upper_operation(word)?;
    Some(Form::Upper(operation))
}

/// The instruction of this name.
#[tactic(auto, unfolding(crate::specs::Words::instruction_named))]
fn instruction(word: &[u8]) -> Option<Form>
    ensures { result ≡ instruction_named word.now }
{
    if let Some(form) = arithmetic(word) {
        return Some(form);
    }
    if let Some(operation) = load_operation(word) {
        return Some(Form::Load(operation));
    }
    if let Some(operation) = store_operation(word) {
        return Some(Form::Store(operation));
    }
    if let Some(operation) = branch_operation(word) {
        return Some(Form::Branch(operation));
    }
    other_instruction(word)
}

/// The form whose statements begin with this word; `None` for any other word. Words are in lower case.
#[tactic(auto, unfolding(crate::specs::Words::form_named))]
pub fn form_of(word: &[u8]) -> Option<Form>
    ensures { result ≡ form_named word.now }
{
    if let Some(form) = instruction(word) {
        return Some(form);
    }
    if let Some(form) = pseudo_instruction(word) {
        return Some(form);
    }
    let directive = directive(word)?;
    Some(Form::Directive(directive))
}
