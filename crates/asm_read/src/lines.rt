//! A line: which bytes it may have, its comment, the name of its place, and its statement.

ghost use Rattle.std.specs.Prelude.{◌≡◌};
ghost use Rattle.asm_read.specs.Lines.{form_at, label_in, line_of, statement_in, statement_of, unknown};
ghost use Rattle.shared_terms.specs.Steps.{result_view};

use crate::directives::directive_of;
use crate::errors::AsmErrorKind;
use crate::instructions::{
    branch, immediate, jump, jump_register, load, registers, shift, store, upper,
};
use crate::names::Name;
use crate::operands::no_operand;
use crate::pseudo::{
    jump_alone, load_address, load_number, move_register, no_operation, return_jump,
};
use crate::statements::{Line, Statement};
use asm_table::{Form, form_of};
use asm_text::{cut, first_word, is_name, only_allowed, trim};

/// The statement of the form, by the text behind its first word, or what is wrong with the operands there.
#[tactic(auto, unfolding(crate::specs::Lines::statement_of))]
pub fn statement_of<'a>(form: Form, text: &'a [u8]) -> Result<Statement<'a>, AsmErrorKind>
    ensures { result ≡ statement_of form text.now }
{
    match form {
        Form::Registers(operation) => registers(operation, text),
        Form::Immediate(operation) => immediate(operation, text),
        Form::Shift(operation) => shift(operation, text),
        Form::Upper(operation) => upper(operation, text),
        Form::Load(operation) => load(operation, text),
        Form::Store(operation) => store(operation, text),
        Form::Branch(operation) => branch(operation, text),
        Form::Jump => jump(text),
        Form::JumpRegister => jump_register(text),
        Form::Fence => {
            no_operand(text)?;
            Ok(Statement::Fence)
        }
        Form::Ecall => {
            no_operand(text)?;
            Ok(Statement::Ecall)
        }
        Form::Ebreak => {
            no_operand(text)?;
            Ok(Statement::Ebreak)
        }
        Form::Nothing => no_operation(text),
        Form::Move => move_register(text),
        Form::Return => return_jump(text),
        Form::JumpAlone => jump_alone(text),
        Form::LoadNumber => load_number(text),
        Form::LoadAddress => load_address(text),
        Form::Directive(directive) => directive_of(directive, text),
    }
}

/// What a first word is that no form has.
fn unknown(word: &[u8]) -> AsmErrorKind
    ensures { result ≡ unknown word.now }
{
    match word {
        [b'.', ..] => AsmErrorKind::Directive,
        _ => AsmErrorKind::Mnemonic,
    }
}

/// The form of a first word.
fn form_at(word: &[u8]) -> Result<Form, AsmErrorKind>
    ensures { result ≡ form_at word.now }
{
    form_of(word).ok_or(unknown(word))
}

/// The statement of a text without blanks at its ends; `None` where it is empty.
#[tactic(auto, unfolding(crate::specs::Lines::statement_in))]
fn statement_in<'a>(text: &'a [u8]) -> Result<Option<Statement<'a>>, AsmErrorKind>
    ensures { result ≡ statement_in text.now }
{
    if text.is_empty() {
        return Ok(None);
    }
    let (word, operands) = first_word(text);
    let form = form_at(word)?;
    let statement = statement_of(form, operands)?;
    Ok(Some(statement))
}

/// The name before the first colon, if there is one, and the text of the statement.
#[tactic(auto, unfolding(crate::specs::Lines::label_in))]
fn label_in<'a>(text: &'a [u8]) -> Result<(Option<Name<'a>>, &'a [u8]), AsmErrorKind>
    ensures { result_view (λ x. (x.0, x.1.now)) result ≡ label_in text.now }
{
    let (name, statement) = cut(text, b':');
    let Some(statement) = statement else {
        return Ok((None, text));
    };
    let name = trim(name);
    if !is_name(name) {
        return Err(AsmErrorKind::Mnemonic);
    }
    Ok((Some(Name::new(name)), statement))
}

/// What the line says, given without what ends it, or the first thing that is wrong there. The number is the line's, and is
/// handed through.
#[tactic(auto, unfolding(crate::specs::Lines::line_of))]
pub fn line_of<'a>(number: u64, text: &'a [u8]) -> Result<Line<'a>, AsmErrorKind>
    ensures { result ≡ line_of number text.now }
{
    if !only_allowed(text) {
        return Err(AsmErrorKind::Byte);
    }
    let (said, _comment) = cut(text, b'#');
    let (label, statement) = label_in(said)?;
    let statement = statement_in(trim(statement))?;
    Ok(Line {
        number,
        label,
        statement,
    })
}
