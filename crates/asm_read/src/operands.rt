//! The operands of a statement as texts, with commas between them.

ghost use Rattle.std.specs.Prelude.{◌≡◌};
ghost use Rattle.std.specs.Option.{option_copied};
ghost use Rattle.asm_read.specs.Operands.{next_operand, no_more, no_operand, one_operand, three_operands, two_operands};
ghost use Rattle.shared_terms.specs.Steps.{result_view};

use crate::errors::AsmErrorKind;
use asm_text::{cut, trim};

/// The operand in front without the blanks at its ends, and what stands behind its comma, if it has one.
#[tactic(auto, unfolding(crate::specs::Operands::next_operand))]
fn next_operand(left: Option<&[u8]>) -> Result<(&[u8], Option<&[u8]>), AsmErrorKind>
    ensures { result_view (λ x. (x.0.now, option_copied x.1)) result
        ≡ next_operand (option_copied left.entry) }
{
    let text = left.ok_or(AsmErrorKind::Operand)?;
    let (operand, left) = cut(text, b',');
    let operand = trim(operand);
    if operand.is_empty() {
        return Err(AsmErrorKind::Operand);
    }
    Ok((operand, left))
}

/// Nothing is left.
fn no_more(left: Option<&[u8]>) -> Result<(), AsmErrorKind>
    ensures { result ≡ no_more (option_copied left.entry) }
{
    match left {
        None => Ok(()),
        Some(_) => Err(AsmErrorKind::Operand),
    }
}

/// No operand.
#[tactic(auto, unfolding(crate::specs::Operands::no_operand))]
pub(crate) fn no_operand(text: &[u8]) -> Result<(), AsmErrorKind>
    ensures { result ≡ no_operand text.now }
{
    if trim(text).is_empty() {
        Ok(())
    } else {
        Err(AsmErrorKind::Operand)
    }
}

/// The only operand.
#[tactic(auto, unfolding(crate::specs::Operands::one_operand))]
pub(crate) fn one_operand(text: &[u8]) -> Result<&[u8], AsmErrorKind>
    ensures { result_view (λ x. x.now) result ≡ one_operand text.now }
{
    let (only, left) = next_operand(Some(text))?;
    no_more(left)?;
    Ok(only)
}

/// The only two operands.
#[tactic(auto, unfolding(crate::specs::Operands::two_operands))]
pub(crate) fn two_operands(text: &[u8]) -> Result<(&[u8], &[u8]), AsmErrorKind>
    ensures { result_view (λ x. (x.0.now, x.1.now)) result ≡ two_operands text.now }
{
    let (first, left) = next_operand(Some(text))?;
    let (second, left) = next_operand(left)?;
    no_more(left)?;
    Ok((first, second))
}

/// The only three operands.
#[tactic(auto, unfolding(crate::specs::Operands::three_operands))]
pub(crate) fn three_operands(text: &[u8]) -> Result<(&[u8], &[u8], &[u8]), AsmErrorKind>
    ensures { result_view (λ x. (x.0.now, x.1.now, x.2.now)) result ≡ three_operands text.now }
{
    let (first, left) = next_operand(Some(text))?;
    let (second, left) = next_operand(left)?;
    let (third, left) = next_operand(left)?;
    no_more(left)?;
    Ok((first, second, third))
}
