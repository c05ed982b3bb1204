//! The directives, each by its operands.

ghost use Rattle.std.specs.Prelude.{◌≡◌};
ghost use Rattle.asm_read.specs.Directives.{compartment, directive_of, entry, one_number, two_numbers, word};

use crate::errors::AsmErrorKind;
use crate::operands::{no_operand, one_operand, three_operands, two_operands};
use crate::statements::Statement;
use crate::values::{mask, number, target};
use asm_table::Directive;

/// The only operand, a number.
#[tactic(auto, unfolding(crate::specs::Directives::one_number))]
fn one_number(text: &[u8]) -> Result<i64, AsmErrorKind>
    ensures { result ≡ one_number text.now }
{
    number(one_operand(text)?)
}

/// The only two operands, which are numbers.
#[tactic(auto, unfolding(crate::specs::Directives::two_numbers))]
fn two_numbers(text: &[u8]) -> Result<(i64, i64), AsmErrorKind>
    ensures { result ≡ two_numbers text.now }
{
    let (first, second) = two_operands(text)?;
    let first = number(first)?;
    let second = number(second)?;
    Ok((first, second))
}

/// `.entry H, T`.
#[tactic(auto, unfolding(crate::specs::Directives::entry))]
fn entry<'a>(text: &'a [u8]) -> Result<Statement<'a>, AsmErrorKind>
    ensures { result ≡ entry text.now }
{
    let (hart, target_text) = two_operands(text)?;
    let hart = number(hart)?;
    let target = target(target_text)?;
    Ok(Statement::Entry { hart, target })
}

/// `.word T`.
#[tactic(auto, unfolding(crate::specs::Directives::word))]
fn word<'a>(text: &'a [u8]) -> Result<Statement<'a>, AsmErrorKind>
    ensures { result ≡ word text.now }
{
    let target = target(one_operand(text)?)?;
    Ok(Statement::Word(target))
}

/// `.comp O, I, W`.
#[tactic(auto, unfolding(crate::specs::Directives::compartment))]
fn compartment<'a>(text: &'a [u8]) -> Result<Statement<'a>, AsmErrorKind>
    ensures { result ≡ compartment text.now }
{
    let (owner, into, write) = three_operands(text)?;
    let owner = number(owner)?;
    let into = mask(into)?;
    let write = mask(write)?;
    Ok(Statement::Compartment { owner, into, write })
}

/// The directive with the operands behind it.
#[tactic(auto, unfolding(crate::specs::Directives::directive_of))]
pub(crate) fn directive_of<'a>(
    directive: Directive,
    text: &'a [u8],
) -> Result<Statement<'a>, AsmErrorKind>
    ensures { result ≡ directive_of directive text.now }
{
    match directive {
        Directive::Version => Ok(Statement::Version(one_number(text)?)),
        Directive::Harts => Ok(Statement::Harts(one_number(text)?)),
        Directive::Ram => Ok(Statement::Ram(one_number(text)?)),
        Directive::Heap => {
            let (base, bytes) = two_numbers(text)?;
            Ok(Statement::Heap { base, bytes })
        }
        Directive::Entry => entry(text),
        Directive::Origin => Ok(Statement::Origin(one_number(text)?)),
        Directive::Word => word(text),
        Directive::Zeros => Ok(Statement::Zeros(one_number(text)?)),
        Directive::Text => {
            no_operand(text)?;
            Ok(Statement::Text)
        }
        Directive::Data => {
            no_operand(text)?;
            Ok(Statement::Data)
        }
        Directive::Label => Ok(Statement::Label(one_number(text)?)),
        Directive::Edge => {
            let (source, destination) = two_numbers(text)?;
            Ok(Statement::Edge {
                source,
                destination,
            })
        }
        Directive::Compartment => compartment(text),
    }
}
