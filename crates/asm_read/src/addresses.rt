//! Operands of the form `n(r)`.

ghost use Rattle.std.specs.Prelude.{◌≡◌};
ghost use Rattle.std.specs.List.{list_all};
ghost use Rattle.asm_read.specs.Addresses.{access, is_plain, parts_at};
ghost use Rattle.shared_terms.specs.Steps.{result_view};

use crate::errors::AsmErrorKind;
use crate::operands::two_operands;
use crate::values::{number, register};
use asm_text::cut;
use rv_decode::Register;

/// Whether no byte of the text is a parenthesis.
fn has_no_parenthesis(text: &[u8]) -> bool
    ensures { result ≡ list_all is_plain text.now }
{
    text.iter().all(|byte| *byte != b'(' && *byte != b')')
}

/// The texts of `n` and `r` in `n(r)`, as they stand there. They may be empty, and have no parenthesis.
#[tactic(auto, unfolding(crate::specs::Addresses::parts_at))]
fn parts(text: &[u8]) -> Result<(&[u8], &[u8]), AsmErrorKind>
    ensures { result_view (λ x. (x.0.now, x.1.now)) result ≡ parts_at text.now }
{
    let (offset, inside) = cut(text, b'(');
    let inside = inside.ok_or(AsmErrorKind::Operand)?;
    let (base, behind) = cut(inside, b')');
    let behind = behind.ok_or(AsmErrorKind::Operand)?;
    if behind.is_empty() && has_no_parenthesis(offset) && has_no_parenthesis(base) {
        Ok((offset, base))
    } else {
        Err(AsmErrorKind::Operand)
    }
}

/// `r1, n(r2)`: both registers, and the number.
#[tactic(auto, unfolding(crate::specs::Addresses::access))]
pub(crate) fn access(text: &[u8]) -> Result<(Register, Register, i64), AsmErrorKind>
    ensures { result ≡ access text.now }
{
    let (first, place) = two_operands(text)?;
    let (offset, base) = parts(place)?;
    let first = register(first)?;
    let base = register(base)?;
    let offset = number(offset)?;
    Ok((first, base, offset))
}
