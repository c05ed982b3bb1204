//! What an operand's text means.

ghost use Rattle.std.specs.Prelude.{◌≡◌};
ghost use Rattle.asm_read.specs.Values.{mask_at, number_at, register_at, target_at};

use crate::errors::AsmErrorKind;
use crate::names::Name;
use crate::statements::Target;
use asm_table::register_of;
use rv_decode::Register;

/// The register of this name.
pub(crate) fn register(text: &[u8]) -> Result<Register, AsmErrorKind>
    ensures { result ≡ register_at text.now }
{
    register_of(text).ok_or(AsmErrorKind::Register)
}

/// The number that the text writes.
pub(crate) fn number(text: &[u8]) -> Result<i64, AsmErrorKind>
    ensures { result ≡ number_at text.now }
{
    asm_text::number(text).ok_or(AsmErrorKind::Number)
}

/// The set of compartments that the text writes, as a number with a bit for each; `None` where the text writes a negative number.
#[tactic(auto, unfolding(crate::specs::Values::mask_at))]
pub(crate) fn mask(text: &[u8]) -> Result<Option<u128>, AsmErrorKind>
    ensures { result ≡ mask_at text.now }
{
    if let Some(mask) = asm_text::wide_number(text) {
        return Ok(Some(mask));
    }
    let number = number(text)?;
    Ok(u128::try_from(number).ok())
}

/// The number that the text writes, or the name that it is.
#[tactic(auto, unfolding(crate::specs::Values::target_at))]
pub(crate) fn target<'a>(text: &'a [u8]) -> Result<Target<'a>, AsmErrorKind>
    ensures { result ≡ target_at text.now }
{
    if let Some(number) = asm_text::number(text) {
        return Ok(Target::Number(number));
    }
    if asm_text::is_name(text) {
        Ok(Target::Name(Name::new(text)))
    } else {
        Err(AsmErrorKind::Operand)
    }
}
