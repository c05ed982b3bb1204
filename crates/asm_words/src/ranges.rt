//! Numbers of the source as fields of instructions, each within its range.

ghost use Rattle.std.specs.Prelude.{◌≡◌};
ghost use Rattle.asm_words.specs.Ranges.{amount_at, branch_offset, immediate_at, jump_offset, upper_at, within, word_modulo};

use asm_read::AsmErrorKind;
use rv_decode::{BranchOffset, Immediate, JumpOffset, ShiftAmount, UpperImmediate};

/// One more than the greatest word.
const WORDS: i64 = 0x1_0000_0000;

/// The word that is the number modulo 2^32.
pub(crate) fn wrapped(number: i64) -> u32
    ensures { result ≡ word_modulo number }
{
    number.rem_euclid(WORDS).unsigned_abs() as u32
}

/// The word of a number that lies from `least` to `most`.
#[tactic(auto, unfolding(crate::specs::Ranges::within))]
fn within(least: i64, most: i64, number: i64) -> Result<u32, AsmErrorKind>
    ensures { result ≡ within least most number }
{
    if least <= number && number <= most {
        Ok(wrapped(number))
    } else {
        Err(AsmErrorKind::Range)
    }
}

/// An immediate of 12 bits: -2048 to 2047, as it is written.
pub(crate) fn immediate_at(number: i64) -> Result<Immediate, AsmErrorKind>
    ensures { result ≡ immediate_at number }
{
    let word = within(-2048, 2047, number)?;
    Ok(Immediate::of_bits(word))
}

/// The amount of a shift: 0 to 31.
#[tactic(auto, using(crate::proofs::RangeLemmas::amount_kept))]
pub(crate) fn amount_at(number: i64) -> Result<ShiftAmount, AsmErrorKind>
    ensures { result ≡ amount_at number }
{
    let count = within(0, 31, number)?;
    ShiftAmount::new(count).ok_or(AsmErrorKind::Range)
}

/// The upper 20 bits of a word: 0 to 1048575.
#[tactic(auto, using(crate::proofs::RangeLemmas::upper_kept))]
pub(crate) fn upper_at(number: i64) -> Result<UpperImmediate, AsmErrorKind>
    ensures { result ≡ upper_at number }
{
    let bits = within(0, 0xF_FFFF, number)?;
    Ok(UpperImmediate::of_bits(bits))
}

/// The offset of a branch at `place`: even, from -4096 to 4094.
#[tactic(auto, using(crate::proofs::RangeLemmas::branch_kept))]
pub(crate) fn branch_offset(place: u32, target: u32) -> Result<BranchOffset, AsmErrorKind>
    ensures { result ≡ branch_offset place target }
{
    BranchOffset::new(target.wrapping_sub(place)).ok_or(AsmErrorKind::Range)
}

/// The offset of a jump at `place`: even, from -1048576 to 1048574.
#[tactic(auto, using(crate::proofs::RangeLemmas::jump_kept))]
pub(crate) fn jump_offset(place: u32, target: u32) -> Result<JumpOffset, AsmErrorKind>
    ensures { result ≡ jump_offset place target }
{
    JumpOffset::new(target.wrapping_sub(place)).ok_or(AsmErrorKind::Range)
}
