//! Words as what `lui` and `addi` write.

ghost use Rattle.std.specs.Prelude.{◌≡◌, ◌*◌, ◌^◌, Some, None, if◌then◌else◌};
ghost use Rattle.asm_words.specs.Emission.{both_parts, load_number, load_word, word_load_count};
ghost use Rattle.asm_words.specs.EmissionLaws.{Fits};
ghost use Rattle.asm_words.specs.Ranges.{high_part, is_short, low_part};

use crate::emissions::{Emission, one, two};
use crate::ranges::wrapped;
use rv_decode::{Immediate, Instr, Register, UpperImmediate};

/// The immediate that can be sign-extended to the word, if there is one.
#[tactic(auto, using(crate::proofs::RangeLemmas::short_kept))]
fn short(word: u32) -> Option<Immediate>
    ensures { result ≡ if is_short word then Some word else None }
{
    Immediate::new(word)
}

/// The upper 20 bits, which a negative lower part brings back to those of the word.
fn high_part(word: u32) -> UpperImmediate
    ensures { result ≡ high_part word * 2 ^ 12 }
{
    UpperImmediate::below(word)
}

/// What the upper part leaves.
#[tactic(auto, using(crate::proofs::RangeLemmas::low_kept))]
fn low_part(word: u32) -> Immediate
    ensures { result ≡ low_part word }
{
    Immediate::of_bits(word)
}

/// Both instructions, also where the lower part is 0.
pub(crate) fn both_parts(rd: Register, word: u32) -> Emission
    ensures value { result ≡ both_parts rd word }
    ensures fits { Fits result }
{
    let imm = high_part(word);
    let upper = Instr::Lui { rd, imm };
    let imm = low_part(word);
    two(upper, Instr::Addi { rd, rs1: rd, imm })
}

/// One instruction where one writes the word, else both.
fn load_word(rd: Register, word: u32) -> Emission
    ensures value { result ≡ load_word rd word }
    ensures fits { Fits result }
{
    if let Some(imm) = short(word) {
        let rs1 = Register::ZERO;
        return one(Instr::Addi { rd, rs1, imm });
    }
    if low_part(word).word() == 0 {
        let imm = high_part(word);
        return one(Instr::Lui { rd, imm });
    }
    both_parts(rd, word)
}

/// The instructions of `li`.
#[tactic(auto, unfolding(crate::specs::Emission::load_number))]
pub(crate) fn load_number(rd: Register, number: i64) -> Emission
    ensures value { result ≡ load_number rd number }
    ensures fits { Fits result }
{
    load_word(rd, wrapped(number))
}

/// How many instructions write the word.
pub(crate) fn word_load_count(word: u32) -> u64
    ensures { result ≡ word_load_count word }
{
    if short(word).is_some() || low_part(word).word() == 0 {
        1
    } else {
        2
    }
}
