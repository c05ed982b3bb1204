//! What a statement emits.

ghost use Rattle.std.specs.Prelude.{◌≡◌};
ghost use Rattle.asm_words.specs.Emission.{one, two};
ghost use Rattle.asm_words.specs.EmissionLaws.{Fits};
ghost use Rattle.asm_words.specs.Encoding.{word_of_instr};

use rv_decode::{Instr, encode};

/// The words that a statement emits, one behind the other from its place on.
#[derive(Clone, Copy, Debug, PartialEq, Eq)]
pub enum Emission {
    /// None.
    Nothing,
    /// One word.
    One(u32),
    /// Two words, in the order of their addresses.
    Two(u32, u32),
    /// So many words of 0.
    Zeros(u64),
}

/// The word of an instruction.
fn word_of(instr: Instr) -> u32
    ensures { result ≡ word_of_instr instr }
{
    encode(&instr)
}

/// The word of an instruction alone.
pub(crate) fn one(instr: Instr) -> Emission
    ensures value { result ≡ one instr }
    ensures fits { Fits result }
{
    Emission::One(word_of(instr))
}

/// The words of two instructions, one behind the other.
pub(crate) fn two(first: Instr, second: Instr) -> Emission
    ensures value { result ≡ two first second }
    ensures fits { Fits result }
{
    Emission::Two(word_of(first), word_of(second))
}
