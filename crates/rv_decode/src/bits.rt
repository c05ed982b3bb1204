//! The fields of a word.

ghost use Rattle.std.specs.Prelude.{◌≡◌, ◌<◌};
ghost use Rattle.rv_decode.specs.Fields.{bits_of, opcode_of, f3_of};

/// The `count` bits of `word` from bit `low` on.
#[inline]
pub(crate) fn field(word: u32, low: u32, count: u32) -> u32
    requires low_in_word { low < 32 }
    requires count_in_word { count < 32 }
    ensures { result ≡ bits_of word low count }
{
    (word >> low) & ((1 << count) - 1)
}

/// Bits 6 to 0.
#[inline]
pub(crate) fn opcode(word: u32) -> u32
    ensures { result ≡ opcode_of word }
{
    field(word, 0, 7)
}

/// Bits 14 to 12.
#[inline]
pub(crate) fn f3(word: u32) -> u32
    ensures { result ≡ f3_of word }
{
    field(word, 12, 3)
}
