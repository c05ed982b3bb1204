//! Words as signed numbers in two's complement.

ghost use Rattle.std.specs.Prelude.{◌≡◌, ◌%◌, int_lt};
ghost use Rattle.pump_words.specs.Words.{sign_extended, signed, unsigned, shifted_down};

/// The low 8 bits of `word`, with bit 7 copied into all bits above.
pub fn sign8(word: u32) -> u32
    ensures { result ≡ sign_extended 8 word }
{
    sra(word << 24, 24)
}

/// The low 16 bits of `word`, with bit 15 copied into all bits above.
pub fn sign16(word: u32) -> u32
    ensures { result ≡ sign_extended 16 word }
{
    sra(word << 16, 16)
}

/// The low 12 bits of `word`, with bit 11 copied into all bits above.
pub fn sign12(word: u32) -> u32
    ensures { result ≡ sign_extended 12 word }
{
    sra(word << 20, 20)
}

/// The low 13 bits of `word`, with bit 12 copied into all bits above.
pub fn sign13(word: u32) -> u32
    ensures { result ≡ sign_extended 13 word }
{
    sra(word << 19, 19)
}

/// The low 21 bits of `word`, with bit 20 copied into all bits above.
pub fn sign21(word: u32) -> u32
    ensures { result ≡ sign_extended 21 word }
{
    sra(word << 11, 11)
}

/// `word` as a signed number over 2 ^ `count`, rounded down, where `count` counts modulo 32: the
/// arithmetic shift right of RISC-V.
pub fn sra(word: u32, count: u32) -> u32
    ensures { result ≡ unsigned (shifted_down (signed word) (count % 32)) }
{
    (word.cast_signed() >> (count % 32)).cast_unsigned()
}

/// Whether `left` is below `right`, both read as signed numbers.
pub fn lt_signed(left: u32, right: u32) -> bool
    ensures { result ≡ int_lt (signed left) (signed right) }
{
    left.cast_signed() < right.cast_signed()
}
