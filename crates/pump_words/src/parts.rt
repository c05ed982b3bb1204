//! The bytes and halves of a word, counted from the low end.

ghost use Rattle.std.specs.Prelude.{◌≡◌};
ghost use Rattle.pump_words.specs.Words.{byte_at, half_at, with_byte_at, with_half_at};

/// Byte `index` of `word`, where `index` counts modulo 4.
pub fn byte_of(word: u32, index: u32) -> u32
    ensures { result ≡ byte_at word index }
{
    (word >> (8 * (index % 4))) & 0xFF
}

/// Half `index` of `word`, where `index` counts modulo 2.
pub fn half_of(word: u32, index: u32) -> u32
    ensures { result ≡ half_at word index }
{
    (word >> (16 * (index % 2))) & 0xFFFF
}

/// `word` with byte `index` replaced by the low byte of `byte`, where `index` counts modulo 4.
pub fn with_byte(word: u32, index: u32, byte: u32) -> u32
    ensures { result ≡ with_byte_at word index byte }
{
    let place = 8 * (index % 4);
    (word & !(0xFF << place)) | ((byte & 0xFF) << place)
}

/// `word` with half `index` replaced by the low half of `half`, where `index` counts modulo 2.
pub fn with_half(word: u32, index: u32, half: u32) -> u32
    ensures { result ≡ with_half_at word index half }
{
    let place = 16 * (index % 2);
    (word & !(0xFFFF << place)) | ((half & 0xFFFF) << place)
}
