//! The numbers of the source.

ghost use Rattle.std.specs.Prelude.{◌≡◌, ◌≤◌, IfSome};
ghost use Rattle.asm_text.specs.Numbers.{number_of, numeral, unsigned_of, wide_number_of};

/// The number that digits in the radix write, of either case where they are letters, and zeros may lead. `None` where the text
/// is empty or has another byte, and where the number is more than `most`.
#[tactic(auto, using(crate::proofs::NumberLemmas::read), unfolding(crate::specs::Numbers::numeral))]
fn numeral(text: &[u8], radix: u32, most: u128) -> Option<u128>
    requires least_radix { 2 ≤ radix }
    requires most_radix { radix ≤ 36 }
    ensures value { result ≡ numeral radix most text.now }
    ensures within { IfSome result (λ number. number ≤ most) }
{
    let mut number: u128 = 0;
    for byte in text {
        let digit = char::from(*byte).to_digit(radix)?;
        let shifted = number.checked_mul(u128::from(radix))?;
        number = shifted.checked_add(u128::from(digit))?;
    }
    if text.is_empty() || number > most {
        return None;
    }
    Some(number)
}

/// The number that digits write, or `0x` and hexadecimal digits, up to `most`.
#[tactic(auto, unfolding(crate::specs::Numbers::unsigned_of))]
fn unsigned(text: &[u8], most: u128) -> Option<u128>
    ensures value { result ≡ unsigned_of most text.now }
    ensures within { IfSome result (λ number. number ≤ most) }
{
    if let [b'0', b'x', digits @ ..] = text {
        return numeral(digits, 16, most);
    }
    numeral(text, 10, most)
}

/// The number that a text writes: `-` or nothing and decimal digits, or `0x` and hexadecimal digits of either case, from -2^31
/// to 2^32 - 1; `None` for any other text. Zeros may lead, and there are no blanks.
#[tactic(auto, unfolding(crate::specs::Numbers::number_of))]
pub fn number(text: &[u8]) -> Option<i64>
    ensures { result ≡ number_of text.now }
{
    if let [b'-', digits @ ..] = text {
        let size = numeral(digits, 10, 1 << 31)?;
        return Some(-(size as i64));
    }
    let number = unsigned(text, u128::from(u32::MAX))?;
    Some(number as i64)
}

/// The number from 0 to 2^128 - 1 that a text writes: decimal digits, or `0x` and hexadecimal digits of either case; `None` for
/// any other text. Zeros may lead, and there are no blanks.
#[tactic(auto, unfolding(crate::specs::Numbers::wide_number_of))]
pub fn wide_number(text: &[u8]) -> Option<u128>
    ensures { result ≡ wide_number_of text.now }
{
    unsigned(text, u128::MAX)
}
