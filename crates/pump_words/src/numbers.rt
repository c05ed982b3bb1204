//! Numbers as the program reads them.

ghost use Rattle.std.specs.Prelude.{SomeIff};
ghost use Rattle.std.specs.Str.Parse.{digits_value};
ghost use Rattle.pump_words.specs.Numbers.{IsNumber};

/// The number that 1 to 10 decimal digits write; `None` for any other text.
///
/// Zeros may lead. A sign, a blank or an eleventh digit is refused.
#[tactic(auto, using(crate::proofs::NumberLemmas::digits_read))]
pub fn read_number(text: &[u8]) -> Option<u64>
    ensures { SomeIff result (IsNumber text.now) (digits_value 10 text.now) }
{
    if text.is_empty() || text.len() > 10 {
        return None;
    }
    let mut number = 0;
    for byte in text {
        let digit = char::from(*byte).to_digit(10)?;
        number = number * 10 + u64::from(digit);
    }
    Some(number)
}
