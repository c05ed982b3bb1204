//! What the words of operands write, and the ranges that they lie in.

ghost use Rattle.std.specs.Prelude.{◌≡◌, ◌≤◌, length};
ghost use Rattle.shell_lang.specs.Operands.{address_in, word_address, bytes_in, digits_in, number_in, within};

use crate::bad_command::BadCommand;
use crate::values::{Bytes, Digits};
use arrayvec::ArrayVec;
use pump_words::read_number;

/// The number that 1 to 10 decimal digits write.
pub(crate) fn number(text: &[u8]) -> Result<u64, BadCommand>
    ensures { result ≡ number_in text.now }
{
    read_number(text).ok_or(BadCommand::Malformed)
}

/// The address that 1 to 8 hexadecimal digits write.
#[tactic(auto, using(crate::proofs::NumberLemmas::digits_read))]
pub(crate) fn address(text: &[u8]) -> Result<u32, BadCommand>
    ensures { result ≡ address_in text.now }
{
    if text.is_empty() || text.len() > 8 {
        return Err(BadCommand::Malformed);
    }
    let mut address = 0;
    for byte in text {
        let digit = char::from(*byte).to_digit(16).ok_or(BadCommand::Malformed)?;
        address = address * 16 + digit;
    }
    Ok(address)
}

/// The values of decimal digits.
#[tactic(auto, using(crate::proofs::NumberLemmas::digits_read))]
pub(crate) fn digits(text: &[u8]) -> Result<Digits, BadCommand>
    requires { length text.now ≤ 256 }
    ensures { result ≡ digits_in text.now }
{
    let mut values = ArrayVec::new();
    for byte in text {
        let digit = char::from(*byte).to_digit(10).ok_or(BadCommand::Malformed)?;
        values.push(digit as u8);
    }
    Ok(Digits::new(values))
}

/// The bytes that hexadecimal digits write, two digits a byte.
pub(crate) fn bytes(text: &[u8]) -> Result<Bytes, BadCommand>
    requires { length text.now ≤ 256 }
    ensures { result ≡ bytes_in text.now }
{
    let mut values = ArrayVec::from([0; 128]);
    values.truncate(text.len() / 2);
    match hex::decode_to_slice(text, values.as_mut_slice()) {
        Ok(()) => Ok(Bytes::new(values)),
        Err(_) => Err(BadCommand::OddHexadecimal),
    }
}

/// The number, where it lies from `least` to `most`.
pub(crate) fn within(number: u64, least: u32, most: u32) -> Result<u32, BadCommand>
    ensures { result ≡ within least most number }
{
    if number < u64::from(least) || number > u64::from(most) {
        return Err(BadCommand::OutOfRange);
    }
    Ok(number as u32)
}

/// The address, where it is a multiple of 4.
pub(crate) fn aligned(address: u32) -> Result<u32, BadCommand>
    ensures { result ≡ word_address address }
{
    if address % 4 != 0 {
        return Err(BadCommand::OutOfRange);
    }
    Ok(address)
}
