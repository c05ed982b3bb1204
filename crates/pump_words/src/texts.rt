//! Writers that append text to a line.

ghost use Rattle.std.specs.Prelude.{◌≡◌, ◌+◌, ◌≤◌, ◌++◌, length, min};
ghost use Rattle.std.specs.Fmt.{decimal};
ghost use Rattle.std.specs.Str.Parse.{digits_value};
ghost use Rattle.arrayvec.specs.ArrayVec.{array_vec_len};
ghost use Rattle.pump_words.specs.Texts.{first_digits, hex2_text, hex5_text, hex8_text};

use arrayvec::ArrayVec;

/// A line of text in ASCII, of at most 512 bytes.
pub type Line = ArrayVec<u8, 512>;

const HEX_DIGITS: &[u8; 16] = b"0123456789ABCDEF";

/// Appends a text.
pub fn write_text(line: &mut Line, text: &[u8])
    requires room { array_vec_len line.old + length text.now ≤ 512 }
    ensures text { line.new.items ≡ line.old.items ++ text.now }
    ensures len { array_vec_len line.new ≡ array_vec_len line.old + length text.now }
{
    for byte in text {
        line.push(*byte);
    }
}

/// Appends a byte as two hexadecimal digits in upper case.
pub fn hex2(line: &mut Line, byte: u8)
    requires room { array_vec_len line.old + 2 ≤ 512 }
    ensures text { line.new.items ≡ line.old.items ++ hex2_text byte }
    ensures len { array_vec_len line.new ≡ array_vec_len line.old + 2 }
{
    line.push(HEX_DIGITS[(byte / 16) as usize]);
    line.push(HEX_DIGITS[(byte % 16) as usize]);
}

/// Appends the upper 20 bits of a word as five hexadecimal digits in upper case.
pub fn hex5(line: &mut Line, word: u32)
    requires room { array_vec_len line.old + 5 ≤ 512 }
    ensures text { line.new.items ≡ line.old.items ++ hex5_text word }
    ensures len { array_vec_len line.new ≡ array_vec_len line.old + 5 }
{
    write_digits(line, word, 5);
}

/// Appends a word as eight hexadecimal digits in upper case.
pub fn hex8(line: &mut Line, word: u32)
    requires room { array_vec_len line.old + 8 ≤ 512 }
    ensures text { line.new.items ≡ line.old.items ++ hex8_text word }
    ensures value { digits_value 16 (hex8_text word) ≡ word }
    ensures len { array_vec_len line.new ≡ array_vec_len line.old + 8 }
{
    write_digits(line, word, 8);
}

// The first `count` of a word's eight hexadecimal digits.
#[tactic(auto, using(crate::proofs::TextLemmas::digits_so_far))]
fn write_digits(line: &mut Line, word: u32, count: u32)
    requires room { array_vec_len line.old + count ≤ 512 }
    requires digits { count ≤ 8 }
    ensures text { line.new.items ≡ line.old.items ++ first_digits word count }
    ensures len { array_vec_len line.new ≡ array_vec_len line.old + count }
{
    for k in 0..count {
        line.push(HEX_DIGITS[((word >> (28 - 4 * k)) % 16) as usize]);
    }
}

/// Appends a number in decimal, with no zero in front.
///
/// There must be room for the text; room for 20 bytes is enough for every number.
#[tactic(auto, using(crate::proofs::TextLemmas::decimals))]
pub fn dec(line: &mut Line, number: u64)
    requires room { array_vec_len line.old + min 20 (length (decimal number)) ≤ 512 }
    ensures text { line.new.items ≡ line.old.items ++ decimal number }
    ensures len { array_vec_len line.new ≡ array_vec_len line.old + length (decimal number) }
    ensures short { length (decimal number) ≤ 20 }
{
    if number < 10 {
        line.push(b'0' + number as u8);
    } else {
        dec(line, number / 10);
        line.push(b'0' + (number % 10) as u8);
    }
}
