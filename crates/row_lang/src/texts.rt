//! Texts as a row has them: with escapes for the bytes that ASCII doesn't print.

ghost use Rattle.std.specs.Prelude.{◌<◌, ◌≤◌, IfSome};

use crate::entries::{Entry, Line};
use crate::errors::{RowsEnd, Wrong};
use std::alloc::{AllocError, Global};

/// So many times a byte.
#[derive(Clone, Copy)]
struct Times {
    count: u32,
    byte: u8,
}

/// No byte.
const NOTHING: Times = Times { count: 0, byte: 0 };

/// The most bytes that one escape stands for.
const MOST: u32 = 67_108_864;

/// Where a text is: between characters, or within an escape.
#[derive(Clone, Copy)]
enum Place {
    Plain,
    Escape,
    High,
    Low(u8),
    Count(u32),
    TimesHigh(u32),
    TimesLow(u32, u8),
    Close(u32, u8),
}

fn once(byte: u8) -> Times {
    Times { count: 1, byte }
}

/// The value of a hexadecimal digit.
fn digit_of(byte: u8) -> Option<u8>
    ensures { IfSome result (λ digit. digit < 16) }
{
    match byte {
        b'0'..=b'9' => Some(byte - b'0'),
        b'A'..=b'F' => Some(byte - b'A' + 10),
        b'a'..=b'f' => Some(byte - b'a' + 10),
        _ => None,
    }
}

/// The byte of two hexadecimal digits, of which the second is a character.
fn byte_of(high: u8, low: u8) -> Option<u8> {
    let low = digit_of(low)?;
    Some((high & 15) << 4 | low)
}

/// The count with one decimal digit more.
fn count_of(count: u32, byte: u8) -> Option<u32>
    ensures { IfSome result (λ count. count ≤ MOST) }
{
    let digit = u32::from(byte).checked_sub(u32::from(b'0'))?;
    let count = count.checked_mul(10)?.checked_add(digit)?;
    if digit > 9 || count > MOST {
        return None;
    }
    Some(count)
}

/// What a character behind a backslash begins or is.
fn escape_of(byte: u8) -> Option<(Place, Times)> {
    match byte {
        b'n' => Some((Place::Plain, once(b'\n'))),
        b't' => Some((Place::Plain, once(b'\t'))),
        b'\\' => Some((Place::Plain, once(b'\\'))),
        b'x' => Some((Place::High, NOTHING)),
        b'{' => Some((Place::Count(0), NOTHING)),
        _ => None,
    }
}

/// Where a text is behind a character that no escape was before, and the bytes that are known.
fn plain_step(byte: u8) -> (Place, Times) {
    if byte == b'\\' {
        (Place::Escape, NOTHING)
    } else {
        (Place::Plain, once(byte))
    }
}

/// Where a text is behind a character of a count.
fn count_step(count: u32, byte: u8) -> Option<Place> {
    if byte == b'*' {
        return Some(Place::TimesHigh(count));
    }
    Some(Place::Count(count_of(count, byte)?))
}

/// Where a text is behind a character within an escape that doesn't end there.
fn inner_step(place: Place, byte: u8) -> Option<Place> {
    match place {
        Place::High => Some(Place::Low(digit_of(byte)?)),
        Place::Count(count) => count_step(count, byte),
        Place::TimesHigh(count) => Some(Place::TimesLow(count, digit_of(byte)?)),
        Place::TimesLow(count, high) => Some(Place::Close(count, byte_of(high, byte)?)),
        _ => None,
    }
}

/// The bytes of an escape that ends with a character.
fn last_step(place: Place, byte: u8) -> Option<Times> {
    match place {
        Place::Low(high) => Some(once(byte_of(high, byte)?)),
        Place::Close(count, times) if byte == b'}' => Some(Times { count, byte: times }),
        _ => None,
    }
}

/// Where a text is behind a character, and the bytes that are then known.
fn step_of(place: Place, byte: u8) -> Option<(Place, Times)> {
    match place {
        Place::Plain => Some(plain_step(byte)),
        Place::Escape => escape_of(byte),
        Place::Low(_) | Place::Close(..) => Some((Place::Plain, last_step(place, byte)?)),
        _ => Some((inner_step(place, byte)?, NOTHING)),
    }
}

/// Puts the bytes of a line of text behind those that are there.
pub(crate) fn append_text(bytes: &mut Vec<u8>, line: Line<'_>) -> Result<(), RowsEnd> {
    let mut place = Place::Plain;
    for byte in line.text.bytes() {
        let Some((next, times)) = step_of(place, byte) else {
            return Err(line.refused(Wrong::Escape));
        };
        bytes.resize(bytes.len().saturating_add(times.count as usize), times.byte)?;
        place = next;
    }
    match place {
        Place::Plain => Ok(()),
        _ => Err(line.refused(Wrong::Escape)),
    }
}

/// The same, with a newline behind.
pub(crate) fn append_line(bytes: &mut Vec<u8>, line: Line<'_>) -> Result<(), RowsEnd> {
    append_text(bytes, line)?;
    bytes.push(b'\n')?;
    Ok(())
}

/// The bytes of lines of text, each with a newline behind it.
fn block_of(alloc: Global, lines: &[Line<'_>]) -> Result<Vec<u8>, RowsEnd> {
    let mut bytes = Vec::new(alloc);
    for line in lines {
        append_line(&mut bytes, *line)?;
    }
    Ok(bytes)
}

/// The bytes of a text on its key's line, or of the lines of a block, each with a newline behind it.
pub(crate) fn text_of(alloc: Global, entry: &Entry<'_>, value: &str) -> Result<Vec<u8>, RowsEnd> {
    if !entry.block.is_empty() {
        if !value.is_empty() {
            return Err(entry.refused(Wrong::Block));
        }
        return block_of(alloc, &entry.block);
    }
    let mut bytes = Vec::new(alloc);
    let number = entry.number;
    append_text(
        &mut bytes,
        Line {
            number,
            text: value,
        },
    )?;
    Ok(bytes)
}

/// Bytes as a row has them, on one line.
pub fn escaped(alloc: Global, bytes: &[u8]) -> Result<String, AllocError> {
    let mut text = String::new(alloc);
    for byte in bytes {
        match byte {
            b'\\' => text.push_str("\\\\")?,
            b'\n' => text.push_str("\\n")?,
            b' '..=b'~' => text.push(char::from(*byte))?,
            _ => text.push_str(&format!(in alloc; "\\x{byte:02X}")?)?,
        }
    }
    Ok(text)
}
