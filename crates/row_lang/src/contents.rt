//! What stands behind a key: numbers, words, files and their contents.

use crate::entries::{Entry, Line};
use crate::errors::{RowsEnd, Wrong};
use crate::rows::{Content, File};
use crate::texts::{append_text, text_of};
use std::alloc::Global;

/// A program that rows name: a source for the assembler.
#[derive(Drop)]
pub(crate) struct Program<'a> {
    pub(crate) name: &'a str,
    pub(crate) source: Vec<u8>,
}

/// A refusal where an entry that stands on one line has a block.
pub(crate) fn one_line(entry: &Entry<'_>) -> Result<(), RowsEnd> {
    if entry.block.is_empty() {
        Ok(())
    } else {
        Err(entry.refused(Wrong::Block))
    }
}

/// The number that a text of an entry writes.
fn number_in(entry: &Entry<'_>, text: &str) -> Result<u64, RowsEnd> {
    match text.parse::<u64>() {
        Ok(number) => Ok(number),
        Err(_) => Err(entry.refused(Wrong::Number)),
    }
}

/// A number on its key's line.
pub(crate) fn number_of(entry: &Entry<'_>) -> Result<u64, RowsEnd> {
    one_line(entry)?;
    number_in(entry, entry.value)
}

/// Numbers on their key's line, one at least.
pub(crate) fn numbers_of(alloc: Global, entry: &Entry<'_>) -> Result<Vec<u64>, RowsEnd> {
    one_line(entry)?;
    let mut numbers = Vec::new(alloc);
    for word in entry.value.split_whitespace() {
        numbers.push(number_in(entry, word)?)?;
    }
    if numbers.is_empty() {
        return Err(entry.refused(Wrong::Number));
    }
    Ok(numbers)
}

/// The word that a line writes so. `""` is the empty one, and escapes are those of a text.
fn word_of(alloc: Global, line: Line<'_>) -> Result<String, RowsEnd> {
    let mut bytes = Vec::new(alloc);
    if line.text != "\"\"" {
        append_text(&mut bytes, line)?;
    }
    match String::from_utf8(bytes) {
        Ok(word) => Ok(word),
        Err(_) => Err(line.refused(Wrong::Word)),
    }
}

/// The words of a line.
fn words_of(alloc: Global, line: Line<'_>) -> Result<Vec<String>, RowsEnd> {
    let mut words = Vec::new(alloc);
    let number = line.number;
    for text in line.text.split_whitespace() {
        words.push(word_of(alloc, Line { number, text })?)?;
    }
    Ok(words)
}

/// Puts the words of a line behind those of other command lines.
fn add_call(
    alloc: Global,
    calls: &mut Vec<Vec<String>>,
    number: u64,
    text: &str,
) -> Result<(), RowsEnd> {
    calls.push(words_of(alloc, Line { number, text })?)?;
    Ok(())
}

/// The command lines of an entry: that on its key's line, or those of its block.
pub(crate) fn calls_of(alloc: Global, entry: &Entry<'_>) -> Result<Vec<Vec<String>>, RowsEnd> {
    let mut calls = Vec::new(alloc);
    if entry.block.is_empty() {
        add_call(alloc, &mut calls, entry.number, entry.value)?;
    } else if !entry.value.is_empty() {
        return Err(entry.refused(Wrong::Block));
    }
    for line in &entry.block {
        add_call(alloc, &mut calls, line.number, line.text)?;
    }
    Ok(calls)
}

/// Puts the bytes of a line of hexadecimal digits, up to a `#`, behind those that are there. Blanks may stand between digits.
fn append_hex(alloc: Global, bytes: &mut Vec<u8>, line: Line<'_>) -> Result<(), RowsEnd> {
    let (text, _) = line.text.split_once('#').unwrap_or((line.text, ""));
    let mut digits = Vec::new(alloc);
    for byte in text.bytes() {
        if byte != b' ' {
            digits.push(byte)?;
        }
    }
    match hex::decode(alloc, digits.as_slice()) {
        Ok(read) => Ok(bytes.extend_from_slice(&read)?),
        Err(hex::FromHexError::OutOfMemory) => Err(RowsEnd::Memory),
        Err(_) => Err(line.refused(Wrong::Hex)),
    }
}

/// The bytes of hexadecimal digits on their key's line or in its block.
fn hex_of(alloc: Global, entry: &Entry<'_>, value: &str) -> Result<Vec<u8>, RowsEnd> {
    let mut bytes = Vec::new(alloc);
    let number = entry.number;
    append_hex(
        alloc,
        &mut bytes,
        Line {
            number,
            text: value,
        },
    )?;
    for line in &entry.block {
        append_hex(alloc, &mut bytes, *line)?;
    }
    Ok(bytes)
}

/// The source of an entry's block. A backslash in it is one.
pub(crate) fn source_of(alloc: Global, entry: &Entry<'_>) -> Result<Vec<u8>, RowsEnd> {
    let mut bytes = Vec::new(alloc);
    for line in &entry.block {
        bytes.extend_from_slice(line.text.as_bytes())?;
        bytes.push(b'\n')?;
    }
    Ok(bytes)
}

/// The source of the program of that name.
fn source_named(
    alloc: Global,
    programs: &[Program<'_>],
    name: &str,
) -> Result<Option<Vec<u8>>, RowsEnd> {
    for program in programs {
        if program.name == name {
            return Ok(Some(program.source.to_vec(alloc)?));
        }
    }
    Ok(None)
}

/// The content that a kind and its text tell, `None` for no file.
fn content_of(
    alloc: Global,
    programs: &[Program<'_>],
    entry: &Entry<'_>,
    kind: &str,
    value: &str,
) -> Result<Option<Content>, RowsEnd> {
    match kind {
        "text" => Ok(Some(Content::Bytes(text_of(alloc, entry, value)?))),
        "hex" => Ok(Some(Content::Bytes(hex_of(alloc, entry, value)?))),
        "source" if value.is_empty() => Ok(Some(Content::Source(source_of(alloc, entry)?))),
        "program" => {
            one_line(entry)?;
            let source = source_named(alloc, programs, value)?;
            let source = source.ok_or(entry.refused(Wrong::Program))?;
            Ok(Some(Content::Source(source)))
        }
        "beside" => {
            one_line(entry)?;
            Ok(Some(Content::Beside(String::from_str(alloc, value)?)))
        }
        "nothing" if value.is_empty() => {
            one_line(entry)?;
            Ok(None)
        }
        _ => Err(entry.refused(Wrong::Kind)),
    }
}

/// The file that an entry tells: its name, the kind of its content, and the content.
pub(crate) fn file_of(
    alloc: Global,
    programs: &[Program<'_>],
    entry: &Entry<'_>,
) -> Result<File, RowsEnd> {
    let Some((name, told)) = entry.value.split_once(' ') else {
        return Err(entry.refused(Wrong::Name));
    };
    let (kind, value) = told.split_once(' ').unwrap_or((told, ""));
    Ok(File {
        line: entry.number,
        name: String::from_str(alloc, name)?,
        content: content_of(alloc, programs, entry, kind, value)?,
    })
}
