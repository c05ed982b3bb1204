//! The entries of a text: a key with its text, and the block below it.

use crate::errors::{RowsEnd, Wrong};
use std::alloc::Global;

/// A line with its number, counted from 1.
#[derive(Clone, Copy)]
pub(crate) struct Line<'a> {
    pub(crate) number: u64,
    pub(crate) text: &'a str,
}

/// A key, the text on its line, and the lines of its block without their margins.
#[derive(Drop)]
pub(crate) struct Entry<'a> {
    pub(crate) number: u64,
    pub(crate) key: &'a str,
    pub(crate) value: &'a str,
    pub(crate) block: Vec<Line<'a>>,
}

/// What a line of a block begins with.
const MARGIN: &str = "    ";

impl Line<'_> {
    /// The refusal of this line.
    pub(crate) fn refused(&self, wrong: Wrong) -> RowsEnd {
        RowsEnd::Bad {
            line: self.number,
            wrong,
        }
    }
}

impl Entry<'_> {
    /// The refusal of the line of the key.
    pub(crate) fn refused(&self, wrong: Wrong) -> RowsEnd {
        RowsEnd::Bad {
            line: self.number,
            wrong,
        }
    }
}

/// The entry that a line begins.
fn entry_of<'a>(alloc: Global, line: Line<'a>) -> Result<Entry<'a>, RowsEnd> {
    let (key, value) = line.text.split_once(' ').unwrap_or((line.text, ""));
    if value.starts_with(' ') {
        return Err(line.refused(Wrong::Blank));
    }
    Ok(Entry {
        number: line.number,
        key,
        value,
        block: Vec::new(alloc),
    })
}

/// Refuses a line with a byte that ASCII doesn't print, and one that ends in a blank.
fn printed(line: Line<'_>) -> Result<(), RowsEnd> {
    if !line.text.bytes().all(|byte| (b' '..=b'~').contains(&byte)) {
        return Err(line.refused(Wrong::Byte));
    }
    if line.text.ends_with(' ') {
        return Err(line.refused(Wrong::Blank));
    }
    Ok(())
}

/// Puts a line behind the block of the last entry.
fn add_line<'a>(entries: &mut Vec<Entry<'a>>, line: Line<'a>) -> Result<(), RowsEnd> {
    let Some(entry) = entries.last_mut() else {
        return Err(line.refused(Wrong::Stray));
    };
    entry.block.push(line)?;
    Ok(())
}

/// Puts an entry that a line begins behind the others.
fn add_entry<'a>(
    alloc: Global,
    entries: &mut Vec<Entry<'a>>,
    line: Line<'a>,
) -> Result<(), RowsEnd> {
    if line.text.starts_with(' ') {
        return Err(line.refused(Wrong::Margin));
    }
    entries.push(entry_of(alloc, line)?)?;
    Ok(())
}

/// Puts a line behind the entries: it begins one, or is the next of the last one's block. An empty line and one that begins with
/// `#` are neither.
fn take_line<'a>(
    alloc: Global,
    entries: &mut Vec<Entry<'a>>,
    line: Line<'a>,
) -> Result<(), RowsEnd> {
    if line.text.is_empty() || line.text.starts_with('#') {
        return Ok(());
    }
    printed(line)?;
    match line.text.strip_prefix(MARGIN) {
        Some(text) => add_line(entries, Line { text, ..line }),
        None => add_entry(alloc, entries, line),
    }
}

/// The entries of a text, in their order.
pub(crate) fn entries_of<'a>(alloc: Global, text: &'a str) -> Result<Vec<Entry<'a>>, RowsEnd> {
    let mut entries = Vec::new(alloc);
    let mut number = 0u64;
    for text in text.lines() {
        number = number.saturating_add(1);
        take_line(alloc, &mut entries, Line { number, text })?;
    }
    Ok(entries)
}
