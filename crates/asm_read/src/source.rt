//! A source: its lines one after another, up to its first error.

ghost use Rattle.std.specs.Prelude.{◌≡◌, ◌<◌, ◌∷◌, ◌++◌, length, OnOk};
ghost use Rattle.std.specs.Str.Lines.{lines, strip_carriage_return};
ghost use Rattle.asm_read.specs.Lines.{line_of};
ghost use Rattle.asm_read.specs.Source.{Gives, at_line, is_said, line_if_said, source_of};

use crate::errors::{AsmEnd, AsmError};
use crate::lines::line_of;
use crate::statements::Line;
use asm_text::cut;
use std::alloc::{AllocError, Global};

/// The text without a carriage return at its end.
fn without_return(text: &[u8]) -> &[u8]
    ensures { result.now ≡ strip_carriage_return text.now }
{
    match text {
        [prefix @ .., b'\r'] => prefix,
        _ => text,
    }
}

/// The first line, without what ends it, and what stands behind it.
fn next_line(text: &[u8]) -> (&[u8], &[u8])
    requires { 0 < length text.now }
    ensures lines { lines text.now ≡ result.0.now ∷ lines result.1.now }
    ensures shorter { length result.1.now < length text.now }
{
    let (line, rest) = cut(text, b'\n');
    match rest {
        Some(rest) => (without_return(line), rest),
        None => (line, &[]),
    }
}

/// What a line says, or its error with its number.
fn numbered_line<'a>(number: u64, text: &'a [u8]) -> Result<Line<'a>, AsmError>
    ensures { result ≡ at_line number (line_of number text.now) }
{
    line_of(number, text).map_err(|kind| AsmError { line: number, kind })
}

/// Whether the line has a name or a statement.
fn is_said(line: &Line<'_>) -> bool
    ensures { result ≡ is_said line.now }
{
    line.label.is_some() || line.statement.is_some()
}

/// Appends the line, where it says something.
fn keep<'a>(read: &mut Vec<Line<'a>>, line: Line<'a>) -> Result<(), AllocError>
    ensures { OnOk result (read.new.items ≡ read.old.items ++ line_if_said line.entry) }
{
    if is_said(&line) {
        read.push(line)?;
    }
    Ok(())
}

/// The lines of the source that say something, in their order, or its first error: that of the first line that has one. Names
/// are borrowed from the source. `Memory` says nothing of the source. The time is linear in the source.
pub fn read_source<'a>(alloc: Global, source: &'a [u8]) -> Result<Vec<Line<'a>>, AsmEnd>
    ensures { Gives (λ lines. lines.items) result (source_of source.now) }
{
    let mut read = Vec::new(alloc);
    let mut rest = source;
    let mut number = 1;
    while !rest.is_empty() {
        let (text, behind) = next_line(rest);
        let line = numbered_line(number, text)?;
        keep(&mut read, line)?;
        rest = behind;
        number += 1;
    }
    Ok(read)
}
