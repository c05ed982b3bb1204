//! The words of a line.

ghost use Rattle.std.specs.Prelude.{◌≡◌, IfOk, map};
ghost use Rattle.pump_line.specs.Told.{texts_of};
ghost use Rattle.pump_web.specs.Lines.{words_in};

use std::alloc::{AllocError, Global};

/// What stands between the blanks of a line.
fn pieces_of(alloc: Global, line: &str) -> Result<Vec<&str>, AllocError>
    ensures { IfOk result (λ pieces. map (λ piece. piece.now) pieces.items ≡ words_in line.now) }
{
    line.split(' ').collect(alloc)
}

/// Copies of these texts.
fn copies_of(alloc: Global, pieces: &[&str]) -> Result<Vec<String>, AllocError>
    ensures { IfOk result (λ words.
        texts_of words.items ≡ map (λ piece. piece.now) pieces.now) }
{
    let mut words = Vec::new(alloc);
    for piece in pieces {
        words.push(String::from_str(alloc, *piece)?)?;
    }
    Ok(words)
}

/// The words of a line: it is cut at each blank, and at nothing else. So two blanks side by side make an empty word, as do a blank
/// before the first word and one behind the last; the empty line is one empty word. The only error is running out of memory.
pub fn words_of(alloc: Global, line: &str) -> Result<Vec<String>, AllocError>
    ensures { IfOk result (λ words. texts_of words.items ≡ words_in line.now) }
{
    let pieces = pieces_of(alloc, line)?;
    copies_of(alloc, &pieces)
}
