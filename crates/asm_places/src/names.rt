//! The places that the names of a source stand for.

ghost use Rattle.std.specs.Prelude.{◌≡◌, ℕ, List, IfOk, length, if◌then◌else◌};
ghost use Rattle.std.specs.FinMap as map;
ghost use Rattle.asm_places.specs.Names.{is_emitting, place_of_name};

use crate::counts::line_count;
use crate::layout::Layout;
use crate::seen::give_label;
use asm_read::{Line, Statement};
use asm_words::Names;
use std::alloc::{AllocError, Global};

/// The place of the next word from a line on, by the line's place and the place of the next word behind the line.
fn next_word(statement: &Option<Statement<'_>>, place: u32, behind: u32) -> u32
    ensures { result ≡ (if is_emitting statement.now then place else behind) }
{
    match line_count(statement) {
        Some(words) if words > 0 => place,
        _ => behind,
    }
}

/// The names of the lines, each with the place of the next word that is emitted at its line or behind it, also where an `.org`
/// comes between, or with the place at the end where no word follows. The layout is that of the lines.
///
/// Only running out of memory is an error. The time is O(n log n).
pub fn names_of<'a>(
    alloc: Global,
    lines: &[Line<'a>],
    layout: &Layout,
) -> Result<Names<'a>, AllocError>
    requires { length layout.now.places.items ≡ length lines.now }
    ensures { IfOk result (λ names. (name : List ℕ) → map.get names name ≡
        place_of_name lines.now layout.now.places.items layout.now.end name) }
{
    let mut names = Names::new(alloc);
    let mut next = layout.end;
    let mut left = lines.len();
    while left > 0 {
        left -= 1;
        let line = &lines[left];
        next = next_word(&line.statement, layout.places[left], next);
        give_label(&mut names, &line.label, next)?;
    }
    Ok(names)
}
