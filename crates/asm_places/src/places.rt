//! The places of lines, one behind the other.

ghost use Rattle.std.specs.Prelude.{◌≡◌, ◌≤◌, List, [], Some};
ghost use Rattle.asm_read.specs.declared.statements.Line.{Line};
ghost use Rattle.asm_read.specs.Source.{Gives, at_line};
ghost use Rattle.asm_places.specs.Places.{goes_back, is_reached, next_place, origin_in, place_behind, place_past, places_from};
ghost use Rattle.asm_places.specs.Seen.{IsSeen};
ghost use Rattle.asm_places.specs.Sizes.{natural_where};

use crate::counts::line_count;
use crate::seen::Seen;
use asm_read::{AsmEnd, AsmError, AsmErrorKind, Line, Statement};
use std::alloc::Global;

/// The place that an `.org` asks for.
fn origin_in(statement: &Option<Statement<'_>>) -> Option<i64>
    ensures { result ≡ origin_in statement.now }
{
    match statement {
        Some(Statement::Origin(number)) => Some(*number),
        _ => None,
    }
}

/// Whether an `.org` asks for a place below the one reached.
fn goes_back(place: u32, statement: &Option<Statement<'_>>) -> bool
    ensures { result ≡ goes_back place statement.now }
{
    match origin_in(statement) {
        Some(number) => number < i64::from(place),
        None => false,
    }
}

/// The place of this number, where it is a multiple of 4 and at most the RAM's end.
fn place_at(ram: u32, number: i64) -> Option<u32>
    ensures { result ≡ natural_where (is_reached ram) number }
{
    match u32::try_from(number) {
        Ok(place) if place % 4 == 0 && place <= ram => Some(place),
        _ => None,
    }
}

/// The place behind so many words, where all of them lie in the RAM.
fn place_past(ram: u32, place: u32, words: u64) -> Option<u32>
    requires { place ≤ ram }
    ensures { result ≡ place_past ram place (Some words) }
{
    if words > u64::from((ram - place) / 4) {
        return None;
    }
    Some(place + 4 * words as u32)
}

/// The place behind a statement that begins at a place, or else that it is outside its range.
fn place_behind(
    ram: u32,
    place: u32,
    statement: &Option<Statement<'_>>,
) -> Result<u32, AsmErrorKind>
    requires { place ≤ ram }
    ensures { result ≡ place_behind ram place statement.now }
{
    let behind = match origin_in(statement) {
        Some(number) => place_at(ram, number),
        None => match line_count(statement) {
            Some(words) => place_past(ram, place, words),
            None => None,
        },
    };
    behind.ok_or(AsmErrorKind::Range)
}

/// The place behind a line that begins at a place, or else the first thing that is wrong there.
#[tactic(auto, unfolding(crate::specs::Places::next_place))]
fn next_place<'a>(
    seen: &Seen<'a>,
    ram: u32,
    place: u32,
    line: &Line<'a>,
) -> Result<u32, AsmErrorKind>
    requires { place ≤ ram }
    ensures { (before : List Line) → IsSeen seen.now before →
        result ≡ next_place ram before place line.now }
{
    if seen.has_label(&line.label) {
        return Err(AsmErrorKind::Duplicate);
    }
    if seen.is_again(&line.statement) || goes_back(place, &line.statement) {
        return Err(AsmErrorKind::Order);
    }
    place_behind(ram, place, &line.statement)
}

/// A place, or an error with the number of its line.
fn at_line(number: u64, place: Result<u32, AsmErrorKind>) -> Result<u32, AsmError>
    ensures { result ≡ at_line number place }
{
    place.map_err(|kind| AsmError { line: number, kind })
}

/// The place behind a line, or its error with its number.
fn numbered_place<'a>(
    seen: &Seen<'a>,
    ram: u32,
    place: u32,
    line: &Line<'a>,
) -> Result<u32, AsmError>
    requires { place ≤ ram }
    ensures { (before : List Line) → IsSeen seen.now before →
        result ≡ at_line line.now.number (next_place ram before place line.now) }
{
    at_line(line.number, next_place(seen, ram, place, line))
}

/// The place of each line, and the one behind the last, or the error of the first line that has one.
pub(crate) fn places_of<'a>(
    alloc: Global,
    ram: u32,
    lines: &[Line<'a>],
) -> Result<(Vec<u32>, u32), AsmEnd>
    ensures { Gives (λ placed. (placed.0.items, placed.1)) result
        (places_from ram [] 0 lines.now) }
{
    let mut seen = Seen::new(alloc);
    let mut places = Vec::with_capacity(alloc, lines.len())?;
    let mut place = 0;
    for line in lines {
        let behind = numbered_place(&seen, ram, place, line)?;
        seen.note(line)?;
        places.push(place)?;
        place = behind;
    }
    Ok((places, place))
}
