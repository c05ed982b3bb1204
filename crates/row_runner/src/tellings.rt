//! What is told of rows.

ghost use Rattle.std.specs.Prelude.{◌≡◌, ◌↔◌};

use crate::stops::{Fault, Stop};
use host_io::Sink;
use row_lang::{Outcome, Row, Tally, escaped, first_difference};
use std::alloc::{AllocError, Global};

/// Where a call of a row stands: the name of the file of rows, the row, and the words of the call.
#[derive(Clone, Copy)]
pub(crate) struct Place<'a> {
    pub(crate) file: &'a str,
    pub(crate) row: &'a Row,
    pub(crate) words: &'a Vec<String>,
}

/// How many bytes before and behind a difference are told.
const BEFORE: usize = 24;

const BEHIND: usize = 72;

/// The bytes about this place, as a row has them.
fn shown(alloc: Global, bytes: &[u8], place: usize) -> Result<String, AllocError> {
    let start = place.saturating_sub(BEFORE);
    let about: Vec<u8> = bytes
        .iter()
        .skip(start)
        .take(BEFORE + BEHIND)
        .copied()
        .collect(alloc)?;
    escaped(alloc, &about)
}

/// Words as they stand on a line.
fn joined(alloc: Global, words: &Vec<String>) -> Result<String, AllocError> {
    let mut text = String::new(alloc);
    for word in words {
        if !text.is_empty() {
            text.push(' ')?;
        }
        text.push_str(word.as_str())?;
    }
    Ok(text)
}

/// Tells that something of a call is other than due.
fn tell<K: Sink>(alloc: Global, place: Place<'_>, what: &str, out: &mut K) -> Result<(), Stop> {
    let words = joined(alloc, place.words)?;
    let (file, line) = (place.file, place.row.line);
    let name = place.row.name.as_str();
    let text = format!(in alloc; "{file}:{line}: {name}: {words}: {what}\n")?;
    out.put(text.as_bytes())?;
    Ok(())
}

/// Tells where bytes are other than due, if they are.
fn tell_bytes<K: Sink>(
    alloc: Global,
    place: Place<'_>,
    what: &str,
    due: &[u8],
    came: &[u8],
    out: &mut K,
) -> Result<(), Stop> {
    let Some(at) = first_difference(due, came) else {
        return Ok(());
    };
    let due = shown(alloc, due, at)?;
    let came = shown(alloc, came, at)?;
    let text = format!(in alloc; "{what} differs at byte {at}: due is [{due}], came [{came}]")?;
    tell(alloc, place, text.as_str(), out)
}

/// Tells where a file holds something else than is due, if it does.
fn tell_held<K: Sink>(
    alloc: Global,
    place: Place<'_>,
    name: &str,
    due: &Option<Vec<u8>>,
    came: &Option<Vec<u8>>,
    out: &mut K,
) -> Result<(), Stop> {
    let what = format!(in alloc; "the file {name}")?;
    match (due, came) {
        (Some(due), Some(came)) => tell_bytes(alloc, place, what.as_str(), due, came, out),
        (None, None) => Ok(()),
        (Some(_), None) => tell(
            alloc,
            place,
            format!(in alloc; "{what} isn't there")?.as_str(),
            out,
        ),
        (None, Some(_)) => tell(
            alloc,
            place,
            format!(in alloc; "{what} is there")?.as_str(),
            out,
        ),
    }
}

/// Tells all in which what came of a call is other than due.
pub(crate) fn tell_differences<K: Sink>(
    alloc: Global,
    place: Place<'_>,
    due: &Outcome,
    came: &Outcome,
    out: &mut K,
) -> Result<(), Stop> {
    tell_bytes(alloc, place, "out", &due.out, &came.out, out)?;
    tell_bytes(alloc, place, "err", &due.err, &came.err, out)?;
    if due.status != came.status {
        let (due, came) = (due.status, came.status);
        let text = format!(in alloc; "the status due is {due}, came {came}")?;
        tell(alloc, place, text.as_str(), out)?;
    }
    if due.left != came.left {
        let (due, came) = (due.left.unwrap_or(0), came.left.unwrap_or(0));
        let text = format!(in alloc; "left of the input due are {due} bytes, came {came}")?;
        tell(alloc, place, text.as_str(), out)?;
    }
    let held = due.held.iter().zip(came.held.iter());
    for (file, (due, came)) in place.row.due.held.iter().zip(held) {
        tell_held(alloc, place, file.name.as_str(), due, came, out)?;
    }
    Ok(())
}

/// Tells why a file of rows is refused.
pub(crate) fn tell_refusal<K: Sink>(
    alloc: Global,
    file: &str,
    line: u64,
    fault: Fault,
    out: &mut K,
) -> Result<(), Stop> {
    let text = match fault {
        Fault::Unread => format!(in alloc; "{file}: the file can't be read\n")?,
        Fault::Wrong(wrong) => format!(in alloc; "{file}:{line}: {wrong}\n")?,
        Fault::Source(error) => format!(in alloc;
            "{file}:{line}: the source isn't assembled: {error}\n"
        )?,
        Fault::Beside => format!(in alloc; "{file}:{line}: the file beside can't be read\n")?,
    };
    out.put(text.as_bytes())?;
    Ok(())
}

/// Tells how many rows were as told.
pub(crate) fn tell_tally<K: Sink>(alloc: Global, tally: Tally, out: &mut K) -> Result<(), Stop> {
    let (as_told, other, refused) = (tally.as_told, tally.other, tally.refused);
    let text = format!(in alloc;
        "{as_told} rows are as told, {other} are not, and {refused} files are refused\n"
    )?;
    out.put(text.as_bytes())?;
    Ok(())
}

/// The status of the program: 0 where all rows are as told.
pub(crate) fn status_of(tally: Tally) -> u8
    ensures { (result ≡ 0) ↔ ((tally.other ≡ 0) × (tally.refused ≡ 0)) }
{
    if tally.other == 0 && tally.refused == 0 {
        0
    } else {
        1
    }
}
