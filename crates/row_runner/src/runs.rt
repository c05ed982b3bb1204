//! Rows, run one after another.

ghost use Rattle.std.specs.Prelude.{◌≡◌, ◌+◌, ◌*◌, ◌<◌, ◌^◌, max, IfOk, length, vec_len};
ghost use Rattle.row_lang.specs.Counted.{rows_in};

use crate::calls::{FILE_LIMIT, all_bytes_of, due_of, files_of, outcome_of};
use crate::stops::{Fault, Stop};
use crate::tellings::{Place, tell_differences, tell_refusal};
use host_io::{Files, LoadFile, Sink};
use row_lang::{
    Outcome, Ran, Row, Tally, calls_of, count_refusal, count_row, is_as_told, new_tally, read_rows,
};
use std::alloc::Global;
use std::str;

/// Makes a call of a row, tells all in which it isn't as due, and answers what came.
fn run_call<F: Files, K: Sink>(
    alloc: Global,
    place: Place<'_>,
    due: &Outcome,
    beside: &mut F,
    out: &mut K,
) -> Result<Outcome, Stop> {
    let files = files_of(alloc, beside, place.row)?;
    let came = outcome_of(alloc, place.row, place.words, files)?;
    tell_differences(alloc, place, due, &came, out)?;
    Ok(came)
}

/// Makes all calls of a row.
fn run_row<F: Files, K: Sink>(
    alloc: Global,
    file: &str,
    row: &Row,
    beside: &mut F,
    out: &mut K,
) -> Result<Ran, Stop>
    ensures out { IfOk result (λ ran. ran.due.out.items ≡ row.now.due.out.items) }
    ensures err { IfOk result (λ ran. ran.due.err.items ≡ row.now.due.err.items) }
    ensures status { IfOk result (λ ran. ran.due.status ≡ row.now.due.status) }
    ensures left { IfOk result (λ ran. ran.due.left ≡ row.now.due.left) }
    ensures held { IfOk result (λ ran. vec_len ran.due.held ≡ vec_len row.now.due.held) }
    ensures calls { IfOk result (λ ran.
        vec_len ran.came ≡ vec_len row.now.calls * max 1 (vec_len row.now.caches)) }
{
    let held = all_bytes_of(alloc, beside, &row.due.held)?;
    let due = due_of(alloc, row, held)?;
    let calls = calls_of(alloc, row)?;
    let mut came = Vec::new(alloc);
    for words in &calls {
        let place = Place { file, row, words };
        came.push(run_call(alloc, place, &due, beside, out)?)?;
    }
    Ok(Ran { due, came })
}

/// The bytes of a file of rows.
fn text_of<F: Files>(alloc: Global, file: &str, beside: &mut F) -> Result<Vec<u8>, Stop> {
    match beside.load(alloc, file, FILE_LIMIT) {
        Ok(bytes) => Ok(bytes),
        Err(LoadFile::Memory) => Err(Stop::Memory),
        Err(_) => Err(Stop::Refused {
            line: 0,
            fault: Fault::Unread,
        }),
    }
}

/// The rows of a file.
fn rows_of<F: Files>(alloc: Global, file: &str, beside: &mut F) -> Result<Vec<Row>, Stop> {
    let bytes = text_of(alloc, file, beside)?;
    match str::from_utf8(&bytes) {
        Ok(text) => Ok(read_rows(alloc, text)?),
        Err(_) => Err(Stop::Refused {
            line: 0,
            fault: Fault::Unread,
        }),
    }
}

/// Runs these rows of a file, and counts each of them, as told or not, behind those before.
fn run_rows<F: Files, K: Sink>(
    alloc: Global,
    file: &str,
    rows: &[Row],
    beside: &mut F,
    out: &mut K,
    before: Tally,
) -> Result<Tally, Stop>
    ensures { rows_in before + length rows.now < 2 ^ 64 →
        IfOk result (λ tally. rows_in tally ≡ rows_in before + length rows.now) }
{
    let mut tally = before;
    for row in rows {
        let ran = run_row(alloc, file, row, beside, out)?;
        tally = count_row(tally, is_as_told(&ran));
    }
    Ok(tally)
}

/// Runs the rows of a file, and counts them behind those before.
fn run_file<F: Files, K: Sink>(
    alloc: Global,
    file: &str,
    beside: &mut F,
    out: &mut K,
    before: Tally,
) -> Result<Tally, Stop> {
    let rows = rows_of(alloc, file, beside)?;
    run_rows(alloc, file, &rows, beside, out, before)
}

/// Runs the rows of these files, and counts them; a file that is refused is told and counted.
pub(crate) fn run_files<F: Files, K: Sink>(
    alloc: Global,
    files: &Vec<String>,
    beside: &mut F,
    out: &mut K,
) -> Result<Tally, Stop> {
    let mut tally = new_tally();
    for file in files {
        tally = match run_file(alloc, file.as_str(), beside, out, tally) {
            Ok(counted) => counted,
            Err(Stop::Refused { line, fault }) => {
                tell_refusal(alloc, file.as_str(), line, fault, out)?;
                count_refusal(tally)
            }
            Err(stop) => return Err(stop),
        };
    }
    Ok(tally)
}
