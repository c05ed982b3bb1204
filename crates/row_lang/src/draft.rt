//! A row while it is read.

ghost use Rattle.std.specs.Prelude.{◌≤◌, IfOk, vec_len};

use crate::contents::{Program, calls_of, file_of, number_of, numbers_of};
use crate::entries::{Entry, Line};
use crate::errors::{RowsEnd, Wrong};
use crate::rows::{Due, Failing, File, Input, Row};
use crate::texts::{append_line, text_of};
use std::alloc::Global;
use std::num::NonZeroUsize;

/// A row with what was told of it so far, and the keys that told it.
#[derive(Drop)]
pub(crate) struct Draft<'a> {
    row: Row,
    told: Vec<&'a str>,
}

/// Whether some file has that name.
fn has_file(files: &[File], name: &str) -> bool {
    files.iter().any(|file| file.name.as_str() == name)
}

/// Puts a file behind others. It is refused, where it then stands, if one of them has its name.
fn add_file(files: &mut Vec<File>, entry: &Entry<'_>, file: File) -> Result<(), RowsEnd> {
    let is_again = has_file(files, file.name.as_str());
    files.push(file)?;
    if is_again {
        return Err(entry.refused(Wrong::Twice));
    }
    Ok(())
}

/// Takes the file that an entry tells.
fn take_file(
    alloc: Global,
    programs: &[Program<'_>],
    files: &mut Vec<File>,
    entry: &Entry<'_>,
) -> Result<(), RowsEnd> {
    let file = file_of(alloc, programs, entry)?;
    add_file(files, entry, file)
}

/// Adds a put that fails, with how many bytes it takes. It is refused if a put before has its number.
fn add_put(
    puts: &mut Vec<(u64, usize)>,
    entry: &Entry<'_>,
    number: u64,
    count: u64,
) -> Result<(), RowsEnd> {
    if puts.iter().any(|put| put.0 == number) {
        return Err(entry.refused(Wrong::Twice));
    }
    puts.push((number, count as usize))?;
    Ok(())
}

/// Takes the numbers of puts that fail and take nothing.
fn take_failing_puts(
    alloc: Global,
    puts: &mut Vec<(u64, usize)>,
    entry: &Entry<'_>,
) -> Result<(), RowsEnd> {
    for number in &numbers_of(alloc, entry)? {
        add_put(puts, entry, *number, 0)?;
    }
    Ok(())
}

/// Takes the number of a put that fails, and how many bytes it takes.
fn take_torn_put(
    alloc: Global,
    puts: &mut Vec<(u64, usize)>,
    entry: &Entry<'_>,
) -> Result<(), RowsEnd> {
    match numbers_of(alloc, entry)?.as_slice() {
        [number, count] => add_put(puts, entry, *number, *count),
        _ => Err(entry.refused(Wrong::Number)),
    }
}

/// Takes calls that fail.
fn take_failing(alloc: Global, failing: &mut Failing, entry: &Entry<'_>) -> Result<(), RowsEnd> {
    match entry.key {
        "fail-reads" => failing.reads = numbers_of(alloc, entry)?,
        "fail-files" => failing.files = numbers_of(alloc, entry)?,
        "fail-puts" => take_failing_puts(alloc, &mut failing.puts, entry)?,
        "fail-tells" => take_failing_puts(alloc, &mut failing.tells, entry)?,
        "torn-puts" => take_torn_put(alloc, &mut failing.puts, entry)?,
        "torn-tells" => take_torn_put(alloc, &mut failing.tells, entry)?,
        _ => return Err(entry.refused(Wrong::Key)),
    }
    Ok(())
}

/// The most bytes that a read gives, on its key's line.
fn piece_of(entry: &Entry<'_>) -> Result<NonZeroUsize, RowsEnd> {
    let number = number_of(entry)?;
    NonZeroUsize::new(number as usize).ok_or(entry.refused(Wrong::Number))
}

/// A status on its key's line.
fn status_of(entry: &Entry<'_>) -> Result<u8, RowsEnd> {
    match u8::try_from(number_of(entry)?) {
        Ok(status) => Ok(status),
        Err(_) => Err(entry.refused(Wrong::Number)),
    }
}

/// Takes what is due of the call itself.
fn take_due(alloc: Global, due: &mut Due, entry: &Entry<'_>) -> Result<(), RowsEnd> {
    match entry.key {
        "out" => due.out = text_of(alloc, entry, entry.value)?,
        "err" => due.err = text_of(alloc, entry, entry.value)?,
        "status" => due.status = status_of(entry)?,
        "left" => due.left = Some(number_of(entry)?),
        _ => return Err(entry.refused(Wrong::Key)),
    }
    Ok(())
}

/// What is typed in a line of a session, `None` where the line is a reply.
fn typed_in(line: Line<'_>) -> Option<Line<'_>> {
    let number = line.number;
    if line.text == ">" {
        return Some(Line { number, text: "" });
    }
    let text = line.text.strip_prefix("> ")?;
    Some(Line { number, text })
}

impl<'a> Draft<'a> {
    /// A row of which only the name is told.
    pub(crate) fn new(alloc: Global, line: u64, name: String) -> Draft<'a> {
        Draft {
            row: Row {
                line,
                name,
                calls: Vec::new(alloc),
                caches: Vec::new(alloc),
                files: Vec::new(alloc),
                input: Input {
                    bytes: Vec::new(alloc),
                    piece: NonZeroUsize::MAX,
                },
                failing: Failing {
                    reads: Vec::new(alloc),
                    files: Vec::new(alloc),
                    puts: Vec::new(alloc),
                    tells: Vec::new(alloc),
                },
                due: Due {
                    out: Vec::new(alloc),
                    err: Vec::new(alloc),
                    status: 0,
                    left: None,
                    held: Vec::new(alloc),
                },
            },
            told: Vec::new(alloc),
        }
    }

    /// Notes that a key stands, which is refused a second time.
    fn note(&mut self, entry: &Entry<'a>, key: &'a str) -> Result<(), RowsEnd> {
        if self.told.contains(&key) {
            return Err(entry.refused(Wrong::Twice));
        }
        self.told.push(key)?;
        Ok(())
    }

    /// Takes a line of a session: what is typed, behind `> `, or a reply.
    fn take_reply(&mut self, line: Line<'a>) -> Result<(), RowsEnd> {
        match typed_in(line) {
            Some(typed) => append_line(&mut self.row.input.bytes, typed),
            None => append_line(&mut self.row.due.out, line),
        }
    }

    /// Takes a session, which tells the input and what is due on standard output.
    fn take_session(&mut self, entry: &Entry<'a>) -> Result<(), RowsEnd> {
        self.note(entry, "input")?;
        self.note(entry, "out")?;
        if !entry.value.is_empty() {
            return Err(entry.refused(Wrong::Block));
        }
        for line in &entry.block {
            self.take_reply(*line)?;
        }
        Ok(())
    }

    /// Takes what an entry tells that may stand once.
    fn take_once(&mut self, alloc: Global, entry: &Entry<'a>) -> Result<(), RowsEnd> {
        self.note(entry, entry.key)?;
        match entry.key {
            "words" => self.row.calls = calls_of(alloc, entry)?,
            "caches" => self.row.caches = numbers_of(alloc, entry)?,
            "input" => self.row.input.bytes = text_of(alloc, entry, entry.value)?,
            "pieces" => self.row.input.piece = piece_of(entry)?,
            "out" | "err" | "status" | "left" => take_due(alloc, &mut self.row.due, entry)?,
            _ => take_failing(alloc, &mut self.row.failing, entry)?,
        }
        Ok(())
    }

    /// Takes what an entry tells of the row.
    pub(crate) fn take(
        &mut self,
        alloc: Global,
        programs: &[Program<'a>],
        entry: &Entry<'a>,
    ) -> Result<(), RowsEnd> {
        match entry.key {
            "file" => take_file(alloc, programs, &mut self.row.files, entry),
            "holds" => take_file(alloc, programs, &mut self.row.due.held, entry),
            "session" => self.take_session(entry),
            _ => self.take_once(alloc, entry),
        }
    }

    /// The row, where all is told that has to be.
    pub(crate) fn finish(self, entry: &Entry<'a>) -> Result<Row, RowsEnd>
        ensures called { IfOk result (λ row. 1 ≤ vec_len row.calls) }
    {
        if self.row.calls.is_empty() || !self.told.contains(&"status") {
            return Err(entry.refused(Wrong::Missing));
        }
        Ok(self.row)
    }
}
