//! A text of rows, from its first line to the count that closes it.

ghost use Rattle.std.specs.Prelude.{◌≡◌, IfOk, IsErr};
ghost use Rattle.std.specs.Bool.{IsFalse};

use crate::contents::{Program, number_of, one_line, source_of};
use crate::draft::Draft;
use crate::entries::{Entry, entries_of};
use crate::errors::{RowsEnd, Wrong};
use crate::rows::Row;
use std::alloc::Global;

/// What was read of a text so far.
#[derive(Drop)]
struct Reader<'a> {
    programs: Vec<Program<'a>>,
    rows: Vec<Row>,
    draft: Option<Draft<'a>>,
    is_closed: bool,
}

/// Whether some row has that name.
fn has_row(rows: &[Row], name: &str) -> bool {
    rows.iter().any(|row| row.name.as_str() == name)
}

/// Whether some program has that name.
fn has_program(programs: &[Program<'_>], name: &str) -> bool {
    programs.iter().any(|program| program.name == name)
}

impl<'a> Reader<'a> {
    /// Takes the line that begins a row.
    fn begin_row(&mut self, alloc: Global, entry: &Entry<'a>) -> Result<(), RowsEnd> {
        one_line(entry)?;
        if entry.value.is_empty() {
            return Err(entry.refused(Wrong::Name));
        }
        if has_row(&self.rows, entry.value) {
            return Err(entry.refused(Wrong::Twice));
        }
        let name = String::from_str(alloc, entry.value)?;
        self.draft = Some(Draft::new(alloc, entry.number, name));
        Ok(())
    }

    /// Takes a program.
    fn add_program(&mut self, alloc: Global, entry: &Entry<'a>) -> Result<(), RowsEnd> {
        if entry.value.is_empty() || entry.value.contains(' ') {
            return Err(entry.refused(Wrong::Name));
        }
        if has_program(&self.programs, entry.value) {
            return Err(entry.refused(Wrong::Twice));
        }
        let source = source_of(alloc, entry)?;
        let name = entry.value;
        self.programs.push(Program { name, source })?;
        Ok(())
    }

    /// Takes the line that closes the text.
    fn close(&mut self, entry: &Entry<'a>) -> Result<(), RowsEnd> {
        let count = number_of(entry)?;
        if count == 0 || count != self.rows.len() as u64 {
            return Err(entry.refused(Wrong::Count));
        }
        self.is_closed = true;
        Ok(())
    }

    /// Takes what stands between rows.
    fn take_outside(&mut self, alloc: Global, entry: &Entry<'a>) -> Result<(), RowsEnd> {
        match entry.key {
            "row" => self.begin_row(alloc, entry),
            "program" => self.add_program(alloc, entry),
            "rows" => self.close(entry),
            _ => Err(entry.refused(Wrong::Outside)),
        }
    }

    /// Takes what stands within a row.
    fn take_inside(
        &mut self,
        alloc: Global,
        mut draft: Draft<'a>,
        entry: &Entry<'a>,
    ) -> Result<(), RowsEnd> {
        match entry.key {
            "end" => {
                one_line(entry)?;
                self.rows.push(draft.finish(entry)?)?;
                Ok(())
            }
            "row" | "program" | "rows" => Err(entry.refused(Wrong::Inside)),
            _ => {
                draft.take(alloc, &self.programs, entry)?;
                self.draft = Some(draft);
                Ok(())
            }
        }
    }

    /// Takes an entry.
    fn take(&mut self, alloc: Global, entry: &Entry<'a>) -> Result<(), RowsEnd> {
        if self.is_closed {
            return Err(entry.refused(Wrong::Behind));
        }
        match self.draft.take() {
            Some(draft) => self.take_inside(alloc, draft, entry),
            None => self.take_outside(alloc, entry),
        }
    }

    /// The rows, where the text was closed. Its last key stands on this line.
    fn finish(self, line: u64) -> Result<Vec<Row>, RowsEnd>
        ensures cut { IsFalse self.entry.is_closed → IsErr result }
        ensures whole { IfOk result (λ rows. rows.items ≡ self.entry.rows.items) }
    {
        if !self.is_closed {
            let wrong = Wrong::Cut;
            return Err(RowsEnd::Bad { line, wrong });
        }
        Ok(self.rows)
    }
}

/// The rows of a text.
pub fn read_rows(alloc: Global, text: &str) -> Result<Vec<Row>, RowsEnd> {
    let entries = entries_of(alloc, text)?;
    let mut reader = Reader {
        programs: Vec::new(alloc),
        rows: Vec::new(alloc),
        draft: None,
        is_closed: false,
    };
    let mut line = 1;
    for entry in &entries {
        reader.take(alloc, entry)?;
        line = entry.number;
    }
    reader.finish(line)
}
