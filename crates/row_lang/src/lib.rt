//! Rows: calls of the program as a text tells them, with all that is due of each.
//!
//! `docs/ROWS.md` describes the text. A row tells the words of a command line, the files, the input and the calls that fail,
//! and the bytes and the status that are due; nothing of a text is passed over: what can't be read is refused, by its line.
#![tactic(auto)]

mod calls;
mod contents;
mod draft;
mod entries;
mod errors;
mod outcome;
mod reading;
mod rows;
mod tally;
mod texts;

pub use calls::calls_of;
pub use errors::{RowsEnd, Wrong};
pub use outcome::{Outcome, Ran, first_difference, is_as_due, is_as_told};
pub use reading::read_rows;
pub use rows::{Content, Due, Failing, File, Input, Row};
pub use tally::{Tally, count_refusal, count_row, new_tally};
pub use texts::escaped;
