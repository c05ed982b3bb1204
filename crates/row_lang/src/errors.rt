//! Why a text has no rows.

ghost use Rattle.std.specs.Prelude.{◌≡◌};
ghost use Rattle.row_lang.specs.declared.errors.RowsEnd.TheVariants.{Memory};

use std::alloc::{AllocError, AllocFailed};
use thiserror::Error;

/// What is wrong with a line of a text of rows.
#[derive(Clone, Copy, Debug, PartialEq, Eq, Error)]
pub enum Wrong {
    /// A byte is none that ASCII prints.
    #[error("a byte that ASCII doesn't print")]
    Byte,
    /// A line ends in a blank, or two stand behind a key.
    #[error("a blank too many")]
    Blank,
    /// A line begins with blanks, but not with four.
    #[error("a line begins with four blanks or with none")]
    Margin,
    /// A line of a block stands first.
    #[error("no key is before this block")]
    Stray,
    /// The key has no block, or it has text on its line, or else.
    #[error("this key has either text on its line or a block")]
    Block,
    /// No key of a row is called so.
    #[error("unknown key")]
    Key,
    /// The key, or the name that it gives, stands a second time.
    #[error("given twice")]
    Twice,
    /// A key of a row stands outside one.
    #[error("no row has begun")]
    Outside,
    /// A row, or what stands between rows, begins within a row that has no end.
    #[error("the row before has no end")]
    Inside,
    /// A row has no words or no status.
    #[error("the row has no words or no status")]
    Missing,
    /// A name is missing, or isn't one word.
    #[error("a name is missing or isn't one word")]
    Name,
    /// The bytes of a word are no text.
    #[error("a word that is no text")]
    Word,
    /// A number is none, or is too great.
    #[error("a bad number")]
    Number,
    /// An escape is none.
    #[error("a bad escape")]
    Escape,
    /// Digits are no hexadecimal bytes.
    #[error("bad hexadecimal")]
    Hex,
    /// No kind of content is called so.
    #[error("unknown kind of content")]
    Kind,
    /// No program of this name stands before.
    #[error("no program has this name")]
    Program,
    /// The closing line tells another number of rows than there are, or none.
    #[error("the count of rows is another, or none")]
    Count,
    /// The text ends within a row or without its closing line.
    #[error("the text is cut")]
    Cut,
    /// Something stands behind the closing line.
    #[error("something is behind the count of rows")]
    Behind,
}

/// How reading a text of rows ends without rows.
#[derive(Clone, Copy)]
pub enum RowsEnd {
    /// A line, counted from 1, is refused.
    Bad {
        /// The number of the line.
        line: u64,
        /// What is wrong there.
        wrong: Wrong,
    },
    /// Memory ran out.
    Memory,
}

impl From<AllocError> for RowsEnd {
    ghost from_gives = { λ _ end. end ≡ Memory };

    fn from(_error: AllocError) -> RowsEnd {
        RowsEnd::Memory
    }
}

impl<T: Drop> From<AllocFailed<T>> for RowsEnd {
    ghost from_gives = { λ _ end. end ≡ Memory };

    fn from(_error: AllocFailed<T>) -> RowsEnd {
        RowsEnd::Memory
    }
}
