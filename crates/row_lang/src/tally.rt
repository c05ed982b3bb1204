//! How many rows were as told.

ghost use Rattle.std.specs.Prelude.{◌≡◌, ◌+◌, ◌<◌, ◌^◌};
ghost use Rattle.row_lang.specs.Counted.{no_rows, rows_in, with_refusal, with_row};

/// How many rows were as told, how many not, and how many texts of rows were refused. Each count stands still at 2^64 - 1.
#[derive(Clone, Copy)]
pub struct Tally {
    /// How many rows were as told.
    pub as_told: u64,
    /// How many rows were not.
    pub other: u64,
    /// How many texts were refused.
    pub refused: u64,
}

/// The count before any row.
pub fn new_tally() -> Tally
    ensures { result ≡ no_rows }
{
    Tally {
        as_told: 0,
        other: 0,
        refused: 0,
    }
}

/// Counts a row that was as told, or one that wasn't.
pub fn count_row(tally: Tally, is_as_told: bool) -> Tally
    ensures row { result ≡ with_row is_as_told tally }
    ensures more { rows_in tally + 1 < 2 ^ 64 → rows_in result ≡ rows_in tally + 1 }
{
    if is_as_told {
        Tally {
            as_told: tally.as_told.saturating_add(1),
            ..tally
        }
    } else {
        Tally {
            other: tally.other.saturating_add(1),
            ..tally
        }
    }
}

/// Counts a text that was refused.
pub fn count_refusal(tally: Tally) -> Tally
    ensures { result ≡ with_refusal tally }
{
    Tally {
        refused: tally.refused.saturating_add(1),
        ..tally
    }
}
