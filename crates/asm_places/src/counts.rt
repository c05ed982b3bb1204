//! How many words a line emits.

ghost use Rattle.std.specs.Prelude.{◌≡◌};
ghost use Rattle.asm_places.specs.Counts.{count_in};

use asm_read::Statement;
use asm_words::word_count;

/// How many words a line emits, by its statement; `None` where it asks for a negative number of them.
pub(crate) fn line_count(statement: &Option<Statement<'_>>) -> Option<u64>
    ensures { result ≡ count_in statement.now }
{
    match statement {
        Some(statement) => word_count(statement),
        None => Some(0),
    }
}
