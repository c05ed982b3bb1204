//! Tables of texts, each with what it means.

ghost use Rattle.std.specs.Prelude.{◌≡◌};
ghost use Rattle.asm_table.specs.Rows.{beside, read_rows};

/// What stands beside the text in the first row that has it; `None` where none has.
pub(crate) fn beside<A: Copy>(text: &[u8], rows: &[(&[u8], A)]) -> Option<A>
    ensures { result ≡ beside text.now (read_rows rows.now) }
{
    for row in rows {
        if text == row.0 {
            return Some(row.1);
        }
    }
    None
}
