//! The line of a word in a listing.

ghost use Rattle.std.specs.Prelude.{◌≡◌, ◌+◌, ◌≤◌, ◌++◌};
ghost use Rattle.arrayvec.specs.ArrayVec.{array_vec_len};
ghost use Rattle.asm_show.specs.Listing.{listing_line};

use crate::instructions::show_instr;
use pump_words::{Line, hex8, write_text};

/// Appends the line of the word at `address`: `AAAAAAAA WWWWWWWW text`, the address and the word as eight hexadecimal digits in
/// upper case, and the text of the word there, as `show_instr` has it. A newline ends it. No such line has more than 51
/// bytes, for which `line` must have room.
#[tactic(auto, unfolding(crate::specs::Listing::listing_line))]
pub fn list_word(address: u32, word: u32, line: &mut Line)
    requires { array_vec_len line.old + 51 ≤ 512 }
    ensures text { line.new.items ≡ line.old.items ++ listing_line address word }
    ensures short { array_vec_len line.new ≤ array_vec_len line.old + 51 }
{
    hex8(line, address);
    write_text(line, b" ");
    hex8(line, word);
    write_text(line, b" ");
    show_instr(address, word, line);
    write_text(line, b"\n");
}
