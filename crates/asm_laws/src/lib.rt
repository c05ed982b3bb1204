//! What holds of the texts of words and of assembler source together: a word that is shown can be read back.
//! Its contract is a law for callers that reason about texts.
#![tactic(auto)]

ghost use Rattle.std.specs.Prelude.{ℕ, ◌^◌, ◌<◌};
ghost use Rattle.rv_decode.specs.Decoding.{instr_of_word};
ghost use Rattle.asm_show.specs.Instructions.{text_at};
ghost use Rattle.asm_laws.specs.Reassembly.{Assembles};

use asm_words::laws::encoding_law;
use rv_decode::laws::table_law;

/// The text that is shown of a word at an address assembles there to that word, for every word and every address: it is read as
/// a line without a name, whatever the line's number, and its statement emits that word alone, whatever names stand for.
pub fn reassembly_law()
    ensures { (number pc w : ℕ) → pc < 2 ^ 32 → w < 2 ^ 32 →
        Assembles number pc w (text_at pc w (instr_of_word w)) }
{
    table_law();
    encoding_law();
}
