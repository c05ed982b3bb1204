//! Laws of the words that statements emit, for callers that reason about them.
//! The functions do nothing.

ghost use Rattle.std.specs.Prelude.{◌≡◌, ℕ};
ghost use Rattle.rv_decode.specs.Table.{Table};
ghost use Rattle.rv_decode.specs.declared.instructions.Instr.{Instr};
ghost use Rattle.asm_words.specs.EmissionLaws.{IsCounted};
ghost use Rattle.asm_words.specs.Encoding.{word_of_instr};

/// The word that the table has for an instruction is the one whose fields are put at their places.
pub fn encoding_law()
    ensures { (w : ℕ) (instr : Instr) → Table w instr → w ≡ word_of_instr instr }
{}

/// A statement emits as many words as are counted.
pub fn count_law()
    ensures { IsCounted }
{}
