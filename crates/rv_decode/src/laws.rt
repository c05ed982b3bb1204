//! Laws of the table of instructions, for callers that reason about words and instructions.
//! The functions do nothing.

ghost use Rattle.std.specs.Prelude.{◌≡◌, ℕ, ◌^◌, ◌<◌, ◌↔◌, Some};
ghost use Rattle.rv_decode.specs.Decoding.{instr_of_word};
ghost use Rattle.rv_decode.specs.Table.{Table};
ghost use Rattle.rv_decode.specs.declared.instructions.Instr.{Instr};

/// No instruction has two words, and no word has two instructions.
pub fn form_law()
    ensures words { (v w : ℕ) (instr : Instr) → Table v instr → Table w instr → v ≡ w }
    ensures instructions { (w : ℕ) (i j : Instr) → Table w i → Table w j → i ≡ j }
{}

/// What `decode` finds, said of every word by its definition: the rows of the table, and only those.
pub fn table_law()
    ensures { (w : ℕ) → w < 2 ^ 32 → (instr : Instr)
        → (instr_of_word w ≡ Some instr) ↔ Table w instr }
{}
