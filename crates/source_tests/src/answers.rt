//! What a statement emits, told apart.

ghost use Rattle.std.specs.Prelude.{◌≡◌, ◌↔◌, Ok, true};
ghost use Rattle.asm_words.specs.declared.emissions.Emission.TheVariants.{One};

use asm_read::AsmErrorKind;
use asm_words::Emission;

/// Whether just this word is emitted.
pub(crate) fn is_word(emitted: &Result<Emission, AsmErrorKind>, word: u32) -> bool
    ensures { (result ≡ true) ↔ (emitted.now ≡ Ok (One word)) }
{
    matches!(emitted, Ok(Emission::One(found)) if *found == word)
}
