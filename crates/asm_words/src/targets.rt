//! What a target stands for.

ghost use Rattle.std.specs.Prelude.{◌≡◌};
ghost use Rattle.std.specs.FinMap as map;
ghost use Rattle.asm_words.specs.Emission.{address_of};

use crate::names::Names;
use crate::ranges::wrapped;
use asm_read::{AsmErrorKind, Target};

/// The place of a name, or the number, modulo 2^32. A name that has no place is `NoName`.
#[tactic(auto, unfolding(crate::specs::Emission::address_of))]
pub fn address_of<'a>(names: &Names<'a>, target: &Target<'a>) -> Result<u32, AsmErrorKind>
    ensures { result ≡ address_of (map.get names.now) target.now }
{
    match target {
        Target::Name(name) => names.place(name.text()).ok_or(AsmErrorKind::NoName),
        Target::Number(number) => Ok(wrapped(*number)),
    }
}
