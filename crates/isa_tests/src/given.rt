//! Registers and effects, as tests name them.

ghost use Rattle.std.specs.Option.{option_map};
ghost use Rattle.std.specs.Prelude.{◌≡◌, ◌<◌};
ghost use Rattle.rv_decode.specs.Decoding.{instr_of_word};
ghost use Rattle.rv_step.specs.Effects.{effect_of};

use rv_decode::{Register, decode};
use rv_step::{Effect, exec};

/// The register of this number.
pub(crate) fn x(number: u8) -> Register
    requires { number < 32 }
    ensures { result ≡ number }
{
    match Register::new(number) {
        Some(register) => register,
        None => Register::ZERO,
    }
}

/// The effect of a word at `pc`, where `a` and `b` are the values of its registers; none where it is no instruction.
pub(crate) fn effect(word: u32, pc: u32, a: u32, b: u32) -> Option<Effect>
    ensures { result ≡ option_map (λ instr. effect_of instr pc a b) (instr_of_word word) }
{
    let instr = decode(word)?;
    Some(exec(&instr, pc, a, b))
}
