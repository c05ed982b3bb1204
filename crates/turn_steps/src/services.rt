//! What a policy's service is asked with, and the writes of one that nothing refused.

ghost use Rattle.std.specs.Prelude.{◌≡◌};
ghost use Rattle.std.specs.List.{All};
ghost use Rattle.tag_memory.specs.Ram.{IsPlace, ram_bytes};
ghost use Rattle.turn_steps.specs.Services.{args_on, with_answer, with_words};

use crate::registers::{reg, reg_tag, set_reg};
use policy_trait::{Answer, Args};
use rv_decode::Register;
use tag_memory::{Hart, Ram};

/// What a policy's service is asked with.
pub fn arguments_of<T: Copy>(hart: &Hart<T>, ram: &Ram<T>) -> Args<T>
    ensures { result ≡ args_on hart.now ram.now }
{
    Args {
        a0: reg(hart, Register::A0),
        a1: reg(hart, Register::A1),
        a2: reg(hart, Register::A2),
        t0: reg_tag(hart, Register::A0),
        t1: reg_tag(hart, Register::A1),
        t2: reg_tag(hart, Register::A2),
        ram: ram.bytes(),
    }
}

/// Writes each word of a list of address, value and tag, in turn.
pub fn write_words<T: Copy>(ram: &mut Ram<T>, words: &[(u32, u32, T)])
    requires { All (λ word. IsPlace (ram_bytes ram.old) word.0) words.now }
    ensures exact { ram.new ≡ with_words ram.old words.now }
    ensures bytes { ram_bytes ram.new ≡ ram_bytes ram.old }
{
    for word in words {
        let (address, value, tag) = *word;
        ram.set_word(address, value);
        ram.set_tag(address, tag);
    }
}

/// Puts the answer into a0; without an answer a0 stays.
pub fn answer_to<T: Copy>(hart: &mut Hart<T>, answer: Option<Answer<T>>)
    ensures { hart.new ≡ with_answer hart.old answer }
{
    if let Some(answer) = answer {
        set_reg(hart, Register::A0, answer.value, answer.tag);
    }
}
