//! How many words a statement emits.

ghost use Rattle.std.specs.Prelude.{◌≡◌};
ghost use Rattle.asm_words.specs.Emission.{count_of, zero_count};

use crate::loads::word_load_count;
use crate::ranges::wrapped;
use asm_read::Statement;

/// The number of words of `.zero`; `None` where it is negative.
fn zero_count(number: i64) -> Option<u64>
    ensures { result ≡ zero_count number }
{
    u64::try_from(number).ok()
}

/// How many words the statement emits, wherever it stands and whatever its names stand for; `None` for a negative `.zero`.
#[tactic(auto, unfolding(crate::specs::Emission::count_of))]
pub fn word_count(statement: &Statement<'_>) -> Option<u64>
    ensures { result ≡ count_of statement.now }
{
    match statement {
        Statement::Registers { .. }
        | Statement::Immediate { .. }
        | Statement::Shift { .. }
        | Statement::Upper { .. }
        | Statement::Load { .. }
        | Statement::Store { .. }
        | Statement::Branch { .. }
        | Statement::Jump { .. }
        | Statement::JumpRegister { .. }
        | Statement::Fence
        | Statement::Ecall
        | Statement::Ebreak
        | Statement::Word(_) => Some(1),
        Statement::LoadNumber { number, .. } => Some(word_load_count(wrapped(*number))),
        Statement::LoadAddress { .. } => Some(2),
        Statement::Zeros(number) => zero_count(*number),
        Statement::Version(_)
        | Statement::Harts(_)
        | Statement::Ram(_)
        | Statement::Heap { .. }
        | Statement::Entry { .. }
        | Statement::Origin(_)
        | Statement::Text
        | Statement::Data
        | Statement::Label(_)
        | Statement::Edge { .. }
        | Statement::Compartment { .. } => Some(0),
    }
}
