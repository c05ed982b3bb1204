//! What the rules ask: which compartment runs on, and which words it may write.

ghost use Rattle.std.specs.Prelude.{◌≡◌};
ghost use Rattle.compartment_policy.specs.Compartments.{entry_owner, is_jump, is_store, is_writer, may_write, refused_for};

use crate::tag::CompartmentTag;
use policy_trait::{Part, Refused, Why};
use rv_decode::Group;

/// The owner of the instruction's word, where the pc may go there: from a word of the same owner, or by a jump from a
/// compartment that the word lets in.
#[inline]
pub(crate) fn entered(pc: &CompartmentTag, instruction: &CompartmentTag) -> Option<u32>
    ensures { result ≡ entry_owner pc.now instruction.now }
{
    let CompartmentTag::Pc {
        owner: from,
        jumped,
    } = pc
    else {
        return None;
    };
    let CompartmentTag::Place { owner, into, .. } = instruction else {
        return None;
    };
    (*from == *owner || (*jumped && into.has(*from))).then_some(*owner)
}

/// Whether the compartment may write a word with this tag: one of its own, or one that lets it write.
pub(crate) fn may_write(compartment: u32, word: &CompartmentTag) -> bool
    ensures { result ≡ may_write compartment word.now }
{
    match word {
        CompartmentTag::Place { owner, write, .. } => {
            *owner == compartment || write.has(compartment)
        }
        _ => false,
    }
}

/// Whether the pc's tag is that of a compartment that may write a word with the other tag.
pub(crate) fn is_writer(pc: &CompartmentTag, word: &CompartmentTag) -> bool
    ensures { result ≡ is_writer pc.now word.now }
{
    match pc {
        CompartmentTag::Pc { owner, .. } => may_write(*owner, word),
        _ => false,
    }
}

/// Whether the group's instruction is a JAL or a JALR.
pub(crate) fn is_jump(group: Group) -> bool
    ensures { result ≡ is_jump group }
{
    matches!(group, Group::Jal | Group::Jalr)
}

/// Whether the group's instruction writes a memory word.
pub(crate) fn is_store(group: Group) -> bool
    ensures { result ≡ is_store group }
{
    matches!(group, Group::StoreWord | Group::StorePart)
}

/// A refusal by this policy.
pub(crate) fn refused(why: Why) -> Refused
    ensures { result ≡ refused_for why }
{
    Refused {
        part: Part::Comp,
        why,
    }
}
