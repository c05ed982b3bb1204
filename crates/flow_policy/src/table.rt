//! The table of control-flow integrity: what the groups do, and what that asks of the tags.

ghost use Rattle.std.specs.Prelude.{◌≡◌};
ghost use Rattle.flow_policy.specs.Flow.{effect_of, ignores_by, is_data, label_of, outs_by, refused_for};

use crate::tag::FlowTag;
use policy_trait::{Mask, Outs, Part, Refused, Why};
use rv_decode::Group;

/// What a group does that the policy looks at.
#[derive(Clone, Copy)]
pub(crate) enum Effect {
    /// It jumps to an address that a register holds.
    Jumps,
    /// It writes a memory word.
    Stores,
    /// Neither.
    GoesOn,
}

/// What the group does.
pub(crate) fn effect_of(group: Group) -> Effect
    ensures { result ≡ effect_of group }
{
    match group {
        Group::Jalr => Effect::Jumps,
        Group::StoreWord | Group::StorePart => Effect::Stores,
        _ => Effect::GoesOn,
    }
}

/// Whether the tag is that of a word outside the code ranges.
pub(crate) fn is_data(tag: FlowTag) -> bool
    ensures { result ≡ is_data tag }
{
    matches!(tag, FlowTag::Data)
}

/// The label of the code word with this tag, if it has one; `None` where it is no code word.
pub(crate) fn label_of(tag: FlowTag) -> Option<Option<u32>>
    ensures { result ≡ label_of tag }
{
    match tag {
        FlowTag::Code(label) => Some(label),
        _ => None,
    }
}

/// A refusal by this policy.
pub(crate) fn refused(why: Why) -> Refused
    ensures { result ≡ refused_for why }
{
    Refused {
        part: Part::Flow,
        why,
    }
}

impl Effect {
    /// The next tags at a code word with this label, where the memory word has that tag; `None` where the policy does
    /// not allow it.
    pub(crate) fn outs(self, label: Option<u32>, word: FlowTag) -> Option<Outs<FlowTag>>
        ensures { result ≡ outs_by self label word }
    {
        let (pc, result) = match self {
            Effect::Jumps => (FlowTag::From(label?), FlowTag::Plain),
            Effect::Stores => {
                if !is_data(word) {
                    return None;
                }
                (FlowTag::Still, FlowTag::Data)
            }
            Effect::GoesOn => (FlowTag::Still, FlowTag::Plain),
        };
        Some(Outs { pc, result })
    }

    /// Which inputs are ignored: the operands, and the memory word where it is not written.
    pub(crate) fn mask(self) -> Mask
        ensures { result ≡ ignores_by self }
    {
        Mask {
            pc: false,
            ci: false,
            t1: true,
            t2: true,
            tm: !matches!(self, Effect::Stores),
        }
    }
}
