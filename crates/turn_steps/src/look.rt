//! What a hart is about to do.

ghost use Rattle.std.specs.Prelude.{◌≡◌};
ghost use Rattle.turn_steps.specs.Looks.{is_call};

use rv_decode::{Group, Places};
use rv_step::Action;

/// What a hart is about to do, once the checks have passed. It has no tag: the rule is asked with those that stand at its
/// places.
#[derive(Drop)]
pub struct Look {
    /// The word at the pc.
    pub word: u32,
    /// What its instruction computes, and its access.
    pub effect: Action,
    /// The value of a7, the number of a service.
    pub service: u32,
    /// The operation group.
    pub group: Group,
    /// The registers of the operands and of the result, x0 for each that there is not.
    pub places: Places,
}

/// Whether the group is that of an ECALL whose number is no service of the machine: a call of a policy's service.
#[inline(always)]
pub fn is_call(group: Group) -> bool
    ensures { result ≡ is_call group }
{
    matches!(group, Group::Call)
}
