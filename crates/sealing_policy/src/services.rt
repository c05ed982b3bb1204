//! What the services do: a value sealed, and a value unsealed.

ghost use Rattle.std.specs.Prelude.{◌≡◌, Err};
ghost use Rattle.sealing_policy.specs.Sealing.{answering, refused_plan, seal_plan, unseal_plan};

use crate::table::refused;
use crate::tag::SealTag;
use policy_trait::{Answer, Args, Plan, PlanEnd, Rest, Why};

/// The number of the service that makes a key.
pub(crate) const MAKE_KEY: u32 = 16;

/// The number of the service that seals a0 with the key in a1.
pub(crate) const SEAL: u32 = 17;

/// The number of the service that unseals a0 with the key in a1.
pub(crate) const UNSEAL: u32 = 18;

/// A plan that only answers.
pub(crate) fn answer(
    service: u32,
    pc: SealTag,
    value: u32,
    tag: SealTag,
    rest: Rest,
) -> Plan<SealTag>
    ensures { result ≡ answering service pc value tag rest }
{
    Plan {
        service,
        pc,
        note: 0,
        range: None,
        zero: false,
        answer: Some(Answer { value, tag, rest }),
    }
}

/// a0 sealed with the key in a1.
pub(crate) fn seal(arguments: &Args<SealTag>, pc: SealTag) -> Result<Plan<SealTag>, PlanEnd>
    ensures { result ≡ seal_plan arguments.now pc arguments.now.t0 arguments.now.t1 }
{
    match (arguments.t0, arguments.t1) {
        (SealTag::Data, SealTag::Key(key)) => {
            Ok(answer(SEAL, pc, arguments.a0, SealTag::Sealed(key), Rest::AsA0))
        }
        _ => Err(refuse(Why::Args)),
    }
}

/// a0 unsealed with the key in a1. Which key that is, its tag says.
pub(crate) fn unseal(arguments: &Args<SealTag>, pc: SealTag) -> Result<Plan<SealTag>, PlanEnd>
    ensures { result ≡ unseal_plan arguments.now pc arguments.now.t0 arguments.now.t1 }
{
    match (arguments.t0, arguments.t1) {
        (SealTag::Sealed(lock), SealTag::Key(key)) => {
            if lock != key {
                return Err(refuse(Why::WrongKey));
            }
            Ok(answer(UNSEAL, pc, arguments.a0, SealTag::Data, Rest::AsA0))
        }
        _ => Err(refuse(Why::Args)),
    }
}

/// No plan, for a refusal by this policy.
fn refuse(why: Why) -> PlanEnd
    ensures { Err result ≡ refused_plan why }
{
    PlanEnd::Refused(refused(why))
}
