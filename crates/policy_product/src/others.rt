//! What a policy says to a service that is another's.

ghost use Rattle.std.specs.Prelude.{◌≡◌, Err};
ghost use Rattle.policy_product.specs.Both.{first_declined, is_unlent, lending_of, lent_if, rest_tag};

use policy_trait::{Args, Plan, PlanEnd, Policy, Refused, Rest, Why};

/// Whether the tag is lent by the policy, where it is used.
fn lend_if<P: Policy>(policy: &P, used: bool, tag: P::Tag) -> Result<(), PlanEnd>
    ensures { result ≡ lent_if (P.model.lend policy.now) used tag }
{
    if !used {
        return Ok(());
    }
    match policy.lend(tag) {
        Ok(()) => Ok(()),
        Err(part) => Err(PlanEnd::Refused(Refused {
            part,
            why: Why::Lend,
        })),
    }
}

/// Whether the policy lends the arguments that another's service uses, of which there are `uses` from a0 on. They are asked
/// for one by one; the error names the part that refuses the first.
pub fn lend_all<P: Policy>(policy: &P, uses: u8, arguments: &Args<P::Tag>) -> Result<(), PlanEnd>
    ensures { result ≡ lending_of (P.model.lend policy.now) uses arguments.now }
{
    lend_if(policy, 1 <= uses, arguments.t0)?;
    lend_if(policy, 2 <= uses, arguments.t1)?;
    lend_if(policy, 3 <= uses, arguments.t2)
}

/// Whether the plan ends since an argument was not lent.
fn is_unlent(end: &PlanEnd) -> bool
    ensures { result ≡ is_unlent end.now }
{
    match end {
        PlanEnd::Refused(refused) => matches!(refused.why, Why::Lend),
        _ => false,
    }
}

/// What is told where a policy beside the owner declines to lend: that a part within the owner declines, where its plan ended so,
/// since that part is asked before.
pub(crate) fn first_declined<T>(beside: PlanEnd, own: &Result<Plan<T>, PlanEnd>) -> PlanEnd
    ensures { first_declined (Err beside) own.now ≡ Err result }
{
    match own {
        Err(end) if is_unlent(end) => *end,
        _ => beside,
    }
}

/// The tag that those who do not own a service have for its answer: the plain one, or that of a0.
pub fn rest_of<U: Copy>(rest: Rest, plain: U, a0: U) -> U
    ensures { result ≡ rest_tag rest plain a0 }
{
    match rest {
        Rest::Plain => plain,
        Rest::AsA0 => a0,
    }
}
