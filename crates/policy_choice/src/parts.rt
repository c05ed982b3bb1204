//! What one policy does among others, and what two answer together.

ghost use Rattle.std.specs.Prelude.{◌≡◌, ◌+◌, ◌≤◌, ◌++◌, IsTrue};
ghost use Rattle.arrayvec.specs.ArrayVec.{array_vec_len};
ghost use Rattle.policy_trait.specs.Model.{IsGiven};
ghost use Rattle.policy_product.specs.Both.{both_ignore, joint_text};
ghost use Rattle.policy_parts.specs.Part.{word_tag};
ghost use Rattle.policy_choice.specs.Flat.{lent_to_others};

use policy_product::lend_all;
use policy_trait::{Args, Mask, Plan, PlanEnd, Policy, Refused};
use pump_words::{Line, write_text};

/// Whether the policy lends the used arguments of a service, where that is another's.
pub(crate) fn lend_to_others<P: Policy>(
    policy: &P,
    number: u32,
    uses: u8,
    arguments: &Args<P::Tag>,
) -> Result<(), PlanEnd>
    ensures { result ≡ lent_to_others P.model policy.now number uses arguments.now }
{
    if policy.knows(number) {
        Ok(())
    } else {
        lend_all(policy, uses, arguments)
    }
}

/// The policy's new tag of a word of the plan's range, whoever owns the service.
pub(crate) fn word_tag<P: Policy>(
    policy: &P,
    plan: &Plan<P::Tag>,
    old: P::Tag,
) -> Result<P::Tag, Refused>
    requires { IsTrue (P.model.knows policy.now plan.now.service)
        → IsGiven P.model policy.now plan.now }
    ensures { result ≡ word_tag P.model policy.now plan.now old }
{
    if policy.knows(plan.service) {
        policy.retag(plan, old)
    } else if plan.zero {
        policy.wipe(plan.pc, old)
    } else {
        Ok(old)
    }
}

/// Appends the text of a tag of the policy, and then the rest, with a bar between where neither is empty.
pub(crate) fn show_before<P: Policy>(policy: &P, tag: P::Tag, rest: &Line, to: &mut Line)
    requires { array_vec_len to.old + (P.longest + array_vec_len rest.now + 1) ≤ 512 }
    ensures text { to.new.items
        ≡ to.old.items ++ joint_text (P.model.text policy.now tag) rest.now.items }
    ensures short { array_vec_len to.new
        ≤ array_vec_len to.old + (P.longest + array_vec_len rest.now + 1) }
{
    let start = to.len();
    policy.show(tag, to);
    if to.len() != start && !rest.is_empty() {
        write_text(to, b"|");
    }
    write_text(to, rest);
}

/// What both of two policies ignore.
pub(crate) fn ignored_by_both(first: Mask, second: Mask) -> Mask
    ensures { result ≡ both_ignore first second }
{
    Mask {
        pc: first.pc && second.pc,
        ci: first.ci && second.ci,
        t1: first.t1 && second.t1,
        t2: first.t2 && second.t2,
        tm: first.tm && second.tm,
    }
}
