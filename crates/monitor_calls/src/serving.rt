//! What a policy's service does: its plan, and the new tags of the words of the plan's range.

ghost use Rattle.std.specs.Prelude.{◌≡◌, ◌+◌, ◌-◌, ◌*◌, ◌%◌, ◌<◌, ◌≤◌, Err, Ok, IfErr, IfOk, IsOkAnd, length, if◌then◌else◌};
ghost use Rattle.std.specs.List.{All};
ghost use Rattle.policy_trait.specs.PolicyLaws.{IsRange};
ghost use Rattle.policy_trait.specs.Model.{CanPlan, IsGiven};
ghost use Rattle.tag_memory.specs.Ram.{IsPlace};
ghost use Rattle.monitor_calls.specs.Service.{new_tags, service_job, tag_or_end};
ghost use Rattle.monitor_calls.specs.Ends.{EndsAs, job_by};

use crate::view::View;
use policy_trait::{Args, Plan, PlanEnd, Policy, Refused, Words};
use std::alloc::{AllocError, Global};

/// What a service will do when it is carried out: its plan, and each word of the plan's range, ascending, as address,
/// new value and new tag.
#[derive(Drop)]
pub struct Job<T: Drop> {
    pub plan: Plan<T>,
    pub words: Vec<(u32, u32, T)>,
}

/// Why a service was not served.
#[derive(Clone, Copy, PartialEq, Eq)]
pub enum ServeEnd {
    /// A policy refused the plan or a word of its range.
    Refused(Refused),
    /// The service has used up its numbers.
    Spent,
    /// Memory ran out for the words of a range that nothing refuses.
    Memory,
}

/// Plans the service and asks for the new tag of each word of the plan's range, in ascending order. Nothing changes.
#[inline(always)]
#[tactic(auto, unfolding(crate::specs::Service::service_job))]
pub fn serve<P: Policy, W: View<Tag = P::Tag>>(
    alloc: Global,
    policy: &P,
    number: u32,
    arguments: &Args<P::Tag>,
    pc: P::Tag,
    view: &W,
) -> Result<Job<P::Tag>, ServeEnd>
    requires can { CanPlan P.model policy.now number arguments.now }
    requires bytes { W.bytes_of view.now ≡ arguments.now.ram }

    // The service, up to its effect. A refusal is the first one.
    ensures ok { IfOk result (λ v. service_job P.model policy.now
        (W.word_at view.now) (W.tag_at view.now) number arguments.now pc
        ≡ Ok (job_by v.plan v.words.items)) }
    ensures err { IfErr result (λ e. EndsAs e (service_job P.model policy.now
        (W.word_at view.now) (W.tag_at view.now) number arguments.now pc)) }

    // Running out of memory is told only of a service that nothing refuses and that has words to write.
    ensures memory { result ≡ Err ServeEnd.Memory
        → IsOkAnd (service_job P.model policy.now
        (W.word_at view.now) (W.tag_at view.now) number arguments.now pc)
        (λ job. 1 ≤ length job.words) }

    // It can be carried out: each word is in memory, and the policy can take note of the plan.
    ensures places { IfOk result
        (λ v. All (λ word. IsPlace (W.bytes_of view.now) word.0) v.words.items) }
    ensures given { IfOk result (λ v. IsGiven P.model policy.now v.plan) }
{
    // Serves the proof alone: it says that the policy's invariant holds, by which a plan's range lies in memory.
    let _plain = policy.plain();
    let plan = match policy.plan(number, arguments, pc) {
        Ok(plan) => plan,
        Err(PlanEnd::Refused(refused)) => return Err(ServeEnd::Refused(refused)),
        Err(PlanEnd::Spent) => return Err(ServeEnd::Spent),
    };
    let words = match plan.range {
        None => Vec::new(alloc),
        Some(range) => match retag_words(alloc, policy, &plan, range, view) {
            Ok(words) => words,
            Err(end) => return Err(end),
        },
    };
    Ok(Job { plan, words })
}

/// Each word of the range with its new value and its new tag.
fn retag_words<P: Policy, W: View<Tag = P::Tag>>(
    alloc: Global,
    policy: &P,
    plan: &Plan<P::Tag>,
    range: Words,
    view: &W,
) -> Result<Vec<(u32, u32, P::Tag)>, ServeEnd>
    requires given { IsGiven P.model policy.now plan.now }
    requires range { IsRange (W.bytes_of view.now) range }
    ensures ok { IfOk result (λ words. new_tags P.model policy.now
        (W.word_at view.now) (W.tag_at view.now) plan.now range.base range.count
        ≡ Ok words.items) }
    ensures err { IfErr result (λ e. EndsAs e (new_tags P.model policy.now
        (W.word_at view.now) (W.tag_at view.now) plan.now range.base range.count)) }
    ensures places { IfOk result
        (λ words. All (λ word. IsPlace (W.bytes_of view.now) word.0) words.items) }
{
    // Serves the proof alone: by its type memory has less than 2^32 bytes, so that no address of the range wraps.
    let _bytes = view.bytes();
    let mut words = Vec::new(alloc);
    for place in 0..range.count {
        let address = range.base + 4 * place;
        let tag = match next_tag(policy, plan, view, &words, address) {
            Ok(tag) => tag,
            Err(refused) => return Err(ServeEnd::Refused(refused)),
        };
        let value = new_value(view, plan.zero, address);
        let Ok(()) = words.push((address, value, tag)) else {
            return Err(end_without_memory(policy, plan, range, place + 1, view));
        };
    }
    Ok(words)
}

/// The new tag of the word at `address`, behind those that have theirs. The words of a range mostly have one tag, so that the
/// policy isn't asked for the tag of the word before once more.
#[inline]
fn next_tag<P: Policy, W: View<Tag = P::Tag>>(
    policy: &P,
    plan: &Plan<P::Tag>,
    view: &W,
    words: &[(u32, u32, P::Tag)],
    address: u32,
) -> Result<P::Tag, Refused>
    requires given { IsGiven P.model policy.now plan.now }
    requires place { IsPlace (W.bytes_of view.now) address }
    requires places { All (λ word. IsPlace (W.bytes_of view.now) word.0) words.now }
    requires tags { All (λ word. P.model.retag policy.now plan.now (W.tag_at view.now word.0)
        ≡ Ok word.2) words.now }
    ensures { result ≡ P.model.retag policy.now plan.now (W.tag_at view.now address) }
{
    if let Some(last) = words.last() {
        if view.has_same_tag(last.0, address) {
            return Ok(last.2);
        }
    }
    policy.retag(plan, view.tag(address))
}

/// How a range ends whose words find no memory, where those before the word of the place `first` are not refused: a
/// refusal of a later word is told, and running out of memory only where there is none.
fn end_without_memory<P: Policy, W: View<Tag = P::Tag>>(
    policy: &P,
    plan: &Plan<P::Tag>,
    range: Words,
    first: u32,
    view: &W,
) -> ServeEnd
    requires given { IsGiven P.model policy.now plan.now }
    requires range { IsRange (W.bytes_of view.now) range }
    requires first { first ≤ range.count }
    ensures { EndsAs result
        (new_tags P.model policy.now (W.word_at view.now) (W.tag_at view.now) plan.now
        (range.base + 4 * first) (range.count - first)) }
{
    // Serves the proof alone: by its type memory has less than 2^32 bytes, so that no address of the range wraps.
    let _bytes = view.bytes();
    for place in first..range.count {
        if let Err(refused) = policy.retag(plan, view.tag(range.base + 4 * place)) {
            return ServeEnd::Refused(refused);
        }
    }
    ServeEnd::Memory
}

/// The new value of the word at `address`: 0 in a range that becomes 0, else the old one.
fn new_value<W: View>(view: &W, zero: bool, address: u32) -> u32
    requires { IsPlace (W.bytes_of view.now) address }
    ensures { result ≡ (if zero then 0 else W.word_at view.now address) }
{
    if zero {
        return 0;
    }
    view.word(address)
}
