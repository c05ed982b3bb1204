//! What the services do: the words that they are asked for, and these words' new tags.

ghost use Rattle.std.specs.Prelude.{◌≡◌, ◌<◌, Err, nat_lt};
ghost use Rattle.compartment_policy.specs.Compartments.{given_by, is_range, let_plan, refused_plan, new_place, split_plan, words_of};

use crate::rules::refused;
use crate::tag::CompartmentTag;
use policy_trait::{Answer, Args, CompartmentSet, Plan, PlanEnd, Refused, Rest, Why, Words};

/// The number of the service that splits words off as a new compartment.
pub(crate) const SPLIT: u32 = 32;

/// The number of the service that lets a compartment jump to words.
pub(crate) const LET_IN: u32 = 33;

/// The number of the service that lets a compartment write words.
pub(crate) const LET_WRITE: u32 = 34;

/// The words that the arguments name: a0 is their base, a1 their count.
fn words_of(arguments: &Args<CompartmentTag>) -> Words
    ensures { result ≡ words_of arguments.now }
{
    Words {
        base: arguments.a0,
        count: arguments.a1,
    }
}

/// Whether these are whole words within memory, at least one.
fn is_range(ram: u32, words: Words) -> bool
    ensures { result ≡ is_range ram words }
{
    let end = u64::from(words.base) + 4 * u64::from(words.count);
    words.base % 4 == 0 && words.count >= 1 && end <= u64::from(ram)
}

/// The words split off as the compartment of the next number, which is `count`, while that is below `limit`.
pub(crate) fn split(
    count: u32,
    limit: u32,
    arguments: &Args<CompartmentTag>,
    pc: CompartmentTag,
) -> Result<Plan<CompartmentTag>, PlanEnd>
    ensures { result ≡ split_plan (record { count = count; limit = limit }) arguments.now pc }
{
    let words = words_of(arguments);
    if !is_range(arguments.ram, words) {
        return Err(refuse(Why::Range));
    }
    if count >= limit {
        return Err(PlanEnd::Spent);
    }
    Ok(Plan {
        service: SPLIT,
        pc,
        note: count,
        range: Some(words),
        zero: false,
        answer: Some(Answer {
            value: count,
            tag: CompartmentTag::Plain,
            rest: Rest::Plain,
        }),
    })
}

/// The compartment in a2, which is to be one of the first `count`, let into the words, or let write them.
pub(crate) fn let_other(
    service: u32,
    count: u32,
    arguments: &Args<CompartmentTag>,
    pc: CompartmentTag,
) -> Result<Plan<CompartmentTag>, PlanEnd>
    ensures { result ≡ let_plan service count arguments.now pc }
{
    let words = words_of(arguments);
    if !is_range(arguments.ram, words) {
        return Err(refuse(Why::Range));
    }
    if arguments.a2 >= count {
        return Err(refuse(Why::Args));
    }
    Ok(Plan {
        service,
        pc,
        note: arguments.a2,
        range: Some(words),
        zero: false,
        answer: None,
    })
}

/// No plan, for a refusal by this policy.
fn refuse(why: Why) -> PlanEnd
    ensures { Err result ≡ refused_plan why }
{
    PlanEnd::Refused(refused(why))
}

/// The new tag of a word, which the service's caller has to own.
pub(crate) fn retagged(
    plan: &Plan<CompartmentTag>,
    old: CompartmentTag,
) -> Result<CompartmentTag, Refused>
    requires { plan.now.note < 128 }
    ensures { result ≡ new_place plan.now.service plan.now.note plan.now.pc old }
{
    match (plan.pc, old) {
        (CompartmentTag::Pc { owner: caller, .. }, CompartmentTag::Place { owner, into, write })
            if caller == owner => Ok(given(plan.service, plan.note, owner, into, write)),
        _ => Err(refused(Why::NotOwner)),
    }
}

/// The tag that the service gives an owner's word, where `number` is the compartment that it names.
fn given(
    service: u32,
    number: u32,
    owner: u32,
    into: CompartmentSet,
    write: CompartmentSet,
) -> CompartmentTag
    requires { number < 128 }
    ensures { result ≡ given_by service number owner into write }
{
    match service {
        SPLIT => CompartmentTag::Place {
            owner: number,
            into: CompartmentSet::empty(),
            write: CompartmentSet::empty(),
        },
        LET_IN => CompartmentTag::Place {
            owner,
            into: into.with(number),
            write,
        },
        _ => CompartmentTag::Place {
            owner,
            into,
            write: write.with(number),
        },
    }
}
