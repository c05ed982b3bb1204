//! Values stated by the rules of compartments: a table of rules, and three services at their limits.

use crate::refusals::refused;
use compartment_policy::{CompartmentTag, Compartments};
use policy_trait::{
    Answer, Args, CompartmentSet, Ins, Outs, Part, Plan, PlanEnd, Policy, Refused, Rest, Why, Words,
};
use rv_decode::Group;
use std::test::Fail;

const PLAIN: CompartmentTag = CompartmentTag::Plain;

/// The bytes of memory in each test.
const RAM: u32 = 64;

const NO_RANGE: PlanEnd = PlanEnd::Refused(Refused {
    part: Part::Comp,
    why: Why::Range,
});

const NO_ARGS: PlanEnd = PlanEnd::Refused(Refused {
    part: Part::Comp,
    why: Why::Args,
});

/// The owner of the pc and whether it has jumped, the owner of the word and the set that it lets in, a group, and whether the
/// new pc has jumped, where that is allowed.
const ENTERINGS: &[(u32, bool, u32, u128, Group, Option<bool>)] = &[
    (2, false, 2, 0, Group::AddImm, Some(false)),
    (2, true, 2, 0, Group::Jal, Some(true)),
    (2, false, 2, 0, Group::Jalr, Some(true)),
    (2, false, 2, 0, Group::Branch, Some(false)),
    // another's word, by a jump and let in
    (2, true, 5, 0b100, Group::Call, Some(false)),
    (2, true, 5, 0b100, Group::Jalr, Some(true)),
    (31, true, 5, 0x8000_0000, Group::Fence, Some(false)),
    (127, true, 5, 1 << 127, Group::Fence, Some(false)),
    // let in without a jump, a jump without leave, the leave of others, and a number that no set has
    (2, false, 5, 0b100, Group::Call, None),
    (2, true, 5, 0, Group::Call, None),
    (2, true, 5, 0xFFFF_FFFB, Group::Call, None),
    (32, true, 5, 0xFFFF_FFFF, Group::Call, None),
    (128, true, 5, u128::MAX, Group::Call, None),
];

#[test]
fn rules_of_entering(rt: HostRuntime) {
    for &(from, jumped, owner, into, group, answer) in ENTERINGS {
        let inputs = inputs(pc(from, jumped), place(owner, into, 0), PLAIN);
        let outs = answer.map(|jumped| (pc(owner, jumped), PLAIN));
        assert!(rt; is_answered(group, inputs, outs));
    }
    let others = [
        (PLAIN, place(0, 0, 0)),
        (place(0, 0, 0), place(0, 0, 0)),
        (pc(0, true), PLAIN),
        (pc(0, true), pc(0, true)),
    ];
    for (pc, instruction) in others {
        assert!(rt; is_answered(Group::Const, inputs(pc, instruction, PLAIN), None));
    }
}

#[test]
fn rules_of_stores(rt: HostRuntime) {
    // the memory word's tag, whether the compartment 5 may write it
    let rows = [
        (place(5, 0, 0), true),
        (place(2, 0, 0b10_0000), true),
        // what may be entered may not be written, and compartment 2 has no say here
        (place(2, 0b10_0000, 0), false),
        (place(2, 0, 0b100), false),
        (PLAIN, false),
        (pc(5, false), false),
    ];
    for (word, allowed) in &rows {
        // compartment 2 has jumped to a word of compartment 5, which is the one that stores
        for group in [Group::StoreWord, Group::StorePart] {
            let stored = inputs(pc(2, true), place(5, 0b100, 0), *word);
            let outs = allowed.then_some((pc(5, false), *word));
            assert!(rt; is_answered(group, stored, outs));
        }
        // a load asks nothing of its word
        let loaded = inputs(pc(5, false), place(5, 0, 0), *word);
        assert!(rt; is_answered(Group::LoadWord, loaded, Some((pc(5, false), PLAIN))));
    }
}

/// How many compartments there are and may be, a service, base and words, a2, and the refusal.
const REFUSALS: &[(u32, u32, u32, u32, u32, u32, PlanEnd)] = &[
    (4, 32, 32, 2, 1, 0, NO_RANGE),
    (32, 32, 32, 2, 1, 0, NO_RANGE),
    (32, 32, 32, 0, 1, 0, PlanEnd::Spent),
    (4, 32, 33, 2, 1, 4, NO_RANGE),
    (4, 32, 33, 0, 1, 4, NO_ARGS),
    (4, 32, 34, 2, 1, 4, NO_RANGE),
    (4, 32, 34, 0, 1, 4, NO_ARGS),
    (32, 32, 34, 0, 1, 32, NO_ARGS),
    (128, 128, 32, 2, 1, 0, NO_RANGE),
    (128, 128, 32, 0, 1, 0, PlanEnd::Spent),
    (32, 128, 33, 0, 1, 32, NO_ARGS),
    (128, 128, 33, 0, 1, 128, NO_ARGS),
];

#[test]
fn refusals_of_services_in_their_order(rt: HostRuntime) {
    for &(count, limit, service, base, words, a2, end) in REFUSALS {
        let policy = Compartments::new(count, limit);
        assert!(rt; range_of(&policy, service, base, words, a2) == Some(Err(end)));
    }
}

/// Base, words, and whether they lie within 64 bytes.
const RANGES: &[(u32, u32, bool)] = &[
    (0, 16, true),
    (0, 17, false),
    (60, 1, true),
    (60, 2, false),
    (64, 1, false),
    (0, 0, false),
    (64, 0, false),
    (1, 1, false),
    (2, 1, false),
    (3, 1, false),
    // sums that do not fit into 32 bits
    (0xFFFF_FFFC, 1, false),
    (0xFFFF_FFFC, 0xFFFF_FFFF, false),
    (4, 0x3FFF_FFFF, false),
    (0, 0x4000_0000, false),
];

#[test]
fn ranges_at_their_ends(rt: HostRuntime) {
    let policy = Compartments::new(2, 32);
    for &(base, words, lies) in RANGES {
        let range = Some(Words { base, count: words });
        let expected = if lies { Ok(range) } else { Err(NO_RANGE) };
        for service in [32, 33, 34] {
            assert!(rt; range_of(&policy, service, base, words, 1) == Some(expected));
        }
    }
}

/// Whether the next compartment gets that number. Letting it in takes none.
fn is_numbered(policy: &mut Compartments, number: u32) -> Result<bool, Fail> {
    let answer = Answer {
        value: number,
        tag: PLAIN,
        rest: Rest::Plain,
    };
    let tag = new_tag(policy, 32, 0, place(0, 6, 7));
    let split = carried_out(policy, 32, 0)?.ok_or("a number is left")?;
    let let_in = carried_out(policy, 33, number)?.ok_or("a compartment of that number")?;
    Ok(
        tag == Some(Ok(place(number, 0, 0)))
            && split.answer == Some(answer)
            && let_in.answer.is_none()
            && !split.zero
            && !let_in.zero,
    )
}

#[test]
fn compartments_are_numbered_until_they_are_spent(rt: HostRuntime) -> Result<(), Fail> {
    let mut policy = Compartments::new(1, 32);
    for number in 1..32 {
        assert!(rt; is_numbered(&mut policy, number)?, "at {number}");
    }
    assert!(rt; range_of(&policy, 32, 0, 1, 0) == Some(Err(PlanEnd::Spent)));
    Ok(())
}

#[test]
fn compartments_past_the_32nd(rt: HostRuntime) -> Result<(), Fail> {
    // the number of the next compartment, where there may be 128
    for number in [31, 32, 63, 64, 126, 127] {
        let mut policy = Compartments::new(number, 128);
        assert!(rt; is_numbered(&mut policy, number)?, "at {number}");
    }
    let mut last = Compartments::new(127, 128);
    assert!(rt; is_numbered(&mut last, 127)?);
    assert!(rt; range_of(&last, 32, 0, 1, 0) == Some(Err(PlanEnd::Spent)));
    Ok(())
}

#[test]
fn words_that_are_split_off_or_let(rt: HostRuntime) {
    // service, a2, the word's tag, its new tag; there are two compartments where a word is split off, else all 128
    let rows = [
        (33, 0, place(0, 0, 0), Some(place(0, 1, 0))),
        (33, 31, place(0, 1, 2), Some(place(0, 0x8000_0001, 2))),
        (33, 1, place(0, 2, 0), Some(place(0, 2, 0))),
        (34, 3, place(0, 1, 2), Some(place(0, 1, 10))),
        (34, 31, place(0, 1, 2), Some(place(0, 1, 0x8000_0002))),
        (33, 32, place(0, 1, 2), Some(place(0, 0x1_0000_0001, 2))),
        (34, 127, place(0, 1, 2), Some(place(0, 1, (1 << 127) + 2))),
        // the words of another, even where the caller may enter and write them
        (32, 0, place(1, 1, 1), None),
        (33, 1, place(1, 1, 1), None),
        (34, 1, place(1, 1, 1), None),
        (34, 1, PLAIN, None),
        (34, 1, pc(0, false), None),
    ];
    for (service, a2, old, new) in rows {
        let expected = match new {
            Some(new) => Ok(new),
            None => Err(refused(Part::Comp, Why::NotOwner)),
        };
        let policy = Compartments::new(if service == 32 { 2 } else { 128 }, 128);
        let tag = new_tag(&policy, service, a2, old);
        assert!(rt; tag == Some(expected));
    }
}

#[test]
fn consent_to_zeroing(rt: HostRuntime) {
    let policy = Compartments::new(3, 32);
    // the new pc's tag, the word's tag, whether the word may be zeroed
    let rows = [
        (pc(2, false), place(2, 0, 0), true),
        (pc(2, true), place(1, 0, 0b100), true),
        (pc(2, false), place(1, 0b100, 0b011), false),
        (pc(2, false), PLAIN, false),
        (PLAIN, place(0, 0, u128::MAX), false),
    ];
    for (pc, old, consents) in &rows {
        let expected = consents
            .then_some(*old)
            .ok_or(refused(Part::Comp, Why::Consent));
        assert!(rt; policy.wipe(*pc, *old) == expected);
    }
}

fn pc(owner: u32, jumped: bool) -> CompartmentTag {
    CompartmentTag::Pc { owner, jumped }
}

/// The tag of a word, the sets by their bits.
fn place(owner: u32, into: u128, write: u128) -> CompartmentTag {
    CompartmentTag::Place {
        owner,
        into: CompartmentSet::of_bits(into),
        write: CompartmentSet::of_bits(write),
    }
}

/// The inputs of a rule with these tags of the pc, the instruction and the memory word.
fn inputs(
    pc: CompartmentTag,
    instruction: CompartmentTag,
    word: CompartmentTag,
) -> Ins<CompartmentTag> {
    Ins {
        pc,
        ci: instruction,
        t1: PLAIN,
        t2: PLAIN,
        tm: word,
    }
}

/// The arguments of a service in a memory of 64 bytes.
fn arguments(base: u32, words: u32, a2: u32) -> Args<CompartmentTag> {
    Args {
        a0: base,
        a1: words,
        a2,
        t0: PLAIN,
        t1: PLAIN,
        t2: PLAIN,
        ram: RAM,
    }
}

/// Whether the rule of the group gives these tags of the pc and of the result, or refuses where there are none.
fn is_answered(
    group: Group,
    inputs: Ins<CompartmentTag>,
    outs: Option<(CompartmentTag, CompartmentTag)>,
) -> bool {
    let answer = match outs {
        Some((pc, result)) => Ok(Outs { pc, result }),
        None => Err(refused(Part::Comp, Why::Rule(group))),
    };
    Compartments::new(6, 32).rule(group, inputs) == answer
}

/// The range of a service that is called from a word of compartment 0; none of one that the policy doesn't know.
fn range_of(
    policy: &Compartments,
    service: u32,
    base: u32,
    words: u32,
    a2: u32,
) -> Option<Result<Option<Words>, PlanEnd>> {
    if !policy.knows(service) {
        return None;
    }
    match policy.plan(service, &arguments(base, words, a2), pc(0, false)) {
        Ok(plan) => Some(Ok(plan.range)),
        Err(end) => Some(Err(end)),
    }
}

/// The new tag of a word for which a compartment's service is called from a word of compartment 0; none without a plan.
fn new_tag(
    policy: &Compartments,
    service: u32,
    a2: u32,
    old: CompartmentTag,
) -> Option<Result<CompartmentTag, Refused>> {
    if !policy.knows(service) {
        return None;
    }
    match policy.plan(service, &arguments(0, 1, a2), pc(0, false)) {
        Ok(plan) => Some(policy.retag(&plan, old)),
        Err(_) => None,
    }
}

/// The plan of a service for the first word, which is carried out; none without a plan.
fn carried_out(
    policy: &mut Compartments,
    service: u32,
    a2: u32,
) -> Result<Option<Plan<CompartmentTag>>, Fail> {
    if !policy.knows(service) {
        return Ok(None);
    }
    match policy.plan(service, &arguments(0, 1, a2), pc(0, false)) {
        Ok(plan) => {
            policy.commit(&plan)?;
            Ok(Some(plan))
        }
        Err(_) => Ok(None),
    }
}
