//! What the toy policy answers, on and off and beside sealing, and what the policy that is nothing does.

use crate::toy::Toy;
use policy_product::{Both, Maybe, Nothing};
use policy_trait::{
    Answer, Args, Birth, CompartmentSet, Ins, Mask, Outs, Part, Plan, PlanEnd, Policy, Refused,
    Rest, Why,
};
use pump_words::Line;
use rv_decode::Group;
use sealing_policy::{SealTag, Sealing};
use secrecy_policy::{Secrecy, SecretTag};
use std::test::Fail;

fn on() -> Maybe<Toy> {
    Maybe {
        part: Some(Toy::new(3)),
    }
}

fn off() -> Maybe<Toy> {
    Maybe { part: None }
}

/// The pc's tag and the first operand's, and the tags of the pc and of the result that the policy answers where it is on, if it
/// refuses nothing.
type RuleRow = (Option<u32>, Option<u32>, Option<(u32, u32)>);

const RULES: &[RuleRow] = &[
    (Some(1), Some(2), Some((99, 8))),
    (None, Some(2), Some((95, 8))),
    (Some(1), None, Some((99, 5))),
    (Some(1), Some(9), None),
];

/// Whether the policy that is on answers so, and the one that is off allows it.
fn is_kept(&(pc, t1, outs): &RuleRow) -> bool {
    let inputs = Ins {
        pc,
        ci: None,
        t1,
        t2: None,
        tm: None,
    };
    let answer = match outs {
        Some((pc, result)) => Ok(Outs {
            pc: Some(pc),
            result: Some(result),
        }),
        None => Err(refusal(Part::Heap, Group::Add)),
    };
    let allowed = Outs {
        pc: None,
        result: None,
    };
    on().rule(Group::Add, inputs) == answer && off().rule(Group::Add, inputs) == Ok(allowed)
}

#[test]
fn rules_on_and_off(rt: HostRuntime) {
    for row in RULES {
        assert!(rt; is_kept(row));
    }
}

#[test]
fn answers_of_a_policy_that_is_off(rt: HostRuntime) {
    let off = off();
    let all = Mask {
        pc: true,
        ci: true,
        t1: true,
        t2: true,
        tm: true,
    };
    assert!(rt; off.ignores(Group::Add) == all);
    assert!(rt; off.plain().is_none() && !off.knows(40) && off.listed(7).is_none());
    assert!(rt; off.lend(Some(9)) == Ok(()) && off.wipe(Some(1), Some(2)) == Ok(None));
    assert!(rt; off.start_pc(&birth()).is_none() && off.start_word(&birth()).is_none());
    let mut line = Line::new();
    off.show(Some(1), &mut line);
    assert!(rt; line.as_slice().is_empty());
}

#[test]
fn answers_of_a_policy_that_is_on(rt: HostRuntime) {
    let on = on();
    let some = Mask {
        pc: false,
        ci: true,
        t1: false,
        t2: true,
        tm: true,
    };
    assert!(rt; on.ignores(Group::Add) == some);
    assert!(rt; on.plain() == Some(5) && on.listed(7) == Some((7, 4, 1)));
    assert!(rt; on.knows(40) && !on.knows(41) && on.uses(40) == 1);
    assert!(rt; on.lend(Some(9)) == Err(Part::Heap) && on.lend(None) == Ok(()));
    assert!(rt; on.wipe(None, Some(2)) == Ok(Some(5)));
    assert!(rt; on.start_pc(&birth()) == Some(12) && on.start_word(&birth()) == Some(2));
    let mut line = Line::new();
    on.show(None, &mut line);
    assert!(rt; line.as_slice() == b"toy".as_slice());
}

#[test]
fn plan_of_a_service(rt: HostRuntime) {
    let arguments = Args {
        a0: 77,
        a1: 0,
        a2: 0,
        t0: None,
        t1: None,
        t2: None,
        ram: 12,
    };
    let wanted = Answer {
        value: 3,
        tag: Some(5),
        rest: Rest::Plain,
    };
    let on = Maybe {
        part: Some(Toy::new(3)),
    };
    let planned = on.plan(40, &arguments, Some(1));
    assert!(rt;
        matches!(planned, Ok(Plan { pc: Some(1), note: 77, answer: Some(answer), .. }) if answer == wanted)
    );
}

/// Sealing beside the toy policy.
fn pair() -> Both<Sealing, Toy> {
    Both::new(Sealing::new(), Toy::new(3))
}

fn refusal(part: Part, group: Group) -> Refused {
    Refused {
        part,
        why: Why::Rule(group),
    }
}

/// Tags of the pair.
type Tags = (SealTag, u32);

const PLAIN: Tags = (SealTag::Data, 5);

/// The first operand's tags, and those of the result of an addition of a constant, or the part that refuses it.
const SUMS: &[(Tags, Result<Tags, Part>)] = &[
    ((SealTag::Data, 7), Ok((SealTag::Data, 3))),
    ((SealTag::Key(0), 7), Err(Part::Seal)),
    ((SealTag::Data, 9), Err(Part::Heap)),
    ((SealTag::Key(0), 9), Err(Part::Seal)),
];

/// Whether the pair answers so at a plain pc.
fn is_added(&(t1, wanted): &(Tags, Result<Tags, Part>)) -> bool {
    let inputs = Ins {
        pc: PLAIN,
        ci: PLAIN,
        t1,
        t2: PLAIN,
        tm: PLAIN,
    };
    let answer = match wanted {
        Ok(result) => Ok(Outs {
            pc: (SealTag::Data, 95),
            result,
        }),
        Err(part) => Err(refusal(part, Group::AddImm)),
    };
    pair().rule(Group::AddImm, inputs) == answer
}

#[test]
fn the_left_part_refuses_first(rt: HostRuntime) {
    for row in SUMS {
        assert!(rt; is_added(row));
    }
}

#[test]
fn an_input_is_ignored_where_both_ignore_it(rt: HostRuntime) {
    // Sealing ignores the pc, and the toy policy all but the pc and the first operand.
    let mask = pair().ignores(Group::Const);
    assert!(rt; !mask.pc && !mask.ci && !mask.t1 && mask.t2 && mask.tm);
    let mask = pair().ignores(Group::Add);
    assert!(rt; !mask.t2 && mask.tm);
}

/// A service, the tags of a0 and a1, and the tags of the answer, or the part that doesn't lend.
type PlanRow = (u32, Tags, Tags, Result<Tags, Part>);

const PLANS: &[PlanRow] = &[
    (40, (SealTag::Key(0), 5), PLAIN, Err(Part::Seal)),
    (
        17,
        (SealTag::Data, 9),
        (SealTag::Key(0), 5),
        Err(Part::Heap),
    ),
    (
        17,
        (SealTag::Data, 5),
        (SealTag::Key(0), 9),
        Err(Part::Heap),
    ),
    // the rest of the answer's tag is plain at 16, and that of a0 at 17
    (16, (SealTag::Data, 7), PLAIN, Ok((SealTag::Key(0), 5))),
    (
        17,
        (SealTag::Data, 7),
        (SealTag::Key(4), 5),
        Ok((SealTag::Sealed(4), 7)),
    ),
    (40, (SealTag::Data, 7), PLAIN, Ok((SealTag::Data, 7))),
];

/// Whether the pair plans so.
fn is_planned(&(number, t0, t1, wanted): &PlanRow) -> bool {
    let policy = pair();
    if !policy.knows(number) {
        return false;
    }
    let arguments = Args {
        a0: 77,
        a1: 0,
        a2: 0,
        t0,
        t1,
        t2: PLAIN,
        ram: 12,
    };
    match (policy.plan(number, &arguments, PLAIN), wanted) {
        (Ok(plan), Ok(tag)) => plan.answer.is_some_and(|answer| answer.tag == tag),
        (Err(PlanEnd::Refused(refused)), Err(part)) => {
            refused
                == Refused {
                    part,
                    why: Why::Lend,
                }
        }
        _ => false,
    }
}

#[test]
fn services_are_lent_and_answer_for_both(rt: HostRuntime) {
    for row in PLANS {
        assert!(rt; is_planned(row));
    }
}

/// The tags of a0 at a service of the toy policy, and who doesn't lend it: sealing within the pair, or secrecy beside the pair.
type LendRow = ((Tags, SecretTag), Part);

const LENDERS: &[LendRow] = &[
    (((SealTag::Key(0), 5), SecretTag::Open), Part::Seal),
    (((SealTag::Data, 5), SecretTag::Secret), Part::Secret),
    (((SealTag::Key(0), 5), SecretTag::Secret), Part::Seal),
];

/// Whether that part of the pair beside secrecy is the first that doesn't lend a0.
fn is_declined(policy: &Both<Both<Sealing, Toy>, Secrecy>, &(t0, part): &LendRow) -> bool {
    if !policy.knows(40) {
        return false;
    }
    let plain = policy.plain();
    let arguments = Args {
        a0: 77,
        a1: 0,
        a2: 0,
        t0,
        t1: plain,
        t2: plain,
        ram: 12,
    };
    match policy.plan(40, &arguments, plain) {
        Err(PlanEnd::Refused(refused)) => {
            refused
                == Refused {
                    part,
                    why: Why::Lend,
                }
        }
        _ => false,
    }
}

#[test]
fn parts_within_the_owner_are_asked_to_lend_first(rt: HostRuntime) -> Result<(), Fail> {
    let policy = Both::new(pair(), Secrecy::new(rt.alloc(), &[])?);
    for row in LENDERS {
        assert!(rt; is_declined(&policy, row));
    }
    Ok(())
}

#[test]
fn texts_are_joined(rt: HostRuntime) {
    let pair = pair();
    let mut line = Line::new();
    pair.show((SealTag::Key(3), 5), &mut line);
    assert!(rt; line.as_slice() == b"key(3)|toy".as_slice());
    assert!(rt; pair.listed(7) == Some((7, 4, 1)) && pair.right().noted == 3);
    assert!(rt; pair.left().knows(16));
    let mut other = Line::new();
    Both::new(Nothing, Sealing::new()).show(((), SealTag::Data), &mut other);
    assert!(rt; other.as_slice() == b"data".as_slice());
}

#[test]
fn answers_of_the_policy_that_is_nothing(rt: HostRuntime) {
    let inputs = Ins {
        pc: (),
        ci: (),
        t1: (),
        t2: (),
        tm: (),
    };
    let allowed = Ok(Outs { pc: (), result: () });
    for group in [Group::StoreWord, Group::Jalr, Group::Call] {
        assert!(rt; Nothing.rule(group, inputs) == allowed && Nothing.ignores(group).tm);
    }
    for number in [16, 32, 48] {
        assert!(rt; !Nothing.knows(number));
    }
    let mut line = Line::new();
    Nothing.show((), &mut line);
    assert!(rt; line.as_slice().is_empty());
}

fn birth() -> Birth {
    Birth {
        owner: 2,
        into: CompartmentSet::of_bits(12),
        write: CompartmentSet::empty(),
        code: false,
        label: None,
        heap: false,
    }
}
