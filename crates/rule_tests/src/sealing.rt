//! Values stated by the rules of sealing: a table of rules, and three services.

use crate::refusals::refused;
use policy_trait::{Answer, Args, Ins, Outs, Part, Plan, PlanEnd, Policy, Refused, Rest, Why};
use rv_decode::Group;
use sealing_policy::{SealTag, Sealing};
use std::test::Fail;

const DATA: SealTag = SealTag::Data;

const KEY: SealTag = SealTag::Key(3);

const SEALED: SealTag = SealTag::Sealed(3);

/// A group, its instruction, first and second operand and memory word, and its result, where it is allowed.
type RuleRow = (Group, SealTag, SealTag, SealTag, SealTag, Option<SealTag>);

const RULE_ROWS: &[RuleRow] = &[
    (Group::Move, DATA, SEALED, DATA, DATA, Some(SEALED)),
    (Group::AddImm, DATA, SEALED, DATA, DATA, None),
    (Group::LoadWord, DATA, DATA, DATA, KEY, Some(KEY)),
    (Group::LoadWord, DATA, KEY, DATA, DATA, None),
    (Group::LoadPart, DATA, DATA, DATA, KEY, None),
    (Group::StoreWord, DATA, DATA, SEALED, KEY, Some(SEALED)),
    (Group::StorePart, DATA, DATA, DATA, SEALED, None),
    (Group::Const, DATA, SEALED, KEY, SEALED, Some(DATA)),
    (Group::Call, DATA, SEALED, DATA, DATA, Some(DATA)),
    (Group::Call, DATA, DATA, KEY, DATA, None),
    // no instruction that is not data
    (Group::Fence, SEALED, DATA, DATA, DATA, None),
];

#[test]
fn rules_of_some_groups(rt: HostRuntime) {
    let policy = Sealing::new();
    for &(group, ci, t1, t2, tm, result) in RULE_ROWS {
        let inputs = Ins {
            pc: KEY,
            ci,
            t1,
            t2,
            tm,
        };
        let answer = match result {
            Some(result) => Ok(Outs { pc: DATA, result }),
            None => Err(refused(Part::Seal, Why::Rule(group))),
        };
        assert!(rt; policy.rule(group, inputs) == answer);
    }
}

#[test]
fn keys_are_numbered_until_they_are_spent(rt: HostRuntime) -> Result<(), Fail> {
    let mut policy = Sealing::new();
    for key in 0..65_536 {
        let plan = make_key(&mut policy)?.ok_or("a key is left")?;
        let answer = Answer {
            value: key,
            tag: SealTag::Key(key),
            rest: Rest::Plain,
        };
        assert!(rt; plan.answer == Some(answer), "at {key}");
        // a refused making in between takes no number
        let refusal = policy.plan(17, &arguments(SealTag::Data, SealTag::Data), SealTag::Data);
        assert!(rt; refusal == Err(PlanEnd::Refused(refused(Part::Seal, Why::Args))));
    }
    assert!(rt; make_key(&mut policy)?.is_none());
    assert!(rt; make_key(&mut policy)?.is_none());
    Ok(())
}

/// A service, the tags of a0 and a1, and the tag of the answer or why it is refused.
const ANSWERS: &[(u32, SealTag, SealTag, Result<SealTag, Why>)] = &[
    (17, DATA, KEY, Ok(SEALED)),
    (17, DATA, DATA, Err(Why::Args)),
    (17, KEY, KEY, Err(Why::Args)),
    (17, SEALED, KEY, Err(Why::Args)),
    (18, SEALED, KEY, Ok(DATA)),
    (18, SEALED, SealTag::Key(4), Err(Why::WrongKey)),
    (18, SEALED, DATA, Err(Why::Args)),
    (18, SEALED, SEALED, Err(Why::Args)),
    (18, DATA, KEY, Err(Why::Args)),
];

#[test]
fn answers_of_seal_and_unseal(rt: HostRuntime) {
    let policy = Sealing::new();
    for &(service, t0, t1, answer) in ANSWERS {
        let planned = policy.plan(service, &arguments(t0, t1), DATA);
        let answer = match answer {
            Ok(tag) => Ok(Some(Answer {
                value: 77,
                tag,
                rest: Rest::AsA0,
            })),
            Err(why) => Err(PlanEnd::Refused(refused(Part::Seal, why))),
        };
        assert!(rt; planned.map(|plan| plan.answer) == answer);
    }
}

/// Arguments with these tags of a0 and a1. The value in a1 is that of no key.
fn arguments(t0: SealTag, t1: SealTag) -> Args<SealTag> {
    Args {
        a0: 77,
        a1: 99,
        a2: 0,
        t0,
        t1,
        t2: SealTag::Data,
        ram: 64,
    }
}

/// The plan of a new key, which is carried out; none where the keys are spent.
fn make_key(policy: &mut Sealing) -> Result<Option<Plan<SealTag>>, Fail> {
    let arguments = arguments(SealTag::Data, SealTag::Data);
    match policy.plan(16, &arguments, SealTag::Data) {
        Ok(plan) => {
            policy.commit(&plan)?;
            Ok(Some(plan))
        }
        Err(_) => Ok(None),
    }
}
