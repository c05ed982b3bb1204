//! Values stated by the rules of taint: a table of rules, what is ignored, zeroing, starts and texts.

use crate::refusals::refused;
use policy_trait::{Birth, CompartmentSet, Ins, Mask, Outs, Part, Policy, Why};
use pump_words::Line;
use rv_decode::Group;
use taint_policy::{Taint, TaintTag};

const CLEAN: TaintTag = TaintTag::Clean;

const TAINTED: TaintTag = TaintTag::Tainted;

/// A group, its first and second operand and its memory word, and its result, where it is allowed.
type RuleRow = (Group, TaintTag, TaintTag, TaintTag, Option<TaintTag>);

const RULE_ROWS: &[RuleRow] = &[
    (Group::Get, CLEAN, CLEAN, CLEAN, Some(TAINTED)),
    (Group::Put, TAINTED, TAINTED, CLEAN, Some(CLEAN)),
    (Group::Const, TAINTED, TAINTED, TAINTED, Some(CLEAN)),
    (Group::Move, TAINTED, CLEAN, CLEAN, Some(TAINTED)),
    (Group::AddImm, CLEAN, TAINTED, TAINTED, Some(CLEAN)),
    (Group::Add, CLEAN, TAINTED, CLEAN, Some(TAINTED)),
    (Group::Alu, TAINTED, CLEAN, CLEAN, Some(TAINTED)),
    (Group::Sub, CLEAN, CLEAN, TAINTED, Some(CLEAN)),
    (Group::LoadWord, CLEAN, CLEAN, TAINTED, Some(TAINTED)),
    (Group::LoadWord, TAINTED, CLEAN, CLEAN, Some(TAINTED)),
    (Group::LoadPart, CLEAN, TAINTED, CLEAN, Some(CLEAN)),
    (Group::StoreWord, CLEAN, TAINTED, CLEAN, Some(TAINTED)),
    (Group::StoreWord, CLEAN, CLEAN, TAINTED, Some(CLEAN)),
    (Group::StoreWord, TAINTED, CLEAN, CLEAN, None),
    (Group::StorePart, CLEAN, CLEAN, TAINTED, Some(TAINTED)),
    (Group::StorePart, TAINTED, CLEAN, CLEAN, None),
    (Group::Jalr, TAINTED, CLEAN, CLEAN, None),
    (Group::Branch, TAINTED, TAINTED, CLEAN, Some(CLEAN)),
];

/// Inputs of a rule, at a clean pc.
fn inputs(ci: TaintTag, t1: TaintTag, t2: TaintTag, tm: TaintTag) -> Ins<TaintTag> {
    Ins {
        pc: CLEAN,
        ci,
        t1,
        t2,
        tm,
    }
}

#[test]
fn rules_of_some_groups(rt: HostRuntime) {
    for &(group, t1, t2, tm, result) in RULE_ROWS {
        let answer = match result {
            Some(result) => Ok(Outs { pc: CLEAN, result }),
            None => Err(refused(Part::Own, Why::Rule(group))),
        };
        assert!(rt; Taint.rule(group, inputs(CLEAN, t1, t2, tm)) == answer);
        // no tainted word is executed
        let answer = Err(refused(Part::Own, Why::Rule(group)));
        assert!(rt; Taint.rule(group, inputs(TAINTED, t1, t2, tm)) == answer);
    }
}

#[test]
fn other_answers(rt: HostRuntime) {
    let of_a_store = Mask {
        pc: true,
        ci: false,
        t1: false,
        t2: false,
        tm: true,
    };
    assert!(rt; Taint.ignores(Group::StoreWord) == of_a_store);
    // zero and the start are clean
    let birth = Birth {
        owner: 0,
        into: CompartmentSet::empty(),
        write: CompartmentSet::empty(),
        code: true,
        label: Some(1),
        heap: true,
    };
    assert!(rt; Taint.wipe(CLEAN, TAINTED) == Ok(CLEAN));
    assert!(rt; Taint.start_pc(&birth) == CLEAN);
    assert!(rt; Taint.start_word(&birth) == CLEAN);
    assert!(rt; Taint.plain() == CLEAN);
    assert!(rt; Taint.lend(TAINTED) == Ok(()));
    assert!(rt; !Taint.knows(2) && !Taint.knows(16));
}

#[test]
fn texts_of_tags(rt: HostRuntime) {
    let mut line = Line::new();
    Taint.show(CLEAN, &mut line);
    Taint.show(TAINTED, &mut line);
    assert_eq!(rt; line.as_slice(), b"cleantainted".as_slice());
}
