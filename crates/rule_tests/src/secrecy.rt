//! Values stated by the rules of secrecy: a table of rules, what is ignored, looks, lending, the service and texts.

use crate::refusals::refused;
use policy_trait::{Args, Ins, Mask, Outs, Part, Policy, Rest, Shape, Why};
use pump_words::Line;
use rv_decode::Group;
use secrecy_policy::{Secrecy, SecretTag};
use std::alloc::AllocError;
use std::test::Fail;

const OPEN: SecretTag = SecretTag::Open;

const SECRET: SecretTag = SecretTag::Secret;

/// A group, its first and second operand and its memory word, and its result, where it is allowed.
type RuleRow = (Group, SecretTag, SecretTag, SecretTag, Option<SecretTag>);

const RULE_ROWS: &[RuleRow] = &[
    (Group::Move, SECRET, OPEN, OPEN, Some(SECRET)),
    (Group::AddImm, OPEN, SECRET, SECRET, Some(OPEN)),
    (Group::AluImm, SECRET, OPEN, OPEN, Some(SECRET)),
    (Group::Add, OPEN, SECRET, OPEN, Some(SECRET)),
    (Group::Sub, SECRET, OPEN, OPEN, Some(SECRET)),
    (Group::Alu, OPEN, OPEN, SECRET, Some(OPEN)),
    (Group::LoadWord, OPEN, SECRET, SECRET, Some(SECRET)),
    (Group::LoadWord, SECRET, OPEN, OPEN, None),
    (Group::LoadPart, OPEN, SECRET, OPEN, Some(OPEN)),
    (Group::LoadPart, SECRET, OPEN, OPEN, None),
    (Group::StoreWord, OPEN, SECRET, OPEN, Some(SECRET)),
    (Group::StoreWord, OPEN, OPEN, SECRET, Some(OPEN)),
    (Group::StoreWord, SECRET, OPEN, OPEN, None),
    (Group::StorePart, OPEN, OPEN, SECRET, Some(SECRET)),
    (Group::StorePart, SECRET, OPEN, OPEN, None),
    (Group::Jalr, OPEN, SECRET, SECRET, Some(OPEN)),
    (Group::Jalr, SECRET, OPEN, OPEN, None),
    (Group::Branch, OPEN, SECRET, OPEN, None),
    (Group::Branch, OPEN, OPEN, SECRET, Some(OPEN)),
    (Group::Exit, SECRET, OPEN, OPEN, None),
    (Group::Put, SECRET, OPEN, OPEN, None),
    (Group::Get, OPEN, SECRET, OPEN, None),
    (Group::Call, SECRET, OPEN, OPEN, Some(OPEN)),
    (Group::Call, OPEN, SECRET, OPEN, None),
    (Group::Const, SECRET, SECRET, SECRET, Some(OPEN)),
    (Group::Jal, SECRET, SECRET, SECRET, Some(OPEN)),
];

/// Inputs of a rule, at an open pc.
fn inputs(ci: SecretTag, t1: SecretTag, t2: SecretTag, tm: SecretTag) -> Ins<SecretTag> {
    Ins {
        pc: OPEN,
        ci,
        t1,
        t2,
        tm,
    }
}

#[test]
fn rules_of_each_row(rt: HostRuntime) -> Result<(), Fail> {
    let secrecy = Secrecy::new(rt.alloc(), &[])?;
    for &(group, t1, t2, tm, result) in RULE_ROWS {
        let refusal = refused(Part::Secret, Why::Rule(group));
        let answer = match result {
            Some(result) => Ok(Outs { pc: OPEN, result }),
            None => Err(refusal),
        };
        assert!(rt; secrecy.rule(group, inputs(OPEN, t1, t2, tm)) == answer);
        // no secret word is executed
        assert!(rt; secrecy.rule(group, inputs(SECRET, t1, t2, tm)) == Err(refusal));
    }
    Ok(())
}

#[test]
fn looks_and_lending(rt: HostRuntime) -> Result<(), Fail> {
    let secrecy = Secrecy::new(rt.alloc(), &[])?;
    let refusal = refused(Part::Secret, Why::Peek);
    for shape in [
        Shape::Word,
        Shape::Load,
        Shape::Store,
        Shape::Jump,
        Shape::Branch,
        Shape::Call,
    ] {
        assert!(rt; secrecy.peek(shape, &OPEN, &OPEN).is_ok());
        assert!(rt; secrecy.peek(shape, &SECRET, &OPEN) == Err(refusal));
        assert!(rt; secrecy.peek(shape, &OPEN, &SECRET) == Err(refusal));
    }
    assert!(rt; secrecy.lend(OPEN).is_ok());
    assert!(rt; secrecy.lend(SECRET) == Err(Part::Secret));
    assert!(rt; secrecy.wipe(OPEN, SECRET) == Ok(OPEN));
    let of_a_store = Mask {
        pc: true,
        ci: false,
        t1: false,
        t2: false,
        tm: true,
    };
    assert!(rt; secrecy.ignores(Group::StoreWord) == of_a_store);
    Ok(())
}

/// What service 64 answers now, and that it goes on; `None` where the answer isn't secret and plain to other policies.
fn next_answer(secrecy: &mut Secrecy) -> Result<Option<u32>, AllocError> {
    let arguments = Args {
        a0: 0,
        a1: 0,
        a2: 0,
        t0: OPEN,
        t1: OPEN,
        t2: OPEN,
        ram: 256,
    };
    match secrecy.plan(64, &arguments, OPEN) {
        Ok(plan) => {
            secrecy.commit(&plan)?;
            match plan.answer {
                Some(answer) if answer.tag == SECRET && answer.rest == Rest::Plain => {
                    Ok(Some(answer.value))
                }
                _ => Ok(None),
            }
        }
        Err(_) => Ok(None),
    }
}

/// Has service 64 answer, and takes that back.
fn answer_and_take_back(secrecy: &mut Secrecy) -> Result<(), AllocError> {
    let arguments = Args {
        a0: 0,
        a1: 0,
        a2: 0,
        t0: OPEN,
        t1: OPEN,
        t2: OPEN,
        ram: 256,
    };
    if let Ok(plan) = secrecy.plan(64, &arguments, secrecy.plain()) {
        secrecy.commit(&plan)?;
        secrecy.uncommit(&plan);
    }
    Ok(())
}

#[test]
fn an_answer_taken_back_comes_again(rt: HostRuntime) -> Result<(), Fail> {
    let mut secrecy = Secrecy::new(rt.alloc(), &[7, 255])?;
    for answer in [7, 255, 0xFFFF_FFFF, 0xFFFF_FFFF] {
        answer_and_take_back(&mut secrecy)?;
        assert!(rt; next_answer(&mut secrecy)? == Some(answer));
    }
    Ok(())
}

#[test]
fn bytes_are_answered_in_order(rt: HostRuntime) -> Result<(), Fail> {
    let mut secrecy = Secrecy::new(rt.alloc(), &[7, 255])?;
    assert!(rt; secrecy.knows(64) && !secrecy.knows(63) && !secrecy.knows(65));
    assert!(rt; secrecy.uses(64) == 0);
    for answer in [7, 255, 0xFFFF_FFFF, 0xFFFF_FFFF] {
        assert!(rt; next_answer(&mut secrecy)? == Some(answer));
    }
    Ok(())
}

#[test]
fn texts(rt: HostRuntime) -> Result<(), Fail> {
    let secrecy = Secrecy::new(rt.alloc(), &[])?;
    for (tag, text) in [(OPEN, "open"), (SECRET, "secret")] {
        let mut line = Line::new();
        secrecy.show(tag, &mut line);
        assert!(rt; line.as_slice() == text.as_bytes());
    }
    Ok(())
}
