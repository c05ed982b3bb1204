//! Values stated by the rules of control-flow integrity: a table of rules, the edges, and zeroing.

use crate::refusals::refused;
use flow_policy::{Flow, FlowTag};
use policy_trait::{Ins, Outs, Part, Policy, Why};
use rv_decode::Group;
use std::alloc::{AllocError, Global};
use std::test::Fail;

const PLAIN: FlowTag = FlowTag::Plain;

const STILL: FlowTag = FlowTag::Still;

const DATA: FlowTag = FlowTag::Data;

const CODE: FlowTag = FlowTag::Code(None);

const FROM_1: FlowTag = FlowTag::From(1);

const FROM_2: FlowTag = FlowTag::From(2);

const CODE_1: FlowTag = FlowTag::Code(Some(1));

const CODE_2: FlowTag = FlowTag::Code(Some(2));

/// A group, the tags of the pc, the instruction and the memory word, and the next tags of the pc and of the result, where it
/// is allowed.
type RuleRow = (Group, FlowTag, FlowTag, FlowTag, Option<(FlowTag, FlowTag)>);

const RULE_ROWS: &[RuleRow] = &[
    (Group::Add, STILL, CODE, PLAIN, Some((STILL, PLAIN))),
    (Group::Add, STILL, CODE_1, PLAIN, Some((STILL, PLAIN))),
    (Group::Add, FROM_1, CODE_2, PLAIN, Some((STILL, PLAIN))),
    (Group::Add, FROM_1, CODE_1, PLAIN, None),
    (Group::Add, FROM_1, CODE, PLAIN, None),
    (Group::Add, FROM_2, CODE_1, PLAIN, None),
    (Group::Add, PLAIN, CODE_1, PLAIN, None),
    (Group::Add, CODE_1, CODE_1, PLAIN, None),
    (Group::Add, STILL, DATA, PLAIN, None),
    (Group::Add, STILL, PLAIN, PLAIN, None),
    (Group::Jal, STILL, CODE_1, PLAIN, Some((STILL, PLAIN))),
    (Group::Jalr, STILL, CODE_1, PLAIN, Some((FROM_1, PLAIN))),
    (Group::Jalr, FROM_1, CODE_2, PLAIN, Some((FROM_2, PLAIN))),
    (Group::Jalr, FROM_2, CODE_1, PLAIN, None),
    (Group::Jalr, STILL, CODE, PLAIN, None),
    (Group::LoadWord, STILL, CODE, CODE_1, Some((STILL, PLAIN))),
    (Group::StoreWord, STILL, CODE, DATA, Some((STILL, DATA))),
    (Group::StoreWord, FROM_1, CODE_2, DATA, Some((STILL, DATA))),
    (Group::StoreWord, FROM_1, CODE, DATA, None),
    (Group::StoreWord, STILL, CODE, CODE_1, None),
    (Group::StoreWord, STILL, CODE, PLAIN, None),
    (Group::StorePart, STILL, CODE, DATA, Some((STILL, DATA))),
    (Group::StorePart, STILL, CODE, CODE, None),
    (Group::Call, STILL, CODE, PLAIN, Some((STILL, PLAIN))),
    (Group::Call, FROM_1, CODE_1, PLAIN, None),
];

/// The source of a jump, its target, and whether that is an edge.
const JUMPS: &[(u32, u32, bool)] = &[
    (7, 1, true),
    (1, 2, true),
    (1, 9, true),
    (4_294_967_295, 0, true),
    (2, 1, false),
    (1, 7, false),
    (9, 2, false),
    (0, 4_294_967_295, false),
];

#[test]
fn rules_of_some_groups(rt: HostRuntime) -> Result<(), Fail> {
    let policy = policy(rt.alloc())?;
    for &(group, pc, ci, tm, outs) in RULE_ROWS {
        let answer = match outs {
            Some((pc, result)) => Ok(Outs { pc, result }),
            None => Err(refused(Part::Flow, Why::Rule(group))),
        };
        assert!(rt; policy.rule(group, inputs(pc, ci, tm)) == answer);
    }
    // along the edges alone
    for &(source, target, is_edge) in JUMPS {
        let jump = inputs(FlowTag::From(source), FlowTag::Code(Some(target)), PLAIN);
        assert!(rt; policy.rule(Group::Fence, jump).is_ok() == is_edge);
    }
    Ok(())
}

#[test]
fn data_alone_is_zeroed(rt: HostRuntime) -> Result<(), Fail> {
    let policy = policy(rt.alloc())?;
    assert!(rt; policy.wipe(STILL, DATA) == Ok(DATA));
    for old in [CODE, FlowTag::Code(Some(1)), PLAIN, STILL] {
        assert!(rt; policy.wipe(STILL, old) == Err(refused(Part::Flow, Why::Consent)));
    }
    Ok(())
}

/// The policy of four edges, which are given in no order, and one of them twice.
fn policy(alloc: Global) -> Result<Flow, AllocError> {
    let largest = 4_294_967_295;
    Flow::new(alloc, &[(7, 1), (1, 9), (largest, 0), (1, 2), (7, 1)])
}

/// Inputs with these tags of the pc, the instruction and the memory word.
fn inputs(pc: FlowTag, ci: FlowTag, tm: FlowTag) -> Ins<FlowTag> {
    Ins {
        pc,
        ci,
        t1: PLAIN,
        t2: PLAIN,
        tm,
    }
}
