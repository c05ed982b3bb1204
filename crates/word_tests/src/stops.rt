//! The line of each kind of stop, as docs/MACHINE.md has them.

use policy_trait::{Part, Why};
use pump_words::Line;
use rv_decode::Group;
use rv_step::Fault;
use tag_text::write_stop_line;
use turn_steps::Stop;

/// A fault, and the line of hart 1 stopped by it.
const FAULTS: &[(Fault, &[u8])] = &[
    (Fault::Fetch(0x4), b"stop 1 fault fetch 00000004\n"),
    (Fault::Illegal(0x100F), b"stop 1 fault illegal 0000100F\n"),
    (Fault::LoadAlign(2), b"stop 1 fault loadalign 00000002\n"),
    (
        Fault::StoreAlign(0xABCDEF01),
        b"stop 1 fault storealign ABCDEF01\n",
    ),
    (Fault::LoadRange(0x40), b"stop 1 fault loadrange 00000040\n"),
    (
        Fault::StoreRange(0xFFFFFFFC),
        b"stop 1 fault storerange FFFFFFFC\n",
    ),
    (Fault::JumpAlign(2), b"stop 1 fault jumpalign 00000002\n"),
    (Fault::NoService(16), b"stop 1 fault noservice 16\n"),
    (Fault::Spent(17), b"stop 1 fault spent 17\n"),
];

/// A policy, why it refused, and the line of hart 3 stopped at 0000001C.
const REFUSALS: &[(Part, Why, &[u8])] = &[
    (
        Part::Seal,
        Why::WrongKey,
        b"stop 3 violation seal wrongkey pc 0000001C\n",
    ),
    (
        Part::Seal,
        Why::Range,
        b"stop 3 violation seal range pc 0000001C\n",
    ),
    (
        Part::Comp,
        Why::Args,
        b"stop 3 violation comp args pc 0000001C\n",
    ),
    (
        Part::Comp,
        Why::Lend,
        b"stop 3 violation comp lend pc 0000001C\n",
    ),
    (
        Part::Flow,
        Why::Consent,
        b"stop 3 violation flow consent pc 0000001C\n",
    ),
    (
        Part::Flow,
        Why::Rule(Group::Put),
        b"stop 3 violation flow rule(put) pc 0000001C\n",
    ),
    (
        Part::Heap,
        Why::NotOwner,
        b"stop 3 violation heap notowner pc 0000001C\n",
    ),
    (
        Part::Heap,
        Why::NotLive,
        b"stop 3 violation heap notlive pc 0000001C\n",
    ),
    (
        Part::Secret,
        Why::Peek,
        b"stop 3 violation secret peek pc 0000001C\n",
    ),
    (
        Part::Own,
        Why::Lend,
        b"stop 3 violation own lend pc 0000001C\n",
    ),
    (
        Part::Own,
        Why::Rule(Group::Jalr),
        b"stop 3 violation own rule(jalr) pc 0000001C\n",
    ),
];

/// A group, and the line where its rule is refused at 89ABCDE0.
const GROUPS: &[(Group, &[u8])] = &[
    (
        Group::Const,
        b"stop 0 violation seal rule(const) pc 89ABCDE0\n",
    ),
    (
        Group::Here,
        b"stop 0 violation seal rule(here) pc 89ABCDE0\n",
    ),
    (Group::Jal, b"stop 0 violation seal rule(jal) pc 89ABCDE0\n"),
    (
        Group::Jalr,
        b"stop 0 violation seal rule(jalr) pc 89ABCDE0\n",
    ),
    (
        Group::Branch,
        b"stop 0 violation seal rule(branch) pc 89ABCDE0\n",
    ),
    (
        Group::LoadWord,
        b"stop 0 violation seal rule(loadword) pc 89ABCDE0\n",
    ),
    (
        Group::LoadPart,
        b"stop 0 violation seal rule(loadpart) pc 89ABCDE0\n",
    ),
    (
        Group::StoreWord,
        b"stop 0 violation seal rule(storeword) pc 89ABCDE0\n",
    ),
    (
        Group::StorePart,
        b"stop 0 violation seal rule(storepart) pc 89ABCDE0\n",
    ),
    (
        Group::Move,
        b"stop 0 violation seal rule(move) pc 89ABCDE0\n",
    ),
    (
        Group::AddImm,
        b"stop 0 violation seal rule(addimm) pc 89ABCDE0\n",
    ),
    (
        Group::AluImm,
        b"stop 0 violation seal rule(aluimm) pc 89ABCDE0\n",
    ),
    (Group::Add, b"stop 0 violation seal rule(add) pc 89ABCDE0\n"),
    (Group::Sub, b"stop 0 violation seal rule(sub) pc 89ABCDE0\n"),
    (Group::Alu, b"stop 0 violation seal rule(alu) pc 89ABCDE0\n"),
    (
        Group::Fence,
        b"stop 0 violation seal rule(fence) pc 89ABCDE0\n",
    ),
    (
        Group::Exit,
        b"stop 0 violation seal rule(exit) pc 89ABCDE0\n",
    ),
    (Group::Put, b"stop 0 violation seal rule(put) pc 89ABCDE0\n"),
    (Group::Get, b"stop 0 violation seal rule(get) pc 89ABCDE0\n"),
    (
        Group::Break,
        b"stop 0 violation seal rule(break) pc 89ABCDE0\n",
    ),
    (
        Group::Call,
        b"stop 0 violation seal rule(call) pc 89ABCDE0\n",
    ),
];

/// Whether this is the line of a stop of the hart.
fn is_line(h: u32, why: Stop, wanted: &[u8]) -> bool {
    let mut line = Line::new();
    write_stop_line(&mut line, h, why);
    line.as_slice() == wanted
}

/// The violation of a policy at that pc.
fn violation(part: Part, why: Why, pc: u32) -> Stop {
    Stop::Violation { part, why, pc }
}

#[test]
fn stops_are_told(rt: HostRuntime) {
    assert!(rt; is_line(0, Stop::Exit(0), b"stop 0 exit 0\n"));
    assert!(rt; is_line(7, Stop::Exit(4294967295), b"stop 7 exit 4294967295\n"));
    for &(fault, wanted) in FAULTS {
        assert!(rt; is_line(1, Stop::Fault(fault), wanted));
    }
    for &(part, why, wanted) in REFUSALS {
        assert!(rt; is_line(3, violation(part, why, 0x1C), wanted));
    }
}

#[test]
fn refused_rules_are_told(rt: HostRuntime) {
    for &(group, wanted) in GROUPS {
        assert!(rt;
            is_line(
                0,
                violation(Part::Seal, Why::Rule(group), 0x89ABCDE0),
                wanted
            )
        );
    }
}
