//! Tags changed by one function, and sets of compartments.

use crate::raising::Raising;
use policy_trait::{Answer, Args, CompartmentSet, Ins, Plan, Rest, Words};
use pump_words::Line;

#[test]
fn tags_of_rules_and_services_are_changed(rt: HostRuntime) {
    let inputs = Ins {
        pc: 1,
        ci: 2,
        t1: 3,
        t2: 4,
        tm: 5,
    };
    let changed = Ins {
        pc: 101,
        ci: 102,
        t1: 103,
        t2: 104,
        tm: 105,
    };
    assert!(rt; inputs.map(&Raising { by: 100 }) == changed);
    let arguments = Args {
        a0: 1,
        a1: 2,
        a2: 3,
        t0: 4,
        t1: 5,
        t2: 6,
        ram: 7,
    };
    let changed = Args {
        a0: 1,
        a1: 2,
        a2: 3,
        t0: 104,
        t1: 105,
        t2: 106,
        ram: 7,
    };
    assert!(rt; arguments.map(&Raising { by: 100 }) == changed);
    assert!(rt; plan(1_u8, 2_u8).map(&Raising { by: 100 }) == plan(101_u64, 102_u64));
}

#[test]
fn compartments_of_a_set(rt: HostRuntime) {
    let low = CompartmentSet::empty().with(1).with(31).with(1);
    assert_eq!(rt; low.bits(), 0x8000_0002);
    assert!(rt; low == CompartmentSet::of_bits(0x8000_0002));
    let set = low.with(63).with(64).with(127);
    assert!(rt; set.bits() == 0x8000_0000_0000_0001_8000_0000_8000_0002);
    // number, whether it is in the set
    let rows = [
        (0, false),
        (1, true),
        (2, false),
        (30, false),
        (31, true),
        (32, false),
        (33, false),
        (62, false),
        (63, true),
        (64, true),
        (65, false),
        (126, false),
        (127, true),
        (128, false),
        (0xFFFF_FFFF, false),
    ];
    for (number, is_in) in rows {
        assert!(rt; set.has(number) == is_in, "at {number}");
    }
    assert!(rt; !CompartmentSet::of_bits(0xFFFF_FFFF).has(32));
    assert!(rt; CompartmentSet::empty().with(32).bits() == 0x1_0000_0000);
    assert!(rt; !CompartmentSet::of_bits(u128::MAX).has(128));
}

/// The bits of a set, and its text.
const TEXTS: &[(u128, &[u8])] = &[
    (0, b"00000000"),
    (0x8000_0002, b"80000002"),
    (0xFFFF_FFFF, b"FFFFFFFF"),
    (0x1_0000_0000, b"00000000000000000000000100000000"),
    (
        0x0123_4567_89AB_CDEF_FEDC_BA98_7654_3210,
        b"0123456789ABCDEFFEDCBA9876543210",
    ),
    (u128::MAX, b"FFFFFFFFFFFFFFFFFFFFFFFFFFFFFFFF"),
];

#[test]
fn texts_of_sets(rt: HostRuntime) {
    for &(bits, text) in TEXTS {
        let mut line = Line::new();
        CompartmentSet::of_bits(bits).show(&mut line);
        assert!(rt; line.as_slice() == text);
    }
}

/// A plan with these tags of the pc and of the answer.
fn plan<T: Copy>(pc: T, tag: T) -> Plan<T> {
    Plan {
        service: 17,
        pc,
        note: 3,
        range: Some(Words { base: 8, count: 2 }),
        zero: true,
        answer: Some(Answer {
            value: 9,
            tag,
            rest: Rest::AsA0,
        }),
    }
}
