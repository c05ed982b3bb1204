//! Multiplications and divisions: their words, their groups and places, and what they compute at a negative number, at zero and
//! at the overflow.

use crate::given::{effect, x};
use rv_decode::{Group, Instr, Slot, decode, encode};
use std::test::Fail;

/// -7, as a word.
const MINUS_SEVEN: u32 = 0xFFFF_FFF9;

/// -2^31, as a word: the least signed number.
const LEAST: u32 = 0x8000_0000;

/// A word on x7, x5 and x6, and what it computes of -7 and 2, of -7 and 0, and of -2^31 and -1.
const VALUES: &[(u32, u32, u32, u32)] = &[
    // mul, mulh, mulhsu and mulhu
    (0x0262_83B3, 0xFFFF_FFF2, 0, LEAST),
    (0x0262_93B3, 0xFFFF_FFFF, 0, 0),
    (0x0262_A3B3, 0xFFFF_FFFF, 0, LEAST),
    (0x0262_B3B3, 1, 0, 0x7FFF_FFFF),
    // div, divu, rem and remu
    (0x0262_C3B3, 0xFFFF_FFFD, 0xFFFF_FFFF, LEAST),
    (0x0262_D3B3, 0x7FFF_FFFC, 0xFFFF_FFFF, 0),
    (0x0262_E3B3, 0xFFFF_FFFF, MINUS_SEVEN, 0),
    (0x0262_F3B3, 1, MINUS_SEVEN, LEAST),
];

/// Whether rd becomes this value, and nothing else is done.
fn is_computed(word: u32, a: u32, b: u32, value: u32) -> bool {
    match effect(word, 8, a, b) {
        Some(effect) => effect.value == Some(value) && effect.next == 12 && !effect.taken,
        None => false,
    }
}

#[test]
fn products_and_quotients_are_computed(rt: HostRuntime) {
    for &(word, of_two, of_zero, of_least) in VALUES {
        assert!(rt; is_computed(word, MINUS_SEVEN, 2, of_two), "word {word}");
        assert!(rt; is_computed(word, MINUS_SEVEN, 0, of_zero), "word {word}");
        assert!(rt;
            is_computed(word, LEAST, 0xFFFF_FFFF, of_least),
            "word {word}"
        );
    }
}

#[test]
fn words_of_products_and_quotients_go_both_ways(rt: HostRuntime) -> Result<(), Fail> {
    let (rd, rs1, rs2) = (x(7), x(5), x(6));
    let rows = [
        (0x0262_83B3, Instr::Mul { rd, rs1, rs2 }),
        (0x0262_93B3, Instr::Mulh { rd, rs1, rs2 }),
        (0x0262_A3B3, Instr::Mulhsu { rd, rs1, rs2 }),
        (0x0262_B3B3, Instr::Mulhu { rd, rs1, rs2 }),
        (0x0262_C3B3, Instr::Div { rd, rs1, rs2 }),
        (0x0262_D3B3, Instr::Divu { rd, rs1, rs2 }),
        (0x0262_E3B3, Instr::Rem { rd, rs1, rs2 }),
        (0x0262_F3B3, Instr::Remu { rd, rs1, rs2 }),
    ];
    for (word, instr) in rows {
        assert!(rt; encode(&instr) == word, "word {word}");
        let decoded = decode(word).ok_or("no instruction")?;
        assert!(rt; encode(&decoded) == word, "word {word}");
        assert!(rt; decoded.group(0) == Group::Alu, "word {word}");
        let reads = decoded.reads();
        assert!(rt;
            reads.t1 == Some(rs1) && reads.t2 == Some(rs2),
            "word {word}"
        );
        assert!(rt; decoded.writes(0) == Slot::Reg(rd), "word {word}");
    }
    // opcode 33 with f7 02 is no instruction
    assert!(rt; decode(0x0473_02B3).is_none());
    Ok(())
}
