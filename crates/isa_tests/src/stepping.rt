//! Effects and faults whose values follow from the text of the RISC-V unprivileged ISA.

use crate::given::effect;
use rv_step::{Access, Fault, Width, check, loaded, stored};
use std::test::Fail;

/// A word, its pc, the values of its registers and the bytes of memory; the value of rd, the next pc, and what the check
/// answers.
type Row = (u32, u32, u32, u32, u32, Option<u32>, u32, Result<(), Fault>);

const VALUES: &[Row] = &[
    // lui x5, 1 and auipc x5, 1
    (0x0000_12B7, 8, 0, 0, 256, Some(0x1000), 12, Ok(())),
    (0x0000_1297, 8, 0, 0, 256, Some(0x1008), 12, Ok(())),
    // addi x5, x5, -1 wraps
    (0xFFF2_8293, 8, 0, 0, 256, Some(0xFFFF_FFFF), 12, Ok(())),
    // sltiu x5, x6, -1 and slti x5, x6, -1
    (0xFFF3_3293, 8, 5, 0, 256, Some(1), 12, Ok(())),
    (0xFFF3_2293, 8, 5, 0, 256, Some(0), 12, Ok(())),
    // srai x11, x11, 31 and srli x11, x11, 31
    (
        0x41F5_D593,
        8,
        0x8000_0000,
        0,
        256,
        Some(0xFFFF_FFFF),
        12,
        Ok(()),
    ),
    (0x01F5_D593, 8, 0x8000_0000, 0, 256, Some(1), 12, Ok(())),
    // sub x5, x6, x7 and sll x5, x6, x7 by 33
    (0x4073_02B3, 8, 1, 2, 256, Some(0xFFFF_FFFF), 12, Ok(())),
    (0x0073_12B3, 8, 3, 33, 256, Some(6), 12, Ok(())),
    // jalr x5, 0(x5) at 4 with 17 in x5: bit 0 is cleared, and rd is the place after the jump
    (0x0002_82E7, 4, 17, 0, 256, Some(8), 16, Ok(())),
    // beq x0, x5, 2: it faults where it is taken, and only there
    (0x0050_0163, 4, 0, 1, 256, None, 8, Ok(())),
    (0x0050_0163, 0, 0, 0, 256, None, 2, Err(Fault::JumpAlign(2))),
    // bge x14, x31, -4096 is taken at equal values, and bltu x5, x6, 8 reads no sign
    (0x81F7_5063, 4096, 7, 7, 256, None, 0, Ok(())),
    (0x0062_E463, 0, 1, 0xFFFF_FFFF, 256, None, 8, Ok(())),
];

const ACCESSES: &[Row] = &[
    // lw x5, 2(x0) and lw x5, 64(x0)
    (0x0020_2283, 0, 0, 0, 256, None, 4, Err(Fault::LoadAlign(2))),
    (0x0400_2283, 0, 0, 0, 64, None, 4, Err(Fault::LoadRange(64))),
    (0x0400_2283, 0, 0, 0, 68, None, 4, Ok(())),
    // lw x5, 0(x6) at the last word of the addresses
    (
        0x0003_2283,
        0,
        0xFFFF_FFFC,
        0,
        0x0100_0000,
        None,
        4,
        Err(Fault::LoadRange(0xFFFF_FFFC)),
    ),
    // sh x7, 1(x6), and sb x7, 1(x6), which needs no alignment
    (
        0x0073_10A3,
        0,
        0,
        0,
        256,
        None,
        4,
        Err(Fault::StoreAlign(1)),
    ),
    (0x0073_00A3, 0, 0, 0, 256, None, 4, Ok(())),
    (
        0x0073_00A3,
        0,
        255,
        0,
        256,
        None,
        4,
        Err(Fault::StoreRange(256)),
    ),
];

/// Whether the word does as the row says.
fn is_done(&(word, pc, a, b, ram, value, next, answer): &Row) -> bool {
    match effect(word, pc, a, b) {
        Some(effect) => {
            effect.value == value && effect.next == next && check(&effect, ram) == answer
        }
        None => false,
    }
}

#[test]
fn effects_and_faults_of_words(rt: HostRuntime) {
    for rows in [VALUES, ACCESSES] {
        for row in rows {
            assert!(rt; is_done(row), "word {} at {}", row.0, row.1);
        }
    }
}

#[test]
fn parts_of_words(rt: HostRuntime) {
    let rows = [
        (loaded(0x8070_6050, 7, Width::Byte, true), 0xFFFF_FF80),
        (loaded(0x8070_6050, 7, Width::Byte, false), 0x80),
        (loaded(0x8070_6050, 2, Width::Half, true), 0xFFFF_8070),
        (loaded(0x8070_6050, 0, Width::Half, false), 0x6050),
        (stored(0x8070_6050, 1, Width::Byte, 0x1234), 0x8070_3450),
        (
            stored(0x8070_6050, 2, Width::Half, 0xABCD_1234),
            0x1234_6050,
        ),
    ];
    for (found, wanted) in rows {
        assert!(rt; found == wanted, "{found} for {wanted}");
    }
}

#[test]
fn accesses_are_those_of_the_instruction(rt: HostRuntime) -> Result<(), Fail> {
    let load = Access::Load {
        addr: 11,
        width: Width::Byte,
        signed: false,
    };
    let store = Access::Store {
        addr: 64,
        width: Width::Full,
        value: 9,
    };
    // lbu x5, 3(x6) and sw x10, 64(x0): word, a, b, access
    for (word, a, b, access) in [(0x0033_4283, 8, 0, load), (0x04A0_2023, 0, 9, store)] {
        let effect = effect(word, 0, a, b).ok_or("no instruction")?;
        assert!(rt; effect.access == access, "word {word}");
    }
    Ok(())
}
