//! Words with their texts, which are read and put back into words.

use crate::answers::is_word;
use asm_laws::reassembly_law;
use asm_read::{AsmErrorKind, line_of};
use asm_show::show_instr;
use asm_words::{Emission, Names, emission_of};
use pump_words::Line;
use std::alloc::Global;

/// An address, a word, and its text there. The words are those of LLVM's assembler; two are no instructions of RV32IM.
const TEXTS: &[(u32, u32, &[u8])] = &[
    (0, 0x0410_0513, b"addi x10, x0, 65"),
    (0, 0xFFF5_B513, b"sltiu x10, x11, -1"),
    (0, 0x0000_12B7, b"lui x5, 0x00001"),
    (8, 0xFFFF_FF97, b"auipc x31, 0xFFFFF"),
    (16, 0xFFDF_F06F, b"jal x0, 0x0000000C"),
    (0xFFFF_FF00, 0x1000_00EF, b"jal x1, 0x00000000"),
    (0, 0x0000_8067, b"jalr x0, 0(x1)"),
    (28, 0xFFF7_0CE3, b"beq x14, x31, 0x00000014"),
    (0xABCD_EF00, 0x0062_F863, b"bgeu x5, x6, 0xABCDEF10"),
    (0, 0xFFC1_2283, b"lw x5, -4(x2)"),
    (0, 0x7FF4_4F03, b"lbu x30, 2047(x8)"),
    (0, 0x0064_2223, b"sw x6, 4(x8)"),
    (0, 0x8073_0023, b"sb x7, -2048(x6)"),
    (0, 0x41F3_5293, b"srai x5, x6, 31"),
    (0, 0x4073_02B3, b"sub x5, x6, x7"),
    (0, 0x0262_83B3, b"mul x7, x5, x6"),
    (0, 0x0262_93B3, b"mulh x7, x5, x6"),
    (0, 0x0262_A3B3, b"mulhsu x7, x5, x6"),
    (0, 0x0262_B3B3, b"mulhu x7, x5, x6"),
    (0, 0x0262_C3B3, b"div x7, x5, x6"),
    (0, 0x0262_D3B3, b"divu x7, x5, x6"),
    (0, 0x0262_E3B3, b"rem x7, x5, x6"),
    (0, 0x0262_F3B3, b"remu x7, x5, x6"),
    (0, 0x0FF0_000F, b"fence"),
    (0, 0x0210_000F, b".word 0x0210000F"),
    (0, 0x0000_0073, b"ecall"),
    (0, 0x0010_0073, b"ebreak"),
    (0, 0xFFFF_FFFF, b".word 0xFFFFFFFF"),
    (0, 0x0473_02B3, b".word 0x047302B3"),
];

/// What the text emits at the address, where no name has a place; nothing where a name stands in front.
fn emitted(alloc: Global, pc: u32, text: &[u8]) -> Result<Emission, AsmErrorKind> {
    let line = line_of(1, text)?;
    let names = Names::new(alloc);
    match (&line.label, &line.statement) {
        (None, Some(statement)) => emission_of(&names, pc, statement),
        _ => Ok(Emission::Nothing),
    }
}

#[test]
fn words_are_shown_and_their_texts_emit_them(rt: HostRuntime) {
    reassembly_law();
    for &(pc, word, text) in TEXTS {
        let mut line = Line::new();
        show_instr(pc, word, &mut line);
        assert_eq!(rt; line.as_slice(), text, "{word} at {pc}");
        let read = emitted(rt.alloc(), pc, line.as_slice());
        assert!(rt; is_word(&read, word), "{word} at {pc}");
    }
}
