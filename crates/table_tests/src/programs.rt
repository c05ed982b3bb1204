//! Programs that run over tables of both kinds.

use asm_emit::assemble_source;
use image_format::Image;
use std::alloc::Global;
use std::test::Fail;

/// A program that goes round 26 times and puts a letter each time, from Z to A. Each time it seals the letter under a new
/// key and unseals it, takes a block of the heap and frees it, jumps by a register and back, and calls compartment 1.
pub(crate) const ROUNDS: &[u8] = b"
        .harts  1
        .ram    65536
        .heap   0xF000, 4096
        .entry  0, start
        .edge   1, 2
        .edge   3, 4
        .edge   5, 4
leaf:
        .label  2
        nop
        .label  3
        ret
guest:
        .comp   1, 0x1, 0
        nop
        .label  5
        ret
        .comp   0, 0, 0
start:
        li      s1, 26
round:
        li      a7, 16              # a key
        ecall
        mv      a1, a0
        addi    a0, s1, 64          # the letter, sealed with it
        li      a7, 17
        ecall
        li      a7, 18              # unsealed
        ecall
        li      a7, 1               # and put
        ecall
        li      a0, 16              # a block of the heap
        li      a7, 48
        ecall
        mv      s0, a0
        sw      s1, 4(s0)
        lw      t1, 4(s0)
        mv      a0, s0              # freed
        li      a7, 49
        ecall
        la      t0, leaf            # a jump by a register, and back
        .label  1
        jalr    ra, 0(t0)
        .label  4
        nop
        jal     ra, guest           # a call of compartment 1
        .label  4
        .comp   0, 0x2, 0
        nop
        .comp   0, 0, 0
        addi    s1, s1, -1
        bne     s1, zero, round
        li      a0, 0               # exit
        li      a7, 0
        ecall
";

/// What the program puts out.
pub(crate) const LETTERS: &[u8] = b"ZYXWVUTSRQPONMLKJIHGFEDCBA";

/// Two instructions, again and again.
pub(crate) const LOOP: &[u8] = b"
        .ram    64
start:
        addi    x5, x5, 1
        j       start
";

/// Five instructions, of which three are of one rule, and a fourth is another instruction of that rule.
pub(crate) const LINE: &[u8] = b"
        .ram    64
        addi    x5, x5, 1
        nop
        addi    x5, x5, 1
        fence
        addi    x5, x5, 1
";

/// A key is made, and no instruction stands behind that.
pub(crate) const KEY: &[u8] = b"
        .ram    64
        li      a7, 16
        ecall
";

/// The image of a source.
pub(crate) fn image_of(alloc: Global, source: &[u8]) -> Result<Image, Fail> {
    Ok(assemble_source(alloc, source).ok().ok_or("no image")?)
}
