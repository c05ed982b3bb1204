//! The source of a workload.

ghost use Rattle.std.specs.Prelude.{◌≡◌, ℕ, ◌+◌, ◌%◌, ◌++◌, IfOk, OnOk};
ghost use Rattle.workload.specs.Source.{
  block_lines,
  lines_of_blocks,
  sealing_lines,
  source_of_workload,
  text_of,
};

use crate::kinds::{BlockKind, kind_of, number_after};
use pump_words::{Line, dec};
use std::alloc::{AllocError, Global};

/// The machine, and the words at 0 that the blocks jump to.
const HEAD: &[u8] = b"# Blocks of four kinds, by a sequence of numbers.
.harts 1
.ram 65536
.heap 0xF000, 4096
.entry 0, 0
.edge 1, 2
.edge 3, 4
.edge 5, 4
j 20
.label 2
nop
.label 3
ret
.comp 1, 0x1, 0
nop
.label 5
ret
.comp 0, 0, 0
";

/// A block that seals a number, up to the number.
const BEFORE_NUMBER: &[u8] = b"# a number is sealed and unsealed
li a7, 16
ecall
mv a1, a0
li a0, ";

/// The rest of that block.
const BEHIND_NUMBER: &[u8] = b"
li a7, 17
ecall
li a7, 18
ecall
";

const HEAP_BLOCK: &[u8] = b"# a block of the heap is asked for, used and freed
li a0, 16
li a7, 48
ecall
mv s0, a0
li t0, 7
sw t0, 4(s0)
lw t1, 4(s0)
mv a0, s0
li a7, 49
ecall
";

const FLOW_BLOCK: &[u8] = b"# a jump by a register, and back
li t0, 4
.label 1
jalr ra, 0(t0)
.label 4
nop
";

const COMPARTMENTS_BLOCK: &[u8] = b"# a call of compartment 1
jal ra, 12
.label 4
.comp 0, 0x2, 0
nop
.comp 0, 0, 0
";

const END: &[u8] = b"# the end
li a0, 0
li a7, 0
ecall
";

/// Appends a block that seals the number 1 + `index` mod 1024.
#[tactic(auto, unfolding(crate::specs::Source::text_of))]
fn push_sealing_block(source: &mut Vec<u8>, index: u32) -> Result<(), AllocError>
    ensures { OnOk result (source.new.items ≡ source.old.items
        ++ text_of (sealing_lines (1 + index % 1024))) }
{
    let mut number = Line::new();
    dec(&mut number, u64::from(1 + index % 1024));
    source.extend_from_slice(BEFORE_NUMBER)?;
    source.extend_from_slice(&number)?;
    source.extend_from_slice(BEHIND_NUMBER)?;
    Ok(())
}

/// Appends the block of a kind that has this place among the blocks, counted from 0.
#[tactic(auto, unfolding(crate::specs::Source::text_of))]
fn push_block(source: &mut Vec<u8>, kind: BlockKind, index: u32) -> Result<(), AllocError>
    ensures { OnOk result (source.new.items ≡ source.old.items
        ++ text_of (block_lines kind index)) }
{
    match kind {
        BlockKind::Sealing => push_sealing_block(source, index)?,
        BlockKind::Heap => source.extend_from_slice(HEAP_BLOCK)?,
        BlockKind::Flow => source.extend_from_slice(FLOW_BLOCK)?,
        BlockKind::Compartments => source.extend_from_slice(COMPARTMENTS_BLOCK)?,
    }
    Ok(())
}

/// Appends so many blocks, whose kinds the numbers behind `count` choose.
fn push_blocks(source: &mut Vec<u8>, count: u32) -> Result<(), AllocError>
    ensures { OnOk result (source.new.items ≡ source.old.items
        ++ text_of (lines_of_blocks count 0 count)) }
{
    let mut number = count;
    for index in 0..count {
        number = number_after(number);
        push_block(source, kind_of(number), index)?;
    }
    Ok(())
}

/// The source of a workload of `count` blocks, for the assembler. Its lines are told in the crate's `specs/Source.antt`, and the
/// kinds of its blocks in `specs/Kinds.antt`. A workload of 1 to 1000 blocks has room in its machine's RAM of 65536 bytes, below
/// the heap of 4096 bytes at its end; one of more may be too long to be assembled. The only error is that memory ran out.
pub fn write_workload(alloc: Global, count: u32) -> Result<Vec<u8>, AllocError>
    ensures { IfOk result (λ source. source.items ≡ source_of_workload count) }
{
    let mut source = Vec::new(alloc);
    source.extend_from_slice(HEAD)?;
    push_blocks(&mut source, count)?;
    source.extend_from_slice(END)?;
    Ok(source)
}
