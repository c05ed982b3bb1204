//! Sources of small workloads, and workloads that are assembled.

use asm_emit::assemble_source;
use image_format::{CompartmentRows, Image};
use std::alloc::{AllocError, Global};
use std::test::Fail;
use workload::write_workload;
use workload_laws::assembles_law;

const ONE_BLOCK: &[u8] = b"# Blocks of four kinds, by a sequence of numbers.
.harts 1
.ram 65536
.heap 0xF000, 4096
.entry 0, 0
.edge 1, 2
.edge 3, 4
.edge 5, 4
j 20
.label 2
nop
.label 3
ret
.comp 1, 0x1, 0
nop
.label 5
ret
.comp 0, 0, 0
# a jump by a register, and back
li t0, 4
.label 1
jalr ra, 0(t0)
.label 4
nop
# the end
li a0, 0
li a7, 0
ecall
";

/// What stands behind the head in a workload of two.
const TWO_BLOCKS: &[u8] = b"# a number is sealed and unsealed
li a7, 16
ecall
mv a1, a0
li a0, 1
li a7, 17
ecall
li a7, 18
ecall
# a block of the heap is asked for, used and freed
li a0, 16
li a7, 48
ecall
mv s0, a0
li t0, 7
sw t0, 4(s0)
lw t1, 4(s0)
mv a0, s0
li a7, 49
ecall
# the end
li a0, 0
li a7, 0
ecall
";

/// Counts of blocks, and of the words, labels and compartment ranges of the image, by the kinds of the blocks.
const WORKLOADS: &[(u32, u32, usize, usize)] = &[
    (1, 11, 5, 1),
    (2, 26, 3, 1),
    (10, 47, 16, 4),
    (1000, 5669, 771, 263),
];

#[test]
fn is_written_block_by_block(rt: HostRuntime) -> Result<(), Fail> {
    let one = write_workload(rt.alloc(), 1)?;
    assert!(rt; one.as_slice() == ONE_BLOCK);
    let two = write_workload(rt.alloc(), 2)?;
    assert!(rt; two.ends_with(TWO_BLOCKS));
    Ok(())
}

/// How many compartment ranges the image has.
fn range_count(image: &Image) -> usize {
    match image.compartments() {
        CompartmentRows::Narrow(rows) => rows.len(),
        CompartmentRows::Wide(rows) => rows.len(),
    }
}

/// The words, labels and compartment ranges of the image of so many blocks, whose words are one segment and one code range
/// at 0; `None` where it is another.
fn counted(alloc: Global, count: u32) -> Result<Option<(u32, usize, usize)>, AllocError> {
    let source = write_workload(alloc, count)?;
    let Ok(image) = assemble_source(alloc, &source) else {
        return Ok(None);
    };
    match image.code() {
        [range] if range.address == 0 && image.segment_count() == 1 => Ok(Some((
            range.words,
            image.labels().len(),
            range_count(&image),
        ))),
        _ => Ok(None),
    }
}

#[test]
fn is_assembled_whole(rt: HostRuntime) -> Result<(), Fail> {
    assembles_law();
    for &(count, words, labels, ranges) in WORKLOADS {
        assert!(rt;
            counted(rt.alloc(), count)? == Some((words, labels, ranges)),
            "{count} blocks"
        );
    }
    Ok(())
}
