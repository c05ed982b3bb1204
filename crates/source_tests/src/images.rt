//! Sources, each with what its image has, or its first error.

use asm_emit::assemble;
use asm_read::{AsmEnd, read_source};
use image_format::{CompartmentRows, Image, OwnedRange, Version};
use std::alloc::{AllocError, Global};
use std::process::Abort;
use std::test::Fail;

/// A source, and the version of its image where it is 2, the sizes of the RAM and of the heap region, the entries, and the lists,
/// or its first error.
type Row = (&'static [u8], &'static str);

/// Instructions and data, with their words as LLVM's assembler has them.
const EMITTED: &[Row] = &[
    (
        b"addi x10, x0, 65\nsltiu x10, x11, -1\nsub x5, x6, x7\nsrai x5, x6, 31",
        "65536 0 0 0 seg 0 04100513 FFF5B513 407302B3 41F35293 code 0 4",
    ),
    (
        b"lui x5, 1\nauipc x31, 0xFFFFF\nlw x5, -4(x2)\nlbu x30, 2047(x8)",
        "65536 0 0 0 seg 0 000012B7 FFFFFF97 FFC12283 7FF44F03 code 0 4",
    ),
    (
        b"sw x6, 4(x8)\nsb x7, -2048(x6)\nj 0\nloop: j loop\nj loop",
        "65536 0 0 0 seg 0 00642223 80730023 FF9FF06F 0000006F FFDFF06F code 0 5",
    ),
    (
        b".org 28\nbeq x14, x31, 20",
        "65536 0 0 0 seg 28 FFF70CE3 code 28 1",
    ),
    (
        b"nop\nj loop\n.zero 2\nloop: ret\nfence\necall\nebreak",
        "65536 0 0 0 seg 0 00000013 00C0006F 00000000 00000000 00008067 0FF0000F 00000073 00100073 code 0 8",
    ),
    (
        b"li x5, 4095\nli x5, 2047\nli x5, -2048\nli x5, 0xFFFFFFFF\nli x5, 4096",
        "65536 0 0 0 seg 0 000012B7 FFF28293 7FF00293 80000293 FFF00293 000012B7 code 0 6",
    ),
    (
        b"li x5, 0x7FFFFFFF\nli x5, -2147483648\nla x5, 0",
        "65536 0 0 0 seg 0 800002B7 FFF28293 800002B7 000002B7 00028293 code 0 5",
    ),
    (
        b"la x5, loop\n.word -1\n.word loop\nloop:\n.zero 0",
        "65536 0 0 0 seg 0 000002B7 01028293 FFFFFFFF 00000010 code 0 4",
    ),
];

/// Words and labels.
const WORDS: &[Row] = &[
    (b"", "65536 0 0 0"),
    (b"nop", "65536 0 0 0 seg 0 00000013 code 0 1"),
    (b".data\nnop", "65536 0 0 0 seg 0 00000013"),
    (
        b"nop\n.data\n.word 7\n.text\nret",
        "65536 0 0 0 seg 0 00000013 00000007 00008067 code 0 1 code 8 1",
    ),
    (
        b"nop\n.org 12\nnop",
        "65536 0 0 0 seg 0 00000013 seg 12 00000013 code 0 1 code 12 1",
    ),
    (
        b"li a0, 0x12345678",
        "65536 0 0 0 seg 0 12345537 67850513 code 0 2",
    ),
    (
        b"j end\nnop\nend:",
        "65536 0 0 0 seg 0 0080006F 00000013 code 0 2",
    ),
    (
        b".label 1\n.label 2\nnop\nnop",
        "65536 0 0 0 seg 0 00000013 00000013 code 0 2 label 0 2",
    ),
    (
        b"nop\n.label 3\n.org 8\nnop",
        "65536 0 0 0 seg 0 00000013 seg 8 00000013 code 0 1 code 8 1 label 8 3",
    ),
    (b"nop\n.label 9", "65536 0 0 0 seg 0 00000013 code 0 1"),
    (
        b".label 4294967295\n.zero 2",
        "65536 0 0 0 seg 0 00000000 00000000 code 0 2 label 0 4294967295",
    ),
    (
        b".label 5\n.zero 0\n.zero 1",
        "65536 0 0 0 seg 0 00000000 code 0 1 label 0 5",
    ),
    (
        b".label 7\na: .word a\n.label 8\n.word -1",
        "65536 0 0 0 seg 0 00000000 FFFFFFFF code 0 2 label 0 7 label 4 8",
    ),
];

/// Edges and compartments.
const EDGES_AND_COMPARTMENTS: &[Row] = &[
    (
        b".edge 5, 4\n.edge 1, 10\n.edge 5, 4\n.edge 1, 2\n.edge 4294967295, 0\n.edge 0, 9",
        "65536 0 0 0 edge 0 9 edge 1 2 edge 1 10 edge 5 4 edge 4294967295 0",
    ),
    (b".comp 1, 2, 3", "65536 0 0 0"),
    (
        b".comp 1, 2, 3\nnop\n.data\n.word 1\n.comp 1, 2, 3\n.word 2",
        "65536 0 0 0 seg 0 00000013 00000001 00000002 code 0 1 comp 0 3 1 2 3",
    ),
    (
        b".data\n.comp 1, 2, 3\n.zero 1\n.comp 0, 0, 0\n.zero 1\n.comp 0, 0, 1\n.zero 1",
        "65536 0 0 0 seg 0 00000000 00000000 00000000 comp 0 1 1 2 3 comp 8 1 0 0 1",
    ),
    (
        b".data\n.comp 31, 1, 4294967295\n.zero 1\n.org 8\n.zero 1",
        "65536 0 0 0 seg 0 00000000 seg 8 00000000 comp 0 1 31 1 4294967295 comp 8 1 31 1 4294967295",
    ),
    (
        b".data\n.comp 2, 0, 0\n.zero 1\n.comp 2, 1, 0\n.zero 2",
        "65536 0 0 0 seg 0 00000000 00000000 00000000 comp 0 1 2 0 0 comp 4 2 2 1 0",
    ),
    (
        b".version 2\n.data\n.comp 127, 0x100000000, 340282366920938463463374607431768211455\n.zero 1",
        "version 2 65536 0 0 0 seg 0 00000000 comp 0 1 127 4294967296 340282366920938463463374607431768211455",
    ),
    (
        b".data\n.comp 32, 0, 0\n.zero 2\n.comp 32, 0, 0x10000000000000000\n.zero 1\n.comp 0, 0, 0\n.zero 1\n.version 2",
        "version 2 65536 0 0 0 seg 0 00000000 00000000 00000000 00000000 comp 0 2 32 0 0 comp 8 1 32 0 18446744073709551616",
    ),
];

/// The version, the sizes of the RAM and of the heap region, and the entries.
const SIZES: &[Row] = &[
    (b"", "65536 0 0 0"),
    (b".version 1", "65536 0 0 0"),
    (b".ram 4\n.version 0x2", "version 2 4 0 0 0"),
    (
        b".harts 3\n.entry 2, 8\n.ram 64\n.heap 32, 32",
        "64 32 32 0 0 8",
    ),
    (b".heap 4, 8\n.ram 12", "12 4 8 0"),
    (b".heap 65536, 0", "65536 65536 0 0"),
    (
        b".entry 0, main\nnop\nmain: nop",
        "65536 0 0 4 seg 0 00000013 00000013 code 0 2",
    ),
];

/// What has no place, or isn't in its range.
const ERRORS: &[Row] = &[
    (b"nop\n.heap 2, 4", "line 2 range"),
    (b".heap 4, 65536", "line 1 range"),
    (b".heap -4, 8", "line 1 range"),
    (b".heap 65540, 0", "line 1 range"),
    (b".heap 4, 6", "line 1 range"),
    (b".entry 1, 0", "line 1 range"),
    (b".entry -1, 0", "line 1 range"),
    (b".entry 0, 65536", "line 1 range"),
    (b".entry 0, 2", "line 1 range"),
    (b".entry 1, nowhere", "line 1 noname"),
    (b".label -1", "line 1 range"),
    (b".edge 0, -1", "line 1 range"),
    (b".edge -1, 0", "line 1 range"),
    (b".comp 32, 0, 0", "line 1 range"),
    (b".comp 0, -1, 0", "line 1 range"),
    (b".comp 0, 0, -1", "line 1 range"),
    (b".comp 127, 0, 0", "line 1 range"),
    (b".comp 0, 0x100000000, 0", "line 1 range"),
    (
        b".comp 0, 0, 340282366920938463463374607431768211455",
        "line 1 range",
    ),
    (b".comp 32, 0, 0\n.version 1", "line 1 range"),
    (b".version 2\n.comp 128, 0, 0", "line 2 range"),
    (b".version 2\n.comp -1, 0, 0", "line 2 range"),
    (b".version 2\n.comp 0, -1, 0", "line 2 range"),
    (b".version 2\n.comp 0, 0, -1", "line 2 range"),
    (b"j nowhere\n.label -1", "line 1 noname"),
    (b".label -1\nj nowhere", "line 1 range"),
    (b".label -1\n.org 4\n.org 0", "line 3 order"),
    (b".label -1\n.harts 9", "line 2 range"),
];

/// Operands of instructions and of data that have no place, or aren't in their range.
const OPERAND_ERRORS: &[Row] = &[
    (b"addi x1, x1, 2048", "line 1 range"),
    (b"addi x1, x1, -2049", "line 1 range"),
    (b"addi x1, x1, 4294967295", "line 1 range"),
    (b"lw x1, 2048(x1)", "line 1 range"),
    (b"sw x1, -2049(x1)", "line 1 range"),
    (b"jalr x1, 2048(x1)", "line 1 range"),
    (b"slli x1, x1, 32", "line 1 range"),
    (b"srli x1, x1, -1", "line 1 range"),
    (b"lui x1, 1048576", "line 1 range"),
    (b"auipc x1, -1", "line 1 range"),
    (b"beq x1, x1, 4096", "line 1 range"),
    (b"beq x1, x1, 1", "line 1 range"),
    (b"beq x1, x1, -4098", "line 1 range"),
    (b"j 1048576", "line 1 range"),
    (b"j start", "line 1 noname"),
    (b".word start", "line 1 noname"),
    (b"la x1, start", "line 1 noname"),
    (b".zero -1", "line 1 range"),
];

/// The image of the source.
fn image_of(alloc: Global, source: &'static [u8]) -> Result<Image, AsmEnd> {
    let lines = read_source(alloc, source)?;
    assemble(alloc, &lines)
}

/// The segments and the code ranges.
fn words_told(alloc: Global, image: &Image) -> Result<String, AllocError> {
    let mut text = String::new(alloc);
    for i in 0..image.segment_count() {
        text.push_str(format!(in alloc; " seg {}", image.segment_address(i))?.as_str())?;
        for word in image.segment_words(i) {
            text.push_str(format!(in alloc; " {word:08X}")?.as_str())?;
        }
    }
    for range in image.code() {
        text.push_str(format!(in alloc; " code {} {}", range.address, range.words)?.as_str())?;
    }
    Ok(text)
}

/// The compartment ranges, of either version.
fn compartments_told<R: OwnedRange>(alloc: Global, rows: &[R]) -> Result<String, AllocError> {
    let mut text = String::new(alloc);
    for row in rows {
        let range = row.range();
        text.push_str(format!(in alloc; " comp {} {}", range.address, range.words)?.as_str())?;
        text.push_str(format!(in alloc; " {}", row.owner())?.as_str())?;
        text.push_str(format!(in alloc; " {} {}", row.into_mask(), row.write_mask())?.as_str())?;
    }
    Ok(text)
}

/// The five lists.
fn lists_told(alloc: Global, image: &Image) -> Result<String, AllocError> {
    let mut text = words_told(alloc, image)?;
    for label in image.labels() {
        text.push_str(format!(in alloc; " label {} {}", label.address, label.id)?.as_str())?;
    }
    for edge in image.edges() {
        text.push_str(format!(in alloc; " edge {} {}", edge.source, edge.target)?.as_str())?;
    }
    let rows = match image.compartments() {
        CompartmentRows::Narrow(rows) => compartments_told(alloc, rows)?,
        CompartmentRows::Wide(rows) => compartments_told(alloc, rows)?,
    };
    text.push_str(rows.as_str())?;
    Ok(text)
}

/// How a row begins, by the version of the image.
fn version_told(version: Version) -> &'static str {
    match version {
        Version::One => "",
        Version::Two => "version 2 ",
    }
}

/// The version, the sizes of the RAM and of the heap region, the entries, and the five lists.
fn image_told(alloc: Global, image: &Image) -> Result<String, AllocError> {
    let mut text = format!(in alloc;
        "{}{} {} {}",
        version_told(image.version()),
        image.ram(),
        image.heap_base(),
        image.heap_bytes()
    )?;
    for entry in image.entries() {
        text.push_str(format!(in alloc; " {entry}")?.as_str())?;
    }
    text.push_str(lists_told(alloc, image)?.as_str())?;
    Ok(text)
}

/// What the source's image has, or the first error.
fn source_told(alloc: Global, source: &'static [u8]) -> Result<String, AllocError> {
    match image_of(alloc, source) {
        Ok(image) => image_told(alloc, &image),
        Err(AsmEnd::Bad(error)) => format!(in alloc; "{error}"),
        Err(AsmEnd::Memory) => format!(in alloc; "no memory"),
    }
}

/// Assembles the source of each row, and compares.
fn check<R: Abort + AllocGlobal>(rt: &R, rows: &[Row]) -> Result<(), Fail> {
    for (source, want) in rows {
        let told = source_told(rt.alloc(), source)?;
        assert_eq!(rt; told.as_str(), *want, "{source:?}");
    }
    Ok(())
}

#[test]
fn images_have_their_words(rt: HostRuntime) -> Result<(), Fail> {
    check(&rt, EMITTED)?;
    check(&rt, WORDS)
}

#[test]
fn images_have_their_lists_and_sizes(rt: HostRuntime) -> Result<(), Fail> {
    check(&rt, EDGES_AND_COMPARTMENTS)?;
    check(&rt, SIZES)
}

#[test]
fn values_out_of_range_are_told(rt: HostRuntime) -> Result<(), Fail> {
    check(&rt, ERRORS)
}

#[test]
fn bad_operands_are_told(rt: HostRuntime) -> Result<(), Fail> {
    check(&rt, OPERAND_ERRORS)
}
