//! Sources, each with where its lines and names lie, or with its error.

use asm_places::{layout_of, names_of};
use asm_read::{AsmEnd, Line, read_source};
use asm_words::Names;
use std::alloc::{AllocError, Global};
use std::process::Abort;
use std::test::Fail;

/// A source, and its harts, its RAM, the places of its lines, the place at the end, and its names, or its error.
type Row = (&'static [u8], &'static str);

/// Words, sizes and names.
const LAYOUTS: &[Row] = &[
    (b"", "1 65536: 0"),
    (b"nop\n\n# nop\nnop", "1 65536: 0 4 8"),
    (
        b"start: nop\nloop: j loop\nend:",
        "1 65536: 0 4 8 8; start 0; loop 4; end 8",
    ),
    (
        b"nop\nhere:\n.org 256\nnop",
        "1 65536: 0 4 4 256 260; here 256",
    ),
    (
        b"a: .org 32\nnop\n.org 64\nb:",
        "1 65536: 0 32 36 64 64; a 32; b 64",
    ),
    (
        b"a:\n.zero 0\nb: .label 3\nc: .word d\nd:",
        "1 65536: 0 0 0 0 4 4; a 0; b 0; c 0; d 4",
    ),
    (
        b"a: .zero 3\nb: la x1, a\nc: .org 20",
        "1 65536: 0 12 20 20; a 0; b 12; c 20",
    ),
    (b"nop\na: .harts 2", "2 65536: 0 4 4; a 4"),
    (
        b".org 65536\n.ram 65540\nnop",
        "1 65540: 0 65536 65536 65540",
    ),
    (b".org 65536\nx: .zero 0", "1 65536: 0 65536 65536; x 65536"),
    (b".ram 8\n.org 4\nnop", "1 8: 0 0 4 8"),
    (b".org 4\n.org 4", "1 65536: 0 4 4"),
    (b".zero 16384", "1 65536: 0 65536"),
    (b".ram 16777216\n.harts 8", "8 16777216: 0 0 0"),
    (b".ram 4\n.harts 1\n.heap 0, -1", "1 4: 0 0 0 0"),
    (
        b".entry 0, 0\n.entry 1, a\n.entry -1, 0",
        "1 65536: 0 0 0 0",
    ),
    (
        b".text\n.data\n.edge 1, 2\n.comp 1, 2, 3\nfence",
        "1 65536: 0 0 0 0 0 4",
    ),
];

/// Numbers that are loaded by one word, and by two.
const LOADS: &[Row] = &[
    (b"li x1, 0", "1 65536: 0 4"),
    (b"li x1, 2047", "1 65536: 0 4"),
    (b"li x1, 2048", "1 65536: 0 8"),
    (b"li x1, -2048", "1 65536: 0 4"),
    (b"li x1, -2049", "1 65536: 0 8"),
    (b"li x1, 4294967295", "1 65536: 0 4"),
    (b"li x1, 4294965248", "1 65536: 0 4"),
    (b"li x1, 4294965247", "1 65536: 0 8"),
    (b"li x1, 0x1000", "1 65536: 0 4"),
    (b"li x1, 0xfffff000", "1 65536: 0 4"),
    (b"li x1, -2147483648", "1 65536: 0 4"),
    (b"li x1, 0x80000800", "1 65536: 0 8"),
    (b"li x1, 0x12345678", "1 65536: 0 8"),
    (b"la x1, 0", "1 65536: 0 8"),
];

/// A version and sizes outside their range, which are told before all else: the version's, then the harts', then the RAM's.
const BAD_SIZES: &[Row] = &[
    (b".version 0", "line 1 range"),
    (b".version 3", "line 1 range"),
    (b".version -1", "line 1 range"),
    (b".ram 2\n.harts 9\n.version 3", "line 3 range"),
    (b".version 2\n.version 3\n.harts 0", "line 3 range"),
    (b".harts 0", "line 1 range"),
    (b"\n.harts 9", "line 2 range"),
    (b".harts -1", "line 1 range"),
    (b".ram 0", "line 1 range"),
    (b".ram 6", "line 1 range"),
    (b".ram 16777220", "line 1 range"),
    (b".ram -4", "line 1 range"),
    (b".ram 3\n.harts 9", "line 2 range"),
    (b"a:\na:\n.org 2\n.ram 2", "line 4 range"),
    (b".harts 1\n.harts 9\n.ram 3", "line 3 range"),
];

/// Names and directives that stand twice, and an `.org` that goes back.
const TWICE: &[Row] = &[
    (b"a: nop\n\na: nop", "line 3 duplicate"),
    (b"a:\nb:\na:", "line 3 duplicate"),
    (b"a:\n.harts 1\na: .harts 1", "line 3 duplicate"),
    (b"a:\na: .zero -1", "line 2 duplicate"),
    (b".version 1\n.version 1", "line 2 order"),
    (b".version 2\n.version 9", "line 2 order"),
    (b".harts 1\n.harts 9", "line 2 order"),
    (b".ram 4\n.ram 4", "line 2 order"),
    (b".heap 0, 0\n.heap 0, 0", "line 2 order"),
    (b".entry 1, 0\n.entry 1, 0", "line 2 order"),
    (b".entry 1, 0\n.entry 0, 0\n.entry 0x1, 4", "line 3 order"),
    (b".entry -1, 0\n.entry -1, 0", "line 2 order"),
    (b".org 8\n.org 4", "line 2 order"),
    (b"nop\na: .org 0\na:", "line 2 order"),
    (b".org 8\n.org 2", "line 2 order"),
    (b".org -4", "line 1 order"),
    (b".org 2\na:\na:", "line 1 range"),
];

/// Places outside their range.
const BAD_PLACES: &[Row] = &[
    (b".org 2", "line 1 range"),
    (b".org 65540", "line 1 range"),
    (b".ram 4\nnop\nnop", "line 3 range"),
    (b".ram 4\nla x1, 0", "line 2 range"),
    (b"nop\n.zero -1", "line 2 range"),
    (b".zero 16385", "line 1 range"),
    (b"nop\n.zero 4294967295", "line 2 range"),
    (b".org 65536\nnop", "line 2 range"),
    (b".org 65536\n.org 65532", "line 2 order"),
];

/// Appends the names of the lines with their places.
fn push_names(
    alloc: Global,
    text: &mut String,
    lines: &[Line<'static>],
    names: &Names<'static>,
) -> Result<(), AllocError> {
    for line in lines {
        if let Some(label) = &line.label {
            let name = str::from_utf8(label.text()).unwrap_or("?");
            let place = names.place(label.text()).unwrap_or(1);
            text.push_str(format!(in alloc; "; {name} {place}")?.as_str())?;
        }
    }
    Ok(())
}

/// Where the lines and names of a source lie, as the tables write it.
fn told(alloc: Global, source: &'static [u8]) -> Result<String, AllocError> {
    let Ok(lines) = read_source(alloc, source) else {
        return format!(in alloc; "not read");
    };
    let layout = match layout_of(alloc, &lines) {
        Ok(layout) => layout,
        Err(AsmEnd::Bad(error)) => return format!(in alloc; "{error}"),
        Err(AsmEnd::Memory) => return format!(in alloc; "no memory"),
    };
    let names = names_of(alloc, &lines, &layout)?;
    let mut text = format!(in alloc; "{} {}:", layout.harts, layout.ram)?;
    for place in &layout.places {
        text.push_str(format!(in alloc; " {place}")?.as_str())?;
    }
    text.push_str(format!(in alloc; " {}", layout.end)?.as_str())?;
    push_names(alloc, &mut text, &lines, &names)?;
    Ok(text)
}

/// Places the source of each row, and compares.
fn check<R: Abort + AllocGlobal>(rt: &R, rows: &[Row]) -> Result<(), Fail> {
    for (source, want) in rows {
        let found = told(rt.alloc(), source)?;
        assert_eq!(rt; found.as_str(), *want, "{source:?}");
    }
    Ok(())
}

#[test]
fn lines_and_names_have_their_places(rt: HostRuntime) -> Result<(), Fail> {
    check(&rt, LAYOUTS)
}

#[test]
fn loads_have_one_word_or_two(rt: HostRuntime) -> Result<(), Fail> {
    check(&rt, LOADS)
}

#[test]
fn what_has_no_place_is_told(rt: HostRuntime) -> Result<(), Fail> {
    check(&rt, BAD_SIZES)?;
    check(&rt, BAD_PLACES)
}

#[test]
fn what_stands_twice_is_told(rt: HostRuntime) -> Result<(), Fail> {
    check(&rt, TWICE)
}
