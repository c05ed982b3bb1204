//! Small ELF files and tag files: what each becomes under a RAM of 64 bytes, and how it is refused where it is cut.

use elf_image::{ElfEnd, ElfError, TagsEnd, TagsError, read_elf, read_tags};
use image_format::{Image, ImageError};
use std::alloc::{AllocError, Global};
use std::test::Fail;

/// A tag file: one hart, 64 bytes of RAM, and empty lists.
const TAGS: &[u32] = &[0x504D_5550, 0x0001_0001, 64, 0, 0, 0, 0, 0, 0, 0, 0];

/// A file of 108 bytes: one segment of six words at 0, which may be executed. Its program header begins at
/// place 13, and the word at place i at offset 4 * i.
const ONE: &[u32] = &[
    0x464C_457F,
    0x0001_0101,
    0,
    0,
    0x00F3_0002,
    1,
    0,
    52,
    0,
    0,
    0x0020_0034,
    1,
    0, //
    1,
    84,
    0,
    0,
    24,
    24,
    5,
    4, //
    0x0410_0513,
    0x0010_0893,
    0x73,
    0x513,
    0x893,
    0x73,
];

/// A file of 128 bytes: a segment of 6 bytes at 2, which may be executed, and one of 3 and another zero behind
/// it. Their program headers begin at places 13 and 21.
const TWO: &[u32] = &[
    0x464C_457F,
    0x0001_0101,
    0,
    0,
    0x00F3_0002,
    1,
    4,
    52,
    0,
    0,
    0x0020_0034,
    2,
    0, //
    1,
    116,
    2,
    0,
    6,
    6,
    5,
    4, //
    1,
    122,
    8,
    0,
    3,
    4,
    6,
    4, //
    0x4433_2211,
    0x8877_6655,
    0xCCBB_AA99,
];

/// Words put in place of others, each at its place; how many bytes are left of the file; and what it becomes,
/// in hexadecimal: the segments, each with its address and its words, the code ranges, each with its address
/// and its number of words, and the entry, or the error.
type Row = (&'static [(usize, u32)], usize, &'static str);

/// Of the file `ONE`.
const ONE_ROWS: &[Row] = &[
    (
        &[],
        108,
        "at 0: 4100513 100893 73 513 893 73; code 0 6; entry 0",
    ),
    // The last word's last two bytes are zeros behind its bytes in the file, or aren't the segment's.
    (
        &[(17, 22)],
        108,
        "at 0: 4100513 100893 73 513 893 73; code 0 6; entry 0",
    ),
    (
        &[(17, 22), (18, 22)],
        108,
        "at 0: 4100513 100893 73 513 893 73; code 0 6; entry 0",
    ),
    (
        &[(18, 28)],
        108,
        "at 0: 4100513 100893 73 513 893 73 0; code 0 7; entry 0",
    ),
    (&[(4, 0x003E_0002)], 108, "machine"),
    // The header.
    (&[], 51, "short"),
    (&[], 52, "headers"),
    (&[(11, 0)], 52, "entry 0"),
    (&[(0, 0x464C_457E)], 108, "ident"),
    (&[(1, 0x0001_0102)], 108, "ident"),
    (&[(1, 0x0001_0201)], 108, "ident"),
    (&[(1, 0x0002_0101)], 108, "ident"),
    (&[(1, 0x0101_0101), (11, 0)], 108, "entry 0"),
    (&[(4, 0x00F3_0003)], 108, "notexec"),
    (&[(9, 1)], 108, "compressed"),
    (&[(9, 4), (11, 0)], 108, "entry 0"),
    (&[(10, 0x0021_0034)], 108, "headers"),
    (&[(10, 0x0021_0034), (11, 0)], 108, "entry 0"),
    (&[(7, 76)], 108, "entry 0"),
    (&[(7, 77)], 108, "headers"),
    (&[(7, 0xFFFF_FFFF)], 108, "headers"),
    // The segment.
    (&[(18, 23)], 108, "segment 0"),
    (&[(17, 25), (18, 25)], 108, "segment 0"),
    (&[(14, 85)], 108, "segment 0"),
    (&[(14, 0xFFFF_FFFF)], 108, "segment 0"),
    (
        &[(14, 0xFFFF_FFFF), (17, 0), (18, 8)],
        108,
        "at 0: 0 0; code 0 2; entry 0",
    ),
    (&[(17, 0), (18, 65)], 108, "segment 0"),
    (&[(15, 41)], 108, "segment 0"),
    (
        &[(15, 60), (17, 4), (18, 4)],
        108,
        "at 3c: 4100513; code 3c 1; entry 0",
    ),
    (&[(15, 0xFFFF_FFFF), (17, 0), (18, 0)], 108, "segment 0"),
    (&[(15, 64), (17, 0), (18, 0)], 108, "entry 0"),
    (&[(13, 2), (15, 99)], 108, "entry 0"),
    (&[(6, 2), (11, 0)], 108, "entry"),
    (&[(6, 64), (11, 0)], 108, "entry"),
    (&[(6, 60), (11, 0)], 108, "entry 3c"),
];

/// Of the file `TWO`.
const TWO_ROWS: &[Row] = &[
    (
        &[],
        128,
        "at 0: 22110000 66554433 998877; code 0 2; entry 4",
    ),
    (
        &[(19, 6), (27, 7)],
        128,
        "at 0: 22110000 66554433 998877; code 8 1; entry 4",
    ),
    (&[(23, 7)], 128, "overlap 1"),
    (
        &[(23, 10)],
        128,
        "at 0: 22110000 66554433 88770000 99; code 0 2; entry 4",
    ),
    (
        &[(23, 12)],
        128,
        "at 0: 22110000 66554433; at c: 998877; code 0 2; entry 4",
    ),
    // Empty segments meet none.
    (
        &[(23, 4), (25, 0), (26, 0)],
        128,
        "at 0: 22110000 66554433; code 0 2; entry 4",
    ),
    // The first row that fails decides, and the entry comes behind all rows.
    (&[(15, 60), (23, 7)], 128, "segment 0"),
    (&[(6, 2), (23, 7)], 128, "overlap 1"),
];

/// Of the file `TAGS`.
const TAGS_ROWS: &[Row] = &[
    (&[], 44, "taken"),
    (&[(1, 0x0001_0002)], 44, "taken"),
    (&[(0, 0)], 44, "magic"),
    (&[], 43, "short at 43"),
    (&[(5, 4)], 44, "entry"),
];

/// A tag file with a segment and a code range, which no tag file has.
const LISTS: &[u32] = &[
    0x504D_5550,
    0x0001_0001,
    64,
    0,
    0,
    0,
    1,
    0,
    1,
    0x73,
    1,
    0,
    1,
    0,
    0,
    0,
];

/// Of the file `LISTS`.
const LISTS_ROWS: &[Row] = &[
    (&[], 64, "lists"),
    (&[(5, 4)], 64, "lists"),
    // The segment alone, and the code range alone.
    (&[(10, 0), (11, 0), (12, 0)], 56, "lists"),
    (
        &[(6, 0), (7, 1), (8, 0), (9, 1), (10, 0), (11, 0), (12, 0)],
        52,
        "lists",
    ),
];

/// The first bytes of a file of these words, where others are put in their places.
fn edited(alloc: Global, words: &[u32], row: Row) -> Result<Vec<u8>, AllocError> {
    let mut words = Vec::from_slice(alloc, words)?;
    for &(place, word) in row.0 {
        if place < words.len() {
            words[place] = word;
        }
    }
    let mut bytes = Vec::new(alloc);
    for word in &words {
        bytes.extend_from_slice(&word.to_le_bytes())?;
    }
    bytes.truncate(row.1);
    Ok(bytes)
}

/// What an image has of an ELF file.
fn image_text(alloc: Global, image: &Image) -> Result<String, AllocError> {
    let mut text = String::new(alloc);
    for i in 0..image.segment_count() {
        text.push_str(&format!(in alloc; "at {:x}:", image.segment_address(i))?)?;
        for word in image.segment_words(i) {
            text.push_str(&format!(in alloc; " {word:x}")?)?;
        }
        text.push_str("; ")?;
    }
    for range in image.code() {
        text.push_str(&format!(in alloc; "code {:x} {}; ", range.address, range.words)?)?;
    }
    text.push_str(&format!(in alloc; "entry {:x}", image.entries()[0])?)?;
    Ok(text)
}

/// What an ELF file becomes under `TAGS`.
fn elf_text(alloc: Global, elf: &[u8]) -> Result<String, AllocError> {
    let tags = edited(alloc, TAGS, (&[], 44, ""))?;
    let Ok(tags) = read_tags(alloc, &tags) else {
        return Err(AllocError);
    };
    match read_elf(alloc, elf, tags) {
        Ok(image) => image_text(alloc, &image),
        Err(ElfEnd::Bad(error)) => format!(in alloc; "{error}"),
        Err(ElfEnd::Memory) => Err(AllocError),
    }
}

/// What a tag file becomes.
fn tags_text(alloc: Global, tags: &[u8]) -> Result<String, AllocError> {
    match read_tags(alloc, tags) {
        Ok(_) => String::from_str(alloc, "taken"),
        Err(TagsEnd::Bad(error)) => format!(in alloc; "{error}"),
        Err(TagsEnd::Memory) => Err(AllocError),
    }
}

#[test]
fn files_become_what_they_say(rt: HostRuntime) -> Result<(), Fail> {
    for (words, rows) in [(ONE, ONE_ROWS), (TWO, TWO_ROWS)] {
        for &row in rows {
            let elf = edited(rt.alloc(), words, row)?;
            let text = elf_text(rt.alloc(), &elf)?;
            assert!(rt; text.as_str() == row.2, "{text}, and not {}", row.2);
        }
    }
    for (words, rows) in [(TAGS, TAGS_ROWS), (LISTS, LISTS_ROWS)] {
        for &row in rows {
            let tags = edited(rt.alloc(), words, row)?;
            let text = tags_text(rt.alloc(), &tags)?;
            assert!(rt; text.as_str() == row.2, "{text}, and not {}", row.2);
        }
    }
    Ok(())
}

/// How reading an ELF file under `TAGS` ends, `None` where it is loaded.
fn end_of_elf(alloc: Global, elf: &[u8]) -> Result<Option<ElfError>, Fail> {
    let tags = edited(alloc, TAGS, (&[], 44, ""))?;
    let tags = read_tags(alloc, &tags).ok().ok_or("no tag file")?;
    match read_elf(alloc, elf, tags) {
        Ok(_) => Ok(None),
        Err(ElfEnd::Bad(error)) => Ok(Some(error)),
        Err(ElfEnd::Memory) => Err("no memory")?,
    }
}

/// How a file is refused that has so many bytes of `ONE`: it ends within its header, within the program header or within the
/// segment.
fn end_of_cut(left: usize) -> ElfError {
    match left {
        0..=51 => ElfError::Short,
        52..=83 => ElfError::Headers,
        _ => ElfError::Segment(0),
    }
}

#[test]
fn elf_files_that_are_cut_are_refused_where_they_end(rt: HostRuntime) -> Result<(), Fail> {
    let whole = edited(rt.alloc(), ONE, (&[], 108, ""))?;
    for left in 0..whole.len() {
        let end = end_of_elf(rt.alloc(), &whole[..left])?;
        assert!(rt; end == Some(end_of_cut(left)), "{left} bytes");
    }
    assert!(rt; end_of_elf(rt.alloc(), &whole)?.is_none());
    Ok(())
}

#[test]
fn tag_files_that_are_cut_are_too_short(rt: HostRuntime) -> Result<(), Fail> {
    let whole = edited(rt.alloc(), TAGS, (&[], 44, ""))?;
    for left in 0..whole.len() {
        let end = match read_tags(rt.alloc(), &whole[..left]) {
            Err(TagsEnd::Bad(error)) => Some(error),
            _ => None,
        };
        let short = TagsError::Image(ImageError::Short(left));
        assert!(rt; end == Some(short), "{left} bytes");
    }
    Ok(())
}
