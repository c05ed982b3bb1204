//! Whole files that are read and written again, files that fail each condition, and files cut short.

use image_format::{
    CompartmentRange, CompartmentRows, ImageEnd, ImageError, OwnedRange, Version,
    WideCompartmentRange, WordRange, read_image, write_image,
};
use std::alloc::{AllocError, Global};
use std::test::Fail;

/// A program that writes `A` and exits with 0: one hart, 64 bytes of RAM, and six words at 0.
const HELLO: &[u8] = &[
    0x50, 0x55, 0x4D, 0x50, 0x01, 0x00, 0x01, 0x00, // magic, version, harts
    0x40, 0x00, 0x00, 0x00, 0x00, 0x00, 0x00, 0x00, // RAM, heap base
    0x00, 0x00, 0x00, 0x00, 0x00, 0x00, 0x00, 0x00, // heap bytes, entry
    0x01, 0x00, 0x00, 0x00, 0x00, 0x00, 0x00, 0x00, // one segment, its address
    0x06, 0x00, 0x00, 0x00, 0x13, 0x05, 0x10, 0x04, // its words
    0x93, 0x08, 0x10, 0x00, 0x73, 0x00, 0x00, 0x00, //
    0x13, 0x05, 0x00, 0x00, 0x93, 0x08, 0x00, 0x00, //
    0x73, 0x00, 0x00, 0x00, 0x00, 0x00, 0x00, 0x00, // no code ranges
    0x00, 0x00, 0x00, 0x00, 0x00, 0x00, 0x00, 0x00, // no labels, no edges
    0x00, 0x00, 0x00, 0x00, // no compartment ranges
];

/// The words of a file with two harts and every list. The word at place i begins at offset 4 * i.
const FULL: &[u32] = &[
    0x504D_5550,
    0x0002_0001,
    64,
    32,
    16, // 0: magic, version and harts, RAM, heap
    0,
    8, // 5: entries
    2,
    0,
    2,
    0x13,
    0x73,
    12,
    1,
    0x6F, // 7: segments
    2,
    0,
    1,
    4,
    1, // 15: code ranges
    2,
    4,
    1,
    8,
    2, // 20: labels
    3,
    1,
    2,
    1,
    3,
    2,
    1, // 25: edges
    2,
    0,
    1,
    1,
    2,
    4,
    4,
    3,
    31,
    0,
    0, // 32: compartment ranges
];

/// The words of a file of version 2 with compartment ranges alone: compartment 127, and masks of 128 bits.
const WIDE: &[u32] = &[
    0x504D_5550,
    0x0001_0002,
    64,
    0,
    0, // 0: magic, version and harts, RAM, heap
    0, // 5: entry
    0,
    0,
    0,
    0, // 6: no segments, no code ranges, no labels, no edges
    2, // 10: compartment ranges
    0,
    1,
    127, // 11: address, words, owner
    1,
    0,
    0,
    0x8000_0000, // 14: who may jump in
    0xFFFF_FFFF,
    0xFFFF_FFFF,
    0xFFFF_FFFF,
    0xFFFF_FFFF, // 18: who may write
    4,
    2,
    0, // 22: address, words, owner
    0x0123_4567,
    0x89AB_CDEF,
    0x0246_8ACE,
    0x1357_9BDF, // 25: who may jump in
    0,
    0,
    1,
    0, // 29: who may write
];

fn bytes_of(alloc: Global, words: &[u32]) -> Result<Vec<u8>, AllocError> {
    let mut bytes = Vec::new(alloc);
    for word in words {
        bytes.extend_from_slice(&word.to_le_bytes())?;
    }
    Ok(bytes)
}

/// A file's words with another at one place.
fn bytes_with(
    alloc: Global,
    words: &[u32],
    place: usize,
    value: u32,
) -> Result<Vec<u8>, AllocError> {
    let mut words = Vec::from_slice(alloc, words)?;
    if place < words.len() {
        words[place] = value;
    }
    bytes_of(alloc, &words)
}

/// Whether the bytes are written again as they were read.
fn is_written_again(alloc: Global, bytes: &[u8]) -> Result<bool, AllocError> {
    match read_image(alloc, bytes) {
        Ok(image) => Ok(*write_image(alloc, &image)? == *bytes),
        Err(_) => Ok(false),
    }
}

#[test]
fn files_are_written_again(rt: HostRuntime) -> Result<(), Fail> {
    let full = bytes_of(rt.alloc(), FULL)?;
    let wide = bytes_of(rt.alloc(), WIDE)?;
    let wide_hello = spliced(rt.alloc(), HELLO, 4, 5, &[2])?;
    for bytes in [HELLO, &full, &wide, &wide_hello] {
        assert!(rt; is_written_again(rt.alloc(), bytes)?);
    }
    Ok(())
}

/// The address and the words of a compartment range, its owner, and its masks.
type Owned = (u32, u32, u32, u128, u128);

/// The compartment ranges of `FULL`.
const FULL_OWNED: &[Owned] = &[(0, 1, 1, 2, 4), (4, 3, 31, 0, 0)];

/// The compartment ranges of `WIDE`.
const WIDE_OWNED: &[Owned] = &[
    (
        0,
        1,
        127,
        0x8000_0000_0000_0000_0000_0000_0000_0001,
        0xFFFF_FFFF_FFFF_FFFF_FFFF_FFFF_FFFF_FFFF,
    ),
    (
        4,
        2,
        0,
        0x1357_9BDF_0246_8ACE_89AB_CDEF_0123_4567,
        0x0000_0000_0000_0001_0000_0000_0000_0000,
    ),
];

/// A row as what its fields are.
fn owned_of<R: OwnedRange>(row: &R) -> Owned {
    let range = row.range();
    (
        range.address,
        range.words,
        row.owner(),
        row.into_mask(),
        row.write_mask(),
    )
}

/// Whether the rows are these, one after the other.
fn are_owned<R: OwnedRange>(rows: &[R], wanted: &[Owned]) -> bool {
    rows.len() == wanted.len()
        && rows
            .iter()
            .zip(wanted)
            .all(|(row, &owned)| owned_of(row) == owned)
}

/// Whether the file is of that version, and has these compartment ranges.
fn has_owned(alloc: Global, bytes: &[u8], version: Version, wanted: &[Owned]) -> bool {
    match read_image(alloc, bytes) {
        Ok(image) => {
            image.version() == version
                && match image.compartments() {
                    CompartmentRows::Narrow(rows) => are_owned(rows, wanted),
                    CompartmentRows::Wide(rows) => are_owned(rows, wanted),
                }
        }
        Err(_) => false,
    }
}

#[test]
fn compartment_ranges_are_read(rt: HostRuntime) -> Result<(), Fail> {
    let full = bytes_of(rt.alloc(), FULL)?;
    let wide = bytes_of(rt.alloc(), WIDE)?;
    assert!(rt; has_owned(rt.alloc(), &full, Version::One, FULL_OWNED));
    assert!(rt; has_owned(rt.alloc(), &wide, Version::Two, WIDE_OWNED));
    Ok(())
}

#[test]
fn versions_have_their_limits(rt: HostRuntime) {
    assert!(rt; Version::One.compartment_limit() == 32);
    assert!(rt; Version::Two.compartment_limit() == 128);
}

#[test]
fn rows_keep_what_they_are_made_of(rt: HostRuntime) {
    let range = WordRange {
        address: 8,
        words: 3,
    };
    let narrow = CompartmentRange::new(range, 31, 0x8000_0001, 0xFFFF_FFFF);
    assert!(rt; owned_of(&narrow) == (8, 3, 31, 0x8000_0001, 0xFFFF_FFFF));
    let wide = WideCompartmentRange::new(range, 127, 1 << 127, u128::MAX);
    assert!(rt; owned_of(&wide) == (8, 3, 127, 1 << 127, u128::MAX));
}

/// A word of the full file, another value for it, how many bytes are left of the file, and its error then.
const DAMAGES: &[(usize, u32, usize, ImageError)] = &[
    (0, 0x504D_5551, 172, ImageError::Magic),
    (1, 0x0002_0000, 172, ImageError::Version(0)),
    (1, 0x0002_0003, 172, ImageError::Version(3)),
    // The rows of version 1 are too short for version 2.
    (1, 0x0002_0002, 172, ImageError::Short(172)),
    // The sizes.
    (1, 0x0000_0001, 172, ImageError::Field(1, 6)),
    (1, 0x0009_0001, 172, ImageError::Field(1, 6)),
    (2, 66, 172, ImageError::Field(2, 8)),
    (2, 0, 172, ImageError::Field(2, 8)),
    (2, 16_777_220, 172, ImageError::Field(2, 8)),
    (3, 34, 172, ImageError::Field(3, 12)),
    (3, 68, 172, ImageError::Field(3, 12)),
    (4, 18, 172, ImageError::Field(4, 16)),
    (4, 36, 172, ImageError::Field(4, 16)),
    (4, 0xFFFF_FFF0, 172, ImageError::Field(4, 16)),
    (5, 2, 172, ImageError::Field(5, 20)),
    (6, 64, 172, ImageError::Field(5, 24)),
    // The rows.
    (8, 2, 172, ImageError::Field(6, 32)),
    (9, 0, 172, ImageError::Field(7, 36)),
    (9, 17, 172, ImageError::Field(7, 36)),
    (9, 0x4000_0001, 172, ImageError::Field(7, 36)),
    (13, 14, 172, ImageError::Field(7, 52)),
    (16, 1, 172, ImageError::Field(8, 64)),
    (19, 16, 172, ImageError::Field(9, 76)),
    (21, 6, 172, ImageError::Field(10, 84)),
    (23, 64, 172, ImageError::Field(10, 92)),
    (33, 3, 172, ImageError::Field(12, 132)),
    (39, 16, 172, ImageError::Field(13, 156)),
    (35, 32, 172, ImageError::Field(14, 140)),
    // Their order.
    (12, 4, 172, ImageError::Order(1, 1)),
    (18, 0, 172, ImageError::Order(2, 1)),
    (23, 4, 172, ImageError::Order(3, 1)),
    (29, 2, 172, ImageError::Order(4, 1)),
    (29, 1, 172, ImageError::Order(4, 1)),
    (28, 0, 172, ImageError::Order(4, 1)),
    (30, 1, 172, ImageError::Order(4, 2)),
    (38, 0, 172, ImageError::Order(5, 1)),
    // A segment's order comes before its words, which are missing here.
    (12, 4, 56, ImageError::Order(1, 1)),
    // A label's order comes after its id, and that of a compartment range after its last mask.
    (23, 4, 96, ImageError::Short(96)),
    (38, 0, 168, ImageError::Short(168)),
    // A field's condition comes before the fields behind it.
    (2, 66, 12, ImageError::Field(2, 8)),
    // Fewer rows are counted than there are, and more.
    (32, 1, 172, ImageError::Trailing(152)),
    (32, 3, 172, ImageError::Short(172)),
    (32, 0xFFFF_FFFF, 172, ImageError::Short(172)),
];

/// The same of the file of version 2.
const WIDE_DAMAGES: &[(usize, u32, usize, ImageError)] = &[
    (1, 0x0001_0003, 132, ImageError::Version(3)),
    // Version 1 has no compartment 127, and version 2 has no compartment 128.
    (1, 0x0001_0001, 132, ImageError::Field(14, 52)),
    (13, 128, 132, ImageError::Field(14, 52)),
    (24, 128, 132, ImageError::Field(14, 96)),
    (23, 16, 132, ImageError::Field(13, 92)),
    // A row's order comes after its last mask.
    (22, 0, 132, ImageError::Order(5, 1)),
    (22, 0, 131, ImageError::Short(131)),
    // Cut inside a mask, between two of its words.
    (22, 4, 80, ImageError::Short(80)),
    // Fewer rows are counted than there are, and more.
    (10, 1, 132, ImageError::Trailing(88)),
    (10, 3, 132, ImageError::Short(132)),
    (10, 0xFFFF_FFFF, 132, ImageError::Short(132)),
];

/// From where to where bytes of `HELLO` are gone, what stands in their place, and the error then.
const HELLO_DAMAGES: &[(usize, usize, &[u8], ImageError)] = &[
    (0, 1, &[0], ImageError::Magic),
    (4, 5, &[3], ImageError::Version(3)),
    (6, 7, &[9], ImageError::Field(1, 6)),
    (8, 9, &[66], ImageError::Field(2, 8)),
    (12, 13, &[68], ImageError::Field(3, 12)),
    (12, 17, &[60, 0, 0, 0, 8], ImageError::Field(4, 16)),
    (20, 21, &[64], ImageError::Field(5, 20)),
    (28, 29, &[2], ImageError::Field(6, 28)),
    (32, 33, &[0], ImageError::Field(7, 32)),
    (32, 33, &[17], ImageError::Field(7, 32)),
    (32, 36, &[0xFF; 4], ImageError::Field(7, 32)),
    (32, 33, &[16], ImageError::Short(76)),
    (24, 28, &[0xFF; 4], ImageError::Field(7, 64)),
    (76, 76, &[0], ImageError::Trailing(76)),
    // A count that is another, over the bytes that stand there: a code range of no words, and rows that aren't there.
    (60, 61, &[1], ImageError::Field(9, 68)),
    (64, 65, &[1], ImageError::Short(76)),
    (68, 69, &[1], ImageError::Short(76)),
    (72, 73, &[1], ImageError::Short(76)),
    (60, 64, &[0xFF; 4], ImageError::Field(9, 68)),
    (
        60,
        73,
        &[1, 0, 0, 0, 1, 0, 0, 0, 1, 0, 0, 0, 1],
        ImageError::Field(8, 64),
    ),
    (72, 76, &[1, 0, 0, 0, 9], ImageError::Short(77)),
    (60, 76, &[1, 0, 0, 0], ImageError::Short(64)),
    (60, 76, &[1, 0, 0], ImageError::Short(63)),
];

/// The bytes with others in place of those between two offsets.
fn spliced(
    alloc: Global,
    bytes: &[u8],
    from: usize,
    to: usize,
    put: &[u8],
) -> Result<Vec<u8>, AllocError> {
    let mut file = Vec::from_slice(alloc, &bytes[..from.min(bytes.len())])?;
    file.extend_from_slice(put)?;
    file.extend_from_slice(&bytes[to.min(bytes.len())..])?;
    Ok(file)
}

/// Whether the bytes are refused with that error.
fn is_refused(alloc: Global, bytes: &[u8], wanted: ImageError) -> bool {
    match read_image(alloc, bytes) {
        Err(ImageEnd::Bad(error)) => error == wanted,
        Err(ImageEnd::Memory) | Ok(_) => false,
    }
}

#[test]
fn the_first_error_is_named(rt: HostRuntime) -> Result<(), Fail> {
    for (words, damages) in [(FULL, DAMAGES), (WIDE, WIDE_DAMAGES)] {
        for &(place, value, left, error) in damages {
            let mut file = bytes_with(rt.alloc(), words, place, value)?;
            file.truncate(left);
            assert!(rt;
                is_refused(rt.alloc(), &file, error),
                "the word at {place} is {value}"
            );
        }
    }
    Ok(())
}

#[test]
fn the_first_error_of_other_bytes_is_named(rt: HostRuntime) -> Result<(), Fail> {
    for &(from, to, put, error) in HELLO_DAMAGES {
        let file = spliced(rt.alloc(), HELLO, from, to, put)?;
        assert!(rt; is_refused(rt.alloc(), &file, error), "from {from} to {to}");
    }
    Ok(())
}

#[test]
fn files_that_are_cut_are_too_short(rt: HostRuntime) -> Result<(), Fail> {
    let full = bytes_of(rt.alloc(), FULL)?;
    let wide = bytes_of(rt.alloc(), WIDE)?;
    for file in [HELLO, &full, &wide] {
        for left in 0..file.len() {
            assert!(rt; is_refused(rt.alloc(), &file[..left], ImageError::Short(left)));
        }
    }
    Ok(())
}

const TEXTS: &[(ImageError, &str)] = &[
    (ImageError::Magic, "magic"),
    (ImageError::Version(3), "version 3"),
    (ImageError::Short(75), "short at 75"),
    (ImageError::Field(7, 32), "field 7 at 32"),
    (ImageError::Order(1, 2), "order 1 row 2"),
    (ImageError::Trailing(76), "trailing at 76"),
];

#[test]
fn errors_are_told(rt: HostRuntime) -> Result<(), Fail> {
    for (error, text) in TEXTS {
        assert!(rt;
            format!(in rt.alloc(); "{error}")?.as_str() == *text,
            "{text}"
        );
    }
    Ok(())
}
