//! The words and tags of a start, as the lists of an image say them.

use image_format::{Image, read_image};
use policy_trait::{Birth, CompartmentSet};
use std::alloc::Global;
use std::test::Fail;
use tag_loader::{BirthWalk, birth};

/// The words of a file with every list: 64 bytes of memory, the heap region 32 to 48; code 0 to 8; labels 1 at 4 and 2 at 8;
/// compartment 1 owns the word at 0, which lets in the set 2 and lets write the set 4, and compartment 31 those from 4 to 16.
const LISTED: &[u32] = &[
    0x504D_5550,
    0x0001_0001,
    64,
    32,
    16,
    0,
    0,
    2,
    0,
    1,
    4,
    1,
    2,
    4,
    1,
    8,
    2,
    1,
    1,
    2,
    2,
    0,
    1,
    1,
    2,
    4,
    4,
    3,
    31,
    0,
    0,
];

/// What the lists say of the word at an address.
struct BirthRow {
    address: u32,
    owner: u32,
    /// The sets of the compartments that are let in and let write.
    into: u32,
    write: u32,
    code: bool,
    label: Option<u32>,
    heap: bool,
}

/// The word at 16, which is in no list.
const UNLISTED: BirthRow = BirthRow {
    address: 16,
    owner: 0,
    into: 0,
    write: 0,
    code: false,
    label: None,
    heap: false,
};

const BIRTHS: &[BirthRow] = &[
    BirthRow {
        address: 0,
        owner: 1,
        into: 2,
        write: 4,
        code: true,
        ..UNLISTED
    },
    BirthRow {
        address: 4,
        owner: 31,
        code: true,
        label: Some(1),
        ..UNLISTED
    },
    BirthRow {
        address: 8,
        owner: 31,
        label: Some(2),
        ..UNLISTED
    },
    BirthRow {
        address: 12,
        owner: 31,
        ..UNLISTED
    },
    UNLISTED,
    BirthRow {
        address: 28,
        ..UNLISTED
    },
    BirthRow {
        address: 44,
        heap: true,
        ..UNLISTED
    },
    BirthRow {
        address: 48,
        ..UNLISTED
    },
];

/// The birth that a row says.
fn birth_in(row: &BirthRow) -> Birth {
    Birth {
        owner: row.owner,
        into: CompartmentSet::of_bits(u128::from(row.into)),
        write: CompartmentSet::of_bits(u128::from(row.write)),
        code: row.code,
        label: row.label,
        heap: row.heap,
    }
}

/// The image of the file with every list.
fn listed_image(alloc: Global) -> Result<Image, Fail> {
    let mut bytes = Vec::new(alloc);
    for word in LISTED {
        bytes.extend_from_slice(&word.to_le_bytes())?;
    }
    Ok(read_image(alloc, &bytes).ok().ok_or("no image")?)
}

/// Whether the image says of each row's word what the row does.
fn are_births_told(image: &Image) -> bool {
    BIRTHS
        .iter()
        .all(|row| birth(image, row.address) == birth_in(row))
}

/// Whether a walk through the image, which passes over some words, says the same.
fn are_births_met(image: &Image) -> bool {
    let ram = image.ram();
    let mut births = BirthWalk::new(image);
    for row in BIRTHS {
        if row.address >= ram || births.words_from(row.address / 4).birth != birth_in(row) {
            return false;
        }
    }
    true
}

#[test]
fn births_are_what_the_lists_say(rt: HostRuntime) -> Result<(), Fail> {
    let image = listed_image(rt.alloc())?;
    assert!(rt; are_births_told(&image));
    assert!(rt; are_births_met(&image));
    Ok(())
}
