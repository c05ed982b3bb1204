//! Sequences of calls, and what first fit says of them: the base that each block gets, and the blocks that are live at
//! the end.

use crate::steps::{Step, go_as_stated};
use live_blocks::{Block, LiveBlocks};
use std::test::Fail;

/// A block that is live at the end: its number, its base and its words.
type Live = (u32, u32, u32);

/// The region from 256 up to 320, of 16 words.
const REGION: (u32, u32) = (256, 320);

/// A region, a sequence of calls in it, and the blocks that are live after them.
const SEQUENCES: &[((u32, u32), &[Step], &[Live])] = &[
    // one after another, and exactly up to the region's end
    (
        REGION,
        &[
            Step::Malloc(4, Some(256)),
            Step::Malloc(1, Some(272)),
            Step::Malloc(11, Some(276)),
            Step::Malloc(1, None),
        ],
        &[(0, 256, 4), (1, 272, 1), (2, 276, 11)],
    ),
    // more than the region has, and then all of it
    (
        REGION,
        &[
            Step::Malloc(17, None),
            Step::Malloc(16, Some(256)),
            Step::Malloc(1, None),
            Step::Free(1),
            Step::Malloc(1, Some(256)),
        ],
        &[(4, 256, 1)],
    ),
    // a hole of the size that is asked for
    (
        REGION,
        &[
            Step::Malloc(4, Some(256)),
            Step::Malloc(4, Some(272)),
            Step::Malloc(4, Some(288)),
            Step::Free(1),
            Step::Malloc(4, Some(272)),
            Step::Malloc(4, Some(304)),
            Step::Malloc(1, None),
        ],
        &[(0, 256, 4), (2, 288, 4), (4, 272, 4), (5, 304, 4)],
    ),
    // a hole that is too small is passed over, and filled later
    (
        REGION,
        &[
            Step::Malloc(4, Some(256)),
            Step::Malloc(2, Some(272)),
            Step::Malloc(4, Some(280)),
            Step::Free(1),
            Step::Malloc(3, Some(296)),
            Step::Malloc(2, Some(272)),
            Step::Malloc(1, Some(308)),
        ],
        &[
            (0, 256, 4),
            (2, 280, 4),
            (4, 296, 3),
            (5, 272, 2),
            (6, 308, 1),
        ],
    ),
    // a hole that is larger is filled from below
    (
        REGION,
        &[
            Step::Malloc(1, Some(256)),
            Step::Malloc(5, Some(260)),
            Step::Malloc(1, Some(280)),
            Step::Free(1),
            Step::Malloc(2, Some(260)),
            Step::Malloc(3, Some(268)),
            Step::Malloc(1, Some(284)),
        ],
        &[
            (0, 256, 1),
            (2, 280, 1),
            (4, 260, 2),
            (5, 268, 3),
            (6, 284, 1),
        ],
    ),
    // of two holes the lower one that is large enough
    (
        REGION,
        &[
            Step::Malloc(2, Some(256)),
            Step::Malloc(1, Some(264)),
            Step::Malloc(4, Some(268)),
            Step::Malloc(1, Some(284)),
            Step::Free(2),
            Step::Free(0),
            Step::Malloc(3, Some(268)),
            Step::Malloc(2, Some(256)),
            Step::Malloc(1, Some(280)),
        ],
        &[
            (1, 264, 1),
            (3, 284, 1),
            (6, 268, 3),
            (7, 256, 2),
            (8, 280, 1),
        ],
    ),
    // two holes side by side are one
    (
        REGION,
        &[
            Step::Malloc(3, Some(256)),
            Step::Malloc(3, Some(268)),
            Step::Malloc(3, Some(280)),
            Step::Free(1),
            Step::Free(0),
            Step::Malloc(6, Some(256)),
            Step::Malloc(4, Some(292)),
            Step::Malloc(4, None),
            Step::Malloc(3, Some(308)),
        ],
        &[(2, 280, 3), (5, 256, 6), (6, 292, 4), (8, 308, 3)],
    ),
    // the lowest hole is filled, and what follows it is full
    (
        REGION,
        &[
            Step::Malloc(1, Some(256)),
            Step::Malloc(1, Some(260)),
            Step::Malloc(1, Some(264)),
            Step::Free(0),
            Step::Malloc(1, Some(256)),
            Step::Malloc(1, Some(268)),
        ],
        &[(1, 260, 1), (2, 264, 1), (4, 256, 1), (5, 268, 1)],
    ),
    // a number that no block has, and one that was freed before
    (
        REGION,
        &[
            Step::Malloc(16, Some(256)),
            Step::Free(7),
            Step::Free(0),
            Step::Free(0),
            Step::Malloc(15, Some(256)),
            Step::Malloc(2, None),
            Step::Malloc(1, Some(316)),
        ],
        &[(4, 256, 15), (6, 316, 1)],
    ),
    // no region
    ((256, 256), &[Step::Malloc(1, None), Step::Free(0)], &[]),
    // a region that ends within a word
    (
        (8, 15),
        &[
            Step::Malloc(2, None),
            Step::Malloc(1, Some(8)),
            Step::Malloc(1, None),
        ],
        &[(1, 8, 1)],
    ),
    // the last addresses of all, and more words than there are bytes
    (
        (4_294_967_280, 4_294_967_295),
        &[
            Step::Malloc(4_294_967_295, None),
            Step::Malloc(4, None),
            Step::Malloc(3, Some(4_294_967_280)),
            Step::Malloc(1, None),
        ],
        &[(2, 4_294_967_280, 3)],
    ),
];

#[test]
fn blocks_go_to_the_lowest_place_that_fits(rt: HostRuntime) -> Result<(), Fail> {
    for &((base, top), steps, live) in SEQUENCES {
        assert!(rt; base % 4 == 0 && base <= top);
        let mut blocks = LiveBlocks::new(rt.alloc(), base, top);
        assert!(rt; go_as_stated(&mut blocks, steps)?);
        assert!(rt; has(&blocks, live));
    }
    Ok(())
}

/// The block of these numbers.
fn block((number, base, words): Live) -> Block {
    Block {
        number,
        base,
        words,
    }
}

/// Whether these blocks are live and no others, by their places and by the numbers that the sequences give.
fn has(blocks: &LiveBlocks, live: &[Live]) -> bool {
    is_listed(blocks, live) && (0..20).all(|number| is_found(blocks, number, live))
}

/// Whether the blocks have these at their places, and no more.
fn is_listed(blocks: &LiveBlocks, live: &[Live]) -> bool {
    (0..=live.len()).all(|place| blocks.get(place) == live.get(place).map(|&live| block(live)))
}

/// Whether the block of that number is found if it is one of these, and else none.
fn is_found(blocks: &LiveBlocks, number: u32, live: &[Live]) -> bool {
    let wanted = live.iter().find(|live| live.0 == number);
    blocks.find(number) == wanted.map(|&live| block(live))
}
