//! Words of pairs by hand, as pairs come, are refused and are cut off.

use crate::parts::is_cut;
use pump_words::Same;
use std::test::Fail;
use tag_intern::{InternEnd, Interner, TagTable};
use tag_pairs::{Mapped, Pairs, TagBijection};

type Table = Pairs<Interner<u32>, Interner<u32>>;

/// A pair that comes, and what it is answered.
type Row = ((u32, u32), Result<u32, InternEnd>);

/// Whether the pairs are answered so, in order.
fn answers_as_stated(table: &mut Table, rows: &[Row]) -> bool {
    for &(tag, word) in rows {
        if table.intern(tag) != word {
            return false;
        }
    }
    true
}

/// What comes to a table for three.
const COMING: &[Row] = &[
    ((70, 5), Ok(0)),
    ((70, 6), Ok(1)),
    ((70, 5), Ok(0)),
    ((80, 5), Ok(2)),
    // each tag has a word on its side, and the pair has no room
    ((80, 6), Err(InternEnd::Full)),
    ((90, 7), Err(InternEnd::Full)),
    // full, and yet a pair that is there is answered
    ((70, 6), Ok(1)),
];

#[test]
fn words_of_pairs(rt: HostRuntime) -> Result<(), Fail> {
    let mut table: Table = Pairs::made(rt.alloc(), 3)?;
    assert!(rt; answers_as_stated(&mut table, COMING));
    assert_eq!(rt; table.len(), 3);
    assert_eq!(rt; table.limit(), 3);
    assert_eq!(rt; table.word_of(&(80, 5)), Some(2));
    assert_eq!(rt; table.word_of(&(80, 6)), None);
    assert_eq!(rt; table.word_of(&(90, 5)), None);
    assert_eq!(rt; table.tag_or(1, (1, 2)), (70, 6));
    // no pair has word 3
    assert_eq!(rt; table.tag_or(3, (1, 2)), (1, 2));
    Ok(())
}

/// Pairs that fill a table for three, and both its sides.
const THREE: &[Row] = &[((10, 20), Ok(0)), ((11, 21), Ok(1)), ((12, 22), Ok(2))];

/// What comes anew where the first of three pairs is left: other tags on both sides, as many as were cut off.
const ANEW: &[Row] = &[
    ((10, 20), Ok(0)),
    ((13, 23), Ok(1)),
    ((14, 24), Ok(2)),
    ((11, 21), Err(InternEnd::Full)),
];

#[test]
fn pairs_after_a_cut(rt: HostRuntime) -> Result<(), Fail> {
    let mut table: Table = Pairs::made(rt.alloc(), 3)?;
    assert!(rt; answers_as_stated(&mut table, THREE));
    assert!(rt; is_cut(&mut table, 1));
    assert_eq!(rt; table.len(), 1);
    assert_eq!(rt; table.word_of(&(10, 20)), Some(0));
    assert_eq!(rt; table.word_of(&(11, 21)), None);
    assert!(rt; answers_as_stated(&mut table, ANEW));
    Ok(())
}

/// A tag of four components.
#[derive(Clone, Copy, PartialEq, Eq, PartialOrd, Ord, Hash)]
struct Four {
    first: u32,
    second: u32,
    third: u32,
    fourth: u32,
}

impl Same for Four {
    ghost use Rattle.std.proofs.Common.{rules};

    ghost same = { Prim.search rules };
}

/// The four components of a tag for nested pairs of them.
struct Components;

impl TagBijection for Components {
    ghost use Rattle.std.specs.Prelude.{refl};

    type From = ((u32, u32), (u32, u32));

    type To = Four;

    ghost image = { λ tag. record {
      first = tag.0.0;
      second = tag.0.1;
      third = tag.1.0;
      fourth = tag.1.1;
    } };

    ghost preimage = { λ tag. ((tag.first, tag.second), (tag.third, tag.fourth)) };

    fn image(tag: ((u32, u32), (u32, u32))) -> Four {
        Four {
            first: tag.0.0,
            second: tag.0.1,
            third: tag.1.0,
            fourth: tag.1.1,
        }
    }

    fn preimage(tag: Four) -> ((u32, u32), (u32, u32)) {
        ((tag.first, tag.second), (tag.third, tag.fourth))
    }

    ghost onto = { λ _. refl };

    ghost apart = { λ _. refl };
}

#[test]
fn words_of_fours(rt: HostRuntime) -> Result<(), Fail> {
    let one = Four {
        first: 1,
        second: 2,
        third: 3,
        fourth: 4,
    };
    let other = Four { fourth: 5, ..one };
    let mut table: Mapped<Pairs<Table, Table>, Components> = Mapped::made(rt.alloc(), 2)?;
    assert!(rt; table.intern(one) == Ok(0));
    assert!(rt; table.intern(other) == Ok(1));
    assert!(rt; table.intern(one) == Ok(0));
    assert!(rt; table.intern(Four { first: 9, ..one }) == Err(InternEnd::Full));
    assert!(rt; table.tag_or(1, one) == other);
    Ok(())
}
