//! What engines count, and how often their policy is asked.

ghost use Rattle.std.specs.Prelude.{◌≤◌};

use crate::images::{image_of, keeping, turn_of};
use crate::toy::Toy;
use engine_trait::{Counts, Engine, Feed};
use image_format::Image;
use std::alloc::Global;
use std::test::Fail;
use tag_loader::start_under;

/// A program of one hart, how many turns it has, how many rules may be kept (0: the engine is that without kept rules), and
/// the hits and misses then. Each miss asks the policy.
struct CountRow {
    words: &'static [u32],
    turns: u32,
    cache: u32,
    hits: u64,
    misses: u64,
}

/// x5 and 1, and a jump back to that.
const LOOP: &[u32] = &[0x0012_8293, 0xFFDF_F06F];

/// Instructions of three groups, of which the second is the least recent when the third comes.
const THREE_GROUPS: &[u32] = &[
    0x0012_8293,
    0x0000_0013,
    0x0012_8293,
    0x0000_000F,
    0x0012_8293,
];

const COUNT_ROWS: &[CountRow] = &[
    CountRow {
        words: LOOP,
        turns: 6,
        cache: 2,
        hits: 4,
        misses: 2,
    },
    CountRow {
        words: LOOP,
        turns: 6,
        cache: 1,
        hits: 0,
        misses: 6,
    },
    CountRow {
        words: LOOP,
        turns: 6,
        cache: 0,
        hits: 0,
        misses: 6,
    },
    CountRow {
        words: THREE_GROUPS,
        turns: 5,
        cache: 2,
        hits: 2,
        misses: 3,
    },
];

/// The counts after so many turns of hart 0, and how often the policy was asked.
fn counts_after<E: Engine<P = Toy>>(alloc: Global, engine: &mut E, turns: u32) -> (Counts, u64) {
    let mut feed = Feed::new(alloc);
    for _ in 0..turns {
        turn_of(engine, &mut feed, 0);
    }
    (engine.counts(), engine.policy().asked.get())
}

/// The counts after the turns of the row, and how often the policy was asked.
fn counts_of(alloc: Global, row: &CountRow) -> Result<(Counts, u64), Fail> {
    let image = image_of(alloc, 256, &[0], row.words)?;
    if image.ram() < 12 {
        return Err("no room")?;
    }
    if row.cache == 0 {
        counts_asked(alloc, &image, row.turns)
    } else {
        counts_kept(alloc, &image, row.cache, row.turns)
    }
}

/// The same of an image on the engine without kept rules.
fn counts_asked(alloc: Global, image: &Image, turns: u32) -> Result<(Counts, u64), Fail>
    requires { 12 ≤ image.now.ram }
{
    let mut engine = start_under(alloc, Toy::new(0), image)?;
    Ok(counts_after(alloc, &mut engine, turns))
}

/// The same on the engine that keeps `cache` rules.
fn counts_kept(alloc: Global, image: &Image, cache: u32, turns: u32) -> Result<(Counts, u64), Fail>
    requires { 12 ≤ image.now.ram }
{
    let mut engine = keeping(alloc, Toy::new(0), image, cache, 8)?;
    Ok(counts_after(alloc, &mut engine, turns))
}

#[test]
fn a_rule_is_asked_where_it_is_not_kept(rt: HostRuntime) -> Result<(), Fail> {
    for (at, row) in COUNT_ROWS.iter().enumerate() {
        let expected = Counts {
            turns: u64::from(row.turns),
            hits: row.hits,
            misses: row.misses,
            sweeps: 0,
        };
        let (counts, asked) = counts_of(rt.alloc(), row)?;
        assert!(rt; counts == expected, "row {at}");
        assert_eq!(rt; asked, row.misses, "row {at}");
    }
    Ok(())
}
