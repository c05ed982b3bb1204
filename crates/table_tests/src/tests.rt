//! Programs over tables of both kinds.

use crate::programs::{KEY, LETTERS, LINE, LOOP, ROUNDS, image_of};
use crate::runs::{Limits, Run, run_over};
use engine_trait::{LoadEnd, Stop, TurnEnd};
use image_format::Image;
use part_tables::AllTable;
use policy_choice::{AllTag, Basis, Choice, choose};
use rule_cache::RuleCache;
use rv_step::Fault;
use std::alloc::Global;
use std::test::Fail;
use tag_intern::{Interner, TagTable};
use undo_log::NoLog;
use word_loader::start_cached;
use workload::write_workload;

/// All policies together.
const EVERY_POLICY: Choice = Choice {
    seal: true,
    comp: true,
    flow: true,
    heap: true,
    secret: false,
};

/// Sealing alone.
const SEALING: Choice = Choice {
    seal: true,
    comp: false,
    flow: false,
    heap: false,
    secret: false,
};

/// No policy.
const NO_POLICY: Choice = Choice {
    seal: false,
    comp: false,
    flow: false,
    heap: false,
    secret: false,
};

/// The run of the image under the chosen policies over a table of this kind.
fn run_chosen<T: TagTable<Tag = AllTag>>(
    alloc: Global,
    choice: Choice,
    image: &Image,
    limits: Limits,
) -> Result<Run, Fail> {
    let policy = choose(alloc, Basis { choice }, image)?;
    run_over::<_, T>(alloc, policy, image, limits)
}

/// The same over a table of parts. Few functions name all its tables: the proof of each that does so writes them out.
#[inline(never)]
fn run_in_parts(alloc: Global, choice: Choice, image: &Image, limits: Limits) -> Result<Run, Fail> {
    run_chosen::<AllTable>(alloc, choice, image, limits)
}

/// Whether the image starts under the chosen policies over a table of parts, where so many tags may have words.
fn is_started(alloc: Global, choice: Choice, image: &Image, tags: u32) -> Result<bool, Fail> {
    if tags == 0 {
        return Err("no room")?;
    }
    let policy = choose(alloc, Basis { choice }, image)?;
    let log = NoLog::new();
    match start_cached::<_, AllTable, RuleCache, NoLog<AllTag>>(
        alloc, policy, image, 1, 1024, tags, log,
    ) {
        Ok(_) => Ok(true),
        Err(LoadEnd::TagsOut) => Ok(false),
        Err(LoadEnd::Memory) => Err("no memory")?,
    }
}

/// How many rules are kept, of how many tags, and whether tags are swept then.
const ROOMS: &[(u32, u32, bool)] = &[(1024, 65_536, false), (16, 65_536, false), (1024, 32, true)];

#[test]
fn runs_are_alike_over_tables_of_both_kinds(rt: HostRuntime) -> Result<(), Fail> {
    let image = image_of(rt.alloc(), ROUNDS)?;
    for &(cache, tags, swept) in ROOMS {
        let limits = Limits {
            cache,
            tags,
            turns: 10_000,
        };
        let whole = run_chosen::<Interner<AllTag>>(rt.alloc(), EVERY_POLICY, &image, limits)?;
        let parts = run_in_parts(rt.alloc(), EVERY_POLICY, &image, limits)?;
        assert!(rt; parts.is_alike(&whole), "{cache} rules, {tags} tags");
        assert!(rt;
            parts.output.as_slice() == LETTERS,
            "{cache} rules, {tags} tags"
        );
        assert!(rt; parts.ended == Some(TurnEnd::Stopped(Stop::Exit(0))));
        assert_eq!(rt;
            parts.counts.sweeps > 0,
            swept,
            "{cache} rules, {tags} tags"
        );
    }
    Ok(())
}

/// A run over a table of parts, and what is told of it.
struct Row {
    source: &'static [u8],
    choice: Choice,
    limits: Limits,
    /// How the last turn ended, `None` where its instruction ran.
    ended: Option<TurnEnd>,
    turns: u64,
    hits: u64,
    misses: u64,
}

const ROWS: &[Row] = &[
    Row {
        source: LOOP,
        choice: NO_POLICY,
        limits: Limits {
            cache: 2,
            tags: 65_536,
            turns: 6,
        },
        ended: None,
        turns: 6,
        hits: 4,
        misses: 2,
    },
    Row {
        source: LOOP,
        choice: NO_POLICY,
        limits: Limits {
            cache: 1,
            tags: 65_536,
            turns: 6,
        },
        ended: None,
        turns: 6,
        hits: 0,
        misses: 6,
    },
    Row {
        source: LINE,
        choice: NO_POLICY,
        limits: Limits {
            cache: 2,
            tags: 65_536,
            turns: 5,
        },
        ended: None,
        turns: 5,
        hits: 2,
        misses: 3,
    },
    // the key wants a second tag
    Row {
        source: KEY,
        choice: SEALING,
        limits: Limits {
            cache: 1024,
            tags: 1,
            turns: 3,
        },
        ended: Some(TurnEnd::TagsOut),
        turns: 1,
        hits: 0,
        misses: 2,
    },
    Row {
        source: KEY,
        choice: SEALING,
        limits: Limits {
            cache: 1024,
            tags: 2,
            turns: 3,
        },
        ended: Some(TurnEnd::Stopped(Stop::Fault(Fault::Illegal(0)))),
        turns: 3,
        hits: 0,
        misses: 2,
    },
];

/// Whether the run went as the row tells.
fn is_as_told(run: &Run, row: &Row) -> bool {
    run.ended == row.ended
        && run.counts.turns == row.turns
        && run.counts.hits == row.hits
        && run.counts.misses == row.misses
}

#[test]
fn rows_over_tables_of_parts_are_as_told(rt: HostRuntime) -> Result<(), Fail> {
    for row in ROWS {
        let image = image_of(rt.alloc(), row.source)?;
        let run = run_in_parts(rt.alloc(), row.choice, &image, row.limits)?;
        assert!(rt; is_as_told(&run, row));
    }
    Ok(())
}

/// How many blocks a workload has, and the turns, hits and misses of its run.
const WORKLOADS: &[(u32, u64, u64, u64)] = &[(1, 9, 1, 8), (2, 22, 12, 10)];

#[test]
fn workloads_over_tables_of_parts_are_as_told(rt: HostRuntime) -> Result<(), Fail> {
    let limits = Limits {
        cache: 1024,
        tags: 65_536,
        turns: 10_000,
    };
    for &(blocks, turns, hits, misses) in WORKLOADS {
        let image = image_of(rt.alloc(), &write_workload(rt.alloc(), blocks)?)?;
        let run = run_in_parts(rt.alloc(), EVERY_POLICY, &image, limits)?;
        assert!(rt;
            run.ended == Some(TurnEnd::Stopped(Stop::Exit(0))),
            "{blocks} blocks"
        );
        assert_eq!(rt; run.counts.turns, turns, "{blocks} blocks");
        assert_eq!(rt; run.counts.hits, hits, "{blocks} blocks");
        assert_eq!(rt; run.counts.misses, misses, "{blocks} blocks");
    }
    Ok(())
}

#[test]
fn a_workload_needs_more_than_one_tag_at_its_start(rt: HostRuntime) -> Result<(), Fail> {
    let image = image_of(rt.alloc(), &write_workload(rt.alloc(), 1)?)?;
    assert!(rt; !is_started(rt.alloc(), EVERY_POLICY, &image, 1)?);
    assert!(rt; is_started(rt.alloc(), EVERY_POLICY, &image, 65_536)?);
    Ok(())
}
