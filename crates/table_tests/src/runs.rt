//! Runs of an image on the engine that keeps rules, over a table of any kind.

ghost use Rattle.std.specs.Prelude.{◌≤◌};

use engine_trait::{Counts, Engine, Feed, TurnEnd};
use image_format::Image;
use policy_trait::Policy;
use pump_engine::Pump;
use rule_cache::RuleCache;
use std::alloc::{AllocError, Global};
use std::test::Fail;
use tag_intern::TagTable;
use undo_log::NoLog;
use word_loader::start_cached;

/// How a run went.
#[derive(Drop)]
pub(crate) struct Run {
    /// What was put out.
    pub(crate) output: Vec<u8>,
    /// How the last turn ended.
    pub(crate) ended: Option<TurnEnd>,
    /// The counts in the end.
    pub(crate) counts: Counts,
    /// How many tags had words in the end.
    pub(crate) words: u32,
}

impl Run {
    /// Whether two runs went alike.
    pub(crate) fn is_alike(&self, other: &Run) -> bool {
        self.output.as_slice() == other.output.as_slice()
            && self.ended == other.ended
            && self.counts == other.counts
            && self.words == other.words
    }
}

/// A turn of hart 0, `None` where there is none.
fn turn_of_first<E: Engine>(engine: &mut E, feed: &mut Feed) -> Option<TurnEnd> {
    if engine.harts() == 0 {
        return None;
    }
    Some(engine.turn(0, feed))
}

/// Makes at most so many turns of hart 0, up to one that ends otherwise than that its instruction ran, and appends what they
/// put out. The result is how that turn ended, `None` where none did.
fn run_out<E: Engine>(
    alloc: Global,
    engine: &mut E,
    turns: u32,
    output: &mut Vec<u8>,
) -> Result<Option<TurnEnd>, AllocError> {
    let mut feed = Feed::new(alloc);
    for _ in 0..turns {
        match turn_of_first(engine, &mut feed) {
            Some(TurnEnd::Ran(None)) => (),
            Some(TurnEnd::Ran(Some(byte))) => output.push(byte)?,
            end => return Ok(end),
        }
    }
    Ok(None)
}

/// How long a run may be, and what may be kept in it.
#[derive(Clone, Copy)]
pub(crate) struct Limits {
    /// The most rules that are kept.
    pub(crate) cache: u32,
    /// The most tags that have words.
    pub(crate) tags: u32,
    /// The most turns.
    pub(crate) turns: u32,
}

/// The run of the image on the engine that keeps rules, within these limits.
#[inline(never)]
pub(crate) fn run_over<P: Policy, T: TagTable<Tag = P::Tag>>(
    alloc: Global,
    policy: P,
    image: &Image,
    limits: Limits,
) -> Result<Run, Fail>
    requires { P.model.room policy ≤ image.now.ram }
{
    if limits.cache == 0 || limits.tags == 0 {
        return Err("no room")?;
    }
    let log = NoLog::new();
    let started = start_cached(alloc, policy, image, 1, limits.cache, limits.tags, log);
    let mut engine: Pump<P, T, RuleCache, NoLog<P::Tag>> = started.ok().ok_or("no engine")?;
    let mut output = Vec::new(alloc);
    let ended = run_out(alloc, &mut engine, limits.turns, &mut output)?;
    Ok(Run {
        output,
        ended,
        counts: engine.counts(),
        words: engine.words(),
    })
}
