//! Where a program of one hart ends under a policy, with and without kept rules.

ghost use Rattle.std.specs.Prelude.{◌≡◌, ◌≤◌};

use crate::images::{image_of, keeping, turn_of};
use engine_trait::{Engine, Feed, Stop};
use image_format::Image;
use policy_trait::Policy;
use std::alloc::Global;
use std::test::Fail;
use tag_loader::start_under;

/// The pc and the stop of hart 0, `None` where there is none.
pub(crate) type End = Option<(u32, Option<Stop>)>;

/// The end of the program after so many turns, fed so, under this policy, on an engine that keeps `cache` rules (0: the engine is
/// that without kept rules).
#[inline(never)]
pub(crate) fn end_under<P: Policy>(
    alloc: Global,
    policy: P,
    cache: u32,
    words: &[u32],
    feed: &mut Feed,
    turns: u32,
) -> Result<End, Fail>
    requires { P.model.room policy ≡ 0 }
{
    let image = image_of(alloc, 256, &[0], words)?;
    if cache == 0 {
        end_asked(alloc, policy, &image, feed, turns)
    } else {
        end_kept(alloc, policy, cache, &image, feed, turns)
    }
}

/// The same of an image on the engine without kept rules.
fn end_asked<P: Policy>(
    alloc: Global,
    policy: P,
    image: &Image,
    feed: &mut Feed,
    turns: u32,
) -> Result<End, Fail>
    requires { P.model.room policy ≤ image.now.ram }
{
    let mut engine = start_under(alloc, policy, image)?;
    Ok(end_after(&mut engine, feed, turns))
}

/// The same on an engine that keeps rules.
fn end_kept<P: Policy>(
    alloc: Global,
    policy: P,
    cache: u32,
    image: &Image,
    feed: &mut Feed,
    turns: u32,
) -> Result<End, Fail>
    requires { P.model.room policy ≤ image.now.ram }
{
    let mut engine = keeping(alloc, policy, image, cache, 65_536)?;
    Ok(end_after(&mut engine, feed, turns))
}

/// The end after so many turns of hart 0.
fn end_after<E: Engine>(engine: &mut E, feed: &mut Feed, turns: u32) -> End {
    for _ in 0..turns {
        turn_of(engine, feed, 0);
    }
    if engine.harts() == 0 {
        return None;
    }
    Some((engine.pc(0), engine.stop(0)))
}
