//! Images and engines of the tests.

ghost use Rattle.std.specs.Prelude.{◌≤◌};

use engine_trait::{Engine, Feed, TurnEnd};
use image_format::{Image, read_image};
use policy_trait::Policy;
use pump_engine::Pump;
use rule_cache::RuleCache;
use std::alloc::Global;
use std::test::Fail;
use tag_intern::Interner;
use undo_log::NoLog;
use word_loader::start_cached;

/// The image with `ram` bytes of memory and harts at these entries, whose one segment has these words at 0.
pub(crate) fn image_of(
    alloc: Global,
    ram: u32,
    entries: &[u32],
    words: &[u32],
) -> Result<Image, Fail> {
    let harts = u16::try_from(entries.len()).unwrap_or(0);
    let count = u32::try_from(words.len()).unwrap_or(0);
    let mut bytes = b"PUMP\x01\x00".to_vec(alloc)?;
    bytes.extend_from_slice(&harts.to_le_bytes())?;
    let fields: [&[u32]; 5] = [&[ram, 0, 0], entries, &[1, 0, count], words, &[0, 0, 0, 0]];
    for field in fields {
        for word in field {
            bytes.extend_from_slice(&word.to_le_bytes())?;
        }
    }
    Ok(read_image(alloc, &bytes).ok().ok_or("no image")?)
}

/// The engine that keeps at most `cache` rules and has words for at most `limit` tags, at the start of the image.
#[inline(never)]
pub(crate) fn keeping<P: Policy>(
    alloc: Global,
    policy: P,
    image: &Image,
    cache: u32,
    limit: u32,
) -> Result<Pump<P, Interner<P::Tag>, RuleCache, NoLog<P::Tag>>, Fail>
    requires { P.model.room policy ≤ image.now.ram }
{
    if cache == 0 || limit == 0 {
        return Err("no room")?;
    }
    let Ok(engine) = start_cached(alloc, policy, image, 1, cache, limit, NoLog::new()) else {
        return Err(Fail::from("no engine"));
    };
    Ok(engine)
}

/// A turn of that hart, `None` where there is none.
pub(crate) fn turn_of<E: Engine>(engine: &mut E, feed: &mut Feed, h: u32) -> Option<TurnEnd> {
    if h < engine.harts() {
        Some(engine.turn(h, feed))
    } else {
        None
    }
}
