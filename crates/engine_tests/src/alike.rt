//! Random programs, which both engines run alike.

use crate::images::{image_of, keeping, turn_of};
use crate::programs::program;
use engine_trait::{Engine, Feed};
use image_format::Image;
use sealing_policy::Sealing;
use std::alloc::Global;
use std::test::Fail;
use tag_loader::start_under;

/// Whether two engines have that hart, with the same pc and its tag, and with the same stop.
fn is_hart_alike<E: Engine<P = Sealing>, F: Engine<P = Sealing>>(
    one: &E,
    other: &F,
    h: u32,
) -> bool {
    if h >= one.harts() || h >= other.harts() {
        return false;
    }
    one.pc(h) == other.pc(h) && one.pc_tag(h) == other.pc_tag(h) && one.stop(h) == other.stop(h)
}

/// Whether a hart of two engines has the same value and tag in that register.
fn is_register_alike<E: Engine<P = Sealing>, F: Engine<P = Sealing>>(
    one: &E,
    other: &F,
    h: u32,
    r: u32,
) -> bool {
    if h >= one.harts() || h >= other.harts() || r >= 32 {
        return false;
    }
    one.reg(h, r) == other.reg(h, r) && one.reg_tag(h, r) == other.reg_tag(h, r)
}

/// Whether two engines have the same memory word of that number, with the same tag.
fn is_word_alike<E: Engine<P = Sealing>, F: Engine<P = Sealing>>(
    one: &E,
    other: &F,
    n: u32,
) -> bool {
    if n >= one.ram() / 4 || n >= other.ram() / 4 {
        return false;
    }
    let at = 4 * n;
    one.word(at) == other.word(at) && one.word_tag(at) == other.word_tag(at)
}

/// Whether two engines have the same harts, registers included.
fn are_harts_alike<E: Engine<P = Sealing>, F: Engine<P = Sealing>>(one: &E, other: &F) -> bool {
    for h in 0..one.harts() {
        if !is_hart_alike(one, other, h) {
            return false;
        }
        for r in 0..32 {
            if !is_register_alike(one, other, h, r) {
                return false;
            }
        }
    }
    one.harts() == other.harts()
}

/// Whether two engines have the same memory.
fn are_words_alike<E: Engine<P = Sealing>, F: Engine<P = Sealing>>(one: &E, other: &F) -> bool {
    for n in 0..one.ram() / 4 {
        if !is_word_alike(one, other, n) {
            return false;
        }
    }
    one.ram() == other.ram()
}

/// How many turns a random program has, over all harts.
const TURNS: u32 = 10_000;

/// Makes the turns of both engines, of hart 0 and of hart 1 by turns. The result is the first turn that ends otherwise on
/// the second engine, or leaves there another hart, register or memory word. Of these it looks at one a turn.
fn first_difference<E: Engine<P = Sealing>, F: Engine<P = Sealing>>(
    alloc: Global,
    one: &mut E,
    other: &mut F,
) -> Option<u32> {
    let (mut feed, mut other_feed) = (Feed::new(alloc), Feed::new(alloc));
    for turn in 0..TURNS {
        let h = turn % 2;
        let ended = turn_of(one, &mut feed, h);
        if ended != turn_of(other, &mut other_feed, h)
            || !is_hart_alike(one, other, h)
            || !is_register_alike(one, other, h, turn / 2 % 32)
            || !is_word_alike(one, other, turn % 256)
        {
            return Some(turn);
        }
    }
    None
}

/// Whether that hart is there and can have a turn.
fn is_running<E: Engine>(engine: &E, h: u32) -> bool {
    h < engine.harts() && engine.stop(h).is_none() && engine.halt().is_none()
}

/// Which random program it is, and whether hart 0 and hart 1 are still running after its turns.
const SEEDS: &[(u32, bool, bool)] = &[
    (60, true, true),
    (154, true, true),
    (252, true, true),
    (328, true, true),
    (1152, false, true),
    (399, false, false),
];

/// How many rules are kept.
const CACHES: &[u32] = &[1, 3, 1024];

/// Makes the turns of both engines. `Err` says what they do not have in common; the result is whether each of the harts is
/// still running.
fn run_alike<E: Engine<P = Sealing>, F: Engine<P = Sealing>>(
    alloc: Global,
    one: &mut E,
    other: &mut F,
) -> Result<(bool, bool), &'static str> {
    if first_difference(alloc, one, other).is_some() {
        return Err("a turn differs");
    }
    if !are_harts_alike(one, other) || !are_words_alike(one, other) {
        return Err("an end differs");
    }
    if one.counts().turns != other.counts().turns || one.halt() != other.halt() {
        return Err("a count differs");
    }
    Ok((is_running(one, 0), is_running(one, 1)))
}

/// Runs the image on the engine without kept rules and on one that keeps `cache` of them, as `run_alike` does.
#[inline(never)]
fn run_both(
    alloc: Global,
    image: &Image,
    cache: u32,
) -> Result<Result<(bool, bool), &'static str>, Fail> {
    let mut plain = start_under(alloc, Sealing::new(), image)?;
    run_beside(alloc, &mut plain, image, cache)
}

/// Runs the image beside this engine on one that keeps `cache` rules, as `run_alike` does.
fn run_beside<E: Engine<P = Sealing>>(
    alloc: Global,
    plain: &mut E,
    image: &Image,
    cache: u32,
) -> Result<Result<(bool, bool), &'static str>, Fail> {
    let mut kept = keeping(alloc, Sealing::new(), image, cache, 65_536)?;
    Ok(run_alike(alloc, plain, &mut kept))
}

#[test]
fn both_engines_run_alike(rt: HostRuntime) -> Result<(), Fail> {
    for &(seed, first, second) in SEEDS {
        let words = program(rt.alloc(), seed)?;
        let middle = u32::try_from(words.len() / 2).unwrap_or(0).wrapping_mul(4);
        let image = image_of(rt.alloc(), 1024, &[0, middle], &words)?;
        for &cache in CACHES {
            let running = run_both(rt.alloc(), &image, cache)?;
            assert_eq!(rt; running, Ok((first, second)), "seed {seed}, cache {cache}");
        }
    }
    Ok(())
}
