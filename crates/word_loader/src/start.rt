//! The engine that keeps rules, at the start of an image.

ghost use Rattle.std.specs.Prelude.{◌≡◌, ◌*◌, ◌<◌, ◌≤◌, [], Err, IfOk, OnOk, Some, false, length, slice_get, true};
ghost use Rattle.engine_trait.specs.Accounts.{is_over, with_tags};
ghost use Rattle.engine_trait.specs.Standing.{with_history_for};
ghost use Rattle.pump_engine.specs.Pump.{standing_by_words};
ghost use Rattle.word_loader.specs.Named.{AreHartsOf, AreWordsOf};
ghost use Rattle.tag_loader.specs.Start.{start_harts, start_tags};
ghost use Rattle.tag_memory.specs.Pages.{items_of};
ghost use Rattle.word_loader.specs.CachedStart.{cached_account, cached_standing, first_tags};

use crate::words::{word_harts, word_tags};
use engine_trait::LoadEnd;
use image_format::Image;
use policy_trait::Policy;
use pump_engine::Pump;
use rule_cache::RuleStore;
use std::alloc::Global;
use tag_intern::{InternEnd, TagTable};
use tag_loader::words_of;
use tag_memory::{Hart, Pages, Ram};
use undo_log::WordLog;

/// The harts and the tags of memory at the start, as words of a table that had none: the plain tag gets word 0, then each
/// tag of a hart's pc gets one, and each of a word of memory.
///
/// `Full` is told only where the start has more tags than the table may.
fn first_words<P: Policy, T: TagTable<Tag = P::Tag>>(
    alloc: Global,
    policy: &P,
    image: &Image,
    table: &mut T,
) -> Result<(Vec<Hart<u32>>, Pages<u32>), InternEnd>
    requires { (T.state table.old).tags ≡ [] }
    ensures seen { OnOk result ((T.state table.new).tags ≡ with_tags P.Tag.eq []
        (first_tags P.model policy.now image.now)) }
    ensures limit { (T.state table.new).limit ≡ (T.state table.old).limit }
    ensures plain { OnOk result (slice_get (T.state table.new).tags 0
        ≡ Some (P.model.plain policy.now)) }
    ensures harts { IfOk result (λ parts. AreHartsOf (T.state table.new).tags
        (start_harts P.model policy.now image.now) parts.0.items) }
    ensures words { IfOk result (λ parts. AreWordsOf (T.state table.new).tags
        (start_tags P.model policy.now image.now) (items_of parts.1)) }
    ensures size { IfOk result (λ parts. 4 * length (items_of parts.1) ≡ image.now.ram) }
    ensures full { result ≡ Err InternEnd.Full → (T.state table.old).limit
        < length (with_tags P.Tag.eq [] (first_tags P.model policy.now image.now)) }
{
    table.intern(policy.plain())?;
    let harts = word_harts(alloc, policy, image, table)?;
    let tags = word_tags(alloc, policy, image, table)?;
    Ok((harts, tags))
}

/// The engine at the start of the image under this policy, that keeps rules in `sets` sets of at most `ways` each, has words for at
/// most `limit` tags, and keeps the records of its turns in this log, which has none yet.
///
/// `TagsOut` is told only where the start has more tags than `limit`, and an engine is made only where it hasn't; else memory
/// was out.
pub fn start_cached<P: Policy, T: TagTable<Tag = P::Tag>, C: RuleStore, H: WordLog<Tag = P::Tag>>(
    alloc: Global,
    policy: P,
    image: &Image,
    sets: u32,
    ways: u32,
    limit: u32,
    log: H,
) -> Result<Pump<P, T, C, H>, LoadEnd>
    requires room { P.model.room policy ≤ image.now.ram }
    requires sets { 1 ≤ sets }
    requires ways { 1 ≤ ways }
    requires fits { C.fits sets ways }
    requires limit { 1 ≤ limit }
    requires empty { (H.past log).kept ≡ [] }
    ensures start { IfOk result (λ engine. standing_by_words P.model engine
        ≡ with_history_for (H.past log).most
        (cached_standing P.Tag.eq P.model policy image.now sets ways limit)) }
    ensures within { IfOk result (λ engine. is_over
        (cached_account P.Tag.eq P.model policy image.now sets ways limit) ≡ false) }
    ensures out { result ≡ Err LoadEnd.TagsOut → is_over
        (cached_account P.Tag.eq P.model policy image.now sets ways limit) ≡ true }
{
    let Ok(mut table) = T::made(alloc, limit) else {
        return Err(LoadEnd::Memory);
    };
    let (harts, tags) = match first_words(alloc, &policy, image, &mut table) {
        Ok(parts) => parts,
        Err(InternEnd::Full) => return Err(LoadEnd::TagsOut),
        Err(InternEnd::Memory) => return Err(LoadEnd::Memory),
    };
    let Ok(words) = words_of(alloc, image) else {
        return Err(LoadEnd::Memory);
    };
    let Ok(store) = C::made(alloc, sets, ways) else {
        return Err(LoadEnd::Memory);
    };
    // These serve the proof alone: the sizes of memory, 1 to 8 harts, and that no more tags have words than may.
    let (_ram, _entries, _count) = (image.ram(), image.entries(), table.len());
    Ok(Pump::new(
        alloc,
        policy,
        Ram::from_parts(words, tags, 0),
        harts,
        table,
        store,
        log,
    ))
}
