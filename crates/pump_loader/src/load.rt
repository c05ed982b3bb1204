//! A start that can be made again and again.
ghost use Rattle.std.specs.Prelude.{◌≡◌, ◌≤◌, [], Err, IfOk, false, true};
ghost use Rattle.engine_trait.specs.Accounts.{is_over};
ghost use Rattle.engine_trait.specs.Standing.{with_history_for};
ghost use Rattle.pump_engine.specs.Pump.{standing_by_words};
ghost use Rattle.pump_loader.specs.Loads.{cached_start_by};

use crate::whole::Whole;
use cache_size::CacheSize;
use engine_trait::{LoadEnd, Loader};
use image_format::Image;
use policy_choice::Basis;
use pump_engine::Pump;
use rule_cache::RuleStore;
use std::alloc::Global;
use std::marker::{Model, PhantomData};
use undo_log::{NoLog, WordLog};
use word_loader::start_cached;

/// The start of an image under the policies that a basis chooses, as `W`, on the engine that keeps rules in a store of this
/// kind and size, with words for at most `tags` tags. It can be made again and again.
#[derive(Drop)]
pub struct PumpLoad<'a, W: Whole, C: RuleStore> {
    alloc: Global,
    image: &'a Image,
    basis: Basis,
    secret: &'a [u8],
    cache: CacheSize,
    tags: u32,
    policy: PhantomData<W>,
    store: PhantomData<C>,
}

impl<'a, W: Whole, C: RuleStore> Model for PumpLoad<'a, W, C> {
    ghost use Rattle.pump_loader.specs.Loads.{CachedLoad, HasRoom};

    ghost Value = { CachedLoad };

    ghost view = { λ l. record {
      image = l.image.now;
      basis = l.basis;
      secret = l.secret.now;
      cache = l.cache;
      tags = l.tags;
    } };

    ghost invariant = { λ l. HasRoom C.fits (record {
      image = l.image.now;
      basis = l.basis;
      secret = l.secret.now;
      cache = l.cache;
      tags = l.tags;
    }) };
}

impl<'a, W: Whole, C: RuleStore> PumpLoad<'a, W, C> {
    /// The start of this image on this basis and with these secret bytes, with room for at least one rule and one tag.
    pub fn new(
        alloc: Global,
        image: &'a Image,
        basis: Basis,
        secret: &'a [u8],
        cache: CacheSize,
        tags: u32,
    ) -> PumpLoad<'a, W, C>
        requires sets { 1 ≤ cache.sets }
        requires ways { 1 ≤ cache.ways }
        requires fits { C.fits cache.sets cache.ways }
        requires tags { 1 ≤ tags }
        ensures { result ≡ record {
          image = image.now;
          basis = basis;
          secret = secret.now;
          cache = cache;
          tags = tags;
        } }
    {
        PumpLoad {
            alloc,
            image,
            basis,
            secret,
            cache,
            tags,
            policy: PhantomData,
            store: PhantomData,
        }
    }

    /// An engine at the start, which keeps the records of its turns in this log, which has none yet.
    pub(crate) fn start<H: WordLog<Tag = W::Tag>>(
        &self,
        log: H,
    ) -> Result<Pump<W, W::Table, C, H>, LoadEnd>
        requires empty { (H.past log).kept ≡ [] }
        ensures start { IfOk result (λ engine. standing_by_words W.Policy.model engine
            ≡ with_history_for (H.past log).most
            (cached_start_by W.Tag.eq W.Policy.model W.chosen self.now)) }
        ensures within { IfOk result (λ engine. is_over
            (cached_start_by W.Tag.eq W.Policy.model W.chosen self.now).account ≡ false) }
        ensures out { result ≡ Err LoadEnd.TagsOut → is_over
            (cached_start_by W.Tag.eq W.Policy.model W.chosen self.now).account ≡ true }
    {
        let Ok(policy) = W::choose(self.alloc, self.basis, self.secret, self.image) else {
            return Err(LoadEnd::Memory);
        };
        start_cached(
            self.alloc,
            policy,
            self.image,
            self.cache.sets,
            self.cache.ways,
            self.tags,
            log,
        )
    }
}

impl<'a, W: Whole, C: RuleStore> Loader for PumpLoad<'a, W, C> {
    ghost use Rattle.pump_loader.specs.Loads.{cached_start_by};

    type E = Pump<W, W::Table, C, NoLog<W::Tag>>;

    ghost start = { cached_start_by W.Tag.eq W.Policy.model W.chosen };

    fn load(&self) -> Result<Pump<W, W::Table, C, NoLog<W::Tag>>, LoadEnd> {
        self.start(NoLog::new())
    }
}
