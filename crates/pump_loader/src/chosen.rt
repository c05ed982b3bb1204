//! The start that suits how many rules may be kept.

ghost use Rattle.std.specs.Prelude.{◌≡◌, ◌<◌, ◌≤◌, false, true};
ghost use Rattle.cache_size.specs.Sizes.{IsCacheSize, keeps_no_rule};
ghost use Rattle.pump_loader.specs.ChosenLoads.{start_of_chosen, start_with};

use crate::load::PumpLoad;
use crate::plain_load::PlainLoad;
use crate::whole::Whole;
use cache_size::CacheSize;
use image_format::Image;
use policy_choice::Basis;
use rule_cache::RuleCache;
use set_cache::SetCache;
use std::alloc::Global;

/// The start of an image under the policies that a basis chooses, as `W`, on the engine that suits how many rules may be kept.
/// A caller that runs it has a case for each engine, and so a loop for each.
#[derive(Drop)]
pub enum ChosenLoad<'a, W: Whole> {
    /// No rules are kept: every turn asks the policies, and no tag has a word.
    Asked(PlainLoad<'a, W>),
    /// Some rules may be kept, in one set.
    Kept(PumpLoad<'a, W, RuleCache>),
    /// Some rules may be kept, in several sets.
    InSets(PumpLoad<'a, W, SetCache>),
}

/// The start of this image on this basis and with these secret bytes, with room for so many rules, and with words for at most
/// `tags` tags where some may be kept.
pub fn chosen_load<'a, W: Whole>(
    alloc: Global,
    image: &'a Image,
    basis: Basis,
    secret: &'a [u8],
    cache: CacheSize,
    tags: u32,
) -> ChosenLoad<'a, W>
    requires rules { IsCacheSize cache }
    requires tags { 1 ≤ tags }

    // Which it is.
    ensures asked { keeps_no_rule cache ≡ true → result
        ≡ ChosenLoad.Asked (record { image = image.now; basis = basis; secret = secret.now }) }
    ensures kept { keeps_no_rule cache ≡ false → cache.sets ≡ 1 → result ≡ ChosenLoad.Kept
        (record {
          image = image.now;
          basis = basis;
          secret = secret.now;
          cache = cache;
          tags = tags;
        }) }
    ensures in_sets { keeps_no_rule cache ≡ false → 1 < cache.sets → result ≡ ChosenLoad.InSets
        (record {
          image = image.now;
          basis = basis;
          secret = secret.now;
          cache = cache;
          tags = tags;
        }) }

    // What it starts.
    ensures starts { start_of_chosen W.Tag.eq W.Policy.model W.chosen result
        ≡ start_with W.Tag.eq W.Policy.model (W.chosen basis secret.now image.now)
        cache tags image.now }
{
    if cache.keeps_no_rule() {
        return ChosenLoad::Asked(PlainLoad::new(alloc, image, basis, secret));
    }
    if cache.sets == 1 {
        return ChosenLoad::Kept(PumpLoad::new(alloc, image, basis, secret, cache, tags));
    }
    ChosenLoad::InSets(PumpLoad::new(alloc, image, basis, secret, cache, tags))
}
