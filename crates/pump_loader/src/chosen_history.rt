//! The start on an engine whose last turns can be taken back, that suits how many rules may be kept.

ghost use Rattle.std.specs.Prelude.{◌≡◌, ◌≤◌};
ghost use Rattle.cache_size.specs.Sizes.{IsCacheSize};
ghost use Rattle.engine_trait.specs.Standing.{with_history_for};
ghost use Rattle.pump_loader.specs.ChosenLoads.{start_with};
ghost use Rattle.pump_loader.specs.ChosenHistories.{remembering_start_of_chosen};

use crate::load::PumpLoad;
use crate::plain_load::PlainLoad;
use crate::remembering::{RememberingPlainLoad, RememberingPumpLoad};
use crate::whole::Whole;
use cache_size::CacheSize;
use image_format::Image;
use policy_choice::Basis;
use rule_cache::RuleCache;
use set_cache::SetCache;
use std::alloc::Global;

/// The start of an image under the policies that a basis chooses, as `W`, on the engine that suits how many rules may be kept, and whose
/// last turns can be taken back.
#[derive(Drop)]
pub enum RememberingLoad<'a, W: Whole> {
    /// No rules are kept: every turn asks the policies, and no tag has a word.
    Asked(RememberingPlainLoad<'a, W>),
    /// Some rules may be kept, in one set.
    Kept(RememberingPumpLoad<'a, W, RuleCache>),
    /// Some rules may be kept, in several sets.
    InSets(RememberingPumpLoad<'a, W, SetCache>),
}

/// The start of this image on this basis and with these secret bytes, with room for so many rules, with words for at most `tags` tags where
/// some may be kept, and with room for the records of at most `most` turns, 0 to 65,536.
pub fn remembering_load<'a, W: Whole>(
    alloc: Global,
    image: &'a Image,
    basis: Basis,
    secret: &'a [u8],
    cache: CacheSize,
    tags: u32,
    most: u32,
) -> RememberingLoad<'a, W>
    requires rules { IsCacheSize cache }
    requires tags { 1 ≤ tags }
    requires few { most ≤ 65536 }
    ensures starts { remembering_start_of_chosen W.Tag.eq W.Policy.model W.chosen result
        ≡ with_history_for most (start_with W.Tag.eq W.Policy.model
        (W.chosen basis secret.now image.now) cache tags image.now) }
{
    if cache.keeps_no_rule() {
        let load = PlainLoad::new(alloc, image, basis, secret);
        return RememberingLoad::Asked(RememberingPlainLoad::new(alloc, load, most));
    }
    if cache.sets == 1 {
        let load = PumpLoad::new(alloc, image, basis, secret, cache, tags);
        return RememberingLoad::Kept(RememberingPumpLoad::new(alloc, load, most));
    }
    let load = PumpLoad::new(alloc, image, basis, secret, cache, tags);
    RememberingLoad::InSets(RememberingPumpLoad::new(alloc, load, most))
}
