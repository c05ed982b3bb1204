//! `RuleCache`: the rules in one set by recency.

ghost use Rattle.std.specs.Prelude.{◌≡◌, ◌≤◌, [], ◌∷◌, IfNone, IfSome};
ghost use Rattle.std.specs.Map.{lookup};
ghost use Rattle.lru.specs.LruCache.{lru_cache};
ghost use Rattle.rule_cache.specs.Keys.{key_eq};
ghost use Rattle.rule_cache.specs.Stores.{Store, store_without_rules, empty_store, lookup_of, looked_for, store_with, with_rule};

use crate::front::FrontedRules;
use crate::key::{Key, OutWords};
use crate::store::RuleStore;
use shared_terms::count_up;
use std::alloc::{AllocError, Global};
use std::num::NonZeroUsize;

/// A store of one set, under a hash of the keys.
#[derive(Drop)]
pub struct RuleCache {
    rules: FrontedRules,
    hits: u64,
    misses: u64,
}

impl RuleStore for RuleCache {
    ghost state = { λ c. record {
      sets = c.rules.entries ∷ [];
      ways = c.rules.cap;
      hits = c.hits;
      misses = c.misses;
    } };

    ghost fits = { λ sets ways. sets ≡ 1 };

    fn made(alloc: Global, _sets: u32, ways: u32) -> Result<Self, AllocError> {
        let ways = NonZeroUsize::new(ways as usize).unwrap();
        let rules = FrontedRules::new(alloc, ways)?;
        Ok(RuleCache {
            rules,
            hits: 0,
            misses: 0,
        })
    }

    #[inline(always)]
    fn find(&mut self, key: &Key) -> Option<OutWords> {
        let found = moved(&mut self.rules, key);
        if found.is_some() {
            count_up(&mut self.hits);
        } else {
            count_up(&mut self.misses);
        }
        found
    }

    fn keep(&mut self, key: Key, words: OutWords) -> Result<(), AllocError> {
        self.rules.are_valid(); // no two keys are the same
        self.rules.put(key, words)?;
        Ok(())
    }

    fn clear(&mut self) {
        self.rules.clear();
    }

    fn hits(&self) -> u64 {
        self.hits
    }

    fn misses(&self) -> u64 {
        self.misses
    }
}

// The outputs of the rule with this key, which goes to the front.
#[inline(always)]
fn moved(rules: &mut FrontedRules, key: &Key) -> Option<OutWords>
    ensures found { result ≡ lookup (key_eq key.now) rules.old.entries }
    ensures hit { IfSome result (λ words. rules.new
        ≡ lru_cache (with_rule rules.old.cap key.now words rules.old.entries) rules.old.cap) }
    ensures miss { IfNone result (rules.new ≡ rules.old) }
{
    rules.are_valid(); // no two keys are the same, and they fit
    rules.get(*key)
}
