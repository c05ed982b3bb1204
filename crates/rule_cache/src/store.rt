//! `RuleStore`: what an engine asks of the rules that it keeps.

ghost use Rattle.std.specs.Prelude.{◌≡◌, ◌≤◌, IfOk, IsOk, IsSome, OnErr, OnOk};
ghost use Rattle.rule_cache.specs.Stores.{Store, store_without_rules, empty_store, lookup_of, looked_for, store_with};

use crate::key::{Key, OutWords};
use std::alloc::{AllocError, Global};

/// Rules by their keys in sets, as many in each as it has ways, the most recent first. A rule belongs to the set that its
/// group's number falls to.
///
/// The counts stand still at 2^64 - 1. Of the calls, `made` and `keep` alone take memory.
pub trait RuleStore: Drop {
    ghost use Rattle.std.specs.Prelude.{ℕ};

    /// What is kept, and the counts.
    ghost state: { Self → Store };

    /// Of how many sets, of how many ways each, it can be.
    ghost fits: { ℕ → ℕ → Type 0 };

    /// A store of so many sets of so many ways, with no rule in it and no look-ups counted. Its error is running out of memory.
    fn made(alloc: Global, sets: u32, ways: u32) -> Result<Self, AllocError>
        requires some { 1 ≤ sets }
        requires room { 1 ≤ ways }
        requires fits { fits sets ways }
        ensures empty { IfOk result (λ made. state made ≡ empty_store sets ways) };

    /// The outputs of the rule with this key, which becomes the most recent one of its set, and a hit is counted. Where
    /// none is kept a miss is counted, and nothing else changes.
    fn find(&mut self, key: &Key) -> Option<OutWords>
        ensures found { result ≡ lookup_of key.now (state self.old) }
        ensures state { state self.new ≡ looked_for key.now (state self.old) };

    /// Keeps a rule as the most recent one of its set, in the place of one with its key. Where the set has more rules then
    /// than ways, the last one goes. Nothing is counted. Running out of memory changes nothing, and never comes where the key is
    /// there.
    fn keep(&mut self, key: Key, words: OutWords) -> Result<(), AllocError>
        ensures kept { OnOk result (state self.new ≡ store_with key words (state self.old)) }
        ensures known { IsSome (lookup_of key (state self.old)) → IsOk result }
        ensures refused { OnErr result (state self.new ≡ state self.old) };

    /// Drops every rule. The counts stay.
    fn clear(&mut self)
        ensures { state self.new ≡ store_without_rules (state self.old) };

    /// The look-ups that found a rule.
    fn hits(&self) -> u64
        ensures { result ≡ (state self.now).hits };

    /// The look-ups that found none.
    fn misses(&self) -> u64
        ensures { result ≡ (state self.now).misses };
}
