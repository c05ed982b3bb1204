//! `SetCache`: the rules in sets, each by recency.

ghost use Rattle.std.specs.Prelude.{◌≡◌, ℕ, ◌*◌, ◌≤◌, List, [], IfOk, IsOk, map, replicate};
ghost use Rattle.std.specs.List.{AllByRecursion};
ghost use Rattle.rule_cache.specs.Stores.{store_with};
ghost use Rattle.set_cache.specs.Sets.{AreHeld, IsHeld, rules_of};

use crate::numbers::{GROUPS, number_of, set_numbers};
use crate::set::{Rule, find_in, keep_in};
use rule_cache::{Key, OutWords, RuleStore};
use shared_terms::count_up;
use std::alloc::{AllocError, Global};
use std::marker::Model;

/// A store of sets by a key's group. It takes all its memory when it is made.
#[derive(Drop)]
pub struct SetCache {
    sets: Vec<Vec<Rule>>,
    numbers: [u8; GROUPS],
    ways: usize,
    hits: u64,
    misses: u64,
}

impl Model for SetCache {
    ghost use Rattle.rule_cache.specs.Stores.{Store};
    ghost use Rattle.set_cache.specs.Sets.{AreHeld, store_of};

    ghost Value = { Store };

    ghost view = { λ c. store_of c.ways c.hits c.misses c.sets.items };

    ghost invariant = { λ c. AreHeld c.ways c.numbers c.sets.items };
}

impl RuleStore for SetCache {
    ghost state = { λ store. store };

    ghost fits = { λ sets ways. sets * ways ≤ 65536 };

    fn made(alloc: Global, sets: u32, ways: u32) -> Result<Self, AllocError> {
        let ways = ways as usize;
        let numbers = set_numbers(sets as usize);
        let sets = empty_sets(alloc, sets, ways)?;
        Ok(SetCache {
            sets,
            numbers,
            ways,
            hits: 0,
            misses: 0,
        })
    }

    #[inline(always)]
    fn find(&mut self, key: &Key) -> Option<OutWords> {
        let number = number_of(&self.numbers, key.group);
        let found = find_in(&mut self.sets[number], *key);
        if found.is_some() {
            count_up(&mut self.hits);
        } else {
            count_up(&mut self.misses);
        }
        found
    }

    // Each set has its memory from the start, so that nothing is wanting.
    fn keep(&mut self, key: Key, words: OutWords) -> Result<(), AllocError>
        ensures ok { IsOk result }
        ensures kept { self.new ≡ store_with key words self.old }
    {
        let number = number_of(&self.numbers, key.group);
        keep_in(&mut self.sets[number], self.ways, (key, words));
        Ok(())
    }

    fn clear(&mut self) {
        empty_all(&mut self.sets);
    }

    fn hits(&self) -> u64 {
        self.hits
    }

    fn misses(&self) -> u64 {
        self.misses
    }
}

// Sets without a rule, so many, with room for so many rules in each.
fn empty_sets(alloc: Global, sets: u32, ways: usize) -> Result<Vec<Vec<Rule>>, AllocError>
    ensures empty { IfOk result (λ made. rules_of made.items ≡ replicate sets []) }
    ensures held { IfOk result (λ made. AllByRecursion (IsHeld ways) made.items) }
{
    let mut made = Vec::with_capacity(alloc, sets as usize)?;
    for _set in 0..sets {
        made.push(Vec::with_capacity(alloc, ways)?)?;
    }
    Ok(made)
}

// Drops the rules of each set.
fn empty_all(sets: &mut Vec<Vec<Rule>>)
    ensures empty { rules_of sets.new.items ≡ map (λ _. []) (rules_of sets.old.items) }
    ensures held { (ways : ℕ) (numbers : List ℕ)
        → AreHeld ways numbers sets.old.items → AreHeld ways numbers sets.new.items }
{
    for set in sets.iter_mut() {
        set.clear();
    }
}
