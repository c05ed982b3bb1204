//! `FrontedRules`: the rules by recency, behind a front that answers most look-ups and doesn't touch the list.

ghost use Rattle.std.specs.Prelude.{◌≡◌, ◌+◌, ◌-◌, ◌<◌, ◌≤◌, List, [], length, IfOk, IfSome, IsOk, IsSome, IsTrue, OnErr, OnOk, Some, slice_get};
ghost use Rattle.std.specs.Map.{lookup};
ghost use Rattle.std.specs.NonZero.{non_zero_usize_get};
ghost use Rattle.arrayvec.specs.ArrayVec.{array_vec_len};
ghost use Rattle.lru.specs.LruCache.{IsValid, lru_cache, promoted, put_entries};
ghost use Rattle.rule_cache.specs.Fronts.{AreEmpty, AreNoted, Slot as AnySlot, brought_up, emptied, filled, has_key, replayed, rule_with, slot_at, slot_of, touched, without_key};
ghost use Rattle.rule_cache.specs.Stores.{Rules};
ghost use Rattle.rule_cache.specs.Keys.{key_eq};
ghost use Rattle.rule_cache.specs.declared.key.Key.{Key as StoreKey};

use crate::key::{Key, OutWords};
use arrayvec::ArrayVec;
use lru::LruCache;
use std::alloc::{AllocError, Global};
use std::marker::Model;
use std::num::NonZeroUsize;

// A slot for each number of a byte.
const SLOTS: usize = 256;
// How many look-ups may pass before the list catches up.
const LOG: usize = 1024;

// What spreads a key over the bits that its slot's number is taken from: 2^16 by the golden ratio.
const SPREAD: u64 = 40_503;

// A rule, if one stands there.
type Slot = Option<(Key, OutWords)>;

// Numbers of slots: those in which rules were found since the list last caught up, in their order.
type Log = ArrayVec<u8, LOG>;

/// The rules by recency, behind a front of slots, one of which each key belongs to.
///
/// A rule that stands in its key's slot is found there: the list isn't touched, and the slot's number is logged. Before
/// anything else is asked of the list, it catches up with the log. Contracts see the list as it stands once it has.
#[derive(Drop)]
pub struct FrontedRules {
    rules: LruCache<Key, OutWords>,
    slots: Vec<Slot>,
    log: Log,
}

impl Model for FrontedRules {
    ghost use Rattle.std.specs.Prelude.{ℕ};
    ghost use Rattle.lru.specs.LruCache.{LruCache as Entries, lru_cache};
    ghost use Rattle.policy_trait.specs.declared.rules.Outs.{Outs};
    ghost use Rattle.rule_cache.specs.Fronts.{IsFront, replayed};
    ghost use Rattle.rule_cache.specs.declared.key.Key.{Key as StoreKey};

    ghost Value = { Entries StoreKey (Outs ℕ) };

    ghost view = { λ f. lru_cache (replayed f.slots.items f.log.items f.rules.entries) f.rules.cap };

    ghost invariant = { λ f. IsFront f.slots.items f.rules.entries };
}

impl FrontedRules {
    /// No rules, of which there may be so many.
    pub fn new(alloc: Global, capacity: NonZeroUsize) -> Result<Self, AllocError>
        ensures { IfOk result (λ made. made ≡ lru_cache [] (non_zero_usize_get capacity)) }
    {
        let rules = LruCache::new(alloc, capacity)?;
        let slots = empty_slots(alloc)?;
        Ok(FrontedRules {
            rules,
            slots,
            log: ArrayVec::new(),
        })
    }

    /// What holds of the rules at any time: no two keys are the same, and there are no more than may be.
    pub fn are_valid(&self)
        ensures { IsValid key_eq self.now }
    {
        let _length = self.rules.len();
    }

    /// The outputs of the rule with this key, which goes to the front.
    #[inline(always)]
    pub fn get(&mut self, key: Key) -> Option<OutWords>
        ensures found { result ≡ lookup (key_eq key) self.old.entries }
        ensures moved { self.new
            ≡ lru_cache (promoted (key_eq key) self.old.entries) self.old.cap }
    {
        let number = slot_number(key);
        if let Some(words) = standing(&self.slots, number, key) {
            log_found(&mut self.rules, &self.slots, &mut self.log, number);
            return Some(words);
        }
        // A key of its own, or the one asked with would need a place in memory where it stands in its slot too.
        let key = Key {
            group: key.group,
            words: key.words,
        };
        self.get_listed(number, key)
    }

    // What `get` does where the rule doesn't stand in its slot.
    #[inline(never)]
    fn get_listed(&mut self, number: u8, key: Key) -> Option<OutWords>
        requires { number ≡ slot_of key }
        ensures found { result ≡ lookup (key_eq key) self.old.entries }
        ensures moved { self.new
            ≡ lru_cache (promoted (key_eq key) self.old.entries) self.old.cap }
    {
        catch_up(&mut self.rules, &self.slots, &mut self.log);
        let found = moved(&mut self.rules, &key);
        fill(&mut self.slots, number, key, found);
        found
    }

    /// Puts a rule at the front, in the place of the one with its key. Where there are too many then, the last one goes.
    pub fn put(&mut self, key: Key, words: OutWords) -> Result<(), AllocError>
        ensures put { OnOk result
            (self.new ≡ lru_cache (put_entries key_eq self.old key words) self.old.cap) }
        ensures known { IsSome (lookup (key_eq key) self.old.entries) → IsOk result }
        ensures refused { OnErr result (self.new ≡ self.old) }
    {
        catch_up(&mut self.rules, &self.slots, &mut self.log);
        empty_displaced(&self.rules, &mut self.slots);
        let replaced = self.rules.put(key, words)?;
        empty_replaced(&mut self.slots, &key, replaced);
        Ok(())
    }

    /// Drops every rule.
    pub fn clear(&mut self)
        ensures { self.new ≡ lru_cache [] self.old.cap }
    {
        self.rules.clear();
        self.log.clear();
        empty_all(&mut self.slots);
    }
}

// ---- the slots

// Slots without a rule.
fn empty_slots(alloc: Global) -> Result<Vec<Slot>, AllocError>
    ensures slots { IfOk result (λ slots. length slots.items ≡ 256) }
    ensures empty { IfOk result (λ slots. AreEmpty slots.items) }
{
    let mut slots = Vec::with_capacity(alloc, SLOTS)?;
    while slots.len() < SLOTS {
        slots.push(None)?;
    }
    Ok(slots)
}

// The number of a key's slot. It is taken from bits that no byte has all of, or the compiler would cut each step to a byte.
#[inline(always)]
#[tactic(auto, unfolding(crate::specs::Fronts::slot_of))]
fn slot_number(key: Key) -> u8
    ensures { result ≡ slot_of key }
{
    let words = &key.words;
    let code = (key.group as u64 * 8 + words.pc as u64) * 8 + words.ci as u64;
    let sum = ((code * 8 + words.t1 as u64) * 8 + words.t2 as u64) * 8 + words.tm as u64;
    (sum * SPREAD / 65_536 % 256) as u8
}

// The outputs of the slot's rule where it has this key.
#[inline(always)]
fn standing(slots: &[Slot], number: u8, key: Key) -> Option<OutWords>
    requires { length slots.now ≡ 256 }
    ensures { IfSome result (λ words. slot_at slots.now number ≡ Some (key, words)) }
{
    let (kept, words) = slots[number as usize].as_ref()?;
    if *kept == key { Some(*words) } else { None }
}

// Makes the rule that was found with a key stand in the key's slot.
fn fill(slots: &mut Vec<Slot>, number: u8, key: Key, found: Option<OutWords>)
    requires slots { length slots.old.items ≡ 256 }
    requires number { number ≡ slot_of key }
    ensures { slots.new.items ≡ filled key found slots.old.items }
{
    let Some(words) = found else {
        return;
    };
    slots[number as usize] = Some((key, words));
}

// Empties the slot of the last rule of a full list, which the next one pushes out.
fn empty_displaced(rules: &LruCache<Key, OutWords>, slots: &mut Vec<Slot>)
    requires { length slots.old.items ≡ 256 }
    ensures slots { slots.new.items
        ≡ emptied (slice_get rules.now.entries (rules.now.cap - 1)) slots.old.items }
    ensures valid { IsValid key_eq rules.now }
{
    if rules.len() < rules.cap().get() {
        return;
    }
    let Some((key, _)) = rules.peek_lru() else {
        return;
    };
    empty_slot_of(slots, key);
}

// Empties the slot of a key whose rule was replaced, if there was one.
fn empty_replaced(slots: &mut Vec<Slot>, key: &Key, replaced: Option<OutWords>)
    requires { length slots.old.items ≡ 256 }
    ensures { slots.new.items ≡ emptied (rule_with key.now replaced) slots.old.items }
{
    if replaced.is_none() {
        return;
    }
    empty_slot_of(slots, key);
}

// Empties the key's slot where a rule with the key stands there.
#[inline(always)]
fn empty_slot_of(slots: &mut Vec<Slot>, key: &Key)
    requires { length slots.old.items ≡ 256 }
    ensures { slots.new.items ≡ without_key key.now slots.old.items }
{
    let number = slot_number(*key);
    if !has_key(&slots[number as usize], key) {
        return;
    }
    slots[number as usize] = None;
}

// Whether a rule with this key stands in the slot.
fn has_key(slot: &Slot, key: &Key) -> bool
    ensures { result ≡ has_key key.now slot.now }
{
    match slot {
        Some((kept, _)) => *key == *kept,
        None => false,
    }
}

// Empties every slot.
fn empty_all(slots: &mut Vec<Slot>)
    ensures slots { length slots.new.items ≡ length slots.old.items }
    ensures empty { AreEmpty slots.new.items }
{
    for slot in slots.iter_mut() {
        *slot = None;
    }
}

// ---- the list and the log

// The outputs of the rule in the list with this key, which goes to the front.
fn moved(rules: &mut LruCache<Key, OutWords>, key: &Key) -> Option<OutWords>
    ensures found { result ≡ lookup (key_eq key.now) rules.old.entries }
    ensures moved { rules.new
        ≡ lru_cache (promoted (key_eq key.now) rules.old.entries) rules.old.cap }
{
    rules.get(key).copied()
}

// Logs the slot in which a rule was found. Where the log is full, the list catches up first.
#[inline(always)]
#[tactic(auto, using(crate::proofs::FrontLemmas::replayed_push))]
fn log_found(rules: &mut LruCache<Key, OutWords>, slots: &[Slot], log: &mut Log, number: u8)
    requires { length slots.now ≡ 256 }
    ensures logged { replayed slots.now log.new.items rules.new.entries
        ≡ touched (slot_at slots.now number) (replayed slots.now log.old.items rules.old.entries) }
    ensures found { (key : StoreKey) → lookup (key_eq key) rules.new.entries
        ≡ lookup (key_eq key) rules.old.entries }
    ensures capacity { rules.new.cap ≡ rules.old.cap }
{
    make_room(rules, slots, log);
    log.push(number);
}

// Makes the list catch up where the log is full.
#[inline(always)]
#[tactic(auto, using(crate::proofs::FrontLemmas::found_replayed))]
fn make_room(rules: &mut LruCache<Key, OutWords>, slots: &[Slot], log: &mut Log)
    requires { length slots.now ≡ 256 }
    ensures room { array_vec_len log.new < 1024 }
    ensures same { replayed slots.now log.new.items rules.new.entries
        ≡ replayed slots.now log.old.items rules.old.entries }
    ensures found { (key : StoreKey) → lookup (key_eq key) rules.new.entries
        ≡ lookup (key_eq key) rules.old.entries }
    ensures capacity { rules.new.cap ≡ rules.old.cap }
{
    if log.is_full() {
        replay(rules, slots, log);
    }
}

// Makes the list catch up with the log, which is empty then.
#[inline(always)]
fn catch_up(rules: &mut LruCache<Key, OutWords>, slots: &[Slot], log: &mut Log)
    requires { length slots.now ≡ 256 }
    ensures rules { rules.new
        ≡ lru_cache (replayed slots.now log.old.items rules.old.entries) rules.old.cap }
    ensures log { log.new.items ≡ [] }
{
    if !log.is_empty() {
        replay(rules, slots, log);
    }
}

// What `catch_up` does where anything is logged: apart, for the room that it takes on the stack.
#[inline(never)]
fn replay(rules: &mut LruCache<Key, OutWords>, slots: &[Slot], log: &mut Log)
    requires { length slots.now ≡ 256 }
    ensures rules { rules.new
        ≡ lru_cache (replayed slots.now log.old.items rules.old.entries) rules.old.cap }
    ensures log { log.new.items ≡ [] }
{
    let numbers = last_first(log.as_slice());
    bring_up(rules, slots, numbers.as_slice());
    log.clear();
}

// The numbers of a log, each once, the one that was logged last first.
#[tactic(auto, using(crate::proofs::LogLemmas::one_more))]
fn last_first(log: &[u8]) -> Log
    requires { length log.now ≤ 1024 }
    ensures { (slots : List AnySlot) (rules : Rules)
        → brought_up slots result.items rules ≡ replayed slots log.now rules }
{
    let mut numbers = ArrayVec::new();
    let mut places = [0; SLOTS];
    for place in (0..log.len()).rev() {
        note(&mut numbers, &mut places, log[place]);
    }
    numbers
}

// Notes a number that isn't noted yet, and its place in the list, from 1 on.
fn note(numbers: &mut Log, places: &mut [u16; SLOTS], number: u8)
    requires room { length numbers.old.items < 1024 }
    requires places { AreNoted numbers.old.items places.old }
    ensures noted { (slots : List AnySlot) (rules : Rules)
        → brought_up slots numbers.new.items rules
        ≡ brought_up slots numbers.old.items (touched (slot_at slots number) rules) }
    ensures length { length numbers.new.items ≤ length numbers.old.items + 1 }
    ensures places { AreNoted numbers.new.items places.new }
{
    if places[number as usize] != 0 {
        return;
    }
    numbers.push(number);
    places[number as usize] = numbers.len() as u16;
}

// Moves the rules of these slots to the front, the first one last.
fn bring_up(rules: &mut LruCache<Key, OutWords>, slots: &[Slot], numbers: &[u8])
    requires { length slots.now ≡ 256 }
    ensures { rules.new
        ≡ lru_cache (brought_up slots.now numbers.now rules.old.entries) rules.old.cap }
{
    for place in (0..numbers.len()).rev() {
        touch(rules, &slots[numbers[place] as usize]);
    }
}

// Moves the slot's rule to the front of the list.
fn touch(rules: &mut LruCache<Key, OutWords>, slot: &Slot)
    ensures { rules.new ≡ lru_cache (touched slot.now rules.old.entries) rules.old.cap }
{
    let Some((key, _)) = slot else {
        return;
    };
    rules.promote(key);
}
