//! A set of rules where it lies: the most recent first.

ghost use Rattle.std.specs.Prelude.{◌≡◌, ◌-◌, ◌<◌, ◌≤◌, ◌∷◌, length, position, remove, take, vec_capacity};
ghost use Rattle.std.specs.Map.{lookup};
ghost use Rattle.lru.specs.LruCache.{promoted};
ghost use Rattle.rule_cache.specs.Keys.{key_eq};
ghost use Rattle.rule_cache.specs.Stores.{IsSet, with_rule, without};

use rule_cache::{Key, OutWords};

/// A rule: what it is looked up by, and what it gives.
pub(crate) type Rule = (Key, OutWords);

// ---- a look-up

/// The outputs of the rule with this key, which goes to the front.
#[inline(always)]
pub(crate) fn find_in(rules: &mut Vec<Rule>, key: Key) -> Option<OutWords>
    ensures found { result ≡ lookup (key_eq key) rules.old.items }
    ensures moved { rules.new.items ≡ promoted (key_eq key) rules.old.items }
    ensures room { vec_capacity rules.new ≡ vec_capacity rules.old }
{
    if let Some(words) = standing_first(rules, key) {
        return Some(words);
    }
    // A key of its own, or the one asked with would need a place in memory where the rule stands first too.
    let key = Key {
        group: key.group,
        words: key.words,
    };
    find_behind(rules, key)
}

// The outputs of the first rule where it has this key.
#[inline(always)]
fn standing_first(rules: &[Rule], key: Key) -> Option<OutWords>
    ensures { result ≡ lookup (key_eq key) (take 1 rules.now) }
{
    let (kept, words) = rules.first()?;
    if key == *kept { Some(*words) } else { None }
}

// What `find_in` does where the rule doesn't stand first.
#[inline(never)]
fn find_behind(rules: &mut Vec<Rule>, key: Key) -> Option<OutWords>
    ensures found { result ≡ lookup (key_eq key) rules.old.items }
    ensures moved { rules.new.items ≡ promoted (key_eq key) rules.old.items }
    ensures room { vec_capacity rules.new ≡ vec_capacity rules.old }
{
    let place = place_of(rules, key)?;
    let rule = rules[place];
    put_first(rules, place, rule);
    Some(rule.1)
}

// ---- a rule that is kept

/// Puts a rule at the front, in the place of the one with its key. Where there are more than `ways` then, the last one goes.
pub(crate) fn keep_in(rules: &mut Vec<Rule>, ways: usize, rule: Rule)
    requires some { 1 ≤ ways }
    requires set { IsSet ways rules.old.items }
    requires room { ways ≤ vec_capacity rules.old }
    ensures kept { rules.new.items ≡ with_rule ways rule.0 rule.1 rules.old.items }
    ensures room { ways ≤ vec_capacity rules.new }
{
    let taken = place_for(rules, ways, rule);
    put_first(rules, taken, rule);
}

// The place that a rule takes: that of the one with its key, else a new one, else that of the last one.
fn place_for(rules: &mut Vec<Rule>, ways: usize, rule: Rule) -> usize
    requires some { 1 ≤ ways }
    requires set { IsSet ways rules.old.items }
    requires room { ways ≤ vec_capacity rules.old }
    ensures within { result < length rules.new.items }
    ensures others { remove rules.new.items result
        ≡ take (ways - 1) (without rule.0 rules.old.items) }
    ensures room { ways ≤ vec_capacity rules.new }
{
    if let Some(place) = place_of(rules, rule.0) {
        return place;
    }
    if rules.len() == ways {
        return ways - 1;
    }
    rules.push(rule).unwrap();
    rules.len() - 1
}

// ---- places

// The place of the rule with this key.
fn place_of(rules: &[Rule], key: Key) -> Option<usize>
    ensures { result ≡ position (λ rule. key_eq key rule.0) rules.now }
{
    rules.iter().position(|rule| key == rule.0)
}

// Moves the rules before this place one back, over what stands there, and puts a rule at the front. Where that is the first rule alone, it
// is moved by itself: most rules that are found behind the first one stand second.
#[tactic(auto, using(crate::proofs::PlaceLemmas::second_put))]
fn put_first(rules: &mut Vec<Rule>, place: usize, rule: Rule)
    requires { place < length rules.old.items }
    ensures put { rules.new.items ≡ rule ∷ remove rules.old.items place }
    ensures room { vec_capacity rules.new ≡ vec_capacity rules.old }
{
    if place == 1 {
        rules[1] = rules[0];
    } else {
        rules.copy_within(..place, 1);
    }
    rules[0] = rule;
}
