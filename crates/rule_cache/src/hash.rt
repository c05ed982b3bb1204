//! The hash of a key: one number of 128 bits, so that a look-up makes one write.

ghost use Rattle.std.specs.Prelude.{◌≡◌, ◌%◌};
ghost use Rattle.std.proofs.Common.{rules};
ghost use Rattle.std.specs.Cmp.Rules.{comparing, hashing};
ghost use Rattle.std.specs.Hash as fed;
ghost use Rattle.rule_cache.specs.Keys.{key_number};

use crate::key::Key;
use std::hash::{Hash, Hasher};

// Digits of the number's halves: words below 2^21 give keys numbers of their own.
const DIGIT: u64 = 2_097_152;
// Where the upper half begins.
const HALF: u128 = 18_446_744_073_709_551_616;

impl Hash for Key {
    ghost hash_input = { λ k. fed.u128 (key_number k) };

    ghost respects_eq = { Prim.search (hashing, rules) };

    fn hash<H: Hasher>(&self, state: &mut H) {
        state.write_u128(key_number(self));
    }
}

// The key as one number.
#[inline(always)]
fn key_number(key: &Key) -> u128
    ensures { result ≡ key_number key.now }
{
    let words = &key.words;
    let high = (key.group as u64 * DIGIT + digit(words.tm)) * DIGIT + digit(words.t2);
    let low = (digit(words.t1) * DIGIT + digit(words.ci)) * DIGIT + digit(words.pc);
    high as u128 * HALF + low as u128
}

// What a word adds to the number. No table gives a word of 2^21 or more.
#[inline(always)]
fn digit(word: u32) -> u64
    ensures { result ≡ word % 2097152 }
{
    word as u64 % DIGIT
}
