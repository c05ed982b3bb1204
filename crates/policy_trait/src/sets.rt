//! Sets of compartments.

ghost use Rattle.std.specs.Prelude.{◌≡◌, ◌+◌, ◌<◌, ◌≤◌, ◌++◌, ◌==◌, ◌||◌, ℕ};
ghost use Rattle.arrayvec.specs.ArrayVec.{array_vec_len};
ghost use Rattle.policy_trait.specs.Sets.{has, hex32_text, mask_text, set_of, set_with};

use pump_words::{Line, Same, hex8};
use std::marker::Model;

/// A word is below this number.
const WORD: u128 = 1 << 32;

/// Half of the bits of a set are below this number.
const HALF: u128 = 1 << 64;

/// A set of compartments, whose numbers are 0 to 127. It has a bit for each, and bit n says whether compartment n is in
/// the set. Contracts see it as these bits. They are kept in two halves: a number of 128 bits stands at a multiple of 16 bytes, and
/// each tag with a set would too, and be as much larger.
#[derive(Clone, Copy, PartialEq, Eq, PartialOrd, Ord, Hash)]
pub struct CompartmentSet {
    low: u64,
    high: u64,
}

impl Model for CompartmentSet {
    ghost use Rattle.std.specs.Prelude.{◌+◌, ◌*◌, ◌/◌, ◌%◌, ◌^◌, ◌<◌};
    ghost use Rattle.std.proofs.lemmas.Nat.{div-mul-add, mod-mul-add};
    ghost use Rattle.policy_trait.specs.Sets.{CompartmentSet};

    ghost Value = { CompartmentSet };

    ghost view = { λ set. record { bits = set.high * 2 ^ 64 + set.low } };

    ghost invariant = { λ set. set.low < 2 ^ 64 };

    ghost inverse = { λ set. record { low = set.bits % 2 ^ 64; high = set.bits / 2 ^ 64 } };

    ghost inverse_ok = { λ set within i. record {
      low = mod-mul-add set.high (2 ^ 64) set.low within i;
      high = div-mul-add set.high (2 ^ 64) set.low within i;
    } };
}

impl Same for CompartmentSet {
    ghost use Rattle.std.proofs.Common.{rules};

    ghost same = { Prim.search rules };
}

impl CompartmentSet {
    /// The set of no compartment.
    pub fn empty() -> CompartmentSet
        ensures { result ≡ set_of 0 }
    {
        CompartmentSet { low: 0, high: 0 }
    }

    /// The set of the compartments whose bits are 1.
    pub fn of_bits(bits: u128) -> CompartmentSet
        ensures { result ≡ set_of bits }
    {
        CompartmentSet {
            low: (bits % HALF) as u64,
            high: (bits / HALF) as u64,
        }
    }

    /// The same set, copied by its halves: the compiler keeps these in registers, and a copy in one piece in memory.
    #[inline]
    pub fn copied(&self) -> CompartmentSet
        ensures { result ≡ self.now }
    {
        CompartmentSet {
            low: self.low,
            high: self.high,
        }
    }

    /// The bit of each compartment.
    pub fn bits(self) -> u128
        ensures { result ≡ self.bits }
    {
        u128::from(self.high) * HALF + u128::from(self.low)
    }

    /// Whether the compartment of this number is in the set; no number from 128 on is.
    pub fn has(self, number: u32) -> bool
        ensures { result ≡ has self number }
    {
        is_set(self.bits(), number)
    }

    /// The set with the compartment of this number too.
    pub fn with(self, number: u32) -> CompartmentSet
        requires { number < 128 }
        ensures value { result ≡ set_with self number }
        ensures members { (other : ℕ) → has result other ≡ (has self other || (other == number)) }
    {
        CompartmentSet::of_bits(self.bits() | (1 << number))
    }

    /// Appends the bits in hexadecimal digits in upper case: eight where no compartment from 32 on is in the set, else
    /// thirty-two.
    pub fn show(self, to: &mut Line)
        requires { array_vec_len to.old + 32 ≤ 512 }
        ensures text { to.new.items ≡ to.old.items ++ mask_text self.bits }
        ensures short { array_vec_len to.new ≤ array_vec_len to.old + 32 }
    {
        let bits = self.bits();
        if bits < WORD {
            hex8(to, bits as u32);
        } else {
            hex32(to, bits);
        }
    }
}

/// Appends 128 bits as thirty-two hexadecimal digits in upper case.
fn hex32(to: &mut Line, bits: u128)
    requires { array_vec_len to.old + 32 ≤ 512 }
    ensures text { to.new.items ≡ to.old.items ++ hex32_text bits }
    ensures len { array_vec_len to.new ≡ array_vec_len to.old + 32 }
{
    hex8(to, (bits >> 96) as u32);
    hex8(to, ((bits >> 64) % WORD) as u32);
    hex8(to, ((bits >> 32) % WORD) as u32);
    hex8(to, (bits % WORD) as u32);
}

/// Whether bit `number` is 1; no bit from 128 on is.
#[tactic(auto, using(crate::proofs::SetLemmas::has_none))]
fn is_set(bits: u128, number: u32) -> bool
    ensures { result ≡ has (set_of bits) number }
{
    number < 128 && (bits >> number) % 2 == 1
}
