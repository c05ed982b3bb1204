//! Which inputs a rule ignores, as bits by which their words are read.

ghost use Rattle.std.specs.Prelude.{◌≡◌};
ghost use Rattle.policy_trait.specs.Model.{masked_inputs};
ghost use Rattle.miss_handler.specs.WordMasks.{bits_of};

use policy_trait::{Ins, Mask};
use rule_cache::InWords;
use std::marker::Model;

/// Which inputs a rule ignores: no bit for each of them, and all bits for each that it reads. Contracts see it as the mask.
#[derive(Clone, Copy)]
pub struct WordMask {
    bits: InWords,
}

impl Model for WordMask {
    ghost use Rattle.policy_trait.specs.declared.rules.Mask.{Mask};
    ghost use Rattle.miss_handler.specs.WordMasks.{AreWhole, bits_of_mask, mask_of_bits};

    ghost Value = { Mask };

    ghost view = { λ m. mask_of_bits m.bits };

    ghost invariant = { λ m. AreWhole m.bits };

    ghost inverse = { λ mask. record { bits = bits_of_mask mask } };
}

impl WordMask {
    /// The bits of a mask.
    pub fn of(mask: Mask) -> WordMask
        ensures { result ≡ mask }
    {
        WordMask {
            bits: Ins {
                pc: bits_of(mask.pc),
                ci: bits_of(mask.ci),
                t1: bits_of(mask.t1),
                t2: bits_of(mask.t2),
                tm: bits_of(mask.tm),
            },
        }
    }

    /// The words with each that the mask ignores made that of the plain tag, 0.
    #[inline(always)]
    pub fn masked(&self, words: InWords) -> InWords
        ensures { result ≡ masked_inputs self.now 0 words }
    {
        Ins {
            pc: words.pc & self.bits.pc,
            ci: words.ci & self.bits.ci,
            t1: words.t1 & self.bits.t1,
            t2: words.t2 & self.bits.t2,
            tm: words.tm & self.bits.tm,
        }
    }
}

/// The bits by which the word of an input is read.
fn bits_of(ignored: bool) -> u32
    ensures { result ≡ bits_of ignored }
{
    if ignored { 0 } else { u32::MAX }
}
