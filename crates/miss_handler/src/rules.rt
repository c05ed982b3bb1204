//! The rules that are asked, and how often.

ghost use Rattle.std.specs.Prelude.{◌≡◌, Ok};
ghost use Rattle.rv_decode.specs.declared.groups.Group.{Group as AnyGroup};
ghost use Rattle.shared_terms.specs.Counts.{next_count};
ghost use Rattle.miss_handler.specs.Books.{rulebook_of};

use crate::masks::Masks;
use crate::word_mask::WordMask;
use policy_trait::{Ins, Outs, Policy, Refused};
use pump_words::Same;
use rv_decode::Group;
use std::marker::Model;

/// The rules of a policy, and a count of the answers that they gave.
pub trait Rules: Drop {
    ghost use Rattle.std.specs.Prelude.{ℕ};
    ghost use Rattle.miss_handler.specs.Books.{IgnoresMasked, Rulebook};

    type Tag: Same;

    ghost book: { Self → Rulebook Self.Tag };

    ghost answers: { Self → ℕ };

    /// The plain tag.
    fn plain(&self) -> Self::Tag
        ensures { result ≡ (book self.now).plain };

    /// Which inputs the rule of a group ignores: they change no answer.
    fn mask(&self, group: Group) -> WordMask
        ensures mask { result ≡ (book self.now).ignores group }
        ensures law { IgnoresMasked (book self.now) };

    /// The same rules once more, of which as many answers were given.
    fn again(&self) -> Self
        ensures book { book result ≡ book self.now }
        ensures answers { answers result ≡ answers self.now };

    /// The answer of a rule, which is counted; the count stands still at 2^64 - 1.
    fn answer(&mut self, group: Group, inputs: Ins<Self::Tag>) -> Result<Outs<Self::Tag>, Refused>
        ensures answer { result ≡ (book self.old).rule group inputs }
        ensures counted { answers self.new ≡ next_count (answers self.old) }
        ensures book { book self.new ≡ book self.old };
}

/// The rules of a policy as it stands. Which inputs each ignores is read from a table that was made once.
#[derive(Drop)]
pub struct Asking<'a, P: Policy> {
    policy: &'a P,
    masks: &'a Masks,
    answers: u64,
}

impl<'a, P: Policy> Model for Asking<'a, P> {
    ghost use Rattle.miss_handler.specs.Books.{AskingState, AreMasksOf};

    ghost Value = { AskingState P };

    ghost view = { λ a. record { policy = a.policy.now; answers = a.answers } };

    ghost invariant = { λ a. AreMasksOf P.model a.policy.now a.masks.now };
}

impl<'a, P: Policy> Asking<'a, P> {
    /// The rules of the policy, whose masks these are. No answer has been given.
    #[inline(always)]
    pub fn new(policy: &'a P, masks: &'a Masks) -> Asking<'a, P>
        requires { (group : AnyGroup) → masks.now group ≡ P.model.ignores policy.now group }
        ensures policy { result.policy ≡ policy.now }
        ensures fresh { result.answers ≡ 0 }
    {
        Asking {
            policy,
            masks,
            answers: 0,
        }
    }
}

impl<'a, P: Policy> Rules for Asking<'a, P> {
    ghost use Rattle.miss_handler.specs.Books.{rulebook_of};

    type Tag = P::Tag;

    ghost book = { λ a. rulebook_of P.model a.policy };

    ghost answers = { λ a. a.answers };

    #[inline(always)]
    fn plain(&self) -> P::Tag {
        self.policy.plain()
    }

    #[inline(always)]
    fn mask(&self, group: Group) -> WordMask {
        self.masks.mask(group)
    }

    #[inline(always)]
    fn again(&self) -> Self {
        Asking {
            policy: self.policy,
            masks: self.masks,
            answers: self.answers,
        }
    }

    fn answer(&mut self, group: Group, inputs: Ins<P::Tag>) -> Result<Outs<P::Tag>, Refused>
        ensures answer { result ≡ (rulebook_of P.model self.old.policy).rule group inputs }
        ensures counted { self.new.answers ≡ next_count self.old.answers }
        ensures book { rulebook_of P.model self.new.policy ≡ rulebook_of P.model self.old.policy }
    {
        self.answers = self.answers.saturating_add(1);
        self.policy.rule(group, inputs)
    }
}
