//! `OpenWords`: which words stand for tags at which every look is allowed.

ghost use Rattle.std.specs.Prelude.{◌≡◌, ◌≤◌, ◌++◌, [], IfErr, OnOk, drop, length, map};
ghost use Rattle.open_words.specs.Open.{is_open, is_open_at, opens};

use policy_trait::{Policy, Shape, TagMap};
use std::alloc::{AllocError, Global};
use std::marker::Model;
use tag_intern::{Decoder, TagTable};
use turn_steps::Looks;

/// Which words stand for tags at which every look is allowed, of the first words of a table; of the others nothing is known. Contracts
/// see it as the list of what is known.
#[derive(Drop)]
pub struct OpenWords {
    known: Vec<bool>,
}

impl Model for OpenWords {
    ghost use Rattle.std.specs.Prelude.{Bool, List};

    ghost Value = { List Bool };

    ghost view = { λ words. words.known.items };
}

impl OpenWords {
    /// Nothing is known. It takes no memory.
    pub fn new(alloc: Global) -> OpenWords
        ensures { result ≡ [] }
    {
        OpenWords {
            known: Vec::new(alloc),
        }
    }

    /// Whether each word of these looks is known to be open, so that the looks are allowed.
    #[inline]
    pub fn allow(&self, looks: &Looks<u32>) -> bool
        ensures { result ≡ opens self.now looks.now }
    {
        self.is_open_at(looks.word)
            && match looks.operands {
                None => true,
                Some(look) => self.is_open_at(look.first) && self.is_open_at(look.second),
            }
    }

    /// Whether this word is known to be open.
    #[inline]
    fn is_open_at(&self, word: u32) -> bool
        ensures { result ≡ is_open_at self.now word }
    {
        self.known.get(word as usize).copied().unwrap_or(false)
    }

    /// Learns of each word of the table of which nothing is known. The only error is running out of memory; nothing is known then.
    pub fn learn<P: Policy, T: TagTable<Tag = P::Tag>>(
        &mut self,
        policy: &P,
        words: &Decoder<'_, T>,
    ) -> Result<(), AllocError>
        requires plain { words.now.plain ≡ P.model.plain policy.now }
        requires few { length self.old ≤ length (T.state words.now.tags.now).tags }
        ensures ok { OnOk result (self.new ≡ self.old ++ map (is_open P.model policy.now)
            (drop (length self.old) (T.state words.now.tags.now).tags)) }
        ensures err { IfErr result (λ error. self.new ≡ []) }
    {
        let learned = learn_from(&mut self.known, policy, words);
        if learned.is_err() {
            self.known.clear();
        }
        learned
    }

    /// Forgets what is known.
    pub fn forget(&mut self)
        ensures { self.new ≡ [] }
    {
        self.known.clear();
    }
}

/// Adds whether they are open, of each word of the table that the list does not tell of. The only error is running out of memory.
fn learn_from<P: Policy, T: TagTable<Tag = P::Tag>>(
    known: &mut Vec<bool>,
    policy: &P,
    words: &Decoder<'_, T>,
) -> Result<(), AllocError>
    requires plain { words.now.plain ≡ P.model.plain policy.now }
    requires few { length known.old.items ≤ length (T.state words.now.tags.now).tags }
    ensures { OnOk result (known.new.items ≡ known.old.items ++ map (is_open P.model policy.now)
        (drop (length known.old.items) (T.state words.now.tags.now).tags)) }
{
    let end = words.tags.len();
    for word in known.len() as u32..end {
        known.push(is_open(policy, &words.image(word)))?;
    }
    Ok(())
}

/// Whether each look at a value with this tag alone is allowed.
fn is_open<P: Policy>(policy: &P, tag: &P::Tag) -> bool
    ensures { result ≡ is_open P.model policy.now tag.now }
{
    let plain = policy.plain();
    let allows = |shape: Shape| policy.peek(shape, tag, &plain).is_ok();
    allows(Shape::Word)
        && allows(Shape::Load)
        && allows(Shape::Store)
        && allows(Shape::Jump)
        && allows(Shape::Branch)
        && allows(Shape::Call)
}
