//! `Pairs`: a table of pairs of tags over two tables of tags.

use crate::coming::intern_new;
use crate::counts::word_counts;
use std::alloc::{AllocError, Global};
use std::marker::Model;
use tag_intern::{InternEnd, Interner, TagTable};

/// The pairs of tags that have words: a table of tags for each side, and a table of the pairs of their words.
///
/// The number of pairs alone makes it full. Each word of a side stands in some pair, so that no side is full before the
/// pairs are.
#[derive(Drop)]
pub struct Pairs<A: TagTable, B: TagTable> {
    lefts: A,
    rights: B,
    pairs: Interner<(u32, u32)>,
}

impl<A: TagTable, B: TagTable> Model for Pairs<A, B> {
    ghost use Rattle.tag_intern.specs.Table.{TableState};
    ghost use Rattle.tag_pairs.specs.Pairs.{ArePaired, paired};

    ghost Value = { TableState (A.Tag × B.Tag) };

    ghost view = { λ p. paired (A.state p.lefts) (B.state p.rights) p.pairs };

    ghost invariant = { λ p. ArePaired (A.state p.lefts) (B.state p.rights) p.pairs };
}

impl<A: TagTable, B: TagTable> TagTable for Pairs<A, B> {
    type Tag = (A::Tag, B::Tag);

    ghost state = { λ table. table };

    fn made(alloc: Global, limit: u32) -> Result<Self, AllocError> {
        let lefts = A::made(alloc, limit)?;
        let rights = B::made(alloc, limit)?;
        let pairs = Interner::made(alloc, limit)?;
        Ok(Pairs {
            lefts,
            rights,
            pairs,
        })
    }

    fn len(&self) -> u32 {
        self.pairs.len()
    }

    fn limit(&self) -> u32 {
        self.pairs.limit()
    }

    fn word_of(&self, tag: &(A::Tag, B::Tag)) -> Option<u32> {
        let left = self.lefts.word_of(&tag.0)?;
        let right = self.rights.word_of(&tag.1)?;
        self.pairs.word_of(&(left, right))
    }

    #[inline(always)]
    fn tag_or(&self, word: u32, other: (A::Tag, B::Tag)) -> (A::Tag, B::Tag) {
        // where there is no pair: no side has so many tags that this is a word of it
        let (left, right) = self.pairs.tag_or(word, (u32::MAX, u32::MAX));
        (
            self.lefts.tag_or(left, other.0),
            self.rights.tag_or(right, other.1),
        )
    }

    fn intern(&mut self, tag: (A::Tag, B::Tag)) -> Result<u32, InternEnd> {
        if let Some(word) = self.word_of(&tag) {
            return Ok(word);
        }
        let word = self.len();
        if word == self.limit() {
            return Err(InternEnd::Full);
        }
        intern_new(&mut self.lefts, &mut self.rights, &mut self.pairs, tag)?;
        Ok(word)
    }

    fn cut(&mut self, len: u32) {
        self.pairs.cut(len);
        let (lefts, rights) = word_counts(&self.pairs);
        self.lefts.cut(lefts);
        self.rights.cut(rights);
    }
}
