//! `Mapped`: a table of tags that stand for those of another table.

ghost use Rattle.std.specs.Prelude.{◌≡◌};

use pump_words::Same;
use std::alloc::{AllocError, Global};
use std::marker::PhantomData;
use tag_intern::{InternEnd, TagTable};

/// A tag of one type for each tag of another, and back, as a struct of four for nested pairs.
pub trait TagBijection {
    /// The tags that stand in a table.
    type From: Same;

    /// The tags that are to stand for them.
    type To: Same;

    ghost image: { Self.From → Self.To };

    ghost preimage: { Self.To → Self.From };

    /// The tag that stands for this one.
    fn image(tag: Self::From) -> Self::To
        ensures { result ≡ image tag };

    /// The tag that this one stands for.
    fn preimage(tag: Self::To) -> Self::From
        ensures { result ≡ preimage tag };

    // Each tag stands for one that stands for no other.
    ghost onto: { (tag : Self.To) → image (preimage tag) ≡ tag };

    ghost apart: { (tag : Self.From) → preimage (image tag) ≡ tag };
}

/// A table of the images of the tags of another table, in the same order and with the same limit.
#[derive(Drop)]
pub struct Mapped<T: TagTable, M: TagBijection<From = T::Tag>> {
    table: T,
    map: PhantomData<M>,
}

impl<T: TagTable, M: TagBijection<From = T::Tag>> TagTable for Mapped<T, M> {
    ghost use Rattle.tag_pairs.specs.Mapped.{mapped};

    type Tag = M::To;

    ghost state = { λ m. mapped M.image (T.state m.table) };

    fn made(alloc: Global, limit: u32) -> Result<Self, AllocError> {
        let table = T::made(alloc, limit)?;
        Ok(Mapped {
            table,
            map: PhantomData,
        })
    }

    fn len(&self) -> u32 {
        self.table.len()
    }

    fn limit(&self) -> u32 {
        self.table.limit()
    }

    fn word_of(&self, tag: &M::To) -> Option<u32> {
        self.table.word_of(&M::preimage(*tag))
    }

    #[inline(always)]
    fn tag_or(&self, word: u32, other: M::To) -> M::To {
        M::image(self.table.tag_or(word, M::preimage(other)))
    }

    fn intern(&mut self, tag: M::To) -> Result<u32, InternEnd> {
        self.table.intern(M::preimage(tag))
    }

    fn cut(&mut self, len: u32) {
        self.table.cut(len);
    }
}
