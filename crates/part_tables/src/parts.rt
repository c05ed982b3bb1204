//! Tables of two parts of a tag of all policies: the first two, and the last two.

use compartment_policy::CompartmentTag;
use flow_policy::FlowTag;
use heap_policy::HeapTag;
use sealing_policy::SealTag;
use std::alloc::{AllocError, Global};
use tag_intern::{InternEnd, Interner, TagTable};
use tag_pairs::Pairs;

/// The parts of sealing and of compartments.
pub type FirstTags = (Option<SealTag>, Option<CompartmentTag>);

/// The parts of control flow and of heap safety.
pub type LastTags = (Option<FlowTag>, Option<HeapTag>);

/// A table of the tags of sealing and compartments together.
#[derive(Drop)]
pub struct FirstParts(Pairs<Interner<Option<SealTag>>, Interner<Option<CompartmentTag>>>);

/// A table of the tags of control flow and heap safety together.
#[derive(Drop)]
pub struct LastParts(Pairs<Interner<Option<FlowTag>>, Interner<Option<HeapTag>>>);

impl TagTable for FirstParts {
    type Tag = FirstTags;

    ghost state = { λ parts. parts.0 };

    fn made(alloc: Global, limit: u32) -> Result<Self, AllocError> {
        Ok(FirstParts(Pairs::made(alloc, limit)?))
    }

    fn len(&self) -> u32 {
        self.0.len()
    }

    fn limit(&self) -> u32 {
        self.0.limit()
    }

    fn word_of(&self, tag: &FirstTags) -> Option<u32> {
        self.0.word_of(tag)
    }

    #[inline(always)]
    fn tag_or(&self, word: u32, other: FirstTags) -> FirstTags {
        self.0.tag_or(word, other)
    }

    fn intern(&mut self, tag: FirstTags) -> Result<u32, InternEnd> {
        self.0.intern(tag)
    }

    fn cut(&mut self, len: u32) {
        self.0.cut(len);
    }
}

impl TagTable for LastParts {
    type Tag = LastTags;

    ghost state = { λ parts. parts.0 };

    fn made(alloc: Global, limit: u32) -> Result<Self, AllocError> {
        Ok(LastParts(Pairs::made(alloc, limit)?))
    }

    fn len(&self) -> u32 {
        self.0.len()
    }

    fn limit(&self) -> u32 {
        self.0.limit()
    }

    fn word_of(&self, tag: &LastTags) -> Option<u32> {
        self.0.word_of(tag)
    }

    #[inline(always)]
    fn tag_or(&self, word: u32, other: LastTags) -> LastTags {
        self.0.tag_or(word, other)
    }

    fn intern(&mut self, tag: LastTags) -> Result<u32, InternEnd> {
        self.0.intern(tag)
    }

    fn cut(&mut self, len: u32) {
        self.0.cut(len);
    }
}
