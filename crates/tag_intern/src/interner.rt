//! A table of tags over an `IndexSet`.

use crate::table::{InternEnd, TagTable};
use indexmap::IndexSet;
use pump_words::Same;
use std::alloc::{AllocError, Global};
use std::marker::Model;

/// The tags that have words, in the order of their words, and how many may have.
#[derive(Drop)]
pub struct Interner<T: Same> {
    tags: IndexSet<T>,
    limit: u32,
}

impl<T: Same> Model for Interner<T> {
    ghost use Rattle.tag_intern.specs.Table.{IsTable, TableState};

    ghost Value = { TableState T };

    ghost view = { λ i. record { tags = i.tags.keys; limit = i.limit } };

    ghost invariant = { λ i. IsTable (record { tags = i.tags.keys; limit = i.limit }) };
}

impl<T: Same> TagTable for Interner<T> {
    type Tag = T;

    ghost state = { λ table. table };

    fn made(alloc: Global, limit: u32) -> Result<Self, AllocError> {
        Ok(Interner {
            tags: IndexSet::new(alloc),
            limit,
        })
    }

    fn len(&self) -> u32 {
        self.tags.len() as u32
    }

    fn limit(&self) -> u32 {
        self.limit
    }

    fn word_of(&self, tag: &T) -> Option<u32> {
        let word = self.tags.get_index_of(tag)?;
        Some(word as u32)
    }

    #[inline(always)]
    fn tag_or(&self, word: u32, other: T) -> T {
        self.tags
            .as_slice()
            .get(word as usize)
            .copied()
            .unwrap_or(other)
    }

    fn intern(&mut self, tag: T) -> Result<u32, InternEnd> {
        if let Some(word) = self.word_of(&tag) {
            return Ok(word);
        }
        let word = self.len();
        if word == self.limit {
            return Err(InternEnd::Full);
        }
        let Ok(_) = self.tags.insert(tag) else {
            return Err(InternEnd::Memory);
        };
        Ok(word)
    }

    fn cut(&mut self, len: u32) {
        self.tags.truncate(len as usize);
    }
}
