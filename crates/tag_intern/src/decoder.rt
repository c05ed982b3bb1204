//! Words read as tags.

ghost use Rattle.std.specs.Prelude.{◌≡◌};

use crate::table::TagTable;
use policy_trait::TagMap;

/// Reads words as the tags that they stand for in a table. A word that no tag has stands for the plain tag.
#[derive(Drop)]
pub struct Decoder<'a, T: TagTable> {
    /// The table of the words.
    pub tags: &'a T,
    /// The policy's plain tag.
    pub plain: T::Tag,
}

impl<T: TagTable> TagMap for Decoder<'_, T> {
    ghost use Rattle.tag_intern.specs.Words.{tag_at};

    type From = u32;

    type To = T::Tag;

    ghost image = { λ decoder. tag_at decoder.plain (T.state decoder.tags.now).tags };

    #[inline(always)]
    fn image(&self, word: u32) -> T::Tag {
        self.tags.tag_or(word, self.plain)
    }
}
