//! Whether a tag has a word.

ghost use Rattle.std.specs.Prelude.{◌≡◌};
ghost use Rattle.std.specs.List.{list_any};

use crate::table::TagTable;

/// Whether a tag has a word.
pub fn has_word<T: TagTable>(tags: &T, tag: &T::Tag) -> bool
    ensures { result ≡ list_any (T.Tag.eq tag.now) (T.state tags.now).tags }
{
    tags.word_of(tag).is_some()
}
