//! What a table of tags guarantees.

ghost use Rattle.std.specs.Prelude.{◌≡◌, ℕ, ◌<◌, ◌≤◌, ◌↔◌, Contains, Err, IfOk, IsNone, IsOk, OnErr, OnOk, Some, length, slice_get};
ghost use Rattle.engine_trait.specs.Accounts.{with_tag};
ghost use Rattle.tag_intern.specs.Table.{Extends, IsTable, cut_to, empty_table, table_after};
ghost use Rattle.tag_intern.specs.Words.{tag_at};

use pump_words::Same;
use std::alloc::{AllocError, Global};

/// Why a tag got no word.
#[derive(Clone, Copy, Debug, PartialEq, Eq)]
pub enum InternEnd {
    /// The tag is new, and the table has as many as it may.
    Full,
    /// Memory ran out.
    Memory,
}

/// The tags that have words: a list without repeats, within a limit. A tag's word is its place. `state` is what a table
/// is.
pub trait TagTable: Drop {
    ghost use Rattle.tag_intern.specs.Table.{TableState};

    type Tag: Same;

    ghost state: { Self → TableState Self.Tag };

    /// An empty table for at most `limit` tags. Its error is running out of memory.
    fn made(alloc: Global, limit: u32) -> Result<Self, AllocError>
        requires { 1 ≤ limit }
        ensures { IfOk result (λ made. state made ≡ empty_table limit) };

    /// How many tags have words: those below it.
    fn len(&self) -> u32
        ensures len { result ≡ length (state self.now).tags }
        ensures sound { IsTable (state self.now) };

    /// How many tags may have words.
    fn limit(&self) -> u32
        ensures { result ≡ (state self.now).limit };

    /// The word of a tag, `None` where it has none.
    fn word_of(&self, tag: &Self::Tag) -> Option<u32>
        ensures exact { (word : ℕ) → (result ≡ Some word)
            ↔ (slice_get (state self.now).tags word ≡ Some tag.now) }
        ensures missing { IsNone result ↔ (¬ Contains (state self.now).tags tag.now) };

    /// The tag of a word, and another where no tag has that word.
    fn tag_or(&self, word: u32, other: Self::Tag) -> Self::Tag
        ensures { result ≡ tag_at other (state self.now).tags word };

    /// The word of a tag, which goes to the end where it is new. It is refused as `Full` exactly where it is new and as
    /// many have words as may; a tag that has a word is never refused. A refusal changes nothing.
    fn intern(&mut self, tag: Self::Tag) -> Result<u32, InternEnd>
        ensures word { IfOk result (λ word. slice_get (state self.new).tags word ≡ Some tag) }
        ensures grown { OnOk result (state self.new
            ≡ table_after Self.Tag.eq (state self.old) tag) }
        ensures known { Contains (state self.old).tags tag → IsOk result }
        ensures full { (result ≡ Err InternEnd.Full)
            ↔ ((length (state self.old).tags ≡ (state self.old).limit)
            × (¬ Contains (state self.old).tags tag)) }
        ensures over { (result ≡ Err InternEnd.Full)
            ↔ ((state self.old).limit < length (with_tag Self.Tag.eq (state self.old).tags tag)) }
        ensures refused { OnErr result (state self.new ≡ state self.old) }
        ensures extends { Extends (state self.old).tags (state self.new).tags };

    /// Leaves the first `len` tags their words, and takes them from the others. It takes no memory.
    fn cut(&mut self, len: u32)
        requires { len ≤ length (state self.old).tags }
        ensures { state self.new ≡ cut_to (state self.old) len };
}
