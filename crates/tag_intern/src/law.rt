//! What comes of a list of tags as tags come to it, for callers that reason about tables.

ghost use Rattle.std.specs.Prelude.{◌≡◌, ℕ, ◌<◌, ◌≤◌, List, Some, length, slice_get, take};
ghost use Rattle.engine_trait.specs.Accounts.{with_tag, with_tags};
ghost use Rattle.tag_intern.specs.Table.{Extends, HasNoRepeats};

use pump_words::Same;

/// As tags come to a list without repeats it stays one, and no word changes its tag; a tag that is there changes
/// nothing, and a cut to the length before undoes what came.
pub fn growth_law<T: Same>()
    ensures extends { (tags more : List T) → Extends tags (with_tags T.eq tags more) }
    ensures longer { (tags more : List T) → length tags ≤ length (with_tags T.eq tags more) }
    ensures distinct { (tags more : List T) → HasNoRepeats tags
        → HasNoRepeats (with_tags T.eq tags more) }
    ensures known { (tags : List T) (tag : T) (word : ℕ) → slice_get tags word ≡ Some tag
        → with_tag T.eq tags tag ≡ tags }
    ensures words { (tags more : List T) (word : ℕ) → word < length tags
        → slice_get (with_tags T.eq tags more) word ≡ slice_get tags word }
    ensures undone { (tags more : List T)
        → take (length tags) (with_tags T.eq tags more) ≡ tags }
{}
