//! How many words have come on the two sides of pairs.

ghost use Rattle.std.specs.Prelude.{◌≡◌, ◌+◌, ◌^◌, ◌<◌};
ghost use Rattle.tag_pairs.specs.Order.{next};
ghost use Rattle.tag_pairs.specs.Pairs.{left_count, right_count};

use tag_intern::{Interner, TagTable};

/// How many words have come on the left of pairs, and how many on the right: on each side, those up to the highest.
pub(crate) fn word_counts(pairs: &Interner<(u32, u32)>) -> (u32, u32)
    requires left { left_count pairs.now.tags < 2 ^ 32 }
    requires right { right_count pairs.now.tags < 2 ^ 32 }
    ensures left { result.0 ≡ left_count pairs.now.tags }
    ensures right { result.1 ≡ right_count pairs.now.tags }
{
    let mut lefts = 0;
    let mut rights = 0;
    let len = pairs.len();
    for word in 0..len {
        let (left, right) = pairs.tag_or(word, (0, 0));
        lefts = count_with(lefts, left);
        rights = count_with(rights, right);
    }
    (lefts, rights)
}

/// How many words have come once this one comes after so many.
fn count_with(count: u32, word: u32) -> u32
    requires { word + 1 < 2 ^ 32 }
    ensures { result ≡ next count word }
{
    if word < count { count } else { word + 1 }
}
