//! `AllTable`: a table of the tags of all policies together.

use crate::parts::{FirstParts, FirstTags, LastParts, LastTags};
use policy_choice::AllTag;
use tag_pairs::{Mapped, Pairs, TagBijection};

/// A tag of all policies together for each pair of its first two parts and its last two.
pub struct Whole;

impl TagBijection for Whole {
    ghost use Rattle.std.specs.Prelude.{refl};

    type From = (FirstTags, LastTags);

    type To = AllTag;

    ghost image = { λ parts. (parts.0.0, (parts.0.1, parts.1)) };

    ghost preimage = { λ tag. ((tag.0, tag.1.0), tag.1.1) };

    fn image(parts: (FirstTags, LastTags)) -> AllTag {
        let ((seal, comp), last) = parts;
        AllTag::of((seal, (comp, last)))
    }

    fn preimage(tag: AllTag) -> (FirstTags, LastTags) {
        let (seal, (comp, last)) = tag.parts();
        ((seal, comp), last)
    }

    ghost onto = { λ _. refl };

    ghost apart = { λ _. refl };
}

/// The tags of all policies together that have words. A policy's tag that is a part of many of them is kept once, in a
/// table of that policy's tags. The number of whole tags alone makes the table full.
pub type AllTable = Mapped<Pairs<FirstParts, LastParts>, Whole>;
