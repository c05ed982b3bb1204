//! A table made again for the tags of some words alone, and the words that old words become in it.

ghost use Rattle.std.specs.Prelude.{◌≡◌, ◌<◌, ◌↔◌, Contains, Err, IfOk, IfSome, OnOk, Some, length, slice_get};
ghost use Rattle.engine_trait.specs.Accounts.{with_tag};
ghost use Rattle.tag_intern.specs.Sweep.{Renumbers, remade_table};
ghost use Rattle.tag_intern.specs.Table.{table_after};
ghost use Rattle.tag_intern.specs.Words.{tag_at};

use crate::table::{InternEnd, TagTable};
use std::alloc::{AllocError, Global};

/// A table under the same limit that has the plain tag, whose word is 0, and then the tags of these
/// words alone. A word that no tag has stands for the plain tag. The old table is only read.
///
/// Where the plain tag has a word in the old table, its error is running out of memory.
pub fn remade<T: TagTable>(
    alloc: Global,
    tags: &T,
    plain: T::Tag,
    live: &[u32],
) -> Result<T, InternEnd>
    ensures made { IfOk result (λ made. T.state made
        ≡ remade_table T.Tag.eq (T.state tags.now) plain live.now) }
    ensures memory { Contains (T.state tags.now).tags plain → ¬ (result ≡ Err InternEnd.Full) }
{
    let _len = tags.len(); // for the proof: at least one tag may have a word
    let Ok(mut made) = T::made(alloc, tags.limit()) else {
        return Err(InternEnd::Memory);
    };
    made.intern(plain)?;
    let mut last = None;
    for &word in live {
        let known = next_word(&mut made, tags, plain, last, word)?;
        last = Some((word, known));
    }
    Ok(made)
}

/// Gives a word in the new table to the tag of the old word that comes next. The words of memory mostly have one tag, so that the
/// old word that came last, beside which its new one stands, is compared before the tables are asked.
#[inline]
fn next_word<T: TagTable>(
    made: &mut T,
    tags: &T,
    plain: T::Tag,
    last: Option<(u32, u32)>,
    word: u32,
) -> Result<u32, InternEnd>
    requires last { IfSome last (λ known. slice_get (T.state made.old).tags known.1
        ≡ Some (tag_at plain (T.state tags.now).tags known.0)) }
    ensures word { IfOk result (λ known. slice_get (T.state made.new).tags known
        ≡ Some (tag_at plain (T.state tags.now).tags word)) }
    ensures grown { OnOk result (T.state made.new ≡ table_after T.Tag.eq
        (T.state made.old) (tag_at plain (T.state tags.now).tags word)) }
    ensures over { (result ≡ Err InternEnd.Full) ↔ ((T.state made.old).limit < length
        (with_tag T.Tag.eq (T.state made.old).tags (tag_at plain (T.state tags.now).tags word))) }
{
    let _len = made.len(); // for the proof: there are no more tags than may be
    match last {
        Some((before, known)) if before == word => Ok(known),
        _ => made.intern(tags.tag_or(word, plain)),
    }
}

/// For each word of the old table the word that its tag has in the new one, and 0 where it has none.
/// Its error is running out of memory.
pub fn renumbering<T: TagTable>(
    alloc: Global,
    old: &T,
    new: &T,
    plain: T::Tag,
) -> Result<Vec<u32>, AllocError>
    ensures { IfOk result (λ numbers.
        Renumbers (T.state old.now).tags (T.state new.now).tags numbers.items) }
{
    let mut numbers = Vec::new(alloc);
    for word in 0..old.len() {
        let tag = old.tag_or(word, plain);
        numbers.push(new.word_of(&tag).unwrap_or(0))?;
    }
    Ok(numbers)
}
