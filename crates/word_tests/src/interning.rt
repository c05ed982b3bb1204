//! Words by hand, as tags come, are refused, are cut off, and are given again after a sweep.

use std::alloc::{AllocError, Global};
use std::test::Fail;
use tag_intern::{InternEnd, Interner, TagTable, remade, renumbering};

/// A call, and what it answers.
#[derive(Clone, Copy)]
enum Call {
    Intern(u32, Result<u32, InternEnd>),
    WordOf(u32, Option<u32>),
    TagOr(u32, u32),
    Len(u32),
    Limit(u32),
    Cut(u32),
}

/// What a word that no tag has is read as.
const OTHER: u32 = 90;

/// The calls on a table for three tags, in order.
const CALLS: &[Call] = &[
    Call::Len(0),
    Call::WordOf(70, None),
    Call::Intern(70, Ok(0)),
    Call::Intern(50, Ok(1)),
    Call::Intern(70, Ok(0)),
    Call::Len(2),
    Call::Intern(60, Ok(2)),
    Call::Intern(40, Err(InternEnd::Full)),
    // full, and yet a tag that is there is answered
    Call::Intern(50, Ok(1)),
    Call::Len(3),
    Call::WordOf(60, Some(2)),
    Call::WordOf(40, None),
    Call::TagOr(0, 70),
    Call::TagOr(2, 60),
    // the last two lose their words, and one gets another
    Call::Cut(1),
    Call::Len(1),
    Call::WordOf(70, Some(0)),
    Call::WordOf(50, None),
    Call::TagOr(2, OTHER),
    Call::Intern(60, Ok(1)),
    Call::TagOr(1, 60),
    Call::Cut(0),
    Call::Len(0),
];

#[test]
fn words_of_tags(rt: HostRuntime) -> Result<(), Fail> {
    let mut table: Interner<u32> = Interner::made(rt.alloc(), 3)?;
    assert_eq!(rt; first_wrong(&mut table, CALLS), None);
    Ok(())
}

/// The place of the first call that does not answer what it states.
fn first_wrong<T: TagTable<Tag = u32>>(table: &mut T, calls: &[Call]) -> Option<usize> {
    for (at, &call) in calls.iter().enumerate() {
        if !answers_as_stated(table, call) {
            return Some(at);
        }
    }
    None
}

/// Whether a call answers what it states.
fn answers_as_stated<T: TagTable<Tag = u32>>(table: &mut T, call: Call) -> bool {
    match call {
        Call::Intern(tag, word) => table.intern(tag) == word,
        Call::WordOf(tag, word) => table.word_of(&tag) == word,
        Call::TagOr(word, tag) => table.tag_or(word, OTHER) == tag,
        Call::Len(len) => table.len() == len,
        Call::Limit(limit) => table.limit() == limit,
        Call::Cut(len) => {
            let within = len <= table.len();
            if within {
                table.cut(len);
            }
            within
        }
    }
}

/// The plain tag, whose word comes first.
const PLAIN: u32 = 7;

/// The words that stand somewhere: those of 4 and of the plain tag, and one that no tag has.
const LIVE: &[u32] = &[2, 0, 2, 5];

/// The calls on a table for three tags before it is swept.
const BEFORE: &[Call] = &[
    Call::Intern(PLAIN, Ok(0)),
    Call::Intern(9, Ok(1)),
    Call::Intern(4, Ok(2)),
    Call::Intern(9, Ok(1)),
    Call::Intern(6, Err(InternEnd::Full)),
];

/// The calls on the table that is left then.
const AFTER: &[Call] = &[
    Call::Len(2),
    Call::Limit(3),
    Call::WordOf(PLAIN, Some(0)),
    Call::WordOf(4, Some(1)),
];

#[test]
fn words_come_back(rt: HostRuntime) -> Result<(), Fail> {
    let mut old: Interner<u32> = Interner::made(rt.alloc(), 3)?;
    assert_eq!(rt; first_wrong(&mut old, BEFORE), None);
    assert!(rt; is_swept(rt.alloc(), &old)?);
    Ok(())
}

/// Whether a sweep leaves the tags of the live words, and gives the word of another to the next tag that comes.
fn is_swept<T: TagTable<Tag = u32>>(alloc: Global, old: &T) -> Result<bool, Fail> {
    let Ok(mut new) = remade(alloc, old, PLAIN, LIVE) else {
        return Err(Fail::from("no memory"));
    };
    Ok(
        first_wrong(&mut new, AFTER).is_none()
            && is_renumbered(alloc, old, &new)?
            && new.intern(6) == Ok(2),
    )
}

/// Whether the words of the old table have these in the new one.
fn is_renumbered<T: TagTable<Tag = u32>>(
    alloc: Global,
    old: &T,
    new: &T,
) -> Result<bool, AllocError> {
    let numbers = renumbering(alloc, old, new, PLAIN)?;
    // 9 stands nowhere, so that its word is another's
    Ok(numbers.as_slice() == [0, 0, 1].as_slice())
}
