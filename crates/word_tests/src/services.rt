//! What services write, by hand in words, and memory of words as a service sees it.

use crate::given::answer_of;
use monitor_calls::{Job, View};
use policy_trait::{Plan, Rest};
use std::alloc::{AllocError, Global};
use std::test::Fail;
use tag_intern::{Decoder, InternEnd, Interner, TagTable};
use tag_memory::{Pages, Ram};
use word_service::{Decoded, WordJob, intern_job};

/// What a service writes, and how it is written in a table for four tags where 70 and 50 have the words 0 and 1.
#[derive(Clone, Copy)]
struct Row {
    /// Address, value and tag of each word of the range.
    range: &'static [(u32, u32, u32)],
    /// Value, tag and rest of the answer.
    answer: Option<(u32, u32, Rest)>,
    /// The same in words, or why it is refused.
    written: Result<Written, InternEnd>,
    /// The tags that have words then.
    tags: &'static [u32],
}

/// What is written in words.
#[derive(Clone, Copy)]
struct Written {
    words: &'static [(u32, u32, u32)],
    answer: Option<(u32, u32, Rest)>,
}

const ROWS: &[Row] = &[
    // nothing is written
    Row {
        range: &[],
        answer: None,
        written: Ok(Written {
            words: &[],
            answer: None,
        }),
        tags: &[70, 50],
    },
    // new tags get words as the range goes up
    Row {
        range: &[(4, 11, 60), (8, 12, 40)],
        answer: None,
        written: Ok(Written {
            words: &[(4, 11, 2), (8, 12, 3)],
            answer: None,
        }),
        tags: &[70, 50, 60, 40],
    },
    // a tag that has a word keeps it, before the service and within it
    Row {
        range: &[(4, 11, 50), (8, 12, 60), (12, 13, 60)],
        answer: Some((9, 70, Rest::Plain)),
        written: Ok(Written {
            words: &[(4, 11, 1), (8, 12, 2), (12, 13, 2)],
            answer: Some((9, 0, Rest::Plain)),
        }),
        tags: &[70, 50, 60],
    },
    // the tag of the answer comes after those of the range
    Row {
        range: &[(4, 11, 60)],
        answer: Some((9, 40, Rest::AsA0)),
        written: Ok(Written {
            words: &[(4, 11, 2)],
            answer: Some((9, 3, Rest::AsA0)),
        }),
        tags: &[70, 50, 60, 40],
    },
    Row {
        range: &[],
        answer: Some((9, 60, Rest::Plain)),
        written: Ok(Written {
            words: &[],
            answer: Some((9, 2, Rest::Plain)),
        }),
        tags: &[70, 50, 60],
    },
    // a full table answers for the tags that it has
    Row {
        range: &[(4, 11, 60), (8, 12, 40), (12, 13, 50)],
        answer: Some((9, 40, Rest::Plain)),
        written: Ok(Written {
            words: &[(4, 11, 2), (8, 12, 3), (12, 13, 1)],
            answer: Some((9, 3, Rest::Plain)),
        }),
        tags: &[70, 50, 60, 40],
    },
    // the fifth tag is one too many, in the range and in the answer, and those before it lose their words
    Row {
        range: &[(4, 11, 60), (8, 12, 40), (12, 13, 30)],
        answer: None,
        written: Err(InternEnd::Full),
        tags: &[70, 50],
    },
    Row {
        range: &[(4, 11, 60), (8, 12, 40)],
        answer: Some((9, 30, Rest::Plain)),
        written: Err(InternEnd::Full),
        tags: &[70, 50],
    },
];

/// Addresses of a memory of three words, and what a service sees there: the word and its tag. The last word of memory has
/// a word for its tag that no tag has.
const SEEN: &[(u32, Option<(u32, u32)>)] = &[
    (0, Some((11, 50))),
    (4, Some((12, 70))),
    (8, Some((13, 5))),
    (12, None),
];

#[test]
fn jobs_in_words(rt: HostRuntime) -> Result<(), Fail> {
    for (at, row) in ROWS.iter().enumerate() {
        let mut table = table_of(rt.alloc())?;
        assert!(rt; is_interned(rt.alloc(), &mut table, row)?, "row {at}");
        assert!(rt; has_tags(&table, row.tags), "tags of row {at}");
    }
    Ok(())
}

#[test]
fn memory_of_words(rt: HostRuntime) -> Result<(), Fail> {
    let table = table_of(rt.alloc())?;
    assert_eq!(rt; first_unseen(rt.alloc(), &table)?, None);
    Ok(())
}

/// The first address at which a service sees something else.
fn first_unseen<T: TagTable<Tag = u32>>(
    alloc: Global,
    table: &T,
) -> Result<Option<u32>, AllocError> {
    let ram = ram_of(alloc)?;
    for &(address, seen) in SEEN {
        if seen_at(&ram, table, address) != seen {
            return Ok(Some(address));
        }
    }
    Ok(None)
}

/// Memory of the words 11, 12 and 13, whose tags have the words 1, 0 and 2.
fn ram_of(alloc: Global) -> Result<Ram<u32>, AllocError> {
    let words = [11, 12, 13].to_vec(alloc)?;
    let tags = Pages::new(alloc, 3, 0)?.extended(1, 1)?.extended(2, 0)?;
    Ok(Ram::from_parts(words, tags.extended(3, 2)?, 0))
}

/// A table for four tags, where 70 and 50 have words.
fn table_of(alloc: Global) -> Result<Interner<u32>, Fail> {
    let mut table = Interner::made(alloc, 4)?;
    for tag in [70, 50] {
        table.intern(tag).ok().ok_or("no word")?;
    }
    Ok(table)
}

/// The job of a service that writes so.
fn job_of(alloc: Global, row: &Row) -> Result<Job<u32>, AllocError> {
    let plan = Plan {
        service: 40,
        pc: 0,
        note: 0,
        range: None,
        zero: false,
        answer: row.answer.map(answer_of),
    };
    let words = row.range.to_vec(alloc)?;
    Ok(Job { plan, words })
}

/// Whether the job of a row is written in words as the row says.
fn is_interned<T: TagTable<Tag = u32>>(
    alloc: Global,
    table: &mut T,
    row: &Row,
) -> Result<bool, AllocError> {
    let job = job_of(alloc, row)?;
    let written = intern_job(alloc, table, &job);
    Ok(is_written(&written, &row.written))
}

/// Whether a job is written as expected.
fn is_written(written: &Result<WordJob, InternEnd>, expected: &Result<Written, InternEnd>) -> bool {
    match (written, expected) {
        (Ok(job), Ok(wanted)) => {
            job.words.as_slice() == wanted.words && job.answer == wanted.answer.map(answer_of)
        }
        (Err(end), Err(wanted)) => end == wanted,
        _ => false,
    }
}

/// Whether these tags have words, in this order, and no others.
fn has_tags<T: TagTable<Tag = u32>>(table: &T, tags: &[u32]) -> bool {
    for (word, tag) in tags.iter().enumerate() {
        if table.word_of(tag) != u32::try_from(word).ok() {
            return false;
        }
    }
    table.len() as usize == tags.len()
}

/// What a service sees at an address, where 5 is the plain tag.
fn seen_at<'a, T: TagTable<Tag = u32>>(
    ram: &'a Ram<u32>,
    tags: &'a T,
    address: u32,
) -> Option<(u32, u32)> {
    let view = Decoded {
        ram,
        decoder: Decoder { tags, plain: 5 },
    };
    word_at(&view, address)
}

/// The word at an address and its tag, `None` where memory has none there.
fn word_at<V: View>(view: &V, address: u32) -> Option<(u32, V::Tag)> {
    let end = address.checked_add(4)?;
    if address % 4 != 0 || view.bytes() < end {
        return None;
    }
    Some((view.word(address), view.tag(address)))
}
