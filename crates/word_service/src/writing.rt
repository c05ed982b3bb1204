//! The words of what a service writes.

ghost use Rattle.std.specs.Prelude.{◌≡◌, ℕ, ◌<◌, ◌≤◌, ◌↔◌, Err, IfOk, IfSome, OnErr, OnOk, Some, length, option_map, slice_get, take};
ghost use Rattle.std.specs.List.{All};
ghost use Rattle.policy_trait.specs.Maps.{answer_by};
ghost use Rattle.tag_memory.specs.Ram.{IsPlace};
ghost use Rattle.monitor_calls.specs.Ends.{job_by};
ghost use Rattle.engine_trait.specs.Accounts.{answer_tags, with_tag, with_tags, written_tags};
ghost use Rattle.engine_trait.specs.Maps.{words_by};
ghost use Rattle.tag_intern.specs.Table.{Extends, table_after};
ghost use Rattle.tag_intern.specs.Words.{tag_at};
ghost use Rattle.word_service.specs.Written.{AnswerStandsFor, IsAnswerBelow, IsWordBelow, StandFor, tags_of};

use monitor_calls::Job;
use policy_trait::Answer;
use std::alloc::Global;
use tag_intern::{InternEnd, TagTable};

/// What a service writes, where tags are words: each word of its range as address, value and word of the tag, and its
/// answer.
#[derive(Drop)]
pub struct WordJob {
    pub words: Vec<(u32, u32, u32)>,
    pub answer: Option<Answer<u32>>,
}

/// Gives words to the tags that a service writes: those of its range, ascending, and then that of its answer.
///
/// `Full` is told only where there would be more tags with words than there may be, and `Memory` only where there is room
/// at least for the first tag that is written. Neither refusal leaves a tag behind.
#[inline(always)]
pub fn intern_job<T: TagTable>(
    alloc: Global,
    tags: &mut T,
    job: &Job<T::Tag>,
) -> Result<WordJob, InternEnd>
    // The tags that are written have words, in their order.
    ensures seen { OnOk result ((T.state tags.new).tags ≡ with_tags T.Tag.eq (T.state tags.old).tags
        (written_tags (job_by job.now.plan job.now.words.items))) }
    ensures limit { (T.state tags.new).limit ≡ (T.state tags.old).limit }
    ensures within { length (T.state tags.new).tags ≤ (T.state tags.new).limit }
    ensures extends { Extends (T.state tags.old).tags (T.state tags.new).tags }

    // What is written in words stands for what the service writes, whatever the plain tag is.
    ensures words { IfOk result (λ written. (plain : T.Tag)
        → words_by (tag_at plain (T.state tags.new).tags) written.words.items ≡ job.now.words.items) }
    ensures answer { IfOk result (λ written. (plain : T.Tag)
        → option_map (answer_by (tag_at plain (T.state tags.new).tags)) written.answer
        ≡ job.now.plan.answer) }
    ensures below { IfOk result (λ written.
        All (IsWordBelow (length (T.state tags.new).tags)) written.words.items) }
    ensures answer_below { IfOk result (λ written.
        IsAnswerBelow (length (T.state tags.new).tags) written.answer) }
    ensures places { IfOk result (λ written. (bytes : ℕ)
        → All (λ word. IsPlace bytes word.0) job.now.words.items
        → All (λ word. IsPlace bytes word.0) written.words.items) }

    // It is out of words only where the tags need more than there may be, and never out of memory where the first tag
    // does already.
    ensures full { result ≡ Err InternEnd.Full → (T.state tags.old).limit
        < length (with_tags T.Tag.eq (T.state tags.old).tags
        (written_tags (job_by job.now.plan job.now.words.items))) }
    ensures memory { result ≡ Err InternEnd.Memory → length (with_tags T.Tag.eq
        (T.state tags.old).tags (take 1 (written_tags (job_by job.now.plan job.now.words.items))))
        ≤ (T.state tags.old).limit }
    ensures refused { OnErr result (T.state tags.new ≡ T.state tags.old) }
{
    let len = tags.len();
    match intern_parts(alloc, tags, job) {
        Ok(written) => Ok(written),
        Err(end) => {
            tags.cut(len);
            Err(end)
        }
    }
}

/// Gives words as `intern_job` does. A refusal leaves the tags that came before it in the table.
fn intern_parts<T: TagTable>(
    alloc: Global,
    tags: &mut T,
    job: &Job<T::Tag>,
) -> Result<WordJob, InternEnd>
    requires within { length (T.state tags.old).tags ≤ (T.state tags.old).limit }
    ensures seen { OnOk result ((T.state tags.new).tags ≡ with_tags T.Tag.eq (T.state tags.old).tags
        (written_tags (job_by job.now.plan job.now.words.items))) }
    ensures limit { (T.state tags.new).limit ≡ (T.state tags.old).limit }
    ensures within { length (T.state tags.new).tags ≤ (T.state tags.new).limit }
    ensures extends { Extends (T.state tags.old).tags (T.state tags.new).tags }
    ensures words { IfOk result (λ written.
        StandFor (T.state tags.new).tags written.words.items job.now.words.items) }
    ensures answer { IfOk result (λ written.
        AnswerStandsFor (T.state tags.new).tags written.answer job.now.plan.answer) }
    ensures full { result ≡ Err InternEnd.Full → (T.state tags.old).limit
        < length (with_tags T.Tag.eq (T.state tags.old).tags
        (written_tags (job_by job.now.plan job.now.words.items))) }
    ensures memory { result ≡ Err InternEnd.Memory → length (with_tags T.Tag.eq
        (T.state tags.old).tags (take 1 (written_tags (job_by job.now.plan job.now.words.items))))
        ≤ (T.state tags.old).limit }
{
    let words = intern_words(alloc, tags, &job.words)?;
    let answer = intern_answer(tags, &job.plan.answer)?;
    Ok(WordJob { words, answer })
}

/// Gives words to the tags of a range.
fn intern_words<T: TagTable>(
    alloc: Global,
    tags: &mut T,
    words: &[(u32, u32, T::Tag)],
) -> Result<Vec<(u32, u32, u32)>, InternEnd>
    requires within { length (T.state tags.old).tags ≤ (T.state tags.old).limit }
    ensures seen { OnOk result ((T.state tags.new).tags
        ≡ with_tags T.Tag.eq (T.state tags.old).tags (tags_of words.now)) }
    ensures limit { (T.state tags.new).limit ≡ (T.state tags.old).limit }
    ensures within { length (T.state tags.new).tags ≤ (T.state tags.new).limit }
    ensures extends { Extends (T.state tags.old).tags (T.state tags.new).tags }
    ensures words { IfOk result (λ written.
        StandFor (T.state tags.new).tags written.items words.now) }
    ensures full { result ≡ Err InternEnd.Full → (T.state tags.old).limit
        < length (with_tags T.Tag.eq (T.state tags.old).tags (tags_of words.now)) }
    ensures memory { result ≡ Err InternEnd.Memory → length (with_tags T.Tag.eq
        (T.state tags.old).tags (take 1 (tags_of words.now))) ≤ (T.state tags.old).limit }
    ensures some { result ≡ Err InternEnd.Memory → 1 ≤ length words.now }
{
    let mut written = Vec::new(alloc);
    let mut last = None;
    for item in words {
        let word = next_word(tags, last, &item.2)?;
        let Ok(()) = written.push((item.0, item.1, word)) else {
            return Err(InternEnd::Memory);
        };
        last = Some((&item.2, word));
    }
    Ok(written)
}

/// Gives a word to the tag that comes next. The words of a range mostly have one tag, so that the tag that came last is
/// compared before the table is asked.
fn next_word<T: TagTable>(
    tags: &mut T,
    last: Option<(&T::Tag, u32)>,
    tag: &T::Tag,
) -> Result<u32, InternEnd>
    requires last { IfSome last (λ known.
        slice_get (T.state tags.old).tags known.1 ≡ Some known.0.now) }
    ensures word { IfOk result (λ word. slice_get (T.state tags.new).tags word ≡ Some tag.now) }
    ensures grown { OnOk result
        (T.state tags.new ≡ table_after T.Tag.eq (T.state tags.old) tag.now) }
    ensures over { (result ≡ Err InternEnd.Full)
        ↔ ((T.state tags.old).limit < length (with_tag T.Tag.eq (T.state tags.old).tags tag.now)) }
    ensures refused { OnErr result (T.state tags.new ≡ T.state tags.old) }
    ensures extends { Extends (T.state tags.old).tags (T.state tags.new).tags }
{
    let _len = tags.len(); // for the proof: there are no more tags than may be
    match last {
        Some((before, word)) if *before == *tag => Ok(word),
        _ => tags.intern(*tag),
    }
}

/// Gives a word to the tag of an answer, if there is one.
fn intern_answer<T: TagTable>(
    tags: &mut T,
    answer: &Option<Answer<T::Tag>>,
) -> Result<Option<Answer<u32>>, InternEnd>
    requires within { length (T.state tags.old).tags ≤ (T.state tags.old).limit }
    ensures seen { OnOk result ((T.state tags.new).tags
        ≡ with_tags T.Tag.eq (T.state tags.old).tags (answer_tags answer.now)) }
    ensures limit { (T.state tags.new).limit ≡ (T.state tags.old).limit }
    ensures within { length (T.state tags.new).tags ≤ (T.state tags.new).limit }
    ensures extends { Extends (T.state tags.old).tags (T.state tags.new).tags }
    ensures answer { IfOk result (λ written.
        AnswerStandsFor (T.state tags.new).tags written answer.now) }
    ensures full { (result ≡ Err InternEnd.Full) ↔ ((T.state tags.old).limit
        < length (with_tags T.Tag.eq (T.state tags.old).tags (answer_tags answer.now))) }
{
    let Some(answer) = answer else {
        return Ok(None);
    };
    let tag = tags.intern(answer.tag)?;
    Ok(Some(Answer {
        value: answer.value,
        tag,
        rest: answer.rest,
    }))
}
