//! `WordLog`: what an engine whose tags are words asks of the records that it keeps.

ghost use Rattle.std.specs.Prelude.{◌≡◌, ◌<◌, ◌↔◌, ◌++◌, [], IsTrue, OnOk, false, length, map, slice_index};
ghost use Rattle.undo_log.specs.Past.{IsPast, newest, older, past_by, past_of, past_tags, pushed, record_tags, record_with, replaced_by, replaced_tags, some_replaced_by};

use crate::log::UndoLog;
use crate::record::{Old, OldWords, Record, Replaced};
use std::alloc::AllocError;

/// The records of the last turns of an engine whose tags are words: those that it keeps, or none at all.
pub trait WordLog: Drop {
    ghost use Rattle.std.specs.Prelude.{ℕ};
    ghost use Rattle.undo_log.specs.Past.{Past};

    /// The policy's kind of tag, which plans have.
    type Tag: Copy;

    ghost past: { Self → Past ℕ Self.Tag };

    /// Whether the log is for any record: one that is pushed is kept then.
    fn keeps(&self) -> bool
        ensures value { IsTrue result ↔ (0 < (past self.now).most) }
        ensures none { result ≡ false → past self.now ≡ past_of [] 0 }
        ensures valid { IsPast (past self.now) };

    /// How many records there are, 0 to 65,536.
    fn len(&self) -> u32
        ensures { result ≡ length (past self.now).kept };

    /// Adds a record, the newest. A full log drops its oldest for it; a log for none drops this one.
    fn push(&mut self, made: Record<u32, Self::Tag>)
        ensures { past self.new ≡ pushed (past self.old) made };

    /// Takes the newest record out; `None` where there is none.
    fn pop(&mut self) -> Option<Record<u32, Self::Tag>>
        ensures newest { result ≡ newest (past self.old) }
        ensures others { past self.new ≡ older (past self.old) };

    /// Adds the words that the records hold in the place of tags to a list, the oldest record's first. The only error is
    /// running out of memory.
    fn push_words(&self, words: &mut Vec<u32>) -> Result<(), AllocError>
        ensures { OnOk result (words.new.items ≡ words.old.items ++ past_tags (past self.now)) };

    /// Gives each of these words the number that stands at its place in `numbers`, 0 for one past its end. It takes no
    /// memory.
    fn renumber(&mut self, numbers: &[u32])
        ensures { past self.new ≡ past_by (slice_index numbers.now) (past self.old) };
}

impl<U: Copy> WordLog for UndoLog<u32, U> {
    type Tag = U;

    ghost past = { λ log. log };

    fn keeps(&self) -> bool {
        UndoLog::keeps(self)
    }

    fn len(&self) -> u32 {
        UndoLog::len(self)
    }

    #[inline(always)]
    fn push(&mut self, made: Record<u32, U>)
        ensures { self.new ≡ pushed self.old made }
    {
        UndoLog::push(self, made);
    }

    fn pop(&mut self) -> Option<Record<u32, U>> {
        UndoLog::pop(self)
    }

    fn push_words(&self, words: &mut Vec<u32>) -> Result<(), AllocError> {
        for i in 0..self.len() {
            push_record(self.at(i), words)?;
        }
        Ok(())
    }

    fn renumber(&mut self, numbers: &[u32]) {
        for i in 0..self.len() {
            renumber_record(self.at_mut(i), numbers);
        }
    }
}

/// Adds the words of a record to a list. The only error is running out of memory.
fn push_record<U: Copy>(made: &Record<u32, U>, words: &mut Vec<u32>) -> Result<(), AllocError>
    ensures { OnOk result (words.new.items ≡ words.old.items ++ record_tags made.now) }
{
    words.push(made.pc_tag())?;
    push_replaced(made.reg(), words)?;
    push_replaced(made.word(), words)?;
    for old in made.range() {
        words.push(old.tag)?;
    }
    Ok(())
}

/// Adds the word of what stood at a place, if anything did. The only error is running out of memory.
fn push_replaced(old: Option<Replaced<u32>>, words: &mut Vec<u32>) -> Result<(), AllocError>
    ensures { OnOk result (words.new.items ≡ words.old.items ++ replaced_tags old) }
{
    if let Some(old) = old {
        words.push(old.tag)?;
    }
    Ok(())
}

/// Gives each word of a record its number.
fn renumber_record<U: Copy>(made: &mut Record<u32, U>, numbers: &[u32])
    ensures { made.new ≡ record_with (slice_index numbers.now) made.old }
{
    made.start.pc_tag = number_at(numbers, made.start.pc_tag);
    match &mut made.replaced {
        Old::Nothing => {}
        Old::Register(old) => old.tag = number_at(numbers, old.tag),
        Old::Word(old) => old.tag = number_at(numbers, old.tag),
        Old::Service(served) => {
            served.answered = renumbered(served.answered, numbers);
            renumber_range(&mut served.range, numbers);
        }
    }
}

/// What stood at a place, if anything did, with the number of its word.
fn renumbered(old: Option<Replaced<u32>>, numbers: &[u32]) -> Option<Replaced<u32>>
    ensures { result ≡ some_replaced_by (slice_index numbers.now) old }
{
    let mut old = old?;
    old.tag = number_at(numbers, old.tag);
    Some(old)
}

/// Gives each word of a service's range its number.
fn renumber_range(range: &mut OldWords<u32>, numbers: &[u32])
    ensures { range.new ≡ map (replaced_by (slice_index numbers.now)) range.old }
{
    for old in range.words_mut() {
        old.tag = number_at(numbers, old.tag);
    }
}

/// The number at a place of `numbers`, 0 past its end.
fn number_at(numbers: &[u32], place: u32) -> u32
    ensures { result ≡ slice_index numbers.now place }
{
    numbers.get(place as usize).copied().unwrap_or(0)
}
