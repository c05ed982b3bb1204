//! `NoLog`: a log that never keeps a record.

ghost use Rattle.std.specs.Prelude.{◌≡◌, []};
ghost use Rattle.undo_log.specs.Past.{past_of, pushed};

use crate::record::Record;
use crate::word_log::WordLog;
use std::alloc::AllocError;
use std::marker::{Model, PhantomData};

/// A log that never keeps a record, of an engine without a history. It has no size, and its calls cost nothing.
#[derive(Drop)]
pub struct NoLog<U: Copy> {
    of: PhantomData<U>,
}

impl<U: Copy> Model for NoLog<U> {
    ghost use Rattle.std.specs.Prelude.{ℕ, []};
    ghost use Rattle.undo_log.specs.Past.{Past, past_of};

    ghost Value = { Past ℕ U };

    ghost view = { λ log. past_of [] 0 };
}

impl<U: Copy> NoLog<U> {
    /// The log, with no record and room for none.
    #[inline(always)]
    pub fn new() -> NoLog<U>
        ensures { result ≡ past_of [] 0 }
    {
        NoLog { of: PhantomData }
    }
}

impl<U: Copy> WordLog for NoLog<U> {
    type Tag = U;

    ghost past = { λ log. past_of [] 0 };

    #[inline(always)]
    fn keeps(&self) -> bool {
        false
    }

    #[inline(always)]
    fn len(&self) -> u32 {
        0
    }

    #[inline(always)]
    fn push(&mut self, made: Record<u32, U>)
        ensures { past_of [] 0 ≡ pushed (past_of [] 0) made }
    {}

    #[inline(always)]
    fn pop(&mut self) -> Option<Record<u32, U>> {
        None
    }

    #[inline(always)]
    fn push_words(&self, _words: &mut Vec<u32>) -> Result<(), AllocError> {
        Ok(())
    }

    #[inline(always)]
    fn renumber(&mut self, _numbers: &[u32]) {}
}
