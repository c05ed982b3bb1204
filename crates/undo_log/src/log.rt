//! `UndoLog`: the records of the last turns.

ghost use Rattle.std.specs.Prelude.{◌≡◌, ◌<◌, ◌≤◌, ◌↔◌, [], ◌∷◌, ◌++◌, Some, false, length, slice_get, IfNone, IfOk, IfSome, IsTrue};
ghost use Rattle.std.specs.Borrow.{sem};
ghost use Rattle.undo_log.specs.Past.{IsPast, emptied, newest, older, past_of, pushed};

use crate::record::Record;
use circular_buffer::HeapCircularBuffer;
use std::alloc::{AllocError, Global};
use std::marker::Model;

/// The records of the last turns, at most a fixed number of them. Contracts see it as a `Past`.
#[derive(Drop)]
pub struct UndoLog<T: Copy, U: Copy> {
    records: HeapCircularBuffer<Record<T, U>>,
}

impl<T: Copy, U: Copy> Model for UndoLog<T, U> {
    ghost use Rattle.undo_log.specs.Past.{IsPast, Past, past_of};

    ghost Value = { Past T U };

    ghost view = { λ log. past_of log.records.items log.records.capacity };

    ghost invariant = { λ log. IsPast (past_of log.records.items log.records.capacity) };
}

impl<T: Copy, U: Copy> UndoLog<T, U> {
    ghost use Rattle.undo_log.specs.Lending.{LendsRecord};

    /// An empty log for at most `most` records, 0 to 65,536. All its memory is taken here, and the only error is that
    /// there is too little of it; nothing else takes any.
    pub fn new(alloc: Global, most: u32) -> Result<UndoLog<T, U>, AllocError>
        requires few { most ≤ 65536 }
        ensures empty { IfOk result (λ log. log ≡ past_of [] most) }
    {
        let records = HeapCircularBuffer::with_capacity(alloc, most as usize)?;
        Ok(UndoLog { records })
    }

    /// How many records there are, 0 to 65,536.
    pub fn len(&self) -> u32
        ensures value { result ≡ length self.now.kept }
        ensures valid { IsPast self.now }
    {
        self.records.len() as u32
    }

    /// Whether the log is for any record: one that is pushed is kept then.
    pub fn keeps(&self) -> bool
        ensures value { IsTrue result ↔ (0 < self.now.most) }
        ensures none { result ≡ false → self.now ≡ past_of [] 0 }
        ensures valid { IsPast self.now }
    {
        0 < self.records.capacity()
    }

    /// Adds a record, the newest. A full log drops its oldest for it; a log for none drops this one.
    #[inline(always)]
    pub fn push(&mut self, made: Record<T, U>)
        ensures kept { self.new ≡ pushed self.old made }
    {
        self.records.push_back(made);
    }

    /// Takes the newest record out; `None` where there is none.
    #[tactic(auto, using(crate::proofs::PopLemmas::last_back, crate::proofs::PopLemmas::none_last))]
    pub fn pop(&mut self) -> Option<Record<T, U>>
        ensures newest { result ≡ newest self.old }
        ensures others { self.new ≡ older self.old }
        ensures empty { IfNone result (self.old.kept ≡ []) }
    {
        self.records.pop_back()
    }

    /// The record at place `i`, from 0, the oldest, to below `len`.
    pub fn at(&self, i: u32) -> &Record<T, U>
        requires within { i < length self.now.kept }
        ensures value { slice_get self.now.kept i ≡ Some result.now }
    {
        match self.records.get(i as usize) {
            Some(made) => made,
            None => unreachable!(),
        }
    }

    /// The record at place `i`, from 0, the oldest, to below `len`, to be changed in its place.
    pub fn at_mut(&mut self, i: u32) -> &mut Record<T, U>
        requires within { i < length self.old.kept }
        ensures* writes_back { sem 𝓛 (LendsRecord T.row U.row self.entry i result) }
        ensures value { slice_get self.old.kept i ≡ Some result.now }
    {
        match self.records.get_mut(i as usize) {
            Some(made) => made,
            None => unreachable!(),
        }
    }

    /// Drops every record.
    pub fn clear(&mut self)
        ensures empty { self.new ≡ emptied self.old }
    {
        self.records.clear();
    }
}
