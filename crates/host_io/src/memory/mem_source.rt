//! A source in memory, in pieces, whose chosen reads fail.

ghost use Rattle.std.specs.Prelude.{◌≡◌, ◌≢◌, ◌↔◌, ◌-◌, ◌^◌, ◌<◌, ◌≤◌, ◌++◌, min, length, take, drop, IsTrue, Some, Ok, IsErr, IfOk, OnErr};
ghost use Rattle.host_io.specs.Causes.{ReadCause};
ghost use Rattle.host_io.specs.FaultPlan.{fresh_plan, fails_next, plan_after};
ghost use Rattle.host_io.specs.Memory.{IsNumberedRead};
ghost use Rattle.host_io.specs.Supply.{Open, left_in, is_closed, closed-left};

use super::call_plan::CallPlan;
use super::sure_source::SureSource;
use crate::{Failed, Source};
use std::marker::Model;

/// A source over bytes in memory, which come in pieces of at most so many bytes. Its reads into
/// buffers that have room, up to the one that tells the end, are numbered from 0, and those of the
/// given numbers fail.
#[derive(Drop)]
pub struct MemSource {
    source: SureSource,
    piece: usize,
    calls: CallPlan,
    faults: u64,
}

impl Model for MemSource {
    ghost use Rattle.std.specs.Prelude.{◌≤◌};
    ghost use Rattle.host_io.specs.Memory.{PlannedSource};

    ghost Value = { PlannedSource };

    ghost view = { λ s. record {
      supply = s.source;
      piece = s.piece;
      plan = record { calls = s.calls; faults = s.faults };
    } };

    ghost invariant = { λ s. 1 ≤ s.piece };
}

impl MemSource {
    /// A source that has these bytes to give, as many at a time as are asked for, and whose reads of
    /// the numbers `fails` are to fail.
    pub fn new(bytes: Vec<u8>, fails: Vec<u64>) -> MemSource
        ensures supply { result.supply ≡ Open bytes.items }
        ensures piece { result.piece ≡ 2 ^ 64 - 1 }
        ensures plan { result.plan ≡ fresh_plan fails.items }
    {
        MemSource::in_pieces(bytes, usize::MAX, fails)
    }

    /// A source that has these bytes to give, at most `piece` of them at each read, and whose reads
    /// of the numbers `fails` are to fail.
    pub fn in_pieces(bytes: Vec<u8>, piece: usize, fails: Vec<u64>) -> MemSource
        requires { 1 ≤ piece }
        ensures supply { result.supply ≡ Open bytes.items }
        ensures piece { result.piece ≡ piece }
        ensures plan { result.plan ≡ fresh_plan fails.items }
    {
        MemSource {
            source: SureSource::new(bytes),
            piece,
            calls: CallPlan::new(fails),
            faults: 0,
        }
    }

    /// The bytes left.
    pub fn left(&self) -> &[u8]
        ensures { result.now ≡ left_in self.now.supply }
    {
        self.source.left()
    }

    /// Whether the end was told.
    pub fn is_closed(&self) -> bool
        ensures { result ≡ is_closed self.now.supply }
    {
        self.source.is_closed()
    }

    /// The number of the next read that may fail.
    pub fn next_call(&self) -> u64
        ensures { result ≡ self.now.plan.calls.next }
    {
        self.calls.next_call()
    }

    /// How many reads failed so far. The count stands still at 2^64 - 1.
    pub fn faults(&self) -> u64
        ensures { result ≡ self.now.plan.faults }
    {
        self.faults
    }
}

impl Source for MemSource {
    ghost left = { λ source. Some (left_in source.supply) };

    ghost closed = { λ source. is_closed source.supply };

    ghost faults = { λ source. source.plan.faults };

    ghost closed_at_end = { λ source. closed-left source.supply };

    fn read(&mut self, buffer: &mut [u8]) -> Result<usize, Failed>
        // The first bytes left are moved, as many as there is room for and a piece may have, and the
        // other places of the buffer stay.
        ensures count { IfOk result (λ n. n ≡
            min (min (length buffer.old) self.old.piece) (length (left_in self.old.supply))) }
        ensures moved { IfOk result (λ n.
            left_in self.old.supply ≡ take n buffer.new ++ left_in self.new.supply) }
        ensures others { IfOk result (λ n. drop n buffer.new ≡ drop n buffer.old) }

        // The answer of no byte to a buffer with room closes it, and nothing else does or undoes
        // it.
        ensures closes { result ≡ Ok 0 →
            0 < length buffer.old → IsTrue (is_closed self.new.supply) }
        ensures stays { result ≢ Ok 0 → is_closed self.new.supply ≡ is_closed self.old.supply }
        ensures at_end { IsTrue (is_closed self.old.supply) →
            (result ≡ Ok 0) × (self.new ≡ self.old) }
        ensures no_room { length buffer.old ≡ 0 → (result ≡ Ok 0) × (self.new ≡ self.old) }

        // The numbered reads fail exactly where that was planned, and then leave the bytes and the
        // buffer as they were.
        ensures planned { IsErr result ↔
            (IsNumberedRead (length buffer.old) self.old.supply ×
            IsTrue (fails_next self.old.plan.calls)) }
        ensures numbered { IsNumberedRead (length buffer.old) self.old.supply →
            self.new.plan ≡ plan_after self.old.plan }
        ensures kept { OnErr result (self.new.supply ≡ self.old.supply) }
        ensures untouched { OnErr result (buffer.new ≡ buffer.old) }
        ensures cause { ReadCause self.old.plan.faults self.new.plan.faults result }

        // The pieces stay as long.
        ensures piece { self.new.piece ≡ self.old.piece }
    {
        let numbered = !buffer.is_empty() && !self.source.is_closed();
        if numbered && self.calls.take_call() {
            self.faults = self.faults.saturating_add(1);
            return Err(Failed);
        }
        let room = buffer.len().min(self.piece);
        self.source.read(&mut buffer[..room])
    }
}
