//! A source in memory that never fails.

ghost use Rattle.std.specs.Prelude.{◌≡◌, ◌≢◌, ◌<◌, ◌++◌, min, length, take, drop, IsTrue, Some, Ok, IfOk};
ghost use Rattle.host_io.specs.Supply.{Open, left_in, is_closed, closed-left};

use crate::{Failed, Source};
use std::marker::Model;

/// A source over bytes in memory that has no fault.
#[derive(Drop)]
pub struct SureSource {
    bytes: Vec<u8>,
    next: usize,
    closed: bool,
}

impl Model for SureSource {
    ghost use Rattle.std.specs.Prelude.{◌≤◌, vec_len, drop, if◌then◌else◌};
    ghost use Rattle.host_io.specs.Supply.{Supply, Open, Closed};

    ghost Value = { Supply };

    ghost view = { λ s. if s.closed then Closed else Open (drop s.next s.bytes.items) };

    ghost invariant = { λ s. s.next ≤ vec_len s.bytes };
}

impl SureSource {
    /// A source that has these bytes to give.
    pub fn new(bytes: Vec<u8>) -> SureSource
        ensures { result ≡ Open bytes.items }
    {
        SureSource {
            bytes,
            next: 0,
            closed: false,
        }
    }

    /// The bytes left.
    pub fn left(&self) -> &[u8]
        ensures { result.now ≡ left_in self.now }
    {
        if self.closed {
            &[]
        } else {
            &self.bytes[self.next..]
        }
    }

    /// Whether the end was told.
    pub fn is_closed(&self) -> bool
        ensures { result ≡ is_closed self.now }
    {
        self.closed
    }
}

impl Source for SureSource {
    ghost left = { λ source. Some (left_in source) };

    ghost closed = { λ source. is_closed source };

    ghost faults = { λ _. 0 };

    ghost closed_at_end = { closed-left };

    fn read(&mut self, buffer: &mut [u8]) -> Result<usize, Failed>
        // As many first bytes as there is room for are moved, and the other places of the buffer
        // stay.
        ensures count { result ≡ Ok (min (length buffer.old) (length (left_in self.old))) }
        ensures moved { IfOk result (λ n.
            left_in self.old ≡ take n buffer.new ++ left_in self.new) }
        ensures others { IfOk result (λ n. drop n buffer.new ≡ drop n buffer.old) }

        // The answer of no byte to a buffer with room closes it, and nothing else does or undoes
        // it.
        ensures closes { result ≡ Ok 0 → 0 < length buffer.old → IsTrue (is_closed self.new) }
        ensures stays { result ≢ Ok 0 → is_closed self.new ≡ is_closed self.old }
        ensures at_end { IsTrue (is_closed self.old) → self.new ≡ self.old }
        ensures no_room { length buffer.old ≡ 0 → self.new ≡ self.old }
    {
        if self.closed || buffer.is_empty() {
            return Ok(0);
        }
        let count = copy_prefix(&self.bytes[self.next..], buffer);
        self.next += count;
        self.closed = count == 0;
        Ok(count)
    }
}

// Copies as many first bytes as fit, and says how many.
fn copy_prefix(from: &[u8], to: &mut [u8]) -> usize
    ensures count { result ≡ min (length to.old) (length from.now) }
    ensures copied { take result to.new ≡ take result from.now }
    ensures others { drop result to.new ≡ drop result to.old }
{
    let count = to.len().min(from.len());
    to[..count].copy_from_slice(&from[..count]);
    count
}
