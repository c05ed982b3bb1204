//! A source over a reader of std.

ghost use Rattle.std.specs.Prelude.{◌≡◌, ◌≢◌, ◌<◌, ◌≤◌, length, take, false, IsTrue, None, Ok, IfOk, OnErr};
ghost use Rattle.std.specs.Io.KnownBytes.{Consumes, Keeps};
ghost use Rattle.host_io.specs.Causes.{ReadCause};

use crate::{Failed, Source};
use std::io::Read;
use std::marker::Model;

/// A source over a reader of std, as standard input. After its end the reader is left alone.
/// Nothing is told of the bytes left.
#[derive(Drop)]
pub struct StdSource<R: Read + Drop> {
    reader: R,
    closed: bool,
    faults: u64,
}

impl<R: Read + Drop> Model for StdSource<R> {
    ghost use Rattle.host_io.specs.System.{CountedSource};

    ghost Value = { CountedSource R };

    ghost view = { λ s. record { reader = s.reader; closed = s.closed; faults = s.faults } };
}

impl<R: Read + Drop> StdSource<R> {
    /// A source over this reader, not closed and without a fault so far.
    pub fn new(reader: R) -> StdSource<R>
        ensures reader { result.reader ≡ reader }
        ensures closed { result.closed ≡ false }
        ensures faults { result.faults ≡ 0 }
    {
        StdSource {
            reader,
            closed: false,
            faults: 0,
        }
    }

    /// How many reads failed so far. The count stands still at 2^64 - 1.
    pub fn faults(&self) -> u64
        ensures { result ≡ self.now.faults }
    {
        self.faults
    }
}

impl<R: Read + Drop> Source for StdSource<R> {
    ghost left = { λ _. None };

    ghost closed = { λ source. source.closed };

    ghost faults = { λ source. source.faults };

    ghost closed_at_end = { λ _ _. tt };

    fn read(&mut self, buffer: &mut [u8]) -> Result<usize, Failed>
        ensures within { IfOk result (λ n. n ≤ length buffer.old) }
        ensures closes { result ≡ Ok 0 → 0 < length buffer.old → IsTrue self.new.closed }
        ensures stays { result ≢ Ok 0 → self.new.closed ≡ self.old.closed }
        ensures at_end { IsTrue self.old.closed → (result ≡ Ok 0) × (self.new ≡ self.old) }
        ensures no_room { length buffer.old ≡ 0 → (result ≡ Ok 0) × (self.new ≡ self.old) }
        ensures cause { ReadCause self.old.faults self.new.faults result }

        // The bytes are the reader's next ones, where it tells its own.
        ensures given { IfOk result (λ n. Consumes (R.remaining self.old.reader)
            (R.remaining self.new.reader) (take n buffer.new)) }
        ensures kept { OnErr result
            (Keeps (R.remaining self.old.reader) (R.remaining self.new.reader)) }
    {
        if self.closed || buffer.is_empty() {
            return Ok(0);
        }
        match self.reader.read(buffer) {
            Ok(count) => {
                self.closed = count == 0;
                Ok(count)
            }
            Err(_) => {
                self.faults = self.faults.saturating_add(1);
                Err(Failed)
            }
        }
    }
}
