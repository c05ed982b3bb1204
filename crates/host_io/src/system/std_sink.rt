//! A sink over a writer of std.

ghost use Rattle.std.specs.Prelude.{◌≡◌, length, None, Err, IsOk, OnOk};
ghost use Rattle.std.specs.Io.KnownBytes.{Appends};
ghost use Rattle.host_io.specs.Prefixes.{TakesPrefix};
ghost use Rattle.host_io.specs.Causes.{PutCause};

use crate::{PutEnd, Sink};
use std::io;
use std::io::Write;
use std::marker::Model;

/// A sink over a writer of std, as standard output or standard error. Each put is outside when it
/// returns. Nothing is told of the bytes taken.
#[derive(Drop)]
pub struct StdSink<W: Write + Drop> {
    writer: W,
    faults: u64,
}

impl<W: Write + Drop> Model for StdSink<W> {
    ghost use Rattle.host_io.specs.System.{CountedSink};

    ghost Value = { CountedSink W };

    ghost view = { λ s. record { writer = s.writer; faults = s.faults } };
}

impl<W: Write + Drop> StdSink<W> {
    /// A sink over this writer, without a fault so far.
    pub fn new(writer: W) -> StdSink<W>
        ensures writer { result.writer ≡ writer }
        ensures faults { result.faults ≡ 0 }
    {
        StdSink { writer, faults: 0 }
    }

    /// How many puts failed so far. The count stands still at 2^64 - 1.
    pub fn faults(&self) -> u64
        ensures { result ≡ self.now.faults }
    {
        self.faults
    }
}

impl<W: Write + Drop> Sink for StdSink<W> {
    ghost taken = { λ _. None };

    ghost faults = { λ sink. sink.faults };

    #[tactic(auto, using(crate::proofs::PrefixLemmas::takes_none))]
    fn put(&mut self, piece: &[u8]) -> Result<(), PutEnd>
        ensures failed { result ≡ Err PutEnd.Failed → TakesPrefix None None piece.now }
        ensures empty { length piece.now ≡ 0 → IsOk result }
        ensures cause { PutCause self.old.faults self.new.faults result }

        // The writer got all bytes, where it tells its own.
        ensures written { OnOk result
            (Appends (W.contents self.old.writer) (W.contents self.new.writer) piece.now) }
    {
        if piece.is_empty() {
            return Ok(());
        }
        match write_through(&mut self.writer, piece) {
            Ok(()) => Ok(()),
            Err(_) => {
                self.faults = self.faults.saturating_add(1);
                Err(PutEnd::Failed)
            }
        }
    }
}

// Writes the whole piece, and nothing of it stays inside.
pub(super) fn write_through<W: Write>(writer: &mut W, piece: &[u8]) -> io::Result<()>
    ensures { OnOk result (Appends (W.contents writer.old) (W.contents writer.new) piece.now) }
{
    writer.write_all(piece)?;
    writer.flush()
}
