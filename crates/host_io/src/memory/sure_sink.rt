//! A sink in memory that never fails.

ghost use Rattle.std.specs.Prelude.{◌≡◌, [], ◌++◌, length, Some, IsOk, OnOk, OnErr, IsOkUnless};

use crate::{PutEnd, Sink};
use std::alloc::Global;
use std::marker::Model;

/// A sink in memory that has no fault. It keeps the bytes it took.
#[derive(Drop)]
pub struct SureSink {
    bytes: Vec<u8>,
}

impl Model for SureSink {
    ghost use Rattle.std.specs.Prelude.{ℕ, List};

    ghost Value = { List ℕ };

    ghost view = { λ sink. sink.bytes.items };
}

impl SureSink {
    /// A sink that has taken nothing.
    pub fn new(alloc: Global) -> SureSink
        ensures { result ≡ [] }
    {
        SureSink {
            bytes: Vec::new(alloc),
        }
    }

    /// The bytes taken so far.
    pub fn bytes(&self) -> &[u8]
        ensures { result.now ≡ self.now }
    {
        self.bytes.as_slice()
    }
}

impl Sink for SureSink {
    ghost taken = { λ sink. Some sink };

    ghost faults = { λ _. 0 };

    fn put(&mut self, piece: &[u8]) -> Result<(), PutEnd>
        ensures ok { OnOk result (self.new ≡ self.old ++ piece.now) }
        ensures err { OnErr result (self.new ≡ self.old) }
        ensures empty { length piece.now ≡ 0 → IsOk result }
        ensures sure { IsOkUnless result PutEnd.Memory }
    {
        if piece.is_empty() {
            return Ok(());
        }
        self.bytes
            .extend_from_slice(piece)
            .map_err(|_| PutEnd::Memory)
    }
}
