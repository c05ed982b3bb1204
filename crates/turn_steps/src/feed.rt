//! The bytes that programs get.

ghost use Rattle.std.specs.Prelude.{◌≡◌, [], OnErr, OnOk};
ghost use Rattle.turn_steps.specs.Feeds.{byte_unread, fed_after, first_fed, tape_of, with_fed};

use std::alloc::{AllocError, Global};
use std::marker::Model;

/// The bytes that programs get, the next one first: contracts see those that were read and those that are left.
#[derive(Drop)]
pub struct Feed {
    bytes: Vec<u8>,
    place: usize,
}

impl Model for Feed {
    ghost use Rattle.std.specs.Prelude.{◌≤◌, drop, length, take};
    ghost use Rattle.turn_steps.specs.Feeds.{Tape};

    ghost Value = { Tape };

    ghost view = { λ f. record {
      read = take f.place f.bytes.items;
      left = drop f.place f.bytes.items;
    } };

    ghost invariant = { λ f. f.place ≤ length f.bytes.items };
}

impl Feed {
    /// A feed with no byte.
    pub fn new(alloc: Global) -> Feed
        ensures { result ≡ tape_of [] }
    {
        Feed {
            bytes: Vec::new(alloc),
            place: 0,
        }
    }

    /// A feed of these bytes, of which none is read yet. It takes no memory.
    pub fn of(bytes: Vec<u8>) -> Feed
        ensures { result ≡ tape_of bytes.items }
    {
        Feed { bytes, place: 0 }
    }

    /// Puts bytes behind those that are left. The only error is running out of memory, which leaves the feed as it was.
    pub fn append(&mut self, bytes: &[u8]) -> Result<(), AllocError>
        ensures ok { OnOk result (self.new ≡ with_fed self.old bytes.now) }
        ensures err { OnErr result (self.new ≡ self.old) }
    {
        self.bytes.extend_from_slice(bytes)
    }

    /// Reads the next byte, `None` where none is left.
    pub fn next(&mut self) -> Option<u8>
        ensures byte { result ≡ first_fed self.old.left }
        ensures tape { self.new ≡ fed_after self.old }
    {
        let byte = self.bytes.get(self.place).copied()?;
        self.place += 1;
        Some(byte)
    }

    /// The byte that `next` will read, `None` where none is left.
    pub fn peek(&self) -> Option<u8>
        ensures { result ≡ first_fed self.now.left }
    {
        self.bytes.get(self.place).copied()
    }

    /// Puts the last byte that was read back, so that it is the next one again; nothing changes where none was read. It takes no
    /// memory.
    pub fn unread(&mut self)
        ensures tape { self.new ≡ byte_unread self.old }
    {
        self.place = self.place.saturating_sub(1);
    }
}
