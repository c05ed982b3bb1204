//! An input that is read piece by piece.

ghost use Rattle.std.specs.Prelude.{◌≡◌, ◌≢◌, ℕ, ◌<◌, ◌≤◌, List, length, take, Option, Bool, IsTrue, Ok, IfOk, OnErr};
ghost use Rattle.std.specs.Io.KnownBytes.{IsAtEnd, prepend_known};
ghost use Rattle.host_io.specs.Causes.{ReadCause};

/// A read failed, and no byte was moved out.
#[derive(Clone, Copy, Debug, PartialEq, Eq)]
pub struct Failed;

/// An input that is read piece by piece, up to its end.
pub trait Source {
    // The bytes left, where they are told.
    ghost left: { Self → Option (List ℕ) };

    // Whether the end of the input was met.
    ghost closed: { Self → Bool };

    // How many reads failed so far. A `u64` count stands still at 2^64 - 1.
    ghost faults: { Self → ℕ };

    /// Moves the next bytes into the first places of `buffer`, and says how many. None, for a
    /// buffer with room, is the end of the input, which is then closed for good. What stands in the
    /// other places of the buffer afterwards, or in all after a failure, is not said.
    fn read(&mut self, buffer: &mut [u8]) -> Result<usize, Failed>
        // The first bytes left are moved out.
        ensures within { IfOk result (λ n. n ≤ length buffer.old) }
        ensures moved { IfOk result (λ n.
            left self.old ≡ prepend_known (take n buffer.new) (left self.new)) }

        // The end is told only where no byte is left. This closes the source, and nothing else does
        // or undoes it.
        ensures end { result ≡ Ok 0 → 0 < length buffer.old → IsAtEnd (left self.old) }
        ensures closes { result ≡ Ok 0 → 0 < length buffer.old → IsTrue (closed self.new) }
        ensures stays { result ≢ Ok 0 → closed self.new ≡ closed self.old }

        // A closed source and a buffer with no room are left alone.
        ensures at_end { IsTrue (closed self.old) → (result ≡ Ok 0) × (self.new ≡ self.old) }
        ensures no_room { length buffer.old ≡ 0 → (result ≡ Ok 0) × (self.new ≡ self.old) }

        // A failure moves nothing out.
        ensures failed { OnErr result (left self.new ≡ left self.old) }
        ensures cause { ReadCause (faults self.old) (faults self.new) result };

    // A closed source has no byte left.
    ghost closed_at_end: { (source : Self) → IsTrue (closed source) → IsAtEnd (left source) };
}
