//! A place that bytes are put on.

ghost use Rattle.std.specs.Prelude.{◌≡◌, ℕ, List, length, Option, Err, IsOk, OnOk};
ghost use Rattle.host_io.specs.Prefixes.{TakesAll, TakesPrefix};
ghost use Rattle.host_io.specs.Causes.{PutCause};

/// Why a put came to nothing, or to less than all of its bytes.
#[derive(Clone, Copy, Debug, PartialEq, Eq)]
pub enum PutEnd {
    /// The environment failed. Some first bytes of the piece may have been taken.
    Failed,
    /// Memory ran out, and no byte was taken.
    Memory,
}

/// A place that bytes are put on, one piece at a time.
pub trait Sink {
    // The bytes taken so far, where they are told.
    ghost taken: { Self → Option (List ℕ) };

    // How many puts failed so far. A `u64` count stands still at 2^64 - 1.
    ghost faults: { Self → ℕ };

    /// Puts the piece after the bytes taken so far. An empty piece is always taken.
    fn put(&mut self, piece: &[u8]) -> Result<(), PutEnd>
        ensures ok { OnOk result (TakesAll (taken self.old) (taken self.new) piece.now) }
        ensures failed { result ≡ Err PutEnd.Failed →
            TakesPrefix (taken self.old) (taken self.new) piece.now }
        ensures memory { result ≡ Err PutEnd.Memory → taken self.new ≡ taken self.old }
        ensures empty { length piece.now ≡ 0 → IsOk result }
        ensures cause { PutCause (faults self.old) (faults self.new) result };
}
