//! Files that are loaded and saved by name.

ghost use Rattle.std.specs.Prelude.{◌≡◌, ◌≢◌, ℕ, ◌<◌, ◌≤◌, Bool, List, length, Option, Err, IfOk, OnOk, IfSome, vec_len};
ghost use Rattle.std.specs.Bool.{then_some};
ghost use Rattle.host_io.specs.Bytes.{TellBytes};
ghost use Rattle.host_io.specs.Causes.{LoadCause, SaveCause};
ghost use Rattle.shared_terms.specs.Counts.{next_count};

use std::alloc::Global;

/// Why a file was not loaded.
#[derive(Clone, Copy, Debug, PartialEq, Eq)]
pub enum LoadFile {
    /// The environment failed, as where there is no file of that name.
    Failed,
    /// The file holds more bytes than the limit.
    TooLong,
    /// Memory ran out.
    Memory,
}

/// Why a file was not saved.
#[derive(Clone, Copy, Debug, PartialEq, Eq)]
pub enum SaveFile {
    /// The environment failed. What the file of that name holds afterwards is not said.
    Failed,
    /// Memory ran out, and no file was changed.
    Memory,
}

/// Files, each of which is loaded and saved as a whole by its name.
pub trait Files {
    // The bytes that the file of a name holds, where they are told. A name is the bytes of its
    // text.
    ghost held: { Self → List ℕ → Option (List ℕ) };

    // Whether the bytes that a saved file holds are told.
    ghost tells: { Bool };

    // How many loads of a name failed so far. Several names may share a count, and a `u64` count
    // stands still at 2^64 - 1.
    ghost read_faults: { Self → List ℕ → ℕ };

    // How many saves of a name failed so far, counted in the same way.
    ghost write_faults: { Self → List ℕ → ℕ };

    // How many loads and saves were made so far. A `u64` count stands still at 2^64 - 1.
    ghost calls: { Self → ℕ };

    /// The bytes of the file `name`, which are at most `limit`. No file is changed.
    fn load(&mut self, alloc: Global, name: &str, limit: usize) -> Result<Vec<u8>, LoadFile>
        ensures ok { IfOk result (λ bytes.
            IfSome (held self.old name.now) (λ all. bytes.items ≡ all)) }
        ensures within { IfOk result (λ bytes. vec_len bytes ≤ limit) }
        ensures too_long { result ≡ Err LoadFile.TooLong →
            IfSome (held self.old name.now) (λ all. limit < length all) }
        ensures cause { LoadCause (read_faults self.old) (read_faults self.new) name.now result }
        ensures writes { write_faults self.new ≡ write_faults self.old }
        ensures counted { calls self.new ≡ next_count (calls self.old) }
        ensures unchanged { held self.new ≡ held self.old };

    /// Makes the file `name` hold exactly these bytes, whether or not there was one of that name.
    /// No other file is changed, whatever the answer.
    fn save(&mut self, alloc: Global, name: &str, bytes: &[u8]) -> Result<(), SaveFile>
        ensures ok { OnOk result (held self.new name.now ≡ then_some tells bytes.now) }
        ensures others { (other : List ℕ) → other ≢ name.now →
            held self.new other ≡ held self.old other }
        ensures memory { result ≡ Err SaveFile.Memory → held self.new ≡ held self.old }
        ensures cause { SaveCause (write_faults self.old) (write_faults self.new) name.now result }
        ensures reads { read_faults self.new ≡ read_faults self.old }
        ensures counted { calls self.new ≡ next_count (calls self.old) };

    // What files tell are bytes.
    ghost tells_bytes: { (files : Self) → TellBytes (held files) };
}
