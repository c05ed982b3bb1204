//! Files over a file system of std.

ghost use Rattle.std.specs.Prelude.{◌≡◌, ◌≢◌, ◌<◌, ◌≤◌, false, length, None, Err, IfOk, IfSome, vec_len};
ghost use Rattle.std.specs.IoError.{error_kind};
ghost use Rattle.host_io.specs.Bytes.{none_are_bytes};
ghost use Rattle.host_io.specs.Causes.{LoadCause, SaveCause};
ghost use Rattle.shared_terms.specs.Counts.{next_count};

use super::std_sink::write_through;
use crate::{Files, LoadFile, SaveFile};
use std::alloc::Global;
use std::io::{ErrorKind, Read};
use std::marker::Model;
use std::rt::Files as FileSystem;
use std::{fs, io};

/// Files over a file system of std, as that of the machine. A load of a missing file is a fault, and
/// a save makes it. A failed save may leave the file empty or with some first bytes. Nothing is told
/// of what a file holds.
#[derive(Drop)]
pub struct StdFiles<S: FileSystem + Drop> {
    system: S,
    calls: u64,
    read_faults: u64,
    write_faults: u64,
}

impl<S: FileSystem + Drop> Model for StdFiles<S> {
    ghost use Rattle.host_io.specs.System.{CountedFiles};

    ghost Value = { CountedFiles S };

    ghost view = { λ s. record {
      system = s.system;
      calls = s.calls;
      read_faults = s.read_faults;
      write_faults = s.write_faults;
    } };
}

impl<S: FileSystem + Drop> StdFiles<S> {
    /// The files of this system, without a call so far.
    pub fn new(system: S) -> StdFiles<S>
        ensures system { result.system ≡ system }
        ensures calls { result.calls ≡ 0 }
        ensures read_faults { result.read_faults ≡ 0 }
        ensures write_faults { result.write_faults ≡ 0 }
    {
        StdFiles {
            system,
            calls: 0,
            read_faults: 0,
            write_faults: 0,
        }
    }

    /// How many loads failed so far. The count stands still at 2^64 - 1.
    pub fn read_faults(&self) -> u64
        ensures { result ≡ self.now.read_faults }
    {
        self.read_faults
    }

    /// How many saves failed so far. The count stands still at 2^64 - 1.
    pub fn write_faults(&self) -> u64
        ensures { result ≡ self.now.write_faults }
    {
        self.write_faults
    }

    /// How many loads and saves were made so far. The count stands still at 2^64 - 1.
    pub fn calls(&self) -> u64
        ensures { result ≡ self.now.calls }
    {
        self.calls
    }
}

impl<S: FileSystem + Drop> Files for StdFiles<S> {
    ghost held = { λ _ _. None };

    ghost tells = { false };

    // All names share one count.
    ghost read_faults = { λ files _. files.read_faults };

    ghost write_faults = { λ files _. files.write_faults };

    ghost calls = { λ files. files.calls };

    ghost tells_bytes = { λ _. none_are_bytes };

    fn load(&mut self, alloc: Global, name: &str, limit: usize) -> Result<Vec<u8>, LoadFile>
        ensures within { IfOk result (λ bytes. vec_len bytes ≤ limit) }
        ensures cause { LoadCause (λ _. self.old.read_faults) (λ _. self.new.read_faults)
            name.now result }
        ensures writes { self.new.write_faults ≡ self.old.write_faults }
        ensures counted { self.new.calls ≡ next_count self.old.calls }
    {
        self.calls = self.calls.saturating_add(1);
        let loaded = match fs::open(&self.system, name) {
            Ok(file) => read_within(alloc, file, limit),
            Err(error) => Err(load_end(&error)),
        };
        if matches!(&loaded, Err(LoadFile::Failed)) {
            self.read_faults = self.read_faults.saturating_add(1);
        }
        loaded
    }

    fn save(&mut self, _alloc: Global, name: &str, bytes: &[u8]) -> Result<(), SaveFile>
        ensures cause { SaveCause (λ _. self.old.write_faults) (λ _. self.new.write_faults)
            name.now result }
        ensures reads { self.new.read_faults ≡ self.old.read_faults }
        ensures counted { self.new.calls ≡ next_count self.old.calls }
    {
        self.calls = self.calls.saturating_add(1);
        let saved = match fs::create(&self.system, name) {
            // The file is cut off by now, so that every error is a fault.
            Ok(mut file) => write_through(&mut file, bytes).map_err(|_| SaveFile::Failed),
            Err(error) => Err(save_end(&error)),
        };
        if matches!(&saved, Err(SaveFile::Failed)) {
            self.write_faults = self.write_faults.saturating_add(1);
        }
        saved
    }
}

// All that the reader gives, where that is at most `limit` bytes. No more than one byte past the
// limit is read.
fn read_within<R: Read + Drop>(alloc: Global, reader: R, limit: usize) -> Result<Vec<u8>, LoadFile>
    ensures ok { IfOk result (λ bytes. IfSome (R.remaining reader) (λ all. bytes.items ≡ all)) }
    ensures within { IfOk result (λ bytes. vec_len bytes ≤ limit) }
    ensures too_long { result ≡ Err LoadFile.TooLong →
        IfSome (R.remaining reader) (λ all. limit < length all) }
{
    let mut bytes = Vec::new(alloc);
    let mut prefix = reader.take((limit as u64).saturating_add(1));
    if let Err(error) = prefix.read_to_end(&mut bytes) {
        return Err(load_end(&error));
    }
    if bytes.len() > limit {
        return Err(LoadFile::TooLong);
    }
    Ok(bytes)
}

// What an error of the system means for a load: running out of memory is told as such, and any other error
// is a fault.
fn load_end(error: &io::Error) -> LoadFile
    ensures memory { error_kind error.now ≡ ErrorKind.OutOfMemory → result ≡ LoadFile.Memory }
    ensures failed { error_kind error.now ≢ ErrorKind.OutOfMemory → result ≡ LoadFile.Failed }
{
    match error.kind() {
        ErrorKind::OutOfMemory => LoadFile::Memory,
        _ => LoadFile::Failed,
    }
}

// What an error of the system means for a save that could not open its file, and so changed none:
// running out of memory is told as such, and any other error is a fault.
fn save_end(error: &io::Error) -> SaveFile
    ensures memory { error_kind error.now ≡ ErrorKind.OutOfMemory → result ≡ SaveFile.Memory }
    ensures failed { error_kind error.now ≢ ErrorKind.OutOfMemory → result ≡ SaveFile.Failed }
{
    match error.kind() {
        ErrorKind::OutOfMemory => SaveFile::Memory,
        _ => SaveFile::Failed,
    }
}
