//! Files in memory whose chosen calls fail.

ghost use Rattle.std.specs.Prelude.{◌≡◌, ◌≢◌, ◌↔◌, ◌⊎◌, ℕ, ◌<◌, ◌≤◌, true, List, length, Some, Err, All, IsTrue, IsNone, IsSomeAnd, IfOk, OnOk, OnErr, vec_len};
ghost use Rattle.std.specs.Bool.{IsFalse};
ghost use Rattle.host_io.specs.Bytes.{held_are_bytes, told_held};
ghost use Rattle.host_io.specs.Causes.{LoadCause, SaveCause};
ghost use Rattle.host_io.specs.FaultPlan.{fresh_calls, fails_next, calls_after};
ghost use Rattle.host_io.specs.Held.{files_of, bytes_held, AreNamesDistinct};

use super::call_plan::CallPlan;
use super::held_files::{HeldFiles, copied_within};
use crate::{Files, LoadFile, SaveFile};
use std::alloc::Global;
use std::marker::Model;

/// Files in memory. The loads and saves are numbered together from 0, and those of the given
/// numbers fail. So does every load of a name that isn't held. A save that fails leaves all files
/// as they were.
#[derive(Drop)]
pub struct MemFiles {
    files: HeldFiles,
    calls: CallPlan,
    read_faults: u64,
    write_faults: u64,
}

impl Model for MemFiles {
    ghost use Rattle.host_io.specs.Memory.{PlannedFiles};

    ghost Value = { PlannedFiles };

    ghost view = { λ s. record {
      files = s.files;
      calls = s.calls;
      read_faults = s.read_faults;
      write_faults = s.write_faults;
    } };
}

impl MemFiles {
    /// The files of these names and bytes. No two have one name. The calls of the numbers `fails`
    /// are to fail.
    #[tactic(auto, using(crate::proofs::HeldLemmas::held_of_each))]
    pub fn new(_alloc: Global, held: Vec<(String, Vec<u8>)>, fails: Vec<u64>) -> MemFiles
        requires { AreNamesDistinct (files_of held.items) }
        ensures files { result.files ≡ files_of held.items }
        ensures each { All (λ file. bytes_held result.files file.0 ≡ Some file.1)
            (files_of held.items) }
        ensures calls { result.calls ≡ fresh_calls fails.items }
        ensures read_faults { result.read_faults ≡ 0 }
        ensures write_faults { result.write_faults ≡ 0 }
    {
        MemFiles {
            files: HeldFiles::new(held),
            calls: CallPlan::new(fails),
            read_faults: 0,
            write_faults: 0,
        }
    }

    /// The number of the next load or save, which is how many were made so far.
    pub fn next_call(&self) -> u64
        ensures { result ≡ self.now.calls.next }
    {
        self.calls.next_call()
    }

    /// How many loads failed so far. The count stands still at 2^64 - 1.
    pub fn read_faults(&self) -> u64
        ensures { result ≡ self.now.read_faults }
    {
        self.read_faults
    }

    /// How many saves failed so far. The count stands still at 2^64 - 1.
    pub fn write_faults(&self) -> u64
        ensures { result ≡ self.now.write_faults }
    {
        self.write_faults
    }
}

impl Files for MemFiles {
    ghost held = { λ s name. told_held (bytes_held s.files name) };

    ghost tells = { true };

    // All names share one count.
    ghost read_faults = { λ s _. s.read_faults };

    ghost write_faults = { λ s _. s.write_faults };

    ghost calls = { λ s. s.calls.next };

    ghost tells_bytes = { λ s name. held_are_bytes (bytes_held s.files name) };

    fn load(&mut self, alloc: Global, name: &str, limit: usize) -> Result<Vec<u8>, LoadFile>
        ensures ok { IfOk result (λ bytes. bytes_held self.old.files name.now ≡ Some bytes.items) }
        ensures within { IfOk result (λ bytes. vec_len bytes ≤ limit) }
        ensures files { self.new.files ≡ self.old.files }
        ensures calls { self.new.calls ≡ calls_after self.old.calls }
        ensures cause { LoadCause (λ _. self.old.read_faults) (λ _. self.new.read_faults)
            name.now result }
        ensures writes { self.new.write_faults ≡ self.old.write_faults }

        // It fails exactly where that was planned and at a name that isn't held, and then refuses
        // exactly what is too long.
        ensures planned { (result ≡ Err LoadFile.Failed) ↔
            (IsTrue (fails_next self.old.calls) ⊎ IsNone (bytes_held self.old.files name.now)) }
        ensures too_long { (result ≡ Err LoadFile.TooLong) ↔
            (IsFalse (fails_next self.old.calls) ×
            IsSomeAnd (bytes_held self.old.files name.now) (λ all. limit < length all)) }
    {
        if self.calls.take_call() {
            self.read_faults = self.read_faults.saturating_add(1);
            return Err(LoadFile::Failed);
        }
        match self.files.find(name) {
            Some(bytes) => copied_within(alloc, bytes, limit),
            None => {
                self.read_faults = self.read_faults.saturating_add(1);
                Err(LoadFile::Failed)
            }
        }
    }

    fn save(&mut self, alloc: Global, name: &str, bytes: &[u8]) -> Result<(), SaveFile>
        ensures ok { OnOk result (bytes_held self.new.files name.now ≡ Some bytes.now) }
        ensures told { OnOk result
            (told_held (bytes_held self.new.files name.now) ≡ Some bytes.now) }
        ensures others { (other : List ℕ) → other ≢ name.now →
            bytes_held self.new.files other ≡ bytes_held self.old.files other }
        ensures err { OnErr result (self.new.files ≡ self.old.files) }
        ensures distinct { AreNamesDistinct self.old.files → AreNamesDistinct self.new.files }
        ensures calls { self.new.calls ≡ calls_after self.old.calls }
        ensures cause { SaveCause (λ _. self.old.write_faults) (λ _. self.new.write_faults)
            name.now result }
        ensures reads { self.new.read_faults ≡ self.old.read_faults }

        // It fails exactly where that was planned.
        ensures planned { (result ≡ Err SaveFile.Failed) ↔ IsTrue (fails_next self.old.calls) }
    {
        if self.calls.take_call() {
            self.write_faults = self.write_faults.saturating_add(1);
            return Err(SaveFile::Failed);
        }
        self.files
            .put(alloc, name, bytes)
            .map_err(|_| SaveFile::Memory)
    }
}
