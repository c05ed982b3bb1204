//! Files in memory that never fail.

ghost use Rattle.std.specs.Prelude.{◌≡◌, ◌≢◌, ◌↔◌, ℕ, ◌<◌, ◌≤◌, true, List, length, Some, Err, All, IfOk, OnOk, OnErr, IsOkUnless, vec_len};
ghost use Rattle.shared_terms.specs.Counts.{next_count};
ghost use Rattle.host_io.specs.Bytes.{told_are_bytes, told_bytes};
ghost use Rattle.host_io.specs.Held.{files_of, bytes_held, sure_bytes, AreNamesDistinct};

use super::held_files::{HeldFiles, copied_within};
use crate::{Files, LoadFile, SaveFile};
use std::alloc::Global;
use std::marker::Model;

/// Files in memory that have no fault. A name that was neither given nor saved has an empty file.
#[derive(Drop)]
pub struct SureFiles {
    files: HeldFiles,
    calls: u64,
}

impl Model for SureFiles {
    ghost use Rattle.host_io.specs.Memory.{SteadyFiles};

    ghost Value = { SteadyFiles };

    ghost view = { λ s. record { files = s.files; calls = s.calls } };
}

impl SureFiles {
    /// The files of these names and bytes. No two have one name.
    #[tactic(auto, using(crate::proofs::HeldLemmas::held_of_each))]
    pub fn new(_alloc: Global, held: Vec<(String, Vec<u8>)>) -> SureFiles
        requires { AreNamesDistinct (files_of held.items) }
        ensures files { result.files ≡ files_of held.items }
        ensures each { All (λ file. bytes_held result.files file.0 ≡ Some file.1)
            (files_of held.items) }
        ensures calls { result.calls ≡ 0 }
    {
        SureFiles {
            files: HeldFiles::new(held),
            calls: 0,
        }
    }

    /// How many loads and saves were made so far. The count stands still at 2^64 - 1.
    pub fn calls(&self) -> u64
        ensures { result ≡ self.now.calls }
    {
        self.calls
    }
}

impl Files for SureFiles {
    ghost held = { λ s name. told_bytes (sure_bytes s.files name) };

    ghost tells = { true };

    ghost read_faults = { λ _ _. 0 };

    ghost write_faults = { λ _ _. 0 };

    ghost calls = { λ s. s.calls };

    ghost tells_bytes = { λ s name. told_are_bytes (sure_bytes s.files name) };

    fn load(&mut self, alloc: Global, name: &str, limit: usize) -> Result<Vec<u8>, LoadFile>
        ensures ok { IfOk result (λ bytes. bytes.items ≡ sure_bytes self.old.files name.now) }
        ensures too_long { (result ≡ Err LoadFile.TooLong) ↔
            (limit < length (sure_bytes self.old.files name.now)) }
        ensures within { IfOk result (λ bytes. vec_len bytes ≤ limit) }
        ensures sure { result ≢ Err LoadFile.Failed }
        ensures counted { self.new.calls ≡ next_count self.old.calls }
        ensures files { self.new.files ≡ self.old.files }
    {
        self.calls = self.calls.saturating_add(1);
        match self.files.find(name) {
            Some(bytes) => copied_within(alloc, bytes, limit),
            None => Ok(Vec::new(alloc)),
        }
    }

    fn save(&mut self, alloc: Global, name: &str, bytes: &[u8]) -> Result<(), SaveFile>
        ensures ok { OnOk result (bytes_held self.new.files name.now ≡ Some bytes.now) }
        ensures told { OnOk result
            (told_bytes (sure_bytes self.new.files name.now) ≡ Some bytes.now) }
        ensures others { (other : List ℕ) → other ≢ name.now →
            bytes_held self.new.files other ≡ bytes_held self.old.files other }
        ensures err { OnErr result (self.new.files ≡ self.old.files) }
        ensures distinct { AreNamesDistinct self.old.files → AreNamesDistinct self.new.files }
        ensures sure { IsOkUnless result SaveFile.Memory }
        ensures counted { self.new.calls ≡ next_count self.old.calls }
    {
        self.calls = self.calls.saturating_add(1);
        self.files
            .put(alloc, name, bytes)
            .map_err(|_| SaveFile::Memory)
    }
}
