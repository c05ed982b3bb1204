//! The files that an implementation in memory holds.

ghost use Rattle.std.specs.Prelude.{◌≡◌, ◌≢◌, ◌↔◌, ℕ, ◌<◌, ◌≤◌, List, length, find, string_bytes, Some, Err, IfOk, OnOk, OnErr};
ghost use Rattle.std.specs.List.{position};
ghost use Rattle.std.specs.Str.{bytes_eq};
ghost use Rattle.std.specs.Option.{option_copied};
ghost use Rattle.host_io.specs.Held.{files_of, bytes_held, AreNamesDistinct};

use crate::LoadFile;
use std::alloc::{AllocError, Global};
use std::marker::Model;

/// Files in memory, each with its name.
#[derive(Drop)]
pub struct HeldFiles {
    entries: Vec<(String, Vec<u8>)>,
}

impl Model for HeldFiles {
    ghost use Rattle.std.specs.Prelude.{ℕ, List};
    ghost use Rattle.host_io.specs.Held.{files_of};

    ghost Value = { List (List ℕ × List ℕ) };

    ghost view = { λ files. files_of files.entries.items };
}

impl HeldFiles {
    /// The files of these names and bytes.
    pub fn new(entries: Vec<(String, Vec<u8>)>) -> HeldFiles
        ensures { result ≡ files_of entries.items }
    {
        HeldFiles { entries }
    }

    /// What the first file of that name holds.
    pub fn find(&self, name: &str) -> Option<&[u8]>
        ensures { option_copied result ≡ bytes_held self.now name.now }
    {
        let entry = entry_named(&self.entries, name)?;
        Some(entry.1.as_slice())
    }

    /// Makes the first file of that name hold a copy of these bytes. Where there is none it is
    /// added. An error leaves all files as they were.
    pub fn put(&mut self, alloc: Global, name: &str, bytes: &[u8]) -> Result<(), AllocError>
        ensures ok { OnOk result (bytes_held self.new name.now ≡ Some bytes.now) }
        ensures others { (other : List ℕ) → other ≢ name.now →
            bytes_held self.new other ≡ bytes_held self.old other }
        ensures distinct { AreNamesDistinct self.old → AreNamesDistinct self.new }
        ensures err { OnErr result (self.new ≡ self.old) }
    {
        let copy = bytes.to_vec(alloc)?;
        match place_named(&self.entries, name) {
            Some(place) => self.entries[place].1 = copy,
            None => self.entries.push((String::from_str(alloc, name)?, copy))?,
        }
        Ok(())
    }
}

// The first entry of that name.
fn entry_named<'a>(entries: &'a [(String, Vec<u8>)], name: &str) -> Option<&'a (String, Vec<u8>)>
    ensures { option_copied result ≡
        find (λ entry. bytes_eq (string_bytes entry.0) name.now) entries.now }
{
    entries.iter().find(|entry| entry.0.as_str() == name)
}

// The place of the first entry of that name.
fn place_named(entries: &[(String, Vec<u8>)], name: &str) -> Option<usize>
    ensures { result ≡ position (λ entry. bytes_eq (string_bytes entry.0) name.now) entries.now }
{
    entries.iter().position(|entry| entry.0.as_str() == name)
}

/// A copy of the bytes, where they are at most `limit`.
pub fn copied_within(alloc: Global, bytes: &[u8], limit: usize) -> Result<Vec<u8>, LoadFile>
    ensures ok { IfOk result (λ copy. copy.items ≡ bytes.now) }
    ensures within { OnOk result (length bytes.now ≤ limit) }
    ensures too_long { (result ≡ Err LoadFile.TooLong) ↔ (limit < length bytes.now) }
    ensures sure { result ≢ Err LoadFile.Failed }
{
    if bytes.len() > limit {
        return Err(LoadFile::TooLong);
    }
    bytes.to_vec(alloc).map_err(|_| LoadFile::Memory)
}
