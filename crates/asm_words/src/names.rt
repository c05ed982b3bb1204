//! Names by their bytes.

ghost use Rattle.std.specs.Prelude.{◌≡◌, OnErr, OnOk};
ghost use Rattle.std.specs.FinMap as map;

use std::alloc::{AllocError, Global};
use std::collections::BTreeMap;
use std::marker::Model;

/// Names, each with the place that it stands for: a byte address. A contract sees them as a finite map.
#[derive(Drop)]
pub struct Names<'a> {
    places: BTreeMap<&'a [u8], u32>,
}

impl<'a> Model for Names<'a> {
    ghost use Rattle.std.specs.Prelude.{ℕ};
    ghost use Rattle.std.specs.Coded.{coded_list, coded_ℕ};
    ghost use Rattle.std.specs.FinMap as map;
    ghost use Rattle.asm_words.specs.NamePlaces.{NamePlaces, places_in};

    ghost Value = { NamePlaces };

    ghost coded = { map.code (coded_list coded_ℕ) coded_ℕ };

    ghost view = { λ names. places_in names.places };
}

impl<'a> Names<'a> {
    /// No name.
    pub fn new(alloc: Global) -> Names<'a>
        ensures { result ≡ map.empty }
    {
        Names {
            places: BTreeMap::new(alloc),
        }
    }

    /// The place of a name; `None` where it was given none.
    pub fn place(&self, name: &'a [u8]) -> Option<u32>
        ensures { result ≡ map.get self.now name.now }
    {
        self.places.get(&name).copied()
    }

    /// Gives a name its place, instead of the one that it had.
    ///
    /// Only running out of memory is an error, and leaves the names as they were.
    pub fn give(&mut self, name: &'a [u8], place: u32) -> Result<(), AllocError>
        ensures ok { OnOk result (self.new ≡ map.insert self.old name.now place) }
        ensures err { OnErr result (self.new ≡ self.old) }
    {
        self.places.insert(name, place)?;
        Ok(())
    }
}
