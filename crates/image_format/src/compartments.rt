//! The words that compartments own, in rows of either version.

ghost use Rattle.std.specs.Prelude.{◌≡◌, ◌^◌, ◌<◌};
ghost use Rattle.image_format.specs.Conditions.{compartment_limit};

use crate::masks::Mask;
use crate::rows::WordRange;
use crate::version::Version;
use std::marker::Model;

/// A row of an image's fifth list: words that a compartment owns at the start, the compartments that may
/// jump to them, and those that may write them. Bit i of a mask stands for compartment i.
pub trait OwnedRange: Copy {
    ghost use Rattle.image_format.specs.declared.version.Version.{Version};
    ghost use Rattle.image_format.specs.Picture.{CompartmentRow};

    ghost version: { Version };

    ghost row: { Self → CompartmentRow };

    /// The row of these words, their owner, and the two masks, which have bits for the version's compartments alone.
    fn new(range: WordRange, owner: u32, into: u128, write: u128) -> Self
        requires into { into < 2 ^ compartment_limit version }
        requires write { write < 2 ^ compartment_limit version }
        ensures { row result ≡
            record { range = range; owner = owner; into = into; write = write } };

    /// The words: the address of the first in bytes, and how many there are.
    fn range(&self) -> WordRange
        ensures { result ≡ (row self.now).range };

    /// The number of the compartment that owns them.
    fn owner(&self) -> u32
        ensures { result ≡ (row self.now).owner };

    /// The compartments that may jump to them.
    fn into_mask(&self) -> u128
        ensures { result ≡ (row self.now).into };

    /// The compartments that may write them.
    fn write_mask(&self) -> u128
        ensures { result ≡ (row self.now).write };
}

/// A row of version 1: 20 bytes, as in the file.
#[derive(Clone, Copy)]
pub struct CompartmentRange {
    pub(crate) range: WordRange,
    pub(crate) owner: u32,
    pub(crate) into: u32,
    pub(crate) write: u32,
}

impl Model for CompartmentRange {
    ghost use Rattle.image_format.specs.Picture.{CompartmentRow};

    ghost Value = { CompartmentRow };

    ghost view = { λ row. record { range = row.range; owner = row.owner; into = row.into; write = row.write } };

    ghost inverse = { λ row. record { range = row.range; owner = row.owner; into = row.into; write = row.write } };
}

impl OwnedRange for CompartmentRange {
    ghost use Rattle.image_format.specs.declared.version.Version.TheVariants.{One};

    ghost version = { One };

    ghost row = { λ row. row };

    fn new(range: WordRange, owner: u32, into: u128, write: u128) -> CompartmentRange {
        CompartmentRange {
            range,
            owner,
            into: into as u32,
            write: write as u32,
        }
    }

    fn range(&self) -> WordRange {
        self.range
    }

    fn owner(&self) -> u32 {
        self.owner
    }

    fn into_mask(&self) -> u128 {
        u128::from(self.into)
    }

    fn write_mask(&self) -> u128 {
        u128::from(self.write)
    }
}

impl CompartmentRange {
    /// The same row as one of version 2.
    pub fn widened(self) -> WideCompartmentRange
        ensures { result ≡ self }
    {
        WideCompartmentRange {
            range: self.range,
            owner: self.owner,
            into: Mask::of_bits(u128::from(self.into)),
            write: Mask::of_bits(u128::from(self.write)),
        }
    }
}

/// A row of version 2: 44 bytes, as in the file.
#[derive(Clone, Copy)]
pub struct WideCompartmentRange {
    pub(crate) range: WordRange,
    pub(crate) owner: u32,
    pub(crate) into: Mask,
    pub(crate) write: Mask,
}

impl Model for WideCompartmentRange {
    ghost use Rattle.image_format.specs.Picture.{CompartmentRow};

    ghost Value = { CompartmentRow };

    ghost view = { λ row. record { range = row.range; owner = row.owner; into = row.into; write = row.write } };

    ghost inverse = { λ row. record { range = row.range; owner = row.owner; into = row.into; write = row.write } };
}

impl OwnedRange for WideCompartmentRange {
    ghost use Rattle.image_format.specs.declared.version.Version.TheVariants.{Two};

    ghost version = { Two };

    ghost row = { λ row. row };

    fn new(range: WordRange, owner: u32, into: u128, write: u128) -> WideCompartmentRange {
        WideCompartmentRange {
            range,
            owner,
            into: Mask::of_bits(into),
            write: Mask::of_bits(write),
        }
    }

    fn range(&self) -> WordRange {
        self.range
    }

    fn owner(&self) -> u32 {
        self.owner
    }

    fn into_mask(&self) -> u128 {
        self.into.bits()
    }

    fn write_mask(&self) -> u128 {
        self.write.bits()
    }
}

/// The rows of an image's fifth list, as the version of the image has them.
#[derive(Drop)]
pub enum CompartmentRanges {
    /// Those of version 1.
    Narrow(Vec<CompartmentRange>),
    /// Those of version 2.
    Wide(Vec<WideCompartmentRange>),
}

impl CompartmentRanges {
    ghost use Rattle.image_format.specs.Compartments.{version_of, rows_of, lent_version, lent_rows};

    /// The version whose rows they are.
    pub(crate) fn version(&self) -> Version
        ensures { result ≡ version_of self.now }
    {
        match self {
            CompartmentRanges::Narrow(_) => Version::One,
            CompartmentRanges::Wide(_) => Version::Two,
        }
    }

    /// The rows, to be read.
    pub(crate) fn lent(&self) -> CompartmentRows<'_>
        ensures version { lent_version result ≡ version_of self.now }
        ensures rows { lent_rows result ≡ rows_of self.now }
    {
        match self {
            CompartmentRanges::Narrow(rows) => CompartmentRows::Narrow(rows),
            CompartmentRanges::Wide(rows) => CompartmentRows::Wide(rows),
        }
    }
}

/// The rows of an image's fifth list, lent by the image.
#[derive(Clone, Copy)]
pub enum CompartmentRows<'a> {
    /// Those of version 1.
    Narrow(&'a [CompartmentRange]),
    /// Those of version 2.
    Wide(&'a [WideCompartmentRange]),
}
