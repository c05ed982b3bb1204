//! The versions of an image's file.

/// The version of an image's file. Version 2 has room for more compartments.
#[derive(Clone, Copy, PartialEq, Eq)]
pub enum Version {
    /// Version 1: compartments 0 to 31, and masks of four bytes.
    One,
    /// Version 2: compartments 0 to 127, and masks of sixteen bytes.
    Two,
}

impl Version {
    ghost use Rattle.std.specs.Prelude.{◌≡◌};
    ghost use Rattle.image_format.specs.Conditions.{compartment_limit};
    ghost use Rattle.image_format.specs.Spelling.{version_number};

    /// How many compartments an image of the version may have, numbered from 0: 32, or 128.
    pub fn compartment_limit(self) -> u32
        ensures { result ≡ compartment_limit self }
    {
        match self {
            Version::One => 32,
            Version::Two => 128,
        }
    }

    /// Its number in a file.
    pub(crate) fn number(self) -> u16
        ensures { result ≡ version_number self }
    {
        match self {
            Version::One => 1,
            Version::Two => 2,
        }
    }
}
