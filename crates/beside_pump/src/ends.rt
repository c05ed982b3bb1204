//! Why there is no run, or none that is told to its end.

use host_io::{LoadFile, ReadEnd};
use image_format::ImageEnd;
use rounds::RoundsEnd;
use std::alloc::AllocError;

/// Why there is no run, or none that is told to its end.
#[derive(Clone, Copy)]
pub(crate) enum OwnEnd {
    /// The words name no image.
    Words,
    /// The second word is no list of the four policies.
    List,
    /// The file can't be read, or is longer than an image may be.
    File,
    /// The file is no image.
    Image,
    /// The input can't be read to its end, or is longer than it may be.
    Input,
    /// What the run shows couldn't be put.
    Put,
    /// Memory ran out.
    Memory,
}

impl OwnEnd {
    /// The line that tells it.
    pub(crate) fn line(self) -> &'static [u8] {
        match self {
            OwnEnd::Words => b"beside_pump: name an image\n",
            OwnEnd::List => b"beside_pump: no such policies\n",
            OwnEnd::File => b"beside_pump: no such image\n",
            OwnEnd::Image => b"beside_pump: bad image\n",
            OwnEnd::Input => b"beside_pump: bad input\n",
            OwnEnd::Put => b"beside_pump: not all was told\n",
            OwnEnd::Memory => b"beside_pump: out of memory\n",
        }
    }
}

impl From<AllocError> for OwnEnd {
    fn from(_error: AllocError) -> OwnEnd {
        OwnEnd::Memory
    }
}

impl From<LoadFile> for OwnEnd {
    fn from(end: LoadFile) -> OwnEnd {
        match end {
            LoadFile::Failed | LoadFile::TooLong => OwnEnd::File,
            LoadFile::Memory => OwnEnd::Memory,
        }
    }
}

impl From<ImageEnd> for OwnEnd {
    fn from(end: ImageEnd) -> OwnEnd {
        match end {
            ImageEnd::Bad(_) => OwnEnd::Image,
            ImageEnd::Memory => OwnEnd::Memory,
        }
    }
}

impl From<ReadEnd> for OwnEnd {
    fn from(end: ReadEnd) -> OwnEnd {
        match end {
            ReadEnd::Failed | ReadEnd::TooLong => OwnEnd::Input,
            ReadEnd::Memory => OwnEnd::Memory,
        }
    }
}

impl From<RoundsEnd> for OwnEnd {
    fn from(end: RoundsEnd) -> OwnEnd {
        match end {
            RoundsEnd::Put(_) => OwnEnd::Put,
            RoundsEnd::Engine => OwnEnd::Memory,
        }
    }
}
