//! Why the program ends before all is told.

use host_io::PutEnd;
use std::alloc::{AllocError, AllocFailed};
use std::io;

/// Why the program ends before all is told.
#[derive(Clone, Copy)]
pub(crate) enum Stop {
    /// What is told could not be put.
    Put,
    /// The input could not be read to its end.
    Input,
    /// A file that an adapter is to be tried on could not be opened, made or removed.
    Host,
    /// Memory ran out.
    Memory,
}

impl From<AllocError> for Stop {
    fn from(_error: AllocError) -> Stop {
        Stop::Memory
    }
}

impl<T: Drop> From<AllocFailed<T>> for Stop {
    fn from(_error: AllocFailed<T>) -> Stop {
        Stop::Memory
    }
}

impl From<PutEnd> for Stop {
    fn from(end: PutEnd) -> Stop {
        match end {
            PutEnd::Failed => Stop::Put,
            PutEnd::Memory => Stop::Memory,
        }
    }
}

impl From<io::Error> for Stop {
    fn from(_error: io::Error) -> Stop {
        Stop::Host
    }
}
