//! Why rows are not run.

use asm_read::{AsmEnd, AsmError};
use host_io::PutEnd;
use row_lang::{RowsEnd, Wrong};
use std::alloc::{AllocError, AllocFailed};

/// What is wrong with a file of rows.
#[derive(Clone, Copy)]
pub(crate) enum Fault {
    /// It isn't there or can't be read, or is too long.
    Unread,
    /// A line of it is no line of rows.
    Wrong(Wrong),
    /// A source in it is refused by the assembler.
    Source(AsmError),
    /// A file that it names isn't there or can't be read.
    Beside,
}

/// Why rows are not run.
#[derive(Clone, Copy)]
pub(crate) enum Stop {
    /// The file of rows is refused, at a line, or at 0 as a whole.
    Refused { line: u64, fault: Fault },
    /// What is told could not be put.
    Put,
    /// Memory ran out.
    Memory,
}

impl From<AllocError> for Stop {
    fn from(_error: AllocError) -> Stop {
        Stop::Memory
    }
}

impl<T: Drop> From<AllocFailed<T>> for Stop {
    fn from(_error: AllocFailed<T>) -> Stop {
        Stop::Memory
    }
}

impl From<PutEnd> for Stop {
    fn from(end: PutEnd) -> Stop {
        match end {
            PutEnd::Failed => Stop::Put,
            PutEnd::Memory => Stop::Memory,
        }
    }
}

impl From<RowsEnd> for Stop {
    fn from(end: RowsEnd) -> Stop {
        match end {
            RowsEnd::Bad { line, wrong } => Stop::Refused {
                line,
                fault: Fault::Wrong(wrong),
            },
            RowsEnd::Memory => Stop::Memory,
        }
    }
}

impl Stop {
    /// The stop where a source on this line was not assembled.
    pub(crate) fn of_source(line: u64, end: AsmEnd) -> Stop {
        match end {
            AsmEnd::Bad(error) => Stop::Refused {
                line,
                fault: Fault::Source(error),
            },
            AsmEnd::Memory => Stop::Memory,
        }
    }
}
