//! Why a call was cut short.

ghost use Rattle.std.specs.Prelude.{◌≡◌};
ghost use Rattle.pump_cli.specs.Codes.{status_of_cut};

use crate::status::Status;
use host_io::{PutEnd, SaveFile};
use pump_shell::SessionCut;
use rounds::RoundsEnd;
use std::alloc::AllocError;

/// Why a call was cut short.
#[derive(Clone, Copy)]
pub(crate) enum Cut {
    /// The file of an image or of what one is made from could not be read.
    ReadFailed,
    /// The image's file could not be written.
    WriteFailed,
    /// A read of the input failed.
    InputFailed,
    /// A put failed.
    PutFailed,
    /// Memory ran out: for a put, in the engine, at its start, or for what was read or made or is saved.
    Memory,
}

impl Cut {
    /// The status that the program ends with.
    pub(crate) fn status(self) -> Status
        ensures { result ≡ status_of_cut self }
    {
        match self {
            Cut::ReadFailed => Status::ReadFailed,
            Cut::WriteFailed => Status::WriteFailed,
            Cut::InputFailed => Status::InputFailed,
            Cut::PutFailed => Status::PutFailed,
            Cut::Memory => Status::Memory,
        }
    }
}

impl From<PutEnd> for Cut {
    ghost use Rattle.pump_cli.specs.Cuts.{cut_of_put};

    ghost from_gives = { λ end cut. cut ≡ cut_of_put end };

    fn from(end: PutEnd) -> Cut {
        match end {
            PutEnd::Failed => Cut::PutFailed,
            PutEnd::Memory => Cut::Memory,
        }
    }
}

impl From<SaveFile> for Cut {
    ghost use Rattle.pump_cli.specs.Cuts.{cut_of_save};

    ghost from_gives = { λ end cut. cut ≡ cut_of_save end };

    fn from(end: SaveFile) -> Cut {
        match end {
            SaveFile::Failed => Cut::WriteFailed,
            SaveFile::Memory => Cut::Memory,
        }
    }
}

impl From<AllocError> for Cut {
    ghost use Rattle.pump_cli.specs.declared.cut.Cut.TheVariants.{Memory};

    ghost from_gives = { λ _ cut. cut ≡ Memory };

    fn from(_error: AllocError) -> Cut {
        Cut::Memory
    }
}

impl From<RoundsEnd> for Cut {
    ghost use Rattle.pump_cli.specs.Cuts.{cut_of_rounds};

    ghost from_gives = { λ end cut. cut ≡ cut_of_rounds end };

    fn from(end: RoundsEnd) -> Cut {
        match end {
            RoundsEnd::Put(end) => Cut::from(end),
            RoundsEnd::Engine => Cut::Memory,
        }
    }
}

impl From<SessionCut> for Cut {
    ghost use Rattle.pump_cli.specs.Cuts.{cut_of_session};

    ghost from_gives = { λ end cut. cut ≡ cut_of_session end };

    fn from(end: SessionCut) -> Cut {
        match end {
            SessionCut::ReadFailed => Cut::InputFailed,
            SessionCut::PutFailed => Cut::PutFailed,
            SessionCut::Memory => Cut::Memory,
        }
    }
}
