//! How a session ends, and why one is cut short.

ghost use Rattle.std.specs.Prelude.{◌≡◌};
ghost use Rattle.pump_shell.specs.Ends.{end_of};

use shell_run::ObeyEnd;
use shell_script::{ShellCut, ShellEnd};

/// How a session ended.
#[derive(Clone, Copy, Debug, PartialEq, Eq)]
pub enum SessionEnd {
    /// With the command `quit`.
    Quit,
    /// At the end of the input.
    InputEnd,
    /// The input gives more bytes than the limit.
    TooLong,
    /// The start needs more tag numbers than there may be: nothing was executed.
    TagsOut,
}

/// Why a session was cut short.
#[derive(Clone, Copy, Debug, PartialEq, Eq)]
pub enum SessionCut {
    /// A read of the input failed.
    ReadFailed,
    /// A put of a reply failed.
    PutFailed,
    /// Memory ran out.
    Memory,
}

impl SessionEnd {
    /// The end of a session whose input ended so.
    pub(crate) fn of(end: ShellEnd) -> SessionEnd
        ensures { result ≡ end_of end }
    {
        match end {
            ShellEnd::Quit => SessionEnd::Quit,
            ShellEnd::InputEnd => SessionEnd::InputEnd,
            ShellEnd::TooLong => SessionEnd::TooLong,
        }
    }
}

impl From<ShellCut> for SessionCut {
    ghost use Rattle.pump_shell.specs.Ends.{cut_of};

    ghost from_gives = { λ end cut. cut ≡ cut_of end };

    fn from(end: ShellCut) -> SessionCut {
        match end {
            ShellCut::ReadFailed => SessionCut::ReadFailed,
            ShellCut::Obey(ObeyEnd::WriteFault) => SessionCut::PutFailed,
            ShellCut::Obey(ObeyEnd::Memory) => SessionCut::Memory,
        }
    }
}
