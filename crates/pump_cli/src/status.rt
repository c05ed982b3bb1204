//! The statuses of the program.

ghost use Rattle.std.specs.Prelude.{◌≡◌};
ghost use Rattle.pump_cli.specs.Codes.{code_of};

/// How the program ended.
#[derive(Clone, Copy, Debug, PartialEq, Eq)]
pub enum Status {
    /// Every hart exited with 0, or what was asked for is done.
    Done,
    /// Every hart exited, some with another code than 0.
    ExitedNonzero,
    /// The words are no command line.
    BadWords,
    /// The file is no image that is taken.
    BadImage,
    /// The file is no source that is assembled.
    BadSource,
    /// The file is no tag file that is taken.
    BadTags,
    /// The file is no ELF file that is loaded.
    BadElf,
    /// A policy stopped some hart.
    Violated,
    /// One of the machine's checks stopped some hart, and no policy one.
    Faulted,
    /// The turns ran out with a hart ready.
    TurnsSpent,
    /// The engine ran out of tag numbers.
    TagsOut,
    /// The file of an image or of what one is made from could not be read.
    ReadFailed,
    /// A read of the input failed.
    InputFailed,
    /// A put on standard output or standard error failed.
    PutFailed,
    /// Memory ran out.
    Memory,
    /// The image's file could not be written.
    WriteFailed,
    /// A file or the input is longer than its limit.
    TooLong,
}

impl Status {
    /// The number that the process ends with.
    pub fn code(self) -> u8
        ensures { result ≡ code_of self }
    {
        match self {
            Status::Done => 0,
            Status::ExitedNonzero => 1,
            Status::BadWords => 2,
            Status::BadImage => 3,
            Status::BadSource => 3,
            Status::BadTags => 3,
            Status::BadElf => 3,
            Status::Violated => 4,
            Status::Faulted => 5,
            Status::TurnsSpent => 6,
            Status::TagsOut => 7,
            Status::ReadFailed => 8,
            Status::InputFailed => 9,
            Status::PutFailed => 10,
            Status::Memory => 11,
            Status::WriteFailed => 12,
            Status::TooLong => 13,
        }
    }
}
