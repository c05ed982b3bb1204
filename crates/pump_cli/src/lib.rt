//! The program over any files, input and sinks: it runs an image of a tagged RISC-V machine and tells how it ended, executes the
//! lines of a monitor shell over it, makes an image of a source or of an ELF file, lists an image's words, or runs a workload and
//! tells its counts.
#![tactic(auto)]

mod basis;
mod cut;
mod dis;
mod elf;
mod ending;
mod load;
mod program;
mod reading;
mod refusal;
mod run;
mod save;
mod shell;
mod status;
mod texts;

pub use program::pump;
pub use status::Status;
