//! The environment as this project sees it: an input that is read (`Source`), a sink that bytes are put
//! on (`Sink`) and files that are loaded and saved (`Files`).
//!
//! Each trait says what its calls do to the bytes, where an implementation tells them, and counts
//! its faults; those of loads and those of saves apart. A count never falls, and it rises at each
//! answer `Failed` and at no other. Every count is kept as a `u64` that stands still at 2^64 - 1.
#![tactic(auto)]

mod law;
mod memory;
mod system;
mod traits;
mod whole_input;

pub use law::pieces_law;
pub use memory::mem_files::MemFiles;
pub use memory::mem_sink::MemSink;
pub use memory::mem_source::MemSource;
pub use memory::sure_files::SureFiles;
pub use memory::sure_sink::SureSink;
pub use memory::sure_source::SureSource;
pub use system::std_files::StdFiles;
pub use system::std_sink::StdSink;
pub use system::std_source::StdSource;
pub use traits::files::{Files, LoadFile, SaveFile};
pub use traits::sink::{PutEnd, Sink};
pub use traits::source::{Failed, Source};
pub use whole_input::{ReadEnd, read_to_end};
