//! A session of the monitor shell over an image and an input: the engine that the setup asks for, at its start, and then the
//! input's lines, each executed as its newline comes.
#![tactic(auto)]

mod ends;
mod session;
mod setup;

pub use ends::{SessionCut, SessionEnd};
pub use session::run_session;
pub use setup::Setup;
