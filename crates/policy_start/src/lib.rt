//! Policies that an image can be started under, beside others or alone.
#![tactic(auto)]

mod begins;
mod quiet;

pub use begins::Begins;
pub use quiet::Quiet;
