//! What secrecy keeps of every image's runs, whichever of the four policies are chosen with it: whatever the secret bytes are, a run tells
//! the same. And what is said of the four holds of it.
#![tactic(auto)]

mod law;

pub use law::{count_law, safe_law, secret_law, told_law};
