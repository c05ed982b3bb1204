//! What a policy's service does where tags are words: memory is read with its tags, and what the service writes gets
//! words.
#![tactic(auto)]

mod decoded;
mod writing;

pub use decoded::Decoded;
pub use writing::{WordJob, intern_job};
