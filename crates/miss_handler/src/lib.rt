//! What is asked of the rules where tags are words: a kept rule where there is one, else the policy's, which is kept then.
#![tactic(auto)]

mod ends;
mod handler;
mod masks;
mod rules;
mod word_mask;

pub use ends::AskEnd;
pub use handler::{ask, settle};
pub use masks::Masks;
pub use rules::{Asking, Rules};
pub use word_mask::WordMask;
