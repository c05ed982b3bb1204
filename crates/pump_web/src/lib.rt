//! The program over memory, where a page is its host: a line of words, the bytes of one file and those of the input come in, and
//! a reply goes out.
#![tactic(auto)]

mod exchange;
mod replies;
mod running;
#[cfg(test)]
mod tests;
mod words;

pub use exchange::{answer, write_reply};
pub use replies::{Reply, reply_to};
pub use words::words_of;
