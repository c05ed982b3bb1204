//! The steps of a turn that no policy decides, for any type of tags: look ahead through fetch, decode
//! and checks, carry out the effect, a service's arguments and writes, and the feed.
#![tactic(auto)]

mod effects;
mod feed;
mod law;
mod look;
mod looking;
mod peeking;
mod registers;
mod services;
mod stop;

pub use effects::{Done, carry_out, carry_step};
pub use feed::Feed;
pub use law::{map_law, steps_law, values_law, words_law};
pub use look::{Look, is_call};
pub use looking::{checked, decoded, fetch, inputs_at, inputs_of, look_ahead, step_look};
pub use peeking::{Looks, OperandLook, Peeks, looks_of, peeked};
pub use services::{answer_to, arguments_of, write_words};
pub use stop::Stop;
