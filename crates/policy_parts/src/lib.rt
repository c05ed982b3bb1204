//! Each part of a whole policy: wherever the whole allows something, so does the part, and the services of other parts leave
//! what is the part's. What is proved of a part's own turns so holds of every run under the whole.
#![tactic(auto)]

mod law;

pub use law::{left_law, on_law, right_law};
