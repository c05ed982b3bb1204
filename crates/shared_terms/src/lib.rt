//! Words that several parts of this project share, and lemmas on them: steps in a row of which the first refusal decides, and
//! counts that never wrap.
#![tactic(auto)]

mod counts;

pub use counts::count_up;
