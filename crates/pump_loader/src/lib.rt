//! Starts of an image under the chosen policies, that can be made again and again: on the engine that asks them at every turn,
//! on the one that keeps rules, and on whichever of the two suits how many rules may be kept; and on those whose last turns can be taken
//! back.
#![tactic(auto)]

mod chosen;
mod chosen_history;
mod law;
mod load;
mod plain_load;
mod remembering;
mod whole;

pub use chosen::{ChosenLoad, chosen_load};
pub use chosen_history::{RememberingLoad, remembering_load};
pub use law::bare_law;
pub use load::PumpLoad;
pub use plain_load::{BareLoad, PlainLoad};
pub use remembering::{RememberingPlainLoad, RememberingPumpLoad};
pub use whole::{Hidden, Whole};
