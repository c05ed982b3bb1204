//! Words of 32 bits: their signs, their bytes and halves, their texts, and numbers in decimal.
#![tactic(auto)]

mod numbers;
mod parts;
mod same;
mod signs;
mod texts;

pub use numbers::read_number;
pub use parts::{byte_of, half_of, with_byte, with_half};
pub use same::{Same, is_same};
pub use signs::{lt_signed, sign8, sign12, sign13, sign16, sign21, sra};
pub use texts::{Line, dec, hex2, hex5, hex8, write_text};
