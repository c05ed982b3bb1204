//! The arithmetic of RV32M on words of 32 bits: products, quotients and remainders, signed and unsigned.
#![tactic(auto)]

mod law;
mod products;
mod quotients;
#[cfg(test)]
mod tests;

pub use law::{product_law, quotient_law};
pub use products::{mul, mul_high, mul_high_mixed, mul_high_unsigned};
pub use quotients::{div, div_unsigned, rem, rem_unsigned};
