//! Tests of words, of the instructions, of what they do, and of tagged memory.
#![tactic(auto)]

#[cfg(test)]
mod decoding;
mod given;
#[cfg(test)]
mod memory;
#[cfg(test)]
mod products;
#[cfg(test)]
mod stepping;
#[cfg(test)]
mod words;
