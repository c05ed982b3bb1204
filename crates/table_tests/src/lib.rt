//! Tests of tables of tags, of pairs and of parts, and of the engine that keeps rules over tables of both kinds: that of whole
//! tags, and that of their parts.
#![tactic(auto)]

#[cfg(test)]
mod pairs;
#[cfg(test)]
mod parts;
#[cfg(test)]
mod programs;
#[cfg(test)]
mod runs;
#[cfg(test)]
mod tests;
