//! Tests of the words of tags, of the rules that are kept, of what services write in words, and of the texts of stops.
#![tactic(auto)]

#[cfg(test)]
mod caching;
mod given;
#[cfg(test)]
mod interning;
#[cfg(test)]
mod services;
#[cfg(test)]
mod stops;
