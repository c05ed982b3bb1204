//! Tests of the engine that keeps rules beside the one that asks its policy at every turn: what they count, random programs, which
//! both run alike, a policy that neither was written for, and a toy policy with what uses it.
#![tactic(auto)]

#[cfg(test)]
mod alike;
#[cfg(test)]
mod asking;
#[cfg(test)]
mod births;
#[cfg(test)]
mod counts;
#[cfg(test)]
mod ends;
#[cfg(test)]
mod images;
#[cfg(test)]
mod opening;
#[cfg(test)]
mod products;
#[cfg(test)]
mod programs;
#[cfg(test)]
mod secrets;
#[cfg(test)]
mod serving;
#[cfg(test)]
mod tainting;
mod toy;
