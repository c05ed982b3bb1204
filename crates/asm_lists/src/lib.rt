//! Lists of an image, from what a source says in any order.
#![tactic(auto)]

mod edges;

pub use edges::sorted_edges;
