//! Tagged memory and tagged harts: values and tags by place. A write changes the place that it names and no other.
#![tactic(auto)]

mod filled;
mod hart;
mod law;
mod pages;
mod ram;
mod renumbering;

pub use hart::Hart;
pub use law::{hart_law, map_law, ram_law};
pub use pages::Pages;
pub use ram::Ram;
