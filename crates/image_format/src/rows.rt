//! The rows of an image's lists.

/// Words of the memory: the address of the first in bytes, and how many there are.
#[derive(Clone, Copy)]
pub struct WordRange {
    pub address: u32,
    pub words: u32,
}

/// The label of the word at an address.
#[derive(Clone, Copy)]
pub struct Label {
    pub address: u32,
    pub id: u32,
}

/// An allowed way from one label to another, by their ids.
#[derive(Clone, Copy)]
pub struct Edge {
    pub source: u32,
    pub target: u32,
}
