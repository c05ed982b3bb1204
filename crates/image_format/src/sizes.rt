//! The sizes at the head of an image's file.

/// The sizes at the head of a file: the number of harts, and the RAM and the heap region in bytes.
#[derive(Clone, Copy)]
pub(crate) struct Sizes {
    pub harts: u16,
    pub ram: u32,
    pub heap_base: u32,
    pub heap_bytes: u32,
}
