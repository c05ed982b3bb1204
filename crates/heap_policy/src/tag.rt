//! The tags of heap safety.

use pump_words::Same;

/// What a memory word holds. Blocks are numbered from 0 on, in the order in which they are handed out.
#[derive(Clone, Copy, PartialEq, Eq, PartialOrd, Ord, Hash)]
pub enum Content {
    /// An ordinary value.
    Val,
    /// A pointer to the block of this number.
    Ptr(u32),
}

impl Same for Content {
    ghost use Rattle.std.proofs.Common.{rules};

    ghost same = { Prim.search rules };
}

/// A tag of the heap policy.
#[derive(Clone, Copy, PartialEq, Eq, PartialOrd, Ord, Hash)]
pub enum HeapTag {
    /// An ordinary value in a register, and the plain tag.
    Val,
    /// A pointer in a register to the block of this number.
    Ptr(u32),
    /// A memory word outside the heap region, with what it holds.
    Static(Content),
    /// A memory word of the block of this number, with what it holds.
    Cell(u32, Content),
    /// A memory word of the heap region that belongs to no live block.
    Free,
}

impl Same for HeapTag {
    ghost use Rattle.std.proofs.Common.{rules};

    ghost same = { Prim.search rules };
}
