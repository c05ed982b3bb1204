//! The kinds of blocks, and the numbers that choose them.

ghost use Rattle.std.specs.Prelude.{◌≡◌};
ghost use Rattle.workload.specs.Kinds.{kind_of, number_after};

/// What a block does.
#[derive(Clone, Copy, PartialEq, Eq)]
pub enum BlockKind {
    /// It seals a number and unseals it.
    Sealing,
    /// It asks for memory of the heap, stores and loads there, and frees it.
    Heap,
    /// It jumps by a register, and comes back by one.
    Flow,
    /// It calls compartment 1.
    Compartments,
}

/// The number that follows, below 2^31: a linear congruential generator.
pub fn number_after(number: u32) -> u32
    ensures { result ≡ number_after number }
{
    ((u64::from(number) * 1_103_515_245 + 12_345) % 0x8000_0000) as u32
}

/// The kind that a number chooses, by its bits 16 and 17.
pub fn kind_of(number: u32) -> BlockKind
    ensures { result ≡ kind_of number }
{
    match number / 65536 % 4 {
        0 => BlockKind::Sealing,
        1 => BlockKind::Heap,
        2 => BlockKind::Flow,
        _ => BlockKind::Compartments,
    }
}
