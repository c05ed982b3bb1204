//! The faults of a hart.

/// Why a hart stopped at an instruction that it could not execute.
#[derive(Clone, Copy, PartialEq, Eq)]
pub enum Fault {
    /// The pc, which is at or past the end of memory.
    Fetch(u32),
    /// The word, which is no instruction.
    Illegal(u32),
    /// The address of a load that is no multiple of its width.
    LoadAlign(u32),
    /// The address of a store that is no multiple of its width.
    StoreAlign(u32),
    /// The address of a load that does not end within memory.
    LoadRange(u32),
    /// The address of a store that does not end within memory.
    StoreRange(u32),
    /// The target of a jump or a taken branch, which is no multiple of 4.
    JumpAlign(u32),
    /// The number of a service that there is not.
    NoService(u32),
    /// The number of a service whose counter is spent.
    Spent(u32),
}
