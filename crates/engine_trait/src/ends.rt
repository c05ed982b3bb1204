//! How a turn ended, why an engine or a start stops, and the counts of an engine.

use turn_steps::Stop;

/// How a turn ended.
#[derive(Clone, Copy, PartialEq, Eq)]
pub enum TurnEnd {
    /// The instruction ran; the byte is the one that it put out.
    Ran(Option<u8>),
    /// EBREAK ran.
    Break,
    /// The hart stopped.
    Stopped(Stop),
    /// The hart or the engine had stopped before, and nothing changed.
    Idle,
    /// The engine ran out of tag numbers, behind a sweep, and is stopped. Nothing of the machine changed.
    TagsOut,
    /// Memory ran out, and the engine is stopped. Nothing of the machine changed.
    Memory,
}

/// Why an engine as a whole is stopped.
#[derive(Clone, Copy, PartialEq, Eq)]
pub enum Halt {
    /// It ran out of tag numbers. A reset revives it.
    TagNumbers,
    /// It ran out of memory.
    Memory,
}

/// How many turns were made, how many look-ups of rules hit the rule cache and missed it, and how many sweeps gave tag numbers
/// back. Each count stands still at 2^64 - 1.
#[derive(Clone, Copy, PartialEq, Eq)]
pub struct Counts {
    pub turns: u64,
    pub hits: u64,
    pub misses: u64,
    pub sweeps: u64,
}

/// Why a start gave no engine.
#[derive(Clone, Copy, PartialEq, Eq)]
pub enum LoadEnd {
    /// The start needs more tag numbers than the limit.
    TagsOut,
    /// Memory ran out.
    Memory,
}
