//! What a line asks for.

use crate::values::{Bytes, Digits};

/// What a line asks for: a command with its operands in their order.
#[derive(Drop)]
pub enum Command {
    /// Nothing: a line without words.
    Blank,
    /// `step H N`: at most `N` turns of hart `H`.
    Step(u32, u32),
    /// `run N`: at most `N` turns, round robin.
    Run(u32),
    /// `turns DIGITS`: one turn for each digit, of the hart that it names.
    Turns(Digits),
    /// `back N`: the last `N` turns taken back.
    Back(u32),
    /// `feed HEX`: these bytes at the end of the feed.
    Feed(Bytes),
    /// `regs H`: the registers of hart `H`.
    Regs(u32),
    /// `pc H`: the program counter of hart `H`.
    Pc(u32),
    /// `mem A N`: `N` words of memory from address `A` on.
    Mem(u32, u32),
    /// `tags A N`: the tags of these words.
    Tags(u32, u32),
    /// `dis A N`: these words, each with the statement of assembler source that stands for it.
    Dis(u32, u32),
    /// `why H`: whether hart `H` is ready, or why it stopped.
    Why(u32),
    /// `blocks`: the blocks of the heap.
    Blocks,
    /// `stats`: the counts of turns, hits and misses.
    Stats,
    /// `sweeps`: the count of sweeps, which give tag numbers back.
    Sweeps,
    /// `break A`: a breakpoint at address `A`.
    Break(u32),
    /// `clear A`: none there.
    Clear(u32),
    /// `reset`: the start again.
    Reset,
    /// `quit`: the end.
    Quit,
}
