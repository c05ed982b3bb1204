//! Which turns are counted, which are breaks, and where a command ends.

ghost use Rattle.std.specs.Prelude.{◌≡◌, ℕ, ◌≤◌, length};
ghost use Rattle.shell_turns.specs.Told.{counted_harts, is_break, is_last};

use engine_trait::TurnEnd;

/// Whether a turn that ended so, with its hart's pc here, is a break.
pub(crate) fn is_break(breaks: &[u32], pc: u32, end: TurnEnd) -> bool
    ensures { result ≡ is_break breaks.now pc end }
{
    match end {
        // Most sessions have no breakpoint, and a turn's path needs no call then.
        TurnEnd::Ran(_) => !breaks.is_empty() && breaks.contains(&pc),
        TurnEnd::Break => true,
        _ => false,
    }
}

/// Whether a command ends with a turn that ended so.
pub(crate) fn is_last(breaks: &[u32], pc: u32, end: TurnEnd) -> bool
    ensures { result ≡ is_last breaks.now pc end }
{
    is_break(breaks, pc, end) || matches!(end, TurnEnd::TagsOut)
}

/// What a turn that ended so adds to the count of turns.
pub(crate) fn count_of(end: TurnEnd) -> u32
    ensures count { (h : ℕ) → result ≡ length (counted_harts h end) }
    ensures few { result ≤ 1 }
{
    match end {
        TurnEnd::Ran(_) | TurnEnd::Break | TurnEnd::Stopped(_) => 1,
        TurnEnd::Idle | TurnEnd::TagsOut | TurnEnd::Memory => 0,
    }
}
