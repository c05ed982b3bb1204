//! What holds of rounds.

ghost use Rattle.std.specs.Prelude.{◌≡◌, ℕ, ◌≤◌, Some, length, map};
ghost use Rattle.turn_steps.specs.Feeds.{Tape};
ghost use Rattle.engine_trait.specs.Mirrored.{IsMirrored};
ghost use Rattle.engine_trait.specs.Runs.{run_along, turn};
ghost use Rattle.engine_trait.specs.Standing.{Standing};
ghost use Rattle.rounds.specs.Course.{next_turn, rounds, trace_of};
ghost use Rattle.rounds.specs.Same.{ShowsSame};

use policy_trait::Policy;

/// The machine, the feed and the events of rounds are those of the run along the list of their
/// counted turns, of which there are at most so many as were asked for, and as many where a turn
/// would still come. So what holds of every run of the machine holds of rounds.
pub fn rounds_law<P: Policy>()
    ensures run { (limit from : ℕ) (e : Standing P P.Tag) (feed : Tape) →
        trace_of (rounds P.Tag.eq P.model limit from e feed)
        ≡ run_along P.model e.machine feed
        (map turn (rounds P.Tag.eq P.model limit from e feed).order) }
    ensures few { (limit from : ℕ) (e : Standing P P.Tag) (feed : Tape) →
        length (rounds P.Tag.eq P.model limit from e feed).order ≤ limit }
    ensures spent { (limit from : ℕ) (e : Standing P P.Tag) (feed : Tape) (h : ℕ) →
        next_turn (rounds P.Tag.eq P.model limit from e feed).standing 0 ≡ Some h →
        length (rounds P.Tag.eq P.model limit from e feed).order ≡ limit }
{}

/// Rounds of an engine without a rule cache and of one that mirrors it, on the same feed, show the
/// same.
pub fn mirror_law<P: Policy, Q: Policy>()
    ensures { (f : P.Tag → Q.Tag) (e : Standing P P.Tag) (d : Standing Q Q.Tag)
        (limit from : ℕ) (feed : Tape) → IsMirrored f P.model Q.model e d
        → ShowsSame (rounds P.Tag.eq P.model limit from e feed)
        (rounds Q.Tag.eq Q.model limit from d feed) }
{}
