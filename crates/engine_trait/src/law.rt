//! Laws of the definitions, for callers that reason about turns and steps.

ghost use Rattle.std.specs.Prelude.{◌≡◌, ◌≢◌, ℕ, ◌<◌, ◌≤◌, false, true, List, [], ◌∷◌, ◌++◌, length};
ghost use Rattle.policy_trait.specs.Mirrors.{Mirrors};
ghost use Rattle.turn_steps.specs.Feeds.{Tape, with_fed};
ghost use Rattle.undo_log.specs.Past.{Record};
ghost use Rattle.engine_trait.specs.Accounts.{IsUncached};
ghost use Rattle.engine_trait.specs.Events.{event_of, is_retirement};
ghost use Rattle.engine_trait.specs.EngineLaws.{FollowsTurn, HasPlainZero, RunsOut, StaysIdle, StaysMachine, is_made};
ghost use Rattle.engine_trait.specs.History.{AreMade, all_undone, bytes_fed, reached_after, record_of, records_along, without_last};
ghost use Rattle.engine_trait.specs.HistoryLaws.{StepsBack, TakesBack};
ghost use Rattle.engine_trait.specs.Machine.{HasWords, IsMachine, Machine, is_ready_in};
ghost use Rattle.engine_trait.specs.Maps.{machine_by, turned_by};
ghost use Rattle.engine_trait.specs.Mirrored.{IsMirrored, StepsMirrored};
ghost use Rattle.engine_trait.specs.Runs.{Item};
ghost use Rattle.engine_trait.specs.Standing.{Standing, step};
ghost use Rattle.engine_trait.specs.Turn.{turn_of};

use crate::ends::TurnEnd;
use policy_trait::Policy;

/// A turn leaves a sound machine, with as many harts, as much memory and the same plain tag, under any policy; before
/// and after it x0 of each hart is 0 and plain, and each pc a multiple of 4.
pub fn turn_law<P: Policy>()
    ensures stays { (s : Machine P P.Tag) (feed : Tape) (h : ℕ)
        → P.holds s.policy → IsMachine P.model s
        → StaysMachine P.model s (turn_of P.model s feed h).machine }
    ensures holds { (s : Machine P P.Tag) (feed : Tape) (h : ℕ)
        → P.holds s.policy → IsMachine P.model s
        → P.holds (turn_of P.model s feed h).machine.policy }
    ensures zero { (s : Machine P P.Tag) (h : ℕ) → IsMachine P.model s → h < length s.core.harts
        → HasPlainZero P.model s h }
{}

/// A turn of a sound machine whose values are words leaves one whose values are words, under any policy and whatever stands in
/// the feed.
pub fn words_law<P: Policy>()
    ensures { (s : Machine P P.Tag) (feed : Tape) (h : ℕ)
        → P.holds s.policy → IsMachine P.model s → HasWords s.core
        → HasWords (turn_of P.model s feed h).machine.core }
{}

/// The turn of a number that is no hart's, or of a hart that has stopped, changes nothing, and its event has not
/// retired.
pub fn idle_law<P: Policy>()
    ensures absent { (s : Machine P P.Tag) (h : ℕ) → length s.core.harts ≤ h
        → is_ready_in s.core h ≡ false }
    ensures idle { (s : Machine P P.Tag) (feed : Tape) (h : ℕ) → is_ready_in s.core h ≡ false
        → turn_of P.model s feed h ≡ record { machine = s; feed = feed; ended = TurnEnd.Idle } }
    ensures event { (s : Machine P P.Tag) (feed : Tape) (h : ℕ) → is_ready_in s.core h ≡ false
        → is_retirement (event_of P.model s feed h) ≡ false }
{}

/// A step in which the hart had its turn is the machine's turn, counted, and the engine runs on; a step that ran out of
/// tag numbers, and an idle one, is the defined one; there is no other.
pub fn step_law<P: Policy>()
    ensures made { (e : Standing P P.Tag) (feed : Tape) (h : ℕ)
        → is_made (step P.Tag.eq P.model e feed h).ended ≡ true
        → FollowsTurn P.Tag.eq P.model e feed h (step P.Tag.eq P.model e feed h) }
    ensures out { (e : Standing P P.Tag) (feed : Tape) (h : ℕ)
        → (step P.Tag.eq P.model e feed h).ended ≡ TurnEnd.TagsOut
        → RunsOut P.Tag.eq P.model e feed h (step P.Tag.eq P.model e feed h) }
    ensures idle { (e : Standing P P.Tag) (feed : Tape) (h : ℕ)
        → (step P.Tag.eq P.model e feed h).ended ≡ TurnEnd.Idle
        → StaysIdle P.Tag.eq P.model e feed h (step P.Tag.eq P.model e feed h) }
    ensures memory { (e : Standing P P.Tag) (feed : Tape) (h : ℕ)
        → (step P.Tag.eq P.model e feed h).ended ≢ TurnEnd.Memory }
{}

/// An engine that keeps no rules is never out of tag numbers, has no hit, and keeps none.
pub fn plain_law<P: Policy>()
    ensures in_words { (e : Standing P P.Tag) (feed : Tape) (h : ℕ) → IsUncached e.account
        → (step P.Tag.eq P.model e feed h).ended ≢ TurnEnd.TagsOut }
    ensures stays { (e : Standing P P.Tag) (feed : Tape) (h : ℕ) → IsUncached e.account
        → IsUncached (step P.Tag.eq P.model e feed h).standing.account }
    ensures hits { (e : Standing P P.Tag) (feed : Tape) (h : ℕ) → IsUncached e.account
        → (step P.Tag.eq P.model e feed h).standing.account.hits ≡ e.account.hits }
{}

/// Under a policy that mirrors the machine's, the machine with changed tags has the same turn with changed tags; and two
/// engines of which one is the other so mirrored stay that in every step.
pub fn mirror_law<P: Policy, Q: Policy>()
    ensures turn { (f : P.Tag → Q.Tag) (s : Machine P P.Tag) (t : Q) (feed : Tape) (h : ℕ)
        → Mirrors f P.model s.policy Q.model t
        → turn_of Q.model (machine_by f t s) feed h ≡ turned_by f t (turn_of P.model s feed h) }
    ensures step { (f : P.Tag → Q.Tag) (e : Standing P P.Tag) (d : Standing Q Q.Tag)
        (feed : Tape) (h : ℕ) → IsMirrored f P.model Q.model e d
        → StepsMirrored f P.model Q.model
        (step P.Tag.eq P.model e feed h) (step Q.Tag.eq Q.model d feed h) }
{}

/// Under any policy, the record of a turn takes it back; the records of a run's turns take it back to its start, where only
/// what was fed stays; and the record of the last turn leads to the end of the run without that turn.
pub fn history_law<P: Policy>()
    ensures turn { (s : Machine P P.Tag) (feed : Tape) (h : ℕ)
        → P.holds s.policy → IsMachine P.model s → is_ready_in s.core h ≡ true
        → TakesBack P.model P.holds s feed (turn_of P.model s feed h) (record_of P.model s feed h) }
    ensures run { (s : Machine P P.Tag) (feed : Tape) (items : List Item)
        → P.holds s.policy → IsMachine P.model s → AreMade P.model s feed items
        → all_undone P.model (reached_after P.model s feed items)
        (records_along P.model s feed items)
        ≡ record { machine = s; feed = with_fed feed (bytes_fed items) } }
    ensures back { (s : Machine P P.Tag) (feed : Tape) (items : List Item)
        (front : List (Record P.Tag P.Tag)) (r : Record P.Tag P.Tag)
        → P.holds s.policy → IsMachine P.model s → AreMade P.model s feed items
        → records_along P.model s feed items ≡ front ++ r ∷ []
        → StepsBack P.model s feed items (without_last items) front r }
{}
