//! Turns as a part of the policy sees them.

ghost use Rattle.std.specs.Prelude.{◌≡◌, ℕ, true};
ghost use Rattle.turn_steps.specs.Feeds.{Tape};
ghost use Rattle.engine_trait.specs.Events.{event_of};
ghost use Rattle.engine_trait.specs.Machine.{IsMachine, Machine};
ghost use Rattle.engine_trait.specs.Turn.{turn_of};
ghost use Rattle.policy_parts.specs.Part.{IsPart};
ghost use Rattle.policy_parts.specs.Lens.{Lens};
ghost use Rattle.part_turns.specs.Keeps.{StayWords};
ghost use Rattle.part_turns.specs.Maps.{event_with, seen_by};
ghost use Rattle.part_turns.specs.Turns.{Turns};

use policy_trait::Policy;

/// A turn of a sound machine under a whole policy, whose invariant holds, is for a part of it that is on one of those that
/// this part allows; the part stays on, and the machine as it sees it is sound, with words still where it had words.
pub fn turn_law<P: Policy, Q: Policy>()
    ensures turn { (l : Lens P.Tag P Q.Tag Q) (s : Machine P P.Tag) (feed : Tape) (h : ℕ)
        → IsPart P.model Q.model l → l.is_on s.policy ≡ true → IsMachine P.model s
        → P.holds s.policy
        → Turns Q.model (seen_by l s) h (event_with l.tag (event_of P.model s feed h))
        (seen_by l (turn_of P.model s feed h).machine) }
    ensures on { (l : Lens P.Tag P Q.Tag Q) (s : Machine P P.Tag) (feed : Tape) (h : ℕ)
        → IsPart P.model Q.model l → l.is_on s.policy ≡ true
        → l.is_on (turn_of P.model s feed h).machine.policy ≡ true }
    ensures sound { (l : Lens P.Tag P Q.Tag Q) (s : Machine P P.Tag)
        → IsPart P.model Q.model l → l.is_on s.policy ≡ true → IsMachine P.model s
        → IsMachine Q.model (seen_by l s) }
    ensures words { (l : Lens P.Tag P Q.Tag Q) (s : Machine P P.Tag) (feed : Tape) (h : ℕ)
        → IsMachine P.model s → P.holds s.policy
        → StayWords (seen_by l s) (seen_by l (turn_of P.model s feed h).machine) }
{}
