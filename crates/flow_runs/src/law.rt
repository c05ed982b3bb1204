//! What control flow keeps.

ghost use Rattle.std.specs.Prelude.{ℕ, List, []};
ghost use Rattle.policy_trait.specs.declared.birth.Birth.{Birth};
ghost use Rattle.flow_policy.specs.Flow.{flow};
ghost use Rattle.engine_trait.specs.Events.{Event};
ghost use Rattle.part_turns.specs.Keeps.{Keeps};
ghost use Rattle.part_turns.specs.Moments.{Moment};
ghost use Rattle.part_turns.specs.Start.{first_machine};
ghost use Rattle.flow_runs.specs.FlowInvariant.{FlowInvariant};
ghost use Rattle.flow_runs.specs.FlowSafe.{FlowSafe};
ghost use Rattle.flow_runs.specs.FlowTurn.{FlowTurn};

use flow_policy::FlowTag;

/// Each turn under control flow keeps its invariant, and goes on from the hart's last retired turn as the edges allow; so does
/// each turn in which other policies are chosen too.
pub fn edge_law()
    ensures { (birth : ℕ → Birth) (words : List ℕ) (edges : List (ℕ × ℕ))
        → Keeps flow (FlowInvariant birth words edges) (FlowTurn birth words edges) }
{}

/// A run in which each turn does so is safe.
pub fn safe_law()
    ensures { (birth : ℕ → Birth) (words : List ℕ) (edges : List (ℕ × ℕ))
        (events : List (Event FlowTag))
        → ((x : Moment events) → FlowTurn birth words edges x.before x.event)
        → FlowSafe birth words edges events }
{}

/// The invariant holds at every start.
pub fn start_law()
    ensures { (birth : ℕ → Birth) (words entries : List ℕ) (edges : List (ℕ × ℕ))
        → FlowInvariant birth words edges [] (first_machine flow edges birth words entries) }
{}
