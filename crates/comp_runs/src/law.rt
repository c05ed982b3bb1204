//! What compartments keep.

ghost use Rattle.std.specs.Prelude.{◌≡◌, ℕ, ◌*◌, ◌<◌, List, [], length};
ghost use Rattle.policy_trait.specs.declared.birth.Birth.{Birth};
ghost use Rattle.compartment_policy.specs.Compartments.{CompartmentState, compartments};
ghost use Rattle.engine_trait.specs.Events.{Event};
ghost use Rattle.part_turns.specs.Keeps.{Keeps};
ghost use Rattle.part_turns.specs.Moments.{Moment};
ghost use Rattle.part_turns.specs.Start.{first_machine};
ghost use Rattle.comp_runs.specs.CompInvariant.{CompInvariant, standing_of};
ghost use Rattle.comp_runs.specs.CompSafe.{CompSafe};
ghost use Rattle.comp_runs.specs.CompTurn.{CompTurn};
ghost use Rattle.comp_runs.specs.OwnerBook.{owner_book};

use compartment_policy::CompartmentTag;

/// Each turn under compartments keeps its invariant, writes by right and follows by right; so does each turn in which other
/// policies are chosen too.
pub fn owner_law()
    ensures { (birth : ℕ → Birth) (entries : List ℕ)
        → Keeps compartments (CompInvariant birth entries) (CompTurn birth entries) }
{}

/// A run in which each turn does so is safe. The owners that the invariant speaks of are those of the book.
pub fn safe_law()
    ensures safe { (birth : ℕ → Birth) (entries : List ℕ) (events : List (Event CompartmentTag))
        → ((x : Moment events) → CompTurn birth entries x.before x.event)
        → CompSafe birth entries events }
    ensures owners { (birth : ℕ → Birth) (entries : List ℕ) (events : List (Event CompartmentTag))
        → (standing_of birth entries events).owners ≡ owner_book birth events }
{}

/// The invariant holds at every start whose owners are all below the count of compartments.
pub fn start_law()
    ensures { (birth : ℕ → Birth) (words entries : List ℕ) (state : CompartmentState)
        → ((n : ℕ) → n < length words → (birth (4 * n)).owner < state.count)
        → CompInvariant birth entries [] (first_machine compartments state birth words entries) }
{}
