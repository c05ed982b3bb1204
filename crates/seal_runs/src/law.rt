//! What sealing keeps.

ghost use Rattle.std.specs.Prelude.{ℕ, List, []};
ghost use Rattle.std.specs.List.{All};
ghost use Rattle.policy_trait.specs.declared.birth.Birth.{Birth};
ghost use Rattle.sealing_policy.specs.Sealing.{sealing};
ghost use Rattle.turn_steps.specs.Values.{IsWord};
ghost use Rattle.part_turns.specs.Keeps.{Keeps};
ghost use Rattle.part_turns.specs.Start.{first_machine};
ghost use Rattle.seal_runs.specs.KeyBook.{key_book};
ghost use Rattle.seal_runs.specs.SealInvariant.{SealInvariant};
ghost use Rattle.seal_runs.specs.SealSafe.{SealTurn};

/// Each turn under sealing keeps its invariant, and does what the key book as it stands allows; so does each turn in which other
/// policies are chosen too.
pub fn key_law()
    ensures { Keeps sealing SealInvariant (λ before event. SealTurn (key_book before) event) }
{}

/// The invariant holds at every start whose memory has words.
pub fn start_law()
    ensures { (birth : ℕ → Birth) (words entries : List ℕ)
        → All IsWord words → SealInvariant [] (first_machine sealing 0 birth words entries) }
{}
