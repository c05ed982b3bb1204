//! What taint keeps.

ghost use Rattle.std.specs.Prelude.{◌≡◌, List, true};
ghost use Rattle.policy_parts.specs.Part.{IsPart};
ghost use Rattle.policy_parts.specs.Lens.{Lens, on_lens, right_lens};
ghost use Rattle.policy_product.specs.Both.{both};
ghost use Rattle.policy_product.specs.Maybe.{maybe};
ghost use Rattle.sealing_policy.specs.Sealing.{sealing};
ghost use Rattle.turn_steps.specs.Feeds.{Tape};
ghost use Rattle.engine_trait.specs.Machine.{IsMachine, Machine};
ghost use Rattle.engine_trait.specs.Runs.{Item, run_along};
ghost use Rattle.part_turns.specs.Keeps.{Keeps, RunKeeps};
ghost use Rattle.taint_policy.specs.Taint.{taint};
ghost use Rattle.taint_policy.specs.declared.policy.Taint.{Taint};
ghost use Rattle.taint_policy.specs.declared.tag.TaintTag.TheVariants.{Clean};
ghost use Rattle.taint_runs.specs.TaintTurn.{NoInvariant, TaintTurn};
ghost use Rattle.taint_runs.specs.Whole.{whole_lens};

use policy_trait::Policy;
use taint_policy::{Taint, TaintTag};

/// Each turn under taint goes by clean tags alone; so does each turn in which other policies are chosen too.
pub fn turn_law()
    ensures { Keeps taint NoInvariant TaintTurn }
{}

/// Under every policy of which taint is a part, where it is on, each turn of every run from any sound machine on goes by
/// clean tags alone.
pub fn run_law<P: Policy>()
    ensures { (l : Lens P.Tag P TaintTag Taint) (s : Machine P P.Tag) (feed : Tape)
        (items : List Item)
        → IsPart P.model taint l → l.is_on s.policy ≡ true → IsMachine P.model s
        → P.holds s.policy
        → RunKeeps l NoInvariant TaintTurn (run_along P.model s feed items) }
{}

/// Taint is a part of itself alone, and of the pair of sealing and taint, each of which may be off.
pub fn part_law()
    ensures alone { IsPart taint taint whole_lens }
    ensures pair { (policy : Taint) → IsPart (both (maybe sealing) (maybe taint)) taint
        (right_lens (on_lens Clean policy)) }
{}
