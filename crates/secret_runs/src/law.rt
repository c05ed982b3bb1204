//! What secrecy keeps of two runs.

ghost use Rattle.std.specs.Prelude.{ℕ, Bool, List};
ghost use Rattle.engine_trait.specs.Machine.{Machine};
ghost use Rattle.engine_trait.specs.Runs.{Item, run_along};
ghost use Rattle.engine_trait.specs.Standing.{Standing};
ghost use Rattle.policy_product.specs.Both.{both};
ghost use Rattle.rounds.specs.Course.{rounds};
ghost use Rattle.rounds.specs.Same.{ShowsSame};
ghost use Rattle.secrecy_policy.specs.Secrecy.{SecretState, secrecy};
ghost use Rattle.secrecy_policy.specs.declared.tag.SecretTag.{SecretTag};
ghost use Rattle.secret_runs.specs.Alike.{AlikeMachines};
ghost use Rattle.secret_runs.specs.Pairs.{SameBeside, shows};
ghost use Rattle.secret_runs.specs.Same.{AlikeStandings, RunsAlike};
ghost use Rattle.turn_steps.specs.Feeds.{Tape};

use policy_trait::Policy;

/// Whatever policy is chosen beside secrecy: along every list of turns, two machines that differ in secret values alone have events
/// that are the same but for values, and differ in secret values alone after it.
pub fn run_law<P: Policy>()
    ensures { (items : List Item) (s t : Machine (P × SecretState) (P.Tag × SecretTag))
        (feed : Tape)
        → AlikeMachines shows SameBeside s t
        → RunsAlike shows SameBeside (run_along (both P.model secrecy) s feed items)
        (run_along (both P.model secrecy) t feed items) }
{}

/// Whatever policy is chosen beside secrecy: the rounds of two engines that differ in secret values alone show the same.
pub fn rounds_law<P: Policy>()
    ensures { (eq : P.Tag × SecretTag → P.Tag × SecretTag → Bool) (limit from : ℕ)
        (e d : Standing (P × SecretState) (P.Tag × SecretTag)) (feed : Tape)
        → AlikeStandings shows SameBeside e d
        → ShowsSame (rounds eq (both P.model secrecy) limit from e feed)
        (rounds eq (both P.model secrecy) limit from d feed) }
{}
