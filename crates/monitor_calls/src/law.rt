//! What a policy's service does to the words of its range, for callers that reason about it.

ghost use Rattle.std.specs.Prelude.{◌≡◌, ◌≢◌, ◌↔◌, ℕ, List, Err, Ok};
ghost use Rattle.std.specs.List.{All};
ghost use Rattle.policy_trait.specs.Model.{CanPlan, IsGiven};
ghost use Rattle.policy_trait.specs.declared.rules.Refused.{Refused};
ghost use Rattle.policy_trait.specs.declared.services.Args.{Args};
ghost use Rattle.policy_trait.specs.declared.services.Plan.{Plan};
ghost use Rattle.policy_trait.specs.declared.services.PlanEnd.TheVariants as plan_end;
ghost use Rattle.tag_memory.specs.Ram.{IsPlace};
ghost use Rattle.monitor_calls.specs.Ranges.{IsJobOf, Refuses, RefusesFirst, RetagsEach};
ghost use Rattle.monitor_calls.specs.Service.{Job, new_tags, service_job};

use policy_trait::Policy;

/// A range is retagged exactly where the policy retags each of its words, and refused exactly where some word is, as
/// the lowest such word is.
pub fn retag_law<P: Policy>()
    ensures each { (s : P) (word_at : ℕ → ℕ) (tag_at : ℕ → P.Tag) (plan : Plan P.Tag)
        (base count : ℕ) (words : List (ℕ × ℕ × P.Tag))
        → (new_tags P.model s word_at tag_at plan base count ≡ Ok words)
        ↔ RetagsEach P.model s word_at tag_at plan base count words }
    ensures lowest { (s : P) (word_at : ℕ → ℕ) (tag_at : ℕ → P.Tag) (plan : Plan P.Tag)
        (base count : ℕ) (refused : Refused)
        → (new_tags P.model s word_at tag_at plan base count ≡ Err (plan_end.Refused refused))
        ↔ RefusesFirst P.model s tag_at plan base count refused }
    ensures unspent { (s : P) (word_at : ℕ → ℕ) (tag_at : ℕ → P.Tag) (plan : Plan P.Tag)
        (base count : ℕ) → new_tags P.model s word_at tag_at plan base count ≢ Err plan_end.Spent }
{}

/// A service gives a job exactly where the policy plans it and retags each word of the plan's range. It is refused
/// exactly where its plan is, or a word of the range, and spent exactly where its plan is. A job can be carried out: its
/// plan is one that the policy gives, and its words are words of memory.
pub fn service_law<P: Policy>()
    ensures job { (s : P) (word_at : ℕ → ℕ) (tag_at : ℕ → P.Tag) (number : ℕ)
        (arguments : Args P.Tag) (pc : P.Tag) (job : Job P.Tag)
        → (service_job P.model s word_at tag_at number arguments pc ≡ Ok job)
        ↔ IsJobOf P.model s word_at tag_at number arguments pc job }
    ensures refused { (s : P) (word_at : ℕ → ℕ) (tag_at : ℕ → P.Tag) (number : ℕ)
        (arguments : Args P.Tag) (pc : P.Tag) (refused : Refused)
        → (service_job P.model s word_at tag_at number arguments pc
        ≡ Err (plan_end.Refused refused))
        ↔ Refuses P.model s tag_at number arguments pc refused }
    ensures spent { (s : P) (word_at : ℕ → ℕ) (tag_at : ℕ → P.Tag) (number : ℕ)
        (arguments : Args P.Tag) (pc : P.Tag)
        → (service_job P.model s word_at tag_at number arguments pc ≡ Err plan_end.Spent)
        ↔ (P.model.plan s number arguments pc ≡ Err plan_end.Spent) }
    ensures given { (s : P) (word_at : ℕ → ℕ) (tag_at : ℕ → P.Tag) (number : ℕ)
        (arguments : Args P.Tag) (pc : P.Tag) (job : Job P.Tag)
        → CanPlan P.model s number arguments
        → service_job P.model s word_at tag_at number arguments pc ≡ Ok job
        → IsGiven P.model s job.plan }
    ensures places { (s : P) (word_at : ℕ → ℕ) (tag_at : ℕ → P.Tag) (number : ℕ)
        (arguments : Args P.Tag) (pc : P.Tag) (job : Job P.Tag)
        → CanPlan P.model s number arguments → P.holds s
        → service_job P.model s word_at tag_at number arguments pc ≡ Ok job
        → All (λ word. IsPlace arguments.ram word.0) job.words }
{}
