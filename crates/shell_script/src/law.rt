//! What holds of a session after some lines, for callers that reason about it.

ghost use Rattle.std.specs.Prelude.{◌≡◌, ℕ, ◌++◌, ◌∷◌, [], List, false, true};
ghost use Rattle.engine_trait.specs.Runs.{Item};
ghost use Rattle.shell_lang.specs.Grammar.{Answer};
ghost use Rattle.shell_run.specs.Gains.{events_along};
ghost use Rattle.shell_run.specs.Runs.{IsAlong, IsStart};
ghost use Rattle.shell_run.specs.Session.{SessionState};
ghost use Rattle.shell_script.specs.Gains.{TellsNext};
ghost use Rattle.shell_script.specs.Scripts.{items_along, script};
ghost use Rattle.shell_script.specs.Shell.{lines_within, shell_of};

use policy_trait::Policy;

/// After any lines the machine and the feed of a session are those of a run from its start, which stays: the counted turns and
/// the fed bytes since then, or since the last reset, in their order, without the turns that were taken back (`along`, `stays`).
/// One line more is replied to behind the others, and its reply tells the events that the run gains by it (`tells`); behind
/// `quit` it gains none (`closed`). What a session over an input replies is what it replies to the lines that it executes
/// (`input`).
pub fn script_law<P: Policy>()
    ensures along { (s : SessionState P P.Tag) (items : List Item) (lines : List Answer)
        → IsStart P.model P.holds s.start → IsAlong P.Tag.eq P.model s items
        → IsAlong P.Tag.eq P.model (script P.Tag.eq P.model s lines).after
        (items_along P.Tag.eq P.model s items lines) }
    ensures stays { (s : SessionState P P.Tag) (lines : List Answer)
        → (script P.Tag.eq P.model s lines).after.start ≡ s.start }
    ensures tells { (s : SessionState P P.Tag) (items : List Item) (prefix : List Answer)
        (line : Answer) → IsStart P.model P.holds s.start → IsAlong P.Tag.eq P.model s items
        → (script P.Tag.eq P.model s prefix).quits ≡ false
        → TellsNext P.Tag.eq P.model s prefix line
        (events_along P.Tag.eq P.model s (items_along P.Tag.eq P.model s items prefix))
        (events_along P.Tag.eq P.model s
        (items_along P.Tag.eq P.model s items (prefix ++ line ∷ []))) }
    ensures closed { (s : SessionState P P.Tag) (items : List Item) (prefix : List Answer)
        (line : Answer) → (script P.Tag.eq P.model s prefix).quits ≡ true
        → items_along P.Tag.eq P.model s items (prefix ++ line ∷ [])
        ≡ items_along P.Tag.eq P.model s items prefix }
    ensures input { (limit : ℕ) (s : SessionState P P.Tag) (input : List ℕ)
        → (shell_of P.Tag.eq P.model limit s input).pieces
        ≡ (script P.Tag.eq P.model s (lines_within limit input)).pieces }
{}
