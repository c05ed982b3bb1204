//! What holds of the turns of a command, for callers that reason about them.

ghost use Rattle.std.specs.Prelude.{◌≡◌, ℕ, ◌≤◌, List, length, map};
ghost use Rattle.turn_steps.specs.Feeds.{Tape};
ghost use Rattle.engine_trait.specs.Runs.{run_along, turn};
ghost use Rattle.engine_trait.specs.Standing.{Standing};
ghost use Rattle.shell_turns.specs.Events.{TellsEvents};
ghost use Rattle.shell_turns.specs.Order.{Order as TurnOrder};
ghost use Rattle.shell_turns.specs.Runs.{EndsAs, Remembers};
ghost use Rattle.shell_turns.specs.Turns.{turns};

use policy_trait::Policy;

/// The machine and the feed that turns leave are those of the run along the list of their counted turns, of which there are at
/// most so many as were asked for. So what holds of every run of the machine holds of them. What they tell is told of that run's
/// events, one for each of the turns (`told`). Each counted turn is that of a hart that was ready, and the last of the records kept
/// before them and of their own are kept after them (`remembers`).
pub fn turns_law<P: Policy>()
    ensures run { (breaks : List ℕ) (budget : ℕ) (order : TurnOrder)
        (e : Standing P P.Tag) (feed : Tape)
        → EndsAs (run_along P.model e.machine feed
        (map turn (turns P.Tag.eq P.model breaks budget order e feed).harts))
        (turns P.Tag.eq P.model breaks budget order e feed) }
    ensures few { (breaks : List ℕ) (budget : ℕ) (order : TurnOrder)
        (e : Standing P P.Tag) (feed : Tape)
        → length (turns P.Tag.eq P.model breaks budget order e feed).harts ≤ budget }
    ensures told { (breaks : List ℕ) (budget : ℕ) (order : TurnOrder)
        (e : Standing P P.Tag) (feed : Tape)
        → TellsEvents breaks e (run_along P.model e.machine feed
        (map turn (turns P.Tag.eq P.model breaks budget order e feed).harts)).events
        (turns P.Tag.eq P.model breaks budget order e feed) }
    ensures remembers { (breaks : List ℕ) (budget : ℕ) (order : TurnOrder)
        (e : Standing P P.Tag) (feed : Tape)
        → Remembers P.model e feed (turns P.Tag.eq P.model breaks budget order e feed) }
{}
