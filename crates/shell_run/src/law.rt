//! What holds of sessions, for callers that reason about them.

ghost use Rattle.std.specs.Prelude.{◌≡◌, [], List};
ghost use Rattle.engine_trait.specs.Runs.{Item};
ghost use Rattle.engine_trait.specs.Standing.{Standing};
ghost use Rattle.shell_lang.specs.declared.command.Command.{Command as ShellCommand};
ghost use Rattle.shell_run.specs.Gains.{TellsGain, events_along};
ghost use Rattle.shell_run.specs.Replies.{reply_to};
ghost use Rattle.shell_run.specs.Runs.{IsAlong, IsStart, items_after};
ghost use Rattle.shell_run.specs.Session.{SessionState, fresh};

use policy_trait::Policy;

/// The machine and the feed of a session are those of a run from its start: the counted turns and the fed bytes since then, or
/// since the last reset, in their order, without the turns that were taken back. The reply to a command that makes turns tells
/// the events that the run gains by it, and their number; no other command gains one, and one that takes turns back loses theirs
/// (`tells`). The start stays.
pub fn session_law<P: Policy>()
    ensures begins { (start : Standing P P.Tag) → IsStart P.model P.holds start
        → IsAlong P.Tag.eq P.model (fresh start) [] }
    ensures goes_on { (s : SessionState P P.Tag) (items : List Item) (command : ShellCommand)
        → IsStart P.model P.holds s.start → IsAlong P.Tag.eq P.model s items
        → IsAlong P.Tag.eq P.model (reply_to P.Tag.eq P.model s command).after
        (items_after P.Tag.eq P.model s items command) }
    ensures tells { (s : SessionState P P.Tag) (items : List Item) (command : ShellCommand)
        → IsAlong P.Tag.eq P.model s items
        → TellsGain P.Tag.eq P.model s command (events_along P.Tag.eq P.model s items)
        (events_along P.Tag.eq P.model s (items_after P.Tag.eq P.model s items command)) }
    ensures stays { (s : SessionState P P.Tag) (command : ShellCommand)
        → (reply_to P.Tag.eq P.model s command).after.start ≡ s.start }
{}
