//! What engines and loaders guarantee.

ghost use Rattle.std.specs.Prelude.{◌≡◌, ◌≢◌, ◌+◌, ◌%◌, ◌<◌, ◌≤◌, false, true, Err, IfOk, is_some, length};
ghost use Rattle.tag_memory.specs.Hart.{reg_tag, reg_value};
ghost use Rattle.tag_memory.specs.Ram.{ram_bytes, ram_tag, ram_word};
ghost use Rattle.engine_trait.specs.Machine.{IsMachine, hart_at, stop_at};
ghost use Rattle.undo_log.specs.Past.{newest};
ghost use Rattle.engine_trait.specs.Accounts.{counts_of, is_over};
ghost use Rattle.engine_trait.specs.Back.{back};
ghost use Rattle.engine_trait.specs.Standing.{GivesUp, IsFailure, StopsOnly, Unchanged, is_ready, step};

use crate::ends::{Counts, Halt, LoadEnd, TurnEnd};
use policy_trait::Policy;
use turn_steps::{Feed, Stop};

/// A machine that runs. `standing` is what it is: a machine by the definitions, and its account.
pub trait Engine {
    ghost use Rattle.engine_trait.specs.Standing.{Standing};

    type P: Policy;

    ghost standing: { Self → Standing Self.P Self.P.Tag };

    /// One turn of hart `h`: fetch, checks, rule, service and effect together.
    fn turn(&mut self, h: u32, feed: &mut Feed) -> TurnEnd
        requires { h < length (standing self.old).machine.core.harts }
        ensures step { result ≢ TurnEnd.Memory
            → step Self.P.Tag.eq Self.P.model (standing self.old) feed.old h
            ≡ record { standing = standing self.new; feed = feed.new; ended = result } }
        ensures memory { result ≡ TurnEnd.Memory
            → GivesUp Self.P.Tag.eq Self.P.model (standing self.old) feed.old h
            (standing self.new) feed.new }
        // A fault or a refusal changes nothing but that hart's stop, an idle turn nothing at all.
        ensures failure { (why : Stop) → IsFailure why → result ≡ TurnEnd.Stopped why
            → StopsOnly (standing self.old) feed.old h why (standing self.new) feed.new }
        ensures idle { result ≡ TurnEnd.Idle
            → Unchanged (standing self.old) feed.old (standing self.new) feed.new }
        ensures harts { length (standing self.new).machine.core.harts
            ≡ length (standing self.old).machine.core.harts }
        ensures ram { ram_bytes (standing self.new).machine.core.ram
            ≡ ram_bytes (standing self.old).machine.core.ram };

    /// The turn of a hart that is ready: neither it nor the engine has stopped. Who knows that asks for it so, since it isn't looked at
    /// again.
    fn ready_turn(&mut self, h: u32, feed: &mut Feed) -> TurnEnd
        requires hart { h < length (standing self.old).machine.core.harts }
        requires ready { is_ready (standing self.old) h ≡ true }
        ensures step { result ≢ TurnEnd.Memory
            → step Self.P.Tag.eq Self.P.model (standing self.old) feed.old h
            ≡ record { standing = standing self.new; feed = feed.new; ended = result } }
        ensures memory { result ≡ TurnEnd.Memory
            → GivesUp Self.P.Tag.eq Self.P.model (standing self.old) feed.old h
            (standing self.new) feed.new }
        ensures failure { (why : Stop) → IsFailure why → result ≡ TurnEnd.Stopped why
            → StopsOnly (standing self.old) feed.old h why (standing self.new) feed.new }
        ensures busy { result ≢ TurnEnd.Idle }
        ensures harts { length (standing self.new).machine.core.harts
            ≡ length (standing self.old).machine.core.harts }
        ensures ram { ram_bytes (standing self.new).machine.core.ram
            ≡ ram_bytes (standing self.old).machine.core.ram };

    /// How many turns can be taken back: those that are remembered, 0 to 65,536.
    fn remembered(&self) -> u32
        ensures { result ≡ length (standing self.now).account.past.kept };

    /// Takes the newest turn back that is remembered; `false` exactly where none is. A byte that it read is the next one of the feed
    /// again: the last that was read of it, if this is the feed that the turn was made with. What the turn put out stays, and so do the
    /// counts and the kept rules. It takes no memory.
    fn back(&mut self, feed: &mut Feed) -> bool
        ensures back { back Self.P.model (standing self.old) feed.old
            ≡ record { standing = standing self.new; feed = feed.new } }
        ensures some { result ≡ is_some (newest (standing self.old).account.past) }
        ensures harts { length (standing self.new).machine.core.harts
            ≡ length (standing self.old).machine.core.harts }
        ensures ram { ram_bytes (standing self.new).machine.core.ram
            ≡ ram_bytes (standing self.old).machine.core.ram };

    /// How many harts there are, 1 to 8. The machine is sound at all times.
    fn harts(&self) -> u32
        ensures harts { result ≡ length (standing self.now).machine.core.harts }
        ensures some { 1 ≤ result }
        ensures few { result ≤ 8 }
        ensures sound { IsMachine Self.P.model (standing self.now).machine };

    /// The bytes of memory.
    fn ram(&self) -> u32
        ensures ram { result ≡ ram_bytes (standing self.now).machine.core.ram }
        ensures whole { result % 4 ≡ 0 }
        ensures few { result ≤ 16777216 };

    /// The value of register `r` of hart `h`.
    fn reg(&self, h: u32, r: u32) -> u32
        requires hart { h < length (standing self.now).machine.core.harts }
        requires register { r < 32 }
        ensures { result ≡ reg_value (hart_at (standing self.now).machine.core h) r };

    /// The tag of register `r` of hart `h`.
    fn reg_tag(&self, h: u32, r: u32) -> <Self::P as Policy>::Tag
        requires hart { h < length (standing self.now).machine.core.harts }
        requires register { r < 32 }
        ensures { result ≡ reg_tag (hart_at (standing self.now).machine.core h) r };

    /// The pc of hart `h`, a multiple of 4.
    fn pc(&self, h: u32) -> u32
        requires { h < length (standing self.now).machine.core.harts }
        ensures pc { result ≡ (hart_at (standing self.now).machine.core h).pc }
        ensures aligned { result % 4 ≡ 0 };

    /// The tag of the pc of hart `h`.
    fn pc_tag(&self, h: u32) -> <Self::P as Policy>::Tag
        requires { h < length (standing self.now).machine.core.harts }
        ensures { result ≡ (hart_at (standing self.now).machine.core h).pc_tag };

    /// The word at `address`.
    fn word(&self, address: u32) -> u32
        requires aligned { address % 4 ≡ 0 }
        requires within { address + 4 ≤ ram_bytes (standing self.now).machine.core.ram }
        ensures { result ≡ ram_word (standing self.now).machine.core.ram address };

    /// The tag of the word at `address`.
    fn word_tag(&self, address: u32) -> <Self::P as Policy>::Tag
        requires aligned { address % 4 ≡ 0 }
        requires within { address + 4 ≤ ram_bytes (standing self.now).machine.core.ram }
        ensures { result ≡ ram_tag (standing self.now).machine.core.ram address };

    /// Why hart `h` stopped, `None` where it is ready.
    fn stop(&self, h: u32) -> Option<Stop>
        requires { h < length (standing self.now).machine.core.harts }
        ensures { result ≡ stop_at (standing self.now).machine.core h };

    /// Whether the engine as a whole is stopped, since memory or tag numbers ran out.
    fn stopped(&self) -> bool
        ensures { result ≡ is_some (standing self.now).account.halt };

    /// Why the engine as a whole is stopped, `None` where it is not.
    fn halt(&self) -> Option<Halt>
        ensures { result ≡ (standing self.now).account.halt };

    /// The policy.
    fn policy(&self) -> &Self::P
        ensures { result.now ≡ (standing self.now).machine.policy };

    /// How many turns, hits, misses and sweeps there were.
    fn counts(&self) -> Counts
        ensures { result ≡ counts_of (standing self.now).account };
}

/// A start that can be made again and again.
pub trait Loader: Drop {
    ghost use Rattle.engine_trait.specs.Standing.{Standing};

    type E: Engine + Drop;

    ghost start: { Self → Standing Self.E.P Self.E.P.Tag };

    /// An engine at the start. It needs no more tag numbers than the limit; `TagsOut` says that it would.
    fn load(&self) -> Result<Self::E, LoadEnd>
        ensures start { IfOk result (λ engine. Self.E.standing engine ≡ start self.now) }
        ensures within { IfOk result (λ engine. is_over (start self.now).account ≡ false) }
        ensures out { result ≡ Err LoadEnd.TagsOut → is_over (start self.now).account ≡ true };
}
