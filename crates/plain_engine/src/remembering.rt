//! `RememberingPlain`: the engine that asks its policy at every turn, and can take the last turns back.

ghost use Rattle.std.specs.Prelude.{◌≡◌, ◌≢◌, ◌<◌, [], true, length};
ghost use Rattle.tag_memory.specs.Ram.{ram_bytes};
ghost use Rattle.turn_steps.specs.Feeds.{unread};
ghost use Rattle.engine_trait.specs.Standing.{GivesUp, IsFailure, StopsOnly, Unchanged, is_ready, step};
ghost use Rattle.engine_trait.specs.Turn.{is_served};
ghost use Rattle.plain_engine.specs.Plain.{with_past};

use crate::noting::Noted;
use crate::plain::Plain;
use engine_trait::{Counts, Engine, Feed, Halt, Stop, TurnEnd};
use policy_trait::Policy;
use std::marker::Model;
use undo_log::UndoLog;

/// An engine that keeps tags as values, asks its policy at every turn, and remembers what its last turns replaced, so that they can be
/// taken back. Contracts see it as a `Standing`.
#[derive(Drop)]
pub struct RememberingPlain<P: Policy> {
    plain: Plain<P>,
    past: UndoLog<P::Tag, P::Tag>,
}

impl<P: Policy> Model for RememberingPlain<P> {
    ghost use Rattle.engine_trait.specs.Back.{IsPastOf};
    ghost use Rattle.engine_trait.specs.Standing.{Standing};
    ghost use Rattle.plain_engine.specs.Plain.{with_past};

    ghost Value = { Standing P P.Tag };

    ghost view = { λ p. with_past p.plain p.past };

    ghost invariant = { λ p. IsPastOf P.model P.holds p.plain.machine p.past.kept };
}

impl<P: Policy> RememberingPlain<P> {
    /// The engine `plain`, which from now on remembers its turns in `past`, where none is kept yet.
    pub fn new(plain: Plain<P>, past: UndoLog<P::Tag, P::Tag>) -> RememberingPlain<P>
        requires { past.kept ≡ [] }
        ensures { result ≡ with_past plain past }
    {
        // Serves the proof alone: the machine is sound, and its policy keeps its invariant.
        let _harts = plain.harts();
        let _plain = plain.policy().plain();
        RememberingPlain { plain, past }
    }

    /// A turn of hart `h`, whichever it is.
    #[tactic(auto)]
    fn rare_turn(&mut self, h: u32, feed: &mut Feed) -> TurnEnd
        requires hart { h < length self.old.machine.core.harts }
        requires ready { is_ready self.old h ≡ true }
        ensures step { result ≢ TurnEnd.Memory
            → step P.Tag.eq P.model self.old feed.old h
            ≡ record { standing = self.new; feed = feed.new; ended = result } }
        ensures memory { result ≡ TurnEnd.Memory
            → GivesUp P.Tag.eq P.model self.old feed.old h self.new feed.new }
        ensures failure { (why : Stop) → IsFailure why → result ≡ TurnEnd.Stopped why
            → StopsOnly self.old feed.old h why self.new feed.new }
        ensures busy { result ≢ TurnEnd.Idle }
        ensures harts { length self.new.machine.core.harts ≡ length self.old.machine.core.harts }
        ensures ram { ram_bytes self.new.machine.core.ram ≡ ram_bytes self.old.machine.core.ram }
        // It never runs out of tag numbers, and of memory only in a policy's service that nothing refuses.
        ensures words { result ≢ TurnEnd.TagsOut }
        ensures served { result ≡ TurnEnd.Memory → is_served P.model self.old.machine h ≡ true }
    {
        // Serves the proof alone: no rules are kept.
        let _ready = self.plain.is_ready(h);
        let Noted { end, made } = self.plain.noted_turn(h, feed);
        let Some(made) = made else {
            return end;
        };
        self.past.push(made);
        end
    }
}

impl<P: Policy> Engine for RememberingPlain<P> {
    type P = P;

    ghost standing = { λ p. p };

    #[inline(always)]
    #[tactic(auto)]
    fn turn(&mut self, h: u32, feed: &mut Feed) -> TurnEnd
        requires { h < length self.old.machine.core.harts }
        ensures step { result ≢ TurnEnd.Memory
            → step P.Tag.eq P.model self.old feed.old h
            ≡ record { standing = self.new; feed = feed.new; ended = result } }
        ensures memory { result ≡ TurnEnd.Memory
            → GivesUp P.Tag.eq P.model self.old feed.old h self.new feed.new }
        ensures failure { (why : Stop) → IsFailure why → result ≡ TurnEnd.Stopped why
            → StopsOnly self.old feed.old h why self.new feed.new }
        ensures idle { result ≡ TurnEnd.Idle → Unchanged self.old feed.old self.new feed.new }
        ensures harts { length self.new.machine.core.harts ≡ length self.old.machine.core.harts }
        ensures ram { ram_bytes self.new.machine.core.ram ≡ ram_bytes self.old.machine.core.ram }
        // It never runs out of tag numbers, and of memory only in a policy's service that nothing refuses.
        ensures words { result ≢ TurnEnd.TagsOut }
        ensures served { result ≡ TurnEnd.Memory → is_served P.model self.old.machine h ≡ true }
    {
        if !self.plain.is_ready(h) {
            return TurnEnd::Idle;
        }
        self.ready_turn(h, feed)
    }

    #[inline(always)]
    #[tactic(auto)]
    fn ready_turn(&mut self, h: u32, feed: &mut Feed) -> TurnEnd
        requires hart { h < length self.old.machine.core.harts }
        requires ready { is_ready self.old h ≡ true }
        ensures step { result ≢ TurnEnd.Memory
            → step P.Tag.eq P.model self.old feed.old h
            ≡ record { standing = self.new; feed = feed.new; ended = result } }
        ensures memory { result ≡ TurnEnd.Memory
            → GivesUp P.Tag.eq P.model self.old feed.old h self.new feed.new }
        ensures failure { (why : Stop) → IsFailure why → result ≡ TurnEnd.Stopped why
            → StopsOnly self.old feed.old h why self.new feed.new }
        ensures busy { result ≢ TurnEnd.Idle }
        ensures harts { length self.new.machine.core.harts ≡ length self.old.machine.core.harts }
        ensures ram { ram_bytes self.new.machine.core.ram ≡ ram_bytes self.old.machine.core.ram }
        // It never runs out of tag numbers, and of memory only in a policy's service that nothing refuses.
        ensures words { result ≢ TurnEnd.TagsOut }
        ensures served { result ≡ TurnEnd.Memory → is_served P.model self.old.machine h ≡ true }
    {
        // Serves the proof alone: no rules are kept.
        let _ready = self.plain.is_ready(h);
        if !self.past.keeps() {
            let end = self.plain.ready_turn(h, feed);
            // Serves the proof alone: no turn is remembered.
            self.plain.forgets();
            return end;
        }
        let Some(look) = self.plain.step_look(h) else {
            return self.rare_turn(h, feed);
        };
        // A refusal stops the hart, so that it may well be found once more.
        let Ok(outs) = self.plain.ask(h, &look) else {
            return self.rare_turn(h, feed);
        };
        let made = self.plain.step_record(h, &look);
        let end = self.plain.step(h, &look, outs);
        self.past.push(made);
        end
    }

    fn remembered(&self) -> u32 {
        self.past.len()
    }

    fn back(&mut self, feed: &mut Feed) -> bool {
        let Some(made) = self.past.pop() else {
            return false;
        };
        self.plain.undo(&made);
        unread(feed, made.fed());
        true
    }

    fn harts(&self) -> u32 {
        self.plain.harts()
    }

    fn ram(&self) -> u32 {
        self.plain.ram()
    }

    fn reg(&self, h: u32, r: u32) -> u32 {
        self.plain.reg(h, r)
    }

    fn reg_tag(&self, h: u32, r: u32) -> P::Tag {
        self.plain.reg_tag(h, r)
    }

    fn pc(&self, h: u32) -> u32 {
        self.plain.pc(h)
    }

    fn pc_tag(&self, h: u32) -> P::Tag {
        self.plain.pc_tag(h)
    }

    fn word(&self, address: u32) -> u32 {
        self.plain.word(address)
    }

    fn word_tag(&self, address: u32) -> P::Tag {
        self.plain.word_tag(address)
    }

    fn stop(&self, h: u32) -> Option<Stop> {
        self.plain.stop(h)
    }

    fn stopped(&self) -> bool {
        self.plain.stopped()
    }

    fn halt(&self) -> Option<Halt> {
        self.plain.halt()
    }

    fn policy(&self) -> &P {
        self.plain.policy()
    }

    fn counts(&self) -> Counts {
        self.plain.counts()
    }
}

// Puts the byte that a turn read back to the feed, where it read one.
fn unread(feed: &mut Feed, fed: Option<u8>)
    ensures { feed.new ≡ unread fed feed.old }
{
    if let Some(_byte) = fed {
        feed.unread();
    }
}
