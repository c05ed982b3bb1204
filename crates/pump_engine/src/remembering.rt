//! The engine whose tags are words of a table, and which remembers its last turns.

ghost use Rattle.std.specs.Prelude.{◌≡◌, ◌≢◌, ◌+◌, ◌%◌, ◌<◌, ◌≤◌, [], IfOk, is_some, length, true};
ghost use Rattle.tag_memory.specs.Hart.{reg_tag, reg_value};
ghost use Rattle.tag_memory.specs.Ram.{ram_bytes, ram_tag, ram_word};
ghost use Rattle.undo_log.specs.Past.{newest};
ghost use Rattle.engine_trait.specs.Accounts.{counts_of};
ghost use Rattle.engine_trait.specs.Back.{back};
ghost use Rattle.engine_trait.specs.Machine.{IsMachine, hart_at, stop_at};
ghost use Rattle.engine_trait.specs.Standing.{GivesUp, IsFailure, StopsOnly, Unchanged, is_ready, step};
ghost use Rattle.pump_engine.specs.Pump.{standing_by_words};
ghost use Rattle.pump_engine.specs.Steps.{takes_memory};

use crate::pump::Pump;
use engine_trait::{Counts, Engine, Feed, Halt, Stop, TurnEnd};
use policy_trait::{Policy, TagMap};
use rule_cache::RuleStore;
use std::marker::Model;
use tag_intern::TagTable;
use undo_log::UndoLog;

/// The engine whose tags are words of a table, and which remembers its last turns, as many as its log has room for.
///
/// Contracts see it as a `PumpState`; its records are at all times those of the last turns that led to its machine.
#[derive(Drop)]
pub struct RememberingPump<P: Policy, T: TagTable<Tag = P::Tag>, C: RuleStore> {
    pump: Pump<P, T, C, UndoLog<u32, P::Tag>>,
}

impl<P: Policy, T: TagTable<Tag = P::Tag>, C: RuleStore> Model for RememberingPump<P, T, C> {
    ghost use Rattle.pump_engine.specs.Back.{HasPast};
    ghost use Rattle.pump_engine.specs.Pump.{PumpState};

    ghost Value = { PumpState P P.Tag };

    ghost view = { λ r. r.pump };

    ghost invariant = { λ r. HasPast P.model r.pump P.holds };
}

impl<P: Policy, T: TagTable<Tag = P::Tag>, C: RuleStore> RememberingPump<P, T, C> {
    /// This engine, which has not remembered a turn yet.
    pub fn new(pump: Pump<P, T, C, UndoLog<u32, P::Tag>>) -> RememberingPump<P, T, C>
        requires { pump.past.kept ≡ [] }
        ensures { result ≡ pump }
    {
        // Serves the proof alone: the machine is sound, and so is the policy.
        let _words = pump.words();
        let _plain = pump.asked_policy().plain();
        RememberingPump { pump }
    }
}

impl<P: Policy, T: TagTable<Tag = P::Tag>, C: RuleStore> Engine for RememberingPump<P, T, C> {
    ghost use Rattle.pump_engine.specs.Pump.{standing_by_words};

    type P = P;

    ghost standing = { λ p. standing_by_words P.model p };

    #[inline(always)]
    #[tactic(auto)]
    fn turn(&mut self, h: u32, feed: &mut Feed) -> TurnEnd
        requires { h < length (standing_by_words P.model self.old).machine.core.harts }
        ensures step { result ≢ TurnEnd.Memory
            → step P.Tag.eq P.model (standing_by_words P.model self.old) feed.old h
            ≡ record { standing = standing_by_words P.model self.new; feed = feed.new; ended = result } }
        ensures memory { result ≡ TurnEnd.Memory
            → GivesUp P.Tag.eq P.model (standing_by_words P.model self.old) feed.old h
            (standing_by_words P.model self.new) feed.new }
        ensures failure { (why : Stop) → IsFailure why → result ≡ TurnEnd.Stopped why
            → StopsOnly (standing_by_words P.model self.old) feed.old h why
            (standing_by_words P.model self.new) feed.new }
        ensures idle { result ≡ TurnEnd.Idle
            → Unchanged (standing_by_words P.model self.old) feed.old
            (standing_by_words P.model self.new) feed.new }
        ensures harts { length (standing_by_words P.model self.new).machine.core.harts
            ≡ length (standing_by_words P.model self.old).machine.core.harts }
        ensures ram { ram_bytes (standing_by_words P.model self.new).machine.core.ram
            ≡ ram_bytes (standing_by_words P.model self.old).machine.core.ram }
        // A turn whose rule is kept takes no memory, but for a service of the policy that nothing refuses.
        ensures kept { result ≡ TurnEnd.Memory
            → takes_memory P.Tag.eq P.model (standing_by_words P.model self.old) h ≡ true }
    {
        if !self.pump.is_ready(h) {
            return TurnEnd::Idle;
        }
        self.pump.turn_of_ready(h, feed)
    }

    #[inline(always)]
    #[tactic(auto)]
    fn ready_turn(&mut self, h: u32, feed: &mut Feed) -> TurnEnd
        requires hart { h < length (standing_by_words P.model self.old).machine.core.harts }
        requires ready { is_ready (standing_by_words P.model self.old) h ≡ true }
        ensures step { result ≢ TurnEnd.Memory
            → step P.Tag.eq P.model (standing_by_words P.model self.old) feed.old h
            ≡ record { standing = standing_by_words P.model self.new; feed = feed.new; ended = result } }
        ensures memory { result ≡ TurnEnd.Memory
            → GivesUp P.Tag.eq P.model (standing_by_words P.model self.old) feed.old h
            (standing_by_words P.model self.new) feed.new }
        ensures failure { (why : Stop) → IsFailure why → result ≡ TurnEnd.Stopped why
            → StopsOnly (standing_by_words P.model self.old) feed.old h why
            (standing_by_words P.model self.new) feed.new }
        ensures busy { result ≢ TurnEnd.Idle }
        ensures harts { length (standing_by_words P.model self.new).machine.core.harts
            ≡ length (standing_by_words P.model self.old).machine.core.harts }
        ensures ram { ram_bytes (standing_by_words P.model self.new).machine.core.ram
            ≡ ram_bytes (standing_by_words P.model self.old).machine.core.ram }
        // A turn whose rule is kept takes no memory, but for a service of the policy that nothing refuses.
        ensures kept { result ≡ TurnEnd.Memory
            → takes_memory P.Tag.eq P.model (standing_by_words P.model self.old) h ≡ true }
    {
        self.pump.turn_of_ready(h, feed)
    }

    #[tactic(auto)]
    fn back(&mut self, feed: &mut Feed) -> bool
        ensures back { back P.model (standing_by_words P.model self.old) feed.old
            ≡ record { standing = standing_by_words P.model self.new; feed = feed.new } }
        ensures some { result
            ≡ is_some (newest (standing_by_words P.model self.old).account.past) }
        ensures harts { length (standing_by_words P.model self.new).machine.core.harts
            ≡ length (standing_by_words P.model self.old).machine.core.harts }
        ensures ram { ram_bytes (standing_by_words P.model self.new).machine.core.ram
            ≡ ram_bytes (standing_by_words P.model self.old).machine.core.ram }
    {
        self.pump.take_back(feed)
    }

    fn remembered(&self) -> u32 {
        self.pump.remembered()
    }

    fn harts(&self) -> u32 {
        // Serves the proof alone: the machine is sound.
        let _words = self.pump.words();
        self.pump.core().harts()
    }

    fn ram(&self) -> u32 {
        self.pump.core().ram().bytes()
    }

    fn reg(&self, h: u32, r: u32) -> u32 {
        self.pump.core().hart(h).reg(r)
    }

    fn reg_tag(&self, h: u32, r: u32) -> P::Tag {
        self.pump
            .decoder()
            .image(self.pump.core().hart(h).reg_tag(r))
    }

    fn pc(&self, h: u32) -> u32 {
        self.pump.core().hart(h).pc()
    }

    fn pc_tag(&self, h: u32) -> P::Tag {
        self.pump.decoder().image(self.pump.core().hart(h).pc_tag())
    }

    fn word(&self, address: u32) -> u32 {
        self.pump.core().ram().word(address)
    }

    fn word_tag(&self, address: u32) -> P::Tag {
        self.pump
            .decoder()
            .image(self.pump.core().ram().tag(address))
    }

    fn stop(&self, h: u32) -> Option<Stop> {
        self.pump.core().stop(h)
    }

    fn stopped(&self) -> bool {
        self.pump.why_stopped().is_some()
    }

    fn halt(&self) -> Option<Halt> {
        self.pump.why_stopped()
    }

    fn policy(&self) -> &P {
        self.pump.asked_policy()
    }

    fn counts(&self) -> Counts {
        self.pump.told_counts()
    }
}
