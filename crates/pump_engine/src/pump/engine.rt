//! What a `Pump` shows and takes back, and `Pump` as an engine that remembers no turn.

ghost use Rattle.std.specs.Prelude.{◌≡◌, ◌≢◌, ◌<◌, false, is_some, true, length};
ghost use Rattle.std.specs.Option.{ForSome};
ghost use Rattle.tag_memory.specs.Ram.{ram_bytes};
ghost use Rattle.undo_log.specs.Past.{newest};
ghost use Rattle.engine_trait.specs.Accounts.{counts_of};
ghost use Rattle.engine_trait.specs.Standing.{GivesUp, IsFailure, StopsOnly, Unchanged, is_ready, step};
ghost use Rattle.pump_engine.specs.Back.{CanTakeBack, taken_back, unread_by};
ghost use Rattle.pump_engine.specs.Pump.{account_by_words, standing_by_words};
ghost use Rattle.pump_engine.specs.Steps.{takes_memory};

use super::Pump;
use crate::taking_back::{awake, uncommit_if, unread_if};
use engine_trait::{Core, Counts, Engine, Feed, Halt, Stop, TurnEnd};
use policy_trait::{Policy, TagMap};
use rule_cache::RuleStore;
use tag_intern::TagTable;
use undo_log::{NoLog, WordLog};

impl<P: Policy, T: TagTable<Tag = P::Tag>, C: RuleStore, H: WordLog<Tag = P::Tag>> Pump<
    P,
    T,
    C,
    H,
> {
    /// How many turns are remembered, 0 to 65,536.
    pub(crate) fn remembered(&self) -> u32
        ensures { result ≡ length self.now.past.kept }
    {
        self.log.len()
    }

    /// Takes the newest turn back that is remembered, by its record, with the byte of the feed that it read; `false` where none is.
    pub(crate) fn take_back(&mut self, feed: &mut Feed) -> bool
        requires can { ForSome (newest self.old.past) (CanTakeBack P.model self.old P.holds) }
        ensures state { self.new ≡ taken_back P.model self.old (newest self.old.past) }
        ensures feed { feed.new ≡ unread_by (newest self.old.past) feed.old }
        ensures some { result ≡ is_some (newest self.old.past) }
        ensures harts { length self.new.core.harts ≡ length self.old.core.harts }
        ensures bytes { ram_bytes self.new.core.ram ≡ ram_bytes self.old.core.ram }
    {
        let Some(made) = self.log.pop() else {
            return false;
        };
        self.core.undo(&made);
        uncommit_if(&mut self.policy, &made);
        unread_if(feed, made.fed());
        self.halt = awake(self.halt);
        true
    }

    /// Harts and memory, whose tags are words.
    pub(crate) fn core(&self) -> &Core<u32>
        ensures { result.now ≡ self.now.core }
    {
        &self.core
    }

    /// The policy.
    pub(crate) fn asked_policy(&self) -> &P
        ensures { result.now ≡ self.now.policy }
    {
        &self.policy
    }

    /// Why the engine as a whole is stopped, `None` where it is not.
    pub(crate) fn why_stopped(&self) -> Option<Halt>
        ensures { result ≡ self.now.halt }
    {
        self.halt
    }

    /// How many turns, hits, misses and sweeps there were.
    pub(crate) fn told_counts(&self) -> Counts
        ensures { result ≡ counts_of (account_by_words P.model self.now) }
    {
        Counts {
            turns: self.turns,
            hits: self.store.hits(),
            misses: self.store.misses(),
            sweeps: self.sweeps,
        }
    }
}

impl<P: Policy, T: TagTable<Tag = P::Tag>, C: RuleStore> Engine for Pump<P, T, C, NoLog<P::Tag>> {
    ghost use Rattle.pump_engine.specs.Pump.{standing_by_words};

    type P = P;

    ghost standing = { λ p. standing_by_words P.model p };

    #[inline(always)]
    #[tactic(auto)]
    fn turn(&mut self, h: u32, feed: &mut Feed) -> TurnEnd
        requires { h < length (standing_by_words P.model self.old).machine.core.harts }
        ensures step { result ≢ TurnEnd.Memory
            → step P.Tag.eq P.model (standing_by_words P.model self.old) feed.old h
            ≡ record { standing = standing_by_words P.model self.new; feed = feed.new; ended = result } }
        ensures memory { result ≡ TurnEnd.Memory
            → GivesUp P.Tag.eq P.model (standing_by_words P.model self.old) feed.old h
            (standing_by_words P.model self.new) feed.new }
        ensures failure { (why : Stop) → IsFailure why → result ≡ TurnEnd.Stopped why
            → StopsOnly (standing_by_words P.model self.old) feed.old h why
            (standing_by_words P.model self.new) feed.new }
        ensures idle { result ≡ TurnEnd.Idle
            → Unchanged (standing_by_words P.model self.old) feed.old
            (standing_by_words P.model self.new) feed.new }
        ensures harts { length (standing_by_words P.model self.new).machine.core.harts
            ≡ length (standing_by_words P.model self.old).machine.core.harts }
        ensures ram { ram_bytes (standing_by_words P.model self.new).machine.core.ram
            ≡ ram_bytes (standing_by_words P.model self.old).machine.core.ram }
        // A turn whose rule is kept takes no memory, but for a service of the policy that nothing refuses.
        ensures kept { result ≡ TurnEnd.Memory
            → takes_memory P.Tag.eq P.model (standing_by_words P.model self.old) h ≡ true }
    {
        if !self.is_ready(h) {
            return TurnEnd::Idle;
        }
        self.ready_turn(h, feed)
    }

    #[inline(always)]
    #[tactic(auto)]
    fn ready_turn(&mut self, h: u32, feed: &mut Feed) -> TurnEnd
        requires hart { h < length (standing_by_words P.model self.old).machine.core.harts }
        requires ready { is_ready (standing_by_words P.model self.old) h ≡ true }
        ensures step { result ≢ TurnEnd.Memory
            → step P.Tag.eq P.model (standing_by_words P.model self.old) feed.old h
            ≡ record { standing = standing_by_words P.model self.new; feed = feed.new; ended = result } }
        ensures memory { result ≡ TurnEnd.Memory
            → GivesUp P.Tag.eq P.model (standing_by_words P.model self.old) feed.old h
            (standing_by_words P.model self.new) feed.new }
        ensures failure { (why : Stop) → IsFailure why → result ≡ TurnEnd.Stopped why
            → StopsOnly (standing_by_words P.model self.old) feed.old h why
            (standing_by_words P.model self.new) feed.new }
        ensures busy { result ≢ TurnEnd.Idle }
        ensures harts { length (standing_by_words P.model self.new).machine.core.harts
            ≡ length (standing_by_words P.model self.old).machine.core.harts }
        ensures ram { ram_bytes (standing_by_words P.model self.new).machine.core.ram
            ≡ ram_bytes (standing_by_words P.model self.old).machine.core.ram }
        // A turn whose rule is kept takes no memory, but for a service of the policy that nothing refuses.
        ensures kept { result ≡ TurnEnd.Memory
            → takes_memory P.Tag.eq P.model (standing_by_words P.model self.old) h ≡ true }
    {
        self.turn_of_ready(h, feed)
    }

    fn remembered(&self) -> u32 {
        // Serves the proof alone: no turn is remembered.
        let _keeps = self.log.keeps();
        0
    }

    fn back(&mut self, _feed: &mut Feed) -> bool {
        // Serves the proof alone: no turn is remembered.
        let _keeps = self.log.keeps();
        false
    }

    fn harts(&self) -> u32 {
        self.core.harts()
    }

    fn ram(&self) -> u32 {
        self.core.ram().bytes()
    }

    fn reg(&self, h: u32, r: u32) -> u32 {
        self.core.hart(h).reg(r)
    }

    fn reg_tag(&self, h: u32, r: u32) -> P::Tag {
        self.decoder().image(self.core.hart(h).reg_tag(r))
    }

    fn pc(&self, h: u32) -> u32 {
        self.core.hart(h).pc()
    }

    fn pc_tag(&self, h: u32) -> P::Tag {
        self.decoder().image(self.core.hart(h).pc_tag())
    }

    fn word(&self, address: u32) -> u32 {
        self.core.ram().word(address)
    }

    fn word_tag(&self, address: u32) -> P::Tag {
        self.decoder().image(self.core.ram().tag(address))
    }

    fn stop(&self, h: u32) -> Option<Stop> {
        self.core.stop(h)
    }

    fn stopped(&self) -> bool {
        self.halt.is_some()
    }

    fn halt(&self) -> Option<Halt> {
        self.halt
    }

    fn policy(&self) -> &P {
        &self.policy
    }

    fn counts(&self) -> Counts {
        self.told_counts()
    }
}
