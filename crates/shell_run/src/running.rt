//! The commands that make turns, what feeds them, and the start again.

ghost use Rattle.std.specs.Prelude.{◌≡◌, ◌≤◌, IfErr, OnOk, Some, length};
ghost use Rattle.std.specs.List.{list_all};
ghost use Rattle.shell_turns.specs.Cuts.{ObeyCause, PutsOut};
ghost use Rattle.shell_turns.specs.Order.{AreHarts, listed, only, order_of};
ghost use Rattle.shell_run.specs.Replies.{IsCut, asked_if, backing, reply_if, feeding, restarting, running};
ghost use Rattle.shell_run.specs.Session.{backed, is_hart};

use crate::session::Session;
use crate::texts::{put_back, put_turns};
use engine_trait::{Engine, Feed, Loader};
use host_io::Sink;
use shell_turns::{ObeyEnd, Order, make_turns};

impl<L: Loader> Session<L> {
    /// Turns in this order, at most so many, and how many were counted.
    #[tactic(auto, unfolding(crate::specs::Replies::running))]
    pub(crate) fn run<K: Sink>(
        &mut self,
        budget: u32,
        order: Order<'_>,
        out: &mut K,
    ) -> Result<(), ObeyEnd>
        requires { AreHarts (length self.old.standing.machine.core.harts) (order_of order) }
        ensures after { OnOk result (self.new ≡ (running L.E.P.Tag.eq L.E.P.model self.old
            budget (order_of order.entry)).after) }
        ensures puts { PutsOut (K.taken out.old) (K.taken out.new)
            (running L.E.P.Tag.eq L.E.P.model self.old budget (order_of order.entry)).pieces
            result }
        ensures cause { ObeyCause (K.faults out.old) (K.faults out.new) result }
        ensures cut { IfErr result (λ end. IsCut L.E.P.Tag.eq L.E.P.model self.old
            (Some (budget, order_of order.entry)) self.new
            (K.taken out.old) (K.taken out.new) end) }
    {
        let breaks = &self.breaks;
        let count = make_turns(&mut self.engine, &mut self.feed, breaks, budget, order, out)?;
        put_turns(count, out)
    }

    /// `step H N`: at most `N` turns of hart `H`.
    pub(crate) fn step<K: Sink>(&mut self, h: u32, budget: u32, out: &mut K) -> Result<(), ObeyEnd>
        ensures after { OnOk result (self.new ≡ (reply_if self.old (is_hart self.old h)
            (running L.E.P.Tag.eq L.E.P.model self.old budget (only h))).after) }
        ensures puts { PutsOut (K.taken out.old) (K.taken out.new)
            (reply_if self.old (is_hart self.old h)
            (running L.E.P.Tag.eq L.E.P.model self.old budget (only h))).pieces result }
        ensures cause { ObeyCause (K.faults out.old) (K.faults out.new) result }
        ensures cut { IfErr result (λ end. IsCut L.E.P.Tag.eq L.E.P.model self.old
            (asked_if (is_hart self.old h) budget (only h)) self.new
            (K.taken out.old) (K.taken out.new) end) }
    {
        if !self.is_hart(h) {
            return self.refuse(out);
        }
        self.run(budget, Order::Only(h), out)
    }

    /// `turns DIGITS`: one turn of each of these harts, one after another.
    pub(crate) fn turns<K: Sink>(&mut self, harts: &[u8], out: &mut K) -> Result<(), ObeyEnd>
        requires { length harts.now ≤ 256 }
        ensures after { OnOk result (self.new ≡ (reply_if self.old (list_all
            (is_hart self.old) harts.now)
            (running L.E.P.Tag.eq L.E.P.model self.old (length harts.now)
            (listed harts.now))).after) }
        ensures puts { PutsOut (K.taken out.old) (K.taken out.new)
            (reply_if self.old (list_all (is_hart self.old) harts.now)
            (running L.E.P.Tag.eq L.E.P.model self.old (length harts.now)
            (listed harts.now))).pieces
            result }
        ensures cause { ObeyCause (K.faults out.old) (K.faults out.new) result }
        ensures cut { IfErr result (λ end. IsCut L.E.P.Tag.eq L.E.P.model self.old
            (asked_if (list_all (is_hart self.old) harts.now)
            (length harts.now) (listed harts.now)) self.new
            (K.taken out.old) (K.taken out.new) end) }
    {
        if !self.are_harts(harts) {
            return self.refuse(out);
        }
        self.run(harts.len() as u32, Order::Listed(harts), out)
    }

    /// Takes the last turns back, so many of them, or as many as are remembered.
    fn take_back(&mut self, count: u32)
        ensures { self.new ≡ backed L.E.P.model self.old count }
    {
        for _ in 0..count {
            self.engine.back(&mut self.feed);
        }
    }

    /// `back N`: the last `N` turns taken back, or as many as are remembered, and how many. That is told first, so that a command
    /// that is cut short takes none back.
    #[tactic(auto, unfolding(crate::specs::Replies::backing))]
    pub(crate) fn back<K: Sink>(&mut self, turns: u32, out: &mut K) -> Result<(), ObeyEnd>
        ensures after { OnOk result (self.new
            ≡ (backing L.E.P.Tag.eq L.E.P.model self.old turns).after) }
        ensures puts { PutsOut (K.taken out.old) (K.taken out.new)
            (backing L.E.P.Tag.eq L.E.P.model self.old turns).pieces result }
        ensures cause { ObeyCause (K.faults out.old) (K.faults out.new) result }
        ensures cut { IfErr result (λ end. self.new ≡ self.old) }
    {
        let count = turns.min(self.engine.remembered());
        put_back(count, out)?;
        self.take_back(count);
        Ok(())
    }

    /// `feed HEX`: these bytes behind those that are left of the feed.
    pub(crate) fn fed(&mut self, bytes: &[u8]) -> Result<(), ObeyEnd>
        ensures after { OnOk result (self.new ≡ (feeding self.old bytes.now).after) }
        ensures cut { IfErr result (λ end. self.new ≡ self.old) }
        ensures memory { IfErr result (λ end. end ≡ ObeyEnd.Memory) }
    {
        match self.feed.append(bytes) {
            Ok(()) => Ok(()),
            Err(_) => Err(ObeyEnd::Memory),
        }
    }

    /// `reset`: the start again, with its account and an empty feed. The breakpoints stay.
    pub(crate) fn reset(&mut self) -> Result<(), ObeyEnd>
        ensures after { OnOk result (self.new ≡ (restarting self.old).after) }
        ensures cut { IfErr result (λ end. self.new ≡ self.old) }
        ensures memory { IfErr result (λ end. end ≡ ObeyEnd.Memory) }
    {
        match self.loader.load() {
            Ok(engine) => {
                self.engine = engine;
                self.feed = Feed::new(self.alloc);
                Ok(())
            }
            Err(_) => Err(ObeyEnd::Memory),
        }
    }
}
