//! The commands that show the machine as it stands.

ghost use Rattle.std.specs.Prelude.{◌≡◌, ◌∷◌, []};
ghost use Rattle.host_io.specs.Pieces.{out as piece};
ghost use Rattle.shell_turns.specs.Cuts.{ObeyCause, PutsOut};
ghost use Rattle.shell_run.specs.Lines.{refusal_line};
ghost use Rattle.shell_run.specs.Replies.{blocks_shown, reply_if, pc_shown, registers_shown, statements_shown, stats_shown, sweeps_shown, tags_shown, telling, why_shown, words_shown};
ghost use Rattle.shell_run.specs.Session.{is_hart, is_range};

use crate::listing::{Listing, put_blocks, put_listing};
use crate::session::Session;
use crate::texts::{put_pc, put_ready, put_refusal, put_stats, put_sweeps};
use engine_trait::{Engine, Loader};
use host_io::Sink;
use shell_turns::{ObeyEnd, put_stop_line};

/// How many registers a hart has.
const REGISTERS: u32 = 32;

impl<L: Loader> Session<L> {
    /// Tells that an operand is out of the machine's range.
    pub(crate) fn refuse<K: Sink>(&self, out: &mut K) -> Result<(), ObeyEnd>
        ensures puts { PutsOut (K.taken out.old) (K.taken out.new)
            (piece (refusal_line 4) ∷ []) result }
        ensures cause { ObeyCause (K.faults out.old) (K.faults out.new) result }
    {
        put_refusal(4, out)
    }

    /// `regs H`: the registers of hart `H`.
    #[tactic(auto, unfolding(crate::specs::Replies::registers_shown))]
    pub(crate) fn registers<K: Sink>(&self, h: u32, out: &mut K) -> Result<(), ObeyEnd>
        ensures puts { PutsOut (K.taken out.old) (K.taken out.new)
            (reply_if self.now (is_hart self.now h)
            (telling self.now (registers_shown L.E.P.Tag.eq L.E.P.model self.now h))).pieces
            result }
        ensures cause { ObeyCause (K.faults out.old) (K.faults out.new) result }
    {
        if !self.is_hart(h) {
            return self.refuse(out);
        }
        put_listing(&self.engine, Listing::Registers(h), REGISTERS, out)
    }

    /// `pc H`: the pc of hart `H`.
    pub(crate) fn pc<K: Sink>(&self, h: u32, out: &mut K) -> Result<(), ObeyEnd>
        ensures puts { PutsOut (K.taken out.old) (K.taken out.new)
            (reply_if self.now (is_hart self.now h)
            (telling self.now (pc_shown L.E.P.Tag.eq L.E.P.model self.now h))).pieces result }
        ensures cause { ObeyCause (K.faults out.old) (K.faults out.new) result }
    {
        if !self.is_hart(h) {
            return self.refuse(out);
        }
        put_pc(
            self.engine.pc(h),
            self.engine.policy(),
            self.engine.pc_tag(h),
            out,
        )
    }

    /// `mem A N`: `N` words of memory from address `A` on.
    #[tactic(auto, unfolding(crate::specs::Replies::words_shown))]
    pub(crate) fn words<K: Sink>(
        &self,
        address: u32,
        count: u32,
        out: &mut K,
    ) -> Result<(), ObeyEnd>
        ensures puts { PutsOut (K.taken out.old) (K.taken out.new)
            (reply_if self.now (is_range self.now address count)
            (telling self.now (words_shown L.E.P.Tag.eq L.E.P.model self.now address count))).pieces
            result }
        ensures cause { ObeyCause (K.faults out.old) (K.faults out.new) result }
    {
        if !self.is_range(address, count) {
            return self.refuse(out);
        }
        put_listing(&self.engine, Listing::Words(address), count, out)
    }

    /// `tags A N`: the tags of these words.
    #[tactic(auto, unfolding(crate::specs::Replies::tags_shown))]
    pub(crate) fn tags<K: Sink>(&self, address: u32, count: u32, out: &mut K) -> Result<(), ObeyEnd>
        ensures puts { PutsOut (K.taken out.old) (K.taken out.new)
            (reply_if self.now (is_range self.now address count)
            (telling self.now (tags_shown L.E.P.Tag.eq L.E.P.model self.now address count))).pieces
            result }
        ensures cause { ObeyCause (K.faults out.old) (K.faults out.new) result }
    {
        if !self.is_range(address, count) {
            return self.refuse(out);
        }
        put_listing(&self.engine, Listing::Tags(address), count, out)
    }

    /// `dis A N`: these words, each with the statement of assembler source that stands for it at its address.
    #[tactic(auto, unfolding(crate::specs::Replies::statements_shown))]
    pub(crate) fn statements<K: Sink>(
        &self,
        address: u32,
        count: u32,
        out: &mut K,
    ) -> Result<(), ObeyEnd>
        ensures puts { PutsOut (K.taken out.old) (K.taken out.new)
            (reply_if self.now (is_range self.now address count)
            (telling self.now
            (statements_shown L.E.P.Tag.eq L.E.P.model self.now address count))).pieces result }
        ensures cause { ObeyCause (K.faults out.old) (K.faults out.new) result }
    {
        if !self.is_range(address, count) {
            return self.refuse(out);
        }
        put_listing(&self.engine, Listing::Statements(address), count, out)
    }

    /// `why H`: that hart `H` is ready, or why it stopped.
    pub(crate) fn why<K: Sink>(&self, h: u32, out: &mut K) -> Result<(), ObeyEnd>
        ensures puts { PutsOut (K.taken out.old) (K.taken out.new)
            (reply_if self.now (is_hart self.now h)
            (telling self.now (why_shown L.E.P.Tag.eq L.E.P.model self.now h))).pieces result }
        ensures cause { ObeyCause (K.faults out.old) (K.faults out.new) result }
    {
        if !self.is_hart(h) {
            return self.refuse(out);
        }
        match self.engine.stop(h) {
            None => put_ready(h, out),
            Some(why) => put_stop_line(h, why, out),
        }
    }

    /// `blocks`: the live blocks of the heap.
    #[tactic(auto, unfolding(crate::specs::Replies::blocks_shown))]
    pub(crate) fn blocks<K: Sink>(&self, out: &mut K) -> Result<(), ObeyEnd>
        ensures puts { PutsOut (K.taken out.old) (K.taken out.new)
            (blocks_shown L.E.P.Tag.eq L.E.P.model self.now) result }
        ensures cause { ObeyCause (K.faults out.old) (K.faults out.new) result }
    {
        put_blocks(&self.engine, out)
    }

    /// `stats`: the counts of turns, hits and misses.
    pub(crate) fn stats<K: Sink>(&self, out: &mut K) -> Result<(), ObeyEnd>
        ensures puts { PutsOut (K.taken out.old) (K.taken out.new)
            (stats_shown L.E.P.Tag.eq L.E.P.model self.now) result }
        ensures cause { ObeyCause (K.faults out.old) (K.faults out.new) result }
    {
        put_stats(self.engine.counts(), out)
    }

    /// `sweeps`: the count of sweeps, which give tag numbers back.
    pub(crate) fn sweeps<K: Sink>(&self, out: &mut K) -> Result<(), ObeyEnd>
        ensures puts { PutsOut (K.taken out.old) (K.taken out.new)
            (sweeps_shown L.E.P.Tag.eq L.E.P.model self.now) result }
        ensures cause { ObeyCause (K.faults out.old) (K.faults out.new) result }
    {
        put_sweeps(self.engine.counts().sweeps, out)
    }
}
