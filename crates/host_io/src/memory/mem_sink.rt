//! A sink in memory whose chosen puts fail, some of them torn.

ghost use Rattle.std.specs.Prelude.{◌≡◌, ◌≢◌, ◌↔◌, ◌<◌, length, take, [], ◌++◌, Some, Err, IsOk, IsSome, IsSomeAnd, OnOk};
ghost use Rattle.host_io.specs.Causes.{PutCause};
ghost use Rattle.host_io.specs.FaultPlan.{fresh_plan, calls_after};
ghost use Rattle.host_io.specs.Memory.{after_call, cut_of, next_cut};
ghost use Rattle.host_io.specs.Prefixes.{TakesPrefix};
ghost use Rattle.shared_terms.specs.Counts.{next_count};

use super::call_plan::CallPlan;
use super::sure_sink::SureSink;
use crate::{PutEnd, Sink};
use std::alloc::Global;
use std::marker::Model;

/// A sink in memory that keeps the bytes it took. Its puts of pieces that have bytes are numbered
/// from 0, and those of the given numbers fail: they take nothing of their piece, or so many of its
/// first bytes.
#[derive(Drop)]
pub struct MemSink {
    sink: SureSink,
    calls: CallPlan,
    cuts: Vec<(u64, usize)>,
    faults: u64,
}

impl Model for MemSink {
    ghost use Rattle.host_io.specs.Memory.{PlannedSink};

    ghost Value = { PlannedSink };

    ghost view = { λ s. record {
      bytes = s.sink;
      plan = record { calls = s.calls; faults = s.faults };
      cuts = s.cuts.items;
    } };
}

impl MemSink {
    /// A sink that has taken nothing, and whose puts of the numbers `fails` are to fail and to take
    /// nothing.
    pub fn new(alloc: Global, fails: Vec<u64>) -> MemSink
        ensures bytes { result.bytes ≡ [] }
        ensures plan { result.plan ≡ fresh_plan fails.items }
        ensures cuts { result.cuts ≡ [] }
    {
        MemSink {
            sink: SureSink::new(alloc),
            calls: CallPlan::new(fails),
            cuts: Vec::new(alloc),
            faults: 0,
        }
    }

    /// A sink that has taken nothing, and whose puts are to fail that `cuts` pairs with how many
    /// first bytes they take: all where the piece has no more.
    pub fn torn(alloc: Global, cuts: Vec<(u64, usize)>) -> MemSink
        ensures bytes { result.bytes ≡ [] }
        ensures plan { result.plan ≡ fresh_plan [] }
        ensures cuts { result.cuts ≡ cuts.items }
    {
        MemSink {
            sink: SureSink::new(alloc),
            calls: CallPlan::new(Vec::new(alloc)),
            cuts,
            faults: 0,
        }
    }

    /// The bytes taken so far.
    pub fn bytes(&self) -> &[u8]
        ensures { result.now ≡ self.now.bytes }
    {
        self.sink.bytes()
    }

    /// The number of the next put of a piece that has bytes.
    pub fn next_call(&self) -> u64
        ensures { result ≡ self.now.plan.calls.next }
    {
        self.calls.next_call()
    }

    /// How many puts failed so far. The count stands still at 2^64 - 1.
    pub fn faults(&self) -> u64
        ensures { result ≡ self.now.plan.faults }
    {
        self.faults
    }

    // Takes the next number for a put, and says how many bytes it takes before it fails, where it is
    // to fail.
    fn take_call(&mut self) -> Option<usize>
        ensures cut { result ≡ next_cut self.old }
        ensures numbered { self.new ≡ after_call self.old }
    {
        let number = self.calls.next_call();
        if self.calls.take_call() {
            return Some(0);
        }
        cut_at(&self.cuts, number)
    }
}

// How many bytes the put of that number takes, by its first pair.
fn cut_at(cuts: &[(u64, usize)], number: u64) -> Option<usize>
    ensures { result ≡ cut_of cuts.now number }
{
    cuts.iter().find(|cut| cut.0 == number).map(|cut| cut.1)
}

impl Sink for MemSink {
    ghost taken = { λ sink. Some sink.bytes };

    ghost faults = { λ sink. sink.plan.faults };

    fn put(&mut self, piece: &[u8]) -> Result<(), PutEnd>
        ensures ok { OnOk result (self.new.bytes ≡ self.old.bytes ++ piece.now) }
        ensures failed { result ≡ Err PutEnd.Failed → IsSomeAnd (next_cut self.old) (λ count.
            self.new.bytes ≡ self.old.bytes ++ take count piece.now) }
        ensures prefix { result ≡ Err PutEnd.Failed →
            TakesPrefix (Some self.old.bytes) (Some self.new.bytes) piece.now }
        ensures memory { result ≡ Err PutEnd.Memory → self.new.bytes ≡ self.old.bytes }
        ensures empty { length piece.now ≡ 0 → IsOk result }
        ensures cause { PutCause self.old.plan.faults self.new.plan.faults result }

        // The numbered puts fail exactly where that was planned, unless memory runs out, as it never
        // does where no byte is to be taken.
        ensures planned { result ≢ Err PutEnd.Memory → ((result ≡ Err PutEnd.Failed) ↔
            ((0 < length piece.now) × IsSome (next_cut self.old))) }
        ensures sure { next_cut self.old ≡ Some 0 → result ≢ Err PutEnd.Memory }
        ensures counted { result ≡ Err PutEnd.Failed →
            self.new.plan.faults ≡ next_count self.old.plan.faults }

        // A put of a piece that has bytes takes a number, whatever comes of it.
        ensures numbered { 0 < length piece.now →
            self.new.plan.calls ≡ calls_after self.old.plan.calls }
        ensures unnumbered { length piece.now ≡ 0 → self.new ≡ self.old }
        ensures cuts { self.new.cuts ≡ self.old.cuts }
    {
        if piece.is_empty() {
            return Ok(());
        }
        let Some(count) = self.take_call() else {
            return self.sink.put(piece);
        };
        self.sink.put(&piece[..count.min(piece.len())])?;
        self.faults = self.faults.saturating_add(1);
        Err(PutEnd::Failed)
    }
}
