//! Which numbered calls are to fail.

ghost use Rattle.std.specs.Prelude.{◌≡◌};
ghost use Rattle.host_io.specs.FaultPlan.{fresh_calls, fails_next, calls_after};

use std::marker::Model;

/// The numbers of the calls that are to fail, and the number of the next call. Calls are numbered
/// from 0, and the number stands still at 2^64 - 1.
#[derive(Drop)]
pub struct CallPlan {
    fails: Vec<u64>,
    next: u64,
}

impl Model for CallPlan {
    ghost use Rattle.host_io.specs.FaultPlan.{Calls};

    ghost Value = { Calls };

    ghost view = { λ p. record { fails = p.fails.items; next = p.next } };
}

impl CallPlan {
    /// The calls of these numbers are to fail.
    pub fn new(fails: Vec<u64>) -> CallPlan
        ensures { result ≡ fresh_calls fails.items }
    {
        CallPlan { fails, next: 0 }
    }

    /// The number of the next call.
    pub fn next_call(&self) -> u64
        ensures { result ≡ self.now.next }
    {
        self.next
    }

    /// Takes the next number for a call, and says whether that call is to fail.
    pub fn take_call(&mut self) -> bool
        ensures answer { result ≡ fails_next self.old }
        ensures calls { self.new ≡ calls_after self.old }
    {
        let failing = self.fails.contains(&self.next);
        self.next = self.next.saturating_add(1);
        failing
    }
}
