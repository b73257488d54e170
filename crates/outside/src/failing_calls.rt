ghost use Rattle.std.specs.Prelude.{◌≡◌, ◌↔◌, Contains, IsTrue, IfOk};
ghost use Rattle.outside.specs.CallsState.{after_call};

use std::alloc::{AllocError, Global};
use std::marker::Model;

/// Calls on an object in memory, of which some are to fail. The object asks at each call whether it does.
#[derive(Debug, Drop)]
pub struct FailingCalls {
    failing: Vec<u64>,
    calls: u64,
    faults: u64,
}

impl Model for FailingCalls {
    ghost use Rattle.outside.specs.CallsState.{CallsState};

    ghost Value = { CallsState };

    ghost view = { λ c. record { failing = c.failing.items; calls = c.calls; faults = c.faults } };
}

impl FailingCalls {
    /// No call yet. Those with these numbers, from 0, are to fail.
    pub fn new(alloc: Global, failing: &[u64]) -> Result<FailingCalls, AllocError>
        ensures { IfOk result (λ calls. calls ≡ record { failing = failing.now; calls = 0; faults = 0 }) }
    {
        Ok(FailingCalls {
            failing: failing.to_vec(alloc)?,
            calls: 0,
            faults: 0,
        })
    }

    /// Counts the next call, and says whether it fails. Both counts stop at the last value of a `u64`.
    pub fn next_fails(&mut self) -> bool
        ensures fails { IsTrue result ↔ Contains self.old.failing self.old.calls }
        ensures counted { self.new ≡ after_call result self.old }
    {
        let fails = self.failing.contains(&self.calls);
        self.calls = self.calls.saturating_add(1);
        if fails {
            self.faults = self.faults.saturating_add(1);
        }
        fails
    }
}
