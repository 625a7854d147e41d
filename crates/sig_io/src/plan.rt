//! Which calls of an object in memory fail.
ghost use Rattle.std.specs.Prelude.{◌≡◌, MatchBool};
ghost use Rattle.sig_io.specs.Causes.{Rose};
ghost use Rattle.sig_io.specs.Memory.{new_plan, is_next_listed, after_call};

use crate::faults::after_fault;
use std::marker::Model;

/// Counts the calls of an object and fails those whose numbers are listed. The first call has number 1. Both counts end
/// at the greatest `u64` and stay there.
#[derive(Debug, Drop)]
pub(crate) struct FaultPlan {
    failing: Vec<u64>,
    calls: u64,
    faults: u64,
}

impl Model for FaultPlan {
    ghost use Rattle.sig_io.specs.Memory.{Plan};

    ghost Value = { Plan };

    ghost view = { λ p. record { failing = p.failing.items; calls = p.calls; faults = p.faults } };
}

impl FaultPlan {
    pub(crate) fn new(failing: Vec<u64>) -> FaultPlan
        ensures { result ≡ new_plan failing.items }
    {
        FaultPlan {
            failing,
            calls: 0,
            faults: 0,
        }
    }

    /// Counts one more call, and a fault where it is to fail.
    pub(crate) fn next_fails(&mut self) -> bool
        ensures listed { result ≡ is_next_listed self.old }
        ensures counted { self.new ≡ after_call self.old }
        ensures rose { MatchBool result (Rose self.old.faults self.new.faults) (self.new.faults ≡ self.old.faults) }
    {
        self.calls = self.calls.saturating_add(1);
        let fails = self.failing.contains(&self.calls);
        if fails {
            self.faults = after_fault(self.faults);
        }
        fails
    }
}
