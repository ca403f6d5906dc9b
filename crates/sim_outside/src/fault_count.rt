//! How often a source or a sink has failed.
ghost use Rattle.std.specs.Prelude.{◌≡◌, ◌≤◌};
ghost use Rattle.sim_outside.specs.Causes.{raised, Rose};

use crate::fault::Failed;
use std::marker::Model;

/// A count of faults. It stands at 2^64 - 1.
#[derive(Drop)]
pub(crate) struct FaultCount {
    count: u64,
}

impl Model for FaultCount {
    ghost use Rattle.std.specs.Prelude.{ℕ};

    ghost Value = { ℕ };

    ghost view = { λ a. a.count };
}

impl FaultCount {
    pub(crate) fn new() -> FaultCount
        ensures { result ≡ 0 }
    {
        FaultCount { count: 0 }
    }

    /// Counts a fault and gives the answer for it.
    pub(crate) fn fail(&mut self) -> Failed
        ensures count { self.new ≡ raised self.old }
        ensures never_falls { self.old ≤ self.new }
        ensures rose { Rose self.old self.new }
    {
        self.count = self.count.saturating_add(1);
        Failed
    }
}
