//! Which calls are to fail, and how many were made.
ghost use Rattle.std.specs.Prelude.{◌≡◌, ◌↔◌, ◌+◌, ◌-◌, ◌^◌, ◌<◌, ◌≤◌, min, false, IsTrue};
ghost use Rattle.dv_outside_mem.specs.Plan.{Plan, Fails, entered, faulted};

use std::marker::Model;

/// The numbers of the calls that fail, counted from 0, with the counts of calls and of faults so far.
#[derive(Drop)]
pub struct FaultPlan {
    failing: Vec<u64>,
    calls: u64,
    faults: u64,
}

impl Model for FaultPlan {
    ghost Value = { Plan };

    ghost view = { λ p. record { failing = p.failing.items; calls = p.calls; faults = p.faults } };
}

impl FaultPlan {
    /// No call was made yet.
    pub fn new(failing: Vec<u64>) -> FaultPlan
        ensures { result ≡ record { failing = failing.items; calls = 0; faults = 0 } }
    {
        FaultPlan {
            failing,
            calls: 0,
            faults: 0,
        }
    }

    /// Counts a call, and says whether it fails.
    pub fn enter(&mut self) -> bool
        ensures fails { IsTrue result ↔ Fails self.old }
        ensures counts { self.new ≡ entered self.old }
        ensures room { result ≡ false → self.old.calls < 2 ^ 64 - 1 }
    {
        let number = self.calls;
        self.calls = number.saturating_add(1);
        number == u64::MAX || self.failing.contains(&number)
    }

    /// Counts a fault.
    pub fn fault(&mut self)
        ensures counts { self.new ≡ faulted self.old }
        ensures later { self.old.faults ≤ self.new.faults }
    {
        self.faults = self.faults.saturating_add(1);
    }
}
