//! Which calls on a form in memory fail.

ghost use Rattle.std.specs.Prelude.{◌≡◌, IfOk};
ghost use Rattle.edi_host.specs.Plan.{planned, strikes, after_call};

use edi_told::one_more;
use std::alloc::{AllocError, Global};
use std::marker::Model;

/// The numbers of the calls that are to fail, counted from 1, with the calls and the faults so far.
#[derive(Drop)]
pub struct FaultPlan {
    failing: Vec<u64>,
    calls: u64,
    faults: u64,
}

impl Model for FaultPlan {
    ghost use Rattle.edi_host.specs.Plan.{Plan};

    ghost Value = { Plan };

    ghost view = { λ p. record { failing = p.failing.items; calls = p.calls; faults = p.faults } };
}

impl FaultPlan {
    /// The plan before the first call.
    pub fn new(alloc: Global, failing: &[u64]) -> Result<FaultPlan, AllocError>
        ensures planned { IfOk result (λ plan. plan ≡ planned failing.now) }
    {
        Ok(FaultPlan {
            failing: Vec::from_slice(alloc, failing)?,
            calls: 0,
            faults: 0,
        })
    }

    /// Whether the next call is to fail.
    pub fn strikes(&self) -> bool
        ensures strikes { result ≡ strikes self.now }
    {
        self.failing.contains(&self.calls.saturating_add(1))
    }

    /// Whether the next call is to fail, which is counted as a fault or as none.
    pub fn call(&mut self) -> bool
        ensures strikes { result ≡ strikes self.old }
        ensures counted { self.new ≡ after_call (strikes self.old) self.old }
    {
        let fault = self.strikes();
        self.count(fault);
        fault
    }

    /// Counts a call, and a fault where it was one.
    pub fn count(&mut self, fault: bool)
        ensures counted { self.new ≡ after_call fault self.old }
    {
        self.calls = self.calls.saturating_add(1);
        if fault {
            self.faults = one_more(self.faults);
        }
    }
}
