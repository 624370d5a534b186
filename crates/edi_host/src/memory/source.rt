//! A source in memory of which chosen calls fail.

ghost use Rattle.std.specs.Prelude.{◌≡◌, ◌<◌, ◌↔◌, IfOk, IsTrue, length};
ghost use Rattle.edi_host.specs.Plan.{planned, strikes, after_call};
ghost use Rattle.edi_host.specs.Streams.{Takes, next_fault};

use crate::plan::FaultPlan;
use crate::source::{Next, Source};
use crate::steady::source::SteadySource;
use std::alloc::{AllocError, Global};
use std::marker::Model;

/// A source in memory of which chosen calls fail.
#[derive(Drop)]
pub struct MemorySource {
    source: SteadySource,
    plan: FaultPlan,
}

impl Model for MemorySource {
    ghost use Rattle.edi_host.specs.Forms.{FailingSource};

    ghost Value = { FailingSource };

    ghost view = { λ s. record { left = s.source; plan = s.plan } };
}

impl MemorySource {
    /// A source of these bytes. The calls of `next` whose numbers, counted from 1, are in `failing` fail.
    pub fn new(alloc: Global, bytes: &[u8], failing: &[u64]) -> Result<MemorySource, AllocError>
        ensures made { IfOk result (λ source. source ≡ record { left = bytes.now; plan = planned failing.now }) }
    {
        Ok(MemorySource {
            source: SteadySource::new(alloc, bytes)?,
            plan: FaultPlan::new(alloc, failing)?,
        })
    }

    /// The bytes left.
    pub fn bytes(&self) -> &[u8]
        ensures left { result.now ≡ self.now.left }
    {
        self.source.bytes()
    }
}

impl Source for MemorySource {
    ghost use Rattle.std.specs.Prelude.{Some};

    ghost left = { λ s. Some s.left };

    ghost faults = { λ s. s.plan.faults };

    fn next(&mut self) -> Next
        ensures takes { Takes result self.old.left self.new.left }
        ensures fails { result ≡ Next.Failed ↔ (IsTrue (strikes self.old.plan) × 0 < length self.old.left) }
        ensures plan { self.new.plan ≡ after_call (next_fault result) self.old.plan }
    {
        let fault = self.plan.strikes() && !self.source.bytes().is_empty();
        self.plan.count(fault);
        if fault {
            return Next::Failed;
        }
        self.source.next()
    }
}
