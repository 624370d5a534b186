//! A sink in memory of which chosen calls fail.

ghost use Rattle.std.specs.Prelude.{◌≡◌, ◌-◌, ◌++◌, ◌⊎◌, ◌<◌, ◌↔◌, IfOk, IsTrue, [], length, take, min, if◌then◌else◌};
ghost use Rattle.edi_host.specs.Plan.{planned, strikes, after_call};
ghost use Rattle.edi_host.specs.Streams.{put_gives, put_fault};

use crate::plan::FaultPlan;
use crate::sink::{Put, PutEnd, Sink};
use std::alloc::{AllocError, Global};
use std::marker::Model;

/// A sink in memory that takes no more than its capacity, of which chosen calls fail.
#[derive(Drop)]
pub struct MemorySink {
    bytes: Vec<u8>,
    capacity: usize,
    plan: FaultPlan,
}

impl Model for MemorySink {
    ghost use Rattle.std.specs.Prelude.{◌≤◌, length, vec_capacity};
    ghost use Rattle.edi_host.specs.Forms.{FailingSink};

    ghost Value = { FailingSink };

    ghost view = { λ s. record { bytes = s.bytes.items; capacity = s.capacity; plan = s.plan } };

    ghost invariant = { λ s. (length s.bytes.items ≤ s.capacity) × (s.capacity ≤ vec_capacity s.bytes) };
}

impl MemorySink {
    /// An empty sink that takes `capacity` bytes in all. The calls of `put` whose numbers, counted from 1,
    /// are in `failing` fail. The room for the bytes is made here, so that a put takes no memory.
    pub fn new(alloc: Global, capacity: usize, failing: &[u64]) -> Result<MemorySink, AllocError>
        ensures made { IfOk result (λ sink. sink ≡ record { bytes = []; capacity = capacity; plan = planned failing.now }) }
    {
        Ok(MemorySink {
            bytes: Vec::with_capacity(alloc, capacity)?,
            capacity,
            plan: FaultPlan::new(alloc, failing)?,
        })
    }

    /// The bytes taken.
    pub fn bytes(&self) -> &[u8]
        ensures taken { result.now ≡ self.now.bytes }
    {
        self.bytes.as_slice()
    }
}

impl Sink for MemorySink {
    ghost use Rattle.std.specs.Prelude.{Some};

    ghost taken = { λ s. Some s.bytes };

    ghost faults = { λ s. s.plan.faults };

    /// A call that is to fail takes nothing. A piece beyond the capacity is taken as far as it fits, and
    /// that is a fault.
    fn put(&mut self, piece: &[u8]) -> Put
        ensures gives { result ≡ put_gives (strikes self.old.plan) (self.old.capacity - length self.old.bytes) (length piece.now) }
        ensures appends { self.new.bytes ≡ self.old.bytes ++ take result.taken piece.now }
        ensures capacity { self.new.capacity ≡ self.old.capacity }
        ensures plan { self.new.plan ≡ after_call (put_fault result) self.old.plan }
    {
        if self.plan.strikes() {
            self.plan.count(true);
            return Put {
                taken: 0,
                end: PutEnd::Failed,
            };
        }
        let taken = piece.len().min(self.capacity - self.bytes.len());
        let _ = self.bytes.extend_from_slice(&piece[..taken]);
        let whole = taken == piece.len();
        self.plan.count(!whole);
        let end = if whole { PutEnd::Ok } else { PutEnd::Failed };
        Put { taken, end }
    }
}
