//! A sink in memory that never fails.

ghost use Rattle.std.specs.Prelude.{◌≡◌, ◌+◌, ◌++◌, ◌≤◌, ◌&&◌, IfOk, [], true, length, take, nat_le};

use crate::sink::{Put, PutEnd, Sink};
use std::alloc::{AllocError, Global};
use std::marker::Model;

/// A sink in memory that takes every piece, and keeps the first `capacity` bytes. It tells its bytes as
/// long as it has kept them all.
#[derive(Drop)]
pub struct SteadySink {
    bytes: Vec<u8>,
    capacity: usize,
    kept_all: bool,
}

impl Model for SteadySink {
    ghost use Rattle.std.specs.Prelude.{◌≤◌, length, vec_capacity};
    ghost use Rattle.edi_host.specs.Forms.{KeepingSink};

    ghost Value = { KeepingSink };

    ghost view = { λ s. record { bytes = s.bytes.items; capacity = s.capacity; kept_all = s.kept_all } };

    ghost invariant = { λ s. (length s.bytes.items ≤ s.capacity) × (s.capacity ≤ vec_capacity s.bytes) };
}

impl SteadySink {
    /// An empty sink that keeps the first `capacity` bytes. Their room is made here, so that a put takes
    /// no memory.
    pub fn new(alloc: Global, capacity: usize) -> Result<SteadySink, AllocError>
        ensures made { IfOk result (λ sink. sink ≡ record { bytes = []; capacity = capacity; kept_all = true }) }
    {
        Ok(SteadySink {
            bytes: Vec::with_capacity(alloc, capacity)?,
            capacity,
            kept_all: true,
        })
    }

    /// The bytes kept.
    pub fn bytes(&self) -> &[u8]
        ensures kept { result.now ≡ self.now.bytes }
    {
        self.bytes.as_slice()
    }
}

impl Sink for SteadySink {
    ghost use Rattle.std.specs.Prelude.{Some, None, if◌then◌else◌};

    ghost taken = { λ s. if s.kept_all then Some s.bytes else None };

    ghost faults = { λ s. 0 };

    fn put(&mut self, piece: &[u8]) -> Put
        ensures all { result ≡ record { taken = length piece.now; end = PutEnd.Ok } }
        ensures kept { self.new.bytes ≡ take self.old.capacity (self.old.bytes ++ piece.now) }
        ensures capacity { self.new.capacity ≡ self.old.capacity }
        ensures tells { self.new.kept_all ≡ (self.old.kept_all && nat_le (length self.old.bytes + length piece.now) self.old.capacity) }
    {
        let room = self.capacity - self.bytes.len();
        if piece.len() > room {
            self.kept_all = false;
        }
        let _ = self
            .bytes
            .extend_from_slice(&piece[..piece.len().min(room)]);
        Put {
            taken: piece.len(),
            end: PutEnd::Ok,
        }
    }
}
