//! A source in memory that never fails.

ghost use Rattle.std.specs.Prelude.{◌≡◌, IfOk};

use crate::source::{Next, Source};
use std::alloc::{AllocError, Global};
use std::marker::Model;

/// A source in memory that never fails, seen as the bytes left.
#[derive(Drop)]
pub struct SteadySource {
    bytes: Vec<u8>,
    at: usize,
}

impl Model for SteadySource {
    ghost use Rattle.std.specs.Prelude.{ℕ, ◌≤◌, List, drop, length};

    ghost Value = { List ℕ };

    ghost view = { λ s. drop s.at s.bytes.items };

    ghost invariant = { λ s. s.at ≤ length s.bytes.items };
}

impl SteadySource {
    /// A source of these bytes.
    pub fn new(alloc: Global, bytes: &[u8]) -> Result<SteadySource, AllocError>
        ensures left { IfOk result (λ source. source ≡ bytes.now) }
    {
        Ok(SteadySource {
            bytes: Vec::from_slice(alloc, bytes)?,
            at: 0,
        })
    }

    /// The bytes left.
    pub fn bytes(&self) -> &[u8]
        ensures left { result.now ≡ self.now }
    {
        &self.bytes[self.at..]
    }
}

impl Source for SteadySource {
    ghost use Rattle.std.specs.Prelude.{Some};

    ghost left = { λ s. Some s };

    ghost faults = { λ s. 0 };

    fn next(&mut self) -> Next {
        if self.at == self.bytes.len() {
            return Next::End;
        }
        let byte = self.bytes[self.at];
        self.at += 1;
        Next::Byte(byte)
    }
}
