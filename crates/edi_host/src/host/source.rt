//! The adapter over a reader, as standard input.

ghost use Rattle.std.specs.Prelude.{◌≡◌};
ghost use Rattle.edi_host.specs.Plan.{faults_after};
ghost use Rattle.edi_host.specs.Streams.{next_fault};

use crate::host::transfer::read_some;
use crate::source::{Next, Source};
use edi_told::one_more;
use std::io::Read;
use std::marker::Model;

/// A source over a reader. It reads ahead, so that a byte does not cost a call of the host; the bytes that
/// came before a fault are given before it, and after the end it reads no more.
#[derive(Drop)]
pub struct HostSource<R: Read + Drop> {
    inner: R,
    buffer: [u8; 4096],
    at: usize,
    filled: usize,
    ended: bool,
    faults: u64,
}

impl<R: Read + Drop> Model for HostSource<R> {
    ghost use Rattle.std.specs.Prelude.{◌≤◌};
    ghost use Rattle.edi_host.specs.Forms.{Untold};

    ghost Value = { Untold };

    ghost view = { λ s. record { faults = s.faults } };

    ghost invariant = { λ s. (s.at ≤ s.filled) × (s.filled ≤ 4096) };
}

impl<R: Read + Drop> HostSource<R> {
    /// A source over this reader.
    pub fn new(inner: R) -> Self
        ensures no_faults { result.faults ≡ 0 }
    {
        HostSource {
            inner,
            buffer: [0; 4096],
            at: 0,
            filled: 0,
            ended: false,
            faults: 0,
        }
    }
}

impl<R: Read + Drop> Source for HostSource<R> {
    ghost use Rattle.std.specs.Prelude.{None};

    ghost left = { λ s. None };

    ghost faults = { λ s. s.faults };

    fn next(&mut self) -> Next
        ensures faults { self.new.faults ≡ faults_after (next_fault result) self.old.faults }
    {
        if self.at == self.filled && !self.ended {
            let Ok(count) = read_some(&mut self.inner, &mut self.buffer) else {
                self.faults = one_more(self.faults);
                return Next::Failed;
            };
            self.at = 0;
            self.filled = count;
            self.ended = count == 0;
        }
        if self.at == self.filled {
            return Next::End;
        }
        let byte = self.buffer[self.at];
        self.at += 1;
        Next::Byte(byte)
    }
}
