//! The log.

ghost use Rattle.std.specs.Prelude.{◌≡◌, ◌+◌, ◌≤◌, ◌++◌, [], length, if◌then◌else◌, IfOk, true, false};
ghost use Rattle.std.specs.Vec.{vec_capacity};
ghost use Rattle.edi_debug.specs.stops.Kept.{after_line};

use std::alloc::{AllocError, Global};
use std::marker::Model;

/// The bytes that a log may have.
const MOST_LOGGED: usize = 1_048_576;

/// A log: the longest beginning of whole lines that fits into 1,048,576 bytes. The room for it is made at the start, so that it
/// takes no memory to log.
#[derive(Drop)]
pub struct Log {
    bytes: Vec<u8>,
    /// Whether a line did not fit.
    full: bool,
}

impl Model for Log {
    ghost use Rattle.edi_debug.specs.stops.Kept.{Kept};
    ghost use Rattle.edi_debug.specs.Kept.{kept_of, is_log};

    ghost Value = { Kept };

    ghost view = { kept_of };

    ghost invariant = { is_log };
}

/// Puts bytes behind others, for which there is room.
fn append(bytes: &mut Vec<u8>, line: &[u8])
    requires room { length bytes.old.items + length line.now ≤ 1048576 }
    requires made { 1048576 ≤ vec_capacity bytes.old }
    ensures exact { bytes.new.items ≡ bytes.old.items ++ line.now }
    ensures room { vec_capacity bytes.new ≡ vec_capacity bytes.old }
{
    for c in line {
        bytes.push_reserved(*c);
    }
}

impl Log {
    /// An empty log. All its memory is taken here; the only error is want of memory.
    pub fn new(alloc: Global) -> Result<Log, AllocError>
        ensures empty { IfOk result (λ log. log ≡ record { bytes = []; full = false }) }
    {
        Ok(Log {
            bytes: Vec::with_capacity(alloc, MOST_LOGGED)?,
            full: false,
        })
    }

    /// The lines that were logged, one behind another.
    pub fn bytes(&self) -> &[u8]
        ensures exact { result.now ≡ self.now.bytes }
    {
        &self.bytes
    }

    /// Logs a line, unless it or one before it does not fit.
    pub(crate) fn add(&mut self, line: &[u8])
        ensures exact { self.new ≡ after_line line.now self.old }
    {
        if self.full || line.len() > MOST_LOGGED - self.bytes.len() {
            self.full = true;
        } else {
            append(&mut self.bytes, line);
        }
    }
}
