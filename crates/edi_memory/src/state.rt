//! The state of a system in memory.

ghost use Rattle.std.specs.Prelude.{◌≡◌, ◌≤◌, length};
ghost use Rattle.std.specs.Option.{ForSome};
ghost use Rattle.edi_calls.specs.State.{most_bytes};

use crate::stored::StoredFile;
use edi_calls::Outside;
use std::alloc::Global;
use std::collections::VecDeque;

/// The file that is being read.
#[derive(Debug, Drop)]
pub(crate) struct Reading {
    pub title: Vec<u8>,
    pub position: usize,
}

/// Why a call is not answered.
#[derive(Clone, Copy, Debug, PartialEq, Eq, Drop)]
pub(crate) enum Stop {
    /// There is no found file, or no file that is being written.
    NoFile,
    /// The file that is written has its greatest length already.
    FileLimit,
    /// There was no memory for what this object was to take.
    Failed(Outside),
}

/// The state of a system in memory.
#[derive(Drop)]
pub(crate) struct MemoryState {
    pub alloc: Global,
    pub input: VecDeque<u8>,
    pub shown: Vec<u8>,
    pub printed: Vec<u8>,
    pub slots: Vec<Option<StoredFile>>,
    pub blocks: u32,
    pub found: Option<Reading>,
    pub buffer: Option<Vec<u8>>,
    ghost slot_count: { length slots.items ≡ 256 },
    ghost limit: { ForSome buffer (λ bytes. length bytes.items ≤ most_bytes) },
}
