//! A system in memory, for tests and for programs that keep no files.

ghost use Rattle.std.specs.Prelude.{◌≡◌, ◌≤◌, length, replicate, None, IfOk, OnErr};
ghost use Rattle.std.specs.Option.{option_copied};
ghost use Rattle.edi_calls.specs.State.{fresh, free, find_file, slot_at};
ghost use Rattle.edi_memory.specs.MemoryCalls.{system_of, faults_of, failed_of, CallsBegin, Adds, IsSameElsewhere};

use crate::faults::Faults;
use crate::state::{MemoryState, Stop};
use crate::stored::StoredFile;
use edi_calls::{CallEnd, Calls, FileKind, Outside};
use std::alloc::{AllocError, Global};
use std::collections::VecDeque;

/// The number of slots for files.
const SLOTS: usize = 256;

/// A system in memory. A call for which memory is wanting fails the object that was to take it: the terminal, the
/// printer, or the drive for titles and files.
#[derive(Drop)]
pub struct MemoryCalls {
    system: MemoryState,
    faults: Faults,
    failed: Option<Outside>,
}

/// So many free slots.
fn free_slots(alloc: Global, count: usize) -> Result<Vec<Option<StoredFile>>, AllocError>
    ensures { IfOk result (λ slots. slots.items ≡ replicate count None) }
{
    let mut slots = Vec::with_capacity(alloc, count)?;
    for _index in 0..count {
        slots.push(None)?;
    }
    Ok(slots)
}

impl MemoryCalls {
    /// A system with this input, a disk of so many blocks, and no files. No disk is one of 0 blocks.
    pub fn new(alloc: Global, input: &[u8], blocks: u32) -> Result<MemoryCalls, AllocError>
        ensures { IfOk result (λ calls. CallsBegin calls input.now blocks) }
    {
        let system = MemoryState {
            alloc,
            input: VecDeque::from(Vec::from_slice(alloc, input)?),
            shown: Vec::new(alloc),
            printed: Vec::new(alloc),
            slots: free_slots(alloc, SLOTS)?,
            blocks,
            found: None,
            buffer: None,
        };
        Ok(MemoryCalls {
            system,
            faults: Faults::new(),
            failed: None,
        })
    }

    /// Puts a new file into the first free slot, and tells whether it could: not where these characters are no
    /// title, a file has the title, the bytes are more than 261,120, no slot is free, or too few blocks are free.
    /// Then nothing changes.
    pub fn add(
        &mut self,
        alloc: Global,
        title: &[u8],
        kind: FileKind,
        protected: bool,
        bytes: &[u8],
    ) -> Result<bool, AllocError>
        ensures exact { IfOk result (λ added. Adds added (system_of self.old) (system_of self.new)
            (record { title = title.now; kind = kind; protected = protected; bytes = bytes.now })) }
        ensures err { OnErr result (system_of self.new ≡ system_of self.old) }
        ensures others { IsSameElsewhere self.old self.new }
    {
        let Some(index) = self.system.new_index(title, bytes.len()) else {
            return Ok(false);
        };
        let title = Vec::from_slice(alloc, title)?;
        let bytes = Vec::from_slice(alloc, bytes)?;
        self.system.slots[index] = Some(StoredFile::new(title, kind, protected, bytes));
        Ok(true)
    }

    /// Closes all files, as at the start of each program.
    pub fn fresh(&mut self)
        ensures system { system_of self.new ≡ fresh (system_of self.old) }
        ensures others { IsSameElsewhere self.old self.new }
    {
        self.system.found = None;
        self.system.buffer = None;
    }

    /// The bytes that were shown.
    pub fn shown(&self) -> &[u8]
        ensures { result.now ≡ (system_of self.now).shown }
    {
        &self.system.shown
    }

    /// The bytes that were printed.
    pub fn printed(&self) -> &[u8]
        ensures { result.now ≡ (system_of self.now).printed }
    {
        &self.system.printed
    }

    /// The file with this title.
    pub fn file(&self, title: &[u8]) -> Option<&StoredFile>
        ensures { option_copied result ≡ find_file (system_of self.now).slots title.now }
    {
        self.system.file(title)
    }

    /// The file in the slot of this index; none where the slot is free, or the index is not below 256.
    pub fn slot(&self, index: usize) -> Option<&StoredFile>
        ensures { option_copied result ≡ slot_at (system_of self.now).slots index }
    {
        match self.system.slots.get(index) {
            Some(slot) => slot.as_ref(),
            None => None,
        }
    }

    /// The number of free blocks.
    pub fn free_blocks(&self) -> usize
        ensures { result ≡ free (system_of self.now) }
    {
        self.system.free()
    }

    /// How often this object has failed. The count stands still at `u64::MAX`.
    pub fn faults(&self, outside: Outside) -> u64
        ensures { result ≡ faults_of self.now outside }
    {
        self.faults.count(outside)
    }

    /// The object that has failed, if one has.
    pub fn failed(&self) -> Option<Outside>
        ensures { result ≡ failed_of self.now }
    {
        self.failed
    }
}

impl Calls for MemoryCalls {
    ghost use Rattle.std.specs.Prelude.{◌≡◌, Some, [], ⊤};
    ghost use Rattle.std.proofs.Common.{sym, ◌∙◌};
    ghost use Rattle.edi_memory.specs.MemoryCalls.{system_of, faults_of, failed_of};

    ghost state = { λ calls. Some (system_of calls) };

    ghost faults = { faults_of };

    ghost failed = { λ calls outside. failed_of calls ≡ outside };

    ghost references = { λ calls. [] };

    ghost leads = { λ start calls. ⊤ };

    ghost one_failed = { λ calls one other p q. sym p ∙ q };

    fn call(&mut self, number: u8, args: &[u16], answer: &mut [u16]) -> CallEnd {
        match self.system.step(number, args) {
            Ok(word) => {
                if let Some(word) = word {
                    answer[0] = word;
                }
                CallEnd::Ok
            }
            Err(Stop::NoFile) => CallEnd::NoFile,
            Err(Stop::FileLimit) => CallEnd::FileLimit,
            Err(Stop::Failed(outside)) => {
                self.faults = self.faults.risen(outside);
                self.failed = Some(outside);
                CallEnd::OutsideFault
            }
        }
    }
}
