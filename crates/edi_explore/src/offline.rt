//! The system of a program that is explored: its input, no disk, and no file.

ghost use Rattle.std.specs.Prelude.{◌≡◌, ◌≤◌, ◌%◌, length, [], None, true, IfOk, OnOk};
ghost use Rattle.std.specs.Option.{option_map};
ghost use Rattle.edi_calls.specs.Calls.{accept, argument_words, call, close, display, find, fresh_buffer, more, print, read, remove, write};
ghost use Rattle.edi_explored.specs.machine.Alike.{SameShown};
ghost use Rattle.edi_explore.specs.Offline.{offline};
ghost use Rattle.edi_explore.specs.Systems.{FailsUsed, IsPlaceOf, IsSameElsewhere, Reaches, system_of};

use edi_calls::{CallEnd, Calls, Outside};
use std::alloc::{AllocError, Global};

/// The greatest number of bytes of a file.
const MOST_BYTES: usize = 261_120;

/// The character that stands for the end of the input.
const END_OF_TEXT: u16 = 25;

/// Where a system stands between two stints.
#[derive(PartialEq, Eq, Hash, Drop)]
pub(crate) struct Place {
    /// The number of bytes of the input that were taken.
    pub(crate) taken: usize,
    /// The bytes of the file that is being written, if one is.
    pub(crate) buffer: Option<Vec<u8>>,
    /// What was shown, where output is looked at; else nothing.
    pub(crate) shown: Vec<u8>,
}

/// Why a call is not answered.
#[derive(Clone, Copy, Debug, PartialEq, Eq, Drop)]
pub(crate) enum Stop {
    /// There is no found file, or no file that is being written.
    NoFile,
    /// The file that is written has its greatest length already.
    FileLimit,
    /// There was no memory for what this object was to take.
    Failed(Outside),
}

/// A system with an input, and without disk and files.
#[derive(Drop)]
pub(crate) struct Offline {
    pub(crate) alloc: Global,
    input: Vec<u8>,
    /// The number of bytes of the input that were taken.
    taken: usize,
    /// The bytes of the file that is being written, if one is.
    buffer: Option<Vec<u8>>,
    shown: Vec<u8>,
    printed: Vec<u8>,
    failed: Option<Outside>,
    /// How often an object has failed. The number stands still at `u64::MAX`.
    faults: u64,
}

/// The same bytes again.
fn copied(alloc: Global, bytes: &Option<Vec<u8>>) -> Result<Option<Vec<u8>>, AllocError>
    ensures { IfOk result (λ copy. option_map (λ b. b.items) copy ≡ option_map (λ b. b.items) bytes.now) }
{
    match bytes {
        Some(bytes) => Ok(Some(Vec::from_slice(alloc, bytes)?)),
        None => Ok(None),
    }
}

/// A word as a character.
fn character(word: u16) -> u8
    ensures { result ≡ word % 128 }
{
    (word % 128) as u8
}

impl Offline {
    /// A system with this input. The only error is want of memory.
    pub(crate) fn new(alloc: Global, input: &[u8]) -> Result<Offline, AllocError>
        ensures system { IfOk result (λ o. system_of o ≡ offline input.now) }
        ensures input { IfOk result (λ o. o.input.items ≡ input.now) }
        ensures working { IfOk result (λ o. o.failed ≡ None) }
    {
        Ok(Offline {
            alloc,
            input: Vec::from_slice(alloc, input)?,
            taken: 0,
            buffer: None,
            shown: Vec::new(alloc),
            printed: Vec::new(alloc),
            failed: None,
            faults: 0,
        })
    }

    /// What was shown, if that is asked; else nothing.
    pub(crate) fn shown_if(&self, asks: bool) -> Result<Vec<u8>, AllocError>
        ensures { IfOk result (λ shown. SameShown asks shown.items self.now.shown.items) }
    {
        if !asks {
            return Ok(Vec::new(self.alloc));
        }
        let shown = Vec::from_slice(self.alloc, &self.shown)?;
        Ok(shown)
    }

    /// What was shown.
    pub(crate) fn into_shown(self) -> Vec<u8>
        ensures { result ≡ self.shown }
    {
        self.shown
    }

    /// Where the system stands: with what was shown, if that is asked.
    pub(crate) fn keep(&self, asks: bool) -> Result<Place, AllocError>
        ensures { IfOk result (IsPlaceOf asks self.now) }
    {
        Ok(Place {
            taken: self.taken,
            buffer: copied(self.alloc, &self.buffer)?,
            shown: self.shown_if(asks)?,
        })
    }

    /// Puts the system back where it stood, with what was kept as shown, nothing printed and nothing failed.
    pub(crate) fn put_back(&mut self, place: &Place) -> Result<(), AllocError>
        ensures place { OnOk result (IsPlaceOf true self.new place.now) }
        ensures printed { OnOk result (self.new.printed.items ≡ []) }
        ensures working { OnOk result (self.new.failed ≡ None) }
        ensures input { self.new.input ≡ self.old.input }
    {
        self.buffer = copied(self.alloc, &place.buffer)?;
        self.shown = Vec::from_slice(self.alloc, &place.shown)?;
        self.taken = place.taken;
        self.printed.clear();
        self.failed = None;
        Ok(())
    }

    /// The next byte of the input.
    fn accept(&mut self) -> Result<Option<u16>, Stop>
        ensures exact { Reaches (accept (system_of self.old)) result (system_of self.old) (system_of self.new) }
        ensures used { FailsUsed 1 result }
        ensures rest { IsSameElsewhere self.old self.new }
    {
        if self.taken >= self.input.len() {
            return Ok(Some(END_OF_TEXT));
        }
        let byte = self.input[self.taken];
        self.taken += 1;
        Ok(Some(u16::from(byte % 128)))
    }

    /// Shows a character.
    fn display(&mut self, word: u16) -> Result<Option<u16>, Stop>
        ensures exact { Reaches (display word (system_of self.old)) result (system_of self.old) (system_of self.new) }
        ensures used { FailsUsed 2 result }
        ensures rest { IsSameElsewhere self.old self.new }
    {
        match self.shown.push(character(word)) {
            Ok(()) => Ok(None),
            Err(_) => Err(Stop::Failed(Outside::Terminal)),
        }
    }

    /// Prints a character.
    fn print(&mut self, word: u16) -> Result<Option<u16>, Stop>
        ensures exact { Reaches (print word (system_of self.old)) result (system_of self.old) (system_of self.new) }
        ensures used { FailsUsed 3 result }
        ensures rest { IsSameElsewhere self.old self.new }
    {
        match self.printed.push(character(word)) {
            Ok(()) => Ok(None),
            Err(_) => Err(Stop::Failed(Outside::Printer)),
        }
    }

    /// An empty file is begun.
    fn fresh_buffer(&mut self) -> Result<Option<u16>, Stop>
        ensures exact { Reaches (fresh_buffer (system_of self.old)) result (system_of self.old) (system_of self.new) }
        ensures used { FailsUsed 7 result }
        ensures rest { IsSameElsewhere self.old self.new }
    {
        self.buffer = Some(Vec::new(self.alloc));
        Ok(None)
    }

    /// Writes a character to the file.
    fn write(&mut self, word: u16) -> Result<Option<u16>, Stop>
        ensures exact { Reaches (write word (system_of self.old)) result (system_of self.old) (system_of self.new) }
        ensures used { FailsUsed 8 result }
        ensures rest { IsSameElsewhere self.old self.new }
    {
        let Some(bytes) = &mut self.buffer else {
            return Err(Stop::NoFile);
        };
        if bytes.len() >= MOST_BYTES {
            return Err(Stop::FileLimit);
        }
        match bytes.push(character(word)) {
            Ok(()) => Ok(None),
            Err(_) => Err(Stop::Failed(Outside::Drive)),
        }
    }

    /// No file is stored: there is no disk.
    fn close(&self, words: &[u16]) -> Result<Option<u16>, Stop>
        ensures exact { Reaches (close words.now (system_of self.now)) result (system_of self.now) (system_of self.now) }
        ensures used { FailsUsed 9 result }
    {
        if self.buffer.is_none() {
            return Err(Stop::NoFile);
        }
        Ok(Some(0))
    }

    /// No file is found: there is none.
    fn find(&self, words: &[u16]) -> Result<Option<u16>, Stop>
        ensures exact { Reaches (find words.now (system_of self.now)) result (system_of self.now) (system_of self.now) }
        ensures used { FailsUsed 4 result }
    {
        Ok(Some(0))
    }

    /// No file is removed: there is none.
    fn remove(&self, words: &[u16]) -> Result<Option<u16>, Stop>
        ensures exact { Reaches (remove words.now (system_of self.now)) result (system_of self.now) (system_of self.now) }
        ensures used { FailsUsed 10 result }
    {
        Ok(Some(0))
    }

    /// The call of this number.
    fn step(&mut self, number: u8, args: &[u16]) -> Result<Option<u16>, Stop>
        requires from { 1 ≤ number }
        requires to { number ≤ 10 }
        requires arguments { length args.now ≡ argument_words number }
        ensures exact { Reaches (call number args.now (system_of self.old)) result (system_of self.old) (system_of self.new) }
        ensures used { FailsUsed number result }
        ensures rest { IsSameElsewhere self.old self.new }
    {
        match number {
            1 => self.accept(),
            2 => self.display(args[0]),
            3 => self.print(args[0]),
            4 => self.find(args),
            7 => self.fresh_buffer(),
            8 => self.write(args[0]),
            9 => self.close(args),
            10 => self.remove(args),
            _ => Err(Stop::NoFile),
        }
    }
}

impl Calls for Offline {
    ghost use Rattle.std.specs.Prelude.{◌≡◌, Some, [], ⊤};
    ghost use Rattle.std.proofs.Common.{sym, ◌∙◌};
    ghost use Rattle.edi_explore.specs.Systems.{system_of};

    ghost state = { λ calls. Some (system_of calls) };

    ghost faults = { λ calls outside. calls.faults };

    ghost failed = { λ calls outside. calls.failed ≡ outside };

    ghost references = { λ calls. [] };

    ghost leads = { λ start calls. start.input ≡ calls.input };

    ghost one_failed = { λ calls one other p q. sym p ∙ q };

    fn call(&mut self, number: u8, args: &[u16], answer: &mut [u16]) -> CallEnd {
        match self.step(number, args) {
            Ok(word) => {
                if let Some(word) = word {
                    answer[0] = word;
                }
                CallEnd::Ok
            }
            Err(Stop::NoFile) => CallEnd::NoFile,
            Err(Stop::FileLimit) => CallEnd::FileLimit,
            Err(Stop::Failed(outside)) => {
                self.faults = self.faults.saturating_add(1);
                self.failed = Some(outside);
                CallEnd::OutsideFault
            }
        }
    }
}
