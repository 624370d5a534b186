//! Code that was checked.

ghost use Rattle.std.specs.Prelude.{◌≡◌, ◌+◌, ◌<◌, ◌≤◌, ◌^◌, List, ℕ, Some, None, drop, length, vec_len, true, IfOk, IfErr, IfNone, IfSome};
ghost use Rattle.edi_target.specs.Check.{CodeParts, IsFault, IsSound, parts_fault, words_fault};

use crate::code_fault::CodeFault;
use crate::header::header_fault;
use crate::starts::set_starts;
use crate::targets::{entry_fault, jump_fault};
use arrayvec::ArrayVec;
use std::alloc::Global;
use std::marker::Model;

/// The code of a program, all of whose checks hold: the words of its instructions, the address of its entry, and the call
/// numbers of the program's parameters, at most 10 of them, each 1 to 10.
#[derive(Drop)]
pub struct Code {
    words: Vec<u16>,
    entry: u32,
    calls: ArrayVec<u8, 10>,
}

impl Model for Code {
    ghost use Rattle.std.specs.Prelude.{◌≡◌, None};
    ghost use Rattle.edi_target.specs.Check.{CodeParts, parts_fault};

    ghost Value = { CodeParts };

    ghost view = { λ c. record { words = c.words.items; entry = c.entry; calls = c.calls.items } };

    ghost invariant = { λ c. parts_fault c.words.items c.entry c.calls.items ≡ None };
}

impl Code {
    /// A code of these words, which begins at `entry` and is given the calls of these numbers, or the first of its faults: of the
    /// fields that its header would have, then of its instructions, then of where they lead, then of its entry. Where there is not
    /// enough memory that is the answer.
    #[tactic(auto, unfolding(crate::specs::Check::parts_fault))]
    pub fn check(
        alloc: Global,
        words: Vec<u16>,
        entry: u32,
        calls: &[u8],
    ) -> Result<Code, CodeFault>
        requires size { vec_len words < 2 ^ 32 }
        requires number { length calls.now ≤ 255 }
        ensures ok { IfOk result (λ c. c ≡ record { words = words.items; entry = entry; calls = calls.now }) }
        ensures sound { IfOk result IsSound }
        ensures err { IfErr result (λ f. IsFault f (parts_fault words.items entry calls.now)) }
    {
        if let Some(fault) = header_fault(words.len(), entry, calls) {
            return Err(fault);
        }
        if let Some(fault) = words_fault(alloc, &words, entry, calls.len()) {
            return Err(fault);
        }
        Ok(Code {
            words,
            entry,
            calls: ArrayVec::try_from(calls).unwrap(),
        })
    }

    /// The words of the instructions, 1 to 4,194,304.
    pub fn words(&self) -> &[u16]
        ensures value { result.now ≡ self.now.words }
        ensures some { 1 ≤ length result.now }
        ensures limit { length result.now ≤ 4194304 }
        ensures sound { IsSound self.now }
    {
        &self.words
    }

    /// The address of the ENTRY at which the program begins, below the number of words.
    #[tactic(auto, using(crate::proofs::Sound::sound_fields))]
    pub fn entry(&self) -> u32
        ensures value { result ≡ self.now.entry }
        ensures inside { result < length self.now.words }
        ensures sound { IsSound self.now }
    {
        self.entry
    }

    /// The call numbers of the program's parameters, at most 10, each 1 to 10, in the order of the parameters.
    #[tactic(auto, using(crate::proofs::Sound::sound_fields))]
    pub fn calls(&self) -> &[u8]
        ensures value { result.now ≡ self.now.calls }
        ensures number { length result.now ≤ 10 }
        ensures sound { IsSound self.now }
    {
        self.calls.as_slice()
    }
}

// The first fault of the words, or want of memory for the flags of the instruction starts.
#[tactic(auto, unfolding(crate::specs::Check::words_fault))]
fn words_fault(alloc: Global, words: &[u16], entry: u32, count: usize) -> Option<CodeFault>
    requires size { length words.now < 2 ^ 32 }
    requires number { count < 2 ^ 32 }
    ensures none { IfNone result (words_fault true words.now entry count ≡ None) }
    ensures some { IfSome result (λ f. IsFault f (words_fault true words.now entry count)) }
{
    let Ok(mut starts) = vec![in alloc; false; words.len()] else {
        return Some(CodeFault::NoMemory);
    };
    if let Some(fault) = set_starts(words, &mut starts) {
        return Some(fault);
    }
    if let Some(fault) = jump_fault(words, &starts) {
        return Some(fault);
    }
    entry_fault(words, &starts, entry, count)
}
