//! The code that bytes hold.

ghost use Rattle.std.specs.Prelude.{◌≡◌, ◌≤◌, ◌<◌, ◌^◌, ◌==◌, ℕ, true, drop, length, slice_index, None, Some, OnOk, IfOk, IfErr, IfSome, IfNone};
ghost use Rattle.edi_target.specs.Check.{IsFault, words_fault};
ghost use Rattle.edi_target.specs.File.{code_fault_of, code_of, header_fault, number_at, short_at, size_fault, words_of_bytes};

use crate::fields::{number_at, short_at};
use crate::header::{HEADER, call_numbers, header_fault, size_fault};
use crate::words::{first_version_fault, words_of};
use edi_target::{Code, CodeFault};
use std::alloc::Global;

/// The code in a file of version 1 or 2, or the file's first fault: a header that is short, then the first of its fields that
/// breaks its rule, then a size that is not that of the header and the words, then the first fault of the code, which in version
/// 1 has no QUIET. Where there is not enough memory that is the answer.
///
/// It takes time and memory in proportion to the bytes.
#[tactic(auto, unfolding(edi_target::specs::File::code_fault_of))]
pub fn load(alloc: Global, bytes: &[u8]) -> Result<Code, CodeFault>
    ensures code { IfOk result (λ code. code ≡ code_of bytes.now) }
    ensures sound { OnOk result (code_fault_of bytes.now ≡ None) }
    ensures first { IfErr result (λ fault. IsFault fault (code_fault_of bytes.now)) }
{
    if bytes.len() < HEADER {
        return Err(CodeFault::Short {
            at: bytes.len() as u32,
        });
    }
    if let Some(fault) = header_fault(bytes) {
        return Err(fault);
    }
    if let Some(fault) = size_fault(bytes) {
        return Err(fault);
    }
    code_in(alloc, bytes)
}

// The code in a file whose header and size have no fault, or the first fault of the words.
#[tactic(auto, unfolding(edi_target::specs::Check::words_fault, edi_target::specs::Check::parts_fault))]
fn code_in(alloc: Global, bytes: &[u8]) -> Result<Code, CodeFault>
    requires room { HEADER ≤ length bytes.now }
    requires header { header_fault bytes.now ≡ None }
    requires size { size_fault bytes.now ≡ None }
    ensures code { IfOk result (λ code. code ≡ code_of bytes.now) }
    ensures sound { OnOk result (words_fault (short_at bytes.now 2 == 2) (words_of_bytes (drop 32 bytes.now)) (number_at bytes.now 8)
        (slice_index bytes.now 12) ≡ None) }
    ensures first { IfErr result (λ fault. IsFault fault
        (words_fault (short_at bytes.now 2 == 2) (words_of_bytes (drop 32 bytes.now)) (number_at bytes.now 8) (slice_index bytes.now 12))) }
{
    let (_, body) = bytes.split_at(HEADER);
    let Ok(words) = words_of(alloc, body) else {
        return Err(CodeFault::NoMemory);
    };
    if let Some(fault) = version_fault(bytes, &words) {
        return Err(fault);
    }
    Code::check(alloc, words, number_at(bytes, 8), call_numbers(bytes))
}

// The first instruction that version 1 has not, if the file is of that version.
fn version_fault(bytes: &[u8], words: &[u16]) -> Option<CodeFault>
    requires room { HEADER ≤ length bytes.now }
    requires header { header_fault bytes.now ≡ None }
    requires size { length words.now < 2 ^ 32 }
    ensures some { IfSome result (λ fault. (start count : ℕ) → words_fault (short_at bytes.now 2 == 2) words.now start count ≡ Some fault) }
    ensures none { IfNone result ((start count : ℕ) → words_fault (short_at bytes.now 2 == 2) words.now start count ≡ words_fault true words.now start count) }
{
    if short_at(bytes, 2) == 1 {
        first_version_fault(words)
    } else {
        None
    }
}
