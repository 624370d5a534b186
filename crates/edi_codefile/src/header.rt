//! The header of a file.

ghost use Rattle.std.specs.Prelude.{◌≡◌, ◌+◌, ◌<◌, ◌≤◌, ◌^◌, ◌&&◌, ◌==◌, nat_le, not, [], drop, length, slice_index, take, None};
ghost use Rattle.std.specs.List.{list_any};
ghost use Rattle.edi_target.specs.Check.{fields_fault, numbers_fault};
ghost use Rattle.edi_target.specs.File.{header_fault, number_at, size_fault, zeros_fault};

use crate::fields::{number_at, short_at};
use edi_target::CodeFault;

/// The bytes of the header.
pub const HEADER: usize = 32;

/// The signature with which every file begins.
pub const SIGNATURE: u16 = 0xED15;

/// The version that is written.
pub const VERSION: u16 = 2;

/// The byte that tells the number of parameters; their call numbers stand behind it.
const PARAMETERS: usize = 12;

/// The most words that a code has.
const WORDS: u32 = 4_194_304;

/// The most parameters that a program has, and the greatest number of a call.
const LARGEST: u8 = 10;

/// The first field of the header that breaks its rule.
pub fn header_fault(bytes: &[u8]) -> Option<CodeFault>
    requires { HEADER ≤ length bytes.now }
    ensures { result ≡ header_fault bytes.now }
{
    if short_at(bytes, 0) != SIGNATURE {
        return Some(header_at(bytes, 0));
    }
    if !matches!(short_at(bytes, 2), 1 | VERSION) {
        return Some(header_at(bytes, 2));
    }
    if let Some(fault) = field_fault(bytes) {
        return Some(fault);
    }
    let (header, _) = bytes.split_at(HEADER);
    let first = PARAMETERS + 1 + usize::from(bytes[PARAMETERS]);
    let (_, zeros) = header.split_at(first);
    zeros_fault(zeros, first as u32)
}

/// The call numbers of the program's parameters.
pub fn call_numbers(bytes: &[u8]) -> &[u8]
    requires size { HEADER ≤ length bytes.now }
    requires number { slice_index bytes.now PARAMETERS ≤ LARGEST }
    ensures { result.now ≡ take (slice_index bytes.now 12) (drop 13 bytes.now) }
{
    let (_, rest) = bytes.split_at(PARAMETERS + 1);
    let (calls, _) = rest.split_at(usize::from(bytes[PARAMETERS]));
    calls
}

/// The fault of a file that has not the bytes of its words, or more than these.
pub fn size_fault(bytes: &[u8]) -> Option<CodeFault>
    requires size { HEADER ≤ length bytes.now }
    requires words { number_at bytes.now 4 ≤ WORDS }
    ensures { result ≡ size_fault bytes.now }
{
    let size = HEADER as u32 + 2 * number_at(bytes, 4);
    if bytes.len() < size as usize {
        Some(CodeFault::Short {
            at: bytes.len() as u32,
        })
    } else if bytes.len() > size as usize {
        Some(CodeFault::Over { at: size })
    } else {
        None
    }
}

// The fault of the field that begins at an address.
fn header_at(bytes: &[u8], at: usize) -> CodeFault
    requires inside { at < length bytes.now }
    requires small { at < 2 ^ 32 }
    ensures { result ≡ CodeFault.Header at (slice_index bytes.now at) }
{
    CodeFault::Header {
        at: at as u32,
        found: bytes[at],
    }
}

// The number of words, the address of the entry, and the parameters with their calls.
fn field_fault(bytes: &[u8]) -> Option<CodeFault>
    requires { HEADER ≤ length bytes.now }
    ensures { result ≡ fields_fault (number_at bytes.now 4) (number_at bytes.now 8) (slice_index bytes.now 12)
        (take (slice_index bytes.now 12) (drop 13 bytes.now)) }
{
    let count = number_at(bytes, 4);
    if count == 0 || count > WORDS {
        return Some(header_at(bytes, 4));
    }
    if number_at(bytes, 8) >= count {
        return Some(header_at(bytes, 8));
    }
    if bytes[PARAMETERS] > LARGEST {
        return Some(header_at(bytes, PARAMETERS));
    }
    call_fault(call_numbers(bytes))
}

// The first call number that is none, or that stands there twice.
fn call_fault(calls: &[u8]) -> Option<CodeFault>
    requires { length calls.now ≤ LARGEST }
    ensures { result ≡ numbers_fault [] 13 calls.now }
{
    for (i, number) in calls.iter().enumerate() {
        let (before, _) = calls.split_at(i);
        if !is_another_call(*number, before) {
            return Some(CodeFault::Header {
                at: PARAMETERS as u32 + 1 + i as u32,
                found: *number,
            });
        }
    }
    None
}

// Whether this is the number of a call that those before it have not.
fn is_another_call(number: u8, before: &[u8]) -> bool
    ensures { result ≡ (nat_le 1 number && nat_le number 10 && not (list_any (λ m. m == number) before.now)) }
{
    number >= 1 && number <= LARGEST && !before.contains(&number)
}

// The first byte that is no zero, of those that begin at an address.
fn zeros_fault(bytes: &[u8], at: u32) -> Option<CodeFault>
    requires { at + length bytes.now < 2 ^ 32 }
    ensures { result ≡ zeros_fault at bytes.now }
{
    for (i, found) in bytes.iter().enumerate() {
        if *found != 0 {
            return Some(CodeFault::Header {
                at: at + i as u32,
                found: *found,
            });
        }
    }
    None
}
