//! The bytes of a code.

ghost use Rattle.std.specs.Prelude.{◌≡◌, ◌+◌, ◌-◌, ◌<◌, ◌≤◌, ◌^◌, ◌∷◌, ◌++◌, [], length, replicate, None, IfOk, OnOk};
ghost use Rattle.edi_target.specs.File.{bytes_of_words, code_bytes, code_fault_of, code_of, number_bytes};

use crate::fields::put_number;
use crate::header::HEADER;
use crate::words::put_words;
use edi_target::Code;
use std::alloc::{AllocError, Global};

/// The first bytes of every file that is written: the signature, and version 2.
const START: [u8; 4] = [0xED, 0x15, 0, 2];

/// Bytes that follow the call numbers.
const ZEROS: [u8; 19] = [0; 19];

/// The file of a code, in version 2. Loading it gives the code again.
#[tactic(auto, unfolding(edi_target::specs::File::code_bytes))]
pub fn pack(alloc: Global, code: &Code) -> Result<Vec<u8>, AllocError>
    ensures exact { IfOk result (λ bytes. bytes.items ≡ code_bytes code.now) }
    ensures sound { IfOk result (λ bytes. code_fault_of bytes.items ≡ None) }
    ensures again { IfOk result (λ bytes. code_of bytes.items ≡ code.now) }
{
    let words = code.words();
    let mut bytes = Vec::with_capacity(alloc, HEADER + 2 * words.len())?;
    put_start(&mut bytes, words.len() as u32, code.entry())?;
    put_calls(&mut bytes, code.calls())?;
    put_words(&mut bytes, words)?;
    Ok(bytes)
}

// Puts the signature, the version, the number of words and the address of the entry behind the others.
fn put_start(bytes: &mut Vec<u8>, count: u32, entry: u32) -> Result<(), AllocError>
    ensures { OnOk result (bytes.new.items ≡ bytes.old.items ++ (237 ∷ 21 ∷ 0 ∷ 2 ∷ (number_bytes count ++ number_bytes entry))) }
{
    bytes.extend_from_slice(&START)?;
    put_number(bytes, count)?;
    put_number(bytes, entry)
}

// Puts the number of calls, their numbers and zeros behind the others.
fn put_calls(bytes: &mut Vec<u8>, calls: &[u8]) -> Result<(), AllocError>
    requires { length calls.now ≤ 10 }
    ensures { OnOk result (bytes.new.items ≡ bytes.old.items ++ (length calls.now ∷ (calls.now ++ replicate (19 - length calls.now) 0))) }
{
    bytes.push(calls.len() as u8)?;
    bytes.extend_from_slice(calls)?;
    let (_, zeros) = ZEROS.split_at(calls.len());
    bytes.extend_from_slice(zeros)
}
