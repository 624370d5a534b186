//! The words of a code in a file: two bytes each, behind the header.

ghost use Rattle.std.specs.Prelude.{◌≡◌, ◌+◌, ◌<◌, ◌^◌, ◌++◌, length, true, false, IfOk, OnOk};
ghost use Rattle.edi_target.specs.Check.{first_fault, is_quiet, operation_fault, starts_of};
ghost use Rattle.edi_target.specs.View.{instruction_of};
ghost use Rattle.edi_target.specs.File.{bytes_of_words, words_of_bytes};

use byteorder::{BigEndian, ByteOrder};
use edi_target::{CodeFault, Op, read_op};
use std::alloc::{AllocError, Global};

/// Puts the bytes of the words behind the others.
pub fn put_words(bytes: &mut Vec<u8>, words: &[u16]) -> Result<(), AllocError>
    ensures { OnOk result (bytes.new.items ≡ bytes.old.items ++ bytes_of_words words.now) }
{
    for word in words {
        let mut pair = [0; 2];
        BigEndian::write_u16(&mut pair, *word);
        bytes.extend_from_slice(&pair)?;
    }
    Ok(())
}

/// The words that the bytes are.
pub fn words_of(alloc: Global, bytes: &[u8]) -> Result<Vec<u16>, AllocError>
    ensures { IfOk result (λ words. words.items ≡ words_of_bytes bytes.now) }
{
    let mut words = Vec::with_capacity(alloc, bytes.len() / 2)?;
    let mut rest = bytes;
    while rest.len() >= 2 {
        let (pair, after) = rest.split_at(2);
        words.push(BigEndian::read_u16(pair))?;
        rest = after;
    }
    Ok(words)
}

/// The first address where an instruction must start and none of version 1 is read: version 1 has all but QUIET.
pub fn first_version_fault(words: &[u16]) -> Option<CodeFault>
    requires { length words.now < 2 ^ 32 }
    ensures { result ≡ first_fault (operation_fault false) (starts_of words.now) }
{
    let mut at = 0u32;
    while (at as usize) < words.len() {
        let found = words[at as usize];
        let Some((op, next)) = read_op(words, at) else {
            return Some(CodeFault::Operation { at, found });
        };
        if is_quiet(op) {
            return Some(CodeFault::Operation { at, found });
        }
        at = next;
    }
    None
}

fn is_quiet(op: Op) -> bool
    ensures { result ≡ is_quiet (instruction_of op.entry) }
{
    matches!(op, Op::Quiet { .. })
}
