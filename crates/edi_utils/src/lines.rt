//! The listing of a code.

ghost use Rattle.std.specs.Prelude.{◌≡◌, ◌++◌, IfOk, OnOk, codes};
ghost use Rattle.std.specs.Fmt.{decimal};
ghost use Rattle.edi_utils.specs.Listing.{line_at, listing_of, operand_texts, right_in, words_text};

use crate::names::name_of;
use edi_target::{Code, read_op};
use itoa::Buffer;
use std::alloc::{AllocError, Global};

/// The places of an address.
const PLACES: usize = 7;

// Puts an address behind bytes, at the right end of its places.
fn put_address(bytes: &mut Vec<u8>, at: u32) -> Result<(), AllocError>
    ensures { OnOk result (bytes.new.items ≡ bytes.old.items ++ right_in PLACES (decimal at)) }
{
    let mut buffer = Buffer::new();
    let digits = buffer.format(at).as_bytes();
    for _place in digits.len()..PLACES {
        bytes.push(b' ')?;
    }
    bytes.extend_from_slice(digits)
}

// Puts operand words behind bytes, each after a blank.
fn put_operands(bytes: &mut Vec<u8>, words: &[u16]) -> Result<(), AllocError>
    ensures { OnOk result (bytes.new.items ≡ bytes.old.items ++ operand_texts words.now) }
{
    for word in words {
        let mut buffer = Buffer::new();
        bytes.push(b' ')?;
        bytes.extend_from_slice(buffer.format(*word).as_bytes())?;
    }
    Ok(())
}

// Puts the name and the operand words of an instruction behind bytes.
fn put_words(bytes: &mut Vec<u8>, words: &[u16]) -> Result<(), AllocError>
    ensures { OnOk result (bytes.new.items ≡ bytes.old.items ++ words_text words.now) }
{
    let Some((number, operands)) = words.split_first() else {
        return Ok(());
    };
    bytes.extend_from_slice(name_of(*number).as_bytes())?;
    put_operands(bytes, operands)
}

// Puts the line of an instruction behind bytes.
fn put_line(bytes: &mut Vec<u8>, at: u32, words: &[u16]) -> Result<(), AllocError>
    ensures { OnOk result (bytes.new.items ≡ bytes.old.items ++ line_at at words.now) }
{
    put_address(bytes, at)?;
    bytes.push(b' ')?;
    put_words(bytes, words)?;
    bytes.push(b'\n')?;
    Ok(())
}

/// A line for each instruction of a code: its address right in 7 places, a blank, its name, and its operand words in decimal,
/// each after a blank. An address is two words, the high one first.
pub fn listing(alloc: Global, code: &Code) -> Result<Vec<u8>, AllocError>
    ensures exact { IfOk result (λ bytes. bytes.items ≡ listing_of code.now.words) }
{
    let words = code.words();
    let mut bytes = Vec::new(alloc);
    let mut at = 0u32;
    while let Some((_, next)) = read_op(words, at) {
        put_line(&mut bytes, at, &words[at as usize..next as usize])?;
        at = next;
    }
    Ok(bytes)
}
