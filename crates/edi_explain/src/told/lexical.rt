//! What is shown of a lexical fault.

ghost use Rattle.std.specs.Prelude.{◌≡◌, ◌++◌, Err, IfOk, OnOk, slice_index_or};
ghost use Rattle.edi_lex.specs.Symbols.{ScanGives, symbols_of};
ghost use Rattle.edi_explain.specs.told.Explained as spec;
ghost use Rattle.edi_explain.specs.told.Scanned.{HasStray};

use crate::told::advice::put_advice;
use crate::told::foreign::{BEGINNINGS, SIGNS};
use crate::told::notes::{note_or, put_note_line};
use crate::told::sentences::{ACCENTS, NO_SYMBOL};
use crate::told::source::put_pointed;
use crate::told::stray::stray_of;
use edi_lex::LexFault;
use edi_texts::RefusalKind;
use std::alloc::AllocError;

// What begins at a byte at which no piece stands.
fn stray_text(b: u8) -> &'static str
    ensures exact { result.now ≡ spec.stray_text b }
{
    note_or(&BEGINNINGS, &[b], NO_SYMBOL)
}

// What another language means by a byte, and how this one says it; empty where nothing is known of the byte.
fn stray_note(b: u8) -> &'static str
    ensures exact { result.now ≡ spec.stray_note b }
{
    if 127 < b {
        return ACCENTS;
    }
    note_or(&SIGNS, &[b], "")
}

// Puts behind bytes what begins at a byte at which no piece stands.
fn put_stray(out: &mut Vec<u8>, b: u8) -> Result<(), AllocError>
    ensures { OnOk result (out.new.items ≡ out.old.items ++ spec.stray_lines b) }
{
    out.extend_from_slice(stray_text(b).as_bytes())?;
    put_note_line(out, stray_note(b).as_bytes())
}

// The byte at a place; 0 where the text has ended.
fn byte_at(text: &[u8], place: usize) -> u8
    ensures exact { result ≡ slice_index_or text.now place 0 }
{
    match text.get(place) {
        Some(b) => *b,
        None => 0,
    }
}

// Puts behind bytes the line of the place where no piece stands, and what begins there.
fn put_character(out: &mut Vec<u8>, text: &[u8], line: u16) -> Result<(), AllocError>
    requires has { HasStray text.now }
    ensures { OnOk result (out.new.items ≡ out.old.items ++ spec.character_text text.now line) }
{
    let place = stray_of(text);
    put_pointed(out, text, line, place)?;
    put_stray(out, byte_at(text, place))?;
    put_advice(out, RefusalKind::InvalidCharacter)
}

/// Puts behind bytes what is shown of a text with this lexical fault.
pub(crate) fn put_lexical(out: &mut Vec<u8>, text: &[u8], fault: LexFault) -> Result<(), AllocError>
    requires told { ScanGives (Err fault) (symbols_of text.now) }
    ensures known { IfOk result (λ none. symbols_of text.now ≡ Err fault) }
    ensures put { OnOk result (out.new.items ≡ out.old.items ++ spec.lexical_text text.now fault) }
{
    match fault {
        LexFault::BadCharacter(line) => put_character(out, text, line),
        LexFault::BadNumeral(line) => {
            put_pointed(out, text, line, stray_of(text))?;
            put_advice(out, RefusalKind::InvalidNumeral)
        }
        LexFault::TooLong => put_advice(out, RefusalKind::TextTooLong),
        LexFault::NoMemory => Err(AllocError),
    }
}
