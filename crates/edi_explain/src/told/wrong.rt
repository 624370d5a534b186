//! What is shown of a syntax fault.

ghost use Rattle.std.specs.Prelude.{◌≡◌, ◌++◌, OnOk, option_copied};
ghost use Rattle.edi_syntax.specs.Refusal.{line_of as line_at};
ghost use Rattle.edi_explain.specs.places.Places.{place_of as place_at};
ghost use Rattle.edi_explain.specs.told.Explained as spec;
ghost use Rattle.edi_explain.specs.told.Scanned.{HasSymbols};
ghost use Rattle.edi_explain.specs.told.Tables.{may_of, seen_of};

use crate::expected::{Expected, Held, opened};
use crate::places::place_of;
use crate::told::groups::put_may;
use crate::told::names::{before_of, mark_at, marks_to};
use crate::told::notes::{Seen, put_note};
use crate::told::numbers::kind_at;
use crate::told::source::{line_bytes, put_end, put_pointed};
use crate::told::words::{kind_name, put_here};
use edi_lex::{Mark, Symbols};
use edi_syntax::SyntaxFault;
use edi_texts::RefusalKind;
use itoa::Buffer;
use std::alloc::{AllocError, Global};

// How many of the symbols that are open are named.
const MOST_OPEN: usize = 3;

/// Where the symbol of this index begins, in bytes from the front.
pub(crate) fn place(text: &[u8], index: u32) -> usize
    requires scanned { HasSymbols text.now }
    ensures exact { result ≡ (place_at text.now index).0 }
{
    let (from, _) = place_of(text, index);
    from
}

// Puts behind bytes the line of the symbol of this index, or that of the end of the text.
fn put_place(
    out: &mut Vec<u8>,
    text: &[u8],
    index: u32,
    last: u16,
    here: Option<&Mark>,
) -> Result<(), AllocError>
    requires scanned { HasSymbols text.now }
    ensures { OnOk result (out.new.items ≡ out.old.items ++ spec.place_text text.now index last (option_copied here.entry)) }
{
    let Some(mark) = here else {
        return put_end(out, last);
    };
    put_pointed(out, text, mark.line, place(text, index))
}

// Puts behind bytes what stands there and what may.
fn put_instead(
    alloc: Global,
    out: &mut Vec<u8>,
    here: Option<&Mark>,
    expected: &Expected,
) -> Result<(), AllocError>
    ensures { OnOk result (out.new.items ≡ out.old.items ++ spec.instead_text (option_copied here.entry) (may_of expected.now)) }
{
    put_here(out, here)?;
    out.extend_from_slice(b" may not stand here; these may:\n")?;
    put_may(alloc, out, expected)?;
    Ok(())
}

// Puts behind bytes the line of a symbol that is open.
fn put_held(out: &mut Vec<u8>, held: Held) -> Result<(), AllocError>
    ensures { OnOk result (out.new.items ≡ out.old.items ++ spec.held_line held) }
{
    let mut buffer = Buffer::new();
    out.extend_from_slice(b"the ")?;
    out.extend_from_slice(kind_name(held.kind).as_bytes())?;
    out.extend_from_slice(b" of line ")?;
    out.extend_from_slice(buffer.format(held.line).as_bytes())?;
    out.extend_from_slice(b" is open\n")?;
    Ok(())
}

// Puts behind bytes a line for each of these.
fn put_all_held(out: &mut Vec<u8>, held: &[Held]) -> Result<(), AllocError>
    ensures { OnOk result (out.new.items ≡ out.old.items ++ spec.held_lines held.now) }
{
    for one in held {
        put_held(out, *one)?;
    }
    Ok(())
}

// The innermost of these, at most three.
fn innermost(held: &[Held]) -> &[Held]
    ensures exact { result.now ≡ spec.innermost held.now }
{
    if held.len() <= MOST_OPEN {
        return held;
    }
    let (_, inner) = held.split_at(held.len() - MOST_OPEN);
    inner
}

// The kind of the innermost of these; 0 where there is none.
fn last_kind(held: &[Held]) -> u8
    ensures exact { result ≡ spec.last_kind held.now }
{
    match held.last() {
        Some(one) => one.kind,
        None => 0,
    }
}

// What the notes look at: what stands there and before it, what is open, what may stand there, and the line.
fn seen_at(
    line: &[u8],
    here: Option<&Mark>,
    before: Option<&Mark>,
    held: &[Held],
    expected: Expected,
) -> Seen
    ensures exact { seen_of result ≡ spec.seen_by line.now (option_copied here.entry) (option_copied before.entry) held.now (may_of expected) }
{
    Seen {
        found: kind_at(here),
        last: kind_at(before),
        inside: last_kind(held),
        may: expected,
        quoted: line.contains(&34),
    }
}

// The line of a symbol, or of the end of the text.
fn line_of(last: u16, here: Option<&Mark>) -> u16
    ensures exact { result ≡ line_at last (option_copied here.entry) }
{
    match here {
        Some(mark) => mark.line,
        None => last,
    }
}

/// Puts behind bytes what is shown of a text whose symbols have their syntax fault at this index, where these may stand.
pub(crate) fn put_wrong(
    alloc: Global,
    out: &mut Vec<u8>,
    text: &[u8],
    symbols: &Symbols,
    index: u32,
    expected: Expected,
) -> Result<(), AllocError>
    requires scanned { HasSymbols text.now }
    ensures { OnOk result (out.new.items ≡ out.old.items
        ++ spec.wrong_text text.now symbols.now.marks symbols.now.last index (may_of expected)) }
{
    let marks = symbols.marks.as_slice();
    let at = index as usize;
    let here = mark_at(marks, at);
    let before = before_of(marks, at);
    let held = opened(alloc, marks_to(marks, at))?;
    let seen = seen_at(
        line_bytes(text, line_of(symbols.last, here)),
        here,
        before,
        &held,
        expected,
    );
    put_place(out, text, index, symbols.last, here)?;
    put_instead(alloc, out, here, &seen.may)?;
    put_all_held(out, innermost(&held))?;
    put_note(out, marks, here, before, &seen)
}

/// The index of a syntax fault, in symbols.
pub(crate) fn index_of(fault: SyntaxFault) -> u32
    ensures exact { result ≡ spec.index_of fault }
{
    match fault {
        SyntaxFault::Syntax { index, .. } => index,
        SyntaxFault::TooDeep { index, .. } => index,
        SyntaxFault::NotInProfile { index, .. } => index,
        SyntaxFault::NoMemory => 0,
    }
}

/// The kind of a syntax fault.
pub(crate) fn kind_of_fault(fault: SyntaxFault) -> RefusalKind
    ensures exact { result ≡ spec.kind_of_fault fault }
{
    match fault {
        SyntaxFault::Syntax { .. } => RefusalKind::InvalidSyntax,
        SyntaxFault::TooDeep { .. } => RefusalKind::NestingTooDeep,
        SyntaxFault::NotInProfile { .. } => RefusalKind::NotInProfile,
        SyntaxFault::NoMemory => RefusalKind::InvalidSyntax,
    }
}
