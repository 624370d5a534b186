//! What is often meant at a syntax fault.

ghost use Rattle.std.specs.Prelude.{◌≡◌, ◌++◌, [], OnOk, option_copied, option_map, unwrap_or};
ghost use Rattle.edi_explain.specs.told.Notes as spec;
ghost use Rattle.edi_explain.specs.told.Tables.{row_of, rows_beside, rows_of, seen_of};

use crate::expected::Expected;
use crate::told::foreign::{CALLS, ELEMENTARY_TYPES, WORDS};
use crate::told::groups::{all_may, any_may, is_among, may};
use crate::told::names::is_introduced;
use crate::told::sentences::TYPED_VARIABLE;
use crate::told::table::{ROWS, Row};
use crate::told::words::is_text_of;
use edi_lex::{Mark, Symbol};
use edi_phrases::kind;
use std::alloc::AllocError;

/// What is seen at a fault: the kind of what stands there, that of the symbol before it and that of the innermost symbol that is open,
/// of which each is 0 where there is none; what may stand there; whether the line has a quotation mark.
#[derive(Clone, Copy)]
pub(crate) struct Seen {
    pub found: u8,
    pub last: u8,
    pub inside: u8,
    pub may: Expected,
    pub quoted: bool,
}

// ---- words

// The note of a word in a table, if it has one.
fn note_beside(table: &[(&'static str, &'static str)], word: &[u8]) -> Option<&'static str>
    ensures exact { option_map (λ text. text.now) result ≡ spec.note_beside (rows_beside table.now) word.now }
{
    for row in table {
        if word == row.0.as_bytes() {
            return Some(row.1);
        }
    }
    None
}

// The note of a word of other languages, where a text of these symbols does not declare it.
fn word_note(marks: &[Mark], word: &[u8]) -> Option<&'static str>
    ensures exact { option_map (λ text. text.now) result ≡ spec.word_note marks.now word.now }
{
    if is_introduced(word, marks) {
        return None;
    }
    note_beside(&WORDS, word)
}

// The note of a symbol that is such a word.
fn symbol_note(marks: &[Mark], symbol: &Symbol) -> Option<&'static str>
    ensures exact { option_map (λ text. text.now) result ≡ spec.symbol_note marks.now symbol.now }
{
    match symbol {
        Symbol::Name(letters) => word_note(marks, letters.as_slice()),
        _ => None,
    }
}

// That of what stands at a place.
fn mark_note(marks: &[Mark], here: Option<&Mark>) -> Option<&'static str>
    ensures exact { option_map (λ text. text.now) result ≡ spec.mark_note marks.now (option_copied here.entry) }
{
    match here {
        Some(mark) => symbol_note(marks, &mark.symbol),
        None => None,
    }
}

/// The text beside a word in a table, or else another one.
pub(crate) fn note_or(
    table: &[(&'static str, &'static str)],
    word: &[u8],
    rest: &'static str,
) -> &'static str
    ensures exact { result.now ≡ unwrap_or (spec.note_beside (rows_beside table.now) word.now) rest.now }
{
    match note_beside(table, word) {
        Some(note) => note,
        None => rest,
    }
}

/// The note of a name that means nothing; nothing where there is none.
pub(crate) fn lost_note(word: &[u8]) -> &'static str
    ensures exact { result.now ≡ spec.lost_note word.now }
{
    note_or(&WORDS, word, note_or(&CALLS, word, ""))
}

// ---- rows

// Whether a kind is one of these, where a list of none stands for all.
fn takes(kinds: &[u8], kind: u8) -> bool
    ensures exact { result ≡ spec.takes kinds.now kind }
{
    kinds.is_empty() || is_among(kind, kinds)
}

// Whether what stands there, what stands before it and what is open are as the row asks.
fn stands(row: &Row, seen: &Seen) -> bool
    ensures exact { result ≡ spec.stands (row_of row.now) (seen_of seen.now) }
{
    takes(row.found, seen.found) && takes(row.last, seen.last) && takes(row.inside, seen.inside)
}

// Whether a row fits.
fn fits(row: &Row, seen: &Seen) -> bool
    ensures exact { result ≡ spec.fits (row_of row.now) (seen_of seen.now) }
{
    stands(row, seen)
        && all_may(&seen.may, row.may)
        && !any_may(&seen.may, row.not_these)
        && (seen.quoted || !row.quoted)
}

// The note of the first row of a table that fits; nothing where none does.
fn first_fit(table: &[Row], seen: &Seen) -> &'static str
    ensures exact { result.now ≡ spec.first_fit (rows_of table.now) (seen_of seen.now) }
{
    for row in table {
        if fits(row, seen) {
            return row.note;
        }
    }
    ""
}

// ---- a type in front of a name, where a statement stands

// Whether a symbol is the name of such a type.
fn is_type_name(symbol: &Symbol) -> bool
    ensures exact { result ≡ spec.is_type_name symbol.now }
{
    match symbol {
        Symbol::Name(letters) => is_text_of(letters.as_slice(), &ELEMENTARY_TYPES),
        _ => false,
    }
}

// That of what stands before a place.
fn is_type_mark(before: Option<&Mark>) -> bool
    ensures exact { result ≡ spec.is_type_mark (option_copied before.entry) }
{
    match before {
        Some(mark) => is_type_name(&mark.symbol),
        None => false,
    }
}

// The note of a name after such a type, where an assignment may go on.
fn type_before(before: Option<&Mark>, seen: &Seen) -> Option<&'static str>
    ensures exact { option_map (λ text. text.now) result ≡ spec.type_before (option_copied before.entry) (seen_of seen.now) }
{
    if seen.found == kind::NAME && may(&seen.may, kind::BECOMES) && is_type_mark(before) {
        return Some(TYPED_VARIABLE);
    }
    None
}

// ---- the note

// That note, or else that of the first row that fits; nothing where there is none.
fn row_note(before: Option<&Mark>, seen: &Seen) -> &'static str
    ensures exact { result.now ≡ unwrap_or (spec.type_before (option_copied before.entry) (seen_of seen.now)) (spec.first_fit spec.note_rows (seen_of seen.now)) }
{
    if let Some(note) = type_before(before, seen) {
        return note;
    }
    first_fit(&ROWS, seen)
}

// The note at what stands there and what stands before it; nothing where there is none.
fn note_of(marks: &[Mark], here: Option<&Mark>, before: Option<&Mark>, seen: &Seen) -> &'static str
    ensures exact { result.now ≡ spec.note_of marks.now (option_copied here.entry) (option_copied before.entry) (seen_of seen.now) }
{
    if let Some(note) = mark_note(marks, here) {
        return note;
    }
    if let Some(note) = mark_note(marks, before) {
        return note;
    }
    row_note(before, seen)
}

/// Puts the line of the note behind bytes, if there is one.
pub(crate) fn put_note(
    out: &mut Vec<u8>,
    marks: &[Mark],
    here: Option<&Mark>,
    before: Option<&Mark>,
    seen: &Seen,
) -> Result<(), AllocError>
    ensures { OnOk result (out.new.items ≡ out.old.items
        ++ spec.note_line (spec.note_of marks.now (option_copied here.entry) (option_copied before.entry) (seen_of seen.now))) }
{
    put_note_line(out, note_of(marks, here, before, seen).as_bytes())
}

/// Puts a note behind bytes, on a line of its own; an empty one is none.
pub(crate) fn put_note_line(out: &mut Vec<u8>, note: &[u8]) -> Result<(), AllocError>
    ensures { OnOk result (out.new.items ≡ out.old.items ++ spec.note_line note.now) }
{
    if note.is_empty() {
        return Ok(());
    }
    out.extend_from_slice(note)?;
    out.push(b'\n')?;
    Ok(())
}
