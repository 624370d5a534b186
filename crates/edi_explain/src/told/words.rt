//! What symbols are called.

ghost use Rattle.std.specs.Prelude.{◌≡◌, ◌++◌, [], OnOk, option_copied, slice_index_or, take};
ghost use Rattle.edi_explain.specs.told.Tables.{texts_of};
ghost use Rattle.edi_explain.specs.told.Words as spec;

use crate::told::source::front_of;
use edi_lex::{Mark, Symbol};
use edi_phrases::{kind, kind_of};
use std::alloc::AllocError;

/// What the kinds are called, by their numbers.
static KIND_NAMES: [&str; 51] = [
    "the end of the text",
    "a name",
    "a number",
    "a character",
    "a string",
    "'also'",
    "'and'",
    "'array'",
    "'begin'",
    "'cobegin'",
    "'const'",
    "'div'",
    "'do'",
    "'else'",
    "'end'",
    "'enum'",
    "'if'",
    "'in'",
    "'lib'",
    "'mod'",
    "'module'",
    "'not'",
    "'or'",
    "'post'",
    "'pre'",
    "'proc'",
    "'record'",
    "'set'",
    "'skip'",
    "'val'",
    "'var'",
    "'when'",
    "'while'",
    "'='",
    "'<>'",
    "'<'",
    "'<='",
    "'>'",
    "'>='",
    "'+'",
    "'-'",
    "'*'",
    "':'",
    "':='",
    "','",
    "';'",
    "'.'",
    "'('",
    "')'",
    "'['",
    "']'",
];

// As many letters of a name as are shown.
const MOST_LETTERS: usize = 64;

// The text of a table at an index; nothing behind its end.
#[tactic(auto, using(crate::proofs::told::Cutting::text_at, crate::proofs::told::Cutting::none_at))]
fn text_at(table: &[&'static str], index: usize) -> &'static str
    ensures { result.now ≡ slice_index_or (texts_of table.now) index [] }
{
    if index < table.len() {
        table[index]
    } else {
        ""
    }
}

/// Whether a text is one of a table.
pub(crate) fn is_text_of(letters: &[u8], texts: &[&'static str]) -> bool
    ensures exact { result ≡ spec.is_text_of letters.now (texts_of texts.now) }
{
    for text in texts {
        if letters == text.as_bytes() {
            return true;
        }
    }
    false
}

/// What a kind of symbols is called.
pub(crate) fn kind_name(kind: u8) -> &'static str
    ensures exact { result.now ≡ spec.kind_name kind }
{
    text_at(&KIND_NAMES, usize::from(kind))
}

/// Puts a name behind bytes, at most 64 letters of it.
#[tactic(auto, unfolding(crate::specs::told::Words::name_text))]
pub(crate) fn put_name(out: &mut Vec<u8>, letters: &[u8]) -> Result<(), AllocError>
    ensures { OnOk result (out.new.items ≡ out.old.items ++ spec.name_text letters.now) }
{
    out.extend_from_slice(b"the name '")?;
    out.extend_from_slice(front_of(letters, MOST_LETTERS))?;
    out.push(b'\'')?;
    Ok(())
}

// Puts a symbol behind bytes: a name with its letters, another one by its kind.
fn put_symbol(out: &mut Vec<u8>, symbol: &Symbol) -> Result<(), AllocError>
    ensures { OnOk result (out.new.items ≡ out.old.items ++ spec.symbol_text symbol.now) }
{
    match symbol {
        Symbol::Name(letters) => put_name(out, letters.as_slice()),
        _ => put_kind(out, kind_of(symbol)),
    }
}

// Puts what a kind of symbols is called behind bytes.
fn put_kind(out: &mut Vec<u8>, kind: u8) -> Result<(), AllocError>
    ensures { OnOk result (out.new.items ≡ out.old.items ++ spec.kind_name kind) }
{
    out.extend_from_slice(kind_name(kind).as_bytes())?;
    Ok(())
}

/// Puts behind bytes what stands at a place; None is the end of the text.
pub(crate) fn put_here(out: &mut Vec<u8>, here: Option<&Mark>) -> Result<(), AllocError>
    ensures { OnOk result (out.new.items ≡ out.old.items ++ spec.here_text (option_copied here.entry)) }
{
    match here {
        Some(mark) => put_symbol(out, &mark.symbol),
        None => put_kind(out, kind::END_OF_TEXT),
    }
}
