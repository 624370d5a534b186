//! What is open after marks.

ghost use Rattle.std.specs.Prelude.{◌≡◌, IfOk, OnOk};
ghost use Rattle.edi_explain.specs.expected.Opened as spec;

use edi_lex::{Mark, Symbol};
use std::alloc::{AllocError, Global};

/// A symbol that waits for another one that closes it.
#[derive(Clone, Copy)]
pub struct Held {
    pub kind: u8,
    pub line: u16,
}

fn opener(symbol: &Symbol) -> u8
    ensures exact { result ≡ spec.opener symbol.now }
{
    match symbol {
        Symbol::Begin => 8,
        Symbol::If => 16,
        Symbol::While => 32,
        Symbol::When => 31,
        Symbol::Cobegin => 9,
        Symbol::Open => 47,
        Symbol::OpenBracket => 49,
        _ => 0,
    }
}

fn closes(symbol: &Symbol) -> bool
    ensures exact { result ≡ spec.closes symbol.now }
{
    matches!(symbol, Symbol::End | Symbol::Close | Symbol::CloseBracket)
}

/// One mark more.
fn note(held: &mut Vec<Held>, mark: &Mark) -> Result<(), AllocError>
    ensures exact { OnOk result (held.new.items ≡ spec.held_with mark.now held.old.items) }
{
    let kind = opener(&mark.symbol);
    if 0 < kind {
        let line = mark.line;
        held.push(Held { kind, line })?;
        return Ok(());
    }
    if closes(&mark.symbol) {
        let _last = held.pop();
    }
    Ok(())
}

/// What is open after these marks, the innermost last.
pub fn opened(alloc: Global, marks: &[Mark]) -> Result<Vec<Held>, AllocError>
    ensures exact { IfOk result (λ held. held.items ≡ spec.opened marks.now) }
{
    let mut held = Vec::new(alloc);
    for mark in marks {
        note(&mut held, mark)?;
    }
    Ok(held)
}
