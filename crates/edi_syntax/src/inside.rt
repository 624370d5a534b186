//! Symbols that Edison has and the profile leaves out.

ghost use Rattle.std.specs.Prelude.{◌≡◌, ◌+◌, ◌≤◌, ◌<◌, Bool, List};
ghost use Rattle.edi_syntax.specs.Inside as inside;
ghost use Rattle.edi_syntax.specs.Inside.{height, open_with};
ghost use Rattle.edi_syntax.specs.Refusal.{leaves_out};

use edi_lex::{Mark, Symbol};

fn is_begin(symbol: &Symbol) -> bool
    ensures exact { result ≡ inside.is_begin symbol.now }
{
    matches!(symbol, Symbol::Begin)
}

/// Whether this begins a statement that an `end` closes.
fn is_statement(symbol: &Symbol) -> bool
    ensures exact { result ≡ inside.is_statement symbol.now }
{
    matches!(
        symbol,
        Symbol::If | Symbol::While | Symbol::When | Symbol::Cobegin
    )
}

fn is_end(symbol: &Symbol) -> bool
    ensures exact { result ≡ inside.is_end symbol.now }
{
    matches!(symbol, Symbol::End)
}

/// How many wait for their `end` from the outermost `begin` on, behind one symbol more.
fn count_behind(count: usize, symbol: &Symbol) -> usize
    requires { count < usize.MAX }
    ensures exact { (waiting : List Bool) → height waiting ≡ count → height (open_with symbol.now waiting) ≡ result }
    ensures small { result ≤ count + 1 }
{
    if is_begin(symbol) {
        return count + 1;
    }
    if is_statement(symbol) {
        return if count == 0 { 0 } else { count + 1 };
    }
    if is_end(symbol) {
        return count.saturating_sub(1);
    }
    count
}

/// Whether a `begin` stands in these marks whose closing `end` does not.
fn is_in_begin(marks: &[Mark]) -> bool
    ensures exact { result ≡ inside.is_in_begin marks.now }
{
    let mut count: usize = 0;
    for mark in marks {
        count = count_behind(count, &mark.symbol);
    }
    count > 0
}

/// Whether Edison has this symbol behind these marks, where it may not stand, and the profile leaves it out.
pub fn is_outside(before: &[Mark], symbol: &Symbol) -> bool
    ensures exact { result ≡ leaves_out (inside.is_in_begin before.now) symbol.now }
{
    match symbol {
        Symbol::Lib => true,
        Symbol::Colon => is_in_begin(before),
        _ => false,
    }
}
