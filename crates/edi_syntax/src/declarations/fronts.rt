//! Whether a part may begin with the symbol in front.

ghost use Rattle.std.specs.Prelude.{◌≡◌};
ghost use Rattle.edi_phrases.specs.Prelude.{front, has};
ghost use Rattle.edi_grammar.specs.Rules as g;
ghost use Rattle.edi_grammar.specs.Edison as sets;

use edi_lex::{Mark, Symbol};
use edi_phrases::{at, at_type_decl};

/// Whether a list of constants or the declaration of a type is in front.
pub fn at_global(marks: &[Mark]) -> bool
    ensures exact { result ≡ has (front marks.now) (sets.first g.Global) }
{
    if at(marks, &Symbol::Const) {
        return true;
    }
    at_type_decl(marks)
}

/// Whether an item or a module is in front.
pub fn at_declaration(marks: &[Mark]) -> bool
    ensures exact { result ≡ has (front marks.now) (sets.first g.Declaration) }
{
    match marks.first() {
        Some(mark) => matches!(
            mark.symbol,
            Symbol::Array
                | Symbol::Const
                | Symbol::Enum
                | Symbol::Module
                | Symbol::Post
                | Symbol::Pre
                | Symbol::Proc
                | Symbol::Record
                | Symbol::Set
                | Symbol::Var
        ),
        None => false,
    }
}

/// Whether an item, with or without `*`, or a module is in front.
pub fn at_member(marks: &[Mark]) -> bool
    ensures exact { result ≡ has (front marks.now) (sets.first g.Member) }
{
    if at(marks, &Symbol::Star) {
        return true;
    }
    at_declaration(marks)
}
