//! The word symbols.

ghost use Rattle.std.specs.Prelude.{◌≡◌};
ghost use Rattle.edi_lex.specs.Words as spec;

use crate::symbol::Symbol;

/// The symbol beside the first of these spellings that is the name, if one is.
macro_rules! beside {
    ($name:expr, $($spelling:literal => $symbol:ident,)*) => {{
        $(
            if $name == $spelling.as_slice() {
                return Some(Symbol::$symbol);
            }
        )*
        None
    }};
}

/// The word symbol that is spelled so.
pub(crate) fn word(name: &[u8]) -> Option<Symbol>
    ensures exact { result ≡ spec.word_of name.now }
{
    beside!(
        name,
        b"also" => Also,
        b"and" => And,
        b"array" => Array,
        b"begin" => Begin,
        b"cobegin" => Cobegin,
        b"const" => Const,
        b"div" => Div,
        b"do" => Do,
        b"else" => Else,
        b"end" => End,
        b"enum" => Enum,
        b"if" => If,
        b"in" => In,
        b"lib" => Lib,
        b"mod" => Mod,
        b"module" => Module,
        b"not" => Not,
        b"or" => Or,
        b"post" => Post,
        b"pre" => Pre,
        b"proc" => Proc,
        b"record" => Record,
        b"set" => Set,
        b"skip" => Skip,
        b"val" => Val,
        b"var" => Var,
        b"when" => When,
        b"while" => While,
    )
}
