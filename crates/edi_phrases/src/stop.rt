//! What stands in front of marks, and where the parser stops.

ghost use Rattle.std.specs.Prelude.{◌≡◌, ◌∷◌, ◌<◌, true, length, nat_eq, IfSome, IfNone, IfOk, IfErr};
ghost use Rattle.edi_lex.specs.declared.symbol.Symbol.TheVariants as is;
ghost use Rattle.edi_grammar.specs.Kind as kinds;
ghost use Rattle.edi_grammar.specs.Kind.{front};
ghost use Rattle.edi_phrases.specs.Words.{at_line, is_word};
ghost use Rattle.edi_phrases.specs.Stopped.{Lacks, Refuses};
ghost use Rattle.edi_phrases.specs.declared.stop.Stop.TheVariants as stop;

use crate::kind;
use edi_lex::{Mark, Symbol, Text};
use std::alloc::{AllocError, AllocFailed};

/// The greatest number of levels that may be open at once.
pub const LEVELS: u16 = 64;

/// Where the parser stops before the end of a part.
pub enum Stop<'a> {
    /// The first of these marks, or the end of the text, may not stand here.
    Fault(&'a [Mark]),
    /// The first of these marks opens a level too many.
    TooDeep(&'a [Mark]),
    /// Memory has run out.
    NoMemory,
}

/// What a parsing function gives: what it has read, and the marks after it.
pub type Parsed<'a, T> = Result<(T, &'a [Mark]), Stop<'a>>;

impl From<AllocError> for Stop<'_> {
    ghost from_gives = { λ _ e. e ≡ stop.NoMemory };

    fn from(_error: AllocError) -> Self {
        Stop::NoMemory
    }
}

impl<T: Drop> From<AllocFailed<T>> for Stop<'_> {
    ghost from_gives = { λ _ e. e ≡ stop.NoMemory };

    fn from(_error: AllocFailed<T>) -> Self {
        Stop::NoMemory
    }
}

/// The kind of a string: one of one character is told from the others.
#[tactic(auto, using(crate::proofs::Symbols::one_character, crate::proofs::Symbols::not_one_character))]
fn kind_of_string(text: &Text) -> u8
    ensures exact { result ≡ kinds.kind_of (is.Chars text.now) }
{
    if text.len() == 1 {
        kind::CHAR
    } else {
        kind::TEXT
    }
}

/// The kind of a symbol. Symbols of one kind differ in their values alone.
pub fn kind_of(symbol: &Symbol) -> u8
    ensures exact { result ≡ kinds.kind_of symbol.now }
{
    match symbol {
        Symbol::Name(_) => kind::NAME,
        Symbol::Numeral(_) => kind::NUMERAL,
        Symbol::Chars(text) => kind_of_string(text),
        Symbol::Also => kind::ALSO,
        Symbol::And => kind::AND,
        Symbol::Array => kind::ARRAY,
        Symbol::Begin => kind::BEGIN,
        Symbol::Cobegin => kind::COBEGIN,
        Symbol::Const => kind::CONST,
        Symbol::Div => kind::DIV,
        Symbol::Do => kind::DO,
        Symbol::Else => kind::ELSE,
        Symbol::End => kind::END,
        Symbol::Enum => kind::ENUM,
        Symbol::If => kind::IF,
        Symbol::In => kind::IN,
        Symbol::Lib => kind::LIB,
        Symbol::Mod => kind::MOD,
        Symbol::Module => kind::MODULE,
        Symbol::Not => kind::NOT,
        Symbol::Or => kind::OR,
        Symbol::Post => kind::POST,
        Symbol::Pre => kind::PRE,
        Symbol::Proc => kind::PROC,
        Symbol::Record => kind::RECORD,
        Symbol::Set => kind::SET,
        Symbol::Skip => kind::SKIP,
        Symbol::Val => kind::VAL,
        Symbol::Var => kind::VAR,
        Symbol::When => kind::WHEN,
        Symbol::While => kind::WHILE,
        Symbol::Equal => kind::EQUAL,
        Symbol::NotEqual => kind::NOT_EQUAL,
        Symbol::Less => kind::LESS,
        Symbol::AtMost => kind::AT_MOST,
        Symbol::Greater => kind::GREATER,
        Symbol::AtLeast => kind::AT_LEAST,
        Symbol::Plus => kind::PLUS,
        Symbol::Minus => kind::MINUS,
        Symbol::Star => kind::STAR,
        Symbol::Colon => kind::COLON,
        Symbol::Becomes => kind::BECOMES,
        Symbol::Comma => kind::COMMA,
        Symbol::Semicolon => kind::SEMICOLON,
        Symbol::Period => kind::PERIOD,
        Symbol::Open => kind::OPEN,
        Symbol::Close => kind::CLOSE,
        Symbol::OpenBracket => kind::OPEN_BRACKET,
        Symbol::CloseBracket => kind::CLOSE_BRACKET,
    }
}

/// The line of this symbol and the marks after it, if it is in front.
#[tactic(auto, using(crate::proofs::Symbols::same_word))]
pub fn eat<'a>(marks: &'a [Mark], wanted: &Symbol) -> Option<(u16, &'a [Mark])>
    requires word { is_word wanted.now ≡ true }
    ensures found { IfSome result (λ r. marks.now ≡ at_line wanted.now r.0 ∷ r.1.now) }
    ensures shorter { IfSome result (λ r. length r.1.now < length marks.now) }
    ensures none { IfNone result (front marks.now ≡ kinds.kind_of wanted.now → ⊥) }
{
    let (first, rest) = marks.split_first()?;
    if kind_of(&first.symbol) == kind_of(wanted) {
        Some((first.line, rest))
    } else {
        None
    }
}

/// Whether this symbol is in front.
pub fn at(marks: &[Mark], wanted: &Symbol) -> bool
    requires word { is_word wanted.now ≡ true }
    ensures exact { result ≡ nat_eq (front marks.now) (kinds.kind_of wanted.now) }
{
    eat(marks, wanted).is_some()
}

/// The line of this symbol, which must stand here, and the marks after it.
pub fn expect<'a>(marks: &'a [Mark], wanted: &Symbol) -> Parsed<'a, u16>
    requires word { is_word wanted.now ≡ true }
    ensures found { IfOk result (λ r. marks.now ≡ at_line wanted.now r.0 ∷ r.1.now) }
    ensures shorter { IfOk result (λ r. length r.1.now < length marks.now) }
    ensures none { IfErr result (λ e. Lacks (kinds.kind_of wanted.now) marks.now e) }
{
    match eat(marks, wanted) {
        Some(found) => Ok(found),
        None => Err(Stop::Fault(marks)),
    }
}

/// The line of this symbol, which must stand here and opens a level where so many are open, and the marks after it.
pub fn open<'a>(marks: &'a [Mark], wanted: &Symbol, level: u16) -> Parsed<'a, u16>
    requires word { is_word wanted.now ≡ true }
    ensures found { IfOk result (λ r. marks.now ≡ at_line wanted.now r.0 ∷ r.1.now) }
    ensures room { IfOk result (λ r. level < 64) }
    ensures shorter { IfOk result (λ r. length r.1.now < length marks.now) }
    ensures none { IfErr result (λ e. Refuses (kinds.kind_of wanted.now) level marks.now e) }
{
    let Some(found) = eat(marks, wanted) else {
        return Err(Stop::Fault(marks));
    };
    if level >= LEVELS {
        return Err(Stop::TooDeep(marks));
    }
    Ok(found)
}
