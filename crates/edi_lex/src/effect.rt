//! What a byte does to the piece of text that is unfinished before it.

ghost use Rattle.std.specs.Prelude.{◌≡◌};
ghost use Rattle.edi_lex.specs.Specials as special;
ghost use Rattle.edi_lex.specs.Effects as spec;

use crate::bytes::{
    is_comment_byte, is_digit, is_letter, is_name_byte, is_separator, is_string_byte,
};
use crate::fault::LexFault;
use crate::symbol::Symbol;

/// The piece that the text so far leaves unfinished.
#[derive(Clone, Copy, Debug, PartialEq, Eq)]
pub(crate) enum Unfinished {
    /// None.
    Nothing,
    /// A comment, with the line of its opening quotation mark. Nothing of it is kept.
    Comment(u16),
    /// A name or a word symbol. Its bytes are kept.
    Name,
    /// A numeral. Its digits are kept.
    Numeral,
    /// A string. Its characters are kept, which may be none so far.
    Chars,
    /// Two apostrophes. One is kept.
    Apostrophes,
    /// A special symbol of this byte, or the first byte of a longer one.
    Special(u8),
}

/// What a byte does.
#[derive(Debug, Drop)]
pub(crate) enum Effect {
    /// It belongs to the piece, is not kept, and this is unfinished then.
    Passes(Unfinished),
    /// It belongs to the piece, is kept, and this is unfinished then.
    Keeps(Unfinished),
    /// It is the last byte of this symbol.
    Completes(Symbol),
    /// It is the apostrophe that ends a string.
    Closes,
    /// It does not belong to the piece, which has ended before it.
    Ends,
    /// It makes this fault certain.
    Fails(LexFault),
}

/// The special symbol of this one byte.
pub(crate) fn special(byte: u8) -> Option<Symbol>
    ensures exact { result ≡ special.special_of byte }
{
    match byte {
        b'(' => Some(Symbol::Open),
        b')' => Some(Symbol::Close),
        b'*' => Some(Symbol::Star),
        b'+' => Some(Symbol::Plus),
        b',' => Some(Symbol::Comma),
        b'-' => Some(Symbol::Minus),
        b'.' => Some(Symbol::Period),
        b':' => Some(Symbol::Colon),
        b';' => Some(Symbol::Semicolon),
        b'<' => Some(Symbol::Less),
        b'=' => Some(Symbol::Equal),
        b'>' => Some(Symbol::Greater),
        b'[' => Some(Symbol::OpenBracket),
        b']' => Some(Symbol::CloseBracket),
        _ => None,
    }
}

/// The special symbol of these two bytes.
fn special_pair(first: u8, second: u8) -> Option<Symbol>
    ensures exact { result ≡ special.special_pair first second }
{
    match second {
        b'=' => match first {
            b'<' => Some(Symbol::AtMost),
            b'>' => Some(Symbol::AtLeast),
            b':' => Some(Symbol::Becomes),
            _ => None,
        },
        b'>' => match first {
            b'<' => Some(Symbol::NotEqual),
            _ => None,
        },
        _ => None,
    }
}

/// What a byte does where no piece is unfinished.
pub(crate) fn first_effect(byte: u8, line: u16) -> Effect
    ensures exact { result ≡ spec.first_effect byte line }
{
    if is_letter(byte) {
        return Effect::Keeps(Unfinished::Name);
    }
    if is_digit(byte) {
        return Effect::Keeps(Unfinished::Numeral);
    }
    if is_separator(byte) {
        return Effect::Passes(Unfinished::Nothing);
    }
    if byte == b'"' {
        return Effect::Passes(Unfinished::Comment(line));
    }
    if byte == b'\'' {
        return Effect::Passes(Unfinished::Chars);
    }
    match special(byte) {
        Some(_) => Effect::Passes(Unfinished::Special(byte)),
        None => Effect::Fails(LexFault::BadCharacter(line)),
    }
}

fn comment_turn(begun: u16, byte: u8) -> Effect
    ensures exact { result ≡ spec.comment_turn begun byte }
{
    if byte == b'"' {
        return Effect::Passes(Unfinished::Nothing);
    }
    if is_comment_byte(byte) {
        return Effect::Passes(Unfinished::Comment(begun));
    }
    Effect::Fails(LexFault::BadCharacter(begun))
}

fn string_turn(is_empty: bool, byte: u8, line: u16) -> Effect
    ensures exact { result ≡ spec.string_turn is_empty byte line }
{
    if byte == b'\'' {
        return if is_empty {
            Effect::Keeps(Unfinished::Apostrophes)
        } else {
            Effect::Closes
        };
    }
    if is_string_byte(byte) {
        return Effect::Keeps(Unfinished::Chars);
    }
    Effect::Fails(LexFault::BadCharacter(line))
}

/// What a byte does behind an unfinished piece, of which no byte may be kept.
pub(crate) fn next_effect(unfinished: Unfinished, is_empty: bool, byte: u8, line: u16) -> Effect
    ensures exact { result ≡ spec.next_effect unfinished is_empty byte line }
{
    match unfinished {
        Unfinished::Nothing => Effect::Ends,
        Unfinished::Comment(begun) => comment_turn(begun, byte),
        Unfinished::Name if is_name_byte(byte) => Effect::Keeps(Unfinished::Name),
        Unfinished::Numeral if is_digit(byte) => Effect::Keeps(Unfinished::Numeral),
        Unfinished::Name | Unfinished::Numeral => Effect::Ends,
        Unfinished::Chars => string_turn(is_empty, byte, line),
        Unfinished::Apostrophes if byte == b'\'' => Effect::Closes,
        Unfinished::Apostrophes => Effect::Fails(LexFault::BadCharacter(line)),
        Unfinished::Special(first) => match special_pair(first, byte) {
            Some(symbol) => Effect::Completes(symbol),
            None => Effect::Ends,
        },
    }
}
