//! The piece that stands in front of a text.

ghost use Rattle.std.specs.Prelude.{◌≡◌, ◌+◌, ◌≤◌, ◌<◌, ◌∷◌, ℕ, List, Ok, drop, length};
ghost use Rattle.edi_lex.specs.declared.symbol.Mark.{Mark};
ghost use Rattle.edi_explain.specs.places.Places as places;
ghost use Rattle.edi_lex.specs.Symbols as text;
ghost use Rattle.edi_explain.specs.places.Cuts.{Cuts, Within, is_there};
ghost use Rattle.edi_lex.specs.Spelling.{number_of};
ghost use Rattle.edi_lex.specs.Specials.{special_of, special_pair};

use crate::places::classes::{Class, length_of};
use edi_lex::{is_digit, is_letter, is_separator};

/// A piece of a text, with how many bytes it has after its first.
#[derive(Clone, Copy)]
pub enum Cut {
    Space(usize),
    Symbol(usize),
    Stray,
}

/// Behind the opening quotation mark.
fn comment(rest: &[u8]) -> Cut
    ensures exact { Cuts (text.comment_piece rest.now) result }
    ensures within { Within (length rest.now) result }
{
    let length = length_of(Class::Comments, rest);
    if length < rest.len() && rest[length] == b'"' {
        return Cut::Space(length + 1);
    }
    Cut::Stray
}

/// Behind the opening apostrophe.
fn string(rest: &[u8]) -> Cut
    ensures exact { Cuts (text.string_piece rest.now) result }
    ensures within { Within (length rest.now) result }
{
    if rest.starts_with(b"''") {
        return Cut::Symbol(2);
    }
    let length = length_of(Class::Strings, rest);
    if 0 < length && length < rest.len() && rest[length] == b'\'' {
        return Cut::Symbol(length + 1);
    }
    Cut::Stray
}

/// The digits of a numeral, after its first one, or that it is too great.
fn digits_cut(first: u8, digits: &[u8]) -> Cut
    ensures exact { Cuts (text.with_value (number_of (first ∷ digits.now)) (length digits.now)) result }
    ensures within { Within (length digits.now) result }
{
    let mut value: u32 = u32::from(first.saturating_sub(b'0'));
    for digit in digits {
        value = value * 10 + u32::from(digit.saturating_sub(b'0'));
        if value > 32767 {
            return Cut::Stray;
        }
    }
    Cut::Symbol(digits.len())
}

/// Behind the first digit.
fn numeral(byte: u8, rest: &[u8]) -> Cut
    ensures exact { Cuts (text.numeral_piece byte rest.now) result }
    ensures within { Within (length rest.now) result }
{
    let length = length_of(Class::Digits, rest);
    let (digits, _) = rest.split_at(length);
    digits_cut(byte, digits)
}

/// Whether a special symbol of these two bytes is there.
fn is_pair(byte: u8, next: u8) -> bool
    ensures exact { result ≡ is_there (special_pair byte next) }
{
    match next {
        b'=' => byte == b'<' || byte == b'>' || byte == b':',
        b'>' => byte == b'<',
        _ => false,
    }
}

/// Whether a special symbol of this byte is there.
fn is_special(byte: u8) -> bool
    ensures exact { result ≡ is_there (special_of byte) }
{
    matches!(
        byte,
        b'(' | b')'
            | b'*'
            | b'+'
            | b','
            | b'-'
            | b'.'
            | b':'
            | b';'
            | b'<'
            | b'='
            | b'>'
            | b'['
            | b']'
    )
}

/// The longer one.
fn special(byte: u8, rest: &[u8]) -> Cut
    ensures exact { Cuts (text.special_piece byte rest.now) result }
    ensures within { Within (length rest.now) result }
{
    if !is_special(byte) {
        return Cut::Stray;
    }
    match rest.first() {
        Some(next) => {
            if is_pair(byte, *next) {
                Cut::Symbol(1)
            } else {
                Cut::Symbol(0)
            }
        }
        None => Cut::Symbol(0),
    }
}

/// What stands in front of a text, by its first byte.
#[tactic(auto, unfolding(edi_lex::specs::Symbols::piece_of))]
pub fn cut_of(byte: u8, rest: &[u8]) -> Cut
    ensures exact { Cuts (text.piece_of byte rest.now) result }
    ensures within { Within (length rest.now) result }
{
    if is_letter(byte) {
        return Cut::Symbol(length_of(Class::Names, rest));
    }
    if is_digit(byte) {
        return numeral(byte, rest);
    }
    if is_separator(byte) {
        return Cut::Space(0);
    }
    if byte == b'"' {
        return comment(rest);
    }
    if byte == b'\'' {
        return string(rest);
    }
    special(byte, rest)
}

/// The bytes after so many.
fn bytes_after(bytes: &[u8], count: usize) -> &[u8]
    requires { count ≤ length bytes.now }
    ensures exact { result.now ≡ drop count bytes.now }
    ensures left { length result.now + count ≡ length bytes.now }
{
    let (_, rest) = bytes.split_at(count);
    rest
}

/// Where the symbol of this index of a text that has symbols begins and ends; where it has no more, the place after its
/// last byte.
pub fn place_of(bytes: &[u8], index: u32) -> (usize, usize)
    ensures exact { (found : List Mark × ℕ) → text.symbols_from bytes.now 0 1 ≡ Ok found → result ≡ places.place_of bytes.now index }
{
    let mut at: usize = 0;
    let mut left = index;
    while at < bytes.len() {
        match cut_of(bytes[at], bytes_after(bytes, at + 1)) {
            Cut::Space(more) => {
                at = at + more + 1;
            }
            Cut::Symbol(more) => {
                if left == 0 {
                    return (at, at + more + 1);
                }
                left -= 1;
                at = at + more + 1;
            }
            Cut::Stray => return (bytes.len(), bytes.len()),
        }
    }
    (bytes.len(), bytes.len())
}
