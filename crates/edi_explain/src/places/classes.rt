//! Classes of bytes, and how many bytes of one stand in front.

ghost use Rattle.std.specs.Prelude.{◌≡◌, ◌≤◌, length};
ghost use Rattle.std.specs.List.{prefix_len};
ghost use Rattle.edi_lex.specs.Bytes as spec;
ghost use Rattle.edi_explain.specs.places.Cuts as cuts;

use edi_lex::{is_digit, is_letter, is_separator};

#[derive(Clone, Copy)]
pub enum Class {
    Digits,
    Names,
    Strings,
    Comments,
}

fn is_name_byte(b: u8) -> bool
    ensures exact { result ≡ spec.is_name_byte b }
{
    is_letter(b) || is_digit(b) || b == b'_'
}

fn is_graphic(b: u8) -> bool
    ensures exact { result ≡ spec.is_graphic b }
{
    b' ' <= b && b <= b'~'
}

fn is_string_byte(b: u8) -> bool
    ensures exact { result ≡ spec.is_string_byte b }
{
    is_graphic(b) && b != b'\''
}

fn is_comment_byte(b: u8) -> bool
    ensures exact { result ≡ spec.is_comment_byte b }
{
    (is_graphic(b) && b != b'"') || is_separator(b)
}

fn belongs(class: Class, b: u8) -> bool
    ensures exact { result ≡ cuts.belongs class b }
{
    match class {
        Class::Digits => is_digit(b),
        Class::Names => is_name_byte(b),
        Class::Strings => is_string_byte(b),
        Class::Comments => is_comment_byte(b),
    }
}

/// How many bytes of the class stand in front.
pub fn length_of(class: Class, bytes: &[u8]) -> usize
    ensures exact { result ≡ prefix_len (cuts.belongs class) bytes.now }
    ensures most { result ≤ length bytes.now }
{
    let mut length: usize = 0;
    while length < bytes.len() && belongs(class, bytes[length]) {
        length += 1;
    }
    length
}
