//! Classes of bytes.

ghost use Rattle.std.specs.Prelude.{◌≡◌};
ghost use Rattle.edi_lex.specs.Bytes as spec;

/// A blank, a tab or an end of a line: a byte that only parts symbols.
pub fn is_separator(b: u8) -> bool
    ensures exact { result ≡ spec.is_separator b }
{
    b == b' ' || b == b'\t' || b == b'\r' || b == b'\n'
}

/// A letter of a name, small or capital.
pub fn is_letter(b: u8) -> bool
    ensures exact { result ≡ spec.is_letter b }
{
    (b'a' <= b && b <= b'z') || (b'A' <= b && b <= b'Z')
}

/// A decimal digit.
pub fn is_digit(b: u8) -> bool
    ensures exact { result ≡ spec.is_digit b }
{
    b'0' <= b && b <= b'9'
}

pub(crate) fn is_name_byte(b: u8) -> bool
    ensures exact { result ≡ spec.is_name_byte b }
{
    is_letter(b) || is_digit(b) || b == b'_'
}

fn is_graphic(b: u8) -> bool
    ensures exact { result ≡ spec.is_graphic b }
{
    b' ' <= b && b <= b'~'
}

/// A byte that may stand between the apostrophes of a string.
pub(crate) fn is_string_byte(b: u8) -> bool
    ensures exact { result ≡ spec.is_string_byte b }
{
    is_graphic(b) && b != b'\''
}

/// A byte that may stand between the quotation marks of a comment.
pub(crate) fn is_comment_byte(b: u8) -> bool
    ensures exact { result ≡ spec.is_comment_byte b }
{
    (is_graphic(b) && b != b'"') || is_separator(b)
}

/// 1 for a line feed, else 0.
pub(crate) fn feeds_at(b: u8) -> u16
    ensures exact { result ≡ spec.feeds_at b }
{
    if b == b'\n' { 1 } else { 0 }
}
