//! Names and strings.

use crate::sequence::Sequence;
use edi_lex::Text;

/// A name, with its line.
#[derive(Drop)]
pub struct Name {
    pub text: Text,
    pub line: u16,
}

/// The further names of a list: `{ "," Name }`.
pub type Names = Sequence<Name>;

/// `Char`: a string of one character, with its line.
#[derive(Clone, Copy, PartialEq, Eq, Debug)]
pub struct Char {
    pub character: u8,
    pub line: u16,
}

/// `String`: the characters of a string, with its line.
#[derive(Drop)]
pub struct Chars {
    pub text: Text,
    pub line: u16,
}
