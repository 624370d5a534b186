//! The symbols of a text, with their lines.

ghost use Rattle.std.specs.Prelude.{◌≡◌, ◌≤◌, true, [], ◌∷◌, ◌++◌, length, ◌==◌, OnOk, OnErr, slice_get, option_copied};
ghost use Rattle.edi_lex.specs.Spelled.{are_spelled};
ghost use Rattle.edi_lex.specs.Order.{is_orderly, extent};

use crate::Text;
use std::alloc::{AllocError, Global};
use std::marker::Model;

/// A symbol of Edison: a name, a numeral, a string, a word symbol or a special symbol.
#[derive(Debug, Drop, PartialEq, Eq)]
pub enum Symbol {
    /// A letter, and then letters, digits and `_`; no word symbol.
    Name(Text),
    /// The value of a numeral, 0 to 32767.
    Numeral(i16),
    /// The characters of a string, one or more. A string of one character is a character symbol.
    Chars(Text),
    Also,
    And,
    Array,
    Begin,
    Cobegin,
    Const,
    Div,
    Do,
    Else,
    End,
    Enum,
    If,
    In,
    Lib,
    Mod,
    Module,
    Not,
    Or,
    Post,
    Pre,
    Proc,
    Record,
    Set,
    Skip,
    Val,
    Var,
    When,
    While,
    /// `=`
    Equal,
    /// `<>`
    NotEqual,
    /// `<`
    Less,
    /// `<=`
    AtMost,
    /// `>`
    Greater,
    /// `>=`
    AtLeast,
    /// `+`
    Plus,
    /// `-`
    Minus,
    /// `*`
    Star,
    /// `:`
    Colon,
    /// `:=`
    Becomes,
    /// `,`
    Comma,
    /// `;`
    Semicolon,
    /// `.`
    Period,
    /// `(`
    Open,
    /// `)`
    Close,
    /// `[`
    OpenBracket,
    /// `]`
    CloseBracket,
}

/// A symbol and the line on which it stands, counted from 1.
#[derive(Debug, Drop, PartialEq, Eq)]
pub struct Mark {
    pub symbol: Symbol,
    pub line: u16,
}

/// A list of marks.
#[derive(Debug, Drop)]
pub struct Marks {
    items: Vec<Mark>,
}

impl Model for Marks {
    ghost use Rattle.std.specs.Prelude.{List};
    ghost use Rattle.edi_lex.specs.declared.symbol.Mark.{Mark};

    ghost Value = { List Mark };

    ghost view = { λ a. a.items.items };
}

impl Marks {
    /// The empty list. It takes no memory.
    pub fn new(alloc: Global) -> Self
        ensures empty { result ≡ [] }
    {
        Marks {
            items: Vec::new(alloc),
        }
    }

    /// The marks of a `Vec`, without taking memory.
    pub fn from_vec(items: Vec<Mark>) -> Self
        ensures same { result ≡ items.items }
    {
        Marks { items }
    }

    /// The marks as a `Vec`, without taking memory.
    pub fn into_vec(self) -> Vec<Mark>
        ensures same { result.items ≡ self }
    {
        self.items
    }

    /// Adds a mark at the end. After a refusal the list is as before, and the mark is given up.
    pub fn push(&mut self, _alloc: Global, mark: Mark) -> Result<(), AllocError>
        ensures ok { OnOk result (self.new ≡ self.old ++ mark ∷ []) }
        ensures err { OnErr result (self.new ≡ self.old) }
    {
        self.items.push(mark)?;
        Ok(())
    }

    pub fn len(&self) -> usize
        ensures count { result ≡ length self.now }
    {
        self.items.len()
    }

    pub fn is_empty(&self) -> bool
        ensures none { result ≡ (length self.now == 0) }
    {
        self.items.is_empty()
    }

    /// The mark at index `i`, counted from 0.
    pub fn get(&self, i: usize) -> Option<&Mark>
        ensures at { option_copied result ≡ slice_get self.now i }
    {
        self.items.get(i)
    }

    pub fn as_slice(&self) -> &[Mark]
        ensures all { result.now ≡ self.now }
    {
        &self.items
    }
}

/// The symbols of a text, and the line of its end.
///
/// Each symbol is one that the language spells. Lines are at least 1 and never fall, from one symbol to the
/// next and on to the end. The symbols, a string counting its characters, number at most 262,144.
#[derive(Debug, Drop)]
pub struct Symbols {
    pub marks: Marks,
    pub last: u16,
    pub ghost spelled: { are_spelled marks ≡ true },
    pub ghost orderly: { is_orderly 1 marks last ≡ true },
    pub ghost few: { extent marks ≤ 262144 },
}
