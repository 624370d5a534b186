//! Titles of files.

ghost use Rattle.std.specs.Prelude.{◌≡◌, true};
ghost use Rattle.std.specs.Str.{bytes_eq};
ghost use Rattle.std.specs.Cmp.{partial_equiv_from_equiv};
ghost use Rattle.std.specs.Cmp.Lexicographic.{nat_list_eq_equiv};
ghost use Rattle.edi_calls.specs.State.{is_title, without_blanks};
ghost use Rattle.edi_image.specs.Titles.{title_from, with_blanks};

use edi_calls::is_title;
use std::marker::Model;

/// The greatest number of characters of a title.
pub const TITLE: usize = 24;

const BLANK: u8 = b' ';

/// The title of a file: a letter, and after it at most 23 letters, digits and `_`. Contracts see its characters.
#[derive(Clone, Copy, Debug)]
pub struct Title([u8; TITLE]);

impl Model for Title {
    ghost use Rattle.std.specs.Prelude.{ℕ, List};
    ghost use Rattle.edi_calls.specs.State.{without_blanks};
    ghost use Rattle.edi_image.specs.Titles.{IsTitleField, with_blanks, with_blanks-without_blanks};

    ghost Value = { List ℕ };

    ghost view = { λ title. without_blanks title.0 };

    ghost invariant = { λ title. IsTitleField title.0 };

    ghost inverse = { λ characters. record { 0 = with_blanks 24 characters } };

    ghost inverse_ok = { λ title field i. record { 0 = with_blanks-without_blanks title.0 field i } };
}

impl PartialEq for Title {
    ghost eq = { bytes_eq };

    ghost laws = { partial_equiv_from_equiv nat_list_eq_equiv };

    fn eq(&self, other: &Title) -> bool {
        self.bytes() == other.bytes()
    }
}

impl Eq for Title {
    ghost laws = { nat_list_eq_equiv };
}

impl Title {
    /// The title that these characters are, without the blanks at their end; `None` where that is no title.
    pub fn new(bytes: &[u8]) -> Option<Title>
        ensures exact { result ≡ title_from bytes.now }
    {
        let title = without_blanks(bytes);
        if is_title(title) {
            Some(filled(title))
        } else {
            None
        }
    }

    /// The characters, without blanks.
    pub fn bytes(&self) -> &[u8]
        ensures exact { result.now ≡ self.now }
        ensures title { is_title self.now ≡ true }
    {
        without_blanks(&self.0)
    }

    /// The same title; that it is one is known from then on.
    pub fn copied(&self) -> Title
        ensures same { result ≡ self.now }
        ensures title { is_title self.now ≡ true }
    {
        Title(self.0)
    }

    /// The characters, and blanks behind them, as an entry has them.
    pub fn characters(&self) -> &[u8; TITLE]
        ensures { result.now ≡ with_blanks 24 self.now }
    {
        &self.0
    }
}

// The title of these characters.
fn filled(title: &[u8]) -> Title
    requires { is_title title.now ≡ true }
    ensures { result ≡ title.now }
{
    let mut characters = [BLANK; TITLE];
    let (start, _) = characters.split_at_mut(title.len());
    start.copy_from_slice(title);
    Title(characters)
}

// The characters without the blanks at the end.
fn without_blanks(characters: &[u8]) -> &[u8]
    ensures { result.now ≡ without_blanks characters.now }
{
    let mut kept = 0;
    for (index, character) in characters.iter().enumerate() {
        if *character != BLANK {
            kept = index + 1;
        }
    }
    let (title, _) = characters.split_at(kept);
    title
}
