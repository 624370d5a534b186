//! Titles of files.

ghost use Rattle.std.specs.Prelude.{◌≡◌};
ghost use Rattle.std.specs.List.{list_all};
ghost use Rattle.edi_calls.specs.State.{is_title, is_letter, is_title_character};

fn is_letter(c: u8) -> bool
    ensures { result ≡ is_letter c }
{
    c.is_ascii_alphabetic()
}

fn is_title_character(c: u8) -> bool
    ensures { result ≡ is_title_character c }
{
    is_letter(c) || c.is_ascii_digit() || c == b'_'
}

fn are_title_characters(characters: &[u8]) -> bool
    ensures { result ≡ list_all is_title_character characters.now }
{
    characters.iter().all(|c| is_title_character(*c))
}

/// Whether these characters are a title: a letter, and after it at most 23 letters, digits and `_`.
pub fn is_title(title: &[u8]) -> bool
    ensures { result ≡ is_title title.now }
{
    let Some((first, rest)) = title.split_first() else {
        return false;
    };
    is_letter(*first) && are_title_characters(rest) && rest.len() < 24
}
