//! A title of the words of a command.

ghost use Rattle.std.specs.Prelude.{◌≡◌, true};
ghost use Rattle.edi_calls.specs.State.{is_title};

use edi_catalog::Title;

/// The title that these characters are.
pub(crate) fn title_of(characters: &str) -> Title
    requires title { is_title characters.now ≡ true }
    ensures exact { result ≡ characters.now }
{
    match Title::new(characters.as_bytes()) {
        Some(title) => title,
        None => unreachable!(),
    }
}
