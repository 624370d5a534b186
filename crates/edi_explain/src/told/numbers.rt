//! The kind of what stands at a place.

ghost use Rattle.std.specs.Prelude.{◌≡◌, option_copied};
ghost use Rattle.edi_grammar.specs.Kind as kinds;

use edi_lex::Mark;
use edi_phrases::{kind, kind_of};

/// The kind of what stands at a place; 0 is the end of the text.
pub(crate) fn kind_at(here: Option<&Mark>) -> u8
    ensures exact { result ≡ kinds.kind_at (option_copied here.entry) }
{
    match here {
        Some(mark) => kind_of(&mark.symbol),
        None => kind::END_OF_TEXT,
    }
}
