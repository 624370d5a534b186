//! What is known of a text.

ghost use Rattle.std.specs.Prelude.{IfSome, Ok};
ghost use Rattle.edi_dump.specs.Views.{program_of};
ghost use Rattle.edi_lex.specs.Symbols.{symbols_of};
ghost use Rattle.edi_dumped.specs.Dumps.{HasProgram};

use edi_dump::Known;
use edi_lex::{Symbols, scan};
use edi_sema::resolve;
use edi_sights::names;
use edi_syntax::parse;
use std::alloc::Global;

/// The same by the symbols of the text.
fn known_by(alloc: Global, symbols: &Symbols) -> Option<Known>
    ensures known { IfSome result (λ known. HasProgram (Ok (symbols.now.marks, symbols.now.last)) (program_of known)) }
{
    let Ok(tree) = parse(alloc, symbols) else {
        return None;
    };
    let Ok(unit) = resolve(alloc, &tree) else {
        return None;
    };
    let Ok(names) = names(alloc, &tree) else {
        return None;
    };
    Some(Known { unit, names })
}

/// The unit and the names of a text; none where memory runs out, and where the text is not accepted.
pub(crate) fn known_of(alloc: Global, text: &[u8]) -> Option<Known>
    ensures known { IfSome result (λ known. HasProgram (symbols_of text.now) (program_of known)) }
{
    let Ok(symbols) = scan(alloc, text) else {
        return None;
    };
    known_by(alloc, &symbols)
}
