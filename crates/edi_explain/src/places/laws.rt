//! Laws of the definitions. Each function does nothing, and its contract is the law.

ghost use Rattle.std.specs.Prelude.{◌≡◌, ℕ, List, Ok};
ghost use Rattle.edi_lex.specs.Symbols.{symbols_from};
ghost use Rattle.edi_lex.specs.declared.symbol.Mark.{Mark};
ghost use Rattle.edi_explain.specs.places.Places.{places_of, StandAt};

/// Each symbol of a text stands at its place, on its line.
pub fn symbols_stand_at_their_places()
    ensures law { (text : List ℕ) (found : List Mark × ℕ) → symbols_from text 0 1 ≡ Ok found → StandAt text found.0 (places_of text) }
{}
