//! The grammar of Edison as data, and what holds of the predictive parser of every grammar in which one symbol in hand
//! decides. The definitions and laws are in `specs/` and `proofs/`; the functions here only state the laws.
#![tactic(auto)]

pub mod derivation;

ghost use Rattle.std.specs.Prelude.{◌≡◌, ℕ, List, Option, true};
ghost use Rattle.edi_lex.specs.declared.symbol.Mark.{Mark};
ghost use Rattle.edi_grammar.specs.Parser.{Stops, Why};
ghost use Rattle.edi_grammar.specs.Fair.{part_is_fair};
ghost use Rattle.edi_grammar.specs.Verdict.{Verdict};
ghost use Rattle.edi_grammar.specs.Rules.{Sort};
ghost use Rattle.edi_grammar.specs.Edison.{edison, start};

/// In each part of the grammar of Edison the symbol in hand decides which rule is taken.
pub fn one_symbol_decides()
    ensures fair { (k : Sort) → part_is_fair edison k ≡ true }
{}

/// Where the predictive parser stops that waits for a program and then the end of the text, the symbols before begin some
/// text, and nothing in them opens a level beyond the limit. With the symbol in hand they begin no text, or that symbol
/// opens a level beyond the limit in each text that they begin; or the symbols are a whole text.
pub fn the_stop_is_the_first_fault()
    ensures exact { (limit : ℕ) (words : List (Option Mark)) (y : Why) (r : List (Option Mark)) →
        Stops edison limit start words y r → Verdict edison y limit start words r }
{}
