//! Syntax trees and derivations of the grammar are the same: each tree is derived from what it spells, and what is derived is
//! spelled by a tree. So the place where the predictive parser stops is the first fault, in the words of trees alone. The
//! definitions and proofs are in `specs/derivation/` and `proofs/derivation/`; the functions here only state the laws.

ghost use Rattle.std.specs.Prelude.{◌≡◌, ◌∷◌, ◌++◌, [], ℕ, List, Option, Some};
ghost use Rattle.edi_lex.specs.declared.symbol.Mark.{Mark};
ghost use Rattle.edi_tree.specs.Tree.{Program};
ghost use Rattle.edi_tree.specs.Spells.{Spells, to_end};
ghost use Rattle.edi_grammar.specs.Parser.{Stops, complete, too_deep, wrong};
ghost use Rattle.edi_grammar.specs.Edison.{edison, start};
ghost use Rattle.edi_grammar.specs.derivation.Faults.{IsMisplaced, IsTheTree, IsTooDeepAt, somes};

/// No two programs spell the same marks.
pub fn programs_are_spelled_once()
    ensures one { (tree other : Program) (marks : List Mark) → Spells tree marks → Spells other marks → tree ≡ other }
{}

/// Where the predictive parser stops that waits for a program and then the end of the text, with 64 levels as its limit, is
/// the first fault: the marks before begin a program and with the one in hand they begin none, or it is the first that opens
/// a level too many. The marks before, and what the parser has left, are all of the marks. Where it reads all of the marks, a tree that spells them
/// is the only one, and not too deep.
pub fn the_stop_is_the_first_fault()
    ensures misplaced { (marks : List Mark) (here : Option Mark) (behind : List (Option Mark)) →
        Stops edison 64 start (to_end marks) wrong (here ∷ behind) →
        (before : List Mark) × (to_end marks ≡ somes before ++ here ∷ behind) × IsMisplaced marks before here }
    ensures deep { (marks : List Mark) (m : Mark) (behind : List (Option Mark)) →
        Stops edison 64 start (to_end marks) too_deep (Some m ∷ behind) →
        (before : List Mark) × (to_end marks ≡ somes before ++ Some m ∷ behind) × IsTooDeepAt marks before m }
    ensures whole { (marks : List Mark) (tree : Program) →
        Spells tree marks → Stops edison 64 start (to_end marks) complete [] → IsTheTree marks tree }
{}
