//! Laws of the definitions. Each function does nothing, and its contract is the law.

ghost use Rattle.std.specs.Prelude.{◌≡◌, ℕ, suc, List, [], ◌∷◌, ◌++◌, Some, None};
ghost use Rattle.edi_lex.specs.declared.symbol.Mark.{Mark};
ghost use Rattle.edi_grammar.specs.Kind.{kind_of};
ghost use Rattle.edi_grammar.specs.derivation.Faults.{IsMisplaced, IsTooDeepAt};
ghost use Rattle.edi_explain.specs.expected.MayStand.{Begin, MayStand};

/// Where a symbol may stand, each symbol of its kind may.
pub fn one_kind_one_answer()
    ensures law { (before : List Mark) (a b : Mark) → kind_of a.symbol ≡ kind_of b.symbol → Begin (before ++ a ∷ []) → Begin (before ++ b ∷ []) }
{}

/// What stands at the first syntax fault of a program is not among what may stand there: a symbol that is misplaced, one that opens a
/// 65th level, the end of the program.
pub fn what_is_wrong_may_not_stand()
    ensures misplaced { (marks before : List Mark) (m : Mark) → IsMisplaced marks before (Some m) → (a : ℕ) → kind_of m.symbol ≡ suc a
        → MayStand before (suc a) → ⊥ }
    ensures deep { (marks before : List Mark) (m : Mark) → IsTooDeepAt marks before m → (a : ℕ) → kind_of m.symbol ≡ suc a
        → MayStand before (suc a) → ⊥ }
    ensures end { (marks before : List Mark) → IsMisplaced marks before None → MayStand before 0 → ⊥ }
{}
