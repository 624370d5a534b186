//! Laws of the definitions. Each function does nothing, and its contract is the law.

ghost use Rattle.std.specs.Prelude.{◌≡◌, ◌≤◌, ℕ, List, Ok};
ghost use Rattle.edi_lex.specs.declared.symbol.Mark.{Mark};
ghost use Rattle.edi_tree.specs.Tree.{Program};
ghost use Rattle.edi_tree.specs.Spells.{Spells};
ghost use Rattle.edi_tree.specs.Levels.{most_levels};
ghost use Rattle.edi_tree.specs.Scanned.{ScansTo};
ghost use Rattle.edi_grammar.specs.derivation.Faults.{IsTheTree};
ghost use Rattle.edi_syntax.specs.Refusal.{IsSyntaxFault};
ghost use Rattle.edi_syntax.specs.declared.fault.SyntaxFault.{SyntaxFault};

/// No marks have two syntax faults, and marks with one are spelled by no program in which at most 64 levels are open.
pub fn one_syntax_fault()
    ensures one { (marks : List Mark) (last : ℕ) (f g : SyntaxFault) →
        IsSyntaxFault marks last f → IsSyntaxFault marks last g → f ≡ g }
    ensures no_tree { (marks : List Mark) (last : ℕ) (f : SyntaxFault) (tree : Program) →
        IsSyntaxFault marks last f → Spells tree marks → most_levels tree ≤ 64 → ⊥ }
{}

/// The symbols that the printed text of a program scans to are read as that program, its kept lines included, and have no
/// syntax fault where at most 64 levels are open in it.
pub fn printed_programs_are_read_again()
    ensures one { (tree other : Program) (known : List Mark × ℕ) →
        ScansTo tree (Ok known) → IsTheTree known.0 other → other ≡ tree }
    ensures no_fault { (tree : Program) (known : List Mark × ℕ) (f : SyntaxFault) →
        ScansTo tree (Ok known) → most_levels tree ≤ 64 → IsSyntaxFault known.0 known.1 f → ⊥ }
{}
