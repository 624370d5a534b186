//! Names of sound programs. The function does nothing; its contract is the law, which speaks of all trees.

ghost use Rattle.edi_tree.specs.Tree.{Program};
ghost use Rattle.edi_unit.specs.Tree.{ProgramUnit};
ghost use Rattle.edi_static.specs.Programs.{Resolved};
ghost use Rattle.edi_static.specs.names.Visible.{NamesAreVisible};

/// Each name of a program that breaks no static rule is visible where it is used.
pub fn names_are_visible()
    ensures law { (tree : Program) (unit : ProgramUnit) → Resolved tree unit → NamesAreVisible tree }
{}
