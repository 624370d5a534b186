//! Laws of the definitions. Each function does nothing, and its contract is the law.

ghost use Rattle.std.specs.Prelude.{◌≡◌};
ghost use Rattle.edi_tree.specs.Tree.{Program};
ghost use Rattle.edi_tree.specs.Spelled.{spelled};
ghost use Rattle.edi_tree.specs.Levels.{elements, marks_among, most_levels};
ghost use Rattle.edi_tree.specs.Depth.{depth};

/// The elements of a program, in which its levels end, have the marks that it spells.
pub fn elements_have_the_marks()
    ensures exact { (tree : Program) → marks_among (elements tree) ≡ spelled tree }
{}

/// The depth of a program is the greatest number of levels that are open at once in it.
pub fn depth_is_the_greatest_level()
    ensures exact { (tree : Program) → most_levels tree ≡ depth tree }
{}
