//! How deep the resolved unit of a program nests. The definitions and proofs are in `specs/nesting/` and `proofs/nesting/`; the function here
//! only states the law.

ghost use Rattle.edi_static.specs.nesting.Nesting.{UnitsAreShallow};

/// In the body of each block of a sound program's unit the expressions and statements stand one inside another at most 5
/// times as deep as levels are open in the text, and once more; however long its lists of statements, its operators in a row
/// and its paths to parts of variables are. So a program that can be parsed nests at most 321 deep.
pub fn units_are_shallow()
    ensures law { UnitsAreShallow }
{}
