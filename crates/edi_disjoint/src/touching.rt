//! What a branch touches, and which two branches are disjoint.

ghost use Rattle.std.specs.Prelude.{◌≡◌, OnOk, map, true};
ghost use Rattle.std.specs.Bool.{Decides};
ghost use Rattle.edi_unit.specs.Tree.{ProgramUnit};
ghost use Rattle.edi_unit.specs.Fits.{Fits};
ghost use Rattle.edi_disjoint.specs.Apart.{answer_of, apart, do_meet, has_variable, with_view};
ghost use Rattle.edi_disjoint.specs.Footprints.{Disjoint};
ghost use Rattle.edi_disjoint.specs.Exchange.{Exchanges};
ghost use Rattle.edi_disjoint.specs.Found.{AreFootprints, variable_of};
ghost use Rattle.edi_disjoint.specs.Footprints.{IsBranch};

use std::alloc::AllocError;

/// A variable as it is declared: the block that declares it, and its number there.
#[derive(Clone, Copy)]
pub struct Variable {
    pub home: u32,
    pub number: u32,
}

// What one branch touches outside of itself.
#[derive(Drop)]
pub(crate) struct Footprint {
    pub(crate) seen: Vec<Variable>,
    pub(crate) written: Vec<Variable>,
    // It gets to a call of the system, and to one of a procedure parameter that is none of the program's.
    pub(crate) calls_system: bool,
    pub(crate) calls_parameter: bool,
    // It mentions a `var` parameter, and may write one.
    pub(crate) sees_var: bool,
    pub(crate) writes_var: bool,
}

/// The footprints of all branches of a program.
#[derive(Drop)]
pub struct Footprints {
    // Whether the program itself is called or passed on.
    pub(crate) named: bool,
    // By the number of its block; a block of no branch has an empty one, which is not asked for.
    pub(crate) branches: Vec<Footprint>,
}

// Whether a list has a variable.
pub(crate) fn has(list: &[Variable], variable: Variable) -> bool
    ensures exact { result ≡ has_variable list.now variable }
{
    for one in list {
        if one.home == variable.home && one.number == variable.number {
            return true;
        }
    }
    false
}

// Puts a variable at the end of a list that does not have it.
pub(crate) fn add(list: &mut Vec<Variable>, variable: Variable) -> Result<(), AllocError>
    ensures exact { OnOk result (map variable_of list.new.items ≡ with_view (map variable_of list.old.items) (variable_of variable)) }
{
    if has(list, variable) {
        return Ok(());
    }
    list.push(variable)?;
    Ok(())
}

// Whether two lists have a variable in common.
fn meet(one: &[Variable], other: &[Variable]) -> bool
    ensures exact { result ≡ do_meet one.now other.now }
{
    for variable in one {
        if has(other, *variable) {
            return true;
        }
    }
    false
}

// Whether neither of two branches may write what the other sees, at most one calls the system, and neither another procedure
// parameter.
fn are_apart(one: &Footprint, other: &Footprint) -> bool
    ensures exact { result ≡ apart one.now other.now }
{
    if one.calls_parameter || other.calls_parameter {
        return false;
    }
    if one.calls_system && other.calls_system {
        return false;
    }
    !meet(&one.written, &other.seen) && !meet(&one.seen, &other.written)
}

impl Footprints {
    // What is answered of two blocks.
    pub(crate) fn answer(&self, a: u32, b: u32) -> bool
        ensures exact { result ≡ answer_of self.now a b }
    {
        if self.named {
            return false;
        }
        let Some(one) = self.branches.get(a as usize) else {
            return false;
        };
        let Some(other) = self.branches.get(b as usize) else {
            return false;
        };
        are_apart(one, other)
    }

    /// Whether two branches of the program, given by the numbers of their blocks, are disjoint: then steps of their processes may be
    /// exchanged. The footprints are those that `footprints` has made of this program; of a block that is no branch nothing is said.
    pub fn disjoint(&self, a: u32, b: u32) -> bool
        ensures exact { (unit : ProgramUnit) → AreFootprints unit self.now → IsBranch unit a → IsBranch unit b → Decides result (Disjoint unit a b) }
        ensures exchange { (unit : ProgramUnit) → AreFootprints unit self.now → Fits unit → IsBranch unit a → IsBranch unit b → result ≡ true
            → Exchanges unit a b }
    {
        self.answer(a, b)
    }
}
