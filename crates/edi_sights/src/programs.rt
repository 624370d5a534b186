//! The `when`s of a program, and what `sights` answers.

ghost use Rattle.std.specs.Prelude.{◌≡◌, [], IfOk, OnOk};
ghost use Rattle.edi_tree.specs.View.{procedure_of};
ghost use Rattle.edi_tree.specs.Whole.{program_of};
ghost use Rattle.edi_static.specs.Programs as rule;
ghost use Rattle.edi_static.specs.Prelude.{environment, list_items};
ghost use Rattle.edi_sema.specs.Frames.{EnvironmentStands};
ghost use Rattle.edi_sights.specs.Awaits as spec;
ghost use Rattle.edi_sights.specs.Sights.{sights_of};
ghost use Rattle.edi_sights.specs.Views.{FaultOf};

use crate::answer::Sights;
use crate::awaits::Await;
use crate::declarations::procedure_met;
use crate::numbering::sights_on;
use edi_sema::{StaticFault, before_program, begin_program, declare_globals};
use edi_static::{Judged, Known};
use edi_tree::{Procedure, Program};
use std::alloc::{AllocError, Global};

/// The `when`s of the program's procedure.
fn program_met(
    known: &mut Known,
    alloc: Global,
    procedure: &Procedure,
    name: &[u8],
    awaits: &mut Vec<Await>,
) -> Judged<()>
    requires stands { EnvironmentStands (environment known.old) }
    ensures fault { FaultOf result (rule.program_procedure (procedure_of procedure.now) (environment known.old)) }
    ensures awaits { OnOk result (awaits.new.items ≡ spec.program_met name.now (procedure_of procedure.now) (environment known.old) awaits.old.items) }
{
    let _calls = begin_program(known, alloc, &procedure.heading)?;
    procedure_met(known, alloc, 0, procedure, name, awaits)
}

/// The `when`s of a program.
fn awaits_of(alloc: Global, tree: &Program, name: &[u8]) -> Judged<Vec<Await>>
    ensures fault { FaultOf result (rule.resolve_tree (program_of tree.now)) }
    ensures awaits { IfOk result (λ awaits. awaits.items ≡ spec.awaits_of name.now (program_of tree.now)) }
{
    let mut known = before_program(alloc)?;
    declare_globals(&mut known, alloc, tree.globals.items())?;
    let mut awaits = Vec::new(alloc);
    program_met(&mut known, alloc, &tree.procedure, name, &mut awaits)?;
    Ok(awaits)
}

/// For each `when` on a line of a sound program, in the order of the text, its block, its place among the `when`s of that
/// block, and the variable of an elementary type that the name means there, if it means one.
///
/// # Errors
///
/// Only for want of memory.
pub fn sights(alloc: Global, tree: &Program, line: u16, name: &[u8]) -> Result<Sights, AllocError>
    requires sound { rule.Sound (program_of tree.now) }
    ensures exact { IfOk result (λ sights. list_items sights ≡ sights_of (program_of tree.now) line name.now) }
{
    match awaits_of(alloc, tree, name) {
        Ok(awaits) => sights_on(alloc, awaits.as_slice(), line),
        Err(StaticFault::NoMemory) => Err(AllocError),
        Err(StaticFault::At { .. }) => unreachable!(),
    }
}
