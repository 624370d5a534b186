//! What a whole program is resolved to.

ghost use Rattle.std.specs.Prelude.{◌≡◌, map, Err, IfErr, IfOk, OnErr, OnOk};
ghost use Rattle.edi_tree.specs.View.{globals, global_of, heading_of, procedure_of};
ghost use Rattle.edi_tree.specs.Whole.{program_of};
ghost use Rattle.edi_unit.specs.Fits.{Fits};
ghost use Rattle.edi_unit.specs.TypeTables.{IsTypeTable};
ghost use Rattle.edi_unit.specs.View.{unit_of};
ghost use Rattle.edi_static.specs.Prelude.{JudgedAnswers, asked_of, environment, gives, list_items};
ghost use Rattle.edi_static.specs.Programs as spec;
ghost use Rattle.edi_sema.specs.Frames.{HeadingBegins, Comes, EnvironmentStands};
ghost use Rattle.edi_sema.specs.Whole.{begun_program, first_environment, program_unit};

use crate::calls::program_heading;
use crate::declarations::procedure_rest;
use crate::openings::{constants, declared_type};
use crate::procedures::begin_block_of;
use edi_static::{Asked, Judged, Known, StaticFault, copy_asked, heading_parts};
use edi_tree::{Global as Declared, Heading, Procedure, Program};
use edi_unit::{BlockKind, CallList, List, Unit};
use std::alloc::Global;

/// A declaration before the program's procedure.
fn global(known: &mut Known, alloc: Global, global: &Declared) -> Judged<()>
    requires stands { EnvironmentStands (environment known.old) }
    ensures exact { JudgedAnswers (λ _. environment known.new) result (spec.global_decl (global_of global.now) (environment known.old)) }
    ensures comes { OnOk result (Comes (environment known.old) (environment known.new)) }
{
    match global {
        Declared::ConstList(list) => constants(known, alloc, false, list),
        Declared::TypeDecl(declared) => declared_type(known, alloc, false, declared),
    }
}

/// The declarations before the program's procedure.
pub fn declare_globals(known: &mut Known, alloc: Global, declared: &[Declared]) -> Judged<()>
    requires stands { EnvironmentStands (environment known.old) }
    ensures exact { JudgedAnswers (λ _. environment known.new) result (spec.global_decls (globals (map global_of declared.now)) (environment known.old)) }
    ensures comes { OnOk result (Comes (environment known.old) (environment known.new)) }
{
    for one in declared {
        global(known, alloc, one)?;
    }
    Ok(())
}

/// A copy of a heading.
fn copy_of(alloc: Global, asked: &Asked) -> Result<Asked, StaticFault>
    ensures ok { IfOk result (λ copy. asked_of copy ≡ asked_of asked.now) }
    ensures err { OnErr result (result ≡ Err StaticFault.NoMemory) }
{
    Ok(copy_asked(alloc, asked)?)
}

/// The program's own name is declared before its heading is judged by the rules on programs.
pub fn begin_program(known: &mut Known, alloc: Global, heading: &Heading) -> Judged<CallList>
    requires stands { EnvironmentStands (environment known.old) }
    ensures exact { JudgedAnswers (λ calls. record { calls = list_items calls; env = environment known.new }) result
        (begun_program (heading_of heading.now) (environment known.old)) }
    ensures begins { OnOk result (HeadingBegins (environment known.old) (environment known.new)) }
{
    let asked = heading_parts(known, alloc, 0, heading)?;
    let asks = copy_of(alloc, &asked)?;
    begin_block_of(
        known,
        alloc,
        false,
        BlockKind::Program,
        &heading.name,
        0,
        asked,
    )?;
    program_heading(known, alloc, heading, &asks)
}

/// The program's procedure, whose heading is judged by the rules on programs before its declarations are judged.
fn program_procedure(known: &mut Known, alloc: Global, procedure: &Procedure) -> Judged<CallList>
    requires stands { EnvironmentStands (environment known.old) }
    ensures exact { JudgedAnswers (λ calls. program_unit (list_items calls) (environment known.new)) result
        (spec.program_procedure (procedure_of procedure.now) (environment known.old)) }
    ensures table { OnOk result (IsTypeTable known.new.types) }
{
    let calls = begin_program(known, alloc, &procedure.heading)?;
    procedure_rest(known, alloc, 0, procedure)?;
    Ok(calls)
}

/// What is known before a program, whose scope is open.
pub fn before_program(alloc: Global) -> Judged<Known>
    ensures exact { JudgedAnswers environment result (gives first_environment) }
    ensures stands { IfOk result (λ known. EnvironmentStands (environment known)) }
{
    let mut known = Known::at_first(alloc)?;
    known.enter(alloc, false)?;
    Ok(known)
}

/// A tree judged construct by construct: its unit, or its first fault.
fn judge_tree(alloc: Global, tree: &Program) -> Judged<Unit>
    ensures exact { JudgedAnswers unit_of result (spec.resolve_tree (program_of tree.now)) }
    ensures fits { IfOk result (λ unit. Fits (unit_of unit)) }
{
    let mut known = before_program(alloc)?;
    declare_globals(&mut known, alloc, tree.globals.items())?;
    let calls = program_procedure(&mut known, alloc, &tree.procedure)?;
    Ok(Unit {
        types: known.types,
        blocks: List::from_vec(known.blocks),
        program: 0,
        calls,
    })
}

/// The unit of a sound program, or the first construct that breaks a static rule, and then the program is not sound.
///
/// A unit fits: each number in it names a type, block or variable that is there, types agree in every expression, statement
/// and call, each block's need is as it says, and the program's parameters are calls of the system, no two the same.
pub fn resolve(alloc: Global, tree: &Program) -> Judged<Unit>
    ensures exact { JudgedAnswers unit_of result (spec.resolve_tree (program_of tree.now)) }
    ensures fits { IfOk result (λ unit. Fits (unit_of unit)) }
    ensures sound { IfOk result (λ _. spec.Sound (program_of tree.now)) }
    ensures refuses { IfErr result (λ fault. spec.Refuses (program_of tree.now) fault) }
{
    judge_tree(alloc, tree)
}
