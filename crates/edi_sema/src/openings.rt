//! The begin and the end of procedures and modules, round their declarations; and declarations without a body.

ghost use Rattle.std.specs.Prelude.{◌≡◌, ◌<◌, [], length, IfOk, OnOk};
ghost use Rattle.edi_tree.specs.View.{const_list_of, type_decl_of, var_list_of, list_of};
ghost use Rattle.edi_static.specs.Prelude.{JudgedAnswers, Proper, environment, gives};
ghost use Rattle.edi_static.specs.Environment as environments;
ghost use Rattle.edi_static.specs.Headings as headings;
ghost use Rattle.edi_static.specs.Types as types;
ghost use Rattle.edi_static.specs.Declarations as spec;
ghost use Rattle.edi_sema.specs.Frames.{Comes, EnvironmentStands, StandsToDeclare};
ghost use Rattle.edi_sema.specs.Blocks.{outside_block};
ghost use Rattle.edi_sema.specs.Splits.{with_begun};
ghost use Rattle.edi_sema.specs.Bodies.{finished, finished_module, inside_module};

use crate::blocks::{add_statements, close_block, enter_around, leave_around};
use crate::procedures::all_completed;
use crate::statements::statement_list;
use edi_static::{Judged, Known, Splits, const_list, type_decl, var_list};
use edi_tree::{ConstList, List, TypeDecl, VarList};
use std::alloc::Global;

/// Constants.
pub fn constants(known: &mut Known, alloc: Global, export: bool, list: &ConstList) -> Judged<()>
    requires stands { StandsToDeclare export (environment known.old) }
    ensures exact { JudgedAnswers (λ _. environment known.new) result (types.const_list export (const_list_of list.now) (environment known.old)) }
    ensures comes { OnOk result (Comes (environment known.old) (environment known.new)) }
{
    const_list(known, alloc, export, list)
}

/// A type.
pub fn declared_type(
    known: &mut Known,
    alloc: Global,
    export: bool,
    declared: &TypeDecl,
) -> Judged<()>
    requires stands { StandsToDeclare export (environment known.old) }
    ensures exact { JudgedAnswers (λ _. environment known.new) result (types.type_decl export (type_decl_of declared.now) (environment known.old)) }
    ensures comes { OnOk result (Comes (environment known.old) (environment known.new)) }
{
    type_decl(known, alloc, export, declared)
}

/// Variables.
pub fn variables(known: &mut Known, alloc: Global, export: bool, list: &VarList) -> Judged<()>
    requires stands { StandsToDeclare export (environment known.old) }
    ensures exact { JudgedAnswers (λ _. environment known.new) result (types.var_list export (var_list_of list.now) (environment known.old)) }
    ensures comes { OnOk result (Comes (environment known.old) (environment known.new)) }
{
    var_list(known, alloc, export, list)
}

/// Takes out the procedures that are begun.
fn take_begun(known: &mut Known, alloc: Global) -> Splits
    ensures exact { environment known.new ≡ with_begun [] (environment known.old) }
    ensures begun { result ≡ (environment known.old).begun }
{
    std::mem::replace(&mut known.begun, Splits::new(alloc))
}

/// Enters a block whose heading's scope is the innermost, and gives the procedures that are begun round it.
pub fn open_block(known: &mut Known, alloc: Global, block: u32) -> Judged<Splits>
    requires stands { EnvironmentStands (environment known.old) }
    ensures exact { JudgedAnswers (λ _. environment known.new) result (gives (spec.enter_block block (environment known.old))) }
    ensures begun { IfOk result (λ begun. begun ≡ (environment known.old).begun) }
    ensures stands { OnOk result (EnvironmentStands (environment known.new)) }
{
    enter_around(known, block)?;
    Ok(take_begun(known, alloc))
}

/// Enters a module, and gives the procedures that are begun round it.
pub fn open_module(known: &mut Known, alloc: Global) -> Judged<Splits>
    requires stands { EnvironmentStands (environment known.old) }
    ensures exact { JudgedAnswers (λ _. environment known.new) result (gives (inside_module (environment known.old))) }
    ensures begun { IfOk result (λ begun. begun ≡ (environment known.old).begun) }
    ensures stands { OnOk result (EnvironmentStands (environment known.new)) }
{
    known.enter(alloc, true)?;
    Ok(take_begun(known, alloc))
}

/// Closes the innermost scope. These procedures are begun round it.
pub fn close_scope(known: &mut Known, begun: Splits)
    requires depth { 1 < length known.old.scopes }
    requires proper { Proper (environment known.old) }
    ensures exact { environment known.new ≡ headings.leave (with_begun begun (environment known.old)) }
    ensures proper { Proper (environment known.new) }
{
    known.begun = begun;
    known.leave();
}

/// Leaves the innermost block, whose scope is closed with it. These procedures are begun round it.
pub fn leave_block(known: &mut Known, begun: Splits)
    requires depth { 1 < length known.old.scopes }
    requires proper { Proper (environment known.old) }
    ensures exact { environment known.new ≡ headings.leave (with_begun begun (outside_block (environment known.old))) }
    ensures proper { Proper (environment known.new) }
{
    leave_around(known);
    close_scope(known, begun);
}

/// The statements of a procedure, and the symbol that closes it.
pub fn finish_block(
    known: &mut Known,
    alloc: Global,
    block: u32,
    list: &List,
    end: u16,
) -> Judged<()>
    requires stands { EnvironmentStands (environment known.old) }
    ensures exact { JudgedAnswers (λ _. environment known.new) result (finished block (list_of list.now) end (environment known.old)) }
    ensures comes { OnOk result (Comes (environment known.old) (environment known.new)) }
{
    all_completed(known)?;
    let acts = statement_list(known, alloc, list)?;
    close_block(known, alloc, block, acts, end)
}

/// The statements of a module, which the block where it stands executes when it is entered.
pub fn finish_module(known: &mut Known, alloc: Global, list: &List) -> Judged<()>
    requires stands { EnvironmentStands (environment known.old) }
    ensures exact { JudgedAnswers (λ _. environment known.new) result
        (finished_module (environments.here (environment known.old)) (list_of list.now) (environment known.old)) }
    ensures comes { OnOk result (Comes (environment known.old) (environment known.new)) }
{
    all_completed(known)?;
    let block = known.here();
    let acts = statement_list(known, alloc, list)?;
    add_statements(known, alloc, block, acts)
}
