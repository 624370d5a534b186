//! The rules on procedures, also split ones, and on modules and what they export.

ghost use Rattle.std.specs.Prelude.{◌≡◌, ◌<◌, length, IsTrue, OnOk};
ghost use Rattle.edi_scope.specs.Scope.{in_module};
ghost use Rattle.edi_tree.specs.View.{declaration_of, item_of, member_of, module_of, procedure_of};
ghost use Rattle.edi_static.specs.Prelude.{JudgedAnswers, environment};
ghost use Rattle.edi_static.specs.Declarations as spec;
ghost use Rattle.edi_sema.specs.Frames.{Comes, Leaves, EnvironmentStands, StandsToDeclare};
ghost use Rattle.edi_sema.specs.Bodies.{whole_procedure};

use crate::openings::{
    close_scope, constants, declared_type, finish_block, finish_module, leave_block, open_block,
    open_module, variables,
};
use crate::procedures::{begin_post, begin_procedure, completed, pre_decl};
use edi_static::{Judged, Known};
use edi_tree::{Declaration, Item, Member, Module, Procedure};
use std::alloc::Global;

/// A procedure behind its heading, whose scope is open and ends with it.
#[cycle(declarations)]
pub(crate) fn procedure_rest(
    known: &mut Known,
    alloc: Global,
    block: u32,
    procedure: &Procedure,
) -> Judged<()>
    requires depth { 1 < length known.old.scopes }
    requires stands { EnvironmentStands (environment known.old) }
    ensures exact { JudgedAnswers (λ _. environment known.new) result (whole_procedure block (procedure_of procedure.now) (environment known.old)) }
    ensures leaves { OnOk result (Leaves (environment known.old) (environment known.new)) }
{
    let begun = open_block(known, alloc, block)?;
    for declaration in procedure.declarations.items() {
        declare(known, alloc, declaration)?;
    }
    finish_block(known, alloc, block, &procedure.list, procedure.end)?;
    leave_block(known, begun);
    Ok(())
}

#[cycle(declarations)]
fn item(known: &mut Known, alloc: Global, export: bool, item: &Item) -> Judged<()>
    requires stands { StandsToDeclare export (environment known.old) }
    ensures exact { JudgedAnswers (λ _. environment known.new) result (spec.item export (item_of item.now) (environment known.old)) }
    ensures comes { OnOk result (Comes (environment known.old) (environment known.new)) }
{
    match item {
        Item::ConstList(list) => constants(known, alloc, export, list),
        Item::TypeDecl(declared) => declared_type(known, alloc, export, declared),
        Item::VarList(list) => variables(known, alloc, export, list),
        Item::Procedure(procedure) => {
            let block = begin_procedure(known, alloc, export, &procedure.heading)?;
            procedure_rest(known, alloc, block, procedure)
        }
        Item::Pre(heading) => pre_decl(known, alloc, export, heading),
        Item::Post(procedure) => {
            let block = begin_post(known, alloc, export, &procedure.heading)?;
            procedure_rest(known, alloc, block, procedure)?;
            completed(known, &procedure.heading.name);
            Ok(())
        }
    }
}

#[cycle(declarations)]
fn module(known: &mut Known, alloc: Global, module: &Module) -> Judged<()>
    requires stands { EnvironmentStands (environment known.old) }
    ensures exact { JudgedAnswers (λ _. environment known.new) result (spec.module_decl (module_of «module».now) (environment known.old)) }
    ensures comes { OnOk result (Comes (environment known.old) (environment known.new)) }
{
    let begun = open_module(known, alloc)?;
    for one in module.members.items() {
        member(known, alloc, one)?;
    }
    finish_module(known, alloc, &module.list)?;
    close_scope(known, begun);
    Ok(())
}

/// An export `*` exports all names of the declaration behind it.
#[cycle(declarations)]
fn member(known: &mut Known, alloc: Global, member: &Member) -> Judged<()>
    requires module { IsTrue (in_module known.old.scopes) }
    requires stands { EnvironmentStands (environment known.old) }
    ensures exact { JudgedAnswers (λ _. environment known.new) result (spec.member (member_of member.now) (environment known.old)) }
    ensures comes { OnOk result (Comes (environment known.old) (environment known.new)) }
{
    match member {
        Member::Item(one) => item(known, alloc, false, one),
        Member::Exported(one) => item(known, alloc, true, one),
        Member::Module(one) => module(known, alloc, one),
    }
}

#[cycle(declarations)]
fn declare(known: &mut Known, alloc: Global, declaration: &Declaration) -> Judged<()>
    requires stands { EnvironmentStands (environment known.old) }
    ensures exact { JudgedAnswers (λ _. environment known.new) result (spec.declaration (declaration_of declaration.now) (environment known.old)) }
    ensures comes { OnOk result (Comes (environment known.old) (environment known.new)) }
{
    match declaration {
        Declaration::Item(one) => item(known, alloc, false, one),
        Declaration::Module(one) => module(known, alloc, one),
    }
}
