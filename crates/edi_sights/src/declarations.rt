//! The `when`s of procedures and modules. What is known at each place is what the static rules give.

ghost use Rattle.std.specs.Prelude.{◌≡◌, ◌<◌, length, IsTrue, OnOk};
ghost use Rattle.edi_scope.specs.Scope.{in_module};
ghost use Rattle.edi_tree.specs.View.{declaration_of, item_of, list_of, member_of, module_of, procedure_of};
ghost use Rattle.edi_static.specs.Prelude.{JudgedAnswers, environment, gives};
ghost use Rattle.edi_static.specs.Environment.{here};
ghost use Rattle.edi_static.specs.Declarations as rule;
ghost use Rattle.edi_sema.specs.Frames.{Comes, Leaves, EnvironmentStands, StandsToDeclare};
ghost use Rattle.edi_sema.specs.Bodies.{finished, finished_module, whole_procedure};
ghost use Rattle.edi_sights.specs.Awaits as spec;
ghost use Rattle.edi_sights.specs.Counted.{body_counted};

use crate::awaits::{Await, Met, small};
use crate::statements::list_met;
use edi_sema::{
    StaticFault, begin_post, begin_procedure, close_scope, completed, constants, declared_type,
    finish_block, finish_module, leave_block, open_block, open_module, pre_decl, variables,
};
use edi_static::{Judged, Known};
use edi_tree::{Declaration, Item, List, Member, Module, Procedure};
use std::alloc::Global;

/// Takes out the `when`s met so far.
fn take(awaits: &mut Vec<Await>, alloc: Global) -> Vec<Await>
    ensures exact { result.items ≡ awaits.old.items }
{
    std::mem::replace(awaits, Vec::new(alloc))
}

/// The `when`s of the statements of a procedure or a module.
fn body_met(
    known: &mut Known,
    alloc: Global,
    list: &List,
    name: &[u8],
    awaits: &mut Vec<Await>,
) -> Judged<()>
    ensures exact { JudgedAnswers (λ _. environment known.new) result (gives (environment known.old)) }
    ensures awaits { OnOk result (awaits.new.items ≡ body_counted name.now (list_of list.now) (environment known.old) awaits.old.items) }
{
    let Ok(next) = small(known.blocks.len()) else {
        return Err(StaticFault::NoMemory);
    };
    let mut met = Met {
        awaits: take(awaits, alloc),
        next,
    };
    match list_met(list, name, known, &mut met) {
        Ok(()) => {
            *awaits = met.awaits;
            Ok(())
        }
        Err(_) => Err(StaticFault::NoMemory),
    }
}

/// The statements of a procedure, and the symbol that closes it.
fn finish_block_met(
    known: &mut Known,
    alloc: Global,
    block: u32,
    list: &List,
    end: u16,
    name: &[u8],
    awaits: &mut Vec<Await>,
) -> Judged<()>
    requires stands { EnvironmentStands (environment known.old) }
    ensures exact { JudgedAnswers (λ _. environment known.new) result (finished block (list_of list.now) end (environment known.old)) }
    ensures comes { OnOk result (Comes (environment known.old) (environment known.new)) }
    ensures awaits { OnOk result (awaits.new.items ≡ spec.list_met name.now (list_of list.now) (environment known.old) awaits.old.items) }
{
    body_met(known, alloc, list, name, awaits)?;
    finish_block(known, alloc, block, list, end)
}

/// The statements of a module.
fn finish_module_met(
    known: &mut Known,
    alloc: Global,
    list: &List,
    name: &[u8],
    awaits: &mut Vec<Await>,
) -> Judged<()>
    requires stands { EnvironmentStands (environment known.old) }
    ensures exact { JudgedAnswers (λ _. environment known.new) result
        (finished_module (here (environment known.old)) (list_of list.now) (environment known.old)) }
    ensures comes { OnOk result (Comes (environment known.old) (environment known.new)) }
    ensures awaits { OnOk result (awaits.new.items ≡ spec.list_met name.now (list_of list.now) (environment known.old) awaits.old.items) }
{
    body_met(known, alloc, list, name, awaits)?;
    finish_module(known, alloc, list)
}

/// A procedure behind its heading, whose scope is open and ends with it.
#[cycle(declarations)]
pub(crate) fn procedure_met(
    known: &mut Known,
    alloc: Global,
    block: u32,
    procedure: &Procedure,
    name: &[u8],
    awaits: &mut Vec<Await>,
) -> Judged<()>
    requires depth { 1 < length known.old.scopes }
    requires stands { EnvironmentStands (environment known.old) }
    ensures exact { JudgedAnswers (λ _. environment known.new) result (whole_procedure block (procedure_of procedure.now) (environment known.old)) }
    ensures leaves { OnOk result (Leaves (environment known.old) (environment known.new)) }
    ensures awaits { OnOk result (awaits.new.items ≡ spec.procedure_met name.now block (procedure_of procedure.now) (environment known.old) awaits.old.items) }
{
    let begun = open_block(known, alloc, block)?;
    for declaration in procedure.declarations.items() {
        declaration_met(known, alloc, declaration, name, awaits)?;
    }
    finish_block_met(
        known,
        alloc,
        block,
        &procedure.list,
        procedure.end,
        name,
        awaits,
    )?;
    leave_block(known, begun);
    Ok(())
}

#[cycle(declarations)]
fn item_met(
    known: &mut Known,
    alloc: Global,
    export: bool,
    item: &Item,
    name: &[u8],
    awaits: &mut Vec<Await>,
) -> Judged<()>
    requires stands { StandsToDeclare export (environment known.old) }
    ensures exact { JudgedAnswers (λ _. environment known.new) result (rule.item export (item_of item.now) (environment known.old)) }
    ensures comes { OnOk result (Comes (environment known.old) (environment known.new)) }
    ensures awaits { OnOk result (awaits.new.items ≡ spec.item_met name.now export (item_of item.now) (environment known.old) awaits.old.items) }
{
    match item {
        Item::ConstList(list) => constants(known, alloc, export, list),
        Item::TypeDecl(declared) => declared_type(known, alloc, export, declared),
        Item::VarList(list) => variables(known, alloc, export, list),
        Item::Procedure(procedure) => {
            let block = begin_procedure(known, alloc, export, &procedure.heading)?;
            procedure_met(known, alloc, block, procedure, name, awaits)
        }
        Item::Pre(heading) => pre_decl(known, alloc, export, heading),
        Item::Post(procedure) => {
            let block = begin_post(known, alloc, export, &procedure.heading)?;
            procedure_met(known, alloc, block, procedure, name, awaits)?;
            completed(known, &procedure.heading.name);
            Ok(())
        }
    }
}

#[cycle(declarations)]
fn module_met(
    known: &mut Known,
    alloc: Global,
    module: &Module,
    name: &[u8],
    awaits: &mut Vec<Await>,
) -> Judged<()>
    requires stands { EnvironmentStands (environment known.old) }
    ensures exact { JudgedAnswers (λ _. environment known.new) result (rule.module_decl (module_of «module».now) (environment known.old)) }
    ensures comes { OnOk result (Comes (environment known.old) (environment known.new)) }
    ensures awaits { OnOk result (awaits.new.items ≡ spec.module_met name.now (module_of «module».now) (environment known.old) awaits.old.items) }
{
    let begun = open_module(known, alloc)?;
    for one in module.members.items() {
        member_met(known, alloc, one, name, awaits)?;
    }
    finish_module_met(known, alloc, &module.list, name, awaits)?;
    close_scope(known, begun);
    Ok(())
}

#[cycle(declarations)]
fn member_met(
    known: &mut Known,
    alloc: Global,
    member: &Member,
    name: &[u8],
    awaits: &mut Vec<Await>,
) -> Judged<()>
    requires module { IsTrue (in_module known.old.scopes) }
    requires stands { EnvironmentStands (environment known.old) }
    ensures exact { JudgedAnswers (λ _. environment known.new) result (rule.member (member_of member.now) (environment known.old)) }
    ensures comes { OnOk result (Comes (environment known.old) (environment known.new)) }
    ensures awaits { OnOk result (awaits.new.items ≡ spec.member_met name.now (member_of member.now) (environment known.old) awaits.old.items) }
{
    match member {
        Member::Item(one) => item_met(known, alloc, false, one, name, awaits),
        Member::Exported(one) => item_met(known, alloc, true, one, name, awaits),
        Member::Module(one) => module_met(known, alloc, one, name, awaits),
    }
}

#[cycle(declarations)]
fn declaration_met(
    known: &mut Known,
    alloc: Global,
    declaration: &Declaration,
    name: &[u8],
    awaits: &mut Vec<Await>,
) -> Judged<()>
    requires stands { EnvironmentStands (environment known.old) }
    ensures exact { JudgedAnswers (λ _. environment known.new) result (rule.declaration (declaration_of declaration.now) (environment known.old)) }
    ensures comes { OnOk result (Comes (environment known.old) (environment known.new)) }
    ensures awaits { OnOk result (awaits.new.items ≡ spec.declaration_met name.now (declaration_of declaration.now) (environment known.old) awaits.old.items) }
{
    match declaration {
        Declaration::Item(one) => item_met(known, alloc, false, one, name, awaits),
        Declaration::Module(one) => module_met(known, alloc, one, name, awaits),
    }
}
