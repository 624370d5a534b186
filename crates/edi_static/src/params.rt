//! The rules on headings: their parameters and their result.

ghost use Rattle.std.specs.Prelude.{◌≡◌, ◌<◌, suc, OnOk, length, map};
ghost use Rattle.edi_scope.specs.Scope.{outside};
ghost use Rattle.edi_tree.specs.Tree as text;
ghost use Rattle.edi_tree.specs.View.{group_of, heading_of, more_params, param_of, params_of};
ghost use Rattle.edi_static.specs.Prelude.{JudgedAnswers, Proper, asked_of, environment, formal_of, gives, headed_of, list_items, listed_of};
ghost use Rattle.edi_static.specs.Headings as spec;
ghost use Rattle.edi_static.specs.Views as view;

use crate::faults::Judged;
use crate::headings::{Asked, Formal, heading_with, plain_formal, procedure_formal, push_formal};
use crate::known::{Known, number};
use edi_scope::Entity;
use edi_tree::{Group, Heading, Name, Param};
use edi_unit::List;
use std::alloc::Global;

/// The block of which parameters are variables, and how many of its variables stand before them.
#[derive(Clone, Copy)]
pub struct Owner {
    block: u32,
    before: u32,
}

/// The function variable stands before the parameters.
fn owner_of(block: u32, heading: &Heading) -> Owner
    ensures block { result.block ≡ block }
    ensures before { result.before ≡ spec.before_parameters heading.now.result }
    ensures seen { heading_of heading.now ≡ text.heading heading.now.name (params_of heading.now.params) heading.now.result }
{
    match heading.result {
        Some(_) => Owner { block, before: 1 },
        None => Owner { block, before: 0 },
    }
}

/// The number of the next parameter.
#[tactic(auto, using(crate::proofs::Askings::parameters_counted))]
fn next_parameter(owner: Owner, formals: &List<Formal>) -> Judged<u32>
    ensures exact { JudgedAnswers (λ n. n) result
        (gives (spec.next_parameter owner.block owner.before (view.formals (map formal_of (list_items formals.now))))) }
{
    number(formals.items().len() + owner.before as usize)
}

/// A value or a `var` parameter of this type.
fn parameter_named(
    known: &mut Known,
    alloc: Global,
    owner: Owner,
    formals: &mut List<Formal>,
    name: &Name,
    of: u32,
    by_variable: bool,
) -> Judged<()>
    requires proper { Proper (environment known.old) }
    requires fits { of < length known.old.types }
    ensures exact { JudgedAnswers (λ _. listed_of known.new formals.new) result
        (spec.param_named owner.block owner.before of (spec.formal_one by_variable of) name.now (listed_of known.old formals.old)) }
    ensures proper { OnOk result (Proper (environment known.new)) }
    ensures scope { outside known.new.scopes ≡ outside known.old.scopes }
    ensures depth { length known.new.scopes ≡ length known.old.scopes }
    ensures types { OnOk result (known.new.types ≡ known.old.types) }
{
    let entity = Entity::Variable {
        block: owner.block,
        variable: next_parameter(owner, formals)?,
        of,
    };
    known.declare(alloc, false, name, entity)?;
    push_formal(formals, alloc, plain_formal(by_variable, of))?;
    Ok(())
}

/// In a group the type is judged first, then the names in their order.
fn parameter_group(
    known: &mut Known,
    alloc: Global,
    owner: Owner,
    formals: &mut List<Formal>,
    group: &Group,
    by_variable: bool,
) -> Judged<()>
    requires proper { Proper (environment known.old) }
    ensures exact { JudgedAnswers (λ _. listed_of known.new formals.new) result
        (spec.param_group owner.block owner.before by_variable (group_of group.now) (listed_of known.old formals.old)) }
    ensures proper { OnOk result (Proper (environment known.new)) }
    ensures scope { outside known.new.scopes ≡ outside known.old.scopes }
    ensures depth { length known.new.scopes ≡ length known.old.scopes }
{
    let of = known.type_named(&group.type_name)?;
    parameter_named(known, alloc, owner, formals, &group.first, of, by_variable)?;
    for name in group.more.items() {
        parameter_named(known, alloc, owner, formals, name, of, by_variable)?;
    }
    Ok(())
}

/// A procedure parameter, whose heading's scope is the innermost: that scope ends, and its name is declared in the one round it.
fn procedure_parameter(
    known: &mut Known,
    alloc: Global,
    owner: Owner,
    formals: &mut List<Formal>,
    name: &Name,
    asked: Asked,
) -> Judged<()>
    requires depth { 1 < length known.old.scopes }
    requires proper { Proper (environment known.old) }
    ensures exact { JudgedAnswers (λ _. listed_of known.new formals.new) result
        (spec.procedure_named owner.block owner.before name.now (view.formals (map formal_of (list_items formals.old))) (headed_of known.old asked)) }
    ensures proper { OnOk result (Proper (environment known.new)) }
    ensures scope { OnOk result (outside known.new.scopes ≡ outside (outside known.old.scopes)) }
    ensures depth { OnOk result (suc (length known.new.scopes) ≡ length known.old.scopes) }
{
    let entity = Entity::Formal {
        block: owner.block,
        variable: next_parameter(owner, formals)?,
        shape: number(known.shapes.len())?,
    };
    known.leave();
    known.keep_shape(alloc, &asked)?;
    known.declare(alloc, false, name, entity)?;
    push_formal(formals, alloc, procedure_formal(asked))?;
    Ok(())
}

/// The type of the result, whose name is looked up from inside the heading's scope.
fn result_named(known: &Known, of: &Option<Name>) -> Judged<Option<u32>>
    ensures exact { JudgedAnswers (λ t. t) result (spec.result_named of.now (environment known.now)) }
{
    match of {
        Some(name) => Ok(Some(known.type_named(name)?)),
        None => Ok(None),
    }
}

/// The parts of the heading of a block, in a scope of their own, which stays open: the parameters, and then the result.
pub fn heading_parts(
    known: &mut Known,
    alloc: Global,
    block: u32,
    heading: &Heading,
) -> Judged<Asked>
    requires proper { Proper (environment known.old) }
    ensures exact { JudgedAnswers (headed_of known.new) result (spec.heading_parts block (heading_of heading.now) (environment known.old)) }
    ensures scope { OnOk result (outside known.new.scopes ≡ known.old.scopes) }
    ensures depth { OnOk result (length known.new.scopes ≡ suc (length known.old.scopes)) }
    ensures proper { OnOk result (Proper (environment known.new)) }
{
    parts_of(heading, known, alloc, block)
}

#[cycle(headings)]
fn parts_of(heading: &Heading, known: &mut Known, alloc: Global, block: u32) -> Judged<Asked>
    requires proper { Proper (environment known.old) }
    ensures exact { JudgedAnswers (headed_of known.new) result (spec.heading_parts block (heading_of heading.now) (environment known.old)) }
    ensures scope { OnOk result (outside known.new.scopes ≡ known.old.scopes) }
    ensures depth { OnOk result (length known.new.scopes ≡ suc (length known.old.scopes)) }
    ensures proper { OnOk result (Proper (environment known.new)) }
{
    known.enter(alloc, false)?;
    let owner = owner_of(block, heading);
    let mut formals = List::new(alloc);
    parameters(heading.params.items(), known, alloc, owner, &mut formals)?;
    let result = result_named(known, &heading.result)?;
    Ok(heading_with(formals, result))
}

/// The parameters in their order.
#[cycle(headings)]
fn parameters(
    params: &[Param],
    known: &mut Known,
    alloc: Global,
    owner: Owner,
    formals: &mut List<Formal>,
) -> Judged<()>
    requires inside { 0 < length known.old.scopes }
    requires proper { Proper (environment known.old) }
    ensures exact { JudgedAnswers (λ _. listed_of known.new formals.new) result
        (spec.more_parameters owner.block owner.before (more_params (map param_of params.now)) (listed_of known.old formals.old)) }
    ensures scope { OnOk result (outside known.new.scopes ≡ outside known.old.scopes) }
    ensures depth { OnOk result (length known.new.scopes ≡ length known.old.scopes) }
    ensures proper { OnOk result (Proper (environment known.new)) }
{
    for param in params {
        parameter(param, known, alloc, owner, formals)?;
    }
    Ok(())
}

#[cycle(headings)]
fn parameter(
    param: &Param,
    known: &mut Known,
    alloc: Global,
    owner: Owner,
    formals: &mut List<Formal>,
) -> Judged<()>
    requires inside { 0 < length known.old.scopes }
    requires proper { Proper (environment known.old) }
    ensures exact { JudgedAnswers (λ _. listed_of known.new formals.new) result
        (spec.parameter owner.block owner.before (param_of param.now) (listed_of known.old formals.old)) }
    ensures scope { OnOk result (outside known.new.scopes ≡ outside known.old.scopes) }
    ensures depth { OnOk result (length known.new.scopes ≡ length known.old.scopes) }
    ensures proper { OnOk result (Proper (environment known.new)) }
{
    match param {
        Param::Value(group) => parameter_group(known, alloc, owner, formals, group, false),
        Param::Var(group) => parameter_group(known, alloc, owner, formals, group, true),
        Param::Heading(inner) => {
            let asked = parts_of(inner, known, alloc, owner.block)?;
            procedure_parameter(known, alloc, owner, formals, &inner.name, asked)
        }
    }
}
