//! What headings ask of calls.

ghost use Rattle.std.specs.Prelude.{◌≡◌, [], ◌∷◌, Err, IfOk, OnErr, OnOk, map};
ghost use Rattle.edi_static.specs.Prelude.{asked_of, formal_of, list_items, same_one};
ghost use Rattle.edi_static.specs.Headings.{formal_one};
ghost use Rattle.edi_unit.specs.Headings.{heading, heading_result, heading_formals};
ghost use Rattle.edi_static.specs.Environment as spec;
ghost use Rattle.edi_static.specs.Views as view;

use crate::faults::StaticFault;
use edi_unit::{List, Parameter, Parameters};
use std::alloc::{AllocError, Global};

/// What a heading asks of a call: an argument for each parameter; and the type of a function's result.
#[derive(Drop)]
#[cycle(asked)]
pub struct Asked {
    pub formals: List<Formal>,
    pub result: Option<u32>,
}

/// What a heading asks for one parameter.
#[derive(Drop)]
#[cycle(asked)]
pub enum Formal {
    /// A value of this type.
    Value(u32),
    /// A variable of this type.
    Variable(u32),
    /// A procedure with such a heading.
    Procedure(Asked),
}

/// A heading that asks nothing.
pub fn no_asked(alloc: Global) -> Asked
    ensures exact { asked_of result ≡ spec.no_heading }
{
    Asked {
        formals: List::new(alloc),
        result: None,
    }
}

/// A heading of these parameters and this result.
pub fn heading_with(formals: List<Formal>, of: Option<u32>) -> Asked
    ensures exact { asked_of result ≡ heading (view.formals (map formal_of (list_items formals))) of }
{
    Asked {
        formals,
        result: of,
    }
}

/// A value or a `var` parameter of this type.
pub fn plain_formal(by_variable: bool, of: u32) -> Formal
    ensures exact { view.formals (formal_of result ∷ []) ≡ formal_one by_variable of }
{
    if by_variable {
        Formal::Variable(of)
    } else {
        Formal::Value(of)
    }
}

/// A procedure parameter.
pub fn procedure_formal(asked: Asked) -> Formal
    ensures exact { formal_of result ≡ view.procedure (asked_of asked) }
{
    Formal::Procedure(asked)
}

/// One more parameter. Where memory is wanting the list stays as it was.
pub fn push_formal(
    formals: &mut List<Formal>,
    alloc: Global,
    formal: Formal,
) -> Result<(), StaticFault>
    ensures ok { OnOk result (view.formals (map formal_of (list_items formals.new)) ≡ spec.formals_append
        (view.formals (map formal_of (list_items formals.old))) (view.formals (formal_of formal ∷ []))) }
    ensures err { OnErr result (result ≡ Err StaticFault.NoMemory) }
{
    formals.push(alloc, formal)?;
    Ok(())
}

/// What is asked for each parameter.
pub fn asked_formals(asked: &Asked) -> &List<Formal>
    ensures exact { view.formals (map formal_of (list_items result.now)) ≡ heading_formals (asked_of asked.now) }
{
    &asked.formals
}

/// The type of the result, if there is one.
pub fn asked_result(asked: &Asked) -> Option<u32>
    ensures exact { result ≡ heading_result (asked_of asked.now) }
{
    asked.result
}

/// Whether two headings have one shape.
#[cycle(same)]
pub fn same_asked(one: &Asked, other: &Asked) -> bool
    ensures exact { result ≡ spec.same_heading (asked_of one.now) (asked_of other.now) }
{
    same_formals(&one.formals, &other.formals) && same_result(one.result, other.result)
}

#[cycle(same)]
#[tactic(auto, using(crate::proofs::Lengths::formals_differ))]
fn same_formals(one: &List<Formal>, other: &List<Formal>) -> bool
    ensures exact { result ≡ spec.same_formals (view.formals (map formal_of (list_items one.now))) (view.formals (map formal_of (list_items other.now))) }
{
    let others = other.items();
    if one.len() != others.len() {
        return false;
    }
    let mut position = 0;
    for formal in one.items() {
        if !same_formal(formal, &others[position]) {
            return false;
        }
        position += 1;
    }
    true
}

/// Whether two parameters ask for the same.
#[cycle(same)]
pub fn same_formal(one: &Formal, other: &Formal) -> bool
    ensures exact { result ≡ same_one (formal_of one.now) (formal_of other.now) }
{
    match (one, other) {
        (Formal::Value(s), Formal::Value(t)) => s == t,
        (Formal::Variable(s), Formal::Variable(t)) => s == t,
        (Formal::Procedure(g), Formal::Procedure(h)) => same_asked(g, h),
        _ => false,
    }
}

fn same_result(one: Option<u32>, other: Option<u32>) -> bool
    ensures exact { result ≡ spec.same_result one other }
{
    match (one, other) {
        (None, None) => true,
        (Some(s), Some(t)) => s == t,
        _ => false,
    }
}

/// A copy of a heading.
#[cycle(copies)]
pub fn copy_asked(alloc: Global, asked: &Asked) -> Result<Asked, AllocError>
    ensures exact { IfOk result (λ copy. asked_of copy ≡ asked_of asked.now) }
{
    let mut formals = List::new(alloc);
    for formal in asked.formals.items() {
        formals.push(alloc, copy_formal(alloc, formal)?)?;
    }
    Ok(Asked {
        formals,
        result: asked.result,
    })
}

#[cycle(copies)]
fn copy_formal(alloc: Global, formal: &Formal) -> Result<Formal, AllocError>
    ensures exact { IfOk result (λ copy. formal_of copy ≡ formal_of formal.now) }
{
    match formal {
        Formal::Value(of) => Ok(Formal::Value(*of)),
        Formal::Variable(of) => Ok(Formal::Variable(*of)),
        Formal::Procedure(asked) => Ok(Formal::Procedure(copy_asked(alloc, asked)?)),
    }
}

/// What a block keeps of its parameters.
pub fn parameters_of(alloc: Global, formals: &List<Formal>) -> Result<Parameters, AllocError>
    ensures exact { IfOk result (λ parameters. list_items parameters ≡ map (λ f. view.parameter_of (formal_of f)) (list_items formals.now)) }
{
    let mut parameters = List::new(alloc);
    for formal in formals.items() {
        parameters.push(alloc, parameter_of(formal))?;
    }
    Ok(parameters)
}

/// What a block keeps of the parameters of a heading.
pub fn kept_parameters(alloc: Global, asked: &Asked) -> Result<Parameters, AllocError>
    ensures exact { IfOk result (λ parameters. list_items parameters ≡ spec.parameters_of (heading_formals (asked_of asked.now))) }
{
    match parameters_of(alloc, asked_formals(asked)) {
        Ok(parameters) => Ok(parameters),
        Err(error) => Err(error),
    }
}

fn parameter_of(formal: &Formal) -> Parameter
    ensures exact { result ≡ view.parameter_of (formal_of formal.now) }
{
    match formal {
        Formal::Value(of) => Parameter::Value(*of),
        Formal::Variable(of) => Parameter::Var(*of),
        Formal::Procedure(asked) => Parameter::Formal(asked.result),
    }
}
