//! What the text of a block mentions.
#![tactic(auto, using(crate::proofs::Listing::mentions_append))]

ghost use Rattle.std.specs.Prelude.{◌≡◌, ◌++◌, IfOk, OnOk};
ghost use Rattle.edi_unit.specs.View.{act_of, acts_of, argument_of, arguments_of, clauses_of, expression_of, expressions_of, links_of, part_of, parts_of};
ghost use Rattle.edi_disjoint.specs.Open.{open_act, open_acts, open_clauses};
ghost use Rattle.edi_disjoint.specs.Mentions.{in_act, in_acts, in_argument, in_arguments, in_clauses, in_expression, in_expressions, in_links, in_part, in_parts};

use edi_unit::{
    Act, Acts, Argument, Arguments, Callee, Clauses, Links, Part, Parts, Value, Values,
};
use std::alloc::AllocError;

/// One variable, procedure or parameter that stands in a text, and what is done with it there. A variable is written as in the
/// text: so many levels out, and its number in the block there.
#[derive(Clone, Copy)]
pub enum Mention {
    /// The value of a variable, or of a part of it.
    Reads { levels: u32, variable: u32 },
    /// A variable that is assigned to, or a part of it.
    Assigns { levels: u32, variable: u32 },
    /// A variable that is a `var` argument, or a part of it.
    Lends { levels: u32, variable: u32 },
    /// What is called.
    Calls(Callee),
    /// A procedure that is passed on as an argument.
    Passes(Callee),
}

// ---- expressions: each function puts what a construct mentions at the end of a list

#[cycle(mentioned)]
fn put_value(list: &mut Vec<Mention>, value: &Value) -> Result<(), AllocError>
    ensures exact { OnOk result (list.new.items ≡ list.old.items ++ in_expression (expression_of value.now)) }
{
    match value {
        Value::Constant { .. } => Ok(()),
        Value::Load(place) => {
            list.push(Mention::Reads {
                levels: place.levels,
                variable: place.variable,
            })?;
            put_parts(list, &place.parts)
        }
        Value::Not(value) | Value::Sign(value, _) | Value::Convert { value, .. } => {
            put_value(list, value)
        }
        Value::Chain(first, links) => {
            put_value(list, first)?;
            put_links(list, links)
        }
        Value::Make { parts, .. } => put_values(list, parts),
        Value::Apply(callee, arguments, _) => {
            list.push(Mention::Calls(*callee))?;
            put_arguments(list, arguments)
        }
    }
}

#[cycle(mentioned)]
fn put_values(list: &mut Vec<Mention>, values: &Values) -> Result<(), AllocError>
    ensures exact { OnOk result (list.new.items ≡ list.old.items ++ in_expressions (expressions_of values.now)) }
{
    for value in values.items() {
        put_value(list, value)?;
    }
    Ok(())
}

#[cycle(mentioned)]
fn put_links(list: &mut Vec<Mention>, links: &Links) -> Result<(), AllocError>
    ensures exact { OnOk result (list.new.items ≡ list.old.items ++ in_links (links_of links.now)) }
{
    for link in links.items() {
        put_value(list, &link.right)?;
    }
    Ok(())
}

// The indices of a place.
#[cycle(mentioned)]
fn put_parts(list: &mut Vec<Mention>, parts: &Parts) -> Result<(), AllocError>
    ensures exact { OnOk result (list.new.items ≡ list.old.items ++ in_parts (parts_of parts.now)) }
{
    for part in parts.items() {
        put_part(list, part)?;
    }
    Ok(())
}

#[cycle(mentioned)]
fn put_part(list: &mut Vec<Mention>, part: &Part) -> Result<(), AllocError>
    ensures exact { OnOk result (list.new.items ≡ list.old.items ++ in_part (part_of part.now)) }
{
    match part {
        Part::Field(_) => Ok(()),
        Part::Index(index, _) => put_value(list, index),
    }
}

#[cycle(mentioned)]
fn put_arguments(list: &mut Vec<Mention>, arguments: &Arguments) -> Result<(), AllocError>
    ensures exact { OnOk result (list.new.items ≡ list.old.items ++ in_arguments (arguments_of arguments.now)) }
{
    for argument in arguments.items() {
        put_argument(list, argument)?;
    }
    Ok(())
}

#[cycle(mentioned)]
fn put_argument(list: &mut Vec<Mention>, argument: &Argument) -> Result<(), AllocError>
    ensures exact { OnOk result (list.new.items ≡ list.old.items ++ in_argument (argument_of argument.now)) }
{
    match argument {
        Argument::Value(value) => put_value(list, value),
        Argument::Var(place) => {
            list.push(Mention::Lends {
                levels: place.levels,
                variable: place.variable,
            })?;
            put_parts(list, &place.parts)
        }
        Argument::Formal(callee) => {
            list.push(Mention::Passes(*callee))?;
            Ok(())
        }
    }
}

// ---- statements

#[cycle(done)]
fn put_act(list: &mut Vec<Mention>, act: &Act) -> Result<(), AllocError>
    ensures exact { OnOk result (list.new.items ≡ list.old.items ++ in_act (act_of act.now)) }
{
    match act {
        Act::Skip | Act::Halt(_) | Act::Cobegin(_, _) => Ok(()),
        Act::Assign(place, value) => {
            list.push(Mention::Assigns {
                levels: place.levels,
                variable: place.variable,
            })?;
            put_parts(list, &place.parts)?;
            put_value(list, value)
        }
        Act::Call(callee, arguments, _) => {
            list.push(Mention::Calls(*callee))?;
            put_arguments(list, arguments)
        }
        Act::If(clauses) | Act::While(clauses) | Act::When(clauses, _) => put_clauses(
            list, clauses,
        ),
    }
}

#[cycle(done)]
fn put_clauses(list: &mut Vec<Mention>, clauses: &Clauses) -> Result<(), AllocError>
    ensures exact { OnOk result (list.new.items ≡ list.old.items ++ in_clauses (clauses_of clauses.now)) }
{
    for clause in clauses.items() {
        put_value(list, &clause.condition)?;
        put_acts(list, &clause.body)?;
    }
    Ok(())
}

/// Puts what statements mention at the end of a list, from left to right; after want of memory the list is of no use.
#[cycle(done)]
pub(crate) fn put_acts(list: &mut Vec<Mention>, acts: &Acts) -> Result<(), AllocError>
    ensures exact { OnOk result (list.new.items ≡ list.old.items ++ in_acts (acts_of acts.now)) }
{
    for act in acts.items() {
        put_act(list, act)?;
    }
    Ok(())
}

// ---- the same outside critical phases

#[cycle(outside)]
fn put_open_act(list: &mut Vec<Mention>, act: &Act) -> Result<(), AllocError>
    ensures exact { OnOk result (list.new.items ≡ list.old.items ++ in_act (open_act (act_of act.now))) }
{
    match act {
        Act::When(_, _) => Ok(()),
        Act::If(clauses) | Act::While(clauses) => put_open_clauses(list, clauses),
        Act::Skip | Act::Halt(_) | Act::Cobegin(_, _) | Act::Assign(_, _) | Act::Call(_, _, _) => {
            put_act(list, act)
        }
    }
}

#[cycle(outside)]
fn put_open_clauses(list: &mut Vec<Mention>, clauses: &Clauses) -> Result<(), AllocError>
    ensures exact { OnOk result (list.new.items ≡ list.old.items ++ in_clauses (open_clauses (clauses_of clauses.now))) }
{
    for clause in clauses.items() {
        put_value(list, &clause.condition)?;
        put_open_acts(list, &clause.body)?;
    }
    Ok(())
}

/// Puts what statements mention outside a `when` at the end of a list, as `put_acts` does.
#[cycle(outside)]
pub(crate) fn put_open_acts(list: &mut Vec<Mention>, acts: &Acts) -> Result<(), AllocError>
    ensures exact { OnOk result (list.new.items ≡ list.old.items ++ in_acts (open_acts (acts_of acts.now))) }
{
    for act in acts.items() {
        put_open_act(list, act)?;
    }
    Ok(())
}
