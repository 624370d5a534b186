//! The number of words of the code of expressions, and of what they are made from.

ghost use Rattle.std.specs.Prelude.{◌≡◌, ◌<◌, ◌^◌};
ghost use Rattle.edi_unit.specs.View.{
  argument_of,
  arguments_of,
  expression_of,
  expressions_of,
  links_of,
  part_of,
  place_of,
};
ghost use Rattle.edi_code.specs.InScope as long;
ghost use Rattle.edi_code.specs.InScope.{make_words};

use crate::pieces::{
    are_constants, call_length, check_length, decision_length, element_length, is_set,
    operation_length, procedure_length, slot_type, variable_length,
};
use crate::scope::Scope;
use edi_unit::{
    Argument, Arguments, Links, Part, Place, Value, Values, expression_type, operator_type,
    part_type, slot,
};

// The words of an expression.
#[cycle(lengths)]
pub(crate) fn value_length(value: &Value, scope: &Scope<'_>) -> u32
    requires small { long.expression_length scope.now (expression_of value.now) < 2 ^ 32 }
    ensures exact { result ≡ long.expression_length scope.now (expression_of value.now) }
{
    match value {
        Value::Constant { .. } => 2,
        Value::Load(place) => place_length(place, scope) + 2,
        Value::Not(value) => value_length(value, scope) + 1,
        Value::Sign(value, _) => value_length(value, scope) + 2,
        Value::Chain(first, links) => {
            let left = expression_type(scope.types, scope.blocks, scope.block, first);
            value_length(first, scope) + links_length(links, scope, left)
        }
        Value::Make { of, parts, .. } => make_length(parts, scope, *of),
        Value::Convert { of, value, .. } => value_length(value, scope)
            + check_length(scope.types, *of),
        Value::Apply(callee, arguments, _) => arguments_length(arguments, scope)
            + call_length(*callee),
    }
}

// The words of a record, an array or a set of type `of`.
#[cycle(lengths)]
fn make_length(parts: &Values, scope: &Scope<'_>, of: u32) -> u32
    requires small { make_words scope.now of (expressions_of parts.now) < 2 ^ 32 }
    ensures exact { result ≡ make_words scope.now of (expressions_of parts.now) }
{
    if is_set(scope.types, of) {
        return 2 + members_length(parts, scope);
    }
    if are_constants(parts) {
        return 2 + parts.len() as u32;
    }
    let mut words: u32 = 0;
    for value in parts.items() {
        words += value_length(value, scope);
    }
    words
}

// The words of the members of a set, each joined to it.
#[cycle(lengths)]
fn members_length(members: &Values, scope: &Scope<'_>) -> u32
    requires small { long.members_length scope.now (expressions_of members.now) < 2 ^ 32 }
    ensures exact { result ≡ long.members_length scope.now (expressions_of members.now) }
{
    let mut words: u32 = 0;
    for member in members.items() {
        words += value_length(member, scope) + 2;
    }
    words
}

// The words of operators with their right operands, behind a left operand of type `left`.
#[cycle(lengths)]
fn links_length(links: &Links, scope: &Scope<'_>, left: u32) -> u32
    requires small { long.links_length scope.now left (links_of links.now) < 2 ^ 32 }
    ensures exact { result ≡ long.links_length scope.now left (links_of links.now) }
{
    let mut of = left;
    let mut words: u32 = 0;
    for link in links.items() {
        let right = value_length(&link.right, scope);
        words += decision_length(link.operator)
            + right
            + operation_length(scope.types, of, link.operator);
        of = operator_type(link.operator, of);
    }
    words
}

// The words of a place.
#[cycle(lengths)]
pub(crate) fn place_length(place: &Place, scope: &Scope<'_>) -> u32
    requires small { long.place_length scope.now (place_of place.now) < 2 ^ 32 }
    ensures exact { result ≡ long.place_length scope.now (place_of place.now) }
{
    let variable = slot(scope.blocks, scope.block, place.levels, place.variable);
    let mut of = slot_type(variable);
    let mut words: u32 = 0;
    for part in place.parts.items() {
        words += part_length(part, scope, of);
        of = part_type(scope.types, of, part);
    }
    variable_length(variable) + words
}

// The words of one step, from a variable of type `of`.
#[cycle(lengths)]
pub(crate) fn part_length(part: &Part, scope: &Scope<'_>, of: u32) -> u32
    requires small { long.part_length scope.now of (part_of part.now) < 2 ^ 32 }
    ensures exact { result ≡ long.part_length scope.now of (part_of part.now) }
{
    match part {
        Part::Field(_) => 2,
        Part::Index(index, _) => value_length(index, scope) + element_length(scope.types, of),
    }
}

// The words of an argument.
#[cycle(lengths)]
pub(crate) fn argument_length(argument: &Argument, scope: &Scope<'_>) -> u32
    requires small { long.argument_length scope.now (argument_of argument.now) < 2 ^ 32 }
    ensures exact { result ≡ long.argument_length scope.now (argument_of argument.now) }
{
    match argument {
        Argument::Value(value) => value_length(value, scope),
        Argument::Var(place) => place_length(place, scope),
        Argument::Formal(callee) => procedure_length(*callee),
    }
}

// The words of the arguments of a call.
#[cycle(lengths)]
pub(crate) fn arguments_length(arguments: &Arguments, scope: &Scope<'_>) -> u32
    requires small { long.arguments_length scope.now (arguments_of arguments.now) < 2 ^ 32 }
    ensures exact { result ≡ long.arguments_length scope.now (arguments_of arguments.now) }
{
    let mut words: u32 = 0;
    for argument in arguments.items() {
        words += argument_length(argument, scope);
    }
    words
}
