//! Whether conditions call functions.

ghost use Rattle.std.specs.Prelude.{◌≡◌};
ghost use Rattle.edi_unit.specs.View.{clauses_of, expression_of, expressions_of, links_of, parts_of};
ghost use Rattle.edi_meaning.specs.Step.{calls};
ghost use Rattle.edi_meaning.specs.Step as step;

use edi_unit::{Clauses, Links, Part, Parts, Value, Values};

// Whether a function call stands in the text of an expression.
#[cycle(calls)]
fn value_calls(value: &Value) -> bool
    ensures exact { result ≡ calls (expression_of value.now) }
{
    match value {
        Value::Constant { .. } => false,
        Value::Load(place) => parts_call(&place.parts),
        Value::Not(value) | Value::Sign(value, _) | Value::Convert { value, .. } => {
            value_calls(value)
        }
        Value::Chain(first, links) => value_calls(first) || links_call(links),
        Value::Make { parts, .. } => any_calls(parts),
        Value::Apply(_, _, _) => true,
    }
}

#[cycle(calls)]
fn any_calls(values: &Values) -> bool
    ensures exact { result ≡ step.any_calls (expressions_of values.now) }
{
    for value in values.items() {
        if value_calls(value) {
            return true;
        }
    }
    false
}

#[cycle(calls)]
fn links_call(links: &Links) -> bool
    ensures exact { result ≡ step.links_call (links_of links.now) }
{
    for link in links.items() {
        if value_calls(&link.right) {
            return true;
        }
    }
    false
}

#[cycle(calls)]
fn parts_call(parts: &Parts) -> bool
    ensures exact { result ≡ step.parts_call (parts_of parts.now) }
{
    for part in parts.items() {
        if let Part::Index(index, _) = part {
            if value_calls(index) {
                return true;
            }
        }
    }
    false
}

// Whether none of these conditions calls a function.
pub(crate) fn is_quiet(conditions: &Clauses) -> bool
    ensures exact { result ≡ step.is_quiet (clauses_of conditions.now) }
{
    for clause in conditions.items() {
        if value_calls(&clause.condition) {
            return false;
        }
    }
    true
}
