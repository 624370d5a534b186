//! Names alone, and calls of functions.

ghost use Rattle.std.specs.Prelude.{◌≡◌};
ghost use Rattle.edi_unit.specs.Tree as unit;
ghost use Rattle.edi_static.specs.Prelude.{JudgedAnswers, arguments_of, environment, typed_of};
ghost use Rattle.edi_static.specs.Expressions as rule;
ghost use Rattle.edi_static.specs.Fitting as spec;
ghost use Rattle.edi_values.specs.Parts as part;
ghost use Rattle.edi_values.specs.Views.{called_of, used_of};

use crate::places::rooted_value;
use crate::uses::{Called, Use, use_of};
use edi_scope::Entity;
use edi_static::{Judged, Known, StaticKind, Typed, as_variable, empty_set, fault, must};
use edi_tree::Name;
use edi_unit::{Arguments, List, Value};
use std::alloc::Global;

/// A value of a type, by its ordinal.
pub(crate) fn constant_value(of: u32, ordinal: i16) -> Typed
    ensures exact { typed_of result ≡ record { what = unit.constant of ordinal; of = of } }
{
    Typed {
        what: Value::Constant { of, ordinal },
        of,
    }
}

/// The result of a function.
pub(crate) fn invoked(line: u16, called: Called, arguments: Arguments) -> Typed
    ensures exact { typed_of result ≡ spec.invoked line (called_of called.entry) (arguments_of arguments) }
{
    let of = called.result();
    Typed {
        what: Value::Apply(called.callee, arguments, line),
        of,
    }
}

/// A call in an expression is that of a function, with as many arguments as its heading has parameters.
pub(crate) fn function_called(line: u16, called: Called, arguments: usize) -> Judged<()>
    ensures exact { JudgedAnswers (λ _. tt) result (spec.function_called line (called_of called.entry) arguments) }
{
    must(called.is_function_of(arguments), StaticKind::Call, line)
}

/// A function without parameters.
fn invoked_alone(alloc: Global, line: u16, called: Called) -> Judged<Typed>
    ensures exact { JudgedAnswers typed_of result (part.invoked_alone line (called_of called.entry)) }
{
    function_called(line, called, 0)?;
    Ok(invoked(line, called, List::new(alloc)))
}

/// A constant or a variable.
fn value_alone(known: &Known, alloc: Global, line: u16, entity: Entity) -> Judged<Typed>
    ensures exact { JudgedAnswers typed_of result (rule.used_alone (environment known.now) line spec.neither entity) }
{
    match entity {
        Entity::Constant { of, ordinal } => Ok(constant_value(of, ordinal)),
        _ => Ok(rooted_value(alloc, as_variable(known, line, entity)?)),
    }
}

/// What an entity is alone, by what it can be used for.
fn used_alone(known: &Known, alloc: Global, line: u16, used: Use, entity: Entity) -> Judged<Typed>
    ensures exact { JudgedAnswers typed_of result (rule.used_alone (environment known.now) line (used_of used.entry) entity) }
{
    match used {
        Use::Constructs(of) => empty_set(known, alloc, line, of),
        Use::Calls(called) => invoked_alone(alloc, line, called),
        Use::Halts => fault(StaticKind::Call, line),
        Use::Neither => value_alone(known, alloc, line, entity),
    }
}

/// A name alone: a constant, a variable, a call of a function without parameters, or a set type.
pub(crate) fn alone(known: &Known, alloc: Global, name: &Name) -> Judged<Typed>
    ensures exact { JudgedAnswers typed_of result (rule.alone (environment known.now) name.now) }
{
    let entity = known.look_up(name)?;
    let used = use_of(known, entity)?;
    used_alone(known, alloc, name.line, used, entity)
}
