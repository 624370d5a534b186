//! The rules on a program's heading: its parameters are calls of the system.

ghost use Rattle.std.specs.Prelude.{◌≡◌, ◌&&◌, ◌==◌, ◌∷◌, [], length, map, Option, Some, None};
ghost use Rattle.edi_tree.specs.View.{param_of, heading_of, more_params};
ghost use Rattle.edi_unit.specs.Types.{shape_at};
ghost use Rattle.edi_unit.specs.Headings.{heading, heading_formals, heading_result, no_formal, value_then, variable_then};
ghost use Rattle.edi_static.specs.Prelude.{JudgedAnswers, asked_of, formal_of, list_items, same_one, shape_of};
ghost use Rattle.edi_static.specs.Environment.{same_heading, same_result, no_heading};
ghost use Rattle.edi_static.specs.Programs as spec;
ghost use Rattle.edi_static.specs.Fitting.{rest_of};
ghost use Rattle.edi_static.specs.Views as view;
ghost use Rattle.edi_sema.specs.Calls.{takes_title, number_if, file_calls, asked_by, param_call};

use edi_static::{
    Asked, Formal, Judged, Known, StaticKind, add, fault, no_asked, plain_formal, same_formal,
};
use edi_tree::{Heading, Name, Param};
use edi_unit::{BOOL, CHAR, CallList, INT, List, Shape};
use std::alloc::Global;

/// Whether a parameter is a variable of this type.
fn is_variable(formal: &Formal, of: u32) -> bool
    ensures exact { result ≡ same_one (formal_of formal.now) (view.variable of) }
{
    match formal {
        Formal::Variable(t) => *t == of,
        _ => false,
    }
}

/// The parameters of a heading.
fn formals_of(asked: &Asked) -> &[Formal]
    ensures exact { view.formals (map formal_of result.now) ≡ heading_formals (asked_of asked.now) }
{
    asked.formals.items()
}

/// Whether a heading has no result.
fn is_procedure(asked: &Asked) -> bool
    ensures exact { result ≡ same_result (heading_result (asked_of asked.now)) None }
{
    asked.result.is_none()
}

/// No parameters.
fn is_bare(asked: &Asked) -> bool
    ensures exact { result ≡ same_heading (asked_of asked.now) no_heading }
{
    if !is_procedure(asked) {
        return false;
    }
    formals_of(asked).is_empty()
}

/// This parameter alone, and no result.
fn asks_only(asked: &Asked, formal: &Formal) -> bool
    ensures exact { result ≡ same_heading (asked_of asked.now) (heading (view.formals (formal_of formal.now ∷ [])) None) }
{
    let formals = formals_of(asked);
    if formals.len() != 1 {
        return false;
    }
    if !is_procedure(asked) {
        return false;
    }
    same_formal(&formals[0], formal)
}

/// A value of a type.
fn takes(asked: &Asked, of: u32) -> bool
    ensures exact { result ≡ same_heading (asked_of asked.now) (heading (value_then of no_formal) None) }
{
    asks_only(asked, &plain_formal(false, of))
}

/// A variable of a type.
fn gives(asked: &Asked, of: u32) -> bool
    ensures exact { result ≡ same_heading (asked_of asked.now) (heading (variable_then of no_formal) None) }
{
    asks_only(asked, &plain_formal(true, of))
}

/// A title is passed as an array of 12 characters.
fn is_title(shape: &Shape) -> bool
    ensures exact { result ≡ spec.is_title_shape (shape_of shape.now) }
{
    match shape {
        Shape::Array {
            index,
            lo,
            hi,
            element,
        } => *index == INT && *lo == 1 && *hi == 12 && *element == CHAR,
        _ => false,
    }
}

/// Whether a parameter takes a title.
fn is_title_value(known: &Known, formal: &Formal) -> bool
    ensures exact { result ≡ takes_title known.now.types (formal_of formal.now) }
{
    match formal {
        Formal::Value(t) => is_title(known.shape(*t)),
        _ => false,
    }
}

/// A title, and a variable for the answer.
fn is_titled(known: &Known, asked: &Asked) -> bool
    ensures exact { result ≡ spec.is_titled known.now.types (asked_of asked.now) }
{
    let formals = formals_of(asked);
    if formals.len() != 2 {
        return false;
    }
    if !is_procedure(asked) {
        return false;
    }
    if !is_title_value(known, &formals[0]) {
        return false;
    }
    is_variable(&formals[1], BOOL)
}

/// A number where something holds.
fn number_if(holds: bool, number: u8) -> Option<u8>
    ensures exact { result ≡ number_if holds number }
{
    if holds { Some(number) } else { None }
}

/// The number beside the first of these spellings that is the name, or else the last.
macro_rules! beside {
    ($name:expr, $($spelling:literal => $number:expr,)* _ => $other:expr,) => {{
        $(
            if $spelling.as_slice() == $name {
                return $number;
            }
        )*
        $other
    }};
}

/// The number of the call of this name, if it asks for a title or for nothing and the heading is its.
fn file_number(known: &Known, asked: &Asked, name: &[u8]) -> Option<u8>
    ensures exact { result ≡ spec.number_of_call (file_calls known.now.types (asked_of asked.now)) name.now }
{
    beside!(
        name,
        b"fresh" => number_if(is_bare(asked), 7),
        b"write" => number_if(takes(asked, CHAR), 8),
        b"close" => number_if(is_titled(known, asked), 9),
        b"remove" => number_if(is_titled(known, asked), 10),
        _ => None,
    )
}

/// The number of the call of this name, if there is one and the heading is its.
fn call_number(known: &Known, asked: &Asked, name: &[u8]) -> Option<u8>
    ensures exact { result ≡ spec.number_of_call (spec.system_calls known.now.types (asked_of asked.now)) name.now }
{
    beside!(
        name,
        b"accept" => number_if(gives(asked, CHAR), 1),
        b"display" => number_if(takes(asked, CHAR), 2),
        b"print" => number_if(takes(asked, CHAR), 3),
        b"find" => number_if(is_titled(known, asked), 4),
        b"more" => number_if(gives(asked, BOOL), 5),
        b"read" => number_if(gives(asked, CHAR), 6),
        _ => file_number(known, asked, name),
    )
}

/// The call of a name and its heading; it must be one.
fn call_with(known: &Known, asked: &Asked, name: &Name) -> Judged<u8>
    ensures exact { JudgedAnswers (λ n. n) result
        (spec.call_with name.now (spec.number_of_call (spec.system_calls known.now.types (asked_of asked.now)) name.now.text)) }
{
    match call_number(known, asked, name.text.as_slice()) {
        Some(number) => Ok(number),
        None => fault(StaticKind::Heading, name.line),
    }
}

/// What a procedure parameter asks; any other asks nothing.
fn asked_by<'a>(formal: &'a Formal, nothing: &'a Asked) -> &'a Asked
    requires nothing { asked_of nothing.now ≡ no_heading }
    ensures exact { asked_of result.now ≡ asked_by (formal_of formal.now) }
{
    match formal {
        Formal::Procedure(asked) => asked,
        Formal::Value(_) => nothing,
        Formal::Variable(_) => nothing,
    }
}

/// What the first parameter asks.
fn first_asked<'a>(formals: &'a [Formal], nothing: &'a Asked) -> &'a Asked
    requires nothing { asked_of nothing.now ≡ no_heading }
    ensures exact { asked_of result.now ≡ spec.first_asked (view.formals (map formal_of formals.now)) }
{
    match formals {
        [formal, ..] => asked_by(formal, nothing),
        [] => nothing,
    }
}

/// The parameters behind the first.
fn behind_first(formals: &[Formal]) -> &[Formal]
    ensures exact { view.formals (map formal_of result.now) ≡ rest_of (view.formals (map formal_of formals.now)) }
{
    match formals {
        [_, more @ ..] => more,
        [] => formals,
    }
}

/// The call that a parameter is; a group is none.
fn call_of(known: &Known, param: &Param, asked: &Asked) -> Judged<u8>
    ensures exact { JudgedAnswers (λ n. n) result (param_call known.now.types (param_of param.now) (asked_of asked.now)) }
{
    match param {
        Param::Heading(heading) => call_with(known, asked, &heading.name),
        Param::Value(group) => fault(StaticKind::Heading, group.first.line),
        Param::Var(group) => fault(StaticKind::Heading, group.first.line),
    }
}

/// The calls that the parameters are.
fn calls_of(known: &Known, alloc: Global, params: &[Param], asked: &Asked) -> Judged<CallList>
    ensures exact { JudgedAnswers (λ calls. list_items calls) result
        (spec.calls_of_more known.now.types (more_params (map param_of params.now)) (heading_formals (asked_of asked.now))) }
{
    let nothing = no_asked(alloc);
    let mut calls = List::new(alloc);
    let mut formals = formals_of(asked);
    for param in params {
        let number = call_of(known, param, first_asked(formals, &nothing))?;
        add(&mut calls, alloc, number)?;
        formals = behind_first(formals);
    }
    Ok(calls)
}

/// A program has no result, and its parameters are calls of the system.
pub(crate) fn program_heading(
    known: &Known,
    alloc: Global,
    heading: &Heading,
    asked: &Asked,
) -> Judged<CallList>
    ensures exact { JudgedAnswers (λ calls. list_items calls) result
        (spec.program_heading known.now.types (heading_of heading.now) (asked_of asked.now)) }
{
    match &heading.result {
        Some(_) => fault(StaticKind::Heading, heading.name.line),
        None => calls_of(known, alloc, heading.params.items(), asked),
    }
}
