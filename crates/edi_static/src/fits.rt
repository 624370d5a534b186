//! What a name can be used for, and the rules on calls and constructors that do not look into their arguments.

ghost use Rattle.std.specs.Prelude.{◌≡◌, ◌==◌, map};
ghost use Rattle.std.specs.List.{list_all, list_any};
ghost use Rattle.edi_unit.specs.Types as types;
ghost use Rattle.edi_unit.specs.Need as need;
ghost use Rattle.edi_static.specs.Prelude.{JudgedAnswers, argument_of, environment, expression_of, gives, rooted_of, shape_of, typed_of};
ghost use Rattle.edi_static.specs.Environment.{steps_to};
ghost use Rattle.edi_static.specs.Fitting as spec;

use crate::faults::{Judged, StaticKind};
use crate::known::{Known, fault, must, number};
use crate::operands::{Typed, is_set};
use edi_scope::Entity;
use edi_unit::{Argument, CHAR, INT, List, Shape, Value};
use std::alloc::Global;

/// An argument for a `var` parameter is a variable alone, of its type.
pub fn variable_argument(line: u16, of: u32, alone: bool, value: Typed) -> Judged<Argument>
    ensures exact { JudgedAnswers argument_of result (spec.variable_argument line of alone (expression_of value.what) value.of) }
{
    let Typed { what, of: has } = value;
    match what {
        Value::Load(place) => {
            must(alone && has == of, StaticKind::Call, line)?;
            Ok(Argument::Var(place))
        }
        _ => fault(StaticKind::Call, line),
    }
}

pub fn character(character: u8) -> Typed
    ensures exact { typed_of result ≡ spec.character character }
{
    let what = Value::Constant {
        of: CHAR,
        ordinal: i16::from(character),
    };
    Typed { what, of: CHAR }
}

/// A string stands for its characters only where a constructor takes it; elsewhere it has to be one character.
pub fn single(line: u16, characters: &[u8]) -> Judged<Typed>
    ensures exact { JudgedAnswers typed_of result (spec.single line characters.now) }
{
    match characters {
        [one] => Ok(character(*one)),
        _ => fault(StaticKind::Constructor, line),
    }
}

/// A set type alone is the empty set.
pub fn empty_set(known: &Known, alloc: Global, line: u16, of: u32) -> Judged<Typed>
    ensures exact { JudgedAnswers typed_of result (spec.empty_set (environment known.now) line of) }
{
    must(is_set(known.shape(of)), StaticKind::Constructor, line)?;
    let what = Value::Make {
        of,
        parts: List::new(alloc),
        line,
    };
    Ok(Typed { what, of })
}

/// A variable of a block that is so many steps out, with its type.
#[derive(Clone, Copy)]
pub struct Rooted {
    pub levels: u32,
    pub variable: u32,
    pub of: u32,
}

/// A variable of this block.
fn rooted_in(known: &Known, block: u32, variable: u32, of: u32) -> Judged<Rooted>
    ensures exact { JudgedAnswers rooted_of result (gives (record { levels = steps_to block (environment known.now).around; variable = variable; of = of })) }
{
    let levels = number(known.steps_to(block))?;
    Ok(Rooted {
        levels,
        variable,
        of,
    })
}

/// A variable is asked.
pub fn as_variable(known: &Known, line: u16, entity: Entity) -> Judged<Rooted>
    ensures exact { JudgedAnswers rooted_of result (spec.as_variable (environment known.now) line entity) }
{
    match entity {
        Entity::Variable {
            block,
            variable,
            of,
        } => rooted_in(known, block, variable, of),
        _ => fault(StaticKind::Kind, line),
    }
}

/// The type of the result of a block, if it is a function.
fn block_result(known: &Known, block: u32) -> Option<u32>
    ensures exact { result ≡ (need.block_at (environment known.now).blocks block).result }
{
    match known.blocks.get(block as usize) {
        Some(block) => block.result,
        None => None,
    }
}

/// The variable of a function whose body contains this place.
pub fn as_function(known: &Known, line: u16, entity: Entity) -> Judged<Rooted>
    ensures exact { JudgedAnswers rooted_of result (spec.as_function (environment known.now) line entity) }
{
    match entity {
        Entity::Procedure { block } => function_variable(known, line, block),
        _ => fault(StaticKind::Kind, line),
    }
}

fn function_variable(known: &Known, line: u16, block: u32) -> Judged<Rooted>
    ensures exact { JudgedAnswers rooted_of result (spec.function_variable (environment known.now) line block
        (list_any (λ a. a == block) (environment known.now).around) (need.block_at (environment known.now).blocks block).result) }
{
    if !known.is_around(block) {
        return fault(StaticKind::Kind, line);
    }
    match block_result(known, block) {
        Some(of) => rooted_in(known, block, 0, of),
        None => fault(StaticKind::Kind, line),
    }
}

/// Whether a type is that of arrays with an index of a type.
pub fn is_indexed_by(shape: &Shape, of: u32) -> bool
    ensures exact { result ≡ spec.is_indexed_by (shape_of shape.now) of }
{
    match shape {
        Shape::Array { index, .. } => *index == of,
        _ => false,
    }
}

/// The type of an array's elements; another type counts as one of `int`.
pub fn element_type(shape: &Shape) -> u32
    ensures exact { result ≡ need.element_type (shape_of shape.now) }
{
    match shape {
        Shape::Array { element, .. } => *element,
        _ => INT,
    }
}

/// A string is taken by the constructors of arrays of characters.
pub fn takes_strings(shape: &Shape) -> bool
    ensures exact { result ≡ spec.takes_strings (shape_of shape.now) }
{
    match shape {
        Shape::Array { element, .. } => *element == CHAR,
        _ => false,
    }
}

/// The number of an array's elements.
fn element_count(lo: i16, hi: i16) -> usize
    ensures exact { result ≡ types.element_count lo hi }
{
    if lo > hi {
        return 0;
    }
    usize::from(lo.abs_diff(hi)) + 1
}

/// Whether there is one part for each field, of its type.
#[tactic(auto, using(crate::proofs::Fields::parts_differ))]
fn are_fields(parts: &[Typed], fields: &[u32]) -> bool
    ensures exact { result ≡ spec.same_types (map (λ p. p.of) parts.now) fields.now }
{
    if parts.len() != fields.len() {
        return false;
    }
    let mut position = 0;
    for part in parts {
        if part.of != fields[position] {
            return false;
        }
        position += 1;
    }
    true
}

/// Whether each part is of a type.
fn are_all(parts: &[Typed], of: u32) -> bool
    ensures exact { result ≡ list_all (λ t. t == of) (map (λ p. p.of) parts.now) }
{
    for part in parts {
        if part.of != of {
            return false;
        }
    }
    true
}

/// Whether the parts are one value of an elementary type.
fn is_one_ordinal(known: &Known, parts: &[Typed]) -> bool
    ensures exact { result ≡ spec.is_one_ordinal known.now.types (map (λ p. p.of) parts.now) }
{
    match parts {
        [one] => known.is_elementary(one.of),
        _ => false,
    }
}

/// Whether a constructor of a type takes these parts.
pub fn takes_parts(known: &Known, shape: &Shape, parts: &[Typed]) -> bool
    ensures exact { result ≡ spec.takes_parts known.now.types (shape_of shape.now) (map (λ p. p.of) parts.now) }
{
    match shape {
        Shape::Record(fields) => are_fields(parts, fields.items()),
        Shape::Array {
            lo,
            hi,
            element,
            ..
        } => parts.len() == element_count(*lo, *hi) && are_all(parts, *element),
        Shape::Set(base) => are_all(parts, *base),
        Shape::Int | Shape::Char | Shape::Bool | Shape::Enum(_) => is_one_ordinal(known, parts),
    }
}
