//! The words of memory that the evaluation of a construct takes above its frame, and the words that a block needs. A number
//! of words above 65,535 counts as 65,536, so that it is known without overflow however long a construct is.

ghost use Rattle.std.specs.Prelude.{◌≡◌, ◌+◌, ◌≤◌, if◌then◌else◌, map, sum_by};
ghost use Rattle.edi_unit.specs.Lists.{list_items};
ghost use Rattle.edi_unit.specs.Types.{is_set_shape, shape_at};
ghost use Rattle.edi_unit.specs.View.{argument_of, arguments_of, block_of, expression_of, expressions_of};
ghost use Rattle.edi_unit.specs.View.{link_of, links_of, part_of, place_of};
ghost use Rattle.edi_unit.specs.Need.{argument_words, arguments_height, compound_height, expression_height, left_words, limited, links_height};
ghost use Rattle.edi_unit.specs.Need.{members_height, part_height, place_height, result_words, too_large};
ghost use Rattle.edi_unit.specs.Need as spec;

use crate::expressions::{
    Argument, Arguments, Callee, Links, Operator, Part, Place, Value, Values,
};
use crate::statements::{Act, Acts, Clause, Clauses};
use crate::types::{Shape, TypeTable};
use crate::typing::{callee_result, expression_type, operator_type, place_type, type_words};
use crate::units::{Block, Parameter};

/// The least number of words that is too large for a size or a need.
pub const TOO_LARGE: u32 = 65_536;

// The sum of two numbers of words.
pub(crate) fn sum(a: u32, b: u32) -> u32
    requires first { a ≤ too_large }
    requires second { b ≤ too_large }
    ensures exact { result ≡ limited (a + b) }
    ensures small { result ≤ too_large }
{
    (a + b).min(TOO_LARGE)
}

// Whether a type is a set.
fn is_set(types: &TypeTable, of: u32) -> bool
    ensures exact { result ≡ is_set_shape (shape_at types.now of) }
{
    of < types.len() && matches!(types.shape(of), Shape::Set(_))
}

// The words that a left operand of this type keeps while the right operand is evaluated.
fn kept_words(types: &TypeTable, operator: Operator, left: u32) -> u32
    ensures exact { result ≡ left_words types.now operator left }
    ensures small { result ≤ too_large }
{
    match operator {
        Operator::And | Operator::Or => 0,
        _ => type_words(types, left),
    }
}

// The words of the result of what is called.
fn called_words(types: &TypeTable, blocks: &[Block], block: u32, callee: Callee) -> u32
    ensures exact { result ≡ result_words types.now (map block_of blocks.now) block callee }
    ensures small { result ≤ too_large }
{
    match callee_result(blocks, block, callee) {
        Some(of) => type_words(types, of),
        None => 0,
    }
}

// The words that an argument leaves.
fn passed_words(types: &TypeTable, blocks: &[Block], block: u32, argument: &Argument) -> u32
    ensures exact { result ≡ argument_words types.now (map block_of blocks.now) block (argument_of argument.now) }
    ensures small { result ≤ too_large }
{
    match argument {
        Argument::Value(value) => type_words(types, expression_type(types, blocks, block, value)),
        Argument::Var(_) => 1,
        Argument::Formal(_) => 3,
    }
}

// The height of an expression.
#[cycle(heights)]
pub(crate) fn value_words(types: &TypeTable, blocks: &[Block], block: u32, value: &Value) -> u32
    ensures exact { result
        ≡ limited (expression_height types.now (map block_of blocks.now) block (expression_of value.now)) }
    ensures small { result ≤ too_large }
{
    match value {
        Value::Constant { .. } => 1,
        Value::Load(place) => {
            let address = place_words(types, blocks, block, place);
            address.max(type_words(types, place_type(types, blocks, block, place)))
        }
        Value::Not(value) | Value::Sign(value, _) | Value::Convert { value, .. } => {
            value_words(types, blocks, block, value)
        }
        Value::Chain(first, links) => {
            let left = expression_type(types, blocks, block, first);
            let before = value_words(types, blocks, block, first);
            before.max(links_words(types, blocks, block, left, links))
        }
        Value::Make { of, parts, .. } => make_words(types, blocks, block, *of, parts),
        Value::Apply(callee, arguments, _) => {
            let passing = arguments_words(types, blocks, block, arguments);
            passing.max(called_words(types, blocks, block, *callee))
        }
    }
}

// The height of a record, an array or a set of type `of`.
#[cycle(heights)]
fn make_words(types: &TypeTable, blocks: &[Block], block: u32, of: u32, parts: &Values) -> u32
    ensures exact { result
        ≡ limited (if is_set_shape (shape_at types.now of)
        then members_height types.now (map block_of blocks.now) block (expressions_of parts.now)
        else compound_height types.now (map block_of blocks.now) block 0 (expressions_of parts.now)) }
    ensures small { result ≤ too_large }
{
    if is_set(types, of) {
        let mut words: u32 = 8;
        for member in parts.items() {
            words = words.max(sum(8, value_words(types, blocks, block, member)));
        }
        return words;
    }
    let mut before: u32 = 0;
    let mut words: u32 = 0;
    for part in parts.items() {
        words = words.max(sum(before, value_words(types, blocks, block, part)));
        before = sum(
            before,
            type_words(types, expression_type(types, blocks, block, part)),
        );
    }
    words
}

// The height of the right operands of a chain, whose first operator stands behind a value of type `left`.
#[cycle(heights)]
fn links_words(types: &TypeTable, blocks: &[Block], block: u32, left: u32, links: &Links) -> u32
    ensures exact { result ≡ limited (links_height types.now (map block_of blocks.now) block left (links_of links.now)) }
    ensures small { result ≤ too_large }
{
    let mut of = left;
    let mut words: u32 = 0;
    for link in links.items() {
        let right = value_words(types, blocks, block, &link.right);
        words = words.max(sum(kept_words(types, link.operator, of), right));
        of = operator_type(link.operator, of);
    }
    words
}

// The height of a place.
#[cycle(heights)]
pub(crate) fn place_words(types: &TypeTable, blocks: &[Block], block: u32, place: &Place) -> u32
    ensures exact { result ≡ limited (place_height types.now (map block_of blocks.now) block (place_of place.now)) }
    ensures small { result ≤ too_large }
{
    let mut words: u32 = 0;
    for part in place.parts.items() {
        words = words.max(part_words(types, blocks, block, part));
    }
    words.max(1)
}

// The height of a step to a part.
#[cycle(heights)]
fn part_words(types: &TypeTable, blocks: &[Block], block: u32, part: &Part) -> u32
    ensures exact { result ≡ limited (part_height types.now (map block_of blocks.now) block (part_of part.now)) }
    ensures small { result ≤ too_large }
{
    match part {
        Part::Field(_) => 0,
        Part::Index(index, _) => sum(1, value_words(types, blocks, block, index)),
    }
}

// The height of an argument.
#[cycle(heights)]
fn argument_words_above(types: &TypeTable, blocks: &[Block], block: u32, argument: &Argument) -> u32
    ensures exact { result
        ≡ limited (spec.argument_height types.now (map block_of blocks.now) block (argument_of argument.now)) }
    ensures small { result ≤ too_large }
{
    match argument {
        Argument::Value(value) => value_words(types, blocks, block, value),
        Argument::Var(place) => place_words(types, blocks, block, place),
        Argument::Formal(_) => 3,
    }
}

// The height of the arguments of a call.
#[cycle(heights)]
pub(crate) fn arguments_words(
    types: &TypeTable,
    blocks: &[Block],
    block: u32,
    arguments: &Arguments,
) -> u32
    ensures exact { result
        ≡ limited (arguments_height types.now (map block_of blocks.now) block 0 (arguments_of arguments.now)) }
    ensures small { result ≤ too_large }
{
    let mut before: u32 = 0;
    let mut words: u32 = 0;
    for argument in arguments.items() {
        words = words.max(sum(before, argument_words_above(types, blocks, block, argument)));
        before = sum(before, passed_words(types, blocks, block, argument));
    }
    words
}
