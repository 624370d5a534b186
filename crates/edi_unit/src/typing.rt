//! The types of constructs of the resolved tree. What names no type, block or variable counts as an `int`.

ghost use Rattle.std.specs.Prelude.{◌≡◌, ◌≤◌, map, slice_get, unwrap_or};
ghost use Rattle.edi_unit.specs.Types.{field_type, greatest_size, int_type, shape_at, size};
ghost use Rattle.edi_unit.specs.View.{block_of, expression_of, links_of, part_of, place_of};
ghost use Rattle.edi_unit.specs.Need.{element_type, slots, slot_at};
ghost use Rattle.edi_unit.specs.Need as spec;

use crate::expressions::{Callee, Links, Operator, Part, Place, Value};
use crate::types::{Shape, TypeTable};
use crate::units::{Block, Parameter};

/// The number of the type `int`.
pub const INT: u32 = 0;

/// The number of the type `char`.
pub const CHAR: u32 = 1;

/// The number of the type `bool`.
pub const BOOL: u32 = 2;

/// The words of a value of type `t`, and 0 where there is no such type.
pub fn type_words(types: &TypeTable, t: u32) -> u32
    ensures exact { result ≡ size types.now t }
    ensures small { result ≤ greatest_size }
{
    if t < types.len() { types.size(t) } else { 0 }
}

/// The type that a binary operator gives on a left operand of type `left`.
pub fn operator_type(operator: Operator, left: u32) -> u32
    ensures exact { result ≡ spec.operator_type operator left }
{
    match operator {
        Operator::Plus
        | Operator::Minus
        | Operator::Or
        | Operator::Times
        | Operator::Div
        | Operator::Mod
        | Operator::And => left,
        _ => BOOL,
    }
}

/// The number of the block that is `levels` steps out of block `block`.
pub fn outer(blocks: &[Block], block: u32, levels: u32) -> u32
    ensures exact { result ≡ spec.outer (map block_of blocks.now) block levels }
{
    let mut found = block;
    for _level in 0..levels {
        found = up(blocks, found);
    }
    found
}

// The number of the block round a block.
fn up(blocks: &[Block], block: u32) -> u32
    ensures exact { result ≡ (spec.block_at (map block_of blocks.now) block).up }
{
    match blocks.get(block as usize) {
        Some(block) => block.up,
        None => 0,
    }
}

// A variable of a block, as the parameter that it is or as a value of its type.
fn slot_of(block: &Block, variable: u32) -> Option<Parameter>
    ensures exact { result ≡ slice_get (slots (block_of block.now)) variable }
{
    let mut index = variable as usize;
    if let Some(of) = block.result {
        if index == 0 {
            return Some(Parameter::Value(of));
        }
        index -= 1;
    }
    if index < block.parameters.len() {
        return block.parameters.get(index).copied();
    }
    let index = index - block.parameters.len();
    block.variables.get(index).map(|of| Parameter::Value(*of))
}

/// A variable of the block `levels` steps out of block `block`, as the parameter that it is or as a value of its type;
/// `None` where it is not there.
pub fn slot(blocks: &[Block], block: u32, levels: u32, variable: u32) -> Option<Parameter>
    ensures exact { result ≡ slot_at (map block_of blocks.now) block levels variable }
{
    let home = outer(blocks, block, levels);
    match blocks.get(home as usize) {
        Some(home) => slot_of(home, variable),
        None => None,
    }
}

/// The type of the result of what is called, or `None` for a procedure.
pub fn callee_result(blocks: &[Block], block: u32, callee: Callee) -> Option<u32>
    ensures exact { result ≡ spec.callee_result (map block_of blocks.now) block callee }
{
    match callee {
        Callee::Block { block: called, .. } => match blocks.get(called as usize) {
            Some(called) => called.result,
            None => None,
        },
        Callee::Formal { levels, variable } => match slot(blocks, block, levels, variable) {
            Some(Parameter::Formal(result)) => result,
            _ => None,
        },
    }
}

// The type of the elements of an array.
fn element_type_of(types: &TypeTable, of: u32) -> u32
    ensures exact { result ≡ element_type (shape_at types.now of) }
{
    if of >= types.len() {
        return INT;
    }
    match types.shape(of) {
        Shape::Array { element, .. } => *element,
        _ => INT,
    }
}

// The type of a record's field.
fn field_type_of(types: &TypeTable, of: u32, field: u32) -> u32
    ensures exact { result ≡ unwrap_or (field_type types.now of field) int_type }
{
    if of >= types.len() {
        return INT;
    }
    types.field(of, field as usize).unwrap_or(INT)
}

/// The type of a part of a variable of type `of`.
pub fn part_type(types: &TypeTable, of: u32, part: &Part) -> u32
    ensures exact { result ≡ spec.part_type types.now of (part_of part.now) }
{
    match part {
        Part::Field(field) => field_type_of(types, of, *field),
        Part::Index(_, _) => element_type_of(types, of),
    }
}

/// The type of a variable or a part of it, named in block `block`.
pub fn place_type(types: &TypeTable, blocks: &[Block], block: u32, place: &Place) -> u32
    ensures exact { result ≡ spec.place_type types.now (map block_of blocks.now) block (place_of place.now) }
{
    let mut of = match slot(blocks, block, place.levels, place.variable) {
        Some(Parameter::Value(of) | Parameter::Var(of)) => of,
        _ => INT,
    };
    for part in place.parts.items() {
        of = part_type(types, of, part);
    }
    of
}

/// The type that operators give, the first on a left operand of type `left`.
pub fn links_type(left: u32, links: &Links) -> u32
    ensures exact { result ≡ spec.links_type left (links_of links.now) }
{
    let mut of = left;
    for link in links.items() {
        of = operator_type(link.operator, of);
    }
    of
}

/// The type of an expression in block `block`.
pub fn expression_type(types: &TypeTable, blocks: &[Block], block: u32, value: &Value) -> u32
    ensures exact { result ≡ spec.expression_type types.now (map block_of blocks.now) block (expression_of value.now) }
{
    match value {
        Value::Constant { of, .. } | Value::Make { of, .. } | Value::Convert { of, .. } => *of,
        Value::Load(place) => place_type(types, blocks, block, place),
        Value::Not(_) => BOOL,
        Value::Sign(_, _) => INT,
        Value::Chain(first, links) => {
            links_type(expression_type(types, blocks, block, first), links)
        }
        Value::Apply(callee, _, _) => callee_result(blocks, block, *callee).unwrap_or(INT),
    }
}
