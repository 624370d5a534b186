//! Where variables stand in the frames of their blocks, and fields in their records.

ghost use Rattle.std.specs.Prelude.{◌≡◌, ◌+◌, ◌<◌, ◌≤◌, ◌^◌, ◌++◌, ◌∷◌, [], IfOk, OnOk, length, map, sum_by, option_to_list, Some};
ghost use Rattle.edi_unit.specs.View.{block_of};
ghost use Rattle.edi_unit.specs.Need as need;
ghost use Rattle.edi_unit.specs.Need.{block_at, slots};
ghost use Rattle.edi_scheme.specs.Pieces as pieces;
ghost use Rattle.edi_unit.specs.Lists.{list_items};
ghost use Rattle.edi_unit.specs.Types.{fields_of, greatest_size, shape_at, size};
ghost use Rattle.edi_unit.specs.declared.units.Parameter.TheVariants as Parameter;
ghost use Rattle.edi_code.specs.Stored as spec;
ghost use Rattle.edi_code.specs.Stored.{AreFields, AreVariables};
ghost use Rattle.edi_code.specs.Writable.{AreWritable, IsRoomy};

use crate::pieces::{is_address, slot_words};
use crate::scope::Behind;
use edi_unit::{Block, Numbers, Parameter, Parameters, Shape, TypeTable};
use std::alloc::{AllocError, Global};

/// A variable in the frames of its block, or a field in its record.
#[derive(Clone, Copy)]
pub struct Stored {
    /// Where it stands behind the base of a frame, or behind the first word of a record.
    pub offset: u32,
    /// Whether its word is the address of the variable that it means.
    pub is_place: bool,
}

// One variable more, so far behind the base of a frame; what stands behind it.
fn put_variable(
    types: &TypeTable,
    variable: Parameter,
    offset: u32,
    out: &mut Vec<Stored>,
) -> Behind
    requires room { offset + need.slot_words types.now variable < 2 ^ 32 }
    ensures put { OnOk result (out.new.items ≡ out.old.items
        ++ record { offset = offset; is_place = pieces.is_address (Some variable) } ∷ []) }
    ensures behind { IfOk result (λ behind. behind ≡ offset + need.slot_words types.now variable) }
{
    let is_place = is_address(Some(variable));
    out.push(Stored { offset, is_place })?;
    Ok(offset + slot_words(types, variable))
}

// The function variable of a block, where it has one.
fn result_stored(types: &TypeTable, of: Option<u32>, at: u32, out: &mut Vec<Stored>) -> Behind
    requires room { at + pieces.result_words types.now of < 2 ^ 32 }
    ensures put { OnOk result (out.new.items ≡ out.old.items ++ spec.stored_from types.now (map Parameter.Value (option_to_list of)) at) }
    ensures behind { IfOk result (λ behind. behind ≡ at + pieces.result_words types.now of) }
{
    match of {
        Some(of) => put_variable(types, Parameter::Value(of), at, out),
        None => Ok(at),
    }
}

// The parameters of a block.
fn parameters_stored(
    types: &TypeTable,
    parameters: &Parameters,
    at: u32,
    out: &mut Vec<Stored>,
) -> Behind
    requires room { at + sum_by (need.slot_words types.now) (list_items parameters.now) < 2 ^ 32 }
    ensures put { OnOk result (out.new.items ≡ out.old.items ++ spec.stored_from types.now (list_items parameters.now) at) }
    ensures behind { IfOk result (λ behind. behind ≡ at + sum_by (need.slot_words types.now) (list_items parameters.now)) }
{
    let mut offset = at;
    for parameter in parameters.items() {
        offset = put_variable(types, *parameter, offset, out)?;
    }
    Ok(offset)
}

// The declared variables of a block.
fn declared_stored(types: &TypeTable, variables: &Numbers, at: u32, out: &mut Vec<Stored>) -> Behind
    requires room { at + sum_by (size types.now) (list_items variables.now) < 2 ^ 32 }
    ensures put { OnOk result (out.new.items ≡ out.old.items ++ spec.stored_from types.now (map Parameter.Value (list_items variables.now)) at) }
{
    let mut offset = at;
    for of in variables.items() {
        offset = put_variable(types, Parameter::Value(*of), offset, out)?;
    }
    Ok(offset)
}

// Where the variables of a block stand in its frames.
pub(crate) fn variables_stored(
    alloc: Global,
    types: &TypeTable,
    block: &Block,
) -> Result<Vec<Stored>, AllocError>
    requires frame { IsRoomy types.now (block_of block.now) }
    ensures exact { IfOk result (λ variables. variables.items ≡ spec.stored_from types.now (slots (block_of block.now)) 5) }
{
    let mut variables: Vec<Stored> = Vec::new(alloc);
    let offset = result_stored(types, block.result, 5, &mut variables)?;
    let middle = parameters_stored(types, &block.parameters, offset, &mut variables)?;
    declared_stored(types, &block.variables, middle, &mut variables)?;
    Ok(variables)
}

// Where the fields of a record stand.
fn record_stored(
    alloc: Global,
    types: &TypeTable,
    fields: &Numbers,
) -> Result<Vec<Stored>, AllocError>
    requires small { sum_by (size types.now) (list_items fields.now) ≤ greatest_size }
    ensures exact { IfOk result (λ stored. stored.items ≡ spec.stored_from types.now (map Parameter.Value (list_items fields.now)) 0) }
{
    let mut stored: Vec<Stored> = Vec::new(alloc);
    declared_stored(types, fields, 0, &mut stored)?;
    Ok(stored)
}

// Where the fields of a type stand, which is there; none where it is no record.
fn fields_stored(alloc: Global, types: &TypeTable, of: u32) -> Result<Vec<Stored>, AllocError>
    requires small { sum_by (size types.now) (fields_of (shape_at types.now of)) ≤ greatest_size }
    requires known { of < length types.now }
    ensures exact { IfOk result (λ stored. stored.items ≡ spec.stored_from types.now (map Parameter.Value (fields_of (shape_at types.now of))) 0) }
{
    match types.shape(of) {
        Shape::Record(fields) => record_stored(alloc, types, fields),
        _ => Ok(Vec::new(alloc)),
    }
}

/// Where the fields of each type stand.
pub(crate) fn all_fields(alloc: Global, types: &TypeTable) -> Result<Vec<Vec<Stored>>, AllocError>
    ensures exact { IfOk result (λ rows. AreFields types.now rows.items) }
{
    let mut rows: Vec<Vec<Stored>> = Vec::new(alloc);
    for of in 0..types.len() {
        let row = fields_stored(alloc, types, of)?;
        rows.push(row)?;
    }
    Ok(rows)
}

// Where the variables of a block stand, which is there.
fn block_stored(
    alloc: Global,
    types: &TypeTable,
    blocks: &[Block],
    block: u32,
) -> Result<Vec<Stored>, AllocError>
    requires known { block < length (map block_of blocks.now) }
    requires frame { IsRoomy types.now (block_at (map block_of blocks.now) block) }
    ensures exact { IfOk result (λ stored. stored.items ≡ spec.stored_from types.now (slots (block_at (map block_of blocks.now) block)) 5) }
{
    variables_stored(alloc, types, &blocks[block as usize])
}

/// Where the variables of each block stand.
pub(crate) fn all_variables(
    alloc: Global,
    types: &TypeTable,
    blocks: &[Block],
) -> Result<Vec<Vec<Stored>>, AllocError>
    requires writable { AreWritable types.now (map block_of blocks.now) }
    ensures exact { IfOk result (λ rows. AreVariables types.now (map block_of blocks.now) rows.items) }
{
    let mut rows: Vec<Vec<Stored>> = Vec::new(alloc);
    for block in 0..blocks.len() as u32 {
        let row = block_stored(alloc, types, blocks, block)?;
        rows.push(row)?;
    }
    Ok(rows)
}

/// What stands at an index in the row of this number, where both are there.
pub(crate) fn stored_at(rows: &[Vec<Stored>], number: u32, index: u32) -> Option<Stored>
    ensures exact { result ≡ spec.stored_at rows.now number index }
{
    match rows.get(number as usize) {
        Some(row) => row.get(index as usize).copied(),
        None => None,
    }
}
