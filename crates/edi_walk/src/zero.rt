//! The values with which variables start.

ghost use Rattle.std.specs.Prelude.{◌≡◌, ◌≤◌, ◌≤ℤ◌, map, replicate, IfOk};
ghost use Rattle.edi_unit.specs.Lists.{list_items};
ghost use Rattle.edi_unit.specs.Types.{element_count};
ghost use Rattle.edi_unit.specs.Values.{compound, values, zero_value};
ghost use Rattle.edi_walk.specs.Data.{value_of};

use crate::data::Datum;
use edi_unit::{Numbers, Shape, TypeTable};
use edi_word::Members;
use std::alloc::{AllocError, Global};

/// The value with which a variable of type `t` starts.
#[cycle(zeros)]
pub fn zero(alloc: Global, types: &TypeTable, t: u32) -> Result<Datum, AllocError>
    ensures exact { IfOk result (λ v. value_of v ≡ zero_value types.now t) }
{
    if t >= types.len() {
        return Ok(Datum::Ordinal(0));
    }
    match types.shape(t) {
        Shape::Int | Shape::Char | Shape::Bool | Shape::Enum(_) => Ok(Datum::Ordinal(0)),
        Shape::Set(_) => Ok(Datum::Members(Members::empty())),
        Shape::Record(fields) => zero_record(alloc, types, fields, t),
        Shape::Array {
            lo,
            hi,
            element,
            ..
        } => zero_array(alloc, types, element_total(lo, hi), *element, t),
    }
}

/// The parts of a record; each type is below `t`.
#[cycle(zeros)]
fn zero_record(
    alloc: Global,
    types: &TypeTable,
    fields: &Numbers,
    t: u32,
) -> Result<Datum, AllocError>
    ensures exact { IfOk result (λ v. value_of v ≡ compound (values (map (zero_value types.now) (list_items fields.now)))) }
{
    let mut parts = Vec::with_capacity(alloc, fields.len())?;
    for field in fields.items() {
        if *field >= t {
            return Err(AllocError);
        }
        parts.push(zero(alloc, types, *field)?)?;
    }
    Ok(Datum::Compound(parts))
}

/// The number of ordinals from `lo` to `hi`.
fn element_total(lo: &i16, hi: &i16) -> u32
    requires ordered { lo.now ≤ℤ hi.now }
    ensures exact { result ≡ element_count lo.now hi.now }
    ensures small { result ≤ 65536 }
{
    u32::from(lo.abs_diff(*hi)) + 1
}

/// So many elements of an array, whose type is below `t`.
#[cycle(zeros)]
fn zero_array(
    alloc: Global,
    types: &TypeTable,
    count: u32,
    element: u32,
    t: u32,
) -> Result<Datum, AllocError>
    ensures exact { IfOk result (λ v. value_of v ≡ compound (values (replicate count (zero_value types.now element)))) }
{
    if element >= t {
        return Err(AllocError);
    }
    let mut parts = Vec::with_capacity(alloc, count as usize)?;
    for _index in 0..count {
        parts.push(zero(alloc, types, element)?)?;
    }
    Ok(Datum::Compound(parts))
}
