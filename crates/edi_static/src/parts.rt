//! The rules on parts of variables.

ghost use Rattle.std.specs.Prelude.{◌≡◌, slice_index_or, [], unwrap_or};
ghost use Rattle.edi_unit.specs.Types as types;
ghost use Rattle.edi_static.specs.Prelude.{JudgedAnswers, environment, parted_of, shape_of, typed_of};
ghost use Rattle.edi_static.specs.Expressions as rule;
ghost use Rattle.edi_static.specs.Fitting as spec;

use crate::faults::{Judged, StaticKind};
use crate::fits::{element_type, is_indexed_by};
use crate::known::{Known, boxed, fault, must, number};
use crate::operands::Typed;
use crate::records::index_of_name;
use edi_tree::Name;
use edi_unit::{INT, Part, Shape};
use std::alloc::Global;

/// A part of a variable, with its type.
#[derive(Drop)]
pub struct Parted {
    pub part: Part,
    pub of: u32,
}

/// The index of a name among the fields of a type.
fn field_index(known: &Known, of: u32, name: &[u8]) -> Option<usize>
    ensures exact { result ≡ spec.index_of_name (slice_index_or (environment known.now).fields of []) name.now }
{
    match known.fields.get(of as usize) {
        Some(fields) => index_of_name(fields, name),
        None => None,
    }
}

/// The type of a field; one that is not there counts as an `int`.
fn field_type(known: &Known, of: u32, index: usize) -> u32
    ensures exact { result ≡ unwrap_or (types.field_type known.now.types of index) INT }
{
    if of >= known.types.len() {
        return INT;
    }
    match known.types.field(of, index) {
        Some(field) => field,
        None => INT,
    }
}

/// Whether a type is that of records.
fn is_record(shape: &Shape) -> bool
    ensures exact { result ≡ spec.is_record (shape_of shape.now) }
{
    match shape {
        Shape::Record(_) => true,
        _ => false,
    }
}

/// The field of a record by its index, if the record has it.
fn field_at(known: &Known, of: u32, name: &Name, index: Option<usize>) -> Judged<Parted>
    ensures exact { JudgedAnswers parted_of result (rule.field_at (environment known.now) of name.now index) }
{
    match index {
        Some(index) => Ok(Parted {
            part: Part::Field(number(index)?),
            of: field_type(known, of, index),
        }),
        None => fault(StaticKind::Undeclared, name.line),
    }
}

/// The field of a record.
pub fn field_of(known: &Known, line: u16, of: u32, name: &Name) -> Judged<Parted>
    ensures exact { JudgedAnswers parted_of result (rule.field_of (environment known.now) line of name.now) }
{
    must(is_record(known.shape(of)), StaticKind::Types, line)?;
    field_at(
        known,
        of,
        name,
        field_index(known, of, name.text.as_slice()),
    )
}

/// The element of an array.
pub fn element_of(known: &Known, alloc: Global, line: u16, of: u32, index: Typed) -> Judged<Parted>
    ensures exact { JudgedAnswers parted_of result (rule.element_of (environment known.now) line of (typed_of index)) }
{
    let holds = is_indexed_by(known.shape(of), index.of);
    must(holds, StaticKind::Types, line)?;
    Ok(Parted {
        part: Part::Index(boxed(alloc, index.what)?, line),
        of: element_type(known.shape(of)),
    })
}
