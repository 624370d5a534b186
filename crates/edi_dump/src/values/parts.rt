//! The types of the parts of a record or an array.

ghost use Rattle.std.specs.Prelude.{◌≡◌, ◌∷◌, ◌+◌, ◌<◌, ◌≤ℤ◌, length, drop};
ghost use Rattle.edi_unit.specs.Types.{element_count, size};
ghost use Rattle.edi_unit.specs.TypeTables.{part_types};
ghost use Rattle.edi_unit.specs.ShapeView.{shape_of};

use edi_unit::{Shape, TypeTable};

/// The words of a value; a number that is not in the table counts as a type of no words.
#[tactic(auto, using(crate::proofs::valued::Sizes::size_past))]
pub(crate) fn size_of(types: &TypeTable, t: u32) -> u32
    ensures exact { result ≡ size types.now t }
{
    if t < types.len() { types.size(t) } else { 0 }
}

/// The number of the ordinals from one to another.
fn count_up(lo: i16, hi: i16) -> u32
    requires ordered { lo ≤ℤ hi }
    ensures exact { result ≡ element_count lo hi }
{
    u32::from(lo.abs_diff(hi)) + 1
}

/// The number of elements of an array with these bounds.
fn element_count(lo: i16, hi: i16) -> u32
    ensures exact { result ≡ element_count lo hi }
{
    if lo > hi { 0 } else { count_up(lo, hi) }
}

/// The number of parts of a value.
pub(crate) fn part_count(shape: &Shape) -> usize
    ensures exact { result ≡ length (part_types (shape_of shape.now)) }
{
    match shape {
        Shape::Record(fields) => fields.len(),
        Shape::Array { lo, hi, .. } => element_count(*lo, *hi) as usize,
        _ => 0,
    }
}

/// The type of the part at an index.
pub(crate) fn part_type(shape: &Shape, index: usize) -> u32
    requires there { index < length (part_types (shape_of shape.now)) }
    ensures exact { drop index (part_types (shape_of shape.now)) ≡ result ∷ drop (index + 1) (part_types (shape_of shape.now)) }
{
    match shape {
        Shape::Record(fields) => fields.items()[index],
        Shape::Array { element, .. } => *element,
        _ => unreachable!(),
    }
}
