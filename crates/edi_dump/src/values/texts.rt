//! The text of a value, read off its words.

ghost use Rattle.std.specs.Prelude.{◌≡◌, ◌++◌, true, drop, slice_index, IfOk, OnOk};
ghost use Rattle.edi_word.specs.Words.{signed};
ghost use Rattle.edi_unit.specs.ShapeView.{shape_of};
ghost use Rattle.edi_unit.specs.Types.{shape_at};
ghost use Rattle.edi_unit.specs.TypeTables.{part_types};
ghost use Rattle.edi_dump.specs.values.Words as spec;
ghost use Rattle.edi_dump.specs.Views.{constants_in, types_in};

use crate::known::Known;
use crate::values::brackets::{MOST_DEEP, MOST_SHOWN, put_cut, put_gap, put_more};
use crate::values::elementary::{put_one, shape_at};
use crate::values::parts::{part_count, part_type, size_of};
use crate::values::sets::{put_set, word_at};
use edi_unit::Shape;
use std::alloc::{AllocError, Global};

/// What stands behind so many words.
pub(crate) fn behind(words: &[u16], count: usize) -> &[u16]
    ensures exact { result.now ≡ drop count words.now }
{
    if count > words.len() {
        return &[];
    }
    let (_, rest) = words.split_at(count);
    rest
}

/// The ordinal that is the first of these words.
fn first_ordinal(words: &[u16]) -> i16
    ensures exact { result ≡ signed (slice_index words.now 0) }
{
    word_at(words, 0).cast_signed()
}

/// Puts so many levels of a value, which stands at the front of the words. The result is how many parts may be told after it.
#[cycle(values)]
fn put_within(
    out: &mut Vec<u8>,
    alloc: Global,
    known: &Known,
    deep: u64,
    left: usize,
    t: u32,
    words: &[u16],
) -> Result<usize, AllocError>
    ensures exact { OnOk result (out.new.items ≡ out.old.items ++
        (spec.piece_within (types_in known.now) (constants_in known.now) deep left t words.now).text) }
    ensures left { IfOk result (λ more. more ≡ (spec.piece_within (types_in known.now) (constants_in known.now) deep left t words.now).left) }
{
    if deep == 0 {
        return put_cut(out, left);
    }
    put_shape(out, alloc, known, deep - 1, left, t, words)
}

/// Puts a value of this type.
#[cycle(values)]
fn put_shape(
    out: &mut Vec<u8>,
    alloc: Global,
    known: &Known,
    deep: u64,
    left: usize,
    t: u32,
    words: &[u16],
) -> Result<usize, AllocError>
    ensures exact { OnOk result (out.new.items ≡ out.old.items ++ (spec.shape_piece (types_in known.now) (constants_in known.now)
        (spec.piece_within (types_in known.now) (constants_in known.now) deep) left t (shape_at (types_in known.now) t) words.now).text) }
    ensures left { IfOk result (λ more. more ≡ (spec.shape_piece (types_in known.now) (constants_in known.now)
        (spec.piece_within (types_in known.now) (constants_in known.now) deep) left t (shape_at (types_in known.now) t) words.now).left) }
{
    let types = &known.unit.types;
    let constants = known.names.constants.as_slice();
    let shape = shape_at(types, t);
    match shape {
        Shape::Record(_) => put_compound(out, alloc, known, deep, left, shape, words),
        Shape::Array { .. } => put_compound(out, alloc, known, deep, left, shape, words),
        Shape::Set(base) => put_set(out, alloc, types, constants, left, *base, words),
        _ => put_one(out, types, constants, left, t, first_ordinal(words)),
    }
}

/// Puts a record or an array.
#[cycle(values)]
fn put_compound(
    out: &mut Vec<u8>,
    alloc: Global,
    known: &Known,
    deep: u64,
    left: usize,
    shape: &Shape,
    words: &[u16],
) -> Result<usize, AllocError>
    ensures exact { OnOk result (out.new.items ≡ out.old.items ++ (spec.compound_by (types_in known.now) (constants_in known.now)
        (spec.piece_within (types_in known.now) (constants_in known.now) deep) left (shape_of shape.now) words.now).text) }
    ensures left { IfOk result (λ more. more ≡ (spec.compound_by (types_in known.now) (constants_in known.now)
        (spec.piece_within (types_in known.now) (constants_in known.now) deep) left (shape_of shape.now) words.now).left) }
{
    out.push(b'(')?;
    let more = put_parts(out, alloc, known, deep, left, shape, words)?;
    out.push(b')')?;
    Ok(more)
}

/// Puts the parts of a record or an array, which stand one after another at the front of the words.
#[cycle(values)]
fn put_parts(
    out: &mut Vec<u8>,
    alloc: Global,
    known: &Known,
    deep: u64,
    left: usize,
    shape: &Shape,
    words: &[u16],
) -> Result<usize, AllocError>
    ensures exact { OnOk result (out.new.items ≡ out.old.items ++ (spec.parts_by (types_in known.now) (constants_in known.now)
        (spec.piece_within (types_in known.now) (constants_in known.now) deep) true left (part_types (shape_of shape.now)) words.now).text) }
    ensures left { IfOk result (λ more. more ≡ (spec.parts_by (types_in known.now) (constants_in known.now)
        (spec.piece_within (types_in known.now) (constants_in known.now) deep) true left (part_types (shape_of shape.now)) words.now).left) }
{
    let mut first = true;
    let mut more = left;
    let mut rest = words;
    for index in 0..part_count(shape) {
        let t = part_type(shape, index);
        if more == 0 {
            put_more(out, first)?;
            return Ok(0);
        }
        put_gap(out, first)?;
        more = put_within(out, alloc, known, deep, more, t, rest)?;
        rest = behind(rest, size_of(&known.unit.types, t) as usize);
        first = false;
    }
    Ok(more)
}

/// Puts the text of a value of type `t`, whose words stand at the front of these.
///
/// # Errors
///
/// Only for want of memory.
pub(crate) fn put_value(
    out: &mut Vec<u8>,
    alloc: Global,
    known: &Known,
    t: u32,
    words: &[u16],
) -> Result<(), AllocError>
    ensures exact { OnOk result (out.new.items ≡ out.old.items ++ spec.words_text (types_in known.now) (constants_in known.now) t words.now) }
{
    put_within(out, alloc, known, MOST_DEEP, MOST_SHOWN, t, words)?;
    Ok(())
}
