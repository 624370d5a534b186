//! Ordinals that need no call, read at once, without a frame.

ghost use Rattle.std.specs.Prelude.{◌≡◌, None, Some, Ok, Err, IfOk, OnErr};
ghost use Rattle.edi_unit.specs.Tree as tree;
ghost use Rattle.edi_unit.specs.View.{expression_of, link_of, links_of, part_of, parts_of, place_of};
ghost use Rattle.edi_unit.specs.Values.{ordinal};
ghost use Rattle.edi_meaning.specs.Store.{get};
ghost use Rattle.edi_walk.specs.Data.{designated_of, location_of, value_of};
ghost use Rattle.edi_walk.specs.Memory.{store_of};
ghost use Rattle.edi_walk.specs.declared.hurdle.Hurdle.TheVariants as hurdle;
ghost use Rattle.edi_walk.specs.Reads.{ReadsElement, ReadsLink, ReadsPart, ReadsParts, ReadsPlace, ReadsValue};

use crate::data::{Datum, Target};
use crate::evaluate::field_type;
use crate::evaluation::Evaluation;
use crate::hurdle::Hurdle;
use crate::operators::{apply_ordinals, decides_ordinal, negation_ordinal, sign_ordinal};
use crate::values::has_ordinal;
use edi_unit::{Link, Links, Part, Parts, Place, Shape, Value};

/// How deep constructs are read at once. What is nested deeper is left to frames, so that no construct is read again and
/// again, once for each construct round it.
pub const DEPTH: u8 = 16;

/// The value, or a failure of range at a line.
fn ranged(value: Option<i16>, line: u16) -> Result<i16, Hurdle>
    ensures exact { IfOk result (λ n. value ≡ Some n) }
    ensures err { OnErr result ((value ≡ None) × (result ≡ Err (hurdle.Range line))) }
{
    match value {
        Some(value) => Ok(value),
        None => Err(Hurdle::Range(line)),
    }
}

/// `not`, of what was read.
fn negated(e: &Value, inner: Result<i16, Hurdle>, here: &Evaluation) -> Result<i16, Hurdle>
    requires read { ReadsValue (expression_of e.now) inner here.now }
    ensures exact { ReadsValue (tree.not_of (expression_of e.now)) result here.now }
{
    match inner {
        Ok(n) => Ok(negation_ordinal(n)),
        Err(hurdle) => Err(hurdle),
    }
}

/// A leading `-`, of what was read.
fn signed(
    e: &Value,
    inner: Result<i16, Hurdle>,
    line: u16,
    here: &Evaluation,
) -> Result<i16, Hurdle>
    requires read { ReadsValue (expression_of e.now) inner here.now }
    ensures exact { ReadsValue (tree.sign_of (expression_of e.now) line) result here.now }
{
    match inner {
        Ok(n) => ranged(sign_ordinal(n), line),
        Err(hurdle) => Err(hurdle),
    }
}

/// A value of another type with the ordinal that was read.
fn converted(
    e: &Value,
    inner: Result<i16, Hurdle>,
    of: u32,
    line: u16,
    here: &Evaluation,
) -> Result<i16, Hurdle>
    requires read { ReadsValue (expression_of e.now) inner here.now }
    ensures exact { ReadsValue (tree.convert of (expression_of e.now) line) result here.now }
{
    match inner {
        Ok(n) => {
            if has_ordinal(here.unit, of, n) {
                Ok(n)
            } else {
                Err(Hurdle::Range(line))
            }
        }
        Err(hurdle) => Err(hurdle),
    }
}

/// The ordinal that a value is.
fn ordinal_in(value: &Datum) -> Result<i16, Hurdle>
    ensures exact { IfOk result (λ n. value_of value.now ≡ ordinal n) }
    ensures err { OnErr result (result ≡ Err hurdle.Frames) }
{
    match value {
        Datum::Ordinal(n) => Ok(*n),
        _ => Err(Hurdle::Frames),
    }
}

/// The ordinal that stands there.
fn ordinal_at(target: &Target, here: &Evaluation) -> Result<i16, Hurdle>
    ensures exact { IfOk result (λ n. get (store_of here.now.memory) (location_of target.now.at) ≡ ordinal n) }
    ensures err { OnErr result (result ≡ Err hurdle.Frames) }
{
    match here.memory.get(&target.at) {
        Some(value) => ordinal_in(value),
        None => Err(Hurdle::Frames),
    }
}

/// The ordinal that a variable holds, which was determined.
fn loaded(place: &Place, inner: Result<Target, Hurdle>, here: &Evaluation) -> Result<i16, Hurdle>
    requires read { ReadsPlace (place_of place.now) inner here.now }
    ensures exact { ReadsValue (tree.load (place_of place.now)) result here.now }
{
    match inner {
        Ok(target) => ordinal_at(&target, here),
        Err(hurdle) => Err(hurdle),
    }
}

/// The field of this number, which a variable becomes.
fn to_field(target: &mut Target, field: u32, here: &Evaluation) -> Result<(), Hurdle>
    ensures exact { ReadsPart (designated_of target.old) (designated_of target.new) (tree.field field) result here.now }
{
    let Ok(()) = target.at.path.push(field) else {
        return Err(Hurdle::Frames);
    };
    target.of = field_type(here.unit, target.of, field);
    Ok(())
}

/// The element at an index, which a variable becomes.
fn element(target: &mut Target, n: i16, line: u16, here: &Evaluation) -> Result<(), Hurdle>
    ensures exact { ReadsElement (designated_of target.old) (designated_of target.new) n line result here.now }
{
    if target.of >= here.unit.types.len() {
        return Err(Hurdle::Frames);
    }
    let Shape::Array {
        lo,
        hi,
        element,
        ..
    } = here.unit.types.shape(target.of)
    else {
        return Err(Hurdle::Frames);
    };
    if n < *lo || n > *hi {
        return Err(Hurdle::Range(line));
    }
    let Ok(()) = target.at.path.push(u32::from(n.abs_diff(*lo))) else {
        return Err(Hurdle::Frames);
    };
    target.of = *element;
    Ok(())
}

/// The element at an index that was read, which a variable becomes.
fn to_element(
    target: &mut Target,
    e: &Value,
    index: Result<i16, Hurdle>,
    line: u16,
    here: &Evaluation,
) -> Result<(), Hurdle>
    requires read { ReadsValue (expression_of e.now) index here.now }
    ensures exact { ReadsPart (designated_of target.old) (designated_of target.new) (tree.index (expression_of e.now) line) result here.now }
{
    match index {
        Ok(n) => element(target, n, line, here),
        Err(hurdle) => Err(hurdle),
    }
}

/// A chain whose first operand is not read at once, or fails.
fn unread(links: &Links, e: &Value, hurdle: Hurdle, here: &Evaluation) -> Result<i16, Hurdle>
    requires read { ReadsValue (expression_of e.now) (Err hurdle) here.now }
    ensures exact { ReadsValue (tree.chain (expression_of e.now) (links_of links.now)) result here.now }
{
    let _ = links;
    let _ = e;
    let _ = here;
    Err(hurdle)
}

/// An expression.
#[cycle(reading)]
pub fn read(e: &Value, here: &Evaluation, depth: u8) -> Result<i16, Hurdle>
    ensures exact { ReadsValue (expression_of e.now) result here.now }
{
    if depth == 0 {
        return Err(Hurdle::Frames);
    }
    match e {
        Value::Constant { ordinal, .. } => Ok(*ordinal),
        Value::Load(place) => loaded(place, read_place(place, here, depth - 1), here),
        Value::Not(e) => {
            let e: &Value = e;
            negated(e, read(e, here, depth - 1), here)
        }
        Value::Sign(e, line) => {
            let e: &Value = e;
            signed(e, read(e, here, depth - 1), *line, here)
        }
        Value::Chain(e, links) => {
            let e: &Value = e;
            match read(e, here, depth - 1) {
                Ok(first) => {
                    let mut left = first;
                    read_links(links, e, &mut left, here, depth - 1)
                }
                Err(hurdle) => unread(links, e, hurdle, here),
            }
        }
        Value::Convert { of, value, line } => {
            let value: &Value = value;
            converted(value, read(value, here, depth - 1), *of, *line, here)
        }
        Value::Make { .. } => Err(Hurdle::Frames),
        Value::Apply(_, _, _) => Err(Hurdle::Frames),
    }
}

/// The operators of a chain, from this left operand on.
#[cycle(reading)]
fn read_links(
    links: &Links,
    e: &Value,
    left: &mut i16,
    here: &Evaluation,
    depth: u8,
) -> Result<i16, Hurdle>
    requires read { ReadsValue (expression_of e.now) (Ok left.old) here.now }
    ensures exact { ReadsValue (tree.chain (expression_of e.now) (links_of links.now)) result here.now }
{
    for link in links.items() {
        match read_link(link, *left, here, depth) {
            Ok(n) => *left = n,
            Err(hurdle) => return Err(hurdle),
        }
    }
    Ok(*left)
}

/// An operator, with its left operand.
#[cycle(reading)]
fn read_link(link: &Link, left: i16, here: &Evaluation, depth: u8) -> Result<i16, Hurdle>
    ensures exact { ReadsLink left (link_of link.now) result here.now }
{
    if decides_ordinal(link.operator, left) {
        return Ok(left);
    }
    match read(&link.right, here, depth) {
        Ok(right) => ranged(apply_ordinals(link.operator, left, right), link.line),
        Err(hurdle) => Err(hurdle),
    }
}

/// A variable or a part of it.
#[cycle(reading)]
pub fn read_place(place: &Place, here: &Evaluation, depth: u8) -> Result<Target, Hurdle>
    ensures exact { ReadsPlace (place_of place.now) result here.now }
{
    let Ok(target) = here.named(place.levels, place.variable) else {
        return Err(Hurdle::Frames);
    };
    let mut target = target;
    match read_parts(&place.parts, &mut target, here, depth) {
        Ok(()) => Ok(target),
        Err(hurdle) => Err(hurdle),
    }
}

/// The parts that lead on from a variable, which becomes the part.
#[cycle(reading)]
fn read_parts(
    parts: &Parts,
    target: &mut Target,
    here: &Evaluation,
    depth: u8,
) -> Result<(), Hurdle>
    ensures exact { ReadsParts (designated_of target.old) (designated_of target.new) (parts_of parts.now) result here.now }
{
    for part in parts.items() {
        match read_part(part, target, here, depth) {
            Ok(()) => {}
            Err(hurdle) => return Err(hurdle),
        }
    }
    Ok(())
}

/// One part, which the variable becomes.
#[cycle(reading)]
fn read_part(part: &Part, target: &mut Target, here: &Evaluation, depth: u8) -> Result<(), Hurdle>
    ensures exact { ReadsPart (designated_of target.old) (designated_of target.new) (part_of part.now) result here.now }
{
    match part {
        Part::Field(field) => to_field(target, *field, here),
        Part::Index(e, line) => {
            let e: &Value = e;
            to_element(target, e, read(e, here, depth), *line, here)
        }
    }
}
