//! The rule on constructors.

ghost use Rattle.std.specs.Prelude.{◌≡◌, ◌++◌, map};
ghost use Rattle.edi_unit.specs.Tree as unit;
ghost use Rattle.edi_unit.specs.Types.{shape_at};
ghost use Rattle.edi_unit.specs.View.{expression_of, expressions_of};
ghost use Rattle.edi_static.specs.Prelude.{JudgedAnswers, environment, gives, typed_of};
ghost use Rattle.edi_static.specs.Fitting as spec;

use edi_static::{Judged, Known, StaticKind, Typed, add, boxed, character, must, put, takes_parts};
use edi_unit::{List, Value, Values};
use std::alloc::Global;

/// The values of these parts.
#[tactic(auto, using(crate::proofs::Making::values_are))]
fn values_of(alloc: Global, parts: Vec<Typed>) -> Judged<Values>
    ensures exact { JudgedAnswers expressions_of result (gives (spec.expressions_of (map typed_of parts.items))) }
{
    let mut values = List::new(alloc);
    for part in parts {
        add(&mut values, alloc, part.what)?;
    }
    Ok(values)
}

/// A record, an array or a set.
fn make(of: u32, values: Values, line: u16) -> Value
    ensures exact { expression_of result ≡ unit.make of (expressions_of values) line }
{
    Value::Make {
        of,
        parts: values,
        line,
    }
}

/// An elementary value of another type.
fn convert(alloc: Global, of: u32, value: Value, line: u16) -> Judged<Value>
    ensures exact { JudgedAnswers expression_of result (gives (unit.convert of (expression_of value) line)) }
{
    Ok(Value::Convert {
        of,
        value: boxed(alloc, value)?,
        line,
    })
}

/// An elementary type converts its one argument.
fn made(alloc: Global, elementary: bool, of: u32, mut parts: Vec<Typed>, line: u16) -> Judged<Value>
    ensures exact { JudgedAnswers expression_of result (gives (spec.made elementary of (map typed_of parts.items) line)) }
{
    if elementary && parts.len() == 1 {
        if let Some(one) = parts.pop() {
            return convert(alloc, of, one.what, line);
        }
    }
    Ok(make(of, values_of(alloc, parts)?, line))
}

/// Whether a constructor of a type takes these parts.
fn fits(known: &Known, of: u32, parts: &[Typed]) -> bool
    ensures exact { result ≡ spec.takes_parts (environment known.now).types (shape_at (environment known.now).types of)
        (map (λ v. v.of) (map typed_of parts.now)) }
{
    takes_parts(known, known.shape(of), parts)
}

/// A constructor with these parts.
pub(crate) fn constructed(
    known: &Known,
    alloc: Global,
    line: u16,
    of: u32,
    parts: Vec<Typed>,
) -> Judged<Typed>
    ensures exact { JudgedAnswers typed_of result (spec.constructed (environment known.now) line of (map typed_of parts.items)) }
{
    let fit = fits(known, of, parts.as_slice());
    must(fit, StaticKind::Constructor, line)?;
    let what = made(alloc, known.is_elementary(of), of, parts, line)?;
    Ok(Typed { what, of })
}

/// A string that a constructor takes stands for its characters.
pub(crate) fn add_characters(characters: &[u8], parts: &mut Vec<Typed>) -> Judged<()>
    ensures exact { JudgedAnswers (λ _. map typed_of parts.new.items) result (gives (map typed_of parts.old.items ++ map spec.character characters.now)) }
{
    for one in characters {
        put(parts, character(*one))?;
    }
    Ok(())
}
