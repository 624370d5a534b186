//! The operators of a chain, and `not`.

ghost use Rattle.std.specs.Prelude.{◌≡◌};
ghost use Rattle.edi_unit.specs.Tree as unit;
ghost use Rattle.edi_unit.specs.Types.{bool_type};
ghost use Rattle.edi_static.specs.Prelude.{JudgedAnswers, environment, expression_of, gives, linked_of, typed_of};
ghost use Rattle.edi_static.specs.Operators as spec;
ghost use Rattle.edi_values.specs.Parts as part;
ghost use Rattle.edi_values.specs.Views.{chained_of};

use edi_static::{
    Judged, Known, Linked, StaticKind, Typed, add, boxed, must, operated, relation_operator,
    with_links,
};
use edi_tree::Relation;
use edi_unit::{BOOL, Links, List, Value};
use std::alloc::Global;

/// The operators of a chain with their right operands, and the type of what the last one gives.
#[derive(Drop)]
pub(crate) struct Chained {
    pub(crate) links: Links,
    pub(crate) of: u32,
}

/// A first operand with the operators behind it.
pub(crate) fn with_chain(alloc: Global, first: Typed, chained: Chained) -> Judged<Typed>
    ensures exact { JudgedAnswers typed_of result (gives (spec.with_links (typed_of first) (chained_of chained))) }
{
    with_links(alloc, first.what, chained.links, chained.of)
}

/// One operator.
fn one_link(alloc: Global, linked: Linked) -> Judged<Chained>
    ensures exact { JudgedAnswers chained_of result (gives (record { links = unit.link_then (linked_of linked).what unit.no_link; of = linked.of })) }
{
    let mut links = List::new(alloc);
    add(&mut links, alloc, linked.link)?;
    Ok(Chained {
        links,
        of: linked.of,
    })
}

/// A left operand with the one operator behind it.
fn with_one(alloc: Global, left: Typed, linked: Linked) -> Judged<Typed>
    ensures exact { JudgedAnswers typed_of result (gives (part.with_one (typed_of left) (linked_of linked))) }
{
    let chained = one_link(alloc, linked)?;
    with_chain(alloc, left, chained)
}

/// A left operand with a relation and its right operand.
pub(crate) fn compared(
    known: &Known,
    alloc: Global,
    left: Typed,
    relation: Relation,
    line: u16,
    right: Typed,
) -> Judged<Typed>
    ensures exact { JudgedAnswers typed_of result (part.compared (environment known.now) (typed_of left) relation line (typed_of right)) }
{
    let linked = operated(known, relation_operator(relation), line, left.of, right)?;
    with_one(alloc, left, linked)
}

fn not_of(alloc: Global, value: Value) -> Judged<Typed>
    ensures exact { JudgedAnswers typed_of result (gives (record { what = unit.not_of (expression_of value); of = bool_type })) }
{
    let what = Value::Not(boxed(alloc, value)?);
    Ok(Typed { what, of: BOOL })
}

/// `not` takes `bool`.
pub(crate) fn negated(alloc: Global, line: u16, value: Typed) -> Judged<Typed>
    ensures exact { JudgedAnswers typed_of result (part.negated line (typed_of value)) }
{
    must(value.of == BOOL, StaticKind::Types, line)?;
    not_of(alloc, value.what)
}
