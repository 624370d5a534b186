//! The rules on operators.

ghost use Rattle.std.specs.Prelude.{◌≡◌};
ghost use Rattle.edi_unit.specs.Types.{is_set_shape};
ghost use Rattle.edi_unit.specs.View.{expression_of, links_of};
ghost use Rattle.edi_unit.specs.Tree as unit;
ghost use Rattle.edi_static.specs.Prelude.{JudgedAnswers, gives, linked_of, shape_of, typed_of};
ghost use Rattle.edi_static.specs.Operators as spec;

use crate::faults::{Judged, StaticKind};
use crate::known::{Known, boxed, must};
use edi_tree::{Addition, Multiplication, Relation, Sign};
use edi_unit::{BOOL, INT, Link, Links, Operator, Shape, Value, operator_type};
use std::alloc::Global;

/// An expression of the resolved program, with its type.
#[derive(Drop)]
pub struct Typed {
    pub what: Value,
    pub of: u32,
}

/// An operator with its right operand, and the type of what it gives.
#[derive(Drop)]
pub struct Linked {
    pub link: Link,
    pub of: u32,
}

/// The operator beside a symbol.
macro_rules! beside {
    ($symbol:expr, $of:ident: $($from:ident => $to:ident),*) => {
        match $symbol {
            $($of::$from => Operator::$to,)*
        }
    };
}

pub fn relation_operator(relation: Relation) -> Operator
    ensures exact { result ≡ spec.relation_operator relation }
{
    beside!(
        relation,
        Relation: Equal => Equal,
        NotEqual => NotEqual,
        Less => Less,
        AtMost => LessOrEqual,
        Greater => Greater,
        AtLeast => GreaterOrEqual,
        In => In
    )
}

pub fn addition_operator(addition: Addition) -> Operator
    ensures exact { result ≡ spec.addition_operator addition }
{
    beside!(addition, Addition: Plus => Plus, Minus => Minus, Or => Or)
}

pub fn multiplication_operator(multiplication: Multiplication) -> Operator
    ensures exact { result ≡ spec.multiplication_operator multiplication }
{
    beside!(multiplication, Multiplication: Star => Times, Div => Div, Mod => Mod, And => And)
}

/// Whether a type is that of sets of a type.
fn is_set_of(shape: &Shape, of: u32) -> bool
    ensures exact { result ≡ spec.is_set_of (shape_of shape.now) of }
{
    match shape {
        Shape::Set(base) => *base == of,
        _ => false,
    }
}

/// Whether a type is that of sets.
pub fn is_set(shape: &Shape) -> bool
    ensures exact { result ≡ is_set_shape (shape_of shape.now) }
{
    match shape {
        Shape::Set(_) => true,
        _ => false,
    }
}

/// Whether an operator takes operands of these types.
fn takes(known: &Known, operator: Operator, left: u32, right: u32) -> bool
    ensures exact { result ≡ spec.takes known.now.types operator left right }
{
    match operator {
        Operator::Equal | Operator::NotEqual => left == right,
        Operator::Less | Operator::LessOrEqual | Operator::Greater | Operator::GreaterOrEqual => {
            left == right && known.is_elementary(left)
        }
        Operator::In => is_set_of(known.shape(right), left),
        Operator::Plus | Operator::Minus | Operator::Times => {
            left == right && (left == INT || is_set(known.shape(left)))
        }
        Operator::Div | Operator::Mod => left == INT && right == INT,
        Operator::And | Operator::Or => left == BOOL && right == BOOL,
    }
}

/// A sign takes `int`; a leading `+` leaves nothing in the resolved program.
pub fn signed(alloc: Global, sign: Option<Sign>, value: Typed) -> Judged<Typed>
    ensures exact { JudgedAnswers typed_of result (spec.signed sign (typed_of value)) }
{
    match sign {
        None => Ok(value),
        Some(Sign::Plus(line)) => {
            must(value.of == INT, StaticKind::Types, line)?;
            Ok(value)
        }
        Some(Sign::Minus(line)) => {
            must(value.of == INT, StaticKind::Types, line)?;
            let what = Value::Sign(boxed(alloc, value.what)?, line);
            Ok(Typed { what, of: INT })
        }
    }
}

/// An operator between a left operand of a type and a right operand.
pub fn operated(
    known: &Known,
    operator: Operator,
    line: u16,
    left: u32,
    right: Typed,
) -> Judged<Linked>
    ensures exact { JudgedAnswers linked_of result (spec.operated known.now.types operator line left (typed_of right)) }
{
    let holds = takes(known, operator, left, right.of);
    must(holds, StaticKind::Types, line)?;
    let link = Link {
        operator,
        right: right.what,
        line,
    };
    Ok(Linked {
        link,
        of: operator_type(operator, left),
    })
}

/// A chain of at least one operator.
fn chain(alloc: Global, first: Value, links: Links, of: u32) -> Judged<Typed>
    ensures exact { JudgedAnswers typed_of result (gives (record { what = unit.chain (expression_of first) (links_of links); of = of })) }
{
    let what = Value::Chain(boxed(alloc, first)?, links);
    Ok(Typed { what, of })
}

/// A part without an operator is no chain.
#[tactic(auto, using(crate::proofs::Lengths::no_chain, crate::proofs::Lengths::a_chain))]
pub fn with_links(alloc: Global, first: Value, links: Links, of: u32) -> Judged<Typed>
    ensures exact { JudgedAnswers typed_of result (gives (record { what = spec.chain_of (expression_of first) (links_of links); of = of })) }
{
    if links.is_empty() {
        Ok(Typed { what: first, of })
    } else {
        chain(alloc, first, links, of)
    }
}
