//! What operators give.

ghost use Rattle.std.specs.Prelude.{◌≡◌, false, map, IfSome, None, option_map};
ghost use Rattle.edi_unit.specs.Values.{compound, members, ordinal_of, same_value, values, Values};
ghost use Rattle.edi_unit.specs.Values as spec;
ghost use Rattle.edi_walk.specs.Data.{value_of};

use crate::data::Datum;
use edi_unit::Operator;
use edi_word::{Members, add, div, modulo, mul, sub};

/// The ordinal of a value, and 0 where it has none.
pub fn ordinal(value: &Datum) -> i16
    ensures exact { result ≡ ordinal_of (value_of value.now) }
{
    match value {
        Datum::Ordinal(n) => *n,
        _ => 0,
    }
}

/// The two values of `bool`.
pub fn truth(holds: bool) -> Datum
    ensures exact { value_of result ≡ spec.truth holds }
{
    if holds {
        Datum::Ordinal(1)
    } else {
        Datum::Ordinal(0)
    }
}

/// Whether a value is the true one.
pub fn is_true(value: &Datum) -> bool
    ensures exact { result ≡ spec.is_true (value_of value.now) }
{
    ordinal(value) == 1
}

/// Whether a value is that with this ordinal.
fn is_ordinal(value: &Datum, n: i16) -> bool
    ensures exact { result ≡ same_value (spec.ordinal n) (value_of value.now) }
{
    match value {
        Datum::Ordinal(m) => n == *m,
        Datum::Compound(_) => false,
        Datum::Members(_) => false,
    }
}

/// Whether a value is the set of these members.
fn is_set_of(value: &Datum, set: &Members) -> bool
    ensures exact { result ≡ same_value (members set.now) (value_of value.now) }
{
    match value {
        Datum::Ordinal(_) => false,
        Datum::Compound(_) => false,
        Datum::Members(other) => set.words() == other.words(),
    }
}

/// The parts of a value, where it has some.
fn parts(value: &Datum) -> Option<&[Datum]>
    ensures some { IfSome result (λ ps. value_of value.now ≡ compound (values (map value_of ps.now))) }
    ensures none { result ≡ None → (vs : Values) → same_value (compound vs) (value_of value.now) ≡ false }
{
    match value {
        Datum::Ordinal(_) => None,
        Datum::Compound(parts) => Some(parts),
        Datum::Members(_) => None,
    }
}

/// Whether two values are equal, part by part.
pub fn same(one: &Datum, other: &Datum) -> bool
    ensures exact { result ≡ same_value (value_of one.now) (value_of other.now) }
{
    match one {
        Datum::Ordinal(n) => is_ordinal(other, *n),
        Datum::Members(set) => is_set_of(other, set),
        Datum::Compound(ones) => {
            let Some(others) = parts(other) else {
                return false;
            };
            if ones.len() != others.len() {
                return false;
            }
            let mut index = 0;
            for part in ones {
                if !same(part, &others[index]) {
                    return false;
                }
                index += 1;
            }
            true
        }
    }
}

/// Whether the ordinal of a value is a member of a set.
fn is_member(value: &Datum, set: &Datum) -> bool
    ensures exact { result ≡ spec.is_member (value_of value.now) (value_of set.now) }
{
    match set {
        Datum::Members(set) => set.has(ordinal(value)),
        _ => false,
    }
}

/// The value of `int` with this ordinal.
fn number(n: Option<i16>) -> Option<Datum>
    ensures exact { option_map value_of result ≡ option_map spec.ordinal n }
{
    match n {
        Some(n) => Some(Datum::Ordinal(n)),
        None => None,
    }
}

/// What an operator gives on two operands, or none where it fails.
pub fn apply(operator: Operator, v: &Datum, w: &Datum) -> Option<Datum>
    ensures exact { option_map value_of result ≡ spec.apply operator (value_of v.now) (value_of w.now) }
{
    match operator {
        Operator::Equal => Some(truth(same(v, w))),
        Operator::NotEqual => Some(truth(!same(v, w))),
        Operator::Less => Some(truth(ordinal(v) < ordinal(w))),
        Operator::LessOrEqual => Some(truth(ordinal(v) <= ordinal(w))),
        Operator::Greater => Some(truth(ordinal(v) > ordinal(w))),
        Operator::GreaterOrEqual => Some(truth(ordinal(v) >= ordinal(w))),
        Operator::In => Some(truth(is_member(v, w))),
        Operator::And => Some(truth(is_true(v) && is_true(w))),
        Operator::Or => Some(truth(is_true(v) || is_true(w))),
        Operator::Div => number(div(ordinal(v), ordinal(w))),
        Operator::Mod => number(modulo(ordinal(v), ordinal(w))),
        Operator::Plus => plus(v, w),
        Operator::Minus => minus(v, w),
        Operator::Times => times(v, w),
    }
}

/// `+`: a sum, or the union of two sets.
fn plus(v: &Datum, w: &Datum) -> Option<Datum>
    ensures exact { option_map value_of result ≡ spec.apply Operator.Plus (value_of v.now) (value_of w.now) }
{
    match (v, w) {
        (Datum::Members(s), Datum::Members(t)) => Some(Datum::Members(s.union(t))),
        _ => number(add(ordinal(v), ordinal(w))),
    }
}

/// `-`: a difference, of two sets too.
fn minus(v: &Datum, w: &Datum) -> Option<Datum>
    ensures exact { option_map value_of result ≡ spec.apply Operator.Minus (value_of v.now) (value_of w.now) }
{
    match (v, w) {
        (Datum::Members(s), Datum::Members(t)) => Some(Datum::Members(s.minus(t))),
        _ => number(sub(ordinal(v), ordinal(w))),
    }
}

/// `*`: a product, or the intersection of two sets.
fn times(v: &Datum, w: &Datum) -> Option<Datum>
    ensures exact { option_map value_of result ≡ spec.apply Operator.Times (value_of v.now) (value_of w.now) }
{
    match (v, w) {
        (Datum::Members(s), Datum::Members(t)) => Some(Datum::Members(s.meet(t))),
        _ => number(mul(ordinal(v), ordinal(w))),
    }
}

/// Whether the left operand alone decides.
pub fn decides(operator: Operator, v: &Datum) -> bool
    ensures exact { result ≡ spec.decides operator (value_of v.now) }
{
    match operator {
        Operator::And => !is_true(v),
        Operator::Or => is_true(v),
        _ => false,
    }
}

/// A leading `-`, or none where it fails.
pub fn sign(v: &Datum) -> Option<Datum>
    ensures exact { option_map value_of result ≡ spec.sign (value_of v.now) }
{
    number(sub(0, ordinal(v)))
}

/// `not`
pub fn negation(v: &Datum) -> Datum
    ensures exact { value_of result ≡ spec.negation (value_of v.now) }
{
    truth(!is_true(v))
}

// ---- the same on ordinals

/// The ordinal of a value of `bool`.
fn truth_ordinal(holds: bool) -> i16
    ensures exact { spec.ordinal result ≡ spec.truth holds }
{
    if holds { 1 } else { 0 }
}

/// What an operator gives on two ordinals, or none where it fails.
pub fn apply_ordinals(operator: Operator, n: i16, m: i16) -> Option<i16>
    ensures exact { option_map spec.ordinal result ≡ spec.apply operator (spec.ordinal n) (spec.ordinal m) }
{
    match operator {
        Operator::Equal => Some(truth_ordinal(n == m)),
        Operator::NotEqual => Some(truth_ordinal(n != m)),
        Operator::Less => Some(truth_ordinal(n < m)),
        Operator::LessOrEqual => Some(truth_ordinal(n <= m)),
        Operator::Greater => Some(truth_ordinal(n > m)),
        Operator::GreaterOrEqual => Some(truth_ordinal(n >= m)),
        Operator::In => Some(0),
        Operator::And => Some(truth_ordinal(n == 1 && m == 1)),
        Operator::Or => Some(truth_ordinal(n == 1 || m == 1)),
        Operator::Div => div(n, m),
        Operator::Mod => modulo(n, m),
        Operator::Plus => add(n, m),
        Operator::Minus => sub(n, m),
        Operator::Times => mul(n, m),
    }
}

/// Whether an ordinal as the left operand alone decides.
pub fn decides_ordinal(operator: Operator, n: i16) -> bool
    ensures exact { result ≡ spec.decides operator (spec.ordinal n) }
{
    match operator {
        Operator::And => n != 1,
        Operator::Or => n == 1,
        _ => false,
    }
}

/// A leading `-` before an ordinal, or none where it fails.
pub fn sign_ordinal(n: i16) -> Option<i16>
    ensures exact { option_map spec.ordinal result ≡ spec.sign (spec.ordinal n) }
{
    sub(0, n)
}

/// `not` before an ordinal.
pub fn negation_ordinal(n: i16) -> i16
    ensures exact { spec.ordinal result ≡ spec.negation (spec.ordinal n) }
{
    truth_ordinal(n != 1)
}

/// Whether an ordinal is that of `true`.
pub fn is_one(n: i16) -> bool
    ensures exact { result ≡ spec.is_true (spec.ordinal n) }
{
    n == 1
}
