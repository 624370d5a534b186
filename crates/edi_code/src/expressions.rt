//! The code of expressions, and of operators with their right operands.
#![tactic(auto, using(crate::proofs::Emitting::words_append))]

ghost use Rattle.std.specs.Prelude.{◌≡◌, ◌+◌, ◌<◌, ◌^◌, ◌++◌, IfOk, IfSome, OnOk};
ghost use Rattle.edi_unit.specs.View.{expression_of, expressions_of, link_of, links_of};
ghost use Rattle.edi_unit.specs.Tree.{make};
ghost use Rattle.edi_unit.specs.Tree.{link as plain_link};
ghost use Rattle.edi_scheme.specs.Pieces.{code_length};
ghost use Rattle.edi_code.specs.Emits.{Emits, IsWhole, code_of_option};
ghost use Rattle.edi_code.specs.InScope as in_scope;
ghost use Rattle.edi_code.specs.InScope.{ExpressionIsWritable, LinkIsWritable, LinksAreWritable};
ghost use Rattle.edi_code.specs.Scope.{MayBeWritten};

pub(crate) mod places;

use crate::expressions::places::{emit_call, emit_load};
use crate::instructions::{check, decision, operation, put, put_any, put_at};
use crate::jumps::decide;
use crate::pieces::{check_length, decision_length, is_set, operation_length};
use crate::rows::constant_row;
use crate::scope::{Behind, Scope};
use edi_target::Op;
use edi_unit::{Link, Links, Operator, Value, Values, expression_type, operator_type};

// The code of an expression, which stands at `at`. This and each function below gives the address behind what it appends.
#[cycle(emitted)]
pub(crate) fn emit_value(value: &Value, scope: &Scope<'_>, at: u32, out: &mut Vec<u16>) -> Behind
    requires may { MayBeWritten scope.now at (in_scope.expression_length scope.now (expression_of value.now))
        (ExpressionIsWritable scope.now (expression_of value.now)) }
    ensures emits { OnOk result (Emits out.old.items out.new.items (in_scope.expression_code scope.now at (expression_of value.now))) }
    ensures behind { IfOk result (λ behind. behind ≡ at + in_scope.expression_length scope.now (expression_of value.now)) }
{
    match value {
        Value::Constant { ordinal, .. } => {
            let value = ordinal.cast_unsigned();
            put_at(scope.alloc, &Op::Const { value }, at, 2, out)
        }
        Value::Load(place) => emit_load(place, scope, at, out),
        Value::Not(value) => emit_operand(value, scope, at, Some(Op::Not), 1, out),
        Value::Sign(value, line) => {
            let negates = Some(Op::Neg { line: *line });
            emit_operand(value, scope, at, negates, 2, out)
        }
        Value::Chain(first, links) => {
            let left = expression_type(scope.types, scope.blocks, scope.block, first);
            let behind = emit_value(first, scope, at, out)?;
            emit_links(links, scope, behind, left, out)
        }
        Value::Make { of, parts, line } => emit_make(parts, scope, at, *of, *line, out),
        Value::Convert { of, value, line } => {
            let checks = check(scope.types, *of, *line);
            let long = check_length(scope.types, *of);
            emit_operand(value, scope, at, checks, long, out)
        }
        Value::Apply(callee, arguments, line) => {
            emit_call(arguments, scope, at, *callee, *line, out)
        }
    }
}

// The code of an expression, and an instruction of so many words behind it where there is one.
#[cycle(emitted)]
pub(crate) fn emit_operand(
    value: &Value,
    scope: &Scope<'_>,
    at: u32,
    op: Option<Op<'_>>,
    long: u32,
    out: &mut Vec<u16>,
) -> Behind
    requires may { MayBeWritten scope.now at (in_scope.expression_length scope.now (expression_of value.now) + long)
        (ExpressionIsWritable scope.now (expression_of value.now)) }
    requires allowed { IfSome op IsWhole }
    requires long { long ≡ code_length (code_of_option op) }
    ensures emits { OnOk result (Emits out.old.items out.new.items
        (in_scope.expression_code scope.now at (expression_of value.now) ++ code_of_option op.entry)) }
    ensures behind { IfOk result (λ behind. behind ≡ at + (in_scope.expression_length scope.now (expression_of value.now) + long)) }
{
    let behind = emit_value(value, scope, at, out)?;
    put_any(scope.alloc, op, out)?;
    Ok(behind + long)
}

// The code of a record, an array or a set of type `of`.
#[cycle(emitted)]
fn emit_make(
    parts: &Values,
    scope: &Scope<'_>,
    at: u32,
    of: u32,
    line: u16,
    out: &mut Vec<u16>,
) -> Behind
    requires may { MayBeWritten scope.now at (in_scope.expression_length scope.now (make of (expressions_of parts.now) line))
        (ExpressionIsWritable scope.now (make of (expressions_of parts.now) line)) }
    ensures emits { OnOk result (Emits out.old.items out.new.items (in_scope.expression_code scope.now at (make of (expressions_of parts.now) line))) }
    ensures behind { IfOk result (λ behind. behind ≡ at + in_scope.expression_length scope.now (make of (expressions_of parts.now) line)) }
{
    if is_set(scope.types, of) {
        put(scope.alloc, &Op::Zeros { count: 8 }, out)?;
        let mut here = at + 2;
        for member in parts.items() {
            let behind = emit_value(member, scope, here, out)?;
            put(scope.alloc, &Op::Member { line }, out)?;
            here = behind + 2;
        }
        return Ok(here);
    }
    if let Some(words) = constant_row(scope.alloc, parts)? {
        put(scope.alloc, &Op::Text { words: &words }, out)?;
        return Ok(at + 2 + words.len() as u32);
    }
    let mut here = at;
    for value in parts.items() {
        here = emit_value(value, scope, here, out)?;
    }
    Ok(here)
}

// ---- operators

// The code of operators with their right operands, behind a left operand of type `left`.
#[cycle(emitted)]
fn emit_links(links: &Links, scope: &Scope<'_>, at: u32, left: u32, out: &mut Vec<u16>) -> Behind
    requires may { MayBeWritten scope.now at (in_scope.links_length scope.now left (links_of links.now))
        (LinksAreWritable scope.now left (links_of links.now)) }
    ensures emits { OnOk result (Emits out.old.items out.new.items (in_scope.links_code scope.now at left (links_of links.now))) }
    ensures behind { IfOk result (λ behind. behind ≡ at + in_scope.links_length scope.now left (links_of links.now)) }
{
    let mut of = left;
    let mut here = at;
    for link in links.items() {
        here = emit_link(link, scope, here, of, out)?;
        of = operator_type(operator_of(link), of);
    }
    Ok(here)
}

// The code of an operator with its right operand, behind a left operand of type `left`.
#[cycle(emitted)]
fn emit_link(link: &Link, scope: &Scope<'_>, at: u32, left: u32, out: &mut Vec<u16>) -> Behind
    requires may { MayBeWritten scope.now at (in_scope.link_length scope.now left (link_of link.now)) (LinkIsWritable scope.now left (link_of link.now)) }
    ensures emits { IfOk result (λ behind. Emits out.old.items out.new.items (in_scope.link_code scope.now at left (link_of link.now))) }
    ensures behind { IfOk result (λ behind. behind ≡ at + in_scope.link_length scope.now left (link_of link.now)) }
{
    emit_right(&link.right, scope, at, left, link.operator, link.line, out)
}

#[cycle(emitted)]
fn emit_right(
    right: &Value,
    scope: &Scope<'_>,
    at: u32,
    left: u32,
    operator: Operator,
    line: u16,
    out: &mut Vec<u16>,
) -> Behind
    requires may { MayBeWritten scope.now at (in_scope.link_length scope.now left (plain_link operator (expression_of right.now) line))
        (LinkIsWritable scope.now left (plain_link operator (expression_of right.now) line)) }
    ensures emits { IfOk result (λ behind. Emits out.old.items out.new.items
        (in_scope.link_code scope.now at left (plain_link operator (expression_of right.now) line))) }
    ensures behind { IfOk result (λ behind. behind ≡ at + in_scope.link_length scope.now left (plain_link operator (expression_of right.now) line)) }
{
    let begins = at + decision_length(operator);
    let start = out.len();
    put_any(scope.alloc, decision(operator, 0), out)?;
    let ends = emit_value(right, scope, begins, out)?;
    put_any(
        scope.alloc,
        operation(scope.types, left, operator, line),
        out,
    )?;
    let behind = ends + operation_length(scope.types, left, operator);
    decide(out, operator, start, behind);
    Ok(behind)
}

// The operator of a link.
fn operator_of(link: &Link) -> Operator
    ensures exact { result ≡ in_scope.operator_of (link_of link.now) }
{
    link.operator
}
