//! How instructions are appended, and those that depend on types, operators and kinds alone.

ghost use Rattle.std.specs.Prelude.{◌≡◌, ◌+◌, ◌≤◌, ◌<◌, ◌^◌, [], ◌∷◌, IfOk, IfSome, OnOk, length};
ghost use Rattle.edi_unit.specs.Types.{shape_at};
ghost use Rattle.edi_unit.specs.Fits.{ShapesFit, greatest_levels};
ghost use Rattle.edi_target.specs.View.{instruction_of};
ghost use Rattle.edi_scheme.specs.Pieces as pieces;
ghost use Rattle.edi_scheme.specs.Pieces.{code_length};
ghost use Rattle.edi_target.specs.Op.{address};
ghost use Rattle.edi_code.specs.Emits.{Emits, IsWhole, code_of_op, code_of_option};
ghost use Rattle.edi_code.specs.InScope as in_scope;
ghost use Rattle.edi_code.specs.InScope.{CalleeIsWritable};
ghost use Rattle.edi_code.specs.Scope.{IsScope, blocks_in, entry_in};
ghost use Rattle.edi_code.specs.Writable.{OperatorIsWritable};

use crate::pieces::{is_address, is_set, slot_offset};
use crate::scope::{Appended, Behind, Scope};
use edi_target::{Op, write_op};
use edi_unit::{Callee, Operator, Parameter, Shape, TypeTable, type_words};
use std::alloc::Global;

// Appends an instruction.
pub(crate) fn put(alloc: Global, op: &Op<'_>, out: &mut Vec<u16>) -> Appended
    requires allowed { IsWhole op.now }
    ensures emits { OnOk result (Emits out.old.items out.new.items (code_of_op op.now)) }
{
    write_op(alloc, out, op)
}

// Appends an instruction of so many words, which stands at `at`; gives the address behind it.
pub(crate) fn put_at(alloc: Global, op: &Op<'_>, at: u32, long: u32, out: &mut Vec<u16>) -> Behind
    requires allowed { IsWhole op.now }
    requires long { long ≡ code_length (code_of_op op.now) }
    requires room { at + long < 2 ^ 32 }
    ensures emits { OnOk result (Emits out.old.items out.new.items (code_of_op op.now)) }
    ensures behind { IfOk result (λ behind. behind ≡ at + long) }
{
    put(alloc, op, out)?;
    Ok(at + long)
}

// Appends an instruction where there is one.
pub(crate) fn put_any(alloc: Global, op: Option<Op<'_>>, out: &mut Vec<u16>) -> Appended
    requires allowed { IfSome op IsWhole }
    ensures emits { OnOk result (Emits out.old.items out.new.items (code_of_option op.entry)) }
{
    match op {
        Some(op) => put(alloc, &op, out),
        None => Ok(()),
    }
}

// ---- operators and checks

// One of two instructions, as type `of` is a set or not.
fn on_sets(types: &TypeTable, of: u32, sets: Op<'static>, integers: Op<'static>) -> Op<'static>
    requires sets { IsWhole sets }
    requires integers { IsWhole integers }
    ensures exact { code_of_op result ≡ pieces.on_sets types.now of (instruction_of sets.entry) (instruction_of integers.entry) }
    ensures allowed { IsWhole result }
{
    if is_set(types, of) { sets } else { integers }
}

// What an operator does behind its operands, the left one of type `left`.
pub(crate) fn operation(
    types: &TypeTable,
    left: u32,
    operator: Operator,
    line: u16,
) -> Option<Op<'static>>
    requires writable { OperatorIsWritable types.now operator left }
    ensures exact { code_of_option result ≡ pieces.operation types.now left operator line }
    ensures allowed { IfSome result IsWhole }
{
    match operator {
        Operator::Equal => Some(Op::Eq {
            count: type_words(types, left) as u16,
        }),
        Operator::NotEqual => Some(Op::Ne {
            count: type_words(types, left) as u16,
        }),
        Operator::Less => Some(Op::Lt),
        Operator::LessOrEqual => Some(Op::Le),
        Operator::Greater => Some(Op::Gt),
        Operator::GreaterOrEqual => Some(Op::Ge),
        Operator::In => Some(Op::In),
        Operator::Plus => Some(on_sets(types, left, Op::Union, Op::Add { line })),
        Operator::Minus => Some(on_sets(types, left, Op::Minus, Op::Sub { line })),
        Operator::Times => Some(on_sets(types, left, Op::Meet, Op::Mul { line })),
        Operator::Div => Some(Op::Div { line }),
        Operator::Mod => Some(Op::Mod { line }),
        Operator::And | Operator::Or => None,
    }
}

// What decides before a right operand, which ends at `behind`.
pub(crate) fn decision(operator: Operator, behind: u32) -> Option<Op<'static>>
    ensures exact { code_of_option result ≡ pieces.decision operator behind }
    ensures allowed { IfSome result IsWhole }
{
    match operator {
        Operator::And => Some(Op::And { target: behind }),
        Operator::Or => Some(Op::Or { target: behind }),
        _ => None,
    }
}

// What holds an ordinal to type `of`.
pub(crate) fn check(types: &TypeTable, of: u32, line: u16) -> Option<Op<'static>>
    requires shapes { ShapesFit types.now }
    ensures exact { code_of_option result ≡ pieces.check_code (shape_at types.now of) line }
    ensures allowed { IfSome result IsWhole }
{
    if of >= types.len() {
        return None;
    }
    match types.shape(of) {
        Shape::Char => Some(Op::Check {
            low: 0,
            high: 127,
            line,
        }),
        Shape::Bool => Some(Op::Check {
            low: 0,
            high: 1,
            line,
        }),
        Shape::Enum(constants) => Some(Op::Check {
            low: 0,
            high: (*constants - 1) as i16,
            line,
        }),
        _ => None,
    }
}

// What goes from the address of an array of type `of` to that of an element.
pub(crate) fn element(types: &TypeTable, of: u32, line: u16) -> Option<Op<'static>>
    ensures exact { code_of_option result ≡ pieces.element_code types.now (shape_at types.now of) line }
    ensures allowed { IfSome result IsWhole }
{
    if of >= types.len() {
        return None;
    }
    match types.shape(of) {
        Shape::Array {
            lo,
            hi,
            element,
            ..
        } => Some(Op::Index {
            low: *lo,
            high: *hi,
            size: type_words(types, *element) as u16,
            line,
        }),
        _ => None,
    }
}

// ---- variables and callees

// Appends the address of what a variable keeps in the frame `levels` steps out.
fn put_address(scope: &Scope<'_>, levels: u32, variable: u32, out: &mut Vec<u16>) -> Appended
    requires scope { IsScope scope.now }
    requires levels { levels ≤ greatest_levels }
    ensures emits { OnOk result (Emits out.old.items out.new.items (address levels (in_scope.slot_offset scope.now levels variable) ∷ [])) }
{
    let offset = slot_offset(scope, levels, variable);
    put(
        scope.alloc,
        &Op::Address {
            level: levels as u16,
            offset,
        },
        out,
    )
}

// Appends the address of a variable.
pub(crate) fn emit_variable(
    scope: &Scope<'_>,
    levels: u32,
    variable: u32,
    found: Option<Parameter>,
    out: &mut Vec<u16>,
) -> Appended
    requires scope { IsScope scope.now }
    requires levels { levels ≤ greatest_levels }
    ensures emits { OnOk result (Emits out.old.items out.new.items
        (pieces.variable_code levels (in_scope.slot_offset scope.now levels variable) found)) }
{
    put_address(scope, levels, variable, out)?;
    if is_address(found) {
        return put(scope.alloc, &Op::Load { count: 1 }, out);
    }
    Ok(())
}

// The address where block `block` begins.
pub(crate) fn entry_of(scope: &Scope<'_>, block: u32) -> u32
    requires scope { IsScope scope.now }
    requires known { block < length (blocks_in scope.now) }
    ensures exact { result ≡ entry_in scope.now block }
{
    scope.entries[block as usize]
}

// A call.
pub(crate) fn call(scope: &Scope<'_>, callee: Callee, line: u16) -> Op<'static>
    requires scope { IsScope scope.now }
    requires writable { CalleeIsWritable scope.now callee }
    ensures exact { code_of_op result ≡ in_scope.call_code scope.now callee line }
    ensures allowed { IsWhole result }
{
    match callee {
        Callee::Block { levels, block } => Op::Call {
            level: levels as u16,
            target: entry_of(scope, block),
            line,
        },
        Callee::Formal { levels, variable } => Op::CallP {
            level: levels as u16,
            offset: slot_offset(scope, levels, variable),
            line,
        },
    }
}

// Appends a procedure that is passed on.
pub(crate) fn emit_procedure(scope: &Scope<'_>, callee: Callee, out: &mut Vec<u16>) -> Appended
    requires scope { IsScope scope.now }
    requires writable { CalleeIsWritable scope.now callee }
    ensures emits { OnOk result (Emits out.old.items out.new.items (in_scope.procedure_code scope.now callee)) }
{
    match callee {
        Callee::Block { levels, block } => {
            let target = entry_of(scope, block);
            put(
                scope.alloc,
                &Op::Proc {
                    level: levels as u16,
                    target,
                },
                out,
            )
        }
        Callee::Formal { levels, variable } => {
            put_address(scope, levels, variable, out)?;
            put(scope.alloc, &Op::Load { count: 3 }, out)
        }
    }
}

// ---- the ends of lists

// What gives up a failed attempt of a `when`, to begin at `top` again.
pub(crate) fn again(quiet: bool, top: u32) -> Op<'static>
    ensures exact { code_of_op result ≡ pieces.again_code quiet top }
    ensures allowed { IsWhole result }
{
    if quiet {
        Op::Quiet { target: top }
    } else {
        Op::Retry { target: top }
    }
}
