//! The code of variables, of their addresses and their values, and of calls with their arguments.
#![tactic(auto, using(crate::proofs::Emitting::words_append))]

ghost use Rattle.std.specs.Prelude.{◌≡◌, ◌+◌, ◌<◌, ◌^◌, ◌++◌, IfOk, OnOk};
ghost use Rattle.edi_unit.specs.View.{argument_of, arguments_of, part_of, parts_of, place_of};
ghost use Rattle.edi_unit.specs.Tree.{load};
ghost use Rattle.edi_scheme.specs.Lengths as scheme;
ghost use Rattle.edi_code.specs.Emits.{Emits};
ghost use Rattle.edi_code.specs.InScope as in_scope;
ghost use Rattle.edi_code.specs.InScope.{ArgumentIsWritable, ArgumentsAreWritable, CalleeIsWritable, ExpressionIsWritable};
ghost use Rattle.edi_code.specs.InScope.{PartIsWritable, PartsAreWritable, PlaceIsWritable};
ghost use Rattle.edi_code.specs.Scope.{MayBeWritten};

use crate::expressions::{emit_operand, emit_value};
use crate::instructions::{call, element, emit_procedure, emit_variable, put, put_at};
use crate::pieces::{
    call_length, element_length, field_offset, procedure_length, slot_type, variable_length,
};
use crate::scope::{Behind, Scope};
use edi_target::Op;
use edi_unit::{
    Argument, Arguments, Callee, Part, Parts, Place, part_type, place_type, slot, type_words,
};

// The code of the value of a variable.
#[cycle(emitted)]
pub(crate) fn emit_load(place: &Place, scope: &Scope<'_>, at: u32, out: &mut Vec<u16>) -> Behind
    requires may { MayBeWritten scope.now at (in_scope.expression_length scope.now (load (place_of place.now)))
        (ExpressionIsWritable scope.now (load (place_of place.now))) }
    ensures emits { OnOk result (Emits out.old.items out.new.items (in_scope.expression_code scope.now at (load (place_of place.now)))) }
    ensures behind { IfOk result (λ behind. behind ≡ at + in_scope.expression_length scope.now (load (place_of place.now))) }
{
    let of = place_type(scope.types, scope.blocks, scope.block, place);
    let count = type_words(scope.types, of) as u16;
    let behind = emit_place(place, scope, at, out)?;
    put(scope.alloc, &Op::Load { count }, out)?;
    Ok(behind + 2)
}

// The code of a place, which leaves its address.
#[cycle(emitted)]
pub(crate) fn emit_place(place: &Place, scope: &Scope<'_>, at: u32, out: &mut Vec<u16>) -> Behind
    requires may { MayBeWritten scope.now at (in_scope.place_length scope.now (place_of place.now)) (PlaceIsWritable scope.now (place_of place.now)) }
    ensures emits { OnOk result (Emits out.old.items out.new.items (in_scope.place_code scope.now at (place_of place.now))) }
    ensures behind { IfOk result (λ behind. behind ≡ at + in_scope.place_length scope.now (place_of place.now)) }
{
    let variable = slot(scope.blocks, scope.block, place.levels, place.variable);
    emit_variable(scope, place.levels, place.variable, variable, out)?;
    let behind = at + variable_length(variable);
    emit_parts(&place.parts, scope, behind, slot_type(variable), out)
}

// The code of the steps to a part of a variable of type `root`.
#[cycle(emitted)]
fn emit_parts(parts: &Parts, scope: &Scope<'_>, at: u32, root: u32, out: &mut Vec<u16>) -> Behind
    requires may { MayBeWritten scope.now at (in_scope.parts_length scope.now root (parts_of parts.now)) (PartsAreWritable scope.now (parts_of parts.now)) }
    ensures emits { OnOk result (Emits out.old.items out.new.items (in_scope.parts_code scope.now at root (parts_of parts.now))) }
    ensures behind { IfOk result (λ behind. behind ≡ at + in_scope.parts_length scope.now root (parts_of parts.now)) }
{
    let mut of = root;
    let mut here = at;
    for part in parts.items() {
        here = emit_part(part, scope, here, of, out)?;
        of = part_type(scope.types, of, part);
    }
    Ok(here)
}

// The code of one step, from a variable of type `of`.
#[cycle(emitted)]
fn emit_part(part: &Part, scope: &Scope<'_>, at: u32, of: u32, out: &mut Vec<u16>) -> Behind
    requires may { MayBeWritten scope.now at (in_scope.part_length scope.now of (part_of part.now)) (PartIsWritable scope.now (part_of part.now)) }
    ensures emits { OnOk result (Emits out.old.items out.new.items (in_scope.part_code scope.now at of (part_of part.now))) }
    ensures behind { IfOk result (λ behind. behind ≡ at + in_scope.part_length scope.now of (part_of part.now)) }
{
    match part {
        Part::Field(field) => {
            let offset = field_offset(scope, of, *field);
            put_at(scope.alloc, &Op::Field { offset }, at, 2, out)
        }
        Part::Index(index, line) => {
            let indexes = element(scope.types, of, *line);
            let long = element_length(scope.types, of);
            emit_operand(index, scope, at, indexes, long, out)
        }
    }
}

// ---- calls

// The code of a call.
#[cycle(emitted)]
pub(crate) fn emit_call(
    arguments: &Arguments,
    scope: &Scope<'_>,
    at: u32,
    callee: Callee,
    line: u16,
    out: &mut Vec<u16>,
) -> Behind
    requires may { MayBeWritten scope.now at (in_scope.arguments_length scope.now (arguments_of arguments.now) + scheme.call_length callee)
        (ArgumentsAreWritable scope.now (arguments_of arguments.now)) }
    requires callee { CalleeIsWritable scope.now callee }
    ensures emits { OnOk result (Emits out.old.items out.new.items
        (in_scope.arguments_code scope.now at (arguments_of arguments.now) ++ in_scope.call_code scope.now callee line)) }
    ensures behind { IfOk result (λ behind. behind ≡ at + (in_scope.arguments_length scope.now (arguments_of arguments.now) + scheme.call_length callee)) }
{
    let mut here = at;
    for argument in arguments.items() {
        here = emit_argument(argument, scope, here, out)?;
    }
    put(scope.alloc, &call(scope, callee, line), out)?;
    Ok(here + call_length(callee))
}

// The code of an argument.
#[cycle(emitted)]
fn emit_argument(argument: &Argument, scope: &Scope<'_>, at: u32, out: &mut Vec<u16>) -> Behind
    requires may { MayBeWritten scope.now at (in_scope.argument_length scope.now (argument_of argument.now))
        (ArgumentIsWritable scope.now (argument_of argument.now)) }
    ensures emits { OnOk result (Emits out.old.items out.new.items (in_scope.argument_code scope.now at (argument_of argument.now))) }
    ensures behind { IfOk result (λ behind. behind ≡ at + in_scope.argument_length scope.now (argument_of argument.now)) }
{
    match argument {
        Argument::Value(value) => emit_value(value, scope, at, out),
        Argument::Var(place) => emit_place(place, scope, at, out),
        Argument::Formal(callee) => {
            emit_procedure(scope, *callee, out)?;
            Ok(at + procedure_length(*callee))
        }
    }
}
