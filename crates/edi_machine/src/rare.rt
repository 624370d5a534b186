//! The instructions that are not common, each read, tested and executed by its number.

ghost use Rattle.std.specs.Prelude.{◌≡◌, ◌+◌, ◌<◌, ◌≤◌, ◌^◌, ◌∷◌, None, true, length};
ghost use Rattle.edi_target.specs.Effect.{Local};
ghost use Rattle.edi_target.specs.Fetch.{fetch};
ghost use Rattle.edi_target.specs.Op as op;
ghost use Rattle.edi_target.specs.Perform.{perform};
ghost use Rattle.edi_machine.specs.Activities.{IsOrdered, local_of};
ghost use Rattle.edi_machine.specs.Numbers.{effect_by, is_rare};
ghost use Rattle.edi_machine.specs.Steps.{Stepped};

use crate::activity::Activity;
use crate::constants::{descriptor, text, zeros};
use crate::ends::StepEnd;
use crate::instruction::code_address;
use crate::sets::SetOperator;
use crate::system::call_described;
use crate::{processes, sets};
use edi_calls::{Calls, Cause};
use edi_store::Store;
use edi_target::{Op, opcode};

// CALLP.
#[inline(always)]
fn execute_described<C: Calls>(
    store: &mut Store,
    activity: &mut Activity,
    words: &[u16],
    level: u16,
    offset: u16,
    line: u16,
    next: u32,
    calls: &mut C,
) -> StepEnd
    requires size { length words.now < 2 ^ 32 }
    requires working { C.failed calls.old None }
    requires ordered { IsOrdered activity.old }
    ensures all { let l = local_of store.old activity.old in
        Stepped C.state C.failed C.faults C.references C.leads (perform (fetch words.now) 0 true (op.call_p level offset line) next l) result l
        (local_of store.new activity.new) calls.old calls.new }
    ensures ordered { IsOrdered activity.new }
{
    call_described(store, activity, words, level, offset, line, next, calls)
}

/// Executes the instruction of this number and these operands. It is never inlined, so that the step has one place in memory for the answers
/// of all these.
#[tactic(auto, using(crate::proofs::Commonly::asks_nothing))]
#[inline(never)]
pub fn execute_rare<C: Calls>(
    store: &mut Store,
    activity: &mut Activity,
    words: &[u16],
    live: u32,
    first: bool,
    number: u16,
    operands: &[u16],
    calls: &mut C,
) -> StepEnd
    requires size { length words.now < 2 ^ 32 }
    requires rare { is_rare number ≡ true }
    requires room { activity.old.pc + 1 + length operands.now < 2 ^ 32 }
    requires working { C.failed calls.old None }
    requires live { live ≤ 32 }
    requires ordered { IsOrdered activity.old }
    ensures all { let l = local_of store.old activity.old in
        Stepped C.state C.failed C.faults C.references C.leads (effect_by words.now live first (number ∷ operands.now) l) result l
        (local_of store.new activity.new) calls.old calls.new }
    ensures ordered { IsOrdered activity.new }
{
    let at = activity.pc;
    match number {
        opcode::TEXT => match *operands {
            [count, ref rest @ ..] => match rest.get(..usize::from(count)) {
                Some(words) => if count >= 1 {
                    text(store, activity, words, at + (u32::from(count) + 2))
                } else {
                    StepEnd::Bad(at)
                },
                None => StepEnd::Bad(at)
            },
            _ => StepEnd::Bad(at)
        },
        opcode::ZEROS => match *operands {
            [count, ..] => if count >= 1 {
                zeros(store, activity, count, at + 2)
            } else {
                StepEnd::Bad(at)
            },
            _ => StepEnd::Bad(at)
        },
        opcode::UNION => sets::combine(store, activity, SetOperator::Union, at + 1),
        opcode::MINUS => sets::combine(store, activity, SetOperator::Minus, at + 1),
        opcode::MEET => sets::combine(store, activity, SetOperator::Meet, at + 1),
        opcode::IN => sets::is_member(store, activity, at + 1),
        opcode::MEMBER => match *operands {
            [line, ..] => sets::join(store, activity, line, at + 2),
            _ => StepEnd::Bad(at)
        },
        opcode::CALL_P => match *operands {
            [level, offset, line, ..] => if level <= 64 {
                execute_described(store, activity, words, level, offset, line, at + 4, calls)
            } else {
                StepEnd::Bad(at)
            },
            _ => StepEnd::Bad(at)
        },
        opcode::PROC => match *operands {
            [level, high, low, ..] => if level <= 64 {
                descriptor(store, activity, level, code_address(high, low), at + 4)
            } else {
                StepEnd::Bad(at)
            },
            _ => StepEnd::Bad(at)
        },
        opcode::HALT => match *operands {
            [line, ..] => StepEnd::Fail(Cause::Halt, line),
            _ => StepEnd::Bad(at)
        },
        opcode::RETRY => match *operands {
            [high, low, ..] => processes::try_again(
                store,
                activity,
                false,
                code_address(high, low),
            ),
            _ => StepEnd::Bad(at)
        },
        opcode::COBEGIN => match *operands {
            [count, line, ref rest @ ..] => match rest.get(..3 * usize::from(count)) {
                Some(branches) => if (Op::Cobegin { line, branches }).is_allowed() {
                    processes::split(
                        store,
                        activity,
                        live,
                        line,
                        branches,
                        at + (3 * u32::from(count) + 3),
                    )
                } else {
                    StepEnd::Bad(at)
                },
                None => StepEnd::Bad(at)
            },
            _ => StepEnd::Bad(at)
        },
        opcode::EXIT => processes::exit(store, activity, first),
        _ => unreachable!(),
    }
}
