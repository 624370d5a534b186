//! Any one instruction by its number: the plain ones and the rare ones are handed on; CALL, RETURN and QUIET are executed here.

ghost use Rattle.std.specs.Prelude.{◌≡◌, ◌+◌, ◌<◌, ◌≤◌, ◌^◌, ◌∷◌, None, drop, length};
ghost use Rattle.edi_target.specs.Effect.{Local};
ghost use Rattle.edi_machine.specs.Activities.{IsOrdered, local_of};
ghost use Rattle.edi_machine.specs.Numbers.{effect_by};
ghost use Rattle.edi_machine.specs.Steps.{Stepped, effect_of};

use crate::activity::Activity;
use crate::ends::StepEnd;
use crate::instruction::code_address;
use crate::plain::{execute_plain, four_of, two_of};
use crate::procedures::{call, leave_block};
use crate::processes;
use crate::rare::execute_rare;
use edi_calls::Calls;
use edi_store::Store;
use edi_target::opcode;

// Executes the instruction of this number and these operands.
#[tactic(auto, using(crate::proofs::Commonly::asks_nothing))]
#[inline(always)]
fn execute_by<C: Calls>(
    store: &mut Store,
    activity: &mut Activity,
    words: &[u16],
    live: u32,
    first: bool,
    number: u16,
    operands: &[u16],
    calls: &mut C,
) -> StepEnd
    requires size { length words.now < 2 ^ 32 }
    requires room { activity.old.pc + 1 + length operands.now < 2 ^ 32 }
    requires here { operands.now ≡ drop (activity.old.pc + 1) words.now }
    requires working { C.failed calls.old None }
    requires live { live ≤ 32 }
    requires ordered { IsOrdered activity.old }
    ensures all { let l = local_of store.old activity.old in
        Stepped C.state C.failed C.faults C.references C.leads (effect_by words.now live first (number ∷ operands.now) l) result l
        (local_of store.new activity.new) calls.old calls.new }
    ensures ordered { IsOrdered activity.new }
{
    let at = activity.pc;
    // A step tells that a turn is due, whether or not one is left.
    let some_left = 1;
    if let Some(end) = execute_plain::<false>(
        store, activity, words, number, operands, &some_left,
    ) {
        return end;
    }
    match number {
        opcode::CALL => match four_of(words, at, operands) {
            Some((level, high, low, line)) => if level <= 64 {
                call(
                    store,
                    activity,
                    words,
                    level,
                    code_address(high, low),
                    line,
                    at + 5,
                )
            } else {
                StepEnd::Bad(at)
            },
            None => StepEnd::Bad(at)
        },
        opcode::RETURN => match two_of(words, at, operands) {
            Some((results, function)) => if function <= 1 {
                leave_block(store, activity, first, results, function)
            } else {
                StepEnd::Bad(at)
            },
            None => StepEnd::Bad(at)
        },
        opcode::QUIET => match two_of(words, at, operands) {
            Some((high, low)) => processes::try_again(
                store,
                activity,
                true,
                code_address(high, low),
            ),
            None => StepEnd::Bad(at)
        },
        opcode::TEXT
        | opcode::ZEROS
        | opcode::UNION
        | opcode::MINUS
        | opcode::MEET
        | opcode::IN
        | opcode::MEMBER
        | opcode::CALL_P
        | opcode::PROC
        | opcode::HALT
        | opcode::RETRY
        | opcode::COBEGIN
        | opcode::EXIT => execute_rare(
            store, activity, words, live, first, number, operands, calls,
        ),
        0 | opcode::ENTRY => StepEnd::Bad(at),
        // The plain ones are executed above.
        opcode::CONST
        | opcode::ADDRESS
        | opcode::FIELD
        | opcode::INDEX
        | opcode::LOAD
        | opcode::STORE
        | opcode::ADD
        | opcode::SUB
        | opcode::MUL
        | opcode::DIV
        | opcode::MOD
        | opcode::NEG
        | opcode::NOT
        | opcode::EQ
        | opcode::NE
        | opcode::LT
        | opcode::LE
        | opcode::GT
        | opcode::GE
        | opcode::CHECK
        | opcode::JUMP
        | opcode::FALSE
        | opcode::AND
        | opcode::OR
        | opcode::LOOP
        | opcode::WHEN
        | opcode::DONE => unreachable!(),
        _ => StepEnd::Bad(at),
    }
}

// Executes the instruction at the front of these words, which are those of the code from the activity's `pc` on.
#[inline(always)]
fn execute_front<C: Calls>(
    store: &mut Store,
    activity: &mut Activity,
    words: &[u16],
    live: u32,
    first: bool,
    front: &[u16],
    calls: &mut C,
) -> StepEnd
    requires size { length words.now < 2 ^ 32 }
    requires room { activity.old.pc + length front.now < 2 ^ 32 }
    requires here { front.now ≡ drop activity.old.pc words.now }
    requires working { C.failed calls.old None }
    requires live { live ≤ 32 }
    requires ordered { IsOrdered activity.old }
    ensures all { let l = local_of store.old activity.old in
        Stepped C.state C.failed C.faults C.references C.leads (effect_by words.now live first front.now l) result l
        (local_of store.new activity.new) calls.old calls.new }
    ensures ordered { IsOrdered activity.new }
{
    let [number, operands @ ..] = front else {
        return StepEnd::Bad(activity.pc);
    };
    execute_by(
        store, activity, words, live, first, *number, operands, calls,
    )
}

/// Executes the instruction at the activity's `pc`.
#[inline(always)]
pub fn execute_here<C: Calls>(
    store: &mut Store,
    activity: &mut Activity,
    words: &[u16],
    live: u32,
    first: bool,
    calls: &mut C,
) -> StepEnd
    requires size { length words.now < 2 ^ 32 }
    requires working { C.failed calls.old None }
    requires live { live ≤ 32 }
    requires ordered { IsOrdered activity.old }
    ensures all { let l = local_of store.old activity.old in
        Stepped C.state C.failed C.faults C.references C.leads (effect_of words.now live first l) result l (local_of store.new activity.new)
        calls.old calls.new }
    ensures ordered { IsOrdered activity.new }
{
    let Some(front) = words.get(activity.pc as usize..) else {
        return StepEnd::Bad(activity.pc);
    };
    execute_front(store, activity, words, live, first, front, calls)
}
