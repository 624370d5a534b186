//! Calls of procedures, and returns from them.

ghost use Rattle.std.specs.Prelude.{◌≡◌, Some, ◌+◌, ◌-◌, ◌<◌, ◌≤◌, ◌^◌, ◌++◌, if◌then◌else◌, nat_eq, length, replicate};
ghost use Rattle.edi_store.specs.Memory.{words_at, written};
ghost use Rattle.edi_store.specs.Copied.{IsMemory};
ghost use Rattle.edi_target.specs.Op as op;
ghost use Rattle.edi_target.specs.Fetch.{fetch};
ghost use Rattle.edi_target.specs.Memory.{level, word};
ghost use Rattle.edi_target.specs.Effect.{Local, due, enter, finishing, frame_words, needs};
ghost use Rattle.edi_target.specs.Perform.{leave};
ghost use Rattle.edi_machine.specs.Activities.{IsOrdered, local_of};
ghost use Rattle.edi_machine.specs.Plain.{Looped};
ghost use Rattle.edi_machine.specs.Steps.{Gives};

use crate::activity::Activity;
use crate::ends::{StepEnd, TurnKind};
use crate::frame::{level_base, put_words};
use crate::instruction::{code_address, instruction_at};
use edi_calls::Cause;
use edi_store::{MEMORY_WORDS, Store};
use edi_target::Op;

/// What an ENTRY says of its block, and the address behind it.
#[derive(Clone, Copy)]
pub struct Block {
    pub need: u32,
    pub results: u32,
    pub parameters: u32,
    pub variables: u32,
    pub function: u16,
    pub body: u32,
}

// Writes a new frame of `need` words at `at`, for a block that is called from the frame at `base`, whose words above `top`
// are its arguments, and that returns to the address `back`.
fn put_frame(store: &mut Store, at: u32, block: Block, link: u16, base: u32, back: u32, top: u32)
    requires base { base < 2 ^ 16 }
    requires arguments { top + block.parameters ≤ at }
    requires fits { 5 + block.results + block.parameters ≤ block.need }
    requires within { at + block.need ≤ 2 ^ 16 }
    ensures exact { store.new ≡ written store.old at
        (frame_words link base back top block.results (words_at store.old top block.parameters)
        ++ replicate (block.need - (5 + block.results + block.parameters)) 0) }
{
    let first_words = [
        link,
        base as u16,
        (back / 65_536) as u16,
        (back % 65_536) as u16,
        top as u16,
    ];
    let rest = 5 + block.results + block.parameters;
    put_words(store, at, &first_words);
    store.clear(at + 5, block.results);
    store.copy(top, at + 5 + block.results, block.parameters);
    store.clear(at + 5 + block.results + block.parameters, block.need - rest);
}

/// Enters the block of an ENTRY with this static link.
#[inline(always)]
pub fn enter_block(
    store: &mut Store,
    activity: &mut Activity,
    block: Block,
    link: u16,
    line: u16,
    next: u32,
) -> StepEnd
    requires ordered { IsOrdered activity.old }
    requires fits { 5 + block.results + block.parameters + block.variables ≤ block.need }
    requires small { block.need < 2 ^ 16 }
    requires function { block.function ≤ 1 }
    ensures exact { let l = local_of store.old activity.old in
        let entry = op.entry block.need block.results block.parameters block.variables block.function in
        Gives (enter (Some (entry, block.body)) link next line l) result l (local_of store.new activity.new) }
    ensures looped { Looped 1 result activity.old activity.new }
    ensures ordered { IsOrdered activity.new }
{
    if block.function == 1 && activity.held == u16::MAX {
        return StepEnd::Bad(activity.pc);
    }
    if activity.top - activity.base - 5 < block.parameters {
        return StepEnd::Bad(activity.pc);
    }
    if activity.segment.last - activity.end < block.need {
        return StepEnd::Fail(Cause::VariableLimit, line);
    }
    let at = activity.end;
    let top = activity.top - block.parameters;
    put_frame(store, at, block, link, activity.base, next, top);
    activity.base = at;
    activity.end = at + block.need;
    activity.top = at + (5 + block.results + block.parameters + block.variables);
    activity.pc = block.body;
    activity.held += block.function;
    StepEnd::Turn(TurnKind::Enter)
}

/// Enters the block of the ENTRY at `target` with this static link.
#[inline(never)]
pub fn enter(
    store: &mut Store,
    activity: &mut Activity,
    words: &[u16],
    target: u32,
    link: u16,
    line: u16,
    next: u32,
) -> StepEnd
    requires size { length words.now < 2 ^ 32 }
    requires ordered { IsOrdered activity.old }
    ensures exact { let l = local_of store.old activity.old in
        Gives (enter (fetch words.now target) link next line l) result l (local_of store.new activity.new) }
    ensures ordered { IsOrdered activity.new }
{
    match instruction_at(words, target) {
        Some(
            (
                Op::Entry {
                    need,
                    results,
                    parameters,
                    variables,
                    function,
                },
                body,
            ),
        ) => {
            let block = Block {
                need: u32::from(need),
                results: u32::from(results),
                parameters: u32::from(parameters),
                variables: u32::from(variables),
                function,
                body,
            };
            enter_block(store, activity, block, link, line, next)
        }
        _ => StepEnd::Bad(activity.pc),
    }
}

/// CALL.
#[inline(always)]
pub fn call(
    store: &mut Store,
    activity: &mut Activity,
    words: &[u16],
    count: u16,
    target: u32,
    line: u16,
    next: u32,
) -> StepEnd
    requires size { length words.now < 2 ^ 32 }
    requires ordered { IsOrdered activity.old }
    ensures exact { let l = local_of store.old activity.old in
        Gives (enter (fetch words.now target) (level l.memory count l.base) next line l) result l (local_of store.new activity.new) }
    ensures ordered { IsOrdered activity.new }
{
    let link = level_base(store, count, activity.base as u16);
    enter(store, activity, words, target, link, line, next)
}

/// Leaves a frame that is not the first of its process.
#[inline(always)]
pub fn leave_frame(
    store: &mut Store,
    activity: &mut Activity,
    results: u32,
    function: u16,
) -> StepEnd
    requires ordered { IsOrdered activity.old }
    requires results { results < 2 ^ 16 }
    ensures exact { let l = local_of store.old activity.old in
        Gives (leave results function (word l.memory (l.base + 1)) (word l.memory (l.base + 4)) l) result l (local_of store.new activity.new) }
    ensures looped { Looped 1 result activity.old activity.new }
    ensures ordered { IsOrdered activity.new }
{
    let at = activity.base;
    let base = u32::from(store.get((at + 1) as u16));
    let top = u32::from(store.get((at + 4) as u16));
    if base < activity.segment.first {
        return StepEnd::Bad(activity.pc);
    }
    if top < base + 5 {
        return StepEnd::Bad(activity.pc);
    }
    if at < top + results {
        return StepEnd::Bad(activity.pc);
    }
    if activity.held < function {
        return StepEnd::Bad(activity.pc);
    }
    if at + 5 + results > MEMORY_WORDS {
        return StepEnd::Bad(activity.pc);
    }
    let back = code_address(store.get((at + 2) as u16), store.get((at + 3) as u16));
    store.copy(at + 5, top, results);
    activity.base = base;
    activity.end = at;
    activity.top = top + results;
    activity.pc = back;
    activity.held -= function;
    StepEnd::Turn(TurnKind::End)
}

/// RETURN. `first` tells whether this is the program's first process.
#[inline(always)]
pub fn leave_block(
    store: &mut Store,
    activity: &mut Activity,
    first: bool,
    results: u16,
    function: u16,
) -> StepEnd
    requires ordered { IsOrdered activity.old }
    ensures exact { let l = local_of store.old activity.old in
        let x = word l.memory (l.base + 1) in
        let t = word l.memory (l.base + 4) in
        Gives (if nat_eq l.base l.first then needs first (due finishing l) else leave results function x t l) result l (local_of store.new activity.new) }
    ensures ordered { IsOrdered activity.new }
{
    if activity.base != activity.segment.first {
        return leave_frame(store, activity, u32::from(results), function);
    }
    if first {
        StepEnd::Turn(TurnKind::ProgramEnd)
    } else {
        StepEnd::Bad(activity.pc)
    }
}
