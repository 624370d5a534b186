//! System calls.

ghost use Rattle.std.specs.Prelude.{◌≡◌, ◌+◌, ◌<◌, ◌≤◌, ◌^◌, ◌∷◌, [], ℕ, true, None, length, take};
ghost use Rattle.edi_told.specs.Told.{WhereTold};
ghost use Rattle.edi_calls.specs.declared.ends.Outside.{Outside};
ghost use Rattle.edi_calls.specs.Calls.{argument_words, answer_words, call};
ghost use Rattle.edi_calls.specs.Ends.{IsUsed, MayEnd, Meets};
ghost use Rattle.edi_calls.specs.Ends as ends;
ghost use Rattle.edi_store.specs.Memory.{words_at};
ghost use Rattle.edi_store.specs.Copied.{IsMemory};
ghost use Rattle.edi_target.specs.Effect.{Local, asks, pop};
ghost use Rattle.edi_target.specs.Fetch.{fetch};
ghost use Rattle.edi_target.specs.Op as op;
ghost use Rattle.edi_target.specs.Perform.{perform, system_call};
ghost use Rattle.edi_machine.specs.Activities.{IsOrdered, local_of};
ghost use Rattle.edi_machine.specs.Steps.{Blames, HasAnswer, Keeps, Takes, UsesFailed, answered_at};

use crate::activity::Activity;
use crate::ends::StepEnd;
use crate::frame::{level_base, top_word};
use crate::instruction::code_address;
use crate::procedures::enter;
use edi_calls::{CallEnd, Calls, Cause, words_of};
use edi_store::{MEMORY_WORDS, Store};

// The `count` words from `at` on, and zeros behind them.
fn arguments_at(store: &Store, at: u32, count: usize) -> [u16; 12]
    requires few { count ≤ 12 }
    requires within { at + count ≤ 2 ^ 16 }
    ensures { take count result ≡ words_at store.now at count }
{
    let _whole = store.get(0);
    let mut words = [0; 12];
    for i in 0..count {
        words[i] = store.get((at as usize + i) as u16);
    }
    words
}

/// How a system call ended, with its answer word, which says nothing where the call has none.
#[derive(Drop)]
struct Made {
    end: CallEnd,
    word: u16,
}

// Makes a system call.
fn make_call<C: Calls>(calls: &mut C, number: u8, arguments: &[u16]) -> Made
    requires from { 1 ≤ number }
    requires to { number ≤ 10 }
    requires arguments { length arguments.now ≡ argument_words number }
    requires working { C.failed calls.old None }
    ensures exact { WhereTold (C.state calls.old) (C.state calls.new)
        (λ s t. Meets (call number arguments.now s) result.end (take (answer_words number) (result.word ∷ [])) s t) }
    ensures may { MayEnd number result.end (take (answer_words number) (result.word ∷ [])) }
    ensures later { (outside : Outside) → C.faults calls.old outside ≤ C.faults calls.new outside }
    ensures blame { ends.Blames result.end (C.failed calls.new) (C.faults calls.old) (C.faults calls.new) }
    ensures used { IsUsed number (C.failed calls.new) }
    ensures references { C.references calls.new ≡ C.references calls.old }
    ensures leads { (start : C) → C.leads start calls.old → C.leads start calls.new }
{
    let (_, answers) = words_of(number);
    let mut answer = [0; 1];
    if answers == 0 {
        let end = calls.call(number, arguments, &mut answer[..0]);
        return Made { end, word: 0 };
    }
    let end = calls.call(number, arguments, &mut answer);
    let word = answer[0];
    Made { end, word }
}

// Stores an answer word at the address for it, where the call has an answer.
fn put_answer(store: &mut Store, number: u8, address: Option<u16>, word: u16)
    requires answer { HasAnswer address number }
    ensures exact { store.new ≡ answered_at address store.old (take (answer_words number) (word ∷ [])) }
{
    if let Some(address) = address {
        store.put(address, word);
    }
}

// Makes a system call whose arguments are the words below `top`, and keeps its answer at the address for it.
fn ask<C: Calls>(
    store: &mut Store,
    activity: &mut Activity,
    number: u8,
    address: Option<u16>,
    top: u32,
    line: u16,
    next: u32,
    calls: &mut C,
) -> StepEnd
    requires from { 1 ≤ number }
    requires to { number ≤ 10 }
    requires answer { HasAnswer address number }
    requires ordered { IsOrdered activity.old }
    requires frame { activity.old.base + 5 ≤ top }
    requires within { top ≤ activity.old.top }
    requires working { C.failed calls.old None }
    ensures exact { let l = local_of store.old activity.old in
        Takes (pop (argument_words number) (record l { top = top }) (λ arguments m. asks number arguments address line (record m { pc = next })))
        result l (local_of store.new activity.new) (C.state calls.old) (C.state calls.new) }
    ensures keeps { let l = local_of store.old activity.old in
        Keeps (pop (argument_words number) (record l { top = top }) (λ arguments m. asks number arguments address line (record m { pc = next }))) calls.old
        calls.new }
    ensures later { (outside : Outside) → C.faults calls.old outside ≤ C.faults calls.new outside }
    ensures blame { Blames result (C.failed calls.new) (C.faults calls.old) (C.faults calls.new) }
    ensures used { let l = local_of store.old activity.old in
        UsesFailed (pop (argument_words number) (record l { top = top }) (λ arguments m. asks number arguments address line (record m { pc = next })))
        (C.failed calls.new) }
    ensures references { C.references calls.new ≡ C.references calls.old }
    ensures leads { (start : C) → C.leads start calls.old → C.leads start calls.new }
    ensures ordered { IsOrdered activity.new }
{
    let (count, _) = words_of(number);
    let size = count as u32;
    if top - activity.base - 5 < size {
        return StepEnd::Bad(activity.pc);
    }
    let at = top - size;
    let arguments = arguments_at(store, at, count);
    let made = make_call(calls, number, &arguments[..count]);
    match made.end {
        CallEnd::Ok => {
            put_answer(store, number, address, made.word);
            activity.top = at;
            activity.pc = next;
            StepEnd::On
        }
        CallEnd::NoFile => StepEnd::Fail(Cause::NoFile, line),
        CallEnd::FileLimit => StepEnd::Fail(Cause::FileLimit, line),
        CallEnd::OutsideFault => StepEnd::Fault,
    }
}

/// The system call of this number, where it is the number of one.
pub fn system_call<C: Calls>(
    store: &mut Store,
    activity: &mut Activity,
    number: u16,
    line: u16,
    next: u32,
    calls: &mut C,
) -> StepEnd
    requires ordered { IsOrdered activity.old }
    requires working { C.failed calls.old None }
    ensures exact { let l = local_of store.old activity.old in
        Takes (system_call number line next l) result l (local_of store.new activity.new) (C.state calls.old) (C.state calls.new) }
    ensures keeps { Keeps (system_call number line next (local_of store.old activity.old)) calls.old calls.new }
    ensures later { (outside : Outside) → C.faults calls.old outside ≤ C.faults calls.new outside }
    ensures blame { Blames result (C.failed calls.new) (C.faults calls.old) (C.faults calls.new) }
    ensures used { UsesFailed (system_call number line next (local_of store.old activity.old)) (C.failed calls.new) }
    ensures references { C.references calls.new ≡ C.references calls.old }
    ensures leads { (start : C) → C.leads start calls.old → C.leads start calls.new }
    ensures ordered { IsOrdered activity.new }
{
    if number < 1 || number > 10 {
        return StepEnd::Bad(activity.pc);
    }
    let number = number as u8;
    let (_, answers) = words_of(number);
    if answers == 0 {
        return ask(
            store,
            activity,
            number,
            None,
            activity.top,
            line,
            next,
            calls,
        );
    }
    let Some(address) = top_word(store, activity) else {
        return StepEnd::Bad(activity.pc);
    };
    ask(
        store,
        activity,
        number,
        Some(address),
        activity.top - 1,
        line,
        next,
        calls,
    )
}

/// CALLP: by the descriptor at this offset of a frame, a system call, or the entry of a block.
#[inline(never)]
pub fn call_described<C: Calls>(
    store: &mut Store,
    activity: &mut Activity,
    words: &[u16],
    count: u16,
    offset: u16,
    line: u16,
    next: u32,
    calls: &mut C,
) -> StepEnd
    requires size { length words.now < 2 ^ 32 }
    requires ordered { IsOrdered activity.old }
    requires working { C.failed calls.old None }
    ensures exact { let l = local_of store.old activity.old in
        let effect = perform (fetch words.now) 0 true (op.call_p count offset line) next l in
        Takes effect result l (local_of store.new activity.new) (C.state calls.old) (C.state calls.new) }
    ensures keeps { let l = local_of store.old activity.old in
        Keeps (perform (fetch words.now) 0 true (op.call_p count offset line) next l) calls.old calls.new }
    ensures later { (outside : Outside) → C.faults calls.old outside ≤ C.faults calls.new outside }
    ensures blame { Blames result (C.failed calls.new) (C.faults calls.old) (C.faults calls.new) }
    ensures used { let l = local_of store.old activity.old in
        UsesFailed (perform (fetch words.now) 0 true (op.call_p count offset line) next l) (C.failed calls.new) }
    ensures references { C.references calls.new ≡ C.references calls.old }
    ensures leads { (start : C) → C.leads start calls.old → C.leads start calls.new }
    ensures ordered { IsOrdered activity.new }
{
    let base = level_base(store, count, activity.base as u16);
    let at = u32::from(base) + u32::from(offset);
    if at + 3 > MEMORY_WORDS {
        return StepEnd::Bad(activity.pc);
    }
    let first = store.get(at as u16);
    let second = store.get((at + 1) as u16);
    let third = store.get((at + 2) as u16);
    if first == u16::MAX {
        return system_call(store, activity, second, line, next, calls);
    }
    let target = code_address(first, second);
    enter(store, activity, words, target, third, line, next)
}
