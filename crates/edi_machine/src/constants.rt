//! Constants and addresses.

ghost use Rattle.std.specs.Prelude.{◌≡◌, ◌+◌, ◌-◌, ◌*◌, ◌<◌, ◌≤◌, ◌≤ℤ◌, ◌-ℤ◌, nat_abs, ◌^◌, ◌∷◌, [], length, replicate};
ghost use Rattle.edi_word.specs.Words.{signed};
ghost use Rattle.edi_target.specs.Memory.{level};
ghost use Rattle.edi_target.specs.Op.{high_word, low_word};
ghost use Rattle.edi_target.specs.Effect.{Local, pop_word, push, to};
ghost use Rattle.edi_target.specs.Perform.{element, push_address, checked};
ghost use Rattle.edi_target.specs.Effect.{look};
ghost use Rattle.edi_machine.specs.Activities.{IsOrdered, local_of};
ghost use Rattle.edi_machine.specs.Plain.{Plainly};
ghost use Rattle.edi_machine.specs.Steps.{Gives};

use crate::activity::Activity;
use crate::ends::StepEnd;
use crate::frame::{level_base, push_address_at, push_at, push_words_at, top_two_words, top_word};
use edi_calls::Cause;
use edi_store::Store;

/// CONST.
#[inline(always)]
pub fn constant(store: &mut Store, activity: &mut Activity, value: u16, next: u32) -> StepEnd
    requires ordered { IsOrdered activity.old }
    ensures exact { let l = local_of store.old activity.old in
        Gives (push (value ∷ []) l (to next)) result l (local_of store.new activity.new) }
    ensures plain { Plainly 0 result activity.old activity.new }
    ensures ordered { IsOrdered activity.new }
{
    push_at(store, activity, activity.top, value, next)
}

/// TEXT.
#[inline(never)]
pub fn text(store: &mut Store, activity: &mut Activity, words: &[u16], next: u32) -> StepEnd
    requires ordered { IsOrdered activity.old }
    requires few { length words.now < 2 ^ 16 }
    ensures exact { let l = local_of store.old activity.old in
        Gives (push words.now l (to next)) result l (local_of store.new activity.new) }
    ensures ordered { IsOrdered activity.new }
{
    push_words_at(store, activity, activity.top, words, next)
}

/// ZEROS.
#[inline(never)]
pub fn zeros(store: &mut Store, activity: &mut Activity, count: u16, next: u32) -> StepEnd
    requires ordered { IsOrdered activity.old }
    ensures exact { let l = local_of store.old activity.old in
        Gives (push (replicate count 0) l (to next)) result l (local_of store.new activity.new) }
    ensures ordered { IsOrdered activity.new }
{
    let count = u32::from(count);
    if count > activity.end - activity.top {
        return StepEnd::Bad(activity.pc);
    }
    store.clear(activity.top, count);
    activity.top += count;
    activity.pc = next;
    StepEnd::On
}

/// ADDRESS.
#[inline(always)]
pub fn frame_address(
    store: &mut Store,
    activity: &mut Activity,
    count: u16,
    offset: u16,
    next: u32,
) -> StepEnd
    requires ordered { IsOrdered activity.old }
    ensures exact { let l = local_of store.old activity.old in
        Gives (push_address (level l.memory count l.base + offset) next l) result l (local_of store.new activity.new) }
    ensures plain { Plainly 0 result activity.old activity.new }
    ensures ordered { IsOrdered activity.new }
{
    let base = level_base(store, count, activity.base as u16);
    let address = u32::from(base) + u32::from(offset);
    push_address_at(store, activity, activity.top, address, next)
}

/// FIELD.
#[inline(always)]
pub fn field_address(store: &mut Store, activity: &mut Activity, offset: u16, next: u32) -> StepEnd
    requires ordered { IsOrdered activity.old }
    ensures exact { let l = local_of store.old activity.old in
        Gives (pop_word l (λ x l. push_address (x + offset) next l)) result l (local_of store.new activity.new) }
    ensures plain { Plainly 0 result activity.old activity.new }
    ensures ordered { IsOrdered activity.new }
{
    match top_word(store, activity) {
        Some(x) => {
            let address = u32::from(x) + u32::from(offset);
            push_address_at(store, activity, activity.top - 1, address, next)
        }
        None => StepEnd::Bad(activity.pc),
    }
}

// An index, counted from `low`.
#[inline(always)]
fn from_low(index: i16, low: i16) -> u32
    requires { low ≤ℤ index }
    ensures exact { result ≡ nat_abs (index -ℤ low) }
    ensures small { result < 2 ^ 16 }
{
    (i32::from(index) - i32::from(low)) as u32
}

/// INDEX, of bounds `low` to `high`.
#[inline(always)]
pub fn element_address(
    store: &mut Store,
    activity: &mut Activity,
    low: i16,
    high: i16,
    size: u16,
    line: u16,
    next: u32,
) -> StepEnd
    requires ordered { IsOrdered activity.old }
    ensures exact { let l = local_of store.old activity.old in
        Gives (pop_word l (λ i l. pop_word l (λ x l. element low high size line next x (signed i) l))) result l (local_of store.new activity.new) }
    ensures plain { Plainly 0 result activity.old activity.new }
    ensures ordered { IsOrdered activity.new }
{
    let Some((x, i)) = top_two_words(store, activity) else {
        return StepEnd::Bad(activity.pc);
    };
    let index = i.cast_signed();
    if index < low || index > high {
        return StepEnd::Fail(Cause::Range, line);
    }
    let address = u32::from(x) + from_low(index, low) * u32::from(size);
    push_address_at(store, activity, activity.top - 1 - 1, address, next)
}

/// CHECK.
#[inline(always)]
pub fn check(
    store: &mut Store,
    activity: &mut Activity,
    low: i16,
    high: i16,
    line: u16,
    next: u32,
) -> StepEnd
    requires ordered { IsOrdered activity.old }
    ensures exact { let l = local_of store.old activity.old in
        Gives (look l (λ x. checked low high line next (signed x) l)) result l (local_of store.new activity.new) }
    ensures plain { Plainly 0 result activity.old activity.new }
    ensures ordered { IsOrdered activity.new }
{
    let Some(x) = top_word(store, activity) else {
        return StepEnd::Bad(activity.pc);
    };
    let index = x.cast_signed();
    if index < low || index > high {
        return StepEnd::Fail(Cause::Range, line);
    }
    activity.pc = next;
    StepEnd::On
}

/// PROC.
#[inline(never)]
pub fn descriptor(
    store: &mut Store,
    activity: &mut Activity,
    count: u16,
    target: u32,
    next: u32,
) -> StepEnd
    requires ordered { IsOrdered activity.old }
    ensures exact { let l = local_of store.old activity.old in
        Gives (push (high_word target ∷ low_word target ∷ level l.memory count l.base ∷ []) l (to next)) result l (local_of store.new activity.new) }
    ensures ordered { IsOrdered activity.new }
{
    let link = level_base(store, count, activity.base as u16);
    let words = [(target / 65_536) as u16, (target % 65_536) as u16, link];
    push_words_at(store, activity, activity.top, &words, next)
}
