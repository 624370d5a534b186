//! Variables.

ghost use Rattle.std.specs.Prelude.{◌≡◌, ◌+◌, ◌-◌, ◌<◌, ◌≤◌, ◌∷◌, []};
ghost use Rattle.edi_store.specs.Memory.{words_at, written};
ghost use Rattle.edi_target.specs.Effect.{Local, pop, pop_word, push, to, within, goes};
ghost use Rattle.edi_machine.specs.Activities.{IsOrdered, local_of};
ghost use Rattle.edi_machine.specs.Plain.{Plainly};
ghost use Rattle.edi_machine.specs.Steps.{Gives};

use crate::activity::Activity;
use crate::ends::StepEnd;
use crate::frame::{push_below, top_two_words, top_word};
use edi_store::{MEMORY_WORDS, Store};

/// LOAD of one word.
#[inline(always)]
pub fn load_word(store: &mut Store, activity: &mut Activity, next: u32) -> StepEnd
    requires ordered { IsOrdered activity.old }
    ensures exact { let l = local_of store.old activity.old in
        Gives (pop_word l (λ x l. within x 1 (push (words_at l.memory x 1) l (to next)))) result l (local_of store.new activity.new) }
    ensures plain { Plainly 0 result activity.old activity.new }
    ensures ordered { IsOrdered activity.new }
{
    let Some(x) = top_word(store, activity) else {
        return StepEnd::Bad(activity.pc);
    };
    let word = store.get(x);
    push_below(store, activity, activity.top - 1, word, next)
}

/// LOAD.
#[tactic(auto, using(crate::proofs::Frames::words_at_length))]
#[inline(always)]
pub fn load(store: &mut Store, activity: &mut Activity, count: u16, next: u32) -> StepEnd
    requires ordered { IsOrdered activity.old }
    ensures exact { let l = local_of store.old activity.old in
        Gives (pop_word l (λ x l. within x count (push (words_at l.memory x count) l (to next)))) result l (local_of store.new activity.new) }
    ensures plain { Plainly 0 result activity.old activity.new }
    ensures ordered { IsOrdered activity.new }
{
    let Some(x) = top_word(store, activity) else {
        return StepEnd::Bad(activity.pc);
    };
    let (from, to, count) = (u32::from(x), activity.top - 1, u32::from(count));
    if from + count > MEMORY_WORDS {
        return StepEnd::Bad(activity.pc);
    }
    if to + count > activity.end {
        return StepEnd::Bad(activity.pc);
    }
    store.copy(from, to, count);
    activity.top = to + count;
    activity.pc = next;
    StepEnd::On
}

/// STORE of one word.
#[inline(always)]
pub fn keep_word(store: &mut Store, activity: &mut Activity, next: u32) -> StepEnd
    requires ordered { IsOrdered activity.old }
    ensures exact { let l = local_of store.old activity.old in
        Gives (pop 1 l (λ words l. pop_word l (λ x l. within x 1 (goes (record l { memory = written l.memory x words; pc = next }))))) result l
        (local_of store.new activity.new) }
    ensures plain { Plainly 0 result activity.old activity.new }
    ensures ordered { IsOrdered activity.new }
{
    let Some((x, word)) = top_two_words(store, activity) else {
        return StepEnd::Bad(activity.pc);
    };
    store.put(x, word);
    activity.top = activity.top - 1 - 1;
    activity.pc = next;
    StepEnd::On
}

/// STORE.
#[inline(always)]
pub fn keep(store: &mut Store, activity: &mut Activity, count: u16, next: u32) -> StepEnd
    requires ordered { IsOrdered activity.old }
    ensures exact { let l = local_of store.old activity.old in
        Gives (pop count l (λ words l. pop_word l (λ x l. within x count (goes (record l { memory = written l.memory x words; pc = next }))))) result l
        (local_of store.new activity.new) }
    ensures plain { Plainly 0 result activity.old activity.new }
    ensures ordered { IsOrdered activity.new }
{
    let count = u32::from(count);
    if activity.top - activity.base < count + 6 {
        return StepEnd::Bad(activity.pc);
    }
    let from = activity.top - count;
    let to = u32::from(store.get((from - 1) as u16));
    if to + count > MEMORY_WORDS {
        return StepEnd::Bad(activity.pc);
    }
    store.copy(from, to, count);
    activity.top = from - 1;
    activity.pc = next;
    StepEnd::On
}
