//! The frame of an activity as a stack of words.

ghost use Rattle.std.specs.Prelude.{◌≡◌, ◌+◌, ◌-◌, ◌<◌, ◌≤◌, ◌^◌, ◌∷◌, [], ℕ, length, nat_lt, IfSome, MatchOption};
ghost use Rattle.edi_store.specs.Memory.{written};
ghost use Rattle.edi_store.specs.Copied.{IsMemory};
ghost use Rattle.edi_target.specs.Memory.{word, level};
ghost use Rattle.edi_target.specs.Effect.{Local, goes, needs, push, to};
ghost use Rattle.edi_target.specs.Perform.{push_address};
ghost use Rattle.edi_machine.specs.Activities.{IsOrdered, local_of};
ghost use Rattle.edi_machine.specs.Plain.{Plainly};
ghost use Rattle.edi_machine.specs.Steps.{Gives};

use crate::activity::Activity;
use crate::ends::StepEnd;
use edi_store::Store;

/// The word on top, where the frame has one above its first five.
#[inline(always)]
pub fn top_word(store: &Store, activity: &Activity) -> Option<u16>
    requires ordered { IsOrdered activity.now }
    ensures top { let a = activity.now in MatchOption result (a.top < a.base + 6) (λ x. (a.base + 6 ≤ a.top) × (x ≡ word store.now (a.top - 1))) }
    ensures whole { IfSome result (λ _. IsMemory store.now) }
{
    if activity.top - activity.base < 6 {
        return None;
    }
    Some(store.get((activity.top - 1) as u16))
}

/// The second word from the top and the word on top, where the frame has two above its first five.
#[inline(always)]
pub fn top_two_words(store: &Store, activity: &Activity) -> Option<(u16, u16)>
    requires ordered { IsOrdered activity.now }
    ensures top { let a = activity.now in
        MatchOption result (a.top < a.base + 7) (λ r. (a.base + 7 ≤ a.top) × (r.0 ≡ word store.now (a.top - 1 - 1)) × (r.1 ≡ word store.now (a.top - 1))) }
{
    if activity.top - activity.base < 7 {
        return None;
    }
    let below = store.get((activity.top - 2) as u16);
    Some((below, store.get((activity.top - 1) as u16)))
}

/// Pushes a word where one was popped, at `top`: the frame has room for it. Goes on at `next`.
#[inline(always)]
pub fn push_below(
    store: &mut Store,
    activity: &mut Activity,
    top: u32,
    word: u16,
    next: u32,
) -> StepEnd
    requires ordered { IsOrdered activity.old }
    requires from { activity.old.base + 5 ≤ top }
    requires room { top < activity.old.end }
    ensures exact { let l = local_of store.old activity.old in
        Gives (push (word ∷ []) (record l { top = top }) (to next)) result l (local_of store.new activity.new) }
    ensures plain { Plainly 0 result activity.old activity.new }
    ensures ordered { IsOrdered activity.new }
{
    store.put(top as u16, word);
    activity.top = top + 1;
    activity.pc = next;
    StepEnd::On
}

/// Pushes a word onto the frame whose words from `top` on were popped, and goes on at `next`.
#[inline(always)]
pub fn push_at(
    store: &mut Store,
    activity: &mut Activity,
    top: u32,
    word: u16,
    next: u32,
) -> StepEnd
    requires ordered { IsOrdered activity.old }
    requires from { activity.old.base + 5 ≤ top }
    requires to { top ≤ activity.old.end }
    ensures exact { let l = local_of store.old activity.old in
        Gives (push (word ∷ []) (record l { top = top }) (to next)) result l (local_of store.new activity.new) }
    ensures plain { Plainly 0 result activity.old activity.new }
    ensures ordered { IsOrdered activity.new }
{
    if top >= activity.end {
        return StepEnd::Bad(activity.pc);
    }
    push_below(store, activity, top, word, next)
}

/// Pushes an address onto the frame whose words from `top` on were popped, and goes on at `next`.
#[inline(always)]
pub fn push_address_at(
    store: &mut Store,
    activity: &mut Activity,
    top: u32,
    address: u32,
    next: u32,
) -> StepEnd
    requires ordered { IsOrdered activity.old }
    requires from { activity.old.base + 5 ≤ top }
    requires to { top ≤ activity.old.end }
    ensures exact { let l = local_of store.old activity.old in
        Gives (push_address address next (record l { top = top })) result l (local_of store.new activity.new) }
    ensures plain { Plainly 0 result activity.old activity.new }
    ensures ordered { IsOrdered activity.new }
{
    if address > 65_535 {
        return StepEnd::Bad(activity.pc);
    }
    push_at(store, activity, top, address as u16, next)
}

/// Writes words from `at` on.
pub fn put_words(store: &mut Store, at: u32, words: &[u16])
    requires within { at + length words.now ≤ 2 ^ 16 }
    ensures exact { store.new ≡ written store.old at words.now }
    ensures was_whole { IsMemory store.old }
    ensures whole { IsMemory store.new }
{
    let _whole = store.get(0);
    for (i, word) in words.iter().enumerate() {
        store.put((at as usize + i) as u16, *word);
    }
}

/// Pushes words, and goes on at `next`.
pub fn push_words_at(
    store: &mut Store,
    activity: &mut Activity,
    top: u32,
    words: &[u16],
    next: u32,
) -> StepEnd
    requires ordered { IsOrdered activity.old }
    requires from { activity.old.base + 5 ≤ top }
    requires to { top ≤ activity.old.end }
    requires few { length words.now < 2 ^ 16 }
    ensures exact { let l = local_of store.old activity.old in
        Gives (push words.now (record l { top = top }) (to next)) result l (local_of store.new activity.new) }
    ensures ordered { IsOrdered activity.new }
{
    let count = words.len() as u32;
    if count > activity.end - top {
        return StepEnd::Bad(activity.pc);
    }
    put_words(store, top, words);
    activity.top = top + count;
    activity.pc = next;
    StepEnd::On
}

/// The base of the frame to which so many static links lead from the frame at `base`. Most often there is one.
#[inline(always)]
pub fn level_base(store: &Store, count: u16, base: u16) -> u16
    ensures { result ≡ level store.now count base }
{
    match count {
        1 => store.get(base),
        _ => far_level_base(store, count, base),
    }
}

// The same, link by link.
#[inline(always)]
fn far_level_base(store: &Store, count: u16, base: u16) -> u16
    ensures { result ≡ level store.now count base }
{
    let mut at = base;
    for _ in 0..count {
        at = store.get(at);
    }
    at
}
