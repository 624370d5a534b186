//! Sets.

ghost use Rattle.std.specs.Prelude.{◌≡◌, ◌+◌, ◌-◌, ◌<◌, ◌≤◌, ◌^◌, ◌∷◌, [], ◌&&◌, nat_lt, length, MatchOption};
ghost use Rattle.edi_word.specs.Sets.{word_has, words_with};
ghost use Rattle.edi_word.specs.SetWords.{AreSetWords};
ghost use Rattle.edi_store.specs.Memory.{words_at};
ghost use Rattle.edi_target.specs.Memory.{word};
ghost use Rattle.edi_target.specs.Effect.{Local, pop, pop_word, push, to, truth};
ghost use Rattle.edi_target.specs.Perform.{on_sets, joined};
ghost use Rattle.edi_machine.specs.Activities.{IsOrdered, local_of};
ghost use Rattle.edi_machine.specs.Operators.{set_by};
ghost use Rattle.edi_machine.specs.Steps.{Gives};

use crate::activity::Activity;
use crate::arithmetic::truth_word;
use crate::ends::StepEnd;
use crate::frame::{push_at, push_words_at, top_word};
use edi_calls::Cause;
use edi_store::Store;
use edi_word::Members;
use std::array;

// The eight words from an address on.
fn set_at(store: &Store, at: u32) -> [u16; 8]
    requires { at + 8 ≤ 2 ^ 16 }
    ensures exact { result ≡ words_at store.now at 8 }
    ensures set { AreSetWords result }
{
    let _whole = store.get(0);
    array::from_fn(|k| store.get((at as usize + k) as u16))
}

/// What is made of two sets.
#[derive(Clone, Copy)]
pub enum SetOperator {
    Union,
    Minus,
    Meet,
}

// The words of what the operator makes of two sets.
#[tactic(auto, using(crate::proofs::SetWords::union_words, crate::proofs::SetWords::minus_words, crate::proofs::SetWords::meet_words))]
fn set_words(operator: SetOperator, one: [u16; 8], other: [u16; 8]) -> [u16; 8]
    requires one { AreSetWords one }
    requires other { AreSetWords other }
    ensures { result ≡ set_by operator one other }
{
    let (one, other) = (Members::from_words(one), Members::from_words(other));
    match operator {
        SetOperator::Union => one.union(&other).words(),
        SetOperator::Minus => one.minus(&other).words(),
        SetOperator::Meet => one.meet(&other).words(),
    }
}

/// UNION, MINUS and MEET.
#[inline(never)]
pub fn combine(
    store: &mut Store,
    activity: &mut Activity,
    operator: SetOperator,
    next: u32,
) -> StepEnd
    requires ordered { IsOrdered activity.old }
    ensures exact { let l = local_of store.old activity.old in
        Gives (on_sets (set_by operator) next l) result l (local_of store.new activity.new) }
    ensures ordered { IsOrdered activity.new }
{
    if activity.top - activity.base < 21 {
        return StepEnd::Bad(activity.pc);
    }
    let one = set_at(store, activity.top - 8 - 8);
    let other = set_at(store, activity.top - 8);
    let words = set_words(operator, one, other);
    push_words_at(store, activity, activity.top - 8 - 8, &words, next)
}

// Whether the value of `int` that a word stands for is a member of the set of these words.
#[tactic(auto, using(crate::proofs::SetWords::has_word))]
fn has_word(set: [u16; 8], x: u16) -> bool
    requires set { AreSetWords set }
    ensures { result ≡ (nat_lt x 128 && word_has set x) }
{
    Members::from_words(set).has(x.cast_signed())
}

// The words of the set of these words with one more member.
#[tactic(auto, using(crate::proofs::SetWords::with_words))]
fn with_word(set: [u16; 8], x: u16) -> [u16; 8]
    requires set { AreSetWords set }
    requires member { x < 128 }
    ensures { result ≡ words_with set x }
{
    Members::from_words(set).with(x as u8).words()
}

/// IN.
#[inline(never)]
pub fn is_member(store: &mut Store, activity: &mut Activity, next: u32) -> StepEnd
    requires ordered { IsOrdered activity.old }
    ensures exact { let l = local_of store.old activity.old in
        Gives (pop 8 l (λ set l. pop_word l (λ x l. push (truth (nat_lt x 128 && word_has set x) ∷ []) l (to next)))) result l
        (local_of store.new activity.new) }
    ensures ordered { IsOrdered activity.new }
{
    if activity.top - activity.base < 14 {
        return StepEnd::Bad(activity.pc);
    }
    let set = set_at(store, activity.top - 8);
    let x = store.get((activity.top - 8 - 1) as u16);
    let has = truth_word(has_word(set, x));
    push_at(store, activity, activity.top - 8 - 1, has, next)
}

/// MEMBER.
#[inline(never)]
pub fn join(store: &mut Store, activity: &mut Activity, line: u16, next: u32) -> StepEnd
    requires ordered { IsOrdered activity.old }
    ensures exact { let l = local_of store.old activity.old in
        Gives (pop_word l (λ x l. pop 8 l (λ set l. joined line next x set l))) result l (local_of store.new activity.new) }
    ensures ordered { IsOrdered activity.new }
{
    if activity.top - activity.base < 14 {
        return StepEnd::Bad(activity.pc);
    }
    let x = store.get((activity.top - 1) as u16);
    if x > 127 {
        return StepEnd::Fail(Cause::Range, line);
    }
    let words = with_word(set_at(store, activity.top - 1 - 8), x);
    push_words_at(store, activity, activity.top - 1 - 8, &words, next)
}
