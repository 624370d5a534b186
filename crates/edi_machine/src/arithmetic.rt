//! Arithmetic of integers, and `not`.

ghost use Rattle.std.specs.Prelude.{◌≡◌, ◌+◌, ◌-◌, ◌<◌, ◌≤◌, ◌∷◌, [], nat_eq, MatchOption};
ghost use Rattle.std.specs.Option.{option_map};
ghost use Rattle.edi_word.specs.Words.{signed, unsigned, on_words, word_sub};
ghost use Rattle.edi_target.specs.Memory.{word};
ghost use Rattle.edi_target.specs.Effect.{Local, in_range, pop_word, push, to, truth};
ghost use Rattle.edi_target.specs.Perform.{arithmetic};
ghost use Rattle.edi_machine.specs.Activities.{IsOrdered, local_of};
ghost use Rattle.edi_machine.specs.Operators.{integer_by};
ghost use Rattle.edi_machine.specs.Plain.{Plainly};
ghost use Rattle.edi_machine.specs.Steps.{Gives};

use crate::activity::Activity;
use crate::ends::StepEnd;
use crate::frame::{push_below, top_two_words, top_word};
use edi_calls::Cause;
use edi_store::Store;

/// What is made of two integers.
#[derive(Clone, Copy)]
pub enum Operator {
    Add,
    Sub,
    Mul,
    Div,
    Mod,
}

// The integer that the operator makes of two, where it has one of a word.
#[inline(always)]
fn result_of(operator: Operator, x: i16, y: i16) -> Option<i16>
    ensures { result ≡ integer_by operator x y }
{
    match operator {
        Operator::Add => edi_word::add(x, y),
        Operator::Sub => edi_word::sub(x, y),
        Operator::Mul => edi_word::mul(x, y),
        Operator::Div => edi_word::div(x, y),
        Operator::Mod => edi_word::modulo(x, y),
    }
}

/// 1 for true and 0 for false.
#[inline(always)]
pub fn truth_word(b: bool) -> u16
    ensures { result ≡ truth b }
{
    if b { 1 } else { 0 }
}

/// The integers that the two words on top stand for, the upper one behind the lower one.
#[inline(always)]
pub fn top_two_integers(store: &Store, activity: &Activity) -> Option<(i16, i16)>
    requires ordered { IsOrdered activity.now }
    ensures top { let a = activity.now in
        MatchOption result (a.top < a.base + 7) (λ r. (a.base + 7 ≤ a.top) × (r.0 ≡ signed (word store.now (a.top - 1 - 1)))
        × (r.1 ≡ signed (word store.now (a.top - 1)))) }
{
    match top_two_words(store, activity) {
        Some((x, y)) => Some((x.cast_signed(), y.cast_signed())),
        None => None,
    }
}

// Pushes the word of a result in place of the two words on top, or fails where there is no result.
#[inline(always)]
fn put_result(
    store: &mut Store,
    activity: &mut Activity,
    value: Option<i16>,
    line: u16,
    next: u32,
) -> StepEnd
    requires ordered { IsOrdered activity.old }
    requires two { activity.old.base + 7 ≤ activity.old.top }
    ensures exact { let l = local_of store.old activity.old in
        Gives (in_range line (option_map unsigned value) (λ z. push (z ∷ []) (record l { top = l.top - 1 - 1 }) (to next))) result l
        (local_of store.new activity.new) }
    ensures plain { Plainly 0 result activity.old activity.new }
    ensures ordered { IsOrdered activity.new }
{
    match value {
        None => StepEnd::Fail(Cause::Range, line),
        Some(z) => push_below(
            store,
            activity,
            activity.top - 1 - 1,
            z.cast_unsigned(),
            next,
        ),
    }
}

/// ADD, SUB, MUL, DIV and MOD.
#[inline(always)]
pub fn calculate(
    store: &mut Store,
    activity: &mut Activity,
    operator: Operator,
    line: u16,
    next: u32,
) -> StepEnd
    requires ordered { IsOrdered activity.old }
    ensures exact { let l = local_of store.old activity.old in
        Gives (arithmetic (on_words (integer_by operator)) line next l) result l (local_of store.new activity.new) }
    ensures plain { Plainly 0 result activity.old activity.new }
    ensures ordered { IsOrdered activity.new }
{
    match top_two_integers(store, activity) {
        Some((x, y)) => put_result(store, activity, result_of(operator, x, y), line, next),
        None => StepEnd::Bad(activity.pc),
    }
}

/// NEG.
#[inline(always)]
pub fn negation(store: &mut Store, activity: &mut Activity, line: u16, next: u32) -> StepEnd
    requires ordered { IsOrdered activity.old }
    ensures exact { let l = local_of store.old activity.old in
        Gives (pop_word l (λ x l. in_range line (word_sub 0 x) (λ z. push (z ∷ []) l (to next)))) result l (local_of store.new activity.new) }
    ensures plain { Plainly 0 result activity.old activity.new }
    ensures ordered { IsOrdered activity.new }
{
    let Some(x) = top_word(store, activity) else {
        return StepEnd::Bad(activity.pc);
    };
    match edi_word::sub(0, x.cast_signed()) {
        None => StepEnd::Fail(Cause::Range, line),
        Some(z) => push_below(store, activity, activity.top - 1, z.cast_unsigned(), next),
    }
}

/// NOT.
#[inline(always)]
pub fn other_truth(store: &mut Store, activity: &mut Activity, next: u32) -> StepEnd
    requires ordered { IsOrdered activity.old }
    ensures exact { let l = local_of store.old activity.old in
        Gives (pop_word l (λ x l. push (truth (nat_eq x 0) ∷ []) l (to next))) result l (local_of store.new activity.new) }
    ensures plain { Plainly 0 result activity.old activity.new }
    ensures ordered { IsOrdered activity.new }
{
    match top_word(store, activity) {
        Some(x) => push_below(store, activity, activity.top - 1, truth_word(x == 0), next),
        None => StepEnd::Bad(activity.pc),
    }
}
