//! Comparisons.

ghost use Rattle.std.specs.Prelude.{◌≡◌, ◌+◌, ◌-◌, ◌<◌, ◌≤◌, not, if◌then◌else◌, MatchOption};
ghost use Rattle.std.specs.Str.{bytes_eq};
ghost use Rattle.edi_store.specs.Memory.{words_at};
ghost use Rattle.edi_target.specs.Effect.{Local};
ghost use Rattle.edi_target.specs.Perform.{comparison, equality};
ghost use Rattle.edi_machine.specs.Activities.{IsOrdered, local_of};
ghost use Rattle.edi_machine.specs.Operators.{same_as, stands_in};
ghost use Rattle.edi_machine.specs.Plain.{Plainly};
ghost use Rattle.edi_machine.specs.Steps.{Gives};

use crate::activity::Activity;
use crate::arithmetic::{top_two_integers, truth_word};
use crate::ends::StepEnd;
use crate::frame::{push_at, push_below};
use edi_store::Store;

/// An order in which two integers may stand.
#[derive(Clone, Copy)]
pub enum Order {
    Below,
    AtMost,
    Above,
    AtLeast,
}

// Whether two integers stand in this order.
#[inline(always)]
fn stand_in(order: Order, x: i16, y: i16) -> bool
    ensures { result ≡ stands_in order x y }
{
    match order {
        Order::Below => x < y,
        Order::AtMost => x <= y,
        Order::Above => x > y,
        Order::AtLeast => x >= y,
    }
}

/// LT, LE, GT and GE.
#[inline(always)]
pub fn compare(store: &mut Store, activity: &mut Activity, order: Order, next: u32) -> StepEnd
    requires ordered { IsOrdered activity.old }
    ensures exact { let l = local_of store.old activity.old in
        Gives (comparison (stands_in order) next l) result l (local_of store.new activity.new) }
    ensures plain { Plainly 0 result activity.old activity.new }
    ensures ordered { IsOrdered activity.new }
{
    match top_two_integers(store, activity) {
        Some((x, y)) => push_below(
            store,
            activity,
            activity.top - 1 - 1,
            truth_word(stand_in(order, x, y)),
            next,
        ),
        None => StepEnd::Bad(activity.pc),
    }
}

// Whether the two values of `count` words on top are equal, where the frame has them above its first five.
#[inline(never)]
fn top_two_are_equal(store: &Store, activity: Activity, count: u16) -> Option<bool>
    requires ordered { IsOrdered activity }
    ensures top { let a = activity in
        MatchOption result (a.top < a.base + 5 + count + count)
        (λ r. (a.base + 5 + count + count ≤ a.top)
        × (r ≡ bytes_eq (words_at store.now (a.top - count - count) count) (words_at store.now (a.top - count) count))) }
{
    let count = u32::from(count);
    if activity.top - activity.base - 5 < count + count {
        return None;
    }
    let at = activity.top - count;
    Some(store.equal(at - count, at, count))
}

// Whether two values are as they are wanted, equal or different, where `same` tells whether they are equal.
#[inline(always)]
fn is_wanted(same: bool, wanted: bool) -> bool
    ensures { result ≡ (if wanted then same else not same) }
{
    if wanted { same } else { !same }
}

/// EQ, where equal values are wanted, and NE.
#[inline(always)]
pub fn compare_values(
    store: &mut Store,
    activity: &mut Activity,
    count: u16,
    wanted: bool,
    next: u32,
) -> StepEnd
    requires ordered { IsOrdered activity.old }
    ensures exact { let l = local_of store.old activity.old in
        Gives (equality (same_as wanted) count next l) result l (local_of store.new activity.new) }
    ensures plain { Plainly 0 result activity.old activity.new }
    ensures ordered { IsOrdered activity.new }
{
    let size = u32::from(count);
    match top_two_are_equal(store, *activity, count) {
        Some(same) => push_at(
            store,
            activity,
            activity.top - size - size,
            truth_word(is_wanted(same, wanted)),
            next,
        ),
        None => StepEnd::Bad(activity.pc),
    }
}
