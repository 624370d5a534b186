//! Jumps.

ghost use Rattle.std.specs.Prelude.{◌≡◌, ◌+◌, ◌-◌, ◌<◌, ◌≤◌, nat_eq, not, if◌then◌else◌};
ghost use Rattle.edi_target.specs.Effect.{Local, look, pop_word, to, due, looping};
ghost use Rattle.edi_target.specs.Perform.{forward, short_cut};
ghost use Rattle.edi_machine.specs.Activities.{IsOrdered, local_of};
ghost use Rattle.edi_machine.specs.Plain.{Plainly};
ghost use Rattle.edi_machine.specs.Steps.{Gives};

use crate::activity::Activity;
use crate::ends::{StepEnd, TurnKind};
use crate::frame::top_word;
use edi_store::Store;

/// JUMP.
#[inline(always)]
pub fn jump(store: &Store, activity: &mut Activity, target: u32) -> StepEnd
    requires ordered { IsOrdered activity.old }
    ensures exact { let l = local_of store.now activity.old in
        Gives (forward target l (to target l)) result l (local_of store.now activity.new) }
    ensures plain { Plainly 0 result activity.old activity.new }
    ensures ordered { IsOrdered activity.new }
{
    if target <= activity.pc {
        return StepEnd::Bad(activity.pc);
    }
    activity.pc = target;
    StepEnd::On
}

/// FALSE.
#[inline(always)]
pub fn jump_if_false(store: &Store, activity: &mut Activity, target: u32, next: u32) -> StepEnd
    requires ordered { IsOrdered activity.old }
    ensures exact { let l = local_of store.now activity.old in
        Gives (forward target l (pop_word l (λ x l. to (if nat_eq x 0 then target else next) l))) result l (local_of store.now activity.new) }
    ensures plain { Plainly 0 result activity.old activity.new }
    ensures ordered { IsOrdered activity.new }
{
    if target <= activity.pc {
        return StepEnd::Bad(activity.pc);
    }
    let Some(x) = top_word(store, activity) else {
        return StepEnd::Bad(activity.pc);
    };
    activity.top -= 1;
    activity.pc = if x == 0 { target } else { next };
    StepEnd::On
}

/// AND.
#[inline(always)]
pub fn jump_and(store: &Store, activity: &mut Activity, target: u32, next: u32) -> StepEnd
    requires ordered { IsOrdered activity.old }
    ensures exact { let l = local_of store.now activity.old in
        Gives (forward target l (look l (λ x. short_cut (nat_eq x 0) target next l))) result l (local_of store.now activity.new) }
    ensures plain { Plainly 0 result activity.old activity.new }
    ensures ordered { IsOrdered activity.new }
{
    if target <= activity.pc {
        return StepEnd::Bad(activity.pc);
    }
    let Some(x) = top_word(store, activity) else {
        return StepEnd::Bad(activity.pc);
    };
    if x == 0 {
        activity.pc = target;
    } else {
        activity.top -= 1;
        activity.pc = next;
    }
    StepEnd::On
}

/// OR.
#[inline(always)]
pub fn jump_or(store: &Store, activity: &mut Activity, target: u32, next: u32) -> StepEnd
    requires ordered { IsOrdered activity.old }
    ensures exact { let l = local_of store.now activity.old in
        Gives (forward target l (look l (λ x. short_cut (not (nat_eq x 0)) target next l))) result l (local_of store.now activity.new) }
    ensures plain { Plainly 0 result activity.old activity.new }
    ensures ordered { IsOrdered activity.new }
{
    if target <= activity.pc {
        return StepEnd::Bad(activity.pc);
    }
    let Some(x) = top_word(store, activity) else {
        return StepEnd::Bad(activity.pc);
    };
    if x != 0 {
        activity.pc = target;
    } else {
        activity.top -= 1;
        activity.pc = next;
    }
    StepEnd::On
}

/// LOOP.
#[inline(always)]
pub fn jump_back(store: &Store, activity: &mut Activity, target: u32) -> StepEnd
    requires ordered { IsOrdered activity.old }
    ensures exact { let l = local_of store.now activity.old in
        Gives (due looping (record l { pc = target })) result l (local_of store.now activity.new) }
    ensures plain { Plainly 1 result activity.old activity.new }
    ensures ordered { IsOrdered activity.new }
{
    activity.pc = target;
    StepEnd::Turn(TurnKind::Loop)
}
