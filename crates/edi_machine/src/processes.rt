//! Processes.

ghost use Rattle.std.specs.Prelude.{◌≡◌, ◌+◌, ◌^◌, ◌<◌, ◌≤◌, ◌&&◌, nat_eq, nat_lt, not, true, false, length};
ghost use Rattle.std.specs.List.{list_any};
ghost use Rattle.edi_target.specs.Op.{Branch};
ghost use Rattle.edi_target.specs.Decode.{branches_of};
ghost use Rattle.edi_target.specs.Effect.{Local, due, needs, released, again, arriving, exiting};
ghost use Rattle.edi_target.specs.Perform.{exceeds, fork, in_phase, unheld};
ghost use Rattle.edi_machine.specs.Activities.{IsOrdered, local_of};
ghost use Rattle.edi_machine.specs.Plain.{Plainly};
ghost use Rattle.edi_machine.specs.Steps.{Gives};

use crate::activity::Activity;
use crate::ends::{StepEnd, TurnKind};
use crate::instruction::count_of;
use edi_calls::Cause;
use edi_store::Store;

// The most processes that may live at once.
const MOST_PROCESSES: u32 = 32;

/// WHEN.
#[inline(always)]
pub fn arrive(store: &Store, activity: &mut Activity, line: u16, next: u32) -> StepEnd
    requires ordered { IsOrdered activity.old }
    ensures exact { let l = local_of store.now activity.old in
        Gives (unheld line l (due arriving (record l { pc = next }))) result l (local_of store.now activity.new) }
    ensures plain { Plainly 1 result activity.old activity.new }
    ensures ordered { IsOrdered activity.new }
{
    if activity.held > 0 {
        return StepEnd::Fail(Cause::Held, line);
    }
    activity.pc = next;
    StepEnd::Turn(TurnKind::Arrive)
}

/// RETRY, and QUIET, of which the attempt marks its process.
#[inline(always)]
pub fn try_again(store: &Store, activity: &mut Activity, marks: bool, target: u32) -> StepEnd
    requires ordered { IsOrdered activity.old }
    ensures exact { let l = local_of store.now activity.old in
        Gives (in_phase l (due (again marks) (record l { pc = target; held = 0 }))) result l (local_of store.now activity.new) }
    ensures ordered { IsOrdered activity.new }
{
    if activity.held != 1 {
        return StepEnd::Bad(activity.pc);
    }
    activity.held = 0;
    activity.pc = target;
    StepEnd::Turn(TurnKind::Again(marks))
}

/// DONE.
#[inline(always)]
pub fn end_phase(store: &Store, activity: &mut Activity, next: u32) -> StepEnd
    requires ordered { IsOrdered activity.old }
    ensures exact { let l = local_of store.now activity.old in
        Gives (in_phase l (released (record l { pc = next; held = 0 }))) result l (local_of store.now activity.new) }
    ensures plain { Plainly 0 result activity.old activity.new }
    ensures ordered { IsOrdered activity.new }
{
    if activity.held != 1 {
        return StepEnd::Bad(activity.pc);
    }
    activity.held = 0;
    activity.pc = next;
    StepEnd::On
}

// Whether one of these branches needs more words than the share.
fn exceed(share: u32, branches: &[u16]) -> bool
    ensures { result ≡ list_any (exceeds share) (branches_of branches.now) }
{
    let mut rest = branches;
    while let [need, _, _, behind @ ..] = rest {
        if u32::from(*need) > share {
            return true;
        }
        rest = behind;
    }
    false
}

/// COBEGIN, of branches which are given as three words each.
#[inline(never)]
pub fn split(
    store: &Store,
    activity: &mut Activity,
    live: u32,
    line: u16,
    branches: &[u16],
    next: u32,
) -> StepEnd
    requires ordered { IsOrdered activity.old }
    requires live { live ≤ 32 }
    requires some { 0 < length (branches_of branches.now) }
    requires few { length (branches_of branches.now) < 2 ^ 16 }
    ensures exact { let l = local_of store.now activity.old in
        Gives (unheld line l (fork live line next (branches_of branches.now) l)) result l (local_of store.now activity.new) }
    ensures ordered { IsOrdered activity.new }
{
    if activity.held > 0 {
        return StepEnd::Fail(Cause::Held, line);
    }
    let count = count_of(branches);
    if live + count > MOST_PROCESSES {
        return StepEnd::Fail(Cause::ProcessLimit, line);
    }
    let share = (activity.segment.last - activity.end) / count;
    if exceed(share, branches) {
        return StepEnd::Fail(Cause::VariableLimit, line);
    }
    let at = activity.pc;
    activity.pc = next;
    StepEnd::Turn(TurnKind::Fork(at))
}

/// EXIT.
pub fn exit(store: &Store, activity: &mut Activity, first: bool) -> StepEnd
    requires ordered { IsOrdered activity.old }
    ensures exact { let l = local_of store.now activity.old in
        Gives (needs (not first && nat_eq l.base l.first && nat_eq l.held 0) (due exiting l)) result l (local_of store.now activity.new) }
    ensures ordered { IsOrdered activity.new }
{
    if first || activity.base != activity.segment.first || activity.held != 0 {
        return StepEnd::Bad(activity.pc);
    }
    StepEnd::Turn(TurnKind::Exit)
}
