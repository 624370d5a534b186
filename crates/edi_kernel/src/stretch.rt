//! What a taken process does until it gives way: the interpreter's loop.
//!
//! It goes round two paths. On the fast one `go_plainly` executes plain instructions, calls and returns one after another, with the activity
//! in registers. On the slow one `instruct` executes one instruction, whatever it is, by `step`: one that is none of these, one that fails
//! or is refused, one whose turn is due where none is left, and one in the last two words of a code. Only there a run ends or the system is
//! called.

ghost use Rattle.std.specs.Prelude.{◌≡◌, ◌+◌, ◌-◌, ◌*◌, ◌<◌, ◌≤◌, ◌==◌, ◌^◌, ℕ, Bool, None, Some, true, false, length};
ghost use Rattle.edi_told.specs.Told.{WhereTold};
ghost use Rattle.edi_calls.specs.State.{State};
ghost use Rattle.edi_store.specs.Copied.{IsMemory};
ghost use Rattle.edi_machine.specs.Activities.{IsOrdered, local_of};
ghost use Rattle.edi_calls.specs.Ends.{CallsLast};
ghost use Rattle.edi_kernel.specs.Table.{live_in};
ghost use Rattle.edi_kernel.specs.Stretch.{
  Allows,
  AsksFailed,
  Blamed,
  Falls,
  OneStep,
  OnePlain,
  IsInPhase,
  IsNoStandstill,
  IsSameSegment,
  Reaches,
  Spends,
  Stretches,
  cleared_at,
  cleared_in,
  failure_of,
  goes_on,
  is_standstill,
  left_after,
  noted_after,
  pause_by,
  pause_of,
  running_in,
  with_activity,
};

use crate::ends::Ending;
use crate::table::Table;
use edi_calls::Calls;
use edi_machine::{Activity, Cause, StepEnd, TurnKind, step, step_plainly};
use edi_store::Store;
use edi_target::Code;

/// Why a process does not go on by itself.
#[derive(Clone, Copy)]
pub(crate) enum Pause {
    /// It took a turn of this kind.
    At(TurnKind),
    /// The run has ended.
    Over(Ending),
}

/// What has come of the next instruction on the fast path.
#[derive(Clone, Copy)]
pub(crate) enum Plain {
    /// The process goes on.
    On,
    /// The process has arrived at a `when`.
    Arrived,
    /// Nothing was done: the instruction is none of the loop, no turn is left for it, or it fails or is refused. The slow path executes it.
    Other,
}

/// What changes while a process goes on: its activity, the turns that are left, and whether anything has happened that
/// takes all marks away. While the process goes on the end of the critical phase in which it began is not noted, so that
/// the path of an instruction is short: that `phase` is over is seen in `held`.
#[derive(Clone, Copy)]
pub(crate) struct Progress {
    // First, so that no hole comes between the fields, which would be cleared each time.
    pub(crate) left: u64,
    pub(crate) activity: Activity,
    pub(crate) cleared: bool,
    pub(crate) phase: bool,
}

/// How a program ends that fails for this cause at this line, or halts there.
fn failure(cause: Cause, line: u16) -> Ending
    ensures exact { result ≡ failure_of cause line }
    ensures standstill { is_standstill (Pause.Over result) ≡ false }
{
    match cause {
        Cause::Halt => Ending::Halted(line),
        _ => Ending::Failed(cause, line),
    }
}

/// Whether a process pauses that took a turn of this kind.
fn pause_at(kind: TurnKind) -> Option<Pause>
    ensures exact { result ≡ pause_by kind }
    ensures standstill { IsNoStandstill result }
{
    match kind {
        TurnKind::Enter | TurnKind::End | TurnKind::Loop => None,
        TurnKind::ProgramEnd => Some(Pause::Over(Ending::Done)),
        _ => Some(Pause::At(kind)),
    }
}

/// Whether a process pauses whose instruction ended so, with so many turns left.
fn pause_after(end: StepEnd, left: u64) -> Option<Pause>
    ensures exact { result ≡ pause_of end left }
    ensures standstill { IsNoStandstill result }
{
    match end {
        StepEnd::On => None,
        StepEnd::Turn(kind) => {
            if left == 0 {
                Some(Pause::Over(Ending::Turns))
            } else {
                pause_at(kind)
            }
        }
        StepEnd::Fail(cause, line) => Some(Pause::Over(failure(cause, line))),
        StepEnd::Bad(at) => Some(Pause::Over(Ending::Bad(at))),
        StepEnd::Fault => Some(Pause::Over(Ending::Fault)),
    }
}

/// The turns that are left after an instruction that ended so.
fn turns_after(end: StepEnd, left: u64) -> u64
    ensures { result ≡ left_after end left }
{
    match end {
        StepEnd::Turn(_) => left.saturating_sub(1),
        _ => left,
    }
}

/// Whether marks are noted as taken away after an instruction that ended so, before which `held` was so great and they were
/// noted as `cleared`: a turn of a process that goes on takes them away, and so did the end of its phase.
#[inline(always)]
fn cleared_after(end: StepEnd, cleared: bool, phase: bool, held: u16) -> bool
    ensures { result ≡ noted_after end cleared phase held }
{
    match end {
        StepEnd::On => cleared,
        StepEnd::Turn(TurnKind::Enter | TurnKind::End | TurnKind::Loop) => true,
        _ => cleared || (phase && held == 0),
    }
}

/// What follows from an instruction that ended so: whether the process pauses, the turns that are left, and whether marks are
/// noted as taken away.
#[inline(always)]
fn follow(
    end: StepEnd,
    left: u64,
    cleared: bool,
    phase: bool,
    held: u16,
) -> (Option<Pause>, u64, bool)
    ensures pause { result.0 ≡ pause_of end left }
    ensures standstill { IsNoStandstill result.0 }
    ensures left { result.1 ≡ left_after end left }
    ensures cleared { result.2 ≡ noted_after end cleared phase held }
{
    if let StepEnd::On = end {
        return (None, left, cleared);
    }
    let pause = pause_after(end, left);
    (
        pause,
        turns_after(end, left),
        cleared_after(end, cleared, phase, held),
    )
}

/// Executes one instruction, and tells whether the process pauses.
#[inline(always)]
fn instruct<C: Calls>(
    store: &mut Store,
    progress: &mut Progress,
    code: &Code,
    live: u32,
    first: bool,
    calls: &mut C,
) -> Option<Pause>
    requires working { C.failed calls.old None }
    requires live { live ≤ 32 }
    requires ordered { IsOrdered progress.old.activity }
    requires phase { IsInPhase progress.old }
    ensures exact { WhereTold (C.state calls.old) (C.state calls.new) (λ s t.
        OneStep code.now.words live first (running_in store.old progress.old.activity s progress.old.left) (cleared_in progress.old)
        result (running_in store.new progress.new.activity t progress.new.left) (cleared_at result progress.new)) }
    ensures phase { result ≡ None → IsInPhase progress.new }
    ensures standstill { IsNoStandstill result }
    ensures allowed { Allows result code.now.words live first (local_of store.new progress.new.activity) }
    ensures asked { AsksFailed result code.now.words live first (local_of store.new progress.new.activity) (C.failed calls.new) }
    ensures falls { Falls result code.now.words progress.old.left progress.old.activity.pc progress.new.left progress.new.activity.pc }
    ensures less { progress.new.left ≤ progress.old.left }
    ensures spends { Spends result progress.old.left progress.new.left }
    ensures blame { Blamed result (C.failed calls.new) (C.faults calls.old) (C.faults calls.new) }
    ensures lasts { CallsLast C.faults C.references C.leads calls.old calls.new }
    ensures ordered { IsOrdered progress.new.activity }
    ensures was_whole { IsMemory store.old }
    ensures whole { IsMemory store.new }
{
    let held = progress.activity.held;
    let end = step(store, &mut progress.activity, code, live, first, calls);
    let (pause, left, cleared) = follow(end, progress.left, progress.cleared, progress.phase, held);
    progress.left = left;
    progress.cleared = cleared;
    pause
}

/// Executes one instruction of the process at this slot, and tells whether it pauses. Who lives is counted here, since the fast path does
/// not ask for it.
#[inline(always)]
fn instruct_among<C: Calls>(
    store: &mut Store,
    progress: &mut Progress,
    code: &Code,
    table: &Table,
    slot: usize,
    calls: &mut C,
) -> Option<Pause>
    requires working { C.failed calls.old None }
    requires ordered { IsOrdered progress.old.activity }
    requires phase { IsInPhase progress.old }
    ensures exact { WhereTold (C.state calls.old) (C.state calls.new) (λ s t.
        OneStep code.now.words (live_in table.now) (slot == 0)
        (running_in store.old progress.old.activity s progress.old.left) (cleared_in progress.old)
        result (running_in store.new progress.new.activity t progress.new.left) (cleared_at result progress.new)) }
    ensures phase { result ≡ None → IsInPhase progress.new }
    ensures standstill { IsNoStandstill result }
    ensures allowed { Allows result code.now.words (live_in table.now) (slot == 0) (local_of store.new progress.new.activity) }
    ensures asked { AsksFailed result code.now.words (live_in table.now) (slot == 0)
        (local_of store.new progress.new.activity) (C.failed calls.new) }
    ensures falls { Falls result code.now.words progress.old.left progress.old.activity.pc progress.new.left progress.new.activity.pc }
    ensures less { progress.new.left ≤ progress.old.left }
    ensures spends { Spends result progress.old.left progress.new.left }
    ensures blame { Blamed result (C.failed calls.new) (C.faults calls.old) (C.faults calls.new) }
    ensures lasts { CallsLast C.faults C.references C.leads calls.old calls.new }
    ensures ordered { IsOrdered progress.new.activity }
    ensures was_whole { IsMemory store.old }
    ensures whole { IsMemory store.new }
{
    let live = table.live();
    instruct(store, progress, code, live, slot == 0, calls)
}

/// Whether a process goes on after a turn of this kind.
#[inline(always)]
fn goes_on(kind: TurnKind) -> bool
    ensures { result ≡ goes_on kind }
{
    match kind {
        TurnKind::Enter | TurnKind::End | TurnKind::Loop => true,
        _ => false,
    }
}

/// Takes a turn in which the process goes on: it takes all marks away.
#[inline(always)]
fn go_round(progress: &mut Progress)
    requires left { 0 < progress.old.left }
    ensures left { progress.new.left ≡ progress.old.left - 1 }
    ensures cleared { progress.new.cleared ≡ true }
    ensures apart { (progress.new.activity ≡ progress.old.activity) × (progress.new.phase ≡ progress.old.phase) }
{
    progress.left -= 1;
    progress.cleared = true;
}

/// Executes the next instruction of this activity where it is one of the loop. The activity goes on apart: that of the progress is the one
/// from before, and is not read.
#[inline(always)]
fn instruct_plainly(
    store: &mut Store,
    activity: &mut Activity,
    progress: &mut Progress,
    words: &[u16],
) -> Plain
    requires size { length words.now < 2 ^ 32 }
    requires ordered { IsOrdered activity.old }
    requires phase { IsInPhase (with_activity progress.old activity.old) }
    ensures exact { OnePlain words.now result store.old activity.old progress.old store.new activity.new progress.new }
    ensures phase { result ≡ Plain.On → IsInPhase (with_activity progress.new activity.new) }
    ensures falls { result ≡ Plain.On → Falls None words.now progress.old.left activity.old.pc progress.new.left activity.new.pc }
    ensures spends { result ≡ Plain.Arrived → progress.new.left < progress.old.left }
    ensures less { progress.new.left ≤ progress.old.left }
    ensures segment { IsSameSegment activity.old activity.new }
    ensures apart { (progress.new.activity ≡ progress.old.activity) × (progress.new.phase ≡ progress.old.phase) }
    ensures ordered { IsOrdered activity.new }
    ensures whole { IsMemory store.new }
{
    match step_plainly(store, activity, words, &progress.left) {
        Some(StepEnd::On) => Plain::On,
        Some(StepEnd::Turn(kind)) => {
            if goes_on(kind) {
                go_round(progress);
                return Plain::On;
            }
            // The only other turn of an instruction of the loop is that of an arrival, of which no marks are noted.
            progress.left -= 1;
            Plain::Arrived
        }
        // Nothing has changed. The slow path executes it again and ends the run, so that the loop carries no cause.
        Some(StepEnd::Fail(_, _)) => Plain::Other,
        Some(StepEnd::Bad(_)) => Plain::Other,
        None => Plain::Other,
        // No other end is that of an instruction of the loop.
        _ => unreachable!(),
    }
}

/// Gives the activity back that went on apart. Its segment is that from before, so this field is not written.
#[inline(always)]
fn give_back(progress: &mut Progress, activity: Activity)
    requires { IsSameSegment progress.old.activity activity }
    ensures { progress.new ≡ with_activity progress.old activity }
{
    progress.activity.base = activity.base;
    progress.activity.end = activity.end;
    progress.activity.top = activity.top;
    progress.activity.pc = activity.pc;
    progress.activity.held = activity.held;
}

/// Executes plain instructions, calls and returns as long as the process goes on by them. Tells whether it has arrived at a `when`.
///
/// Most instructions are executed here. The activity goes on in a copy, which is lent to no function that is not inlined and so may stay in
/// registers; the turns and the marks change seldom and stay in memory.
#[inline(never)]
fn go_plainly(store: &mut Store, progress: &mut Progress, words: &[u16]) -> bool
    requires size { length words.now < 2 ^ 32 }
    requires ordered { IsOrdered progress.old.activity }
    requires phase { IsInPhase progress.old }
    ensures goes { result ≡ false → (live : ℕ) (first : Bool) (s : State) →
        Reaches words.now live first (running_in store.old progress.old.activity s progress.old.left) (cleared_in progress.old)
        (running_in store.new progress.new.activity s progress.new.left) (cleared_in progress.new) }
    ensures pauses { result ≡ true → (live : ℕ) (first : Bool) (s : State) →
        Stretches words.now live first (running_in store.old progress.old.activity s progress.old.left) (cleared_in progress.old)
        (Pause.At TurnKind.Arrive) (running_in store.new progress.new.activity s progress.new.left) progress.new.cleared }
    ensures phase { result ≡ false → IsInPhase progress.new }
    ensures nearer { progress.new.left * (length words.now + 1) + (length words.now - progress.new.activity.pc)
        ≤ progress.old.left * (length words.now + 1) + (length words.now - progress.old.activity.pc) }
    ensures spends { result ≡ true → progress.new.left < progress.old.left }
    ensures less { progress.new.left ≤ progress.old.left }
    ensures ordered { IsOrdered progress.new.activity }
    ensures whole { IsMemory store.new }
{
    let mut here = progress.activity;
    'plain: loop {
        match instruct_plainly(store, &mut here, progress, words) {
            Plain::On => (),
            Plain::Arrived => {
                give_back(progress, here);
                return true;
            }
            Plain::Other => {
                give_back(progress, here);
                return false;
            }
        }
    }
}

/// Executes instructions of the process at this slot until it pauses.
#[inline(always)]
pub(crate) fn advance<C: Calls>(
    store: &mut Store,
    progress: &mut Progress,
    code: &Code,
    table: &Table,
    slot: usize,
    calls: &mut C,
) -> Pause
    requires working { C.failed calls.old None }
    requires ordered { IsOrdered progress.old.activity }
    requires phase { IsInPhase progress.old }
    ensures exact { WhereTold (C.state calls.old) (C.state calls.new) (λ s t.
        Stretches code.now.words (live_in table.now) (slot == 0)
        (running_in store.old progress.old.activity s progress.old.left) (cleared_in progress.old)
        result (running_in store.new progress.new.activity t progress.new.left) progress.new.cleared) }
    ensures standstill { is_standstill result ≡ false }
    ensures allowed { Allows (Some result) code.now.words (live_in table.now) (slot == 0) (local_of store.new progress.new.activity) }
    ensures asked { AsksFailed (Some result) code.now.words (live_in table.now) (slot == 0)
        (local_of store.new progress.new.activity) (C.failed calls.new) }
    ensures less { progress.new.left ≤ progress.old.left }
    ensures spends { Spends (Some result) progress.old.left progress.new.left }
    ensures blame { Blamed (Some result) (C.failed calls.new) (C.faults calls.old) (C.faults calls.new) }
    ensures lasts { CallsLast C.faults C.references C.leads calls.old calls.new }
    ensures ordered { IsOrdered progress.new.activity }
    ensures whole { IsMemory store.new }
{
    'stretch: loop {
        if go_plainly(store, progress, code.words()) {
            return Pause::At(TurnKind::Arrive);
        }
        if let Some(pause) = instruct_among(store, progress, code, table, slot, calls) {
            return pause;
        }
    }
}
