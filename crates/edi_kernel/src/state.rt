//! The kernel's state, and what it does at each switch.

ghost use Rattle.std.specs.Prelude.{◌≡◌, ◌⊎◌, ◌≤◌, ◌<◌, ◌==◌, ◌+◌, ◌-◌, ◌^◌, if◌then◌else◌, length, None, Some, IsSome, Option, ℕ, true, false, List, []};
ghost use Rattle.edi_machine.specs.Activities.{IsOrdered, local_of};
ghost use Rattle.edi_machine.specs.Starts.{IsFork, branches_at};
ghost use Rattle.edi_kernel.specs.declared.table.Table.{Table};
ghost use Rattle.edi_kernel.specs.Table.{process_at, free_slots, ready_slots, resumed};
ghost use Rattle.edi_kernel.specs.TableIsMachine.{IsTable, IsTaken};
ghost use Rattle.edi_told.specs.Told.{WhereTold};
ghost use Rattle.edi_calls.specs.Names.{Name};
ghost use Rattle.edi_target.specs.Mach.{Machine};
ghost use Rattle.edi_machine.specs.declared.activity.Activity.{Activity};
ghost use Rattle.edi_calls.specs.Ends.{CallsLast};
ghost use Rattle.edi_kernel.specs.Stretch.{Allows, AsksFailed, Blamed, Spends, Stretches, at_start, is_standstill, running_in};
ghost use Rattle.edi_kernel.specs.Kernel.{
  BreaksBy,
  Handles,
  HandlesTurn,
  Holds,
  IsForked,
  IsKernel,
  MayFail,
  Settles,
  StandsAfter,
  StandsLast,
  attempt_end,
  faulted,
  is_arrival,
  is_failure,
  is_over,
  noting,
  taken_after,
  used_in,
};
ghost use Rattle.edi_kernel.specs.Named.{StintGoes};

use crate::ends::{Ending, StintEnd};
use crate::fork::{branch_count, fork};
use crate::stretch::{Pause, Progress, advance};
use crate::table::Table;
use edi_calls::Calls;
use edi_machine::{Activity, TurnKind};
use edi_store::Store;
use edi_target::Code;

/// All that the kernel keeps.
#[derive(Drop)]
pub(crate) struct KernelState {
    pub(crate) store: Store,
    pub(crate) table: Table,
    /// The slot of the process that is taken. After an end of the run by one of its instructions it still is.
    pub(crate) taken: Option<usize>,
    /// Whether the turn of the program's entry is still to be taken.
    pub(crate) entering: bool,
    /// The activity that the last instruction of the last stint left standing at its `when`.
    pub(crate) arrived: Option<Activity>,
    /// Whether the last stint ended by an attempt that failed.
    pub(crate) failed: bool,
    /// The turns that were taken since the start.
    pub(crate) used: u64,
}

/// How a stint ends at an attempt: at a standstill where all that are ready are marked.
fn attempt_end(all_marked: bool, used: u64) -> StintEnd
    ensures exact { result ≡ attempt_end all_marked used }
    ensures standing { (taken : Option ℕ) (ready : List ℕ) (t : Table) (arrived : Option Activity) →
        StandsLast taken ready t arrived → StandsAfter result taken ready t arrived }
{
    if all_marked {
        StintEnd::Over {
            used,
            ending: Ending::Standstill,
        }
    } else {
        StintEnd::Arrived { used }
    }
}

/// Whether a turn of this kind is that of an attempt that failed.
#[inline(always)]
fn is_failure(kind: TurnKind) -> bool
    ensures { result ≡ is_failure kind }
{
    match kind {
        TurnKind::Again(_) => true,
        _ => false,
    }
}

/// Whether a process pauses because it has arrived at a `when`, as it does most often.
#[inline(always)]
fn is_arrival(pause: Pause) -> bool
    ensures { result ≡ is_arrival pause }
{
    match pause {
        Pause::At(TurnKind::Arrive) => true,
        _ => false,
    }
}

impl KernelState {
    /// The process waits for its children, which begin.
    #[inline(never)]
    fn fork(&mut self, code: &Code, at: u32, slot: usize, activity: &Activity)
        requires table { IsTable self.old.table }
        requires taken { IsTaken self.old.table slot }
        requires ordered { IsOrdered activity.now }
        requires fork { IsFork code.now.words at (branches_at code.now.words at) (local_of self.old.store activity.now) }
        requires room { length (branches_at code.now.words at) ≤ length (free_slots self.old.table) }
        ensures exact { IsForked code.now.words slot activity.now at self.old self.new }
        ensures table { IsTable self.new.table }
        ensures taken { self.new.taken ≡ self.old.taken }
        ensures arrived { self.new.arrived ≡ self.old.arrived }
        ensures failed { self.new.failed ≡ self.old.failed }
        ensures entering { self.new.entering ≡ self.old.entering }
        ensures turns { self.new.used ≡ self.old.used }
    {
        let count = branch_count(code, at);
        self.table.unmark();
        self.table.wait(slot, *activity, count as usize);
        fork(&mut self.store, &mut self.table, code, at, slot, activity);
    }

    /// Handles a turn of the process at `slot` at which it paused. It is taken no more.
    #[inline(never)]
    fn handle_turn(
        &mut self,
        code: &Code,
        slot: usize,
        activity: &Activity,
        kind: TurnKind,
        used: u64,
    ) -> StintEnd
        requires table { IsTable self.old.table }
        requires taken { IsTaken self.old.table slot }
        requires ordered { IsOrdered activity.now }
        requires allowed { Allows (Some (Pause.At kind)) code.now.words (32 - length (free_slots self.old.table)) (slot == 0)
            (local_of self.old.store activity.now) }
        requires marks { self.old.table.marks < 64 }
        ensures standing { StandsAfter result (Some slot) (ready_slots self.old.table) self.new.table self.new.arrived }
        ensures failed { MayFail result self.new.failed }
        ensures exact { HandlesTurn kind code.now.words slot used activity.now self.old self.new result }
        ensures free { self.new.taken ≡ None }
        ensures entering { self.new.entering ≡ self.old.entering }
        ensures turns { self.new.used ≡ self.old.used }
    {
        self.taken = None;
        match kind {
            TurnKind::Again(true) => {
                self.failed = true;
                self.arrived = Some(*activity);
                let all_marked = self.table.attempt(slot, activity);
                attempt_end(all_marked, used)
            }
            TurnKind::Fork(at) => {
                self.failed = false;
                self.arrived = None;
                self.fork(code, at, slot, activity);
                StintEnd::Forked { used }
            }
            TurnKind::Exit => {
                self.failed = false;
                self.arrived = None;
                self.table.leave(slot);
                StintEnd::Exited { used }
            }
            _ => {
                self.failed = is_failure(kind);
                self.table.arrive(slot, activity);
                self.arrived = Some(*activity);
                StintEnd::Arrived { used }
            }
        }
    }

    /// Handles the pause of the process at `slot`, which has this activity, after so many turns. It is taken no more, unless it ended the run.
    #[inline(always)]
    fn handle(
        &mut self,
        code: &Code,
        slot: usize,
        activity: &Activity,
        pause: Pause,
        used: u64,
    ) -> StintEnd
        requires table { IsTable self.old.table }
        requires taken { IsTaken self.old.table slot }
        requires ordered { IsOrdered activity.now }
        requires allowed { Allows (Some pause) code.now.words (32 - length (free_slots self.old.table)) (slot == 0) (local_of self.old.store activity.now) }
        requires marks { self.old.table.marks < 64 }
        requires standstill { is_standstill pause ≡ false }
        ensures standing { StandsAfter result (Some slot) (ready_slots self.old.table) self.new.table self.new.arrived }
        ensures failed { MayFail result self.new.failed }
        ensures exact { Handles pause code.now.words slot used activity.now self.old self.new result }
        ensures taken { self.new.taken ≡ taken_after pause self.old.taken }
        ensures entering { self.new.entering ≡ self.old.entering }
        ensures turns { self.new.used ≡ self.old.used }
    {
        match pause {
            Pause::At(kind) => self.handle_turn(code, slot, activity, kind, used),
            Pause::Over(ending) => {
                self.failed = false;
                self.arrived = None;
                self.table.unmark();
                self.table.go_on(slot, *activity);
                StintEnd::Over { used, ending }
            }
        }
    }

    /// Notes an arrival with this activity, if that is asked.
    #[inline(always)]
    fn note_if(&mut self, asked: bool, activity: &Activity)
        ensures { self.new ≡ (if asked then noting activity.now self.old else self.old) }
    {
        if asked {
            self.arrived = Some(*activity);
            self.failed = false;
        }
    }

    /// The process at `slot` has arrived at a `when` after so many turns, and is taken no more. The arrival is noted, if that is asked.
    #[inline(always)]
    fn arrive(&mut self, slot: usize, activity: &Activity, used: u64, notes: bool) -> StintEnd
        requires table { IsTable self.old.table }
        requires taken { IsTaken self.old.table slot }
        ensures standing { StandsAfter result (Some slot) (ready_slots self.old.table) self.new.table (Some activity.now) }
        ensures exact { HandlesTurn TurnKind.Arrive [] slot used activity.now self.old (noting activity.now self.new) result }
        ensures noted { notes ≡ true → self.new ≡ noting activity.now self.new }
        ensures arrived { (self.new.arrived ≡ Some activity.now) ⊎ (self.new.arrived ≡ self.old.arrived) }
        ensures free { self.new.taken ≡ None }
        ensures entering { self.new.entering ≡ self.old.entering }
        ensures turns { self.new.used ≡ self.old.used }
    {
        self.taken = None;
        self.table.arrive(slot, activity);
        self.note_if(notes, activity);
        StintEnd::Arrived { used }
    }

    /// Handles the pause of the process at `slot`, which has come so far, after so many turns. It is taken no more, unless it ended the run.
    ///
    /// An arrival is handled here, apart from all that is rare, and noted if that is asked. It takes all marks away, whatever is noted of them.
    #[inline(always)]
    fn settle(
        &mut self,
        code: &Code,
        slot: usize,
        progress: &Progress,
        pause: Pause,
        used: u64,
        notes: bool,
    ) -> StintEnd
        requires table { IsTable self.old.table }
        requires taken { IsTaken self.old.table slot }
        requires ordered { IsOrdered progress.now.activity }
        requires allowed { Allows (Some pause) code.now.words (32 - length (free_slots self.old.table)) (slot == 0)
            (local_of self.old.store progress.now.activity) }
        requires standstill { is_standstill pause ≡ false }
        ensures exact { Settles notes pause code.now.words slot used progress.now.activity progress.now.cleared self.old self.new result }
        ensures taken { self.new.taken ≡ taken_after pause self.old.taken }
        ensures entering { self.new.entering ≡ self.old.entering }
        ensures turns { self.new.used ≡ self.old.used }
    {
        if is_arrival(pause) {
            return self.arrive(slot, &progress.activity, used, notes);
        }
        self.table.unmark_if(progress.cleared);
        self.handle(code, slot, &progress.activity, pause, used)
    }

    /// The process at `slot`, which is taken, goes on until it pauses.
    #[inline(always)]
    fn walk<C: Calls>(
        &mut self,
        code: &Code,
        calls: &mut C,
        slot: usize,
        progress: &mut Progress,
    ) -> Pause
        requires table { IsTable self.old.table }
        requires slot { slot < 32 }
        requires working { C.failed calls.old None }
        requires begins { progress.old ≡ at_start (resumed (process_at self.old.table slot)) progress.old.left }
        ensures exact { WhereTold (C.state calls.old) (C.state calls.new) (λ s t.
            Stretches code.now.words (32 - length (free_slots self.old.table)) (slot == 0)
            (running_in self.old.store (resumed (process_at self.old.table slot)) s progress.old.left) false
            result (running_in self.new.store progress.new.activity t progress.new.left) progress.new.cleared) }
        ensures same { self.new ≡ record self.old { store = self.new.store } }
        ensures standstill { is_standstill result ≡ false }
        ensures allowed { Allows (Some result) code.now.words (32 - length (free_slots self.old.table)) (slot == 0)
            (local_of self.new.store progress.new.activity) }
        ensures asked { AsksFailed (Some result) code.now.words (32 - length (free_slots self.old.table)) (slot == 0)
            (local_of self.new.store progress.new.activity) (C.failed calls.new) }
        ensures less { progress.new.left ≤ progress.old.left }
        ensures spends { Spends (Some result) progress.old.left progress.new.left }
        ensures blame { Blamed (Some result) (C.failed calls.new) (C.faults calls.old) (C.faults calls.new) }
        ensures lasts { CallsLast C.faults C.references C.leads calls.old calls.new }
        ensures ordered { IsOrdered progress.new.activity }
    {
        advance(&mut self.store, progress, code, &self.table, slot, calls)
    }

    /// The taken process goes on until it gives way, the run ends, or `left` turns are used up and another is
    /// due. An arrival is noted if that is asked: a stint tells of it, and a run does not.
    pub(crate) fn go<C: Calls>(
        &mut self,
        code: &Code,
        calls: &mut C,
        left: u64,
        notes: bool,
    ) -> StintEnd
        requires kernel { IsKernel self.old }
        requires taken { IsSome self.old.taken }
        requires working { C.failed calls.old None }
        ensures exact { StintGoes notes code.now.words left self.old self.new (C.state calls.old) (C.state calls.new) result }
        ensures asked { WhereTold (C.state calls.old) (C.state calls.new) (λ s t. (m : Machine) (p : Name) (others : List Name) →
            Holds self.old m (Some p) others → m.system ≡ s → m.turns ≡ left → BreaksBy (C.failed calls.new) code.now.words result left t m p others) }
        ensures kernel { IsKernel self.new }
        ensures free { is_over result ≡ false → self.new.taken ≡ None }
        ensures used { used_in result ≤ left }
        ensures spent { is_over result ≡ false → 0 < used_in result }
        ensures blame { Blamed (faulted result) (C.failed calls.new) (C.faults calls.old) (C.faults calls.new) }
        ensures lasts { CallsLast C.faults C.references C.leads calls.old calls.new }
        ensures entering { self.new.entering ≡ self.old.entering }
        ensures turns { self.new.used ≡ self.old.used }
    {
        let slot = self.taken.unwrap();
        let activity = self.table.resume(slot);
        let mut progress = Progress {
            activity,
            left,
            cleared: false,
            phase: activity.held == 1,
        };
        let pause = self.walk(code, calls, slot, &mut progress);
        self.settle(code, slot, &progress, pause, left - progress.left, notes)
    }
}
