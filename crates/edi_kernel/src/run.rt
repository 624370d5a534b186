//! Whole runs.

ghost use Rattle.std.specs.Prelude.{◌≡◌, ◌≤◌, ◌<◌, ◌+◌, ◌-◌, ◌^◌, if◌then◌else◌, length, min, None, Some, IsSome, ℕ, List, Bool, true, false};
ghost use Rattle.edi_told.specs.Told.{WhereTold};
ghost use Rattle.edi_calls.specs.Names.{Name};
ghost use Rattle.edi_target.specs.Mach.{Machine};
ghost use Rattle.std.specs.Prelude.{Option};
ghost use Rattle.edi_machine.specs.declared.activity.Activity.{Activity};
ghost use Rattle.edi_kernel.specs.declared.table.Table.{Table};
ghost use Rattle.edi_kernel.specs.Table.{ready_slots};
ghost use Rattle.edi_calls.specs.Ends.{CallsLast};
ghost use Rattle.edi_kernel.specs.Stretch.{Blamed};
ghost use Rattle.edi_kernel.specs.Kernel.{BreaksBy, GoesTo, Holds, IsKernel, MayFail, ended_by, fault_of, faulted, is_over, later_by, used_in, StandsAfter, StandsAtEnd};
ghost use Rattle.edi_kernel.specs.TableIsMachine.{Naming};
ghost use Rattle.edi_kernel.specs.Named.{BreaksRunBy, ChoosesBy, GoesBy, HoldsBy};
ghost use Rattle.edi_kernel.specs.Runs.{Chooses, EndsUnready, FaultsBy, IsAt, Picks, Proceeds, Rounds, RoundsBroken, RoundsBy, RunsTo, StandsIn, Started, TakesNext};

use crate::ends::{Ending, StintEnd};
use crate::state::KernelState;
use crate::table::Table;
use edi_calls::Calls;
use edi_machine::begin;
use edi_target::Code;
use edi_trace::Choices;

/// The index of the next process in the list of so many ready ones. A single one is taken without a choice.
fn pick(ready: usize, choices: &mut Choices) -> usize
    requires { 0 < ready }
    ensures inside { result < ready }
    ensures exact { Picks ready choices.old result choices.new }
    ensures source { choices.new.source ≡ choices.old.source }
    ensures drawn { choices.new.drawn ≤ choices.old.drawn + 1 }
{
    if ready == 1 {
        return 0;
    }
    usize::from(choices.draw()) % ready
}

/// The turns of a stint.
fn used_in(end: StintEnd) -> u64
    ensures { result ≡ used_in end }
{
    match end {
        StintEnd::Arrived { used }
        | StintEnd::Forked { used }
        | StintEnd::Exited { used }
        | StintEnd::Over { used, .. } => used,
    }
}

/// How the run has ended, if it has by a stint that ended so.
fn ended_by(end: StintEnd) -> Option<Ending>
    ensures { result ≡ ended_by end }
{
    match end {
        StintEnd::Over { ending, .. } => Some(ending),
        _ => None,
    }
}

/// The turns that the program's entry takes, if it is still due.
fn entry_turns(entering: bool) -> u64
    ensures { result ≡ (if entering then 1 else 0) }
{
    if entering { 1 } else { 0 }
}

/// The same end of a stint, after so many more turns.
fn later_by(end: StintEnd, turns: u64) -> StintEnd
    requires { used_in end + turns < 2 ^ 64 }
    ensures exact { result ≡ later_by turns end }
    ensures standing { (taken : Option ℕ) (ready : List ℕ) (t : Table) (arrived : Option Activity) →
        StandsAfter end taken ready t arrived → StandsAfter result taken ready t arrived }
    ensures failed { (failed : Bool) → MayFail end failed → MayFail result failed }
{
    match end {
        StintEnd::Arrived { used } => StintEnd::Arrived { used: used + turns },
        StintEnd::Forked { used } => StintEnd::Forked { used: used + turns },
        StintEnd::Exited { used } => StintEnd::Exited { used: used + turns },
        StintEnd::Over { used, ending } => StintEnd::Over {
            used: used + turns,
            ending,
        },
    }
}

impl KernelState {
    /// The first process of the code is taken, and the turn of its entry is due.
    pub(crate) fn start(&mut self, code: &Code)
        ensures { Started code.now self.new }
    {
        let activity = begin(&mut self.store, code);
        self.table = Table::first(activity);
        self.taken = Some(0);
        self.entering = true;
        self.arrived = None;
        self.failed = false;
        self.used = 0;
    }

    /// Takes the next process, of at least one that is ready.
    #[inline(always)]
    pub(crate) fn choose(&mut self, choices: &mut Choices)
        requires kernel { IsKernel self.old }
        requires free { self.old.taken ≡ None }
        requires some { 0 < length (ready_slots self.old.table) }
        ensures exact { choices.old.drawn < 2 ^ 64 - 1 → (m : Machine) (ready : List Name) → Holds self.old m None ready → Chooses self.new m choices.old
            choices.new ready }
        ensures names { choices.old.drawn < 2 ^ 64 - 1 → (n : Naming) (m : Machine) (ready : List Name) →
            HoldsBy n self.old m None ready → ChoosesBy n self.new m choices.old choices.new ready }
        ensures takes { TakesNext self.old self.new choices.old choices.new }
        ensures kernel { IsKernel self.new }
        ensures taken { IsSome self.new.taken }
        ensures source { choices.new.source ≡ choices.old.source }
        ensures drawn { choices.new.drawn ≤ choices.old.drawn + 1 }
        ensures entering { self.new.entering ≡ self.old.entering }
        ensures turns { self.new.used ≡ self.old.used }
        ensures store { self.new.store ≡ self.old.store }
    {
        let at = pick(self.table.ready(), choices);
        let slot = self.table.next(at);
        self.taken = Some(slot);
    }

    /// Takes the next process, if one is ready.
    fn proceed(&mut self, choices: &mut Choices) -> Option<Ending>
        requires kernel { IsKernel self.old }
        requires free { self.old.taken ≡ None }
        ensures exact { choices.old.drawn < 2 ^ 64 - 1 → (m : Machine) (ready : List Name) → Holds self.old m None ready
            → Proceeds result self.new m choices.old choices.new ready }
        ensures kernel { IsKernel self.new }
        ensures taken { result ≡ None → IsSome self.new.taken }
        ensures source { choices.new.source ≡ choices.old.source }
        ensures drawn { choices.new.drawn ≤ choices.old.drawn + 1 }
        ensures turns { self.new.used ≡ self.old.used }
        ensures store { self.new.store ≡ self.old.store }
        ensures fault { fault_of result ≡ None }
        ensures nobody { EndsUnready result self.old self.new }
    {
        // Several are most often ready, so that is asked first. Each call of `choose` then is of one arm of it.
        let ready = self.table.ready();
        if ready > 1 {
            self.choose(choices);
            return None;
        }
        if ready == 0 {
            return Some(Ending::Standstill);
        }
        self.choose(choices);
        None
    }

    /// A stint of the process that is taken, and the choice of the next. The answer is the ending, if the run has ended.
    fn round<C: Calls>(
        &mut self,
        code: &Code,
        calls: &mut C,
        bound: u64,
        choices: &mut Choices,
    ) -> Option<Ending>
        requires kernel { IsKernel self.old }
        requires taken { IsSome self.old.taken }
        requires working { C.failed calls.old None }
        requires used { self.old.used ≤ bound }
        ensures exact { choices.old.drawn < 2 ^ 64 - 1 → WhereTold (C.state calls.old) (C.state calls.new)
            (λ s t. (m : Machine) (p : Name) (others : List Name) →
            Holds self.old m (Some p) others → m.system ≡ s → m.turns ≡ bound - self.old.used →
            Rounds code.now.words bound result self.new t choices.old choices.new m p others) }
        ensures asked { WhereTold (C.state calls.old) (C.state calls.new) (λ s t. (m : Machine) (p : Name) (others : List Name) →
            Holds self.old m (Some p) others → m.system ≡ s → m.turns ≡ bound - self.old.used →
            RoundsBy (C.failed calls.new) code.now.words bound result self.new t choices.old choices.new m p others) }
        ensures ends { WhereTold (C.state calls.old) (C.state calls.new) (λ s t. (m : Machine) (p : Name) (others : List Name) →
            Holds self.old m (Some p) others → m.system ≡ s → m.turns ≡ bound - self.old.used →
            RoundsBroken code.now.words bound result self.new t choices.old choices.new m p others) }
        ensures kernel { IsKernel self.new }
        ensures taken { result ≡ None → IsSome self.new.taken }
        ensures used { self.new.used ≤ bound }
        ensures spent { result ≡ None → self.old.used < self.new.used }
        ensures standing { StandsAtEnd result self.new.table self.new.arrived }
        ensures source { choices.new.source ≡ choices.old.source }
        ensures drawn { choices.new.drawn ≤ choices.old.drawn + 1 }
        ensures blame { Blamed (fault_of result) (C.failed calls.new) (C.faults calls.old) (C.faults calls.new) }
        ensures lasts { CallsLast C.faults C.references C.leads calls.old calls.new }
    {
        let end = self.go(code, calls, bound - self.used, false);
        self.used += used_in(end);
        if let Some(ending) = ended_by(end) {
            return Some(ending);
        }
        self.proceed(choices)
    }

    /// Runs the code from its start until the run ends.
    pub(crate) fn run<C: Calls>(
        &mut self,
        code: &Code,
        calls: &mut C,
        bound: u64,
        choices: &mut Choices,
    ) -> Ending
        requires working { C.failed calls.old None }
        ensures exact { choices.old.drawn + bound < 2 ^ 64 → WhereTold (C.state calls.old) (C.state calls.new) (λ s t.
            RunsTo code.now s bound choices.old result self.new.store self.new.used t choices.new) }
        ensures asked { choices.old.drawn + bound < 2 ^ 64 → WhereTold (C.state calls.old) (C.state calls.new) (λ s t.
            FaultsBy (C.failed calls.new) code.now s bound choices.old result self.new.used t choices.new) }
        ensures stands { choices.old.drawn + bound < 2 ^ 64 → WhereTold (C.state calls.old) (C.state calls.new) (λ s t.
            StandsIn code.now s bound choices.old result self.new choices.new) }
        ensures standing { StandsAtEnd (Some result) self.new.table self.new.arrived }
        ensures kernel { IsKernel self.new }
        ensures used { self.new.used ≤ bound }
        ensures source { choices.new.source ≡ choices.old.source }
        ensures drawn { choices.new.drawn ≤ choices.old.drawn + bound }
        ensures blame { Blamed (fault_of (Some result)) (C.failed calls.new) (C.faults calls.old) (C.faults calls.new) }
        ensures lasts { CallsLast C.faults C.references C.leads calls.old calls.new }
    {
        self.start(code);
        self.entering = false;
        if bound == 0 {
            return Ending::Turns;
        }
        self.used = 1;
        'rounds: loop {
            if let Some(ending) = self.round(code, calls, bound, choices) {
                return ending;
            }
        }
    }

    /// The taken process goes on until it gives way, the run ends, or `turns_left` turns are used up and another
    /// is due. The first stint after the start takes the turn of the program's entry first.
    pub(crate) fn stint<C: Calls>(
        &mut self,
        code: &Code,
        calls: &mut C,
        turns_left: u64,
    ) -> StintEnd
        requires kernel { IsKernel self.old }
        requires taken { IsSome self.old.taken }
        requires working { C.failed calls.old None }
        ensures exact { WhereTold (C.state calls.old) (C.state calls.new) (λ s t. (m : Machine) (p : Name) (others : List Name) →
            IsAt code.now self.old s turns_left m p others → GoesTo code.now.words result turns_left self.new t m p others) }
        ensures asked { WhereTold (C.state calls.old) (C.state calls.new) (λ s t. (m : Machine) (p : Name) (others : List Name) →
            IsAt code.now self.old s turns_left m p others → BreaksBy (C.failed calls.new) code.now.words result turns_left t m p others) }
        ensures names { WhereTold (C.state calls.old) (C.state calls.new) (λ s t. (m : Machine) (p : Name) (others : List Name) (n : Naming) →
            IsAt code.now self.old s turns_left m p others → HoldsBy n self.old m (Some p) others →
            GoesBy code.now.words result turns_left self.old n self.new t m p others) }
        ensures ends { WhereTold (C.state calls.old) (C.state calls.new) (λ s t. (m : Machine) (p : Name) (others : List Name) (n : Naming) →
            IsAt code.now self.old s turns_left m p others → HoldsBy n self.old m (Some p) others →
            BreaksRunBy code.now.words result turns_left self.old n self.new t m p others) }
        ensures entry { self.old.entering ≡ true → turns_left ≡ 0 → result ≡ StintEnd.Over 0 Ending.Turns }
        ensures untouched { self.old.entering ≡ true → turns_left ≡ 0 → calls.new ≡ calls.old }
        ensures kernel { IsKernel self.new }
        ensures free { is_over result ≡ false → self.new.taken ≡ None }
        ensures entering { is_over result ≡ false → self.new.entering ≡ false }
        ensures standing { StandsAfter result self.old.taken (ready_slots self.old.table) self.new.table self.new.arrived }
        ensures failed { MayFail result self.new.failed }
        ensures spent { is_over result ≡ false → 0 < used_in result }
        ensures used { used_in result ≤ turns_left }
        ensures blame { Blamed (faulted result) (C.failed calls.new) (C.faults calls.old) (C.faults calls.new) }
        ensures lasts { CallsLast C.faults C.references C.leads calls.old calls.new }
        ensures turns { self.new.used ≡ min (self.old.used + used_in result) (2 ^ 64 - 1) }
    {
        let used_before = self.used;
        let entry = entry_turns(self.entering);
        if turns_left < entry {
            self.arrived = None;
            self.failed = false;
            return StintEnd::Over {
                used: 0,
                ending: Ending::Turns,
            };
        }
        self.entering = false;
        let end = later_by(self.go(code, calls, turns_left - entry, true), entry);
        self.used = used_before.saturating_add(used_in(end));
        end
    }
}
