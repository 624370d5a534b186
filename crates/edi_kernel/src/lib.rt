//! The kernel: it runs code on the abstract machine, with up to 32 processes in one memory.
#![tactic(auto)]

mod ends;
mod fork;
mod frames;
mod kept;
pub mod laws;
mod run;
mod state;
mod stretch;
mod table;

ghost use Rattle.std.specs.Option.{option_map};
ghost use Rattle.std.specs.Prelude.{◌≡◌, ◌≤◌, ◌<◌, ◌+◌, ◌-◌, ◌^◌, min, length, slice_get, slice_index, [], None, Some, IsSome, IfOk, IfSome, ℕ, List, true, false, ◌↔◌, IsTrue};
ghost use Rattle.edi_told.specs.Told.{WhereTold};
ghost use Rattle.edi_store.specs.Memory.{zero_memory};
ghost use Rattle.edi_store.specs.Copied.{IsMemory};
ghost use Rattle.edi_calls.specs.declared.ends.Outside.{Outside};
ghost use Rattle.edi_calls.specs.Names.{Name};
ghost use Rattle.edi_calls.specs.Ready.{name_at, without_index};
ghost use Rattle.edi_ring.specs.Lists.{home_of};
ghost use Rattle.edi_machine.specs.Activities.{IsOrdered};
ghost use Rattle.edi_target.specs.Mach.{Machine};
ghost use Rattle.edi_kernel.specs.Table.{first_home, is_live, is_waiting, no_marks, process_at, ready_slots};
ghost use Rattle.edi_kernel.specs.Stretch.{Blamed};
ghost use Rattle.edi_kernel.specs.Kernel.{BreaksBy, GoesTo, Holds, IsKernel, MayFail, StandsAfter, StandsAtEnd, fault_of, faulted, is_over, used_in};
ghost use Rattle.edi_kernel.specs.Kept.{IsCleared, IsKeptOf, IsMarkCount, IsWhole, LinesUp, PutsBack, TakesAt, below_of};
ghost use Rattle.edi_kernel.specs.TableIsMachine.{Naming};
ghost use Rattle.edi_kernel.specs.Named.{BreaksRunBy, ChoosesBy, GoesBy, HoldsBy};
ghost use Rattle.edi_kernel.specs.Runs.{Chooses, FaultsBy, IsAt, RunsTo, StandsIn, Started, TakesNext};

use edi_calls::Calls;
use edi_machine::Activity;
use edi_store::{Segment, Store};
use edi_target::Code;
use edi_trace::Choices;
pub use ends::{Ending, StintEnd};
pub use frames::Below;
use frames::frame_below;
pub use kept::Kept;
use state::KernelState;
use std::alloc::{AllocError, Global};
use std::marker::Model;
pub use table::Standing;
use table::Table;

/// A kernel: one memory of 65,536 words, up to 32 live processes, and the list of those that are ready.
///
/// Contracts see what it keeps, and by `Holds` the machine that it stands for.
#[derive(Drop)]
pub struct Kernel {
    state: KernelState,
}

impl Model for Kernel {
    ghost use Rattle.edi_kernel.specs.declared.state.KernelState.{KernelState};
    ghost use Rattle.edi_kernel.specs.Kernel.{IsKernel};

    ghost Value = { KernelState };

    ghost view = { λ k. k.state };

    ghost invariant = { λ k. IsKernel k.state };
}

/// The activity of a kernel that has run nothing.
const IDLE: Activity = Activity {
    base: 0,
    end: 5,
    top: 5,
    pc: 0,
    segment: Segment {
        first: 0,
        last: 65_536,
    },
    held: 0,
};

impl Kernel {
    /// A kernel that has run nothing. All its memory is taken here; the only error is want of memory.
    pub fn new(alloc: Global) -> Result<Kernel, AllocError>
        ensures words { IfOk result (λ k. k.store ≡ zero_memory) }
        ensures turns { IfOk result (λ k. k.used ≡ 0) }
        ensures taken { IfOk result (λ k. k.taken ≡ None) }
        ensures standing { IfOk result (λ k. k.arrived ≡ None) }
        ensures failed { IfOk result (λ k. k.failed ≡ false) }
        ensures ready { IfOk result (λ k. ready_slots k.table ≡ []) }
    {
        let store = Store::new(alloc)?;
        let state = KernelState {
            store,
            table: Table::first(IDLE),
            taken: None,
            entering: false,
            arrived: None,
            failed: false,
            used: 0,
        };
        Ok(Kernel { state })
    }

    /// Clears the memory. The first process of the code is taken, and the turn of its entry is due.
    pub fn start(&mut self, code: &Code)
        ensures exact { Started code.now self.new }
        ensures taken { IsSome self.new.taken }
    {
        self.state.start(code);
    }

    /// Whether a process is taken.
    pub fn is_taken(&self) -> bool
        ensures { IsTrue result ↔ IsSome self.now.taken }
    {
        self.state.taken.is_some()
    }

    /// The slot of the process that is taken, if one is. After an end of the run, but at a standstill, it is the one whose instruction ended it.
    pub fn taken(&self) -> Option<usize>
        ensures exact { result ≡ self.now.taken }
        ensures inside { IfSome result (λ slot. slot < 32) }
    {
        self.state.taken
    }

    /// The number of processes that are ready, at most 32. The one that is taken is none of them.
    pub fn ready(&self) -> usize
        ensures exact { result ≡ length (ready_slots self.now.table) }
        ensures few { result ≤ 32 }
    {
        self.state.table.ready()
    }

    /// The process that is taken goes on until it gives way, the run ends, or `turns_left` turns are used up and
    /// another is due. The first stint after the start takes the turn of the program's entry first. A stint takes a turn, unless
    /// the run ends in it.
    ///
    /// The end is that of the machine's definition, from each machine that the kernel is, where the state of the system
    /// is told. `Fault` comes only where an object outside failed in this call: by the definition the process then stands at
    /// a system call that was to be answered, after as many turns, and the state of the system is one that it may leave.
    ///
    /// Names stay: each process that lives on keeps its slot and its name, and children have names of their own. `failed` tells whether
    /// the last instruction of a stint that switches is the end of an attempt that has failed.
    ///
    /// After each end of the run but `Fault` the kernel is the machine of that end, by the same names. At a standstill nobody is taken; after
    /// the other ends the process is that ended the run. It goes on where its last instruction stands, or after `Turns` behind it.
    pub fn stint<C: Calls>(&mut self, code: &Code, calls: &mut C, turns_left: u64) -> StintEnd
        requires taken { IsSome self.old.taken }
        requires working { C.failed calls.old None }
        ensures exact { WhereTold (C.state calls.old) (C.state calls.new) (λ s t. (m : Machine) (p : Name) (others : List Name) →
            IsAt code.now self.old s turns_left m p others → GoesTo code.now.words result turns_left self.new t m p others) }
        // The system call that failed uses the object that has failed.
        ensures asked { WhereTold (C.state calls.old) (C.state calls.new) (λ s t. (m : Machine) (p : Name) (others : List Name) →
            IsAt code.now self.old s turns_left m p others → BreaksBy (C.failed calls.new) code.now.words result turns_left t m p others) }
        ensures names { WhereTold (C.state calls.old) (C.state calls.new) (λ s t. (m : Machine) (p : Name) (others : List Name) (n : Naming) →
            IsAt code.now self.old s turns_left m p others → HoldsBy n self.old m (Some p) others →
            GoesBy code.now.words result turns_left self.old n self.new t m p others) }
        ensures ends { WhereTold (C.state calls.old) (C.state calls.new) (λ s t. (m : Machine) (p : Name) (others : List Name) (n : Naming) →
            IsAt code.now self.old s turns_left m p others → HoldsBy n self.old m (Some p) others →
            BreaksRunBy code.now.words result turns_left self.old n self.new t m p others) }
        ensures entry { self.old.entering ≡ true → turns_left ≡ 0 → result ≡ StintEnd.Over 0 Ending.Turns }
        ensures untouched { self.old.entering ≡ true → turns_left ≡ 0 → calls.new ≡ calls.old }
        ensures free { is_over result ≡ false → self.new.taken ≡ None }
        ensures entering { is_over result ≡ false → self.new.entering ≡ false }
        ensures standing { StandsAfter result self.old.taken (ready_slots self.old.table) self.new.table self.new.arrived }
        ensures failed { MayFail result self.new.failed }
        ensures spent { is_over result ≡ false → 0 < used_in result }
        ensures used { used_in result ≤ turns_left }
        ensures later { (outside : Outside) → C.faults calls.old outside ≤ C.faults calls.new outside }
        ensures blame { Blamed (faulted result) (C.failed calls.new) (C.faults calls.old) (C.faults calls.new) }
        ensures references { C.references calls.new ≡ C.references calls.old }
        ensures leads { (start : C) → C.leads start calls.old → C.leads start calls.new }
        ensures turns { self.new.used ≡ min (self.old.used + used_in result) (2 ^ 64 - 1) }
        ensures kernel { IsKernel self.new }
    {
        self.state.stint(code, calls, turns_left)
    }

    /// Takes the next process: of k ready ones that at index c modulo k of the ready list, counted from 0, c being the next
    /// choice; a single one without a choice. None is taken before, and one is ready. All else that the kernel keeps is as before, also the activity that
    /// `standing` gives.
    pub fn choose(&mut self, choices: &mut Choices)
        requires free { self.old.taken ≡ None }
        requires some { 0 < length (ready_slots self.old.table) }
        ensures exact { choices.old.drawn < 2 ^ 64 - 1 → (m : Machine) (ready : List Name) →
            Holds self.old m None ready → Chooses self.new m choices.old choices.new ready }
        ensures names { choices.old.drawn < 2 ^ 64 - 1 → (n : Naming) (m : Machine) (ready : List Name) →
            HoldsBy n self.old m None ready → ChoosesBy n self.new m choices.old choices.new ready }
        ensures takes { TakesNext self.old self.new choices.old choices.new }
        ensures taken { IsSome self.new.taken }
        ensures source { choices.new.source ≡ choices.old.source }
        ensures drawn { choices.new.drawn ≤ choices.old.drawn + 1 }
        ensures entering { self.new.entering ≡ self.old.entering }
        ensures turns { self.new.used ≡ self.old.used }
        ensures kernel { IsKernel self.new }
    {
        self.state.choose(choices);
    }

    /// The number of processes that are marked: that have failed an attempt since anything else happened. At most 32.
    ///
    /// Where it is 0 the machine has none that is marked among those that are ready.
    pub fn marked(&self) -> usize
        requires free { self.now.taken ≡ None }
        ensures exact { result ≡ self.now.table.marks }
        ensures marks { (m : Machine) (ready : List Name) → Holds self.now m None ready → IsMarkCount result m.marks ready }
        ensures memory { IsMemory self.now.store }
    {
        self.state.marked()
    }

    /// The slot of the process at this index of the ready list, counted from 0; `None` exactly where the list ends before.
    pub fn ready_slot(&self, index: usize) -> Option<usize>
        ensures { result ≡ slice_get (ready_slots self.now.table) index }
    {
        self.state.table.ready_at(index)
    }

    /// Whether a process lives at this slot, of those below 32.
    pub fn lives(&self, slot: usize) -> bool
        ensures { result ≡ is_live self.now.table slot }
    {
        self.state.table.lives(slot)
    }

    /// What is kept of the live process at this slot. The only error is want of memory.
    pub fn keep(&self, alloc: Global, slot: usize) -> Result<Kept, AllocError>
        requires lives { is_live self.now.table slot ≡ true }
        ensures exact { IfOk result (λ kept. IsKeptOf self.now kept) }
        ensures slot { IfOk result (λ kept. kept.slot ≡ slot) }
        ensures whole { IfOk result IsWhole }
    {
        self.state.keep(alloc, slot)
    }

    /// Forgets all processes, but no words. To this kernel processes are put back, the first one among them, and then those that
    /// are ready line up; by `laws::stands_again` it is then the machine again of which they were kept.
    pub fn clear(&mut self)
        ensures exact { IsCleared self.old self.new }
        ensures kernel { IsKernel self.new }
    {
        self.state.clear();
    }

    /// Puts a process back at its slot, where no other has been put back.
    pub fn put_back(&mut self, kept: &Kept)
        requires free { self.old.taken ≡ None }
        requires whole { IsWhole kept.now }
        requires absent { home_of self.old.table.lists kept.now.slot ≡ first_home kept.now.slot }
        ensures exact { PutsBack kept.now self.old self.new }
        ensures kernel { IsKernel self.new }
    {
        self.state.put_back(kept);
    }

    /// The process at this slot, which is in no list and does not wait, becomes the last of the ready ones. Nobody is marked.
    pub fn line_up(&mut self, slot: usize)
        requires free { self.old.taken ≡ None }
        requires slot { slot < 32 }
        requires homeless { home_of self.old.table.lists slot ≡ None }
        requires going { is_waiting (process_at self.old.table slot).standing ≡ false }
        requires unmarked { self.old.table.marked ≡ no_marks }
        ensures exact { LinesUp slot self.old self.new }
        ensures kernel { IsKernel self.new }
    {
        self.state.line_up(slot);
    }

    /// Takes the process at this index of the ready list, counted from 0, as `choose` does by a choice. None is taken before.
    pub fn take(&mut self, index: usize)
        requires free { self.old.taken ≡ None }
        requires index { index < length (ready_slots self.old.table) }
        ensures exact { (m : Machine) (ready : List Name) → Holds self.old m None ready
            → Holds self.new m (Some (name_at ready index)) (without_index ready index) }
        ensures takes { TakesAt index self.old self.new }
        ensures kernel { IsKernel self.new }
    {
        self.state.take(index);
    }

    /// Runs the code from its start until the run ends, with at most `bound` turns.
    ///
    /// The ending, the turns, the number of choices drawn and the state of the system are those of the machine's
    /// definition, where that state is told, and after `Done`, `Halted` and `Failed` the words of the memory are too.
    /// `Fault` comes only where an object outside failed in this call: by the definition the run then stands at a system
    /// call that was to be answered, after as many turns and choices, and the state of the system is one that it may leave.
    ///
    /// After each end but `Fault` the kernel is the machine of that end: `process`, `below` and `word` tell how its processes stand there, and
    /// `taken` which of them ended the run. That process goes on where its last instruction stands, or after `Turns` behind it.
    pub fn run<C: Calls>(
        &mut self,
        code: &Code,
        calls: &mut C,
        bound: u64,
        choices: &mut Choices,
    ) -> Ending
        requires working { C.failed calls.old None }
        ensures exact { choices.old.drawn + bound < 2 ^ 64 → WhereTold (C.state calls.old) (C.state calls.new) (λ s t.
            RunsTo code.now s bound choices.old result self.new.store self.new.used t choices.new) }
        // The system call that failed uses the object that has failed.
        ensures asked { choices.old.drawn + bound < 2 ^ 64 → WhereTold (C.state calls.old) (C.state calls.new) (λ s t.
            FaultsBy (C.failed calls.new) code.now s bound choices.old result self.new.used t choices.new) }
        ensures stands { choices.old.drawn + bound < 2 ^ 64 → WhereTold (C.state calls.old) (C.state calls.new) (λ s t.
            StandsIn code.now s bound choices.old result self.new choices.new) }
        ensures standing { StandsAtEnd (Some result) self.new.table self.new.arrived }
        ensures used { self.new.used ≤ bound }
        ensures source { choices.new.source ≡ choices.old.source }
        ensures drawn { choices.new.drawn ≤ choices.old.drawn + bound }
        ensures later { (outside : Outside) → C.faults calls.old outside ≤ C.faults calls.new outside }
        ensures blame { Blamed (fault_of (Some result)) (C.failed calls.new) (C.faults calls.old) (C.faults calls.new) }
        ensures references { C.references calls.new ≡ C.references calls.old }
        ensures leads { (start : C) → C.leads start calls.old → C.leads start calls.new }
    {
        self.state.run(code, calls, bound, choices)
    }

    /// The turns that the last run took, or that the stints since the last start took together; 0 before any. The number
    /// stands still at `u64::MAX`.
    pub fn turns_used(&self) -> u64
        ensures { result ≡ self.now.used }
    {
        self.state.used
    }

    /// The activity that the last instruction of the last stint left standing at its `when`, if it took its turn so: after
    /// `Arrived` and a standstill the one with which the process stands that went to the back of the ready ones. After a run
    /// it is that of its last stint.
    pub fn standing(&self) -> Option<Activity>
        ensures exact { result ≡ self.now.arrived }
        ensures ordered { IfSome result IsOrdered }
    {
        self.state.arrived
    }

    /// The address in the code at which the activity of `standing` goes on, if it tells one. It is asked without that activity.
    #[inline(always)]
    pub fn standing_at(&self) -> Option<u32>
        ensures { result ≡ option_map (λ a. a.pc) self.now.arrived }
    {
        match &self.state.arrived {
            Some(activity) => Some(activity.pc),
            None => None,
        }
    }

    /// Whether the last stint ended by an attempt that failed: one of which no condition was true. It is `false` between the start and the
    /// end of the first stint. After `run` it is open.
    pub fn failed(&self) -> bool
        ensures { result ≡ self.now.failed }
    {
        self.state.failed
    }

    /// What the process at this slot, of those below 32, does while it is not taken, and its activity. Where no process lives these say
    /// nothing.
    pub fn process(&self, slot: usize) -> (Standing, Activity)
        requires { slot < 32 }
        ensures standing { result.0 ≡ (process_at self.now.table slot).standing }
        ensures activity { result.1 ≡ (process_at self.now.table slot).activity }
        ensures ordered { IsOrdered result.1 }
    {
        self.state.table.process(slot)
    }

    /// The slot of the parent of the process at this slot, of those below 32. The first process stands for its own parent.
    pub fn parent(&self, slot: usize) -> usize
        requires { slot < 32 }
        ensures exact { result ≡ (process_at self.now.table slot).parent }
        ensures inside { result < 32 }
    {
        self.state.table.processes[slot].parent
    }

    /// The frame below the one at `base`, in the segment that begins at `first`; none below the lowest.
    pub fn below(&self, first: u32, base: u32) -> Option<Below>
        requires within { base + 5 ≤ 2 ^ 16 }
        ensures exact { result ≡ below_of self.now.store first base }
        ensures within { IfSome result (λ frame. frame.base + 5 ≤ 2 ^ 16) }
        ensures lower { IfSome result (λ frame. frame.base < base) }
    {
        frame_below(&self.state.store, first, base)
    }

    /// The word of the memory at `at`.
    pub fn word(&self, at: u16) -> u16
        ensures exact { result ≡ slice_index self.now.store at }
        ensures whole { IsMemory self.now.store }
    {
        self.state.store.get(at)
    }
}
