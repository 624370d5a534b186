//! A run of code whose processes are named.

ghost use Rattle.std.specs.Prelude.{◌≡◌, ◌≤◌, ◌<◌, ◌+◌, ◌-◌, ◌^◌, Some, None, IsSome, IfOk, IfSome, ℕ, List, length};
ghost use Rattle.edi_told.specs.Told.{WhereTold};
ghost use Rattle.edi_calls.specs.declared.ends.Outside.{Outside};
ghost use Rattle.edi_calls.specs.Ends.{CallsLast};
ghost use Rattle.edi_calls.specs.Names.{Name};
ghost use Rattle.edi_calls.specs.State.{State};
ghost use Rattle.edi_target.specs.Mach.{Machine};
ghost use Rattle.edi_trace.specs.Drawn.{Drawn};
ghost use Rattle.edi_kernel.specs.Stretch.{Blamed};
ghost use Rattle.edi_kernel.specs.Kernel.{IsKernel, StandsAtEnd, ended_by, fault_of};
ghost use Rattle.edi_kernel.specs.Named.{HoldsBy};
ghost use Rattle.edi_kernel.specs.Runs.{EndsUnready, FaultsBy, RunsTo, StandsIn};
ghost use Rattle.edi_kernel.specs.TableIsMachine.{Naming};
ghost use Rattle.edi_waits.specs.Names.{FollowsNames, LivesBefore};
ghost use Rattle.edi_waits.specs.Runs.{AsksFailed, Comes, EndsNamed, Going, ProceedsBy};
ghost use Rattle.edi_waits.specs.Told.{all_of};
ghost use Rattle.edi_waits.specs.Waits.{EndsOtherwise, StandsSo};

use crate::births::Names;
use crate::waits::{Wait, waits_by};
use edi_calls::Calls;
use edi_kernel::{Ending, Kernel, StintEnd};
use edi_target::Code;
use edi_trace::Choices;
use std::alloc::{AllocError, Global};

/// How the run has ended, if it has by a stint that ended so.
fn ended_by(end: StintEnd) -> Option<Ending>
    ensures exact { result ≡ ended_by end }
{
    match end {
        StintEnd::Over { ending, .. } => Some(ending),
        _ => None,
    }
}

/// Names the children after a stint that ended so, of the process at this slot, before which so many were ready.
fn follow_names(
    names: &mut Names,
    kernel: &Kernel,
    slot: Option<usize>,
    before: usize,
    end: StintEnd,
)
    requires slot { IfSome slot (λ slot. slot < 32) }
    requires wide { length names.old.births ≡ 32 }
    ensures follows { FollowsNames end slot before kernel.now names.old names.new }
    ensures wide { length names.new.births ≡ 32 }
{
    if let StintEnd::Forked { .. } = end {
        if let Some(slot) = slot {
            names.fork(kernel, slot, before);
        }
    }
}

/// Takes the next process, if one is ready.
fn proceed(kernel: &mut Kernel, choices: &mut Choices) -> Option<Ending>
    requires kernel { IsKernel kernel.old }
    requires free { kernel.old.taken ≡ None }
    ensures exact { choices.old.drawn < 2 ^ 64 - 1 → (n : Naming) (m : Machine) (ready : List Name) → HoldsBy n kernel.old m None ready
        → ProceedsBy result n kernel.old kernel.new m choices.old choices.new ready }
    ensures lives { LivesBefore kernel.old.table kernel.new.table }
    ensures taken { result ≡ None → IsSome kernel.new.taken }
    ensures nobody { EndsUnready result kernel.old kernel.new }
    ensures source { choices.new.source ≡ choices.old.source }
    ensures drawn { choices.new.drawn ≤ choices.old.drawn + 1 }
    ensures entering { kernel.new.entering ≡ kernel.old.entering }
    ensures turns { kernel.new.used ≡ kernel.old.used }
    ensures fault { fault_of result ≡ None }
    ensures kernel { IsKernel kernel.new }
{
    if kernel.ready() == 0 {
        return Some(Ending::Standstill);
    }
    kernel.choose(choices);
    None
}

/// A stint of the process that is taken, the names of the children that it has, and the choice of the next. The answer is the ending, if the run has
/// ended.
fn round<C: Calls>(
    kernel: &mut Kernel,
    code: &Code,
    calls: &mut C,
    bound: u64,
    choices: &mut Choices,
    names: &mut Names,
) -> Option<Ending>
    requires kernel { IsKernel kernel.old }
    requires taken { IsSome kernel.old.taken }
    requires working { C.failed calls.old None }
    requires used { kernel.old.used ≤ bound }
    requires small { bound < 2 ^ 32 }
    requires wide { length names.old.births ≡ 32 }
    ensures exact { choices.old.drawn + (bound - kernel.old.used) < 2 ^ 64 → WhereTold (C.state calls.old) (C.state calls.new) (λ x y.
        (s : State) (first : Drawn) → first.source ≡ choices.old.source → Going code.now s bound first kernel.old x choices.old names.old →
        Comes code.now s bound first result kernel.new y choices.new names.new) }
    // The system call that failed uses the object that has failed.
    ensures asked { WhereTold (C.state calls.old) (C.state calls.new) (λ x y. (s : State) (first : Drawn) →
        first.source ≡ choices.old.source → Going code.now s bound first kernel.old x choices.old names.old →
        AsksFailed code.now s bound first (C.failed calls.new) result kernel.new y choices.new) }
    ensures standing { StandsAtEnd result kernel.new.table kernel.new.arrived }
    ensures taken { result ≡ None → IsSome kernel.new.taken }
    ensures used { kernel.new.used ≤ bound }
    ensures spent { result ≡ None → kernel.old.used < kernel.new.used }
    ensures source { choices.new.source ≡ choices.old.source }
    ensures drawn { choices.new.drawn + kernel.old.used ≤ choices.old.drawn + kernel.new.used }
    ensures blame { Blamed (fault_of result) (C.failed calls.new) (C.faults calls.old) (C.faults calls.new) }
    ensures lasts { CallsLast C.faults C.references C.leads calls.old calls.new }
    ensures wide { length names.new.births ≡ 32 }
    ensures kernel { IsKernel kernel.new }
{
    let slot = kernel.taken();
    let before = kernel.ready();
    let left = bound - kernel.turns_used();
    let end = kernel.stint(code, calls, left);
    follow_names(names, kernel, slot, before, end);
    if let Some(ending) = ended_by(end) {
        return Some(ending);
    }
    proceed(kernel, choices)
}

/// Runs the code from its start until the run ends, with at most `bound` turns, as `Kernel::run` does, and names its processes. It takes no memory.
///
/// After each end but `Fault` the kernel is the machine of that end, and the names are those of its processes.
pub fn run_named<C: Calls>(
    kernel: &mut Kernel,
    code: &Code,
    calls: &mut C,
    bound: u64,
    choices: &mut Choices,
) -> (Ending, Names)
    requires working { C.failed calls.old None }
    requires small { bound < 2 ^ 32 }
    ensures exact { choices.old.drawn + bound < 2 ^ 64 → WhereTold (C.state calls.old) (C.state calls.new) (λ s t.
        RunsTo code.now s bound choices.old result.0 kernel.new.store kernel.new.used t choices.new) }
    // The system call that failed uses the object that has failed.
    ensures asked { choices.old.drawn + bound < 2 ^ 64 → WhereTold (C.state calls.old) (C.state calls.new) (λ s t.
        FaultsBy (C.failed calls.new) code.now s bound choices.old result.0 kernel.new.used t choices.new) }
    ensures stands { choices.old.drawn + bound < 2 ^ 64 → WhereTold (C.state calls.old) (C.state calls.new) (λ s t.
        StandsIn code.now s bound choices.old result.0 kernel.new choices.new) }
    ensures named { choices.old.drawn + bound < 2 ^ 64 → WhereTold (C.state calls.old) (C.state calls.new) (λ s t.
        EndsNamed code.now s bound choices.old result.0 kernel.new choices.new result.1) }
    ensures standing { StandsAtEnd (Some result.0) kernel.new.table kernel.new.arrived }
    ensures used { kernel.new.used ≤ bound }
    ensures source { choices.new.source ≡ choices.old.source }
    ensures drawn { choices.new.drawn ≤ choices.old.drawn + bound }
    ensures later { (outside : Outside) → C.faults calls.old outside ≤ C.faults calls.new outside }
    ensures blame { Blamed (fault_of (Some result.0)) (C.failed calls.new) (C.faults calls.old) (C.faults calls.new) }
    ensures references { C.references calls.new ≡ C.references calls.old }
    ensures leads { (start : C) → C.leads start calls.old → C.leads start calls.new }
{
    kernel.start(code);
    let mut names = Names::first();
    if bound == 0 {
        return (Ending::Turns, names);
    }
    'rounds: loop {
        if let Some(ending) = round(kernel, code, calls, bound, choices, &mut names) {
            return (ending, names);
        }
    }
}

/// Runs the code from its start until the run ends, with at most `bound` turns. If it comes to a standstill, the answer is who waits where in it:
/// each process that stands at a `when` there, and no other; and if it ends otherwise, `None`. The only error is want of memory.
pub fn stand_still<C: Calls>(
    alloc: Global,
    kernel: &mut Kernel,
    code: &Code,
    calls: &mut C,
    bound: u64,
    choices: &mut Choices,
) -> Result<Option<Vec<Wait>>, AllocError>
    requires working { C.failed calls.old None }
    requires small { bound < 2 ^ 32 }
    ensures exact { choices.old.drawn + bound < 2 ^ 64 → WhereTold (C.state calls.old) (C.state calls.new) (λ s t.
        IfOk result (λ found. IfSome found (λ waits. StandsSo code.now s bound choices.old (all_of waits)))) }
    ensures otherwise { choices.old.drawn + bound < 2 ^ 64 → WhereTold (C.state calls.old) (C.state calls.new) (λ s t.
        IfOk result (λ found. found ≡ None → EndsOtherwise code.now s bound choices.old kernel.new t choices.new)) }
{
    let (ending, names) = run_named(kernel, code, calls, bound, choices);
    waits_by(alloc, kernel, code, &names, ending)
}
