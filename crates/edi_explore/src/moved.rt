//! Runs whose moves are counted.

ghost use Rattle.std.specs.Prelude.{◌≡◌, ◌≤◌, ◌<◌, ◌+◌, ◌-◌, ◌^◌, ℕ, List, None, Some, IsSome};
ghost use Rattle.edi_calls.specs.Names.{Name};
ghost use Rattle.edi_calls.specs.State.{State};
ghost use Rattle.edi_target.specs.Mach.{Machine};
ghost use Rattle.edi_trace.specs.Drawn.{Drawn};
ghost use Rattle.edi_kernel.specs.Kernel.{Holds, IsKernel, ended_by};
ghost use Rattle.edi_kernel.specs.Runs.{Proceeds};
ghost use Rattle.edi_explore.specs.Underway.{Comes, IsUnderway, counted_by};
ghost use Rattle.edi_explore.specs.Systems.{system_of};

use crate::offline::Offline;
use edi_kernel::{Ending, Kernel, StintEnd};
use edi_target::Code;
use edi_trace::Choices;

/// How a run has ended, and how many moves it had.
#[derive(Clone, Copy)]
pub(crate) struct Ran {
    pub(crate) ending: Ending,
    pub(crate) moves: usize,
}

/// How the run has ended, if it has by a stint that ended so.
fn ended_by(end: StintEnd) -> Option<Ending>
    ensures exact { result ≡ ended_by end }
{
    match end {
        StintEnd::Over { ending, .. } => Some(ending),
        _ => None,
    }
}

/// The moves after a stint that has not ended the run: one more, unless the process has failed an attempt that marks it.
fn counted(kernel: &Kernel, moves: usize) -> usize
    requires free { kernel.now.taken ≡ None }
    requires room { moves < 2 ^ 64 - 1 }
    ensures exact { result ≡ counted_by kernel.now.table.marks moves }
{
    if kernel.marked() > 0 {
        return moves;
    }
    moves + 1
}

/// Takes the next process, if one is ready.
fn proceed(kernel: &mut Kernel, choices: &mut Choices) -> Option<Ending>
    requires kernel { IsKernel kernel.old }
    requires free { kernel.old.taken ≡ None }
    ensures exact { choices.old.drawn < 2 ^ 64 - 1 → (m : Machine) (ready : List Name) → Holds kernel.old m None ready
        → Proceeds result kernel.new m choices.old choices.new ready }
    ensures taken { result ≡ None → IsSome kernel.new.taken }
    ensures source { choices.new.source ≡ choices.old.source }
    ensures drawn { choices.new.drawn ≤ choices.old.drawn + 1 }
    ensures entering { kernel.new.entering ≡ kernel.old.entering }
    ensures turns { kernel.new.used ≡ kernel.old.used }
    ensures kernel { IsKernel kernel.new }
{
    if kernel.ready() == 0 {
        return Some(Ending::Standstill);
    }
    kernel.choose(choices);
    None
}

/// A stint of the process that is taken, and the choice of the next. The answer is the ending, if the run has ended.
pub(crate) fn round(
    kernel: &mut Kernel,
    code: &Code,
    calls: &mut Offline,
    bound: u64,
    choices: &mut Choices,
    moves: &mut usize,
) -> Option<Ending>
    requires kernel { IsKernel kernel.old }
    requires taken { IsSome kernel.old.taken }
    requires working { calls.old.failed ≡ None }
    requires used { kernel.old.used ≤ bound }
    requires few { moves.old ≤ kernel.old.used }
    ensures exact { choices.old.drawn + (bound - kernel.old.used) < 2 ^ 64 → (s : State) (first : Drawn) → first.source ≡ choices.old.source →
        IsUnderway code.now s bound first.source kernel.old (system_of calls.old) choices.old moves.old →
        Comes code.now s bound first.source result kernel.new (system_of calls.new) choices.new moves.new }
    ensures taken { result ≡ None → IsSome kernel.new.taken }
    ensures working { result ≡ None → calls.new.failed ≡ None }
    ensures used { kernel.new.used ≤ bound }
    ensures spent { result ≡ None → kernel.old.used < kernel.new.used }
    ensures few { result ≡ None → moves.new ≤ kernel.new.used }
    ensures source { choices.new.source ≡ choices.old.source }
    ensures drawn { choices.new.drawn + kernel.old.used ≤ choices.old.drawn + kernel.new.used }
    ensures kernel { IsKernel kernel.new }
{
    let left = bound - kernel.turns_used();
    let end = kernel.stint(code, calls, left);
    if let Some(ending) = ended_by(end) {
        return Some(ending);
    }
    *moves = counted(kernel, *moves);
    proceed(kernel, choices)
}

/// Runs the code from its start until the run ends, with at most `bound` turns, and counts its moves.
pub(crate) fn run_counted(
    kernel: &mut Kernel,
    code: &Code,
    calls: &mut Offline,
    bound: u64,
    choices: &mut Choices,
) -> Ran
    requires working { calls.old.failed ≡ None }
    requires first { choices.old.drawn ≡ 0 }
    ensures exact { Comes code.now (system_of calls.old) bound choices.old.source (Some result.ending) kernel.new (system_of calls.new) choices.new result.moves }
    ensures used { kernel.new.used ≤ bound }
{
    kernel.start(code);
    let mut moves: usize = 0;
    if bound == 0 {
        return Ran {
            ending: Ending::Turns,
            moves,
        };
    }
    'rounds: loop {
        if let Some(ending) = round(kernel, code, calls, bound, choices, &mut moves) {
            return Ran { ending, moves };
        }
    }
}
