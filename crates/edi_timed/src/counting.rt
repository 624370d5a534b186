//! A run of whose further stints only the number is kept.

ghost use Rattle.std.specs.Option.{option_map};
ghost use Rattle.std.specs.Prelude.{◌≡◌, ◌+◌, ◌-◌, ◌<◌, ◌≤◌, ◌^◌, None, Some, IsSome, Option, List};
ghost use Rattle.edi_told.specs.Told.{WhereTold};
ghost use Rattle.edi_calls.specs.Ends.{CallsLast};
ghost use Rattle.edi_calls.specs.State.{State};
ghost use Rattle.edi_trace.specs.Drawn.{Drawn};
ghost use Rattle.edi_kernel.specs.Stretch.{Blamed};
ghost use Rattle.edi_kernel.specs.Kernel.{IsKernel, fault_of};
ghost use Rattle.edi_timeline.specs.Adding.{counted};
ghost use Rattle.edi_timeline.specs.Timelines.{Told};
ghost use Rattle.edi_timeline.specs.Told.{meant};
ghost use Rattle.edi_timed.specs.declared.seats.Seated.{Seated};
ghost use Rattle.edi_timed.specs.Underway.{AsksFailed, CountsOn, Going, RoundsTo};

use crate::leaving::ending_after;
use crate::unheard::Unheard;
use edi_calls::Calls;
use edi_kernel::{Ending, Kernel};
use edi_target::Code;
use edi_timeline::Timeline;
use edi_trace::Choices;

// A stint, and the choice of the next process. The answer is the ending, if the run has ended. A full timeline gets of it that it is one more.
#[inline(always)]
fn counted_round<C: Calls>(
    kernel: &mut Kernel,
    code: &Code,
    calls: &mut Unheard<'_, C>,
    bound: u32,
    choices: &mut Choices,
) -> Option<Ending>
    requires taken { IsSome kernel.old.taken }
    requires kernel { IsKernel kernel.old }
    requires working { C.failed calls.old.calls.now None }
    requires used { kernel.old.used ≤ bound }
    ensures exact { (seats : List Seated) (told : Told) → 100000 ≤ told.count → choices.old.drawn + (bound - kernel.old.used) < 2 ^ 64 →
        WhereTold (C.state calls.old.calls.now) (C.state calls.new.calls.now) (λ x y.
        (s : State) (first : Drawn) → first.source ≡ choices.old.source → Going code.now s bound first kernel.old x choices.old seats told →
        RoundsTo code.now s bound first result kernel.new y choices.new seats (counted told (option_map meant result))) }
    // The system call that failed uses the object that has failed.
    ensures asked { (seats : List Seated) (told : Told) → WhereTold (C.state calls.old.calls.now) (C.state calls.new.calls.now) (λ x y.
        (s : State) (first : Drawn) → first.source ≡ choices.old.source → Going code.now s bound first kernel.old x choices.old seats told →
        AsksFailed code.now s bound first (C.failed calls.new.calls.now) result kernel.new y choices.new) }
    ensures same_reference { calls.new.calls.ghost_name ≡ calls.old.calls.ghost_name }
    ensures taken { result ≡ None → IsSome kernel.new.taken }
    ensures kernel { result ≡ None → IsKernel kernel.new }
    ensures used { kernel.new.used ≤ bound }
    ensures spent { result ≡ None → kernel.old.used < kernel.new.used }
    ensures source { choices.new.source ≡ choices.old.source }
    ensures drawn { choices.new.drawn + kernel.old.used ≤ choices.old.drawn + kernel.new.used }
    ensures blame { Blamed (fault_of result) (C.failed calls.new.calls.now) (C.faults calls.old.calls.now) (C.faults calls.new.calls.now) }
    ensures lasts { CallsLast C.faults C.references C.leads calls.old.calls.now calls.new.calls.now }
{
    let left = u64::from(bound) - kernel.turns_used();
    let end = kernel.stint(code, calls, left);
    let ended = ending_after(kernel.ready(), end);
    if let Some(ending) = ended {
        return Some(ending);
    }
    kernel.choose(choices);
    None
}

// Rounds until the run ends. The timeline gets their number at the end.
fn count_rounds<C: Calls>(
    kernel: &mut Kernel,
    code: &Code,
    calls: &mut Unheard<'_, C>,
    bound: u32,
    choices: &mut Choices,
    timeline: &mut Timeline,
) -> Ending
    requires taken { IsSome kernel.old.taken }
    requires kernel { IsKernel kernel.old }
    requires working { C.failed calls.old.calls.now None }
    requires used { kernel.old.used ≤ bound }
    requires full { 100000 ≤ timeline.old.count }
    requires count { timeline.old.count ≤ kernel.old.used }
    ensures counts { CountsOn C.state C.failed code.now bound kernel.old kernel.new calls.old.calls.now calls.new.calls.now choices.old choices.new
        timeline.old timeline.new result }
    ensures same_reference { calls.new.calls.ghost_name ≡ calls.old.calls.ghost_name }
    ensures used { kernel.new.used ≤ bound }
    ensures source { choices.new.source ≡ choices.old.source }
    ensures drawn { choices.new.drawn + kernel.old.used ≤ choices.old.drawn + bound }
    ensures blame { Blamed (fault_of (Some result)) (C.failed calls.new.calls.now) (C.faults calls.old.calls.now) (C.faults calls.new.calls.now) }
    ensures lasts { CallsLast C.faults C.references C.leads calls.old.calls.now calls.new.calls.now }
{
    let mut before: u64 = 0;
    'rounds: loop {
        if let Some(ending) = counted_round(kernel, code, calls, bound, choices) {
            timeline.skip(before + 1, Some(ending));
            return ending;
        }
        before += 1;
    }
}

/// Goes on with a run until it ends, where the timeline is full. Its further stints are counted.
pub(crate) fn count_on<C: Calls>(
    kernel: &mut Kernel,
    code: &Code,
    calls: &mut C,
    bound: u32,
    choices: &mut Choices,
    timeline: &mut Timeline,
) -> Ending
    requires taken { IsSome kernel.old.taken }
    requires kernel { IsKernel kernel.old }
    requires working { C.failed calls.old None }
    requires used { kernel.old.used ≤ bound }
    requires full { 100000 ≤ timeline.old.count }
    requires count { timeline.old.count ≤ kernel.old.used }
    ensures counts { CountsOn C.state C.failed code.now bound kernel.old kernel.new calls.old calls.new choices.old choices.new timeline.old timeline.new
        result }
    ensures used { kernel.new.used ≤ bound }
    ensures source { choices.new.source ≡ choices.old.source }
    ensures drawn { choices.new.drawn + kernel.old.used ≤ choices.old.drawn + bound }
    ensures blame { Blamed (fault_of (Some result)) (C.failed calls.new) (C.faults calls.old) (C.faults calls.new) }
    ensures lasts { CallsLast C.faults C.references C.leads calls.old calls.new }
{
    let mut unheard = Unheard::new(calls);
    count_rounds(kernel, code, &mut unheard, bound, choices, timeline)
}
