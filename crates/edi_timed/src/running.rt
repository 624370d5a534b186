//! A run of code that fills a timeline.

ghost use Rattle.std.specs.Prelude.{◌≡◌, ◌+◌, ◌-◌, ◌<◌, ◌≤◌, ◌^◌, [], None, Some, IsSome, Option, ℕ, List, false, length, nat_le};
ghost use Rattle.edi_told.specs.Told.{WhereTold};
ghost use Rattle.edi_calls.specs.declared.ends.Outside.{Outside};
ghost use Rattle.edi_calls.specs.Ends.{CallsLast};
ghost use Rattle.edi_calls.specs.Names.{Name};
ghost use Rattle.edi_calls.specs.State.{State};
ghost use Rattle.edi_trace.specs.Drawn.{Drawn};
ghost use Rattle.edi_target.specs.Mach.{Machine};
ghost use Rattle.edi_kernel.specs.Stretch.{Blamed};
ghost use Rattle.edi_kernel.specs.Runs.{FaultsBy};
ghost use Rattle.edi_kernel.specs.Table.{ready_slots};
ghost use Rattle.edi_kernel.specs.Kernel.{IsKernel, ended_by, fault_of, is_over};
ghost use Rattle.edi_timed.specs.Leaving as spec;
ghost use Rattle.edi_timed.specs.Leaving.{AddsBy};
ghost use Rattle.edi_timed.specs.Seats.{Fits};
ghost use Rattle.edi_timed.specs.Timed.{Timed};
ghost use Rattle.edi_timed.specs.Underway.{AsksFailed, Going, RoundsTo};

use crate::counting::count_on;
use crate::heard::Heard;
use crate::leaving::{Begun, at_start, came_of, ended_as};
use crate::seats::Seats;
use edi_calls::Calls;
use edi_kernel::{Ending, Kernel, StintEnd};
use edi_target::Code;
use edi_timeline::{Came, Said, Seat, Timeline};
use edi_trace::Choices;

/// The process with which a run begins, before its first stint.
const FIRST: Seat = Seat {
    born: 0,
    fork: 0,
    branch: 0,
    before: 0,
};

/// Nothing was shown.
const NOTHING: Said = Said {
    characters: [0; 7],
    many: 0,
};

// How the run has ended, if it has by a stint that ended so.
fn ended_by(end: StintEnd) -> Option<Ending>
    ensures exact { result ≡ ended_by end }
{
    match end {
        StintEnd::Over { ending, .. } => Some(ending),
        _ => None,
    }
}

// Whether the run has ended so because an object outside failed.
fn is_fault(ended: Option<Ending>) -> bool
    ensures { result ≡ spec.is_fault ended }
{
    match ended {
        Some(Ending::Fault) => true,
        _ => false,
    }
}

// Adds the stint that has ended so.
fn add_stint(
    kernel: &Kernel,
    code: &Code,
    begun: Begun,
    end: StintEnd,
    said: Said,
    seats: &mut Seats,
    timeline: &mut Timeline,
)
    requires inside { begun.slot < 32 }
    requires free { is_over end ≡ false → kernel.now.taken ≡ None }
    requires said { said.many ≤ 7 }
    requires fits { Fits seats.old.items timeline.old }
    requires room { timeline.old.count < 100000 }
    requires turns { kernel.now.used < 2 ^ 32 }
    requires few { length (ready_slots kernel.now.table) ≤ 32 }
    ensures exact { AddsBy (nat_le 100000 timeline.old.count) code.now.words kernel.now begun end said seats.old.items seats.new.items timeline.old timeline.new }
    ensures fits { is_over end ≡ false → Fits seats.new.items timeline.new }
    ensures count { timeline.new.count ≡ timeline.old.count + 1 }
{
    let seated = seats.at(begun.slot);
    let came = came_of(kernel, code, seated.stands, begun, end);
    timeline.add(seated.seat, came, kernel.turns_used() as u32, said);
    seats.move_on(
        kernel,
        begun.slot,
        begun.others,
        came,
        timeline.count() as u32,
    );
}

// What the timeline gets of a stint. The answer is the ending, if the run has ended by it.
fn note(
    kernel: &Kernel,
    code: &Code,
    begun: Begun,
    end: StintEnd,
    said: Said,
    seats: &mut Seats,
    timeline: &mut Timeline,
) -> Option<Ending>
    requires inside { begun.slot < 32 }
    requires free { is_over end ≡ false → kernel.now.taken ≡ None }
    requires said { said.many ≤ 7 }
    requires fits { Fits seats.old.items timeline.old }
    requires room { timeline.old.count < 100000 }
    requires turns { kernel.now.used < 2 ^ 32 }
    requires few { length (ready_slots kernel.now.table) ≤ 32 }
    ensures exact { result ≡ ended_by end }
    ensures adds { (ended_by end ≡ Some Ending.Fault → ⊥) →
        AddsBy (nat_le 100000 timeline.old.count) code.now.words kernel.now begun end said seats.old.items seats.new.items timeline.old timeline.new }
    ensures fits { result ≡ None → Fits seats.new.items timeline.new }
    ensures count { result ≡ None → timeline.new.count ≡ timeline.old.count + 1 }
{
    let ended = ended_by(end);
    if is_fault(ended) {
        return ended;
    }
    add_stint(kernel, code, begun, end, said, seats, timeline);
    ended
}

// A stint, what the timeline gets of it, and the choice of the next process. The answer is the ending, if the run has ended.
fn timed_round<C: Calls>(
    kernel: &mut Kernel,
    code: &Code,
    heard: &mut Heard<'_, C>,
    bound: u32,
    choices: &mut Choices,
    seats: &mut Seats,
    timeline: &mut Timeline,
) -> Option<Ending>
    requires taken { IsSome kernel.old.taken }
    requires kernel { IsKernel kernel.old }
    requires working { C.failed heard.old.calls.now None }
    requires used { kernel.old.used ≤ bound }
    requires fits { Fits seats.old.items timeline.old }
    requires room { timeline.old.count < 100000 }
    requires count { timeline.old.count ≤ kernel.old.used }
    ensures exact { choices.old.drawn + (bound - kernel.old.used) < 2 ^ 64 → WhereTold (C.state heard.old.calls.now) (C.state heard.new.calls.now) (λ x y.
        (s : State) (first : Drawn) → first.source ≡ choices.old.source →
        Going code.now s bound first kernel.old x choices.old seats.old.items timeline.old →
        RoundsTo code.now s bound first result kernel.new y choices.new seats.new.items timeline.new) }
    // The system call that failed uses the object that has failed.
    ensures asked { WhereTold (C.state heard.old.calls.now) (C.state heard.new.calls.now) (λ x y. (s : State) (first : Drawn) →
        first.source ≡ choices.old.source → Going code.now s bound first kernel.old x choices.old seats.old.items timeline.old →
        AsksFailed code.now s bound first (C.failed heard.new.calls.now) result kernel.new y choices.new) }
    ensures same_reference { heard.new.calls.ghost_name ≡ heard.old.calls.ghost_name }
    ensures taken { result ≡ None → IsSome kernel.new.taken }
    ensures kernel { result ≡ None → IsKernel kernel.new }
    ensures used { kernel.new.used ≤ bound }
    ensures spent { result ≡ None → kernel.old.used < kernel.new.used }
    ensures source { choices.new.source ≡ choices.old.source }
    ensures drawn { choices.new.drawn + kernel.old.used ≤ choices.old.drawn + kernel.new.used }
    ensures blame { Blamed (fault_of result) (C.failed heard.new.calls.now) (C.faults heard.old.calls.now) (C.faults heard.new.calls.now) }
    ensures lasts { CallsLast C.faults C.references C.leads heard.old.calls.now heard.new.calls.now }
    ensures fits { result ≡ None → Fits seats.new.items timeline.new }
    ensures count { result ≡ None → timeline.new.count ≤ kernel.new.used }
{
    let begun = at_start(kernel);
    heard.listen();
    let left = u64::from(bound) - kernel.turns_used();
    let stint = kernel.stint(code, heard, left);
    let end = ended_as(kernel.ready(), stint);
    if let Some(ending) = note(kernel, code, begun, end, heard.said(), seats, timeline) {
        return Some(ending);
    }
    kernel.choose(choices);
    None
}

/// Runs the code from its start until the run ends, with at most `bound` turns, and fills a timeline that has no stint. It takes no memory.
///
/// The ending comes as that of `Kernel::run`. After any ending but `Fault` the timeline tells all stints of the run (`stints_of_code`). After `Fault`
/// nothing is said of it.
pub fn timed<C: Calls>(
    kernel: &mut Kernel,
    code: &Code,
    calls: &mut Heard<'_, C>,
    bound: u32,
    choices: &mut Choices,
    timeline: &mut Timeline,
) -> Ending
    requires working { C.failed calls.old.calls.now None }
    requires empty { timeline.old ≡ record { stints = []; count = 0; ending = None } }
    ensures exact { choices.old.drawn + bound < 2 ^ 64 → WhereTold (C.state calls.old.calls.now) (C.state calls.new.calls.now) (λ s t.
        Timed code.now s bound choices.old result kernel.new t choices.new timeline.new) }
    // The system call that failed uses the object that has failed.
    ensures asked { choices.old.drawn + bound < 2 ^ 64 → WhereTold (C.state calls.old.calls.now) (C.state calls.new.calls.now) (λ s t.
        FaultsBy (C.failed calls.new.calls.now) code.now s bound choices.old result kernel.new.used t choices.new) }
    ensures same_reference { calls.new.calls.ghost_name ≡ calls.old.calls.ghost_name }
    ensures used { kernel.new.used ≤ bound }
    ensures source { choices.new.source ≡ choices.old.source }
    ensures drawn { choices.new.drawn ≤ choices.old.drawn + bound }
    ensures later { (outside : Outside) → C.faults calls.old.calls.now outside ≤ C.faults calls.new.calls.now outside }
    ensures blame { Blamed (fault_of (Some result)) (C.failed calls.new.calls.now) (C.faults calls.old.calls.now) (C.faults calls.new.calls.now) }
    ensures references { C.references calls.new.calls.now ≡ C.references calls.old.calls.now }
    ensures leads { (start : C) → C.leads start calls.old.calls.now → C.leads start calls.new.calls.now }
{
    kernel.start(code);
    let mut seats = Seats::new();
    if bound == 0 {
        timeline.add(FIRST, Came::Over(Ending::Turns), 0, NOTHING);
        return Ending::Turns;
    }
    'rounds: loop {
        if timeline.is_full() {
            return count_on(kernel, code, calls.calls, bound, choices, timeline);
        }
        if let Some(ending) = timed_round(
            kernel, code, calls, bound, choices, &mut seats, timeline,
        ) {
            return ending;
        }
    }
}
