//! A run that is watched.

ghost use Rattle.std.specs.Prelude.{◌≡◌, ◌+◌, ◌-◌, ◌<◌, ◌≤◌, ◌^◌, Option, None, Some, IsSome, All, length, map, slice_index, ℕ, List};
ghost use Rattle.edi_told.specs.Told.{WhereTold};
ghost use Rattle.edi_calls.specs.declared.ends.Outside.{Outside};
ghost use Rattle.edi_calls.specs.Ends.{CallsLast};
ghost use Rattle.edi_calls.specs.Names.{Name};
ghost use Rattle.edi_calls.specs.State.{State};
ghost use Rattle.edi_trace.specs.Drawn.{Drawn};
ghost use Rattle.edi_tree.specs.Whole.{program_of};
ghost use Rattle.edi_static.specs.Programs.{Resolved, Sound};
ghost use Rattle.edi_unit.specs.Tree.{ProgramUnit};
ghost use Rattle.edi_target.specs.Memory as memory;
ghost use Rattle.edi_target.specs.Mach.{Machine};
ghost use Rattle.edi_kernel.specs.Stretch.{Blamed};
ghost use Rattle.edi_kernel.specs.Kernel.{Holds, ended_by, fault_of};
ghost use Rattle.edi_kernel.specs.Runs.{FaultsBy, Proceeds};
ghost use Rattle.edi_scheme.specs.Laws.{parts_of};
ghost use Rattle.edi_scheme.specs.Awaits.{await_address};
ghost use Rattle.edi_code.specs.Mapped.{IsMapped};
ghost use Rattle.edi_debug.specs.stops.Kept.{Kept, after_lines};
ghost use Rattle.edi_debug.specs.stops.Stops.{each_in};
ghost use Rattle.edi_debug.specs.stops.Near as near_spec;
ghost use Rattle.edi_debug.specs.stops.Near.{TellsPoints};
ghost use Rattle.edi_debug.specs.stops.Seen.{IsElementaryVariable, PointsFit, SightFits};
ghost use Rattle.edi_debug.specs.stops.Watching as spec;
ghost use Rattle.edi_debug.specs.stops.Underway.{AsksFailed, Ended, Going, Watches};
ghost use Rattle.edi_debug.specs.Points.{AreNamed, ArePoints, watched, watched_in};
ghost use Rattle.edi_debug.specs.Looking.{arrived_now, stop_now};
ghost use Rattle.edi_debug.specs.Kept.{Grows};

use crate::answer::{Point, Points};
use crate::lines::line_of;
use crate::log::Log;
use crate::near::{Near, is_near, near_points};
use edi_calls::Calls;
use edi_code::Mapped;
use edi_kernel::{Ending, Kernel, StintEnd};
use edi_machine::Activity;
use edi_sights::{Sight, Sighted};
use edi_trace::Choices;
use edi_tree::Program;

/// The word of the memory at an address, and 0 where there is none.
fn word_at(kernel: &Kernel, at: u64) -> u16
    ensures exact { result ≡ slice_index kernel.now.store at }
{
    let word = kernel.word((at % 65_536) as u16);
    if at < 65_536 { word } else { 0 }
}

/// The base of the frame that so many static links lead to.
fn level(kernel: &Kernel, base: u32, levels: u32) -> u32
    ensures exact { result ≡ memory.level kernel.now.store levels base }
{
    let mut found = base;
    for _level in 0..levels {
        found = u32::from(word_at(kernel, u64::from(found)));
    }
    found
}

/// The ordinal of the variable that a sight of a block means.
fn ordinal(kernel: &Kernel, mapped: &Mapped, base: u32, block: u32, slot: Sighted) -> i16
    ensures exact { (unit : ProgramUnit) (bound : ℕ) → IsMapped unit mapped.now → IsElementaryVariable unit block slot →
        result ≡ spec.ordinal_in unit bound kernel.now.store base block slot }
{
    let home = mapped.outer(block, slot.levels);
    let frame = level(kernel, base, slot.levels);
    let offset = mapped.offset(home, slot.variable);
    let word = word_at(kernel, u64::from(frame) + u64::from(offset));
    if mapped.is_place(home, slot.variable) {
        kernel.word(word).cast_signed()
    } else {
        word.cast_signed()
    }
}

/// Whether a process that stands at this address stands at the `when` of a sight.
fn is_there(mapped: &Mapped, sight: Sight, pc: u32) -> bool
    ensures exact { (unit : ProgramUnit) → IsMapped unit mapped.now →
        result ≡ spec.is_address_here (await_address unit sight.block sight.index) pc }
{
    mapped.address(sight.block, sight.index) == Some(pc)
}

/// Logs what a point says at an arrival, if the process stands at the `when` of one of its sights.
#[tactic(auto, using(crate::proofs::Logged::grows_none))]
fn log_sight(
    kernel: &Kernel,
    mapped: &Mapped,
    point: &Point,
    sight: Sight,
    activity: &Activity,
    turns: u64,
    log: &mut Log,
)
    requires named { length point.now.name.items ≤ 250 }
    ensures exact { (unit : ProgramUnit) (bound : ℕ) → IsMapped unit mapped.now → SightFits unit sight → turns ≤ bound →
        log.new ≡ after_lines (spec.sight_lines unit bound (arrived_now kernel.now.store activity.now (bound - turns)) (watched point.now) sight) log.old }
    ensures grows { Grows log.old log.new }
{
    if is_there(mapped, sight, activity.pc) {
        if let Some(slot) = sight.slot {
            let value = ordinal(kernel, mapped, activity.base, sight.block, slot);
            log.add(&line_of(turns, point.line, &point.name, value));
        }
    }
}

/// Logs what a point with these sights says at an arrival.
#[tactic(auto, using(crate::proofs::Logged::grows_none))]
fn log_point(
    kernel: &Kernel,
    mapped: &Mapped,
    point: &Point,
    sights: &[Sight],
    activity: &Activity,
    turns: u64,
    log: &mut Log,
)
    requires named { length point.now.name.items ≤ 250 }
    ensures exact { (unit : ProgramUnit) (bound : ℕ) → IsMapped unit mapped.now → All (SightFits unit) sights.now → turns ≤ bound →
        log.new ≡ after_lines (each_in (spec.sight_lines unit bound (arrived_now kernel.now.store activity.now (bound - turns)) (watched point.now)) sights.now)
        log.old }
    ensures grows { Grows log.old log.new }
{
    for sight in sights {
        log_sight(kernel, mapped, point, *sight, activity, turns, log);
    }
}

/// Logs what points say at an arrival, in their order.
#[tactic(auto, using(crate::proofs::Logged::grows_none))]
fn log_points(
    kernel: &Kernel,
    mapped: &Mapped,
    points: &[Point],
    activity: &Activity,
    turns: u64,
    log: &mut Log,
)
    requires named { All (λ p. length p.name.items ≤ 250) points.now }
    ensures exact { (unit : ProgramUnit) (bound : ℕ) → IsMapped unit mapped.now → PointsFit unit (map watched points.now) → turns ≤ bound →
        log.new ≡ after_lines (spec.stop_lines unit bound (map watched points.now) (arrived_now kernel.now.store activity.now (bound - turns))) log.old }
    ensures grows { Grows log.old log.new }
{
    for point in points {
        let sights = point.sights.items();
        log_point(kernel, mapped, point, sights, activity, turns, log);
    }
}

/// What is watched: the points, where `when`s and variables stand, and which addresses are those of the points.
#[derive(Drop)]
struct Stops<'a> {
    mapped: &'a Mapped,
    points: &'a Points,
    near: &'a Near,
}

/// Whether a point may stand where the last stint left its process at its `when`. Its activity is not read for that.
#[inline(always)]
fn may_stop(kernel: &Kernel, near: &Near) -> bool
    ensures exact { result ≡ near_spec.may_stop near.now kernel.now.arrived }
{
    match kernel.standing_at() {
        Some(at) => is_near(near, at),
        None => false,
    }
}

/// Logs what the points say where the last stint left its process at its `when`.
#[tactic(auto, using(crate::proofs::Logged::grows_none))]
#[inline(never)]
fn log_standing(kernel: &Kernel, stops: &Stops<'_>, log: &mut Log)
    requires named { AreNamed stops.now.points.now }
    ensures exact { (unit : ProgramUnit) (bound : ℕ) → IsMapped unit stops.now.mapped.now → PointsFit unit (watched_in stops.now.points.now) →
        kernel.now.used ≤ bound →
        log.new ≡ after_lines (stop_now unit bound kernel.now.store kernel.now.arrived kernel.now.used (watched_in stops.now.points.now)) log.old }
    ensures grows { Grows log.old log.new }
{
    let Some(activity) = kernel.standing() else {
        return;
    };
    let turns = kernel.turns_used();
    log_points(
        kernel,
        stops.mapped,
        stops.points.items.as_slice(),
        &activity,
        turns,
        log,
    );
}

/// The same. At most `when`s no point stands, and the table of addresses tells so at once.
#[tactic(auto, using(crate::proofs::Logged::grows_none))]
#[inline(always)]
fn log_stop(kernel: &Kernel, stops: &Stops<'_>, log: &mut Log)
    requires named { AreNamed stops.now.points.now }
    requires near { (unit : ProgramUnit) → IsMapped unit stops.now.mapped.now → TellsPoints unit stops.now.near.now (watched_in stops.now.points.now) }
    ensures exact { (unit : ProgramUnit) (bound : ℕ) → IsMapped unit stops.now.mapped.now → PointsFit unit (watched_in stops.now.points.now) →
        kernel.now.used ≤ bound →
        log.new ≡ after_lines (stop_now unit bound kernel.now.store kernel.now.arrived kernel.now.used (watched_in stops.now.points.now)) log.old }
    ensures grows { Grows log.old log.new }
{
    if may_stop(kernel, stops.near) {
        log_standing(kernel, stops, log);
    }
}

/// How the run has ended, if it has by a stint that ended so.
fn ended_by(end: StintEnd) -> Option<Ending>
    ensures exact { result ≡ ended_by end }
{
    match end {
        StintEnd::Over { ending, .. } => Some(ending),
        _ => None,
    }
}

/// Takes the next process, if one is ready.
fn proceed(kernel: &mut Kernel, choices: &mut Choices) -> Option<Ending>
    requires free { kernel.old.taken ≡ None }
    ensures exact { choices.old.drawn < 2 ^ 64 - 1 → (m : Machine) (ready : List Name) → Holds kernel.old m None ready
        → Proceeds result kernel.new m choices.old choices.new ready }
    ensures taken { result ≡ None → IsSome kernel.new.taken }
    ensures source { choices.new.source ≡ choices.old.source }
    ensures drawn { choices.new.drawn ≤ choices.old.drawn + 1 }
    ensures entering { kernel.new.entering ≡ kernel.old.entering }
    ensures turns { kernel.new.used ≡ kernel.old.used }
    ensures fault { fault_of result ≡ None }
{
    if kernel.ready() == 0 {
        return Some(Ending::Standstill);
    }
    kernel.choose(choices);
    None
}

/// A stint of the process that is taken, what is logged after it, and the choice of the next. The answer is the ending, if the run
/// has ended.
fn watch_round<C: Calls>(
    kernel: &mut Kernel,
    stops: &Stops<'_>,
    calls: &mut C,
    bound: u64,
    choices: &mut Choices,
    log: &mut Log,
) -> Option<Ending>
    requires taken { IsSome kernel.old.taken }
    requires working { C.failed calls.old None }
    requires used { kernel.old.used ≤ bound }
    requires named { AreNamed stops.now.points.now }
    requires near { (unit : ProgramUnit) → IsMapped unit stops.now.mapped.now → TellsPoints unit stops.now.near.now (watched_in stops.now.points.now) }
    ensures exact { choices.old.drawn + (bound - kernel.old.used) < 2 ^ 64 → WhereTold (C.state calls.old) (C.state calls.new) (λ x y.
        (unit : ProgramUnit) → IsMapped unit stops.now.mapped.now → PointsFit unit (watched_in stops.now.points.now) →
        (s : State) (first : Drawn) (start : Kept) → first.source ≡ choices.old.source →
        Going unit (watched_in stops.now.points.now) s bound first start kernel.old x choices.old log.old →
        Watches unit (watched_in stops.now.points.now) s bound first start result kernel.new y choices.new log.new) }
    // The system call that failed uses the object that has failed.
    ensures asked { WhereTold (C.state calls.old) (C.state calls.new) (λ x y. (unit : ProgramUnit) → IsMapped unit stops.now.mapped.now →
        (s : State) (first : Drawn) (start : Kept) → first.source ≡ choices.old.source →
        Going unit (watched_in stops.now.points.now) s bound first start kernel.old x choices.old log.old →
        AsksFailed unit (watched_in stops.now.points.now) s bound first start (C.failed calls.new) result kernel.new y choices.new) }
    ensures taken { result ≡ None → IsSome kernel.new.taken }
    ensures used { kernel.new.used ≤ bound }
    ensures spent { result ≡ None → kernel.old.used < kernel.new.used }
    ensures source { choices.new.source ≡ choices.old.source }
    ensures drawn { choices.new.drawn + kernel.old.used ≤ choices.old.drawn + kernel.new.used }
    ensures blame { Blamed (fault_of result) (C.failed calls.new) (C.faults calls.old) (C.faults calls.new) }
    ensures lasts { CallsLast C.faults C.references C.leads calls.old calls.new }
    ensures grows { Grows log.old log.new }
{
    let left = bound - kernel.turns_used();
    let end = kernel.stint(stops.mapped.code(), calls, left);
    // Logged on each way by itself: then no ending is carried along where none is.
    if let Some(ending) = ended_by(end) {
        log_stop(kernel, stops, log);
        return Some(ending);
    }
    log_stop(kernel, stops, log);
    proceed(kernel, choices)
}

/// Runs the code from its start until the run ends, with at most `bound` turns, and logs what the points say: after each turn
/// that leaves its process at a `when`, a line for each point of that `when`. It takes no memory.
///
/// The ending comes as that of `Kernel::run`. The log is that of the execution that the program means, by the laws
/// `logs_are_meant` and `logs_begin`; after `Fault` it has the lines before the system call in which an object failed. What was logged
/// before stays in front, also where the calls tell nothing.
#[tactic(auto, using(crate::proofs::Logged::grows_none))]
pub fn watch<C: Calls>(
    kernel: &mut Kernel,
    tree: &Program,
    mapped: &Mapped,
    points: &Points,
    calls: &mut C,
    bound: u64,
    choices: &mut Choices,
    log: &mut Log,
) -> Ending
    requires working { C.failed calls.old None }
    requires sound { Sound (program_of tree.now) }
    requires points { ArePoints (program_of tree.now) points.now }
    ensures exact { choices.old.drawn + bound < 2 ^ 64 → WhereTold (C.state calls.old) (C.state calls.new) (λ s t.
        (unit : ProgramUnit) → Resolved (program_of tree.now) unit → IsMapped unit mapped.now →
        Ended unit (watched_in points.now) s bound choices.old log.old result kernel.new t choices.new log.new) }
    // The system call that failed uses the object that has failed.
    ensures asked { choices.old.drawn + bound < 2 ^ 64 → WhereTold (C.state calls.old) (C.state calls.new) (λ s t.
        (unit : ProgramUnit) → Resolved (program_of tree.now) unit → IsMapped unit mapped.now →
        FaultsBy (C.failed calls.new) (parts_of unit) s bound choices.old result kernel.new.used t choices.new) }
    ensures used { kernel.new.used ≤ bound }
    ensures source { choices.new.source ≡ choices.old.source }
    ensures drawn { choices.new.drawn ≤ choices.old.drawn + bound }
    ensures later { (outside : Outside) → C.faults calls.old outside ≤ C.faults calls.new outside }
    ensures blame { Blamed (fault_of (Some result)) (C.failed calls.new) (C.faults calls.old) (C.faults calls.new) }
    ensures references { C.references calls.new ≡ C.references calls.old }
    ensures leads { (start : C) → C.leads start calls.old → C.leads start calls.new }
    ensures grows { Grows log.old log.new }
{
    kernel.start(mapped.code());
    if bound == 0 {
        return Ending::Turns;
    }
    let near = near_points(mapped, points.items.as_slice());
    let stops = Stops {
        mapped,
        points,
        near: &near,
    };
    'rounds: loop {
        if let Some(ending) = watch_round(kernel, &stops, calls, bound, choices, log) {
            return ending;
        }
    }
}
