//! A watched run on a system.

ghost use Rattle.std.specs.Prelude.{◌≡◌, ◌≤◌, ◌<◌, ◌+◌, ◌^◌, ◌↔◌, false, IsSome, Some};
ghost use Rattle.edi_told.specs.Told.{WhereTold};
ghost use Rattle.edi_calls.specs.declared.ends.Outside.{Outside};
ghost use Rattle.edi_calls.specs.State.{fresh};
ghost use Rattle.edi_static.specs.Programs.{Sound};
ghost use Rattle.edi_scheme.specs.Laws.{parts_of};
ghost use Rattle.edi_system.specs.AsCalls.{KeepsDue};
ghost use Rattle.edi_system.specs.Ends.{Keeps};
ghost use Rattle.edi_system.specs.Parts.{KeepsTold};
ghost use Rattle.edi_system.specs.State.{drive_in, failed_in, state_of, IsReady};
ghost use Rattle.edi_execute.specs.Execution.{is_fault_ending, IsAtCall, IsAtMoment};
ghost use Rattle.edi_debug.specs.Points.{ArePoints, watched_in};
ghost use Rattle.edi_debug.specs.stops.Underway.{Ended};
ghost use Rattle.edi_runs.specs.watch.Watchable.{IsWhole, program_in};

use crate::watch::source::Watchable;
use edi_debug::{Log, Points, watch};
use edi_host::{Drive, Sink, Source};
use edi_kernel::{Ending, Kernel};
use edi_system::System;
use edi_trace::Choices;

/// Runs a watched program from its start on a system, as `edi_execute::execute` runs a code, and logs what the points say.
pub(crate) fn watch_execution<D: Drive, S: Source, T: Sink, P: Sink>(
    kernel: &mut Kernel,
    watched: &Watchable,
    points: &Points,
    system: &mut System<'_, '_, '_, '_, '_, '_, D, S, T, P>,
    bound: u64,
    choices: &mut Choices,
    log: &mut Log,
) -> Ending
    requires ready { IsReady D.contents D.count system.old }
    requires sound { Sound (program_in watched.now) }
    requires points { ArePoints (program_in watched.now) points.now }
    // As for `execute`; and the log has what the run logs.
    ensures exact { choices.old.drawn + bound < 2 ^ 64 → WhereTold (state_of D.contents S.left T.taken P.taken system.old)
        (state_of D.contents S.left T.taken P.taken system.new)
        (λ before after. (whole : IsWhole watched.now) →
        Ended whole.unit (watched_in points.now) (fresh before) bound choices.old log.old result kernel.new after choices.new log.new) }
    ensures moment { result ≡ Ending.Fault → choices.old.drawn + bound < 2 ^ 64 → WhereTold (state_of D.contents S.left T.taken P.taken system.old)
        (state_of D.contents S.left T.taken P.taken system.new)
        (λ before after. (whole : IsWhole watched.now) → IsAtMoment (parts_of whole.unit) (fresh before) bound choices.old after) }
    ensures call { (outside : Outside) → failed_in system.new ≡ Some outside → choices.old.drawn + bound < 2 ^ 64
        → WhereTold (state_of D.contents S.left T.taken P.taken system.old) (state_of D.contents S.left T.taken P.taken system.new)
        (λ before after. (whole : IsWhole watched.now) → IsAtCall (parts_of whole.unit) (fresh before) bound choices.old outside after) }
    ensures failed { IsSome (failed_in system.new) ↔ (result ≡ Ending.Fault) }
    ensures ready { is_fault_ending result ≡ false → IsReady D.contents D.count system.new }
    ensures due { KeepsDue T.taken system.old system.new }
    ensures told { KeepsTold D.contents S.left T.taken P.taken system.old system.new }
    ensures size { D.count (drive_in system.new) ≡ D.count (drive_in system.old) }
    ensures keeps { Keeps D.faults S.faults T.faults P.faults (is_fault_ending result) system.old system.new }
    ensures used { kernel.new.used ≤ bound }
    ensures source { choices.new.source ≡ choices.old.source }
    ensures drawn { choices.new.drawn ≤ choices.old.drawn + bound }
{
    system.begin_program();
    watch(
        kernel,
        &watched.tree,
        &watched.mapped,
        points,
        system,
        bound,
        choices,
        log,
    )
}
