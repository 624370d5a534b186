//! A run with its timeline, on a system.

ghost use Rattle.std.specs.Prelude.{◌≡◌, ◌≤◌, ◌<◌, ◌+◌, ◌^◌, ◌↔◌, [], IsSome, None, Some};
ghost use Rattle.edi_told.specs.Told.{WhereTold};
ghost use Rattle.edi_calls.specs.declared.ends.Outside.{Outside};
ghost use Rattle.edi_calls.specs.State.{fresh};
ghost use Rattle.edi_system.specs.AsCalls.{KeepsDue};
ghost use Rattle.edi_system.specs.Ends.{Keeps};
ghost use Rattle.edi_system.specs.Parts.{KeepsTold};
ghost use Rattle.edi_system.specs.State.{drive_in, failed_in, state_of, IsReady};
ghost use Rattle.edi_execute.specs.Execution.{is_fault_ending, IsAtCall, IsAtMoment};
ghost use Rattle.edi_timed.specs.Timed.{Timed};

use crate::lent::timed_lent;
use edi_host::{Drive, Sink, Source};
use edi_kernel::{Ending, Kernel};
use edi_system::System;
use edi_target::Code;
use edi_timeline::Timeline;
use edi_trace::Choices;

/// Runs the code from its start on a system, as `edi_execute::execute` does, and fills a timeline that has no stint.
pub(crate) fn time_execution<D: Drive, S: Source, T: Sink, P: Sink>(
    kernel: &mut Kernel,
    code: &Code,
    system: &mut System<'_, '_, '_, '_, '_, '_, D, S, T, P>,
    bound: u32,
    choices: &mut Choices,
    timeline: &mut Timeline,
) -> Ending
    requires ready { IsReady D.contents D.count system.old }
    requires empty { timeline.old ≡ record { stints = []; count = 0; ending = None } }
    // As for `execute`; and the timeline tells the stints of the run.
    ensures exact { choices.old.drawn + bound < 2 ^ 64 → WhereTold (state_of D.contents S.left T.taken P.taken system.old)
        (state_of D.contents S.left T.taken P.taken system.new)
        (λ before after. Timed code.now (fresh before) bound choices.old result kernel.new after choices.new timeline.new) }
    ensures moment { result ≡ Ending.Fault → choices.old.drawn + bound < 2 ^ 64
        → WhereTold (state_of D.contents S.left T.taken P.taken system.old) (state_of D.contents S.left T.taken P.taken system.new)
        (λ before after. IsAtMoment code.now (fresh before) bound choices.old after) }
    // It is the one before the call that failed, or the one that this call was to leave; and the call uses the object that has failed,
    // which is no input at its end.
    ensures call { (outside : Outside) → failed_in system.new ≡ Some outside → choices.old.drawn + bound < 2 ^ 64
        → WhereTold (state_of D.contents S.left T.taken P.taken system.old) (state_of D.contents S.left T.taken P.taken system.new)
        (λ before after. IsAtCall code.now (fresh before) bound choices.old outside after) }
    ensures failed { IsSome (failed_in system.new) ↔ (result ≡ Ending.Fault) }
    ensures due { KeepsDue T.taken system.old system.new }
    ensures told { KeepsTold D.contents S.left T.taken P.taken system.old system.new }
    ensures size { D.count (drive_in system.new) ≡ D.count (drive_in system.old) }
    ensures keeps { Keeps D.faults S.faults T.faults P.faults (is_fault_ending result) system.old system.new }
    ensures used { kernel.new.used ≤ bound }
    ensures source { choices.new.source ≡ choices.old.source }
    ensures drawn { choices.new.drawn ≤ choices.old.drawn + bound }
{
    system.begin_program();
    timed_lent(kernel, code, system, bound, choices, timeline)
}
