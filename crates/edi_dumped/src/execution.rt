//! A run of code on a system, whose processes are named.

ghost use Rattle.std.specs.Prelude.{◌≡◌, ◌≤◌, ◌<◌, ◌+◌, ◌^◌, ◌↔◌, IsSome, Some};
ghost use Rattle.edi_told.specs.Told.{WhereTold};
ghost use Rattle.edi_calls.specs.declared.ends.Outside.{Outside};
ghost use Rattle.edi_calls.specs.State.{fresh};
ghost use Rattle.edi_kernel.specs.Runs.{RunsTo};
ghost use Rattle.edi_system.specs.AsCalls.{KeepsDue};
ghost use Rattle.edi_system.specs.Ends.{Keeps};
ghost use Rattle.edi_system.specs.Parts.{KeepsTold};
ghost use Rattle.edi_system.specs.State.{drive_in, failed_in, state_of, IsReady};
ghost use Rattle.edi_execute.specs.Execution.{is_fault_ending, IsAtCall, IsAtMoment};
ghost use Rattle.edi_waits.specs.Runs.{EndsNamed};

use edi_host::{Drive, Sink, Source};
use edi_kernel::{Ending, Kernel};
use edi_system::System;
use edi_target::Code;
use edi_trace::Choices;
use edi_waits::{Names, run_named};

/// Runs the code from its start on a system, as `edi_execute::execute` does. The names are those of the processes at the end.
pub(crate) fn execute_named<D: Drive, S: Source, T: Sink, P: Sink>(
    kernel: &mut Kernel,
    code: &Code,
    system: &mut System<'_, '_, '_, '_, '_, '_, D, S, T, P>,
    bound: u64,
    choices: &mut Choices,
) -> (Ending, Names)
    requires ready { IsReady D.contents D.count system.old }
    requires small { bound < 2 ^ 32 }
    // As for `execute`.
    ensures exact { choices.old.drawn + bound < 2 ^ 64 → WhereTold (state_of D.contents S.left T.taken P.taken system.old)
        (state_of D.contents S.left T.taken P.taken system.new)
        (λ before after. RunsTo code.now (fresh before) bound choices.old result.0 kernel.new.store kernel.new.used after choices.new) }
    ensures named { choices.old.drawn + bound < 2 ^ 64 → WhereTold (state_of D.contents S.left T.taken P.taken system.old)
        (state_of D.contents S.left T.taken P.taken system.new)
        (λ before after. EndsNamed code.now (fresh before) bound choices.old result.0 kernel.new choices.new result.1) }
    ensures moment { result.0 ≡ Ending.Fault → choices.old.drawn + bound < 2 ^ 64
        → WhereTold (state_of D.contents S.left T.taken P.taken system.old) (state_of D.contents S.left T.taken P.taken system.new)
        (λ before after. IsAtMoment code.now (fresh before) bound choices.old after) }
    ensures call { (outside : Outside) → failed_in system.new ≡ Some outside → choices.old.drawn + bound < 2 ^ 64
        → WhereTold (state_of D.contents S.left T.taken P.taken system.old) (state_of D.contents S.left T.taken P.taken system.new)
        (λ before after. IsAtCall code.now (fresh before) bound choices.old outside after) }
    ensures failed { IsSome (failed_in system.new) ↔ (result.0 ≡ Ending.Fault) }
    ensures due { KeepsDue T.taken system.old system.new }
    ensures told { KeepsTold D.contents S.left T.taken P.taken system.old system.new }
    ensures size { D.count (drive_in system.new) ≡ D.count (drive_in system.old) }
    ensures keeps { Keeps D.faults S.faults T.faults P.faults (is_fault_ending result.0) system.old system.new }
    ensures used { kernel.new.used ≤ bound }
    ensures source { choices.new.source ≡ choices.old.source }
    ensures drawn { choices.new.drawn ≤ choices.old.drawn + bound }
{
    system.begin_program();
    run_named(kernel, code, system, bound, choices)
}
