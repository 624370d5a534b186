//! A run of code on a system.

ghost use Rattle.std.specs.Prelude.{◌≡◌, ◌≤◌, ◌<◌, ◌+◌, ◌^◌, ◌↔◌, false, IsSome, Some};
ghost use Rattle.edi_told.specs.Told.{WhereTold};
ghost use Rattle.edi_calls.specs.declared.ends.Outside.{Outside};
ghost use Rattle.edi_calls.specs.State.{fresh};
ghost use Rattle.edi_kernel.specs.Kernel.{StandsAtEnd};
ghost use Rattle.edi_kernel.specs.Runs.{RunsTo};
ghost use Rattle.edi_system.specs.AsCalls.{KeepsDue};
ghost use Rattle.edi_system.specs.Ends.{Keeps};
ghost use Rattle.edi_system.specs.Parts.{KeepsTold};
ghost use Rattle.edi_system.specs.State.{drive_in, failed_in, state_of, IsReady};
ghost use Rattle.edi_execute.specs.Execution.{is_fault_ending, IsAtCall, IsAtMoment};

use edi_host::{Drive, Sink, Source};
use edi_kernel::{Ending, Kernel};
use edi_system::System;
use edi_target::Code;
use edi_trace::Choices;

/// Runs the code from its start on a system, from the state with no file open, with at most `bound` turns and the choices behind
/// those that were drawn before. No object of the system has failed. After `Fault` one has, and no further call is made; after any
/// other ending the next run may begin.
pub fn execute<D: Drive, S: Source, T: Sink, P: Sink>(
    kernel: &mut Kernel,
    code: &Code,
    system: &mut System<'_, '_, '_, '_, '_, '_, D, S, T, P>,
    bound: u64,
    choices: &mut Choices,
) -> Ending
    requires ready { IsReady D.contents D.count system.old }
    // Where the objects tell what they hold, the run is that of the machine's definition, and they hold afterwards what it leaves
    // (`exact`), after `Fault` what a state has through which it comes (`moment`): the one before the call that failed, or the one
    // that this call was to leave; and the call uses the object that has failed, which is no input at its end (`call`).
    ensures exact { choices.old.drawn + bound < 2 ^ 64 → WhereTold (state_of D.contents S.left T.taken P.taken system.old)
        (state_of D.contents S.left T.taken P.taken system.new)
        (λ before after. RunsTo code.now (fresh before) bound choices.old result kernel.new.store kernel.new.used after choices.new) }
    ensures moment { result ≡ Ending.Fault → choices.old.drawn + bound < 2 ^ 64 → WhereTold (state_of D.contents S.left T.taken P.taken system.old)
        (state_of D.contents S.left T.taken P.taken system.new)
        (λ before after. IsAtMoment code.now (fresh before) bound choices.old after) }
    ensures call { (outside : Outside) → failed_in system.new ≡ Some outside → choices.old.drawn + bound < 2 ^ 64
        → WhereTold (state_of D.contents S.left T.taken P.taken system.old) (state_of D.contents S.left T.taken P.taken system.new)
        (λ before after. IsAtCall code.now (fresh before) bound choices.old outside after) }
    // An object has failed exactly where the ending says so, and its count rose.
    ensures failed { IsSome (failed_in system.new) ↔ (result ≡ Ending.Fault) }
    ensures ready { is_fault_ending result ≡ false → IsReady D.contents D.count system.new }
    ensures due { KeepsDue T.taken system.old system.new }
    ensures told { KeepsTold D.contents S.left T.taken P.taken system.old system.new }
    // The drive has as many blocks as before.
    ensures size { D.count (drive_in system.new) ≡ D.count (drive_in system.old) }
    ensures keeps { Keeps D.faults S.faults T.faults P.faults (is_fault_ending result) system.old system.new }
    ensures used { kernel.new.used ≤ bound }
    ensures standing { StandsAtEnd (Some result) kernel.new.table kernel.new.arrived }
    ensures source { choices.new.source ≡ choices.old.source }
    ensures drawn { choices.new.drawn ≤ choices.old.drawn + bound }
{
    system.begin_program();
    kernel.run(code, system, bound, choices)
}
