//! Running a code.

ghost use Rattle.std.specs.Prelude.{◌≡◌, true, ⊤, None, Some, option_map};
ghost use Rattle.edi_told.specs.Told.{WhereTold};
ghost use Rattle.edi_statuses.specs.Outside.{lent, outside_of};
ghost use Rattle.edi_statuses.specs.Counts.{counts_of, HasCause, NoneFalls};
ghost use Rattle.edi_statuses.specs.EachObject.{RunStays, handed, is_at_drive};
ghost use Rattle.edi_statuses.specs.Executions.{object_status};
ghost use Rattle.edi_main.specs.run.Blaming.{Blaming};
ghost use Rattle.edi_main.specs.run.CodeRan.{ending_status, RanCode};
ghost use Rattle.edi_main.specs.run.OnMounted.{DriveAsked};

use crate::steps::{end_with_record, mount_status, stopped};
use edi_calls::{Cause, Outside};
use edi_execute::run_on;
use edi_host::{Drive, Files, Sink, Source};
use edi_kernel::{Ending, Kernel};
use edi_statuses::{Ended, Status};
use edi_target::Code;
use edi_trace::Choices;
use std::alloc::Global;

/// The status of a command in whose run this object has failed.
pub(crate) fn object_status(object: Outside) -> Status
    ensures exact { result ≡ object_status object }
{
    match object {
        Outside::Drive => Status::DriveFault,
        Outside::Input => Status::InputFault,
        Outside::Terminal | Outside::Printer => Status::OutputFault,
    }
}

/// The status of a command whose run has come to this ending, which is no fault.
pub(crate) fn ending_status(ending: Ending) -> Status
    requires none_failed { ending ≡ Ending.Fault → ⊥ }
    ensures exact { Some result ≡ ending_status ending }
{
    match ending {
        Ending::Done => Status::Ok,
        Ending::Halted(line) => Status::Stopped(Cause::Halt, line),
        Ending::Failed(why, line) => Status::Stopped(why, line),
        Ending::Turns => Status::Turns,
        Ending::Standstill => Status::Standstill,
        Ending::Bad(address) => Status::BadState(address),
        Ending::Fault => unreachable!(),
    }
}

/// Mounts the drive, runs the code on it, on an input, a terminal and a printer, and keeps the record of the choices that it drew, if
/// there is to be one: after each ending, unless an object has failed.
pub(crate) fn run_code<F: Files, D: Drive, S: Source, T: Sink, P: Sink>(
    alloc: Global,
    code: &Code,
    turns: u32,
    record_file: Option<&str>,
    choices: &mut Choices,
    files: &mut F,
    drive: &mut D,
    input: &mut S,
    terminal: &mut T,
    printer: &mut P,
    kernel: &mut Kernel,
) -> Ended
    requires none_drawn { choices.old.drawn ≡ 0 }
    // An object that has failed in the run is blamed.
    ensures ran { Blaming result.status (T.faults terminal.old) (T.faults terminal.new) (P.faults printer.old) (P.faults printer.new)
        (RanCode code.now turns choices.old.source (option_map (λ name. name.now) record_file.entry) result.status result.due
        (outside_of F.contents D.contents S.left T.taken P.taken files.old drive.old input.old terminal.old printer.old)
        (outside_of F.contents D.contents S.left T.taken P.taken files.new drive.new input.new terminal.new printer.new))
        (lent kernel.old.store kernel.old.used kernel.new.store kernel.new.used) }
    ensures tells { WhereTold (F.contents files.old) (F.contents files.new) (λ old new. ⊤) }
    ensures cause { HasCause result.status
        (counts_of F.faults D.faults S.faults T.faults P.faults files.old drive.old input.old terminal.old printer.old)
        (counts_of F.faults D.faults S.faults T.faults P.faults files.new drive.new input.new terminal.new printer.new) }
    ensures later { NoneFalls
        (counts_of F.faults D.faults S.faults T.faults P.faults files.old drive.old input.old terminal.old printer.old)
        (counts_of F.faults D.faults S.faults T.faults P.faults files.new drive.new input.new terminal.new printer.new) }
    ensures untouched { record_file.entry ≡ None → files.new ≡ files.old }
    ensures size { D.count drive.new ≡ D.count drive.old }
    ensures asked { DriveAsked result.status (D.count drive.old) }
    ensures unmounted { is_at_drive result.status ≡ true
        → RunStays (handed files.old drive.old input.old terminal.old printer.old kernel.old)
        (handed files.new drive.new input.new terminal.new printer.new kernel.new) }
{
    let ran = match run_on(
        alloc,
        kernel,
        code,
        drive,
        input,
        terminal,
        printer,
        u64::from(turns),
        choices,
    ) {
        Ok(ran) => ran,
        Err(why) => return stopped(mount_status(why)),
    };
    if let Some(object) = ran.failed {
        return Ended {
            status: object_status(object),
            due: ran.due,
        };
    }
    let ended = Ended {
        status: ending_status(ran.ending),
        due: ran.due,
    };
    end_with_record(alloc, files, record_file, choices, ended)
}
