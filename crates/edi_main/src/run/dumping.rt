//! A run with a dump.

ghost use Rattle.std.specs.Prelude.{◌≡◌, ⊤, true, option_map};
ghost use Rattle.edi_told.specs.Told.{WhereTold};
ghost use Rattle.edi_words.specs.Words as words;
ghost use Rattle.edi_statuses.specs.Outside.{lent, outside_of};
ghost use Rattle.edi_statuses.specs.Counts.{counts_of, HasCause, NoneFalls};
ghost use Rattle.edi_statuses.specs.EachObject.{RunStays, handed, is_at_drive};
ghost use Rattle.edi_main.specs.run.Blaming.{Blaming};
ghost use Rattle.edi_main.specs.run.OnMounted.{DriveAsked};
ghost use Rattle.edi_main.specs.run.OnAccounts.{IsGiven, RanAccount};

use crate::run::code::{ending_status, object_status};
use crate::run::dumps::keep_dumped;
use crate::run::timelines::kept_status;
use crate::steps::{mount_status, stopped};
use edi_dumped::dump_on;
use edi_host::{Drive, Files, Sink, Source};
use edi_kernel::Kernel;
use edi_statuses::Ended;
use edi_target::Code;
use edi_trace::Choices;
use std::alloc::Global;

/// Mounts the drive, runs the code on it, on an input, a terminal and a printer, and keeps the record of the choices that it drew,
/// if there is to be one, and then the dump: after each ending, unless an object has failed. If a text is given, whose code this
/// is, the dump has the names and values of its variables.
pub(crate) fn dump_code<F: Files, D: Drive, S: Source, T: Sink, P: Sink>(
    alloc: Global,
    code: &Code,
    text: Option<&[u8]>,
    turns: u32,
    out: &str,
    record_file: Option<&str>,
    choices: &mut Choices,
    files: &mut F,
    drive: &mut D,
    input: &mut S,
    terminal: &mut T,
    printer: &mut P,
    kernel: &mut Kernel,
) -> Ended
    requires none_drawn { choices.old.drawn ≡ 0 }
    ensures ran { Blaming result.status (T.faults terminal.old) (T.faults terminal.new) (P.faults printer.old) (P.faults printer.new)
        (RanAccount (IsGiven (option_map (λ bytes. bytes.now) text.entry) code.now) turns choices.old.source
        (words.dump out.now) (option_map (λ name. name.now) record_file.entry) result.status result.due
        (outside_of F.contents D.contents S.left T.taken P.taken files.old drive.old input.old terminal.old printer.old)
        (outside_of F.contents D.contents S.left T.taken P.taken files.new drive.new input.new terminal.new printer.new))
        (lent kernel.old.store kernel.old.used kernel.new.store kernel.new.used) }
    ensures tells { WhereTold (F.contents files.old) (F.contents files.new) (λ old new. ⊤) }
    ensures cause { HasCause result.status
        (counts_of F.faults D.faults S.faults T.faults P.faults files.old drive.old input.old terminal.old printer.old)
        (counts_of F.faults D.faults S.faults T.faults P.faults files.new drive.new input.new terminal.new printer.new) }
    ensures later { NoneFalls
        (counts_of F.faults D.faults S.faults T.faults P.faults files.old drive.old input.old terminal.old printer.old)
        (counts_of F.faults D.faults S.faults T.faults P.faults files.new drive.new input.new terminal.new printer.new) }
    ensures size { D.count drive.new ≡ D.count drive.old }
    ensures asked { DriveAsked result.status (D.count drive.old) }
    ensures unmounted { is_at_drive result.status ≡ true
        → RunStays (handed files.old drive.old input.old terminal.old printer.old kernel.old)
        (handed files.new drive.new input.new terminal.new printer.new kernel.new) }
{
    let end = match dump_on(
        alloc,
        kernel,
        code,
        text,
        drive,
        input,
        terminal,
        printer,
        u64::from(turns),
        choices,
    ) {
        Ok(end) => end,
        Err(why) => return stopped(mount_status(why)),
    };
    if let Some(object) = end.ran.failed {
        return Ended {
            status: object_status(object),
            due: end.ran.due,
        };
    }
    let came = ending_status(end.ran.ending);
    let kept = keep_dumped(alloc, files, out, record_file, choices, &end.dump);
    Ended {
        status: kept_status(kept, came),
        due: end.ran.due,
    }
}
