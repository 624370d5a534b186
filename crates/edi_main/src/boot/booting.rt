//! `boot`.

ghost use Rattle.std.specs.Prelude.{◌≡◌, false, true, Some, None, ⊤, option_map};
ghost use Rattle.edi_told.specs.Told.{WhereTold};
ghost use Rattle.edi_words.specs.Words as words;
ghost use Rattle.edi_words.specs.View.{options_of};
ghost use Rattle.edi_statuses.specs.Outside.{lent, outside_of};
ghost use Rattle.edi_statuses.specs.Counts.{counts_of, HasCause, NoneFalls};
ghost use Rattle.edi_statuses.specs.EachObject.{DevicesStay, FitsCount, RunStays, handed, is_at_drive, is_before_drive, names_file};
ghost use Rattle.edi_statuses.specs.Decided.{Came};
ghost use Rattle.edi_main.specs.run.Blaming.{Blaming};
ghost use Rattle.edi_main.specs.run.OnMounted.{DriveAsked};
ghost use Rattle.edi_statuses.specs.Sessions.{session_status};
ghost use Rattle.edi_main.specs.boot.SessionCame.{BootCame};

use crate::boot::holding::hold_on;
use crate::steps::{end_with_record, mount_status, read_from, stopped};
use edi_host::{Drive, Files, Sink, Source};
use edi_kernel::Kernel;
use edi_session::SessionEnd;
use edi_shell::sessions::ends_by_fault;
use edi_statuses::{Ended, Status};
use edi_trace::Choices;
use edi_words::Options;
use std::alloc::Global;

// The status of a session that ended so.
fn session_status(end: SessionEnd) -> Status
    ensures exact { result ≡ session_status end }
{
    match end {
        SessionEnd::Halted | SessionEnd::InputEnd => Status::Ok,
        SessionEnd::Limit => Status::SessionLimit,
        SessionEnd::DriveFault => Status::DriveFault,
        SessionEnd::InputFault => Status::InputFault,
        SessionEnd::TerminalFault | SessionEnd::PrinterFault => Status::OutputFault,
    }
}

// Mounts the drive, holds a session on it, and keeps the record of the choices that were drawn in it, if there is to be one, unless an
// object has failed.
fn hold_session<F: Files, D: Drive, S: Source, T: Sink, P: Sink>(
    alloc: Global,
    turns: u32,
    record_file: Option<&str>,
    choices: &mut Choices,
    files: &mut F,
    drive: &mut D,
    input: &mut S,
    terminal: &mut T,
    printer: &mut P,
    kernel: &mut Kernel,
) -> Ended
    requires none_drawn { choices.old.drawn ≡ 0 }
    ensures came { Blaming result.status (T.faults terminal.old) (T.faults terminal.new) (P.faults printer.old) (P.faults printer.new)
        (BootCame turns choices.old.source (option_map (λ name. name.now) record_file.entry) result.status result.due
        (outside_of F.contents D.contents S.left T.taken P.taken files.old drive.old input.old terminal.old printer.old)
        (outside_of F.contents D.contents S.left T.taken P.taken files.new drive.new input.new terminal.new printer.new))
        (lent kernel.old.store kernel.old.used kernel.new.store kernel.new.used) }
    ensures tells { WhereTold (F.contents files.old) (F.contents files.new) (λ old new. ⊤) }
    ensures untouched { record_file.entry ≡ None → files.new ≡ files.old }
    ensures size { D.count drive.new ≡ D.count drive.old }
    ensures asked { DriveAsked result.status (D.count drive.old) }
    ensures unmounted { is_at_drive result.status ≡ true
        → RunStays (handed files.old drive.old input.old terminal.old printer.old kernel.old)
        (handed files.new drive.new input.new terminal.new printer.new kernel.new) }
    ensures cause { HasCause result.status
        (counts_of F.faults D.faults S.faults T.faults P.faults files.old drive.old input.old terminal.old printer.old)
        (counts_of F.faults D.faults S.faults T.faults P.faults files.new drive.new input.new terminal.new printer.new) }
    ensures later { NoneFalls
        (counts_of F.faults D.faults S.faults T.faults P.faults files.old drive.old input.old terminal.old printer.old)
        (counts_of F.faults D.faults S.faults T.faults P.faults files.new drive.new input.new terminal.new printer.new) }
{
    let exit = match hold_on(
        alloc,
        drive,
        input,
        terminal,
        printer,
        kernel,
        u64::from(turns),
        choices,
    ) {
        Ok(exit) => exit,
        Err(why) => return stopped(mount_status(why)),
    };
    let ended = Ended {
        status: session_status(exit.end),
        due: exit.due,
    };
    if ends_by_fault(exit.end) {
        return ended;
    }
    end_with_record(alloc, files, record_file, choices, ended)
}

/// `boot`: reads the choices, mounts the drive, holds a session of the shell, and keeps the record of the choices that were drawn in
/// it, in this order. Programs run on the kernel, each with `--turns` anew.
///
/// What the status means, and how all that is outside stands behind the call, is told by `Came`: the first step that stops decides;
/// a session that was halted, or whose input ended, is `Ok`. Want of memory comes only before the session, or where the record is to
/// be kept; the fault of an object only where its count rose. The object that has failed in the session is blamed: the terminal only
/// where the session shows a byte, the printer only where it prints one.
pub fn boot<F: Files, D: Drive, S: Source, T: Sink, P: Sink>(
    alloc: Global,
    options: Options<'_>,
    files: &mut F,
    drive: &mut D,
    input: &mut S,
    terminal: &mut T,
    printer: &mut P,
    kernel: &mut Kernel,
) -> Ended
    ensures came { Blaming result.status (T.faults terminal.old) (T.faults terminal.new) (P.faults printer.old) (P.faults printer.new)
        (Came result.status result.due (Some (words.boot (options_of options.entry)))
        (outside_of F.contents D.contents S.left T.taken P.taken files.old drive.old input.old terminal.old printer.old)
        (outside_of F.contents D.contents S.left T.taken P.taken files.new drive.new input.new terminal.new printer.new))
        (lent kernel.old.store kernel.old.used kernel.new.store kernel.new.used) }
    // Files that no option names are left alone, the drive keeps its number of blocks, which the status fits, and where the drive is
    // not asked, no object but the files is touched, whatever they tell.
    ensures no_files { names_file (options_of options.entry) ≡ false → files.new ≡ files.old }
    ensures size { D.count drive.new ≡ D.count drive.old }
    ensures fits { FitsCount result.status (D.count drive.old) }
    ensures early { is_before_drive result.status ≡ true
        → DevicesStay (handed files.old drive.old input.old terminal.old printer.old kernel.old)
        (handed files.new drive.new input.new terminal.new printer.new kernel.new) }
    ensures unmounted { is_at_drive result.status ≡ true
        → RunStays (handed files.old drive.old input.old terminal.old printer.old kernel.old)
        (handed files.new drive.new input.new terminal.new printer.new kernel.new) }
    ensures cause { HasCause result.status
        (counts_of F.faults D.faults S.faults T.faults P.faults files.old drive.old input.old terminal.old printer.old)
        (counts_of F.faults D.faults S.faults T.faults P.faults files.new drive.new input.new terminal.new printer.new) }
    ensures later { NoneFalls
        (counts_of F.faults D.faults S.faults T.faults P.faults files.old drive.old input.old terminal.old printer.old)
        (counts_of F.faults D.faults S.faults T.faults P.faults files.new drive.new input.new terminal.new printer.new) }
{
    let mut choices = match read_from(alloc, files, options.choices) {
        Ok(choices) => choices,
        Err(status) => return stopped(status),
    };
    hold_session(
        alloc,
        options.turns,
        options.record_file,
        &mut choices,
        files,
        drive,
        input,
        terminal,
        printer,
        kernel,
    )
}
