//! `watch FILE STOPS OUT`: runs the program of a text and keeps a log of what variables hold where processes arrive.

ghost use Rattle.std.specs.Prelude.{◌≡◌, true, Some};
ghost use Rattle.edi_words.specs.Words.{watch};
ghost use Rattle.edi_words.specs.View.{options_of};
ghost use Rattle.edi_statuses.specs.EachObject.{DevicesStay, FitsCount, RunStays, handed, is_at_drive, is_before_drive};
ghost use Rattle.edi_statuses.specs.Outside.{lent, outside_of};
ghost use Rattle.edi_statuses.specs.Counts.{counts_of, HasCause, NoneFalls};
ghost use Rattle.edi_statuses.specs.Decided.{Came};
ghost use Rattle.edi_main.specs.run.Blaming.{Blaming};
ghost use Rattle.edi_main.specs.run.WatchedFiles.{WatchableStep};

use crate::run::logging::{points_from, watch_program};
use crate::run::texts::LIMIT;
use crate::steps::{open_program, stopped};
use edi_compile::Refusal;
use edi_host::{Drive, Files, Sink, Source};
use edi_kernel::Kernel;
use edi_runs::watch::{Watchable, read_watchable};
use edi_statuses::{Ended, Status};
use edi_words::Options;
use std::alloc::Global;

/// The program of a text, or why the command stops there.
fn watchable_text(alloc: Global, bytes: &[u8]) -> Result<Watchable, Status>
    ensures reads { WatchableStep bytes.now result }
{
    match read_watchable(alloc, bytes) {
        Ok(watched) => Ok(watched),
        Err(Refusal::At { kind, line, .. }) => Err(Status::Refused(kind, line)),
        Err(Refusal::NoMemory) => Err(Status::NoMemory),
    }
}

/// `watch FILE STOPS OUT`: fetches the text, reads the choices, compiles, fetches the file of points and reads them, mounts the drive, runs, keeps
/// the log under `out` and then the record, in this order.
///
/// All else is as for `run_file`. `BadPoints` comes exactly where the file of points has a bad line, for the first one; neither log nor record is
/// kept where an object has failed. Want of memory comes only before the first effect, or where the log or the record is to be kept.
pub fn watch_file<F: Files, D: Drive, S: Source, T: Sink, P: Sink>(
    alloc: Global,
    file: &str,
    stops: &str,
    out: &str,
    options: Options<'_>,
    files: &mut F,
    drive: &mut D,
    input: &mut S,
    terminal: &mut T,
    printer: &mut P,
    kernel: &mut Kernel,
) -> Ended
    ensures came { Blaming result.status (T.faults terminal.old) (T.faults terminal.new) (P.faults printer.old) (P.faults printer.new)
        (Came result.status result.due (Some (watch file.now stops.now out.now (options_of options.entry)))
        (outside_of F.contents D.contents S.left T.taken P.taken files.old drive.old input.old terminal.old printer.old)
        (outside_of F.contents D.contents S.left T.taken P.taken files.new drive.new input.new terminal.new printer.new))
        (lent kernel.old.store kernel.old.used kernel.new.store kernel.new.used) }
    ensures cause { HasCause result.status
        (counts_of F.faults D.faults S.faults T.faults P.faults files.old drive.old input.old terminal.old printer.old)
        (counts_of F.faults D.faults S.faults T.faults P.faults files.new drive.new input.new terminal.new printer.new) }
    ensures later { NoneFalls
        (counts_of F.faults D.faults S.faults T.faults P.faults files.old drive.old input.old terminal.old printer.old)
        (counts_of F.faults D.faults S.faults T.faults P.faults files.new drive.new input.new terminal.new printer.new) }
    ensures size { D.count drive.new ≡ D.count drive.old }
    ensures fits { FitsCount result.status (D.count drive.old) }
    ensures early { is_before_drive result.status ≡ true
        → DevicesStay (handed files.old drive.old input.old terminal.old printer.old kernel.old)
        (handed files.new drive.new input.new terminal.new printer.new kernel.new) }
    ensures unmounted { is_at_drive result.status ≡ true
        → RunStays (handed files.old drive.old input.old terminal.old printer.old kernel.old)
        (handed files.new drive.new input.new terminal.new printer.new kernel.new) }
{
    let mut opened = match open_program(alloc, files, file, LIMIT, options.choices) {
        Ok(opened) => opened,
        Err(status) => return stopped(status),
    };
    let watched = match watchable_text(alloc, &opened.bytes) {
        Ok(watched) => watched,
        Err(status) => return stopped(status),
    };
    let points = match points_from(alloc, files, stops, &watched) {
        Ok(points) => points,
        Err(status) => return stopped(status),
    };
    watch_program(
        alloc,
        &watched,
        &points,
        options.turns,
        out,
        options.record_file,
        &mut opened.choices,
        files,
        drive,
        input,
        terminal,
        printer,
        kernel,
    )
}
