//! A watched run: the points of a file, the run, and keeping its log.

ghost use Rattle.std.specs.Prelude.{◌≡◌, ◌⊎◌, ◌≤◌, true, ⊤, IfErr, option_map};
ghost use Rattle.edi_told.specs.Faults.{CountRose};
ghost use Rattle.edi_told.specs.Told.{WhereTold};
ghost use Rattle.edi_static.specs.Programs.{Sound};
ghost use Rattle.edi_debug.specs.Points.{ArePoints, watched_in};
ghost use Rattle.edi_runs.specs.watch.Watchable.{program_in};
ghost use Rattle.edi_statuses.specs.Outside.{lent, outside_of, still_told};
ghost use Rattle.edi_statuses.specs.Counts.{counts_of, HasCause, NoneFalls};
ghost use Rattle.edi_statuses.specs.EachObject.{RunStays, handed, is_at_drive};
ghost use Rattle.edi_main.specs.run.Blaming.{Blaming};
ghost use Rattle.edi_main.specs.steps.OnFiles.{OnlyReadsFiles, files_only};
ghost use Rattle.edi_main.specs.run.OnMounted.{DriveAsked};
ghost use Rattle.edi_main.specs.run.OnWatched.{LogEnd, RanWatched};
ghost use Rattle.edi_main.specs.run.WatchedFiles.{FilePoints, PointsStep};

use crate::run::code::{ending_status, object_status};
use crate::steps::{end_with_record, fetch, mount_status, stopped};
use edi_debug::{Log, PointFault, Points};
use edi_host::{Drive, Files, KeepEnd, Sink, Source};
use edi_kernel::Kernel;
use edi_runs::watch::{Watchable, watch_on};
use edi_statuses::{Ended, Status};
use edi_trace::Choices;
use std::alloc::Global;

/// As many bytes as decide what a file of points is: 64 lines of 257 bytes, and one byte.
const LIMIT: usize = 16_449;

/// The points that the bytes of a file are for a program, or the first bad line.
fn points_of(alloc: Global, watched: &Watchable, bytes: &[u8]) -> Result<Points, Status>
    requires sound { Sound (program_in watched.now) }
    ensures exact { FilePoints (program_in watched.now) bytes.now result }
{
    match watched.points(alloc, bytes) {
        Ok(points) => Ok(points),
        Err(PointFault::Line(line)) => Err(Status::BadPoints(line)),
        Err(PointFault::NoMemory) => Err(Status::NoMemory),
    }
}

/// The points of the file of this name for a program, or why the command stops there.
pub(crate) fn points_from<F: Files>(
    alloc: Global,
    files: &mut F,
    name: &str,
    watched: &Watchable,
) -> Result<Points, Status>
    requires sound { Sound (program_in watched.now) }
    ensures reads { PointsStep (files_only (still_told (F.contents files.old) (F.contents files.new))) (program_in watched.now) name.now result }
    ensures only { OnlyReadsFiles F.contents F.faults result files.old files.new }
{
    let bytes = fetch(alloc, files, name, LIMIT)?;
    points_of(alloc, watched, &bytes)
}

/// How a command ends that came to `ended`: so where its log is kept under `out`, and then the record, if there is to be one; and else by the
/// status that tells why not.
fn end_with_log<F: Files>(
    alloc: Global,
    files: &mut F,
    out: &str,
    log: &Log,
    record_file: Option<&str>,
    choices: &Choices,
    ended: Ended,
) -> Ended
    ensures due { result.due ≡ ended.due }
    ensures keeps { LogEnd out.now log.now.bytes (option_map (λ name. name.now) record_file.entry) choices.now ended.status result.status
        (F.contents files.old) (F.contents files.new) }
    ensures later { F.faults files.old ≤ F.faults files.new }
    ensures cause { result.status ≡ Status.FileFault → (ended.status ≡ Status.FileFault) ⊎ CountRose (F.faults files.old) (F.faults files.new) }
{
    match files.keep(alloc, out, log.bytes()) {
        KeepEnd::Ok => end_with_record(alloc, files, record_file, choices, ended),
        KeepEnd::Failed => Ended {
            status: Status::FileFault,
            due: ended.due,
        },
        KeepEnd::NoMemory => Ended {
            status: Status::NoMemory,
            due: ended.due,
        },
    }
}

/// Mounts the drive, runs a watched program on it, on an input, a terminal and a printer, and keeps its log, and then the record of the choices
/// that it drew, if there is to be one: after each ending, unless an object has failed.
pub(crate) fn watch_program<F: Files, D: Drive, S: Source, T: Sink, P: Sink>(
    alloc: Global,
    watched: &Watchable,
    points: &Points,
    turns: u32,
    out: &str,
    record_file: Option<&str>,
    choices: &mut Choices,
    files: &mut F,
    drive: &mut D,
    input: &mut S,
    terminal: &mut T,
    printer: &mut P,
    kernel: &mut Kernel,
) -> Ended
    requires none_drawn { choices.old.drawn ≡ 0 }
    requires sound { Sound (program_in watched.now) }
    requires points { ArePoints (program_in watched.now) points.now }
    ensures ran { Blaming result.status (T.faults terminal.old) (T.faults terminal.new) (P.faults printer.old) (P.faults printer.new)
        (RanWatched watched.now (watched_in points.now) turns choices.old.source out.now (option_map (λ name. name.now) record_file.entry)
        result.status result.due
        (outside_of F.contents D.contents S.left T.taken P.taken files.old drive.old input.old terminal.old printer.old)
        (outside_of F.contents D.contents S.left T.taken P.taken files.new drive.new input.new terminal.new printer.new))
        (lent kernel.old.store kernel.old.used kernel.new.store kernel.new.used) }
    ensures tells { WhereTold (F.contents files.old) (F.contents files.new) (λ old new. ⊤) }
    ensures cause { HasCause result.status
        (counts_of F.faults D.faults S.faults T.faults P.faults files.old drive.old input.old terminal.old printer.old)
        (counts_of F.faults D.faults S.faults T.faults P.faults files.new drive.new input.new terminal.new printer.new) }
    ensures later { NoneFalls
        (counts_of F.faults D.faults S.faults T.faults P.faults files.old drive.old input.old terminal.old printer.old)
        (counts_of F.faults D.faults S.faults T.faults P.faults files.new drive.new input.new terminal.new printer.new) }
    ensures size { D.count drive.new ≡ D.count drive.old }
    ensures asked { DriveAsked result.status (D.count drive.old) }
    ensures unmounted { is_at_drive result.status ≡ true
        → RunStays (handed files.old drive.old input.old terminal.old printer.old kernel.old)
        (handed files.new drive.new input.new terminal.new printer.new kernel.new) }
{
    let Ok(mut log) = Log::new(alloc) else {
        return stopped(Status::NoMemory);
    };
    let ran = match watch_on(
        alloc,
        kernel,
        watched,
        points,
        drive,
        input,
        terminal,
        printer,
        u64::from(turns),
        choices,
        &mut log,
    ) {
        Ok(ran) => ran,
        Err(why) => return stopped(mount_status(why)),
    };
    if let Some(object) = ran.failed {
        return Ended {
            status: object_status(object),
            due: ran.due,
        };
    }
    let ended = Ended {
        status: ending_status(ran.ending),
        due: ran.due,
    };
    end_with_log(alloc, files, out, &log, record_file, choices, ended)
}
