//! `walk FILE CHOICES`: walks through the program of a text, with a choice at every step.

ghost use Rattle.std.specs.Prelude.{◌≡◌, ◌≤◌, ℕ, Option, Some, true};
ghost use Rattle.edi_host.specs.Contents.{Contents};
ghost use Rattle.edi_unit.specs.View.{unit_of};
ghost use Rattle.edi_words.specs.Words.{walk as walk_words};
ghost use Rattle.edi_statuses.specs.EachObject.{DevicesStay, FitsCount, handed, is_at_drive, is_before_drive};
ghost use Rattle.edi_statuses.specs.Outside.{KernelLeft, idle, outside_of, outside_with};
ghost use Rattle.edi_statuses.specs.Counts.{counts_of, counts_with, HasCause, NoneFalls};
ghost use Rattle.edi_statuses.specs.Decided.{Came};
ghost use Rattle.edi_main.specs.run.Blaming.{Blaming};
ghost use Rattle.edi_main.specs.run.OnMounted.{DriveAsked};
ghost use Rattle.edi_main.specs.run.OnWalked.{end_status, RanWalk};

use crate::run::code::object_status;
use crate::run::texts::{LIMIT, unit_of_text};
use crate::steps::{mount_status, open_program, stopped};
use edi_calls::Cause;
use edi_host::{Drive, Files, Sink, Source};
use edi_runs::walk::walk_on;
use edi_statuses::{Ended, Status};
use edi_trace::Choices;
use edi_unit::Unit;
use edi_walk::WalkEnd;
use edi_words::ChoicesFrom;
use std::alloc::Global;

/// The status of a command whose walk has come to this end, which is no fault.
fn end_status(end: WalkEnd) -> Status
    requires none_failed { end ≡ WalkEnd.Fault → ⊥ }
    ensures exact { Some result ≡ end_status end }
{
    match end {
        WalkEnd::Done => Status::Ok,
        WalkEnd::Halted(line) => Status::Stopped(Cause::Halt, line),
        WalkEnd::Failed(why, line) => Status::Stopped(why, line),
        WalkEnd::Turns => Status::Turns,
        WalkEnd::NoMemory => Status::NoMemory,
        WalkEnd::Fault => unreachable!(),
    }
}

/// Mounts the drive and walks through a unit on it, on an input, a terminal and a printer. The files and the kernel are not seen.
fn walk_unit<D: Drive, S: Source, T: Sink, P: Sink>(
    alloc: Global,
    unit: &Unit,
    turns: u32,
    choices: &mut Choices,
    drive: &mut D,
    input: &mut S,
    terminal: &mut T,
    printer: &mut P,
) -> Ended
    requires none_drawn { choices.old.drawn ≡ 0 }
    ensures ran { (files : Option Contents) (kernel : KernelLeft)
        → Blaming result.status (T.faults terminal.old) (T.faults terminal.new) (P.faults printer.old) (P.faults printer.new)
        (RanWalk (unit_of unit.now) turns choices.old.source result.status result.due
        (outside_with files (D.contents drive.old) (S.left input.old) (T.taken terminal.old) (P.taken printer.old))
        (outside_with files (D.contents drive.new) (S.left input.new) (T.taken terminal.new) (P.taken printer.new))) (idle kernel) }
    ensures cause { (had has : ℕ) → HasCause result.status
        (counts_with had (D.faults drive.old) (S.faults input.old) (T.faults terminal.old) (P.faults printer.old))
        (counts_with has (D.faults drive.new) (S.faults input.new) (T.faults terminal.new) (P.faults printer.new)) }
    ensures later_drive { D.faults drive.old ≤ D.faults drive.new }
    ensures later_input { S.faults input.old ≤ S.faults input.new }
    ensures later_terminal { T.faults terminal.old ≤ T.faults terminal.new }
    ensures later_printer { P.faults printer.old ≤ P.faults printer.new }
    ensures size { D.count drive.new ≡ D.count drive.old }
    ensures asked { DriveAsked result.status (D.count drive.old) }
    ensures unmounted { is_at_drive result.status ≡ true → (input.new ≡ input.old) × (printer.new ≡ printer.old) }
{
    let walked = match walk_on(
        alloc,
        unit,
        drive,
        input,
        terminal,
        printer,
        u64::from(turns),
        choices,
    ) {
        Ok(walked) => walked,
        Err(why) => return stopped(mount_status(why)),
    };
    if let Some(object) = walked.failed {
        return Ended {
            status: object_status(object),
            due: walked.due,
        };
    }
    Ended {
        status: end_status(walked.end),
        due: walked.due,
    }
}

/// `walk FILE CHOICES`: fetches the text, reads the choices, resolves the text, mounts the drive and walks, in this order.
///
/// The kernel is left alone, and no file is kept. What the status means, and how all that is outside stands after the call, is told by
/// `Came`: the first step that stops decides. Want of memory may come at any time: in the midst of a walk all is at one moment of
/// it. The fault of an object comes only where its count rose.
pub fn walk_file<F: Files, D: Drive, S: Source, T: Sink, P: Sink>(
    alloc: Global,
    file: &str,
    choices: &str,
    turns: u32,
    files: &mut F,
    drive: &mut D,
    input: &mut S,
    terminal: &mut T,
    printer: &mut P,
) -> Ended
    // An object that has failed in the walk is blamed.
    ensures came { (kernel : KernelLeft)
        → Blaming result.status (T.faults terminal.old) (T.faults terminal.new) (P.faults printer.old) (P.faults printer.new)
        (Came result.status result.due (Some (walk_words file.now choices.now turns))
        (outside_of F.contents D.contents S.left T.taken P.taken files.old drive.old input.old terminal.old printer.old)
        (outside_of F.contents D.contents S.left T.taken P.taken files.new drive.new input.new terminal.new printer.new)) (idle kernel) }
    ensures cause { HasCause result.status
        (counts_of F.faults D.faults S.faults T.faults P.faults files.old drive.old input.old terminal.old printer.old)
        (counts_of F.faults D.faults S.faults T.faults P.faults files.new drive.new input.new terminal.new printer.new) }
    ensures later { NoneFalls
        (counts_of F.faults D.faults S.faults T.faults P.faults files.old drive.old input.old terminal.old printer.old)
        (counts_of F.faults D.faults S.faults T.faults P.faults files.new drive.new input.new terminal.new printer.new) }
    // The status fits the number of blocks, which stays, whatever the drive tells; and where the drive is not asked, no object but the
    // files is touched.
    ensures size { D.count drive.new ≡ D.count drive.old }
    ensures fits { FitsCount result.status (D.count drive.old) }
    ensures early { is_before_drive result.status ≡ true
        → DevicesStay (handed files.old drive.old input.old terminal.old printer.old (tt {0}))
        (handed files.new drive.new input.new terminal.new printer.new (tt {0})) }
    ensures unmounted { is_at_drive result.status ≡ true → (input.new ≡ input.old) × (printer.new ≡ printer.old) }
{
    let mut opened = match open_program(alloc, files, file, LIMIT, ChoicesFrom::File(choices)) {
        Ok(opened) => opened,
        Err(status) => return stopped(status),
    };
    let unit = match unit_of_text(alloc, &opened.bytes) {
        Ok(unit) => unit,
        Err(status) => return stopped(status),
    };
    walk_unit(
        alloc,
        &unit,
        turns,
        &mut opened.choices,
        drive,
        input,
        terminal,
        printer,
    )
}
