//! The call that does all that the program does.

ghost use Rattle.std.specs.Prelude.{◌≡◌, ◌⊎◌, ◌≤◌, ℕ, List, None, Some, false, true, map, option_map};
ghost use Rattle.std.specs.String.{string_bytes};
ghost use Rattle.edi_told.specs.Faults.{CountRose};
ghost use Rattle.edi_words.specs.Words.{command_of, newdisk};
ghost use Rattle.edi_words.specs.View.{options_of, view, IsInRange};
ghost use Rattle.edi_main.specs.run.RunMeans.{replaying};
ghost use Rattle.edi_main.specs.disk.OnDisk.{HasCauseOnDisk, MeansOnDisk};
ghost use Rattle.edi_statuses.specs.Outside.{Blamed, blaming, lent, outside_of, Shows};
ghost use Rattle.edi_statuses.specs.Counts.{counts_of, HasCause, NoneFalls};
ghost use Rattle.edi_statuses.specs.EachObject.{command_does, handed, is_before_format, is_exploration, is_silent, uses_files};
ghost use Rattle.edi_statuses.specs.EachObject.{CountsBlocks, CountsNew, LeavesEach, UnmountedStay, UnusedStay};
ghost use Rattle.edi_statuses.specs.Means.{EndsWith};
ghost use Rattle.edi_statuses.specs.Decided.{CameBlaming};

use crate::boot::boot;
use crate::code::list;
use crate::disk::{get, new_disk, new_disk_from, put};
use crate::run::Form::{Code, Text};
use crate::run::{demonstrate, run_file, run_file_with, walk_file, watch_file};
use crate::text::{check, compile_file, explain_file, explore_file};
use edi_explore::Watcher;
use edi_host::{Drive, Files, Sink, Source};
use edi_kernel::Kernel;
use edi_statuses::{Ended, Status, show_status};
use edi_words::{ChoicesFrom, Command, Options, command};
use std::alloc::Global;

/// Where nothing was shown.
fn silent(status: Status) -> Ended
    ensures status { result.status ≡ status }
    ensures due { result.due ≡ false }
{
    Ended { status, due: false }
}

/// A disk without files, or with those of an old image.
fn new_by<F: Files, D: Drive>(
    alloc: Global,
    files: &mut F,
    drive: &mut D,
    blocks: u16,
    old: Option<&str>,
) -> Status
    requires least { 64 ≤ blocks }
    requires most { blocks ≤ 4096 }
    ensures means { MeansOnDisk (newdisk blocks (option_map (λ name. name.now) old.entry)) result (F.contents files.old) (F.contents files.new)
        (D.contents drive.old) (D.contents drive.new) }
    ensures size { CountsNew result blocks (D.count drive.old) (D.count drive.new)
        (D.faults drive.old) (D.faults drive.new) }
    ensures early { is_before_format result ≡ true → drive.new ≡ drive.old }
    ensures no_files { uses_files (newdisk blocks (option_map (λ name. name.now) old.entry)) ≡ false → files.new ≡ files.old }
    ensures cause { HasCauseOnDisk result (F.faults files.old) (F.faults files.new) (D.faults drive.old) (D.faults drive.new) }
{
    match old {
        None => new_disk(alloc, drive, u32::from(blocks)),
        Some(file) => new_disk_from(alloc, files, drive, u32::from(blocks), file),
    }
}

/// The options of `run` with which it replays the choices of a file.
fn replaying(choices: &str, turns: u32) -> Options<'_>
    ensures exact { options_of result ≡ replaying choices.now turns }
{
    Options {
        turns,
        choices: ChoicesFrom::File(choices),
        record_file: None,
    }
}

// Does what the command says. The line of the status is still to be shown.
fn perform<F: Files, D: Drive, S: Source, T: Sink, P: Sink, W: Watcher>(
    alloc: Global,
    command: Command<'_>,
    files: &mut F,
    drive: &mut D,
    input: &mut S,
    terminal: &mut T,
    printer: &mut P,
    kernel: &mut Kernel,
    watcher: &mut W,
) -> Ended
    requires range { IsInRange command }
    ensures came { CameBlaming result.status result.due (Some (view command.entry))
        (outside_of F.contents D.contents S.left T.taken P.taken files.old drive.old input.old terminal.old printer.old)
        (outside_of F.contents D.contents S.left T.taken P.taken files.new drive.new input.new terminal.new printer.new)
        (counts_of F.faults D.faults S.faults T.faults P.faults files.old drive.old input.old terminal.old printer.old)
        (counts_of F.faults D.faults S.faults T.faults P.faults files.new drive.new input.new terminal.new printer.new)
        (lent kernel.old.store kernel.old.used kernel.new.store kernel.new.used) }
    ensures cause { HasCause result.status
        (counts_of F.faults D.faults S.faults T.faults P.faults files.old drive.old input.old terminal.old printer.old)
        (counts_of F.faults D.faults S.faults T.faults P.faults files.new drive.new input.new terminal.new printer.new) }
    ensures later { NoneFalls
        (counts_of F.faults D.faults S.faults T.faults P.faults files.old drive.old input.old terminal.old printer.old)
        (counts_of F.faults D.faults S.faults T.faults P.faults files.new drive.new input.new terminal.new printer.new) }
    ensures size { CountsBlocks (Some (view command.entry)) result.status (D.count drive.old) (D.count drive.new)
        (D.faults drive.old) (D.faults drive.new) }
    ensures untouched { UnusedStay (Some (view command.entry)) result.status
        (handed files.old drive.old input.old terminal.old printer.old kernel.old)
        (handed files.new drive.new input.new terminal.new printer.new kernel.new) }
    ensures unmounted { UnmountedStay (Some (view command.entry)) result.status
        (handed files.old drive.old input.old terminal.old printer.old kernel.old)
        (handed files.new drive.new input.new terminal.new printer.new kernel.new) }
    ensures no_terminal { command_does is_silent (Some (view command.entry)) ≡ true → terminal.new ≡ terminal.old }
    ensures unwatched { command_does is_exploration (Some (view command.entry)) ≡ false → watcher.new ≡ watcher.old }
{
    match command {
        Command::Run { file, options } => run_file(
            alloc, Text, file, options, files, drive, input, terminal, printer, kernel,
        ),
        Command::Replay {
            file,
            choices,
            turns,
        } => {
            let options = replaying(choices, turns);
            run_file(
                alloc, Text, file, options, files, drive, input, terminal, printer, kernel,
            )
        }
        Command::Exec { file, options } => run_file(
            alloc, Code, file, options, files, drive, input, terminal, printer, kernel,
        ),
        Command::Boot { options } => boot(
            alloc, options, files, drive, input, terminal, printer, kernel,
        ),
        Command::Compile { file, out } => silent(compile_file(alloc, files, file, out)),
        Command::NewDisk { blocks, old } => silent(new_by(alloc, files, drive, blocks, old)),
        Command::Put { file, title } => silent(put(alloc, files, drive, file, title)),
        Command::Get { title, file } => silent(get(alloc, files, drive, title, file)),
        Command::List { file } => list(alloc, files, terminal, file),
        Command::Demo { n, options } => demonstrate(
            alloc,
            u32::from(n),
            None,
            options,
            files,
            terminal,
            printer,
            kernel,
        ),
        Command::Check { file } => check(alloc, files, terminal, file),
        Command::Explain { file } => explain_file(alloc, files, terminal, file),
        Command::Walk {
            file,
            choices,
            turns,
        } => walk_file(
            alloc, file, choices, turns, files, drive, input, terminal, printer,
        ),
        Command::Watch {
            file,
            stops,
            out,
            options,
        } => watch_file(
            alloc, file, stops, out, options, files, drive, input, terminal, printer, kernel,
        ),
        Command::Explore { file, options } => {
            explore_file(
                alloc, file, options, files, input, terminal, kernel, watcher,
            )
        }
        Command::RunWith {
            file,
            account,
            options,
        } => run_file_with(
            alloc, Text, file, account, options, files, drive, input, terminal, printer, kernel,
        ),
        Command::ExecWith {
            file,
            account,
            options,
        } => run_file_with(
            alloc, Code, file, account, options, files, drive, input, terminal, printer, kernel,
        ),
        Command::DemoWith {
            n,
            account,
            options,
        } => demonstrate(
            alloc,
            u32::from(n),
            Some(account),
            options,
            files,
            terminal,
            printer,
            kernel,
        ),
    }
}

// Does what the words say. The line of the status is still to be shown.
fn obey<F: Files, D: Drive, S: Source, T: Sink, P: Sink, W: Watcher>(
    alloc: Global,
    words: &[String],
    files: &mut F,
    drive: &mut D,
    input: &mut S,
    terminal: &mut T,
    printer: &mut P,
    kernel: &mut Kernel,
    watcher: &mut W,
) -> Ended
    ensures came { CameBlaming result.status result.due (command_of (map string_bytes words.now))
        (outside_of F.contents D.contents S.left T.taken P.taken files.old drive.old input.old terminal.old printer.old)
        (outside_of F.contents D.contents S.left T.taken P.taken files.new drive.new input.new terminal.new printer.new)
        (counts_of F.faults D.faults S.faults T.faults P.faults files.old drive.old input.old terminal.old printer.old)
        (counts_of F.faults D.faults S.faults T.faults P.faults files.new drive.new input.new terminal.new printer.new)
        (lent kernel.old.store kernel.old.used kernel.new.store kernel.new.used) }
    ensures cause { HasCause result.status
        (counts_of F.faults D.faults S.faults T.faults P.faults files.old drive.old input.old terminal.old printer.old)
        (counts_of F.faults D.faults S.faults T.faults P.faults files.new drive.new input.new terminal.new printer.new) }
    ensures later { NoneFalls
        (counts_of F.faults D.faults S.faults T.faults P.faults files.old drive.old input.old terminal.old printer.old)
        (counts_of F.faults D.faults S.faults T.faults P.faults files.new drive.new input.new terminal.new printer.new) }
    ensures size { CountsBlocks (command_of (map string_bytes words.now)) result.status (D.count drive.old) (D.count drive.new)
        (D.faults drive.old) (D.faults drive.new) }
    ensures untouched { UnusedStay (command_of (map string_bytes words.now)) result.status
        (handed files.old drive.old input.old terminal.old printer.old kernel.old)
        (handed files.new drive.new input.new terminal.new printer.new kernel.new) }
    ensures unmounted { UnmountedStay (command_of (map string_bytes words.now)) result.status
        (handed files.old drive.old input.old terminal.old printer.old kernel.old)
        (handed files.new drive.new input.new terminal.new printer.new kernel.new) }
    ensures no_terminal { command_does is_silent (command_of (map string_bytes words.now)) ≡ true → terminal.new ≡ terminal.old }
    ensures unwatched { command_does is_exploration (command_of (map string_bytes words.now)) ≡ false → watcher.new ≡ watcher.old }
{
    match command(alloc, words) {
        Ok(Some(command)) => perform(
            alloc, command, files, drive, input, terminal, printer, kernel, watcher,
        ),
        Ok(None) => silent(Status::Words),
        Err(_) => silent(Status::NoMemory),
    }
}

/// Does what the words say, which are those after the program's name, and answers how it ended.
///
/// The line of the status is shown on the terminal. `Ok` has none, and neither has `OutputFault`: there the terminal or the printer has
/// failed. While an exploration goes on the watcher is told how many states there are.
pub fn edison<F: Files, D: Drive, S: Source, T: Sink, P: Sink, W: Watcher>(
    alloc: Global,
    words: &[String],
    files: &mut F,
    drive: &mut D,
    input: &mut S,
    terminal: &mut T,
    printer: &mut P,
    kernel: &mut Kernel,
    watcher: &mut W,
) -> Status
    // The status means what it says of the words, of all that is outside before and after the call and of the lent kernel; and the terminal
    // has taken what goes with it, and no more. Where the devices tell, an object is blamed that a failed call of a program uses,
    // or that may fail at the moment of the session: an output only beside a byte of its own, the drive and the input at each. Its count rose.
    // What is left of the drive, the input and the printer, each by itself, is told whatever the others tell.
    ensures ends { let before = outside_of F.contents D.contents S.left T.taken P.taken files.old drive.old input.old terminal.old printer.old in
        let after = outside_of F.contents D.contents S.left T.taken P.taken files.new drive.new input.new terminal.new printer.new in
        let had = counts_of F.faults D.faults S.faults T.faults P.faults files.old drive.old input.old terminal.old printer.old in
        let has = counts_of F.faults D.faults S.faults T.faults P.faults files.new drive.new input.new terminal.new printer.new in
        (all : List ℕ) × (blamed : Blamed)
        × EndsWith result (command_of (map string_bytes words.now)) before after had has all
        (blaming blamed (lent kernel.old.store kernel.old.used kernel.new.store kernel.new.used))
        × Shows before after all
        × LeavesEach (command_of (map string_bytes words.now)) before after }

    // A fault comes only where the count of its object rose.
    ensures file_fault { result ≡ Status.FileFault → CountRose (F.faults files.old) (F.faults files.new) }
    ensures drive_fault { result ≡ Status.DriveFault → CountRose (D.faults drive.old) (D.faults drive.new) }
    ensures input_fault { result ≡ Status.InputFault → CountRose (S.faults input.old) (S.faults input.new) }
    ensures output_fault { result ≡ Status.OutputFault
        → CountRose (T.faults terminal.old) (T.faults terminal.new) ⊎ CountRose (P.faults printer.old) (P.faults printer.new) }

    // No count falls.
    ensures later_files { F.faults files.old ≤ F.faults files.new }
    ensures later_drive { D.faults drive.old ≤ D.faults drive.new }
    ensures later_input { S.faults input.old ≤ S.faults input.new }
    ensures later_terminal { T.faults terminal.old ≤ T.faults terminal.new }
    ensures later_printer { P.faults printer.old ≤ P.faults printer.new }

    // Only `newdisk` gives the drive another number of blocks, and the status of a command that mounts the drive fits it, whatever the
    // drive tells.
    ensures size { CountsBlocks (command_of (map string_bytes words.now)) result (D.count drive.old) (D.count drive.new)
        (D.faults drive.old) (D.faults drive.new) }

    // Objects that a command has no use for, and those that it has not come to, are not touched, whatever they tell; words that are
    // refused touch none but the terminal.
    ensures untouched { UnusedStay (command_of (map string_bytes words.now)) result
        (handed files.old drive.old input.old terminal.old printer.old kernel.old)
        (handed files.new drive.new input.new terminal.new printer.new kernel.new) }
    // And where the status is that the drive is no valid image, what a command uses after it is not touched.
    ensures unmounted { UnmountedStay (command_of (map string_bytes words.now)) result
        (handed files.old drive.old input.old terminal.old printer.old kernel.old)
        (handed files.new drive.new input.new terminal.new printer.new kernel.new) }
    ensures no_terminal { result ≡ Status.Ok → command_does is_silent (command_of (map string_bytes words.now)) ≡ true
        → terminal.new ≡ terminal.old }

    // Only an exploration tells how far it is.
    ensures unwatched { command_does is_exploration (command_of (map string_bytes words.now)) ≡ false → watcher.new ≡ watcher.old }
{
    let ended = obey(
        alloc, words, files, drive, input, terminal, printer, kernel, watcher,
    );
    show_status(terminal, ended.status, ended.due)
}
