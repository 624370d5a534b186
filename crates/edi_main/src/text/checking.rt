//! `check FILE`.

ghost use Rattle.std.specs.Prelude.{◌≡◌, ◌≤◌};
ghost use Rattle.edi_words.specs.Words.{check as check_words};
ghost use Rattle.edi_statuses.specs.Outside.{still_told};
ghost use Rattle.edi_main.specs.steps.OnFiles.{OnlyReadsFiles, files_only};
ghost use Rattle.edi_main.specs.steps.OnTerminal.{CameShowing, HasCauseShown};
ghost use Rattle.edi_main.specs.text.TextCommands.{ReportsFile, ReportsText};

use crate::steps::{fetch, show_made};
use crate::text::coding::LIMIT;
use edi_compile::{Refusal, front};
use edi_disjoint::report;
use edi_host::{Files, Sink};
use edi_statuses::{Ended, Status};
use std::alloc::Global;

/// The report on the branches of a text, or why the command stops there.
fn report_of_text(alloc: Global, text: &[u8]) -> Result<Vec<u8>, Status>
    ensures reports { ReportsText (λ bytes. bytes.items) text.now result }
{
    let unit = match front(alloc, text) {
        Ok(unit) => unit,
        Err(Refusal::At { kind, line, .. }) => return Err(Status::Refused(kind, line)),
        Err(Refusal::NoMemory) => return Err(Status::NoMemory),
    };
    let bytes = report(alloc, &unit)?;
    Ok(bytes)
}

/// The report on the branches of the text in a file, or why the command stops there.
fn report_of_file<F: Files>(alloc: Global, files: &mut F, file: &str) -> Result<Vec<u8>, Status>
    ensures reports { ReportsFile (λ bytes. bytes.items) (files_only (still_told (F.contents files.old) (F.contents files.new))) file.now result }
    ensures only { OnlyReadsFiles F.contents F.faults result files.old files.new }
{
    match fetch(alloc, files, file, LIMIT) {
        Ok(text) => report_of_text(alloc, &text),
        Err(status) => Err(status),
    }
}

/// Fetches the text of the file, reads it, and shows the report on its branches. It touches the files and the terminal alone:
/// whatever the other objects are, which stay as they are, this is how the command ended.
pub fn check<F: Files, T: Sink>(alloc: Global, files: &mut F, terminal: &mut T, file: &str) -> Ended
    ensures came { CameShowing (check_words file.now) result.status result.due
        (F.contents files.old) (F.contents files.new) (T.taken terminal.old) (T.taken terminal.new) }
    ensures cause { HasCauseShown result.status (F.faults files.old) (F.faults files.new) (T.faults terminal.old) (T.faults terminal.new) }
    ensures later_files { F.faults files.old ≤ F.faults files.new }
    ensures later_terminal { T.faults terminal.old ≤ T.faults terminal.new }
{
    let made = report_of_file(alloc, files, file);
    show_made(terminal, made)
}
