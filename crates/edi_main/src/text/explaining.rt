//! `explain FILE`.

ghost use Rattle.std.specs.Prelude.{◌≡◌, ◌⊎◌, ◌≤◌};
ghost use Rattle.edi_told.specs.Faults.{CountRose};
ghost use Rattle.edi_words.specs.Words.{explain as explain_words};
ghost use Rattle.edi_statuses.specs.Outside.{still_told};
ghost use Rattle.edi_main.specs.steps.OnFiles.{OnlyReadsFiles, files_only};
ghost use Rattle.edi_main.specs.steps.OnTerminal.{CameShowing, EndsShowing, HasCauseShown};
ghost use Rattle.edi_main.specs.text.TextCommands.{ExplainsFile, ExplainsText};

use crate::steps::fetch;
use crate::text::coding::LIMIT;
use edi_compile::{Refusal, front};
use edi_explain::told::explain;
use edi_host::{Files, Sink};
use edi_statuses::{Ended, Status, show_bytes};
use std::alloc::Global;

/// What is shown of a text, and the status with which the command ends then.
#[derive(Drop)]
pub(crate) struct Told {
    pub(crate) bytes: Vec<u8>,
    pub(crate) status: Status,
}

/// What is shown of a text; memory may run out.
fn told_of_text(alloc: Global, text: &[u8]) -> Result<Told, Status>
    ensures explains { ExplainsText (λ told. told.status) (λ told. told.bytes.items) text.now result }
{
    match front(alloc, text) {
        Ok(_unit) => {
            let bytes = Vec::from_slice(alloc, b"accepted\n")?;
            Ok(Told {
                bytes,
                status: Status::Ok,
            })
        }
        Err(Refusal::At { kind, line, .. }) => {
            let bytes = explain(alloc, text, kind, line)?;
            Ok(Told {
                bytes,
                status: Status::Refused(kind, line),
            })
        }
        Err(Refusal::NoMemory) => Err(Status::NoMemory),
    }
}

/// What is shown of the text in a file, or why the command stops there.
fn told_of_file<F: Files>(alloc: Global, files: &mut F, file: &str) -> Result<Told, Status>
    ensures explains { ExplainsFile (λ told. told.status) (λ told. told.bytes.items)
        (files_only (still_told (F.contents files.old) (F.contents files.new))) file.now result }
    ensures only { OnlyReadsFiles F.contents F.faults result files.old files.new }
{
    match fetch(alloc, files, file, LIMIT) {
        Ok(text) => told_of_text(alloc, &text),
        Err(status) => Err(status),
    }
}

/// Shows bytes, and ends with this status where all of them were shown; else the output has failed. Takes no memory.
fn show_and_end<T: Sink>(terminal: &mut T, bytes: &[u8], status: Status) -> Ended
    ensures shows { EndsShowing status bytes.now result (T.taken terminal.old) (T.taken terminal.new) }
    ensures cause { (result.status ≡ status)
        ⊎ ((result.status ≡ Status.OutputFault) × CountRose (T.faults terminal.old) (T.faults terminal.new)) }
    ensures later { T.faults terminal.old ≤ T.faults terminal.new }
{
    let shown = show_bytes(terminal, bytes, false);
    match shown.status {
        Status::OutputFault => shown,
        _ => Ended {
            status,
            due: shown.due,
        },
    }
}

/// Fetches the text of the file, and shows what is wrong with it, or that it is accepted. A text that is refused ends the command with
/// `Refused`, after its explanation. It touches the files and the terminal alone: whatever the other objects are, which stay as they are,
/// this is how the command ended.
pub fn explain_file<F: Files, T: Sink>(
    alloc: Global,
    files: &mut F,
    terminal: &mut T,
    file: &str,
) -> Ended
    ensures came { CameShowing (explain_words file.now) result.status result.due
        (F.contents files.old) (F.contents files.new) (T.taken terminal.old) (T.taken terminal.new) }
    ensures cause { HasCauseShown result.status (F.faults files.old) (F.faults files.new) (T.faults terminal.old) (T.faults terminal.new) }
    ensures later_files { F.faults files.old ≤ F.faults files.new }
    ensures later_terminal { T.faults terminal.old ≤ T.faults terminal.new }
{
    match told_of_file(alloc, files, file) {
        Ok(told) => show_and_end(terminal, &told.bytes, told.status),
        Err(status) => Ended { status, due: false },
    }
}
