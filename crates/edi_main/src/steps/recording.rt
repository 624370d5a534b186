//! Keeping the record of the choices that a run drew.

ghost use Rattle.std.specs.Prelude.{◌≡◌, ◌⊎◌, ◌≤◌, None, IfErr, option_map};
ghost use Rattle.edi_told.specs.Faults.{CountRose};
ghost use Rattle.edi_main.specs.steps.OnFiles.{RecordEnd, RecordStep};

use edi_host::{Files, KeepEnd};
use edi_statuses::{Ended, Status};
use edi_trace::{Choices, write_choices};
use std::alloc::Global;

/// Keeps the first choices that were drawn, 65,536 at most, under this name, if there is one.
fn keep_record<F: Files>(
    alloc: Global,
    files: &mut F,
    name: Option<&str>,
    choices: &Choices,
) -> Result<(), Status>
    ensures keeps { RecordStep (option_map (λ text. text.now) name.entry) choices.now result (F.contents files.old) (F.contents files.new) }
    ensures untouched { name.entry ≡ None → files.new ≡ files.old }
    ensures later { F.faults files.old ≤ F.faults files.new }
    ensures cause { IfErr result (λ s. s ≡ Status.FileFault → CountRose (F.faults files.old) (F.faults files.new)) }
{
    let Some(name) = name else {
        return Ok(());
    };
    let bytes = write_choices(alloc, choices.used())?;
    match files.keep(alloc, name, &bytes) {
        KeepEnd::Ok => Ok(()),
        KeepEnd::Failed => Err(Status::FileFault),
        KeepEnd::NoMemory => Err(Status::NoMemory),
    }
}

/// How a command ends that came to `ended`: so where the first choices that were drawn are kept under this name, if there is one, and
/// else by the status that tells why not.
pub fn end_with_record<F: Files>(
    alloc: Global,
    files: &mut F,
    name: Option<&str>,
    choices: &Choices,
    ended: Ended,
) -> Ended
    ensures due { result.due ≡ ended.due }
    ensures keeps { RecordEnd (option_map (λ text. text.now) name.entry) choices.now ended.status result.status (F.contents files.old)
        (F.contents files.new) }
    ensures untouched { name.entry ≡ None → files.new ≡ files.old }
    ensures later { F.faults files.old ≤ F.faults files.new }
    ensures cause { result.status ≡ Status.FileFault → (ended.status ≡ Status.FileFault) ⊎ CountRose (F.faults files.old) (F.faults files.new) }
{
    match keep_record(alloc, files, name, choices) {
        Ok(()) => ended,
        Err(status) => Ended {
            status,
            due: ended.due,
        },
    }
}
