//! The program that is explored.

ghost use Rattle.edi_statuses.specs.Outside.{still_told};
ghost use Rattle.edi_main.specs.steps.OnFiles.{OnlyReadsFiles, files_only};
ghost use Rattle.edi_main.specs.text.ExploreCommand.{GivesProgram, ReadsProgram};

use crate::steps::fetch;
use crate::text::coding::LIMIT;
use edi_compile::{Refusal, front, translate};
use edi_host::Files;
use edi_runs::explore::{Openness, names_accept, openness_of};
use edi_statuses::Status;
use edi_target::Code;
use std::alloc::Global;

/// A program that is explored: its code, whether it asks for input, and what its branches use outside critical phases.
#[derive(Drop)]
pub(crate) struct Explorable {
    pub(crate) code: Code,
    pub(crate) asks: bool,
    pub(crate) openly: Openness,
}

/// The program of a text, or why the command stops there.
fn program_of_text(alloc: Global, text: &[u8]) -> Result<Explorable, Status>
    ensures reads { ReadsProgram text.now result }
{
    let unit = match front(alloc, text) {
        Ok(unit) => unit,
        Err(Refusal::At { kind, line, .. }) => return Err(Status::Refused(kind, line)),
        Err(Refusal::NoMemory) => return Err(Status::NoMemory),
    };
    let asks = names_accept(&unit);
    let Some(openly) = openness_of(alloc, text, &unit) else {
        return Err(Status::NoMemory);
    };
    let code = translate(alloc, &unit)?;
    Ok(Explorable { code, asks, openly })
}

/// The program of the text in a file, or why the command stops there.
pub(crate) fn program_of_file<F: Files>(
    alloc: Global,
    files: &mut F,
    file: &str,
) -> Result<Explorable, Status>
    ensures gives { GivesProgram (files_only (still_told (F.contents files.old) (F.contents files.new))) file.now result }
    ensures only { OnlyReadsFiles F.contents F.faults result files.old files.new }
{
    match fetch(alloc, files, file, LIMIT) {
        Ok(text) => program_of_text(alloc, &text),
        Err(status) => Err(status),
    }
}
