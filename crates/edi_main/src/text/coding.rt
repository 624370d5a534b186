//! From a file with a text to the bytes of its code.

ghost use Rattle.edi_statuses.specs.Outside.{still_told};
ghost use Rattle.edi_main.specs.steps.OnFiles.{OnlyReadsFiles, files_only};
ghost use Rattle.edi_main.specs.text.TextCommands.{CodesFile, CodesText};

use crate::steps::fetch;
use edi_codefile::pack;
use edi_compile::{Refusal, compile};
use edi_host::Files;
use edi_statuses::Status;
use std::alloc::Global;

/// As many bytes as decide what a text is.
pub(crate) const LIMIT: usize = 262_145;

/// The bytes of the code of a text, or why the command stops there.
fn code_text(alloc: Global, text: &[u8]) -> Result<Vec<u8>, Status>
    ensures codes { CodesText (λ bytes. bytes.items) text.now result }
{
    let code = match compile(alloc, text) {
        Ok(code) => code,
        Err(Refusal::At { kind, line, .. }) => return Err(Status::Refused(kind, line)),
        Err(Refusal::NoMemory) => return Err(Status::NoMemory),
    };
    let bytes = pack(alloc, &code)?;
    Ok(bytes)
}

/// The bytes of the code of the text in a file, or why the command stops there.
pub fn code_file<F: Files>(alloc: Global, files: &mut F, file: &str) -> Result<Vec<u8>, Status>
    ensures codes { CodesFile (λ bytes. bytes.items) (files_only (still_told (F.contents files.old) (F.contents files.new))) file.now result }
    ensures only { OnlyReadsFiles F.contents F.faults result files.old files.new }
{
    match fetch(alloc, files, file, LIMIT) {
        Ok(text) => code_text(alloc, &text),
        Err(status) => Err(status),
    }
}
