//! The first two steps of a command that runs or walks through a program.

ghost use Rattle.edi_words.specs.View.{choices_from};
ghost use Rattle.edi_statuses.specs.Outside.{still_told};
ghost use Rattle.edi_main.specs.steps.OnFiles.{OnlyReadsFiles, files_only};
ghost use Rattle.edi_main.specs.steps.Opening.{OpenStep};

use crate::steps::fetching::fetch;
use crate::steps::reading::read_from;
use edi_host::Files;
use edi_statuses::Status;
use edi_trace::Choices;
use edi_words::ChoicesFrom;
use std::alloc::Global;

/// What a command has read before it looks at its program.
#[derive(Drop)]
pub struct Opened {
    /// The first bytes of the file of the program.
    pub bytes: Vec<u8>,
    /// The choices, none of them drawn.
    pub choices: Choices,
}

/// Fetches the first `limit` bytes of the file of this name, and then reads the choices, or says why the command stops there.
pub fn open_program<F: Files>(
    alloc: Global,
    files: &mut F,
    name: &str,
    limit: usize,
    from: ChoicesFrom<'_>,
) -> Result<Opened, Status>
    ensures opened { OpenStep (files_only (still_told (F.contents files.old) (F.contents files.new))) name.now limit (choices_from from.entry) result }
    ensures only { OnlyReadsFiles F.contents F.faults result files.old files.new }
{
    let bytes = match fetch(alloc, files, name, limit) {
        Ok(bytes) => bytes,
        Err(status) => return Err(status),
    };
    let choices = match read_from(alloc, files, from) {
        Ok(choices) => choices,
        Err(status) => return Err(status),
    };
    Ok(Opened { bytes, choices })
}
