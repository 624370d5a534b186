//! Reading the choices of a run.

ghost use Rattle.std.specs.Prelude.{◌≡◌, false};
ghost use Rattle.edi_words.specs.View.{choices_from};
ghost use Rattle.edi_statuses.specs.EachObject.{is_in_file};
ghost use Rattle.edi_statuses.specs.Outside.{still_told};
ghost use Rattle.edi_main.specs.steps.OnFiles.{ChoicesStep, FileChoices, OnlyReadsFiles, files_only};

use crate::steps::fetching::fetch;
use edi_host::Files;
use edi_statuses::Status;
use edi_trace::{ChoiceFault, Choices, read_choices};
use edi_words::ChoicesFrom;
use std::alloc::Global;

/// As many bytes as decide how a file of choices is read.
const LIMIT: usize = 262_145;

/// The choices of a file, or the first bad line.
fn choices_of(alloc: Global, bytes: &[u8]) -> Result<Choices, Status>
    ensures exact { FileChoices bytes.now result }
{
    let values = match read_choices(alloc, bytes) {
        Ok(values) => values,
        Err(ChoiceFault::Line(line)) => return Err(Status::BadChoices(line)),
        Err(ChoiceFault::NoMemory) => return Err(Status::NoMemory),
    };
    let choices = Choices::list(alloc, &values)?;
    Ok(choices)
}

/// The choices of a run, none of them drawn, or why the command stops there.
pub fn read_from<F: Files>(
    alloc: Global,
    files: &mut F,
    from: ChoicesFrom<'_>,
) -> Result<Choices, Status>
    ensures reads { ChoicesStep (files_only (still_told (F.contents files.old) (F.contents files.new))) (choices_from from.entry) result }
    ensures only { OnlyReadsFiles F.contents F.faults result files.old files.new }
    // Where no file has the choices, the files are left alone.
    ensures untouched { is_in_file (choices_from from.entry) ≡ false → files.new ≡ files.old }
{
    let made = match from {
        ChoicesFrom::File(name) => {
            let bytes = fetch(alloc, files, name, LIMIT)?;
            return choices_of(alloc, &bytes);
        }
        ChoicesFrom::Nowhere => Choices::list(alloc, &[]),
        ChoicesFrom::Seed(seed) => Choices::seeded(alloc, seed),
    };
    let choices = made?;
    Ok(choices)
}
