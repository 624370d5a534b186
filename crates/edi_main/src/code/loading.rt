//! From a file with a code to its listing.

ghost use Rattle.edi_statuses.specs.Outside.{still_told};
ghost use Rattle.edi_main.specs.steps.OnFiles.{OnlyReadsFiles, files_only};
ghost use Rattle.edi_main.specs.code.CodeCommands.{ListsBytes, ListsFile};

use crate::steps::{fetch, load_code};
use edi_host::Files;
use edi_statuses::Status;
use edi_utils::listing;
use std::alloc::Global;

/// As many bytes as decide what a code file is.
const LIMIT: usize = 8_388_641;

/// The listing of the code of a code file, or why the command stops there.
fn listing_of_bytes(alloc: Global, bytes: &[u8]) -> Result<Vec<u8>, Status>
    ensures lists { ListsBytes (λ text. text.items) bytes.now result }
{
    let code = match load_code(alloc, bytes) {
        Ok(code) => code,
        Err(status) => return Err(status),
    };
    let text = listing(alloc, &code)?;
    Ok(text)
}

/// The listing of the code in a file, or why the command stops there.
pub(crate) fn listing_of_file<F: Files>(
    alloc: Global,
    files: &mut F,
    file: &str,
) -> Result<Vec<u8>, Status>
    ensures lists { ListsFile (λ text. text.items) (files_only (still_told (F.contents files.old) (F.contents files.new))) file.now result }
    ensures only { OnlyReadsFiles F.contents F.faults result files.old files.new }
{
    match fetch(alloc, files, file, LIMIT) {
        Ok(bytes) => listing_of_bytes(alloc, &bytes),
        Err(status) => Err(status),
    }
}
