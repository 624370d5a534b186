//! `compile FILE OUT`.

ghost use Rattle.std.specs.Prelude.{◌≡◌, ◌≤◌};
ghost use Rattle.edi_told.specs.Faults.{CountRose};
ghost use Rattle.edi_words.specs.Words.{compile};
ghost use Rattle.edi_statuses.specs.OnFiles.{IsOfFiles, MeansOnFiles};

use crate::text::coding::code_file;
use edi_host::{Files, KeepEnd};
use edi_statuses::Status;
use std::alloc::Global;

/// Fetches the text of the file, compiles it, and keeps its code under the other name. It touches the files alone: whatever the
/// other objects are, which stay as they are, this is the command's status, and nothing was shown before its line.
pub fn compile_file<F: Files>(alloc: Global, files: &mut F, file: &str, out: &str) -> Status
    ensures means { MeansOnFiles (compile file.now out.now) result (F.contents files.old) (F.contents files.new) }
    ensures kind { IsOfFiles result }
    ensures later { F.faults files.old ≤ F.faults files.new }
    ensures cause { result ≡ Status.FileFault → CountRose (F.faults files.old) (F.faults files.new) }
{
    let bytes = match code_file(alloc, files, file) {
        Ok(bytes) => bytes,
        Err(status) => return status,
    };
    match files.keep(alloc, out, &bytes) {
        KeepEnd::Ok => Status::Ok,
        KeepEnd::Failed => Status::FileFault,
        KeepEnd::NoMemory => Status::NoMemory,
    }
}
