//! Fetching a file.

ghost use Rattle.std.specs.Prelude.{◌≤◌, IfOk, vec_len};
ghost use Rattle.edi_statuses.specs.Outside.{still_told};
ghost use Rattle.edi_main.specs.steps.OnFiles.{FetchStep, OnlyReadsFiles, files_only};

use edi_host::{FetchEnd, Files};
use edi_statuses::Status;
use std::alloc::Global;

/// The first `limit` bytes of the file of this name, or why the command stops there: `Absent` exactly where there is none.
pub fn fetch<F: Files>(
    alloc: Global,
    files: &mut F,
    name: &str,
    limit: usize,
) -> Result<Vec<u8>, Status>
    ensures fetched { FetchStep (λ bytes. bytes.items) (files_only (still_told (F.contents files.old) (F.contents files.new)))
        name.now limit result }
    ensures bounded { IfOk result (λ bytes. vec_len bytes ≤ limit) }
    ensures only { OnlyReadsFiles F.contents F.faults result files.old files.new }
{
    let mut bytes = Vec::new(alloc);
    match files.fetch(alloc, name, limit, &mut bytes) {
        FetchEnd::Ok => Ok(bytes),
        FetchEnd::Absent => Err(Status::Absent),
        FetchEnd::Failed => Err(Status::FileFault),
        FetchEnd::NoMemory => Err(Status::NoMemory),
    }
}
