//! Loading the code of a code file.

ghost use Rattle.std.specs.Prelude.{◌≡◌};
ghost use Rattle.edi_main.specs.steps.Loaded.{load_status, LoadStep};

use edi_codefile::load;
use edi_statuses::Status;
use edi_target::{Code, CodeFault};
use std::alloc::Global;

/// The status of a command whose code file has this fault.
fn load_status(fault: CodeFault) -> Status
    ensures exact { result ≡ load_status fault }
{
    match fault {
        CodeFault::NoMemory => Status::NoMemory,
        broken => Status::BadCode(broken),
    }
}

/// The code of the bytes of a code file, or why the command stops there.
pub fn load_code(alloc: Global, bytes: &[u8]) -> Result<Code, Status>
    ensures loads { LoadStep bytes.now result }
{
    match load(alloc, bytes) {
        Ok(code) => Ok(code),
        Err(fault) => Err(load_status(fault)),
    }
}
