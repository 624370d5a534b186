//! What the commands make of the text of a program: its unit, and the code of that.

ghost use Rattle.edi_main.specs.run.FileSteps.{TextStep, UnitStep};

use edi_compile::{Refusal, front, translate};
use edi_statuses::Status;
use edi_target::Code;
use edi_unit::Unit;
use std::alloc::Global;

/// As many bytes as decide what a text is.
pub(crate) const LIMIT: usize = 262_145;

/// The unit of a text, or why the command stops there.
pub(crate) fn unit_of_text(alloc: Global, bytes: &[u8]) -> Result<Unit, Status>
    ensures reads { UnitStep bytes.now result }
{
    match front(alloc, bytes) {
        Ok(unit) => Ok(unit),
        Err(Refusal::At { kind, line, .. }) => Err(Status::Refused(kind, line)),
        Err(Refusal::NoMemory) => Err(Status::NoMemory),
    }
}

/// The code of a text, or why the command stops there.
pub(crate) fn code_of_text(alloc: Global, bytes: &[u8]) -> Result<Code, Status>
    ensures reads { TextStep bytes.now result }
{
    let unit = unit_of_text(alloc, bytes)?;
    let code = translate(alloc, &unit)?;
    Ok(code)
}
