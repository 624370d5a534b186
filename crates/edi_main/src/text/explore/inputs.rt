//! The input with which a program is explored.

ghost use Rattle.std.specs.Prelude.{◌≡◌, ◌≤◌, IfErr, false};
ghost use Rattle.edi_told.specs.Faults.{CountRose};
ghost use Rattle.edi_main.specs.text.ExploreCommand.{TakesInput, input_status};

use edi_host::Source;
use edi_runs::explore::{InputFault, read_input};
use edi_statuses::Status;
use std::alloc::Global;

/// The status of a command whose input was not read.
fn input_status(fault: InputFault) -> Status
    ensures exact { result ≡ input_status fault }
{
    match fault {
        InputFault::TooLong => Status::InputLimit,
        InputFault::Failed => Status::InputFault,
        InputFault::NoMemory => Status::NoMemory,
    }
}

/// All that is left of the input, where the program asks for it; or why the command stops there. Else the input is left alone.
pub(crate) fn input_of<S: Source>(
    alloc: Global,
    input: &mut S,
    asks: bool,
) -> Result<Vec<u8>, Status>
    ensures takes { TakesInput asks result (S.left input.old) (S.left input.new) }
    ensures later { S.faults input.old ≤ S.faults input.new }
    ensures cause { IfErr result (λ s. s ≡ Status.InputFault → CountRose (S.faults input.old) (S.faults input.new)) }
{
    if !asks {
        return Ok(Vec::new(alloc));
    }
    match read_input(alloc, input) {
        Ok(bytes) => Ok(bytes),
        Err(fault) => Err(input_status(fault)),
    }
}
