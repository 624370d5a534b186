//! The input of a program that is explored.

ghost use Rattle.std.specs.Prelude.{◌≡◌, ◌≤◌, length, Err, IfOk};
ghost use Rattle.edi_told.specs.Faults.{CountRose};
ghost use Rattle.edi_told.specs.Told.{WhereTold};
ghost use Rattle.edi_unit.specs.View.{unit_of};
ghost use Rattle.edi_runs.specs.explore.Input as spec;
ghost use Rattle.edi_runs.specs.explore.Told.{Reads};

use edi_calls::call_number;
use edi_host::{Next, Source};
use edi_unit::Unit;
use std::alloc::Global;

/// The greatest number of bytes of an input.
pub const MOST_INPUT: usize = 65_536;

/// Why an input was not read.
#[derive(Clone, Copy, Debug, PartialEq, Eq, Drop)]
pub enum InputFault {
    /// It has more than `MOST_INPUT` bytes.
    TooLong,
    /// The source has failed.
    Failed,
    /// There was no memory for it.
    NoMemory,
}

/// Whether a program names `accept` as a parameter.
pub fn names_accept(unit: &Unit) -> bool
    ensures { result ≡ spec.names_accept (unit_of unit.now) }
{
    unit.calls.items().contains(&call_number::ACCEPT)
}

/// All the bytes that are left of a source, at most `MOST_INPUT`. Of more than that one more is taken. After a failure and where there was no memory
/// some of them may have been taken, and they are lost.
pub fn read_input<S: Source>(alloc: Global, source: &mut S) -> Result<Vec<u8>, InputFault>
    ensures few { IfOk result (λ bytes. length bytes.items ≤ spec.most_input) }
    ensures reads { WhereTold (S.left source.old) (S.left source.new) (Reads result) }
    ensures later { S.faults source.old ≤ S.faults source.new }
    ensures cause { result ≡ Err InputFault.Failed → CountRose (S.faults source.old) (S.faults source.new) }
{
    let mut bytes = Vec::new(alloc);
    for _count in 0..MOST_INPUT + 1 {
        match source.next() {
            Next::Byte(byte) => {
                if bytes.push(byte).is_err() {
                    return Err(InputFault::NoMemory);
                }
            }
            Next::End => return Ok(bytes),
            Next::Failed => return Err(InputFault::Failed),
        }
    }
    Err(InputFault::TooLong)
}
