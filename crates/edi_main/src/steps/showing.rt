//! Showing what a command has made of a file.

ghost use Rattle.std.specs.Prelude.{◌≤◌};
ghost use Rattle.edi_main.specs.steps.OnTerminal.{ShowsMade};

use edi_host::Sink;
use edi_statuses::{Ended, Status, show_bytes};

/// Shows the bytes that were made, or says why the command has stopped before it showed anything.
pub fn show_made<T: Sink>(terminal: &mut T, made: Result<Vec<u8>, Status>) -> Ended
    ensures shows { ShowsMade (λ bytes. bytes.items) made result (T.taken terminal.old) (T.taken terminal.new)
        (T.faults terminal.old) (T.faults terminal.new) }
    ensures later { T.faults terminal.old ≤ T.faults terminal.new }
{
    match made {
        Ok(bytes) => show_bytes(terminal, &bytes, false),
        Err(status) => Ended { status, due: false },
    }
}
