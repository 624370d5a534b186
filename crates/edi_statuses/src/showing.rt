//! Showing bytes, and the line of a status behind them.

ghost use Rattle.std.specs.Prelude.{◌≡◌, ◌≢◌, ◌⊎◌, ◌≤◌, [], None};
ghost use Rattle.edi_told.specs.Faults.{CountRose};
ghost use Rattle.edi_statuses.specs.Lines.{closing_line as line_for, text_of};
ghost use Rattle.edi_statuses.specs.Showing.{ClosesWith, due_behind, ShowsBytes};

use crate::ended::Ended;
use crate::lines::closing_line;
use crate::status::Status;
use edi_host::{PutEnd, Sink};

/// Shows the line of a status on the terminal, behind a line feed where one is due: where the last byte that was shown in this
/// call is none. Answers the status, or that the output has failed where the line could not be shown. A status without a line
/// leaves the terminal alone. Takes no memory.
pub fn show_status<T: Sink>(terminal: &mut T, status: Status, due: bool) -> Status
    ensures exact { ClosesWith status result (line_for due status) (T.taken terminal.old) (T.taken terminal.new) }
    ensures silent { text_of status ≡ None → (result ≡ status) × (terminal.new ≡ terminal.old) }
    ensures cause { result ≢ status → CountRose (T.faults terminal.old) (T.faults terminal.new) }
    ensures later { T.faults terminal.old ≤ T.faults terminal.new }
{
    let line = closing_line(status, due);
    if line.is_empty() {
        return status;
    }
    match terminal.put(line.as_str().as_bytes()).end {
        PutEnd::Ok => status,
        PutEnd::Failed => Status::OutputFault,
    }
}

/// Whether a line feed is due behind bytes, where it was due before them or not.
fn is_due_after(due: bool, bytes: &[u8]) -> bool
    ensures exact { result ≡ due_behind due bytes.now }
{
    match bytes.last() {
        Some(byte) => *byte != b'\n',
        None => due,
    }
}

/// Shows bytes on the terminal. Answers `Ok`, or that the output has failed where not all of them could be shown; and whether a line
/// feed is due behind those that were shown, where it was due before them or not. Where there are none, it asks the terminal nothing, which could
/// fail. Takes no memory.
pub fn show_bytes<T: Sink>(terminal: &mut T, bytes: &[u8], due: bool) -> Ended
    ensures shows { ShowsBytes bytes.now due result (T.taken terminal.old) (T.taken terminal.new) }
    ensures nothing { bytes.now ≡ [] → result.status ≡ Status.Ok }
    ensures cause { result.status ≡ Status.OutputFault → CountRose (T.faults terminal.old) (T.faults terminal.new) }
    ensures later { T.faults terminal.old ≤ T.faults terminal.new }
{
    if bytes.is_empty() {
        return Ended {
            status: Status::Ok,
            due,
        };
    }
    let put = terminal.put(bytes);
    let (front, _) = bytes.split_at(put.taken);
    let due = is_due_after(due, front);
    match put.end {
        PutEnd::Ok => Ended {
            status: Status::Ok,
            due,
        },
        PutEnd::Failed => Ended {
            status: Status::OutputFault,
            due,
        },
    }
}
