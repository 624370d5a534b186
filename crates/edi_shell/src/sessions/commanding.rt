//! A command line, from its prompt on, and the end of a session.

ghost use Rattle.std.specs.Prelude.{◌≡◌, ◌≤◌, ◌<◌, ◌+◌, ◌-◌, ◌*◌, ◌^◌, ℕ, IfOk, length};
ghost use Rattle.edi_shell.specs.sessions.Prelude.{most_bytes, Shell, IsLeftSo, Stays, LinesCome, Awaits, ends_by_fault, SessionEnds, SessionStops};
ghost use Rattle.edi_calls.specs.Choice as choice;
ghost use Rattle.edi_session.specs.Session.{Goes};

use crate::commands::{LIMIT, LineBytes, take_command};
use crate::sessions::acting::act;
use edi_kernel::Kernel;
use edi_session::SessionEnd;
use edi_shell_io::calls::{OrEnd, ShellCalls};
use edi_shell_io::words::command_line;
use edi_trace::Choices;
use std::alloc::Global;

/// Shows the prompt, takes a command line and does what it says.
pub(crate) fn command<C: ShellCalls>(
    alloc: Global,
    calls: &mut C,
    taken: &mut u32,
    kernel: &mut Kernel,
    room: &mut [u8],
    bound: u64,
    choices: &mut Choices,
) -> OrEnd<()>
    requires ready { C.ready calls.old }
    requires limit { taken.old ≤ LIMIT }
    requires room { most_bytes ≤ length room.old }
    ensures exact { choices.old.drawn + (LIMIT - taken.old) * bound < 2 ^ 64 → (s : Shell) → Awaits C.at s taken.old choices.old.drawn calls.old
        → C.tells calls.new →
        LinesCome bound choices.old.source C.at C.stands (Goes bound choices.old.source s) result s taken.new choices.new.drawn calls.new }
    ensures source { choices.new.source ≡ choices.old.source }
    ensures drawn { choices.new.drawn ≤ choices.old.drawn + bound }
    ensures most { choices.new.drawn ≤ choices.old.drawn + (LIMIT - taken.old) * bound }
    ensures left { IsLeftSo C.ready C.failed result calls.new }
    ensures limit { taken.new ≤ LIMIT }
    ensures more { IfOk result (λ x. taken.old < taken.new) }
    ensures lasts { C.lasts calls.old calls.new }
{
    calls.fresh_line()?;
    calls.show(b"> ")?;
    let mut line = LineBytes::new();
    take_command(calls, taken, &mut line)?;
    let said = command_line(line.as_slice());
    act(alloc, calls, taken, said, kernel, room, bound, choices)
}

/// Whether a session has ended by the fault of an object.
pub fn ends_by_fault(end: SessionEnd) -> bool
    ensures exact { result ≡ ends_by_fault end }
{
    match end {
        SessionEnd::Halted => false,
        SessionEnd::InputEnd => false,
        SessionEnd::Limit => false,
        _ => true,
    }
}

/// Ends the line that was begun on the terminal, unless the session has ended by a fault.
pub(crate) fn close<C: ShellCalls>(calls: &mut C, end: SessionEnd) -> SessionEnd
    requires left { Stays C.ready C.failed end calls.old }
    ensures exact { (bound : ℕ) (choices : choice.Choices) (start : Shell) (drawn : ℕ)
        → SessionStops bound choices C.at C.stands start end drawn calls.old → C.tells calls.new →
        SessionEnds bound choices C.at C.stands start result drawn calls.new }
    ensures left { Stays C.ready C.failed result calls.new }
    ensures lasts { C.lasts calls.old calls.new }
{
    if ends_by_fault(end) {
        return end;
    }
    match calls.fresh_line() {
        Ok(()) => end,
        Err(fault) => fault,
    }
}
