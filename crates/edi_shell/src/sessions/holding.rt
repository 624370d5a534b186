//! A session.

ghost use Rattle.std.specs.Prelude.{◌≡◌, ◌≤◌, ◌<◌, ◌+◌, ◌*◌, ◌^◌, length};
ghost use Rattle.edi_shell.specs.sessions.Prelude.{most_bytes, Shell, Stays, Awaits, SessionEnds};

use crate::commands::LIMIT;
use crate::sessions::commanding::{close, command};
use edi_kernel::Kernel;
use edi_session::SessionEnd;
use edi_shell_io::calls::ShellCalls;
use edi_trace::Choices;
use std::alloc::Global;

/// Holds a session, and tells how it ended. Programs run on the kernel, each with the bound anew; the choices go on from one to the
/// next. `room` has room for the bytes of a file.
pub fn hold<C: ShellCalls>(
    alloc: Global,
    calls: &mut C,
    kernel: &mut Kernel,
    room: &mut [u8],
    bound: u64,
    choices: &mut Choices,
) -> SessionEnd
    requires ready { C.ready calls.old }
    requires room { most_bytes ≤ length room.old }
    // The session is one of the definition, or stands at one moment of it, at which the object that has failed may fail.
    ensures exact { choices.old.drawn + LIMIT * bound < 2 ^ 64 → (start : Shell) → Awaits C.at start 0 choices.old.drawn calls.old → C.tells calls.new →
        SessionEnds bound choices.old.source C.at C.stands start result choices.new.drawn calls.new }
    // After the first three ends nothing has failed, after another this object has.
    ensures left { Stays C.ready C.failed result calls.new }
    ensures source { choices.new.source ≡ choices.old.source }
    ensures drawn { choices.new.drawn ≤ choices.old.drawn + LIMIT * bound }
    ensures lasts { C.lasts calls.old calls.new }
{
    let mut taken: u32 = 0;
    'lines: loop {
        match command(alloc, calls, &mut taken, kernel, room, bound, choices) {
            Ok(()) => {}
            Err(end) => return close(calls, end),
        }
    }
}
