//! A session on a system.

ghost use Rattle.std.specs.Prelude.{◌≡◌, ◌≤◌, ◌<◌, ◌+◌, ◌*◌, ◌^◌, ℕ, length};
ghost use Rattle.edi_shell.specs.sessions.Prelude.{WhereTold, most_bytes, session_on, failed_by, ends_by_fault, SessionLeaves};
ghost use Rattle.edi_system.specs.AsCalls.{IsDueSince, KeepsDue};
ghost use Rattle.edi_system.specs.Ends.{Keeps};
ghost use Rattle.edi_system.specs.Parts.{KeepsTold};
ghost use Rattle.edi_system.specs.State.{drive_in, failed_in, state_of, IsReady};

use crate::commands::LIMIT;
use crate::sessions::holding::hold;
use edi_host::{Drive, Sink, Source};
use edi_kernel::Kernel;
use edi_session::SessionEnd;
use edi_system::System;
use edi_trace::Choices;
use std::alloc::Global;

/// Holds a session on a system of which no object has failed, and tells how it ended. Programs run on the kernel, each with the
/// bound anew; the choices go on from one to the next. `room` has room for the bytes of a file.
pub fn session<D: Drive, S: Source, T: Sink, P: Sink>(
    alloc: Global,
    system: &mut System<'_, '_, '_, '_, '_, '_, D, S, T, P>,
    kernel: &mut Kernel,
    room: &mut [u8],
    bound: u64,
    choices: &mut Choices,
) -> SessionEnd
    requires ready { IsReady D.contents D.count system.old }
    requires room { most_bytes ≤ length room.old }
    // Where the objects tell what they hold, they hold afterwards what a session of the definition leaves; or what a state has
    // through which it comes and at which the object that has failed may fail: the terminal only where the session shows a byte, the
    // printer only where it prints one. So many bytes had been shown before the session.
    ensures exact { choices.old.drawn + LIMIT * bound < 2 ^ 64 → (shown_before : ℕ) → IsDueSince T.taken system.old shown_before
        → WhereTold (state_of D.contents S.left T.taken P.taken system.old) (state_of D.contents S.left T.taken P.taken system.new)
        (λ before now. SessionLeaves bound choices.old.source (session_on before choices.old.drawn shown_before) result choices.new.drawn now) }
    // The object that has failed, if one has.
    ensures failed { failed_in system.new ≡ failed_by result }
    ensures due { KeepsDue T.taken system.old system.new }
    ensures told { KeepsTold D.contents S.left T.taken P.taken system.old system.new }
    // The drive has as many blocks as before.
    ensures size { D.count (drive_in system.new) ≡ D.count (drive_in system.old) }
    ensures keeps { Keeps D.faults S.faults T.faults P.faults (ends_by_fault result) system.old system.new }
    ensures source { choices.new.source ≡ choices.old.source }
    ensures drawn { choices.new.drawn ≤ choices.old.drawn + LIMIT * bound }
{
    hold(alloc, system, kernel, room, bound, choices)
}
