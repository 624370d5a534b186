//! The list of the files.

ghost use Rattle.std.specs.Prelude.{◌≡◌};
ghost use Rattle.edi_calls.specs.State.{slot_at};
ghost use Rattle.edi_session.specs.Shell.{Shell, shown_by, state_in};
ghost use Rattle.edi_session.specs.Texts.{catalogue_text};
ghost use Rattle.edi_shell_io.specs.calls.Standing.{At, IsLeft, Leads};
ghost use Rattle.edi_shell.specs.commands.Files.{slot_line};

use crate::commands::saying::say;
use edi_shell_io::calls::{OrEnd, ShellCalls};
use edi_shell_io::lines::{entry_line, free_line};

/// The slots of a catalogue.
const SLOTS: usize = 256;

// The line of slot `i`, where it has a file.
fn list_slot<C: ShellCalls>(calls: &mut C, i: usize) -> OrEnd<()>
    requires ready { C.ready calls.old }
    ensures exact { (s : Shell) → At C.at calls.old s → C.tells calls.new → Leads C.at C.stands result (shown_by (slot_line (slot_at (state_in s).slots i)) s)
        calls.new }
    ensures left { IsLeft C.ready C.failed result calls.new }
    ensures lasts { C.lasts calls.old calls.new }
{
    match calls.slot(i) {
        Some(entry) => say(calls, &entry_line(&entry)),
        None => Ok(()),
    }
}

/// `list`
pub fn list_files<C: ShellCalls>(calls: &mut C) -> OrEnd<()>
    requires ready { C.ready calls.old }
    ensures exact { (s : Shell) → At C.at calls.old s → C.tells calls.new → Leads C.at C.stands result (shown_by (catalogue_text (state_in s)) s) calls.new }
    ensures left { IsLeft C.ready C.failed result calls.new }
    ensures lasts { C.lasts calls.old calls.new }
{
    let free = calls.free();
    for i in 0..SLOTS {
        list_slot(calls, i)?;
    }
    say(calls, &free_line(free))
}
