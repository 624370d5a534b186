//! What a command does.

ghost use Rattle.std.specs.Prelude.{◌≡◌, ◌≤◌, ◌<◌, ◌+◌, ◌^◌, length};
ghost use Rattle.edi_shell.specs.sessions.Prelude.{most_bytes, Shell, IsLeftSo, LinesCome, Awaits};
ghost use Rattle.edi_session.specs.Session.{ActsBy};
ghost use Rattle.edi_shell_io.specs.calls.Standing.{At, IsLeft, Leads};
ghost use Rattle.edi_shell.specs.sessions.Done.{done_by};

use crate::commands::{
    LIMIT, copy_file, delete_file, enter_file, execute_file, list_files, print_file, protect_file,
    rename_file, show_file,
};
use crate::compile::compile_file;
use crate::edit::edit_file;
use edi_kernel::Kernel;
use edi_session::{Line, SessionEnd};
use edi_shell_io::calls::{OrEnd, ShellCalls};
use edi_trace::Choices;
use std::alloc::Global;

// What a command does that takes no further line, makes no code and runs none; nothing for the others.
fn act_at_once<C: ShellCalls>(calls: &mut C, line: Line, room: &mut [u8]) -> OrEnd<()>
    requires ready { C.ready calls.old }
    requires room { most_bytes ≤ length room.old }
    ensures exact { (s : Shell) → At C.at calls.old s → C.tells calls.new → Leads C.at C.stands result (done_by line s) calls.new }
    ensures left { IsLeft C.ready C.failed result calls.new }
    ensures lasts { C.lasts calls.old calls.new }
{
    match line {
        Line::Bad => calls.show(b"bad command\n"),
        Line::Catalogue => list_files(calls),
        Line::Show(f) => show_file(calls, &f, room),
        Line::Print(f) => print_file(calls, &f, room),
        Line::Copy(f, g) => copy_file(calls, &f, &g, room),
        Line::Rename(f, g) => rename_file(calls, &f, &g),
        Line::Delete(f) => delete_file(calls, &f),
        Line::Protect(f) => protect_file(calls, &f, true),
        Line::Release(f) => protect_file(calls, &f, false),
        Line::Blank => Ok(()),
        Line::Enter(_) | Line::Compile(_, _) | Line::Edit(_) | Line::Halt | Line::Execute(_) => Ok(
            (),
        ),
    }
}

/// What a command does, with the further lines that it takes.
pub(crate) fn act<C: ShellCalls>(
    alloc: Global,
    calls: &mut C,
    taken: &mut u32,
    line: Line,
    kernel: &mut Kernel,
    room: &mut [u8],
    bound: u64,
    choices: &mut Choices,
) -> OrEnd<()>
    requires ready { C.ready calls.old }
    requires limit { taken.old ≤ LIMIT }
    requires room { most_bytes ≤ length room.old }
    ensures exact { choices.old.drawn + bound < 2 ^ 64 → (s : Shell) → Awaits C.at s taken.old choices.old.drawn calls.old → C.tells calls.new →
        LinesCome bound choices.old.source C.at C.stands (ActsBy bound choices.old.source line s) result s taken.new choices.new.drawn calls.new }
    ensures source { choices.new.source ≡ choices.old.source }
    ensures drawn { choices.new.drawn ≤ choices.old.drawn + bound }
    ensures left { IsLeftSo C.ready C.failed result calls.new }
    ensures limit { taken.new ≤ LIMIT }
    ensures later { taken.old ≤ taken.new }
    ensures lasts { C.lasts calls.old calls.new }
{
    match line {
        Line::Enter(f) => enter_file(calls, taken, &f, room),
        Line::Compile(f, g) => compile_file(alloc, calls, &f, &g),
        Line::Edit(f) => edit_file(alloc, calls, taken, &f, room),
        Line::Halt => Err(SessionEnd::Halted),
        Line::Execute(f) => execute_file(alloc, calls, &f, kernel, room, bound, choices),
        _ => act_at_once(calls, line, room),
    }
}
