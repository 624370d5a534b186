//! The lines of an editing.

ghost use Rattle.std.specs.Prelude.{◌≡◌, ◌≤◌, ◌<◌, ℕ, IfOk, vec_capacity};
ghost use Rattle.edi_shell.specs.edit.Prelude.{Choices, EditsBy, Shell, IsLeftSo, At, LinesCome, Edits};
ghost use Rattle.edi_session.specs.Session.{Goes};
ghost use Rattle.edi_session.specs.Shell.{editing};

use crate::commands::LIMIT;
use crate::edit::changes::{delete_line, put_line, undo_change};
use crate::edit::looking::{look_at_line, refuse_line};
use crate::edit::taking::{MOST_KEPT, take_line};
use crate::edit::writing::write_text;
use edi_edit::Text;
use edi_image::Title;
use edi_session::EditLine;
use edi_shell_io::calls::{OrEnd, ShellCalls};
use edi_shell_io::words::edit_line;
use std::alloc::Global;

// Does what a line says, and tells whether the editing is left. A further line is taken into `line`.
fn edit_by<C: ShellCalls>(
    alloc: Global,
    calls: &mut C,
    taken: &mut u32,
    f: &Title,
    text: &mut Text,
    line: &mut Vec<u8>,
    command: EditLine,
) -> OrEnd<bool>
    requires ready { C.ready calls.old }
    requires limit { taken.old ≤ LIMIT }
    requires room { MOST_KEPT ≤ vec_capacity line.old }
    ensures exact { (s : Shell) → s.taken ≡ taken.old → At C.at calls.old s → C.tells calls.new →
        Edits C.at C.stands result (EditsBy command f.now text.old s) s taken.new f.now text.new calls.new }
    ensures room { MOST_KEPT ≤ vec_capacity line.new }
    ensures left { IsLeftSo C.ready C.failed result calls.new }
    ensures limit { taken.new ≤ LIMIT }
    ensures later { taken.old ≤ taken.new }
    ensures lasts { C.lasts calls.old calls.new }
{
    match command {
        EditLine::Insert(n) => put_line(alloc, calls, taken, text, line, false, n),
        EditLine::Replace(n) => put_line(alloc, calls, taken, text, line, true, n),
        EditLine::Delete(n) => delete_line(alloc, calls, text, n),
        EditLine::Look(n) => look_at_line(calls, text, n),
        EditLine::Undo => undo_change(alloc, calls, text),
        EditLine::Write => write_text(alloc, calls, f, text),
        EditLine::Quit => Ok(true),
        EditLine::Bad => refuse_line(calls),
    }
}

// Takes a line of the editing into `line` and does what it says, and tells whether the editing is left.
fn edit_next<C: ShellCalls>(
    alloc: Global,
    calls: &mut C,
    taken: &mut u32,
    f: &Title,
    text: &mut Text,
    line: &mut Vec<u8>,
) -> OrEnd<bool>
    requires ready { C.ready calls.old }
    requires limit { taken.old ≤ LIMIT }
    requires room { MOST_KEPT ≤ vec_capacity line.old }
    ensures exact { (bound : ℕ) (choices : Choices) (s : Shell) → s.taken ≡ taken.old → s.mode ≡ editing f.now text.old → At C.at calls.old s →
        C.tells calls.new → Edits C.at C.stands result (Goes bound choices s) s taken.new f.now text.new calls.new }
    ensures room { MOST_KEPT ≤ vec_capacity line.new }
    ensures left { IsLeftSo C.ready C.failed result calls.new }
    ensures limit { taken.new ≤ LIMIT }
    ensures later { taken.old ≤ taken.new }
    ensures more { IfOk result (λ left. taken.old < taken.new) }
    ensures lasts { C.lasts calls.old calls.new }
{
    take_line(calls, taken, line)?;
    let command = edit_line(line.as_slice());
    edit_by(alloc, calls, taken, f, text, line, command)
}

/// The lines of an editing, until it is left or the session ends. Each is taken into `line`.
pub(crate) fn edit_lines<C: ShellCalls>(
    alloc: Global,
    calls: &mut C,
    taken: &mut u32,
    f: &Title,
    text: &mut Text,
    line: &mut Vec<u8>,
) -> OrEnd<()>
    requires ready { C.ready calls.old }
    requires limit { taken.old ≤ LIMIT }
    requires room { MOST_KEPT ≤ vec_capacity line.old }
    ensures exact { (bound : ℕ) (choices : Choices) (s : Shell) → s.taken ≡ taken.old → s.mode ≡ editing f.now text.old → At C.at calls.old s →
        C.tells calls.new → LinesCome bound choices C.at C.stands (Goes bound choices s) result s taken.new s.drawn calls.new }
    ensures left { IsLeftSo C.ready C.failed result calls.new }
    ensures limit { taken.new ≤ LIMIT }
    ensures later { taken.old ≤ taken.new }
    ensures lasts { C.lasts calls.old calls.new }
{
    'lines: loop {
        if edit_next(alloc, calls, taken, f, text, line)? {
            return Ok(());
        }
    }
}
