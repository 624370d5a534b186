//! Changes of the text.

ghost use Rattle.std.specs.Prelude.{◌≡◌, ◌≤◌, ◌++◌, ◌∷◌, [], ℕ, List, Option, false, length, vec_capacity};
ghost use Rattle.edi_shell.specs.edit.Prelude.{Editing, EditsBy, Shell, IsLeftSo, At, IsLeft, Edits, puts};
ghost use Rattle.edi_edit.specs.Undoing.{EndsBy};
ghost use Rattle.edi_edit.specs.Lines.{has_feed};
ghost use Rattle.edi_edit.specs.declared.EditEnd.{EditEnd};
ghost use Rattle.edi_session.specs.Session.{ChangesLine, edit_refusal};
ghost use Rattle.edi_session.specs.declared.line.EditLine.TheVariants as edit;

use crate::commands::LIMIT;
use crate::edit::looking::say_on;
use crate::edit::taking::{MOST_KEPT, take_line};
use edi_edit::{EditEnd, Text};
use edi_shell_io::calls::{OrEnd, ShellCalls};
use edi_shell_io::lines::{Shown, plain, with_number};
use std::alloc::Global;

// Why line `n` is not changed.
fn edit_refusal(n: u32, why: EditEnd) -> Shown
    ensures exact { result.items ≡ edit_refusal n why ++ 10 ∷ [] }
{
    match why {
        EditEnd::NoLine => with_number("no line", n),
        EditEnd::Full(size) => with_number("text full", size),
        EditEnd::NoMemory => plain("no memory"),
    }
}

// Shows why line `n` was not changed, where it was not.
fn answer_change<C: ShellCalls>(calls: &mut C, n: u32, answer: Result<(), EditEnd>) -> OrEnd<bool>
    requires ready { C.ready calls.old }
    ensures exact { (s : Shell) (title : List ℕ) (cause : Option EditEnd) (before after now : Editing) → EndsBy answer cause after before now
        → At C.at calls.old s → C.tells calls.new →
        Edits C.at C.stands result (ChangesLine cause n title before after s) s s.taken title now calls.new }
    ensures left { IsLeft C.ready C.failed result calls.new }
    ensures lasts { C.lasts calls.old calls.new }
{
    match answer {
        Ok(()) => Ok(false),
        Err(why) => say_on(calls, edit_refusal(n, why).as_slice()),
    }
}

/// `i N`, or `r N` where a line is replaced: takes the next line into `line`, and puts it into the text or shows why not.
pub(crate) fn put_line<C: ShellCalls>(
    alloc: Global,
    calls: &mut C,
    taken: &mut u32,
    text: &mut Text,
    line: &mut Vec<u8>,
    replacing: bool,
    n: u32,
) -> OrEnd<bool>
    requires ready { C.ready calls.old }
    requires limit { taken.old ≤ LIMIT }
    requires room { MOST_KEPT ≤ vec_capacity line.old }
    ensures exact { (s : Shell) (title : List ℕ) → s.taken ≡ taken.old → At C.at calls.old s → C.tells calls.new →
        Edits C.at C.stands result (EditsBy (puts replacing n) title text.old s) s taken.new title text.new calls.new }
    ensures room { MOST_KEPT ≤ vec_capacity line.new }
    ensures left { IsLeftSo C.ready C.failed result calls.new }
    ensures limit { taken.new ≤ LIMIT }
    ensures later { taken.old ≤ taken.new }
    ensures lasts { C.lasts calls.old calls.new }
{
    take_line(calls, taken, line)?;
    if replacing {
        let replaced = text.replace(alloc, n, line.as_slice());
        return answer_change(calls, n, replaced);
    }
    let inserted = text.insert(alloc, n, line.as_slice());
    answer_change(calls, n, inserted)
}

/// `d N`: deletes line `n`, or shows why not.
pub(crate) fn delete_line<C: ShellCalls>(
    alloc: Global,
    calls: &mut C,
    text: &mut Text,
    n: u32,
) -> OrEnd<bool>
    requires ready { C.ready calls.old }
    ensures exact { (s : Shell) (title : List ℕ) → At C.at calls.old s → C.tells calls.new →
        Edits C.at C.stands result (EditsBy (edit.Delete n) title text.old s) s s.taken title text.new calls.new }
    ensures left { IsLeft C.ready C.failed result calls.new }
    ensures lasts { C.lasts calls.old calls.new }
{
    let deleted = text.delete(alloc, n);
    answer_change(calls, n, deleted)
}

/// `u`: takes the last change back, or shows why not.
pub(crate) fn undo_change<C: ShellCalls>(
    alloc: Global,
    calls: &mut C,
    text: &mut Text,
) -> OrEnd<bool>
    requires ready { C.ready calls.old }
    ensures exact { (s : Shell) (title : List ℕ) → At C.at calls.old s → C.tells calls.new →
        Edits C.at C.stands result (EditsBy edit.Undo title text.old s) s s.taken title text.new calls.new }
    ensures left { IsLeft C.ready C.failed result calls.new }
    ensures lasts { C.lasts calls.old calls.new }
{
    match text.undo(alloc) {
        Ok(true) => Ok(false),
        Ok(false) => say_on(calls, b"no undo\n"),
        Err(_) => say_on(calls, b"no memory\n"),
    }
}
