//! Lines that change nothing.

ghost use Rattle.std.specs.Prelude.{◌≡◌, ◌++◌, ◌∷◌, [], ℕ, List};
ghost use Rattle.edi_shell.specs.edit.Prelude.{Editing, EditsBy, Shell, At, IsLeft, Edits, SaysOn};
ghost use Rattle.edi_session.specs.declared.line.EditLine.TheVariants as edit;

use edi_edit::Text;
use edi_shell_io::calls::{OrEnd, ShellCalls};
use edi_shell_io::lines::with_number;

/// Shows these bytes, and tells that the editing is not left.
pub(crate) fn say_on<C: ShellCalls>(calls: &mut C, bytes: &[u8]) -> OrEnd<bool>
    requires ready { C.ready calls.old }
    ensures exact { (s : Shell) → At C.at calls.old s → C.tells calls.new → SaysOn C.at C.stands result bytes.now s calls.new }
    ensures left { IsLeft C.ready C.failed result calls.new }
    ensures lasts { C.lasts calls.old calls.new }
{
    match calls.show(bytes) {
        Ok(()) => Ok(false),
        Err(fault) => Err(fault),
    }
}

// Shows a line of the text, and its line feed.
fn show_line<C: ShellCalls>(calls: &mut C, line: &[u8]) -> OrEnd<bool>
    requires ready { C.ready calls.old }
    ensures exact { (s : Shell) → At C.at calls.old s → C.tells calls.new → SaysOn C.at C.stands result (line.now ++ 10 ∷ []) s calls.new }
    ensures left { IsLeft C.ready C.failed result calls.new }
    ensures lasts { C.lasts calls.old calls.new }
{
    calls.show(line)?;
    say_on(calls, b"\n")
}

/// `l N`: shows line `n`, or that there is none.
pub(crate) fn look_at_line<C: ShellCalls>(calls: &mut C, text: &Text, n: u32) -> OrEnd<bool>
    requires ready { C.ready calls.old }
    ensures exact { (s : Shell) (title : List ℕ) → At C.at calls.old s → C.tells calls.new →
        Edits C.at C.stands result (EditsBy (edit.Look n) title text.now s) s s.taken title text.now calls.new }
    ensures left { IsLeft C.ready C.failed result calls.new }
    ensures lasts { C.lasts calls.old calls.new }
{
    match text.line(n) {
        Some(line) => show_line(calls, line),
        None => say_on(calls, with_number("no line", n).as_slice()),
    }
}

/// Shows that a line is none of an editing.
pub(crate) fn refuse_line<C: ShellCalls>(calls: &mut C) -> OrEnd<bool>
    requires ready { C.ready calls.old }
    ensures exact { (s : Shell) (title : List ℕ) (e : Editing) → At C.at calls.old s → C.tells calls.new →
        Edits C.at C.stands result (EditsBy edit.Bad title e s) s s.taken title e calls.new }
    ensures left { IsLeft C.ready C.failed result calls.new }
    ensures lasts { C.lasts calls.old calls.new }
{
    say_on(calls, b"bad edit\n")
}
