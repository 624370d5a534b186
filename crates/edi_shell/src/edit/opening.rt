//! The command `edit f`.

ghost use Rattle.std.specs.Prelude.{◌≡◌, ◌≤◌, ℕ, IfOk, IfSome, length};
ghost use Rattle.edi_shell.specs.edit.Prelude.{Choices, Shell, IsLeftSo, At, IsLeft, LinesCome, OpensText};
ghost use Rattle.edi_calls.specs.State.{most_bytes};
ghost use Rattle.edi_edit.specs.Lines.{lines_of};
ghost use Rattle.edi_session.specs.Files.{file_in};
ghost use Rattle.edi_session.specs.Session.{BeginsEditing, EditsFile};
ghost use Rattle.edi_session.specs.Shell.{commanding};

use crate::commands::LIMIT;
use crate::edit::editing::edit_lines;
use crate::edit::taking::MOST_KEPT;
use edi_calls::FileKind;
use edi_edit::Text;
use edi_image::Title;
use edi_shell_io::calls::{OrEnd, ShellCalls};
use edi_shell_io::lines::about;
use std::alloc::Global;

// Reads the text of the file `f` into `room`, and gives the number of its bytes, 0 where there is no such file; where the file is
// not a text, shows that.
fn open_text<C: ShellCalls>(calls: &mut C, f: &Title, room: &mut [u8]) -> OrEnd<Option<usize>>
    requires ready { C.ready calls.old }
    requires room { most_bytes ≤ length room.old }
    ensures exact { (s : Shell) → At C.at calls.old s → C.tells calls.new →
        OpensText C.at C.stands result f.now (file_in s f.now) room.new s calls.new }
    ensures within { IfOk result (λ read. IfSome read (λ n. n ≤ most_bytes)) }
    ensures left { IsLeft C.ready C.failed result calls.new }
    ensures lasts { C.lasts calls.old calls.new }
{
    let Some(entry) = calls.find(f) else {
        return Ok(Some(0));
    };
    match entry.kind {
        FileKind::Text => calls.read_into(f, room),
        FileKind::Code => {
            calls.show(about("not text", f).as_slice())?;
            Ok(None)
        }
    }
}

// The editing of these bytes as the text of the file `f`.
fn edit_bytes<C: ShellCalls>(
    alloc: Global,
    calls: &mut C,
    taken: &mut u32,
    f: &Title,
    bytes: &[u8],
) -> OrEnd<()>
    requires ready { C.ready calls.old }
    requires limit { taken.old ≤ LIMIT }
    requires short { length bytes.now ≤ most_bytes }
    ensures exact { (bound : ℕ) (choices : Choices) (s : Shell) → s.taken ≡ taken.old → s.mode ≡ commanding → At C.at calls.old s → C.tells calls.new →
        LinesCome bound choices C.at C.stands (BeginsEditing f.now (lines_of bytes.now) s) result s taken.new s.drawn calls.new }
    ensures left { IsLeftSo C.ready C.failed result calls.new }
    ensures limit { taken.new ≤ LIMIT }
    ensures later { taken.old ≤ taken.new }
    ensures lasts { C.lasts calls.old calls.new }
{
    let Ok(mut line) = Vec::with_capacity(alloc, MOST_KEPT) else {
        return calls.show(b"no memory\n");
    };
    let Ok(mut text) = Text::new(alloc, bytes) else {
        return calls.show(b"no memory\n");
    };
    edit_lines(alloc, calls, taken, f, &mut text, &mut line)
}

/// `edit f`, with the lines of the editing, until it is left or the session ends. `taken` counts the bytes that the shell has taken.
///
/// # Errors
///
/// `InputEnd` where the input ended in the editing, `Limit` where the shell had taken 4,194,304 bytes and asked for another, or the
/// fault of an object.
pub fn edit_file<C: ShellCalls>(
    alloc: Global,
    calls: &mut C,
    taken: &mut u32,
    f: &Title,
    room: &mut [u8],
) -> OrEnd<()>
    requires ready { C.ready calls.old }
    requires limit { taken.old ≤ LIMIT }
    requires room { most_bytes ≤ length room.old }
    ensures exact { (bound : ℕ) (choices : Choices) (s : Shell) → s.taken ≡ taken.old → s.mode ≡ commanding → At C.at calls.old s → C.tells calls.new →
        LinesCome bound choices C.at C.stands (EditsFile f.now (file_in s f.now) s) result s taken.new s.drawn calls.new }
    ensures left { IsLeftSo C.ready C.failed result calls.new }
    ensures limit { taken.new ≤ LIMIT }
    ensures later { taken.old ≤ taken.new }
    ensures lasts { C.lasts calls.old calls.new }
{
    match open_text(calls, f, room)? {
        Some(n) => {
            let (bytes, _) = room.split_at(n);
            edit_bytes(alloc, calls, taken, f, bytes)
        }
        None => Ok(()),
    }
}
