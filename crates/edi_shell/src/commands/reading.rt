//! Files that a command asks for.

ghost use Rattle.std.specs.Prelude.{◌≡◌, ◌≤◌, length, IfOk, IfSome, option_map};
ghost use Rattle.edi_calls.specs.State.{most_bytes};
ghost use Rattle.edi_session.specs.Files.{copies_to, file_in, with_file, with_text};
ghost use Rattle.edi_session.specs.Shell.{Shell, on_fresh_line, printed_by, shown_by};
ghost use Rattle.edi_shell_io.specs.calls.Standing.{At, IsLeft, Leads};
ghost use Rattle.edi_shell.specs.commands.Files.{Opens, Reads, wrong};

use crate::commands::files::store_file;
use crate::commands::saying::say;
use edi_calls::FileKind;
use edi_catalog::Entry;
use edi_image::Title;
use edi_shell_io::calls::{OrEnd, ShellCalls};
use edi_shell_io::lines::about;

// What is said of a file of another kind than the one that is asked for, if one is.
fn wrong(wanted: Option<FileKind>, kind: FileKind) -> Option<&'static str>
    ensures exact { option_map (λ text. text.now) result ≡ wrong wanted kind }
    ensures short { IfSome result (λ text. length text.now ≤ 16) }
{
    match (wanted, kind) {
        (Some(FileKind::Text), FileKind::Code) => Some("not text"),
        (Some(FileKind::Code), FileKind::Text) => Some("not code"),
        _ => None,
    }
}

/// The file of this title, of the kind that is wanted, if one is; where there is none, shows why.
pub fn open<C: ShellCalls>(
    calls: &mut C,
    f: &Title,
    wanted: Option<FileKind>,
) -> OrEnd<Option<Entry>>
    requires ready { C.ready calls.old }
    ensures exact { (s : Shell) → At C.at calls.old s → C.tells calls.new → Opens C.at C.stands result wanted (file_in s f.now) f.now s calls.new }
    ensures left { IsLeft C.ready C.failed result calls.new }
    ensures lasts { C.lasts calls.old calls.new }
{
    let Some(entry) = calls.find(f) else {
        say(calls, &about("no file", f))?;
        return Ok(None);
    };
    if let Some(text) = wrong(wanted, entry.kind) {
        say(calls, &about(text, f))?;
        return Ok(None);
    }
    Ok(Some(entry))
}

/// Reads the file of this title into `room`, and gives its kind and the number of its bytes; where there is none of the kind that
/// is wanted, shows why.
pub fn read_file<C: ShellCalls>(
    calls: &mut C,
    f: &Title,
    wanted: Option<FileKind>,
    room: &mut [u8],
) -> OrEnd<Option<(FileKind, usize)>>
    requires ready { C.ready calls.old }
    requires room { most_bytes ≤ length room.old }
    ensures exact { (s : Shell) → At C.at calls.old s → C.tells calls.new → Reads C.at C.stands result wanted (file_in s f.now) f.now room.new s calls.new }
    ensures within { IfOk result (λ read. IfSome read (λ r. r.1 ≤ most_bytes)) }
    ensures left { IsLeft C.ready C.failed result calls.new }
    ensures lasts { C.lasts calls.old calls.new }
{
    let Some(entry) = open(calls, f, wanted)? else {
        return Ok(None);
    };
    let Some(n) = calls.read_into(f, room)? else {
        return Ok(None);
    };
    Ok(Some((entry.kind, n)))
}

/// `type f`
pub fn show_file<C: ShellCalls>(calls: &mut C, f: &Title, room: &mut [u8]) -> OrEnd<()>
    requires ready { C.ready calls.old }
    requires room { most_bytes ≤ length room.old }
    ensures exact { (s : Shell) → At C.at calls.old s → C.tells calls.new →
        Leads C.at C.stands result (with_file (file_in s f.now) f.now (with_text f.now (λ bytes s. on_fresh_line (shown_by bytes s))) s) calls.new }
    ensures left { IsLeft C.ready C.failed result calls.new }
    ensures lasts { C.lasts calls.old calls.new }
{
    let Some((_, n)) = read_file(calls, f, Some(FileKind::Text), room)? else {
        return Ok(());
    };
    let (bytes, _) = room.split_at(n);
    calls.show(bytes)?;
    calls.fresh_line()
}

/// `print f`
pub fn print_file<C: ShellCalls>(calls: &mut C, f: &Title, room: &mut [u8]) -> OrEnd<()>
    requires ready { C.ready calls.old }
    requires room { most_bytes ≤ length room.old }
    ensures exact { (s : Shell) → At C.at calls.old s → C.tells calls.new →
        Leads C.at C.stands result (with_file (file_in s f.now) f.now (with_text f.now printed_by) s) calls.new }
    ensures left { IsLeft C.ready C.failed result calls.new }
    ensures lasts { C.lasts calls.old calls.new }
{
    let Some((_, n)) = read_file(calls, f, Some(FileKind::Text), room)? else {
        return Ok(());
    };
    let (bytes, _) = room.split_at(n);
    calls.print_out(bytes)
}

/// `copy f g`
pub fn copy_file<C: ShellCalls>(calls: &mut C, f: &Title, g: &Title, room: &mut [u8]) -> OrEnd<()>
    requires ready { C.ready calls.old }
    requires room { most_bytes ≤ length room.old }
    ensures exact { (s : Shell) → At C.at calls.old s → C.tells calls.new →
        Leads C.at C.stands result (with_file (file_in s f.now) f.now (copies_to g.now) s) calls.new }
    ensures left { IsLeft C.ready C.failed result calls.new }
    ensures lasts { C.lasts calls.old calls.new }
{
    let Some((kind, n)) = read_file(calls, f, None, room)? else {
        return Ok(());
    };
    let (bytes, _) = room.split_at(n);
    store_file(calls, g, kind, bytes)
}
