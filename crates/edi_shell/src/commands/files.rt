//! The commands that change files.

ghost use Rattle.std.specs.Prelude.{◌≡◌, ◌<◌, ◌^◌, length};
ghost use Rattle.edi_session.specs.Files.{deletes, protects, renames, stores};
ghost use Rattle.edi_session.specs.Shell.{Shell};
ghost use Rattle.edi_shell_io.specs.calls.Standing.{At, IsLeft, Leads};

use crate::commands::saying::answer;
use edi_calls::FileKind;
use edi_image::Title;
use edi_shell_io::calls::{OrEnd, ShellCalls};

/// Stores bytes as a file, or shows why not.
pub fn store_file<C: ShellCalls>(
    calls: &mut C,
    title: &Title,
    kind: FileKind,
    bytes: &[u8],
) -> OrEnd<()>
    requires ready { C.ready calls.old }
    requires size { length bytes.now < 2 ^ 32 }
    ensures exact { (s : Shell) → At C.at calls.old s → C.tells calls.new → Leads C.at C.stands result (stores title.now kind bytes.now s) calls.new }
    ensures left { IsLeft C.ready C.failed result calls.new }
    ensures lasts { C.lasts calls.old calls.new }
{
    let stored = calls.store(title, kind, bytes);
    answer(calls, title, title, stored)
}

/// `delete f`
pub fn delete_file<C: ShellCalls>(calls: &mut C, f: &Title) -> OrEnd<()>
    requires ready { C.ready calls.old }
    ensures exact { (s : Shell) → At C.at calls.old s → C.tells calls.new → Leads C.at C.stands result (deletes f.now s) calls.new }
    ensures left { IsLeft C.ready C.failed result calls.new }
    ensures lasts { C.lasts calls.old calls.new }
{
    let deleted = calls.delete(f);
    answer(calls, f, f, deleted)
}

/// `rename f g`
pub fn rename_file<C: ShellCalls>(calls: &mut C, f: &Title, g: &Title) -> OrEnd<()>
    requires ready { C.ready calls.old }
    ensures exact { (s : Shell) → At C.at calls.old s → C.tells calls.new → Leads C.at C.stands result (renames f.now g.now s) calls.new }
    ensures left { IsLeft C.ready C.failed result calls.new }
    ensures lasts { C.lasts calls.old calls.new }
{
    let renamed = calls.rename(f, g);
    answer(calls, f, g, renamed)
}

/// `protect f`, or `release f` where the file is not to be protected.
pub fn protect_file<C: ShellCalls>(calls: &mut C, f: &Title, protected: bool) -> OrEnd<()>
    requires ready { C.ready calls.old }
    ensures exact { (s : Shell) → At C.at calls.old s → C.tells calls.new → Leads C.at C.stands result (protects protected f.now s) calls.new }
    ensures left { IsLeft C.ready C.failed result calls.new }
    ensures lasts { C.lasts calls.old calls.new }
{
    let done = calls.protect(f, protected);
    answer(calls, f, f, done)
}
