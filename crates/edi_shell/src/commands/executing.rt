//! The execution of a file.

ghost use Rattle.std.specs.Prelude.{◌≡◌, ◌≤◌, ◌<◌, ◌+◌, ◌^◌, length};
ghost use Rattle.edi_calls.specs.State.{most_bytes};
ghost use Rattle.edi_session.specs.Files.{file_in};
ghost use Rattle.edi_session.specs.Session.{ExecutesCode, ExecutesFile, ExecutesKind};
ghost use Rattle.edi_session.specs.Shell.{Shell, says};
ghost use Rattle.edi_shell_io.specs.calls.Standing.{At, IsLeft, Leads};
ghost use Rattle.edi_shell.specs.commands.Rows.{LineDoes};
ghost use Rattle.edi_shell.specs.commands.Files.{code_refusal};

use crate::commands::reading::read_file;
use crate::commands::saying::say;
use edi_calls::FileKind;
use edi_codefile::load;
use edi_image::Title;
use edi_kernel::Kernel;
use edi_shell_io::calls::{OrEnd, ShellCalls};
use edi_shell_io::lines::{about, ending_line, plain};
use edi_target::{Code, CodeFault};
use edi_trace::Choices;
use std::alloc::Global;

// Runs the code of the file `f`, and shows the line of its ending.
fn run_code<C: ShellCalls>(
    calls: &mut C,
    f: &Title,
    kernel: &mut Kernel,
    code: &Code,
    bound: u64,
    choices: &mut Choices,
) -> OrEnd<()>
    requires ready { C.ready calls.old }
    ensures exact { choices.old.drawn + bound < 2 ^ 64 → (s : Shell) → s.drawn ≡ choices.old.drawn → At C.at calls.old s → C.tells calls.new →
        LineDoes C.at C.stands (ExecutesCode bound choices.old.source f.now code.now) result choices.new.drawn s calls.new }
    ensures source { choices.new.source ≡ choices.old.source }
    ensures drawn { choices.new.drawn ≤ choices.old.drawn + bound }
    ensures left { IsLeft C.ready C.failed result calls.new }
    ensures lasts { C.lasts calls.old calls.new }
{
    let ending = calls.execute(kernel, code, bound, choices)?;
    match ending_line(f, ending) {
        Some(line) => {
            calls.fresh_line()?;
            say(calls, &line)
        }
        None => Ok(()),
    }
}

// Shows why there is no code in the file `f`.
fn refuse_code<C: ShellCalls>(calls: &mut C, f: &Title, fault: CodeFault) -> OrEnd<()>
    requires ready { C.ready calls.old }
    ensures exact { (s : Shell) → At C.at calls.old s → C.tells calls.new → Leads C.at C.stands result (says (code_refusal f.now fault) s) calls.new }
    ensures left { IsLeft C.ready C.failed result calls.new }
    ensures lasts { C.lasts calls.old calls.new }
{
    match fault {
        CodeFault::NoMemory => say(calls, &plain("no memory")),
        CodeFault::Short { .. } => say(calls, &about("bad code", f)),
        CodeFault::Over { .. } => say(calls, &about("bad code", f)),
        CodeFault::Header { .. } => say(calls, &about("bad code", f)),
        CodeFault::Operation { .. } => say(calls, &about("bad code", f)),
        CodeFault::Jump { .. } => say(calls, &about("bad code", f)),
    }
}

// Executes the code that these bytes of the file `f` are, or shows why not.
fn execute_bytes<C: ShellCalls>(
    alloc: Global,
    calls: &mut C,
    f: &Title,
    kernel: &mut Kernel,
    bytes: &[u8],
    bound: u64,
    choices: &mut Choices,
) -> OrEnd<()>
    requires ready { C.ready calls.old }
    ensures exact { choices.old.drawn + bound < 2 ^ 64 → (s : Shell) → s.drawn ≡ choices.old.drawn → At C.at calls.old s → C.tells calls.new →
        LineDoes C.at C.stands (ExecutesKind bound choices.old.source FileKind.Code f.now bytes.now) result choices.new.drawn s calls.new }
    ensures source { choices.new.source ≡ choices.old.source }
    ensures drawn { choices.new.drawn ≤ choices.old.drawn + bound }
    ensures left { IsLeft C.ready C.failed result calls.new }
    ensures lasts { C.lasts calls.old calls.new }
{
    match load(alloc, bytes) {
        Ok(code) => run_code(calls, f, kernel, &code, bound, choices),
        Err(fault) => refuse_code(calls, f, fault),
    }
}

/// Executes the file of this title, or shows why not.
pub fn execute_file<C: ShellCalls>(
    alloc: Global,
    calls: &mut C,
    f: &Title,
    kernel: &mut Kernel,
    room: &mut [u8],
    bound: u64,
    choices: &mut Choices,
) -> OrEnd<()>
    requires ready { C.ready calls.old }
    requires room { most_bytes ≤ length room.old }
    ensures exact { choices.old.drawn + bound < 2 ^ 64 → (s : Shell) → s.drawn ≡ choices.old.drawn → At C.at calls.old s → C.tells calls.new →
        LineDoes C.at C.stands (ExecutesFile bound choices.old.source f.now (file_in s f.now)) result choices.new.drawn s calls.new }
    ensures source { choices.new.source ≡ choices.old.source }
    ensures drawn { choices.new.drawn ≤ choices.old.drawn + bound }
    ensures left { IsLeft C.ready C.failed result calls.new }
    ensures lasts { C.lasts calls.old calls.new }
{
    let Some((_, n)) = read_file(calls, f, Some(FileKind::Code), room)? else {
        return Ok(());
    };
    let (bytes, _) = room.split_at(n);
    execute_bytes(alloc, calls, f, kernel, bytes, bound, choices)
}
