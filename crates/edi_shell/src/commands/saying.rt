//! Lines that the shell shows.

ghost use Rattle.std.specs.Prelude.{◌≡◌};
ghost use Rattle.edi_catalog.specs.declared.ends.CatEnd.{CatEnd};
ghost use Rattle.std.specs.Prelude.{Option, List};
ghost use Rattle.edi_calls.specs.State.{File};
ghost use Rattle.edi_session.specs.Files.{answered};
ghost use Rattle.edi_session.specs.Shell.{Shell, says, shown_by};
ghost use Rattle.edi_shell_io.specs.calls.Standing.{Answers, At, IsLeft, IsLeftBy, Leads};

use edi_catalog::CatEnd;
use edi_image::Title;
use edi_session::SessionEnd;
use edi_shell_io::calls::{OrEnd, ShellCalls};
use edi_shell_io::lines::{Shown, change_refusal};

/// Shows a line with its line feed.
pub fn say<C: ShellCalls>(calls: &mut C, line: &Shown) -> OrEnd<()>
    requires ready { C.ready calls.old }
    ensures exact { (s : Shell) → At C.at calls.old s → C.tells calls.new → Leads C.at C.stands result (shown_by line.now.items s) calls.new }
    ensures left { IsLeft C.ready C.failed result calls.new }
    ensures lasts { C.lasts calls.old calls.new }
{
    calls.show(line.as_slice())
}

/// Shows why a change of the file `f` is refused, where it is; `g` is the new title where it is renamed.
pub(crate) fn answer<C: ShellCalls>(
    calls: &mut C,
    f: &Title,
    g: &Title,
    answer: Result<(), CatEnd>,
) -> OrEnd<()>
    requires left { IsLeftBy C.ready C.failed answer calls.old }
    ensures exact { (s : Shell) (refusal : Option CatEnd) (wanted : List (Option File)) → Answers C.at C.stands answer refusal wanted s calls.old
        → C.tells calls.new →
        Leads C.at C.stands result (answered refusal f.now g.now wanted s) calls.new }
    ensures left { IsLeft C.ready C.failed result calls.new }
    ensures lasts { C.lasts calls.old calls.new }
{
    match answer {
        Ok(()) => Ok(()),
        Err(CatEnd::Fault) => Err(SessionEnd::DriveFault),
        Err(why) => say(calls, &change_refusal(f, g, why)),
    }
}
