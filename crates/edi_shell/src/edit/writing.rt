//! Storing the text.

ghost use Rattle.std.specs.Prelude.{◌≡◌};
ghost use Rattle.edi_shell.specs.edit.Prelude.{EditsBy, Shell, At, IsLeft, Edits};
ghost use Rattle.edi_session.specs.declared.line.EditLine.TheVariants as edit;

use crate::edit::looking::say_on;
use edi_calls::FileKind;
use edi_catalog::CatEnd;
use edi_edit::Text;
use edi_image::Title;
use edi_session::SessionEnd;
use edi_shell_io::calls::{OrEnd, ShellCalls};
use edi_shell_io::lines::change_refusal;
use std::alloc::Global;

/// `w`: stores the text as the file `f`, or shows why not; and tells whether it is stored, so that the editing is left.
pub(crate) fn write_text<C: ShellCalls>(
    alloc: Global,
    calls: &mut C,
    f: &Title,
    text: &Text,
) -> OrEnd<bool>
    requires ready { C.ready calls.old }
    ensures exact { (s : Shell) → At C.at calls.old s → C.tells calls.new →
        Edits C.at C.stands result (EditsBy edit.Write f.now text.now s) s s.taken f.now text.now calls.new }
    ensures left { IsLeft C.ready C.failed result calls.new }
    ensures lasts { C.lasts calls.old calls.new }
{
    let Ok(bytes) = text.bytes(alloc) else {
        return say_on(calls, b"no memory\n");
    };
    match calls.store(f, FileKind::Text, &bytes) {
        Ok(()) => Ok(true),
        Err(why) => match why {
            CatEnd::Fault => Err(SessionEnd::DriveFault),
            _ => say_on(calls, change_refusal(f, f, why).as_slice()),
        },
    }
}
