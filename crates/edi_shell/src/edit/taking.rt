//! Taking the lines of an editing.

ghost use Rattle.std.specs.Prelude.{◌≡◌, ◌≤◌, ◌<◌, ◌++◌, ◌∷◌, [], IfOk, false, length, take, vec_capacity};
ghost use Rattle.edi_shell.specs.edit.Prelude.{Shell, IsLeftSo, At};
ghost use Rattle.edi_edit.specs.Lines.{has_feed};
ghost use Rattle.edi_session.specs.Shell.{next_line};
ghost use Rattle.edi_shell.specs.commands.Taking.{GivesLine};

use crate::commands::{LIMIT, next_of_line};
use edi_shell_io::calls::{OrEnd, ShellCalls};

/// So many bytes of a line of an editing are kept, one more than a text may have.
pub(crate) const MOST_KEPT: usize = 261_121;

// Keeps a byte of a line, of a longer line the first 261,121 alone.
fn keep_byte(line: &mut Vec<u8>, byte: u8)
    requires room { MOST_KEPT ≤ vec_capacity line.old }
    requires short { length line.old.items ≤ MOST_KEPT }
    ensures keeps { line.new.items ≡ take MOST_KEPT (line.old.items ++ byte ∷ []) }
    ensures short { length line.new.items ≤ MOST_KEPT }
    ensures room { MOST_KEPT ≤ vec_capacity line.new }
{
    if line.len() < MOST_KEPT {
        line.push_reserved(byte);
    }
}

/// Takes a line of an editing into `line`, of a longer one the first 261,121 bytes. It is not shown.
pub(crate) fn take_line<C: ShellCalls>(
    calls: &mut C,
    taken: &mut u32,
    line: &mut Vec<u8>,
) -> OrEnd<()>
    requires ready { C.ready calls.old }
    requires limit { taken.old ≤ LIMIT }
    requires room { MOST_KEPT ≤ vec_capacity line.old }
    ensures exact { (s : Shell) → s.taken ≡ taken.old → At C.at calls.old s → C.tells calls.new →
        GivesLine C.at C.stands MOST_KEPT result (next_line false s) line.new.items taken.new calls.new }
    ensures one_line { has_feed line.new.items ≡ false }
    ensures short { length line.new.items ≤ MOST_KEPT }
    ensures room { MOST_KEPT ≤ vec_capacity line.new }
    ensures left { IsLeftSo C.ready C.failed result calls.new }
    ensures limit { taken.new ≤ LIMIT }
    ensures later { taken.old ≤ taken.new }
    ensures more { IfOk result (λ x. taken.old < taken.new) }
    ensures lasts { C.lasts calls.old calls.new }
{
    line.clear();
    'bytes: loop {
        let Some(byte) = next_of_line(calls, taken, false, line.is_empty())? else {
            return Ok(());
        };
        keep_byte(line, byte);
    }
}
