//! `list CODEFILE`.

ghost use Rattle.std.specs.Prelude.{◌≡◌, ◌≤◌};
ghost use Rattle.edi_words.specs.Words.{list as list_words};
ghost use Rattle.edi_main.specs.steps.OnTerminal.{CameShowing, HasCauseShown};

use crate::code::loading::listing_of_file;
use crate::steps::show_made;
use edi_host::{Files, Sink};
use edi_statuses::Ended;
use std::alloc::Global;

/// Fetches the code file, loads it, and shows the listing of its code. It touches the files and the terminal alone: whatever the
/// other objects are, which stay as they are, this is how the command ended.
pub fn list<F: Files, T: Sink>(alloc: Global, files: &mut F, terminal: &mut T, file: &str) -> Ended
    ensures came { CameShowing (list_words file.now) result.status result.due
        (F.contents files.old) (F.contents files.new) (T.taken terminal.old) (T.taken terminal.new) }
    ensures cause { HasCauseShown result.status (F.faults files.old) (F.faults files.new) (T.faults terminal.old) (T.faults terminal.new) }
    ensures later_files { F.faults files.old ≤ F.faults files.new }
    ensures later_terminal { T.faults terminal.old ≤ T.faults terminal.new }
{
    let made = listing_of_file(alloc, files, file);
    show_made(terminal, made)
}
