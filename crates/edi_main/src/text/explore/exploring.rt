//! `explore FILE`.

ghost use Rattle.std.specs.Prelude.{◌≡◌, ◌≤◌, ℕ, List, Option, Some, true};
ghost use Rattle.edi_words.specs.View.{exploring_of};
ghost use Rattle.edi_words.specs.Words.{explore as explore_words};
ghost use Rattle.edi_statuses.specs.Counts.{counts_with, HasCause};
ghost use Rattle.edi_statuses.specs.Decided.{Came};
ghost use Rattle.edi_statuses.specs.EachObject.{is_before_drive};
ghost use Rattle.edi_statuses.specs.Outside.{lent, outside_with};

use crate::steps::stopped;
use crate::text::explore::ending::end_exploration;
use crate::text::explore::inputs::input_of;
use crate::text::explore::programs::program_of_file;
use crate::text::explore::reports::explore_program;
use edi_explore::{Limits, Watcher};
use edi_host::{Files, Sink, Source};
use edi_kernel::Kernel;
use edi_statuses::{Ended, Status};
use edi_words::ExploreOptions;
use std::alloc::Global;

/// `explore FILE`: fetches the text, compiles it, reads the input where its program names `accept`, follows all choices, shows the lines that tell
/// what was found, and keeps the choices of its endings, in this order. While it follows choices the watcher is told how many states there are.
///
/// Whatever the drive and the printer are, which stay as they are, this is how the command ended. The fault of an object comes only where its count
/// rose. Where the text is not read the input, the terminal, the kernel and the watcher are not touched.
pub fn explore_file<F: Files, S: Source, T: Sink, W: Watcher>(
    alloc: Global,
    file: &str,
    options: ExploreOptions<'_>,
    files: &mut F,
    input: &mut S,
    terminal: &mut T,
    kernel: &mut Kernel,
    watcher: &mut W,
) -> Ended
    ensures came { (blocks : Option (List (List ℕ))) (printed : Option (List ℕ)) →
        Came result.status result.due (Some (explore_words file.now (exploring_of options.entry)))
        (outside_with (F.contents files.old) blocks (S.left input.old) (T.taken terminal.old) printed)
        (outside_with (F.contents files.new) blocks (S.left input.new) (T.taken terminal.new) printed)
        (lent kernel.old.store kernel.old.used kernel.new.store kernel.new.used) }
    ensures cause { (drive printer : ℕ) → HasCause result.status
        (counts_with (F.faults files.old) drive (S.faults input.old) (T.faults terminal.old) printer)
        (counts_with (F.faults files.new) drive (S.faults input.new) (T.faults terminal.new) printer) }
    ensures later_files { F.faults files.old ≤ F.faults files.new }
    ensures later_input { S.faults input.old ≤ S.faults input.new }
    ensures later_terminal { T.faults terminal.old ≤ T.faults terminal.new }
    ensures early { is_before_drive result.status ≡ true →
        (input.new ≡ input.old) × (terminal.new ≡ terminal.old) × (kernel.new ≡ kernel.old) × (watcher.new ≡ watcher.old) }
{
    let program = match program_of_file(alloc, files, file) {
        Ok(program) => program,
        Err(status) => return stopped(status),
    };
    let given = match input_of(alloc, input, program.asks) {
        Ok(given) => given,
        Err(status) => return stopped(status),
    };
    let limits = Limits {
        states: options.states,
        turns: u64::from(options.turns),
        shown: options.shown,
    };
    let record_file = options.record_file;
    match explore_program(alloc, kernel, program, &given, limits, record_file, watcher) {
        Ok(explored) => end_exploration(alloc, files, terminal, record_file, &explored),
        Err(_) => stopped(Status::NoMemory),
    }
}
