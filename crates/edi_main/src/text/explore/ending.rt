//! How an exploration ends: its lines are shown, and then the choices of its endings are kept.

ghost use Rattle.std.specs.Prelude.{◌≡◌, ◌<◌, ◌≤◌, false, length, option_map};
ghost use Rattle.edi_told.specs.Faults.{CountRose};
ghost use Rattle.edi_told.specs.Told.{WhereTold};
ghost use Rattle.edi_runs.specs.explore.Keeping.{KeepsInTurn, is_kept};
ghost use Rattle.edi_runs.specs.explore.Lines.{summary_of};
ghost use Rattle.edi_runs.specs.explore.Records.{records_of};
ghost use Rattle.edi_runs.specs.explore.Told.{findings_of};
ghost use Rattle.edi_statuses.specs.EachObject.{is_before_drive};
ghost use Rattle.edi_statuses.specs.Explored.{status_of_summary};
ghost use Rattle.edi_main.specs.text.ExploreCommand.{EndsExploring, kept_status};

use crate::text::explore::reports::Explored;
use edi_host::{Files, KeepEnd, Sink};
use edi_runs::explore::{Exploration, Summary, keep_records, sum_up};
use edi_statuses::{Ended, Status, show_bytes};
use std::alloc::Global;

/// The status that tells this.
fn summary_status(summary: Summary) -> Status
    ensures exact { result ≡ status_of_summary summary }
    ensures late { is_before_drive result ≡ false }
{
    match summary {
        Summary::Fine => Status::Ok,
        Summary::Endless => Status::NoEnding,
        Summary::NotAll => Status::NotAll,
        Summary::Found(others) => Status::Found(others),
    }
}

/// The status of a command whose records were kept, or were not.
fn kept_status(end: KeepEnd, exploration: &Exploration) -> Status
    ensures exact { result ≡ kept_status (findings_of exploration.now) end }
    ensures late { is_before_drive result ≡ false }
{
    match end {
        KeepEnd::Ok => summary_status(sum_up(exploration)),
        KeepEnd::Failed => Status::FileFault,
        KeepEnd::NoMemory => Status::NoMemory,
    }
}

/// Keeps the choices of the endings under this name, if there is one. Where there is no ending the files are left alone.
fn keep_endings<F: Files>(
    alloc: Global,
    files: &mut F,
    record_file: Option<&str>,
    exploration: &Exploration,
) -> KeepEnd
    ensures keeps { WhereTold (F.contents files.old) (F.contents files.new)
        (KeepsInTurn result (records_of (option_map (λ name. name.now) record_file.entry) (findings_of exploration.now).endings)) }
    ensures some { is_kept result ≡ false
        → 0 < length (records_of (option_map (λ name. name.now) record_file.entry) (findings_of exploration.now).endings) }
    ensures later { F.faults files.old ≤ F.faults files.new }
    ensures cause { result ≡ KeepEnd.Failed → CountRose (F.faults files.old) (F.faults files.new) }
{
    let Some(name) = record_file else {
        return KeepEnd::Ok;
    };
    if exploration.report.found.is_empty() {
        return KeepEnd::Ok;
    }
    keep_records(alloc, files, name, exploration)
}

/// Shows the lines of an exploration, and then keeps the choices of its endings under this name, if there is one.
pub(crate) fn end_exploration<F: Files, T: Sink>(
    alloc: Global,
    files: &mut F,
    terminal: &mut T,
    record_file: Option<&str>,
    explored: &Explored,
) -> Ended
    ensures ends { EndsExploring (option_map (λ name. name.now) record_file.entry) (findings_of explored.now.exploration) explored.now.lines.items result
        (T.taken terminal.old) (T.taken terminal.new) (F.contents files.old) (F.contents files.new) }
    ensures later_files { F.faults files.old ≤ F.faults files.new }
    ensures later_terminal { T.faults terminal.old ≤ T.faults terminal.new }
    ensures cause_files { result.status ≡ Status.FileFault → CountRose (F.faults files.old) (F.faults files.new) }
    ensures cause_terminal { result.status ≡ Status.OutputFault → CountRose (T.faults terminal.old) (T.faults terminal.new) }
    ensures late { is_before_drive result.status ≡ false }
{
    let shown = show_bytes(terminal, &explored.lines, false);
    match shown.status {
        Status::OutputFault => shown,
        _ => {
            let end = keep_endings(alloc, files, record_file, &explored.exploration);
            Ended {
                status: kept_status(end, &explored.exploration),
                due: shown.due,
            }
        }
    }
}
