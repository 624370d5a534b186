//! How an exploration is told by a status.

ghost use Rattle.std.specs.Prelude.{◌≡◌, map};
ghost use Rattle.edi_timeline.specs.Told.{meant};
ghost use Rattle.edi_runs.specs.explore.Lines as spec;
ghost use Rattle.edi_runs.specs.explore.Told.{findings_of, reached_of};

use crate::explore::orders::Exploration;
use edi_explore::{Found, Verdict};
use edi_kernel::Ending;

/// What was found, in short.
#[derive(Clone, Copy, Debug, PartialEq, Eq, Drop)]
pub enum Summary {
    /// Each execution that ends is `done`, and there is one. That each ends is not said.
    Fine,
    /// No execution ends.
    Endless,
    /// Each ending that was found is `done`, or none was found. There may be others.
    NotAll,
    /// There are so many other endings, whether they are all or not. The number is greater than 0.
    Found(usize),
}

/// Whether an ending is `done`.
fn is_done(ending: Ending) -> bool
    ensures { result ≡ spec.is_done (meant ending) }
{
    match ending {
        Ending::Done => true,
        Ending::Halted(_)
        | Ending::Failed(_, _)
        | Ending::Turns
        | Ending::Standstill
        | Ending::Bad(_)
        | Ending::Fault => false,
    }
}

/// How many endings are not `done`.
fn others_in(endings: &[Found]) -> usize
    ensures { result ≡ spec.others_in (map reached_of endings.now) }
{
    let mut others: usize = 0;
    for found in endings {
        if !is_done(found.ending) {
            others += 1;
        }
    }
    others
}

/// What is said where all executions were followed, and so many endings were found.
fn sum_up_all(found: usize) -> Summary
    ensures { result ≡ spec.summary_all found }
{
    if found == 0 {
        return Summary::Endless;
    }
    Summary::Fine
}

/// An exploration in short.
pub fn sum_up(exploration: &Exploration) -> Summary
    ensures { result ≡ spec.summary_of (findings_of exploration.now) }
{
    let report = &exploration.report;
    let others = others_in(&report.found);
    if others > 0 {
        return Summary::Found(others);
    }
    match report.verdict {
        Verdict::All => sum_up_all(report.found.len()),
        Verdict::Full(_)
        | Verdict::Many(_)
        | Verdict::Cut(_)
        | Verdict::Unrecorded(_)
        | Verdict::NoMemory(_) => Summary::NotAll,
    }
}
