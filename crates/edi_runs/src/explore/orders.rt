//! What is said of every order of steps.

ghost use Rattle.std.specs.Prelude.{◌≡◌, ◌&&◌, map};
ghost use Rattle.edi_timeline.specs.Told.{meant};
ghost use Rattle.edi_runs.specs.explore.Explorations.{endings_in};
ghost use Rattle.edi_runs.specs.explore.Openness.{open_of};
ghost use Rattle.edi_runs.specs.explore.Orders as spec;
ghost use Rattle.edi_runs.specs.explore.Told.{orders_by, orders_of, reached_of};

use crate::explore::openness::{OpenNames, Openness};
use edi_explore::{Found, Report, Verdict};
use edi_kernel::Ending;

/// What is said of every order of steps, also of those in which another process steps between two steps of a stint.
#[derive(Drop)]
pub enum Orders {
    /// No order ends otherwise, but perhaps by `process limit`.
    Settled,
    /// These variables may be used outside critical phases; of other orders nothing is known. If there are none, the program itself is called or
    /// passed on.
    Used(OpenNames),
    /// Nothing: not all executions were followed, output is looked at, or an ending is neither `done` nor a standstill.
    Unsaid,
}

/// What a search has found of a text, and what is said of every order of its steps.
#[derive(Drop)]
pub struct Exploration {
    pub report: Report,
    pub orders: Orders,
}

// Whether these are all endings.
fn is_all(verdict: Verdict) -> bool
    ensures exact { result ≡ spec.is_all verdict }
{
    match verdict {
        Verdict::All => true,
        Verdict::Full(_)
        | Verdict::Many(_)
        | Verdict::Cut(_)
        | Verdict::Unrecorded(_)
        | Verdict::NoMemory(_) => false,
    }
}

// Whether an ending is `done` or a standstill.
fn is_calm(ending: Ending) -> bool
    ensures exact { result ≡ spec.is_calm (meant ending) }
{
    match ending {
        Ending::Done | Ending::Standstill => true,
        Ending::Halted(_) | Ending::Failed(_, _) | Ending::Turns | Ending::Bad(_) | Ending::Fault =>
            false,
    }
}

// Whether each ending is so.
fn are_calm(found: &[Found]) -> bool
    ensures exact { result ≡ spec.are_calm (endings_in (map reached_of found.now)) }
{
    for one in found {
        if !is_calm(one.ending) {
            return false;
        }
    }
    true
}

// Whether something is said.
fn speaks(report: &Report, shown: Option<u32>) -> bool
    ensures exact { result ≡ spec.speaks report.now.verdict shown (endings_in (map reached_of report.now.found.items)) }
{
    if !is_all(report.verdict) {
        return false;
    }
    if shown.is_some() {
        return false;
    }
    are_calm(&report.found)
}

/// What is said of every order of steps by what was found, where output is looked at or not.
pub(crate) fn orders_by_openness(report: &Report, shown: Option<u32>, openly: Openness) -> Orders
    ensures exact { orders_of result
        ≡ orders_by (spec.speaks report.now.verdict shown (endings_in (map reached_of report.now.found.items))) openly.none (open_of openly.names) }
{
    if !speaks(report, shown) {
        return Orders::Unsaid;
    }
    if openly.none {
        return Orders::Settled;
    }
    Orders::Used(openly.names)
}
