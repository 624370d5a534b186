//! Endings that are told apart by what is shown; and how far an exploration is.

use crate::explorations::explored::{SILENCE, WIDE, code_of, explored};
use crate::explorations::texts::{BOTH, LOST};
use edi_explore::{Limits, Report, Verdict, explore};
use edi_kernel::Kernel;
use edi_runs::explore::{Exploration, Orders, Summary, report_text, sum_up};
use std::alloc::Global;
use std::process::Abort;

// What is found of a text where so many endings may be told.
fn told(rt: &impl Abort, alloc: Global, text: &str, most: u32) -> Report {
    let limits = Limits {
        states: 1_000,
        turns: 1_000,
        shown: Some(most),
    };
    explored(rt, alloc, text, "", limits)
}

// Of a search by output nothing is said of other orders of steps.
fn unsaid(report: Report) -> Exploration {
    Exploration {
        report,
        orders: Orders::Unsaid,
    }
}

// Each branch of BOTH is fresh, has arrived or has ended; where both have ended either letter may be the first one; and before the entry.
#[test]
fn other_output_is_another_ending(rt: HostRuntime) {
    let alloc = rt.alloc();
    assert_eq!(rt; explored(&rt, alloc, BOTH, "", WIDE).found.len(), 1);
    let report = told(&rt, alloc, BOTH, 2);
    assert!(rt; report.verdict == Verdict::All);
    assert_eq!(rt; report.states, 11);
    assert_eq!(rt; report.found.len(), 2);
    assert!(rt; report.found[0].shown.as_slice() == "ab".as_bytes());
    assert!(rt; report.found[1].shown.as_slice() == "ba".as_bytes());
}

// The turns were counted by hand: one each for the entry, the fork, two arrivals, two ends of branches, and the end of the program. So were the
// moves: the fork, two arrivals, and two ends of branches.
#[test]
fn outputs_are_shown(rt: HostRuntime) {
    let alloc = rt.alloc();
    let report = told(&rt, alloc, BOTH, 2);
    let found = unsaid(report);
    let lines = report_text(alloc, &found, true, None).expect(&rt, "memory");
    let wanted =
        "done after 7 turns: no choices\n  shown \"ab\"\ndone after 7 turns: choices 0 0 1\n  shown \"ba\"\nno execution ends otherwise; 11 states\nno execution makes more than 5 moves\n";
    assert!(rt; lines.as_slice() == wanted.as_bytes());
    assert!(rt; sum_up(&found) == Summary::Fine);
}

// The fork and two moves of each branch come before the end.
#[test]
fn no_more_endings_are_told_than_may_be(rt: HostRuntime) {
    let alloc = rt.alloc();
    let report = told(&rt, alloc, BOTH, 1);
    assert!(rt; report.verdict == Verdict::Many(5));
    assert_eq!(rt; report.found.len(), 1);
    assert!(rt; sum_up(&unsaid(report)) == Summary::NotAll);
}

// LOST has 20 states, of which the first one is before the entry: the others are expanded.
#[test]
fn a_watcher_is_told_of_each_state(rt: HostRuntime) {
    let alloc = rt.alloc();
    let code = code_of(&rt, alloc, LOST);
    let mut kernel = Kernel::new(alloc).expect(&rt, "memory");
    let mut heard = SILENCE;
    let report = explore(alloc, &mut kernel, &code, &[], WIDE, &mut heard).expect(&rt, "memory");
    assert_eq!(rt; report.states, 20);
    assert_eq!(rt; heard.times, 19);
    assert_eq!(rt; heard.last, 20);
}
