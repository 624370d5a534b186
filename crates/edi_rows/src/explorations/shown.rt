//! What is shown of explorations; their inputs, and the names of their files.

use crate::explorations::explored::{SILENCE, WIDE, code_of, explored};
use crate::explorations::texts::{ECHO, EITHER, FOREVER, LETTER, LOST, MANY, OPEN, STANDS, WAITS};
use edi_compile::front;
use edi_explore::Limits;
use edi_host::{KeepEnd, MemoryFiles, MemorySource};
use edi_kernel::Kernel;
use edi_runs::explore::{
    Exploration, InputFault, Orders, Summary, explore_text, keep_records, names_accept,
    openness_of, read_input, record_name, report_text, sum_up,
};
use edi_trace::read_choices;
use std::alloc::Global;
use std::process::Abort;

// What is found of a text with this input, and what is said of every order of its steps.
fn exploration(
    rt: &impl Abort,
    alloc: Global,
    text: &str,
    input: &str,
    limits: Limits,
) -> Exploration {
    let openly = match front(alloc, text.as_bytes()) {
        Ok(unit) => openness_of(alloc, text.as_bytes(), &unit).expect(rt, "memory"),
        Err(refusal) => panic!(rt; "{text}: {refusal}"),
    };
    let code = code_of(rt, alloc, text);
    let mut kernel = Kernel::new(alloc).expect(rt, "memory");
    let mut heard = SILENCE;
    explore_text(
        alloc,
        &mut kernel,
        &code,
        openly,
        input.as_bytes(),
        limits,
        &mut heard,
    )
    .expect(rt, "memory")
}

// Whether this is shown of a text with this input, and is told so.
fn shows(
    rt: &impl Abort,
    alloc: Global,
    text: &str,
    input: &str,
    lines: &str,
    summary: Summary,
) -> bool {
    let found = exploration(rt, alloc, text, input, WIDE);
    let shown = report_text(alloc, &found, false, None).expect(rt, "memory");
    shown.as_slice() == lines.as_bytes() && sum_up(&found) == summary
}

/// A text and its input, and what is shown of it.
type Case = (&'static str, &'static str, &'static str, Summary);

// The turns were counted by hand: one each for the entry, a fork, an arrival, an attempt that fails, the end of a turn of a loop, and the ends of
// a procedure, a branch and the program. Of the executions to one ending the first one that is met takes the front of the list each time. So were
// the moves: one each for the fork, for each arrival at a `when`, and for each end of a branch.
#[test]
fn the_lines_are_shown(rt: HostRuntime) {
    let cases: [Case; 8] = [
        (
            LETTER,
            "",
            "done after 2 turns: no choices\nno execution ends otherwise; 1 state\nno execution makes more than 0 moves\nno order of steps ends otherwise, but perhaps by process limit\n",
            Summary::Fine,
        ),
        (
            EITHER,
            "",
            "done after 13 turns: no choices\nno execution ends otherwise; 20 states\nno execution makes more than 7 moves\nno order of steps ends otherwise, but perhaps by process limit\n",
            Summary::Fine,
        ),
        (
            STANDS,
            "",
            "standstill after 6 turns: no choices\n  1.1 waits at line 5\n  1.2 waits at line 6\nno execution ends otherwise; 5 states\nno execution makes more than 3 moves\nno order of steps ends otherwise, but perhaps by process limit\n",
            Summary::Found(1),
        ),
        (
            ECHO,
            "ab",
            "done after 6 turns: no choices\nno execution ends otherwise; 3 states\nno execution makes more than 2 moves\nno order of steps ends otherwise, but perhaps by process limit\n",
            Summary::Fine,
        ),
        (
            WAITS,
            "",
            "every execution goes on for ever; 2 states\nno order of steps ends, but perhaps by process limit\n",
            Summary::Endless,
        ),
        (
            OPEN,
            "",
            "done after 5 turns: no choices\nno execution ends otherwise; 5 states\nno execution makes more than 3 moves\ndisplay of main may be used outside critical phases\nx of main may be used outside critical phases\nanother order of steps may end otherwise\n",
            Summary::Fine,
        ),
        (
            MANY,
            "",
            "done after 5 turns: no choices\nno execution ends otherwise; 5 states\nno execution makes more than 3 moves\na of main may be used outside critical phases\nb of main may be used outside critical phases\nc of main may be used outside critical phases\nd of main may be used outside critical phases\ne of main may be used outside critical phases\nf of main may be used outside critical phases\ng of main may be used outside critical phases\nh of main may be used outside critical phases\ni of main may be used outside critical phases\nj of main may be used outside critical phases\nand 1 more\nanother order of steps may end otherwise\n",
            Summary::Fine,
        ),
        (
            FOREVER,
            "",
            "perhaps not all: a process goes on for more turns than --turns allows, with no choices; 1 state\n",
            Summary::NotAll,
        ),
    ];
    let alloc = rt.alloc();
    for (text, input, lines, summary) in cases {
        assert!(rt; shows(&rt, alloc, text, input, lines, summary), "{text}");
    }
}

// Whether a text names `accept`.
fn asks(rt: &impl Abort, alloc: Global, text: &str) -> bool {
    match front(alloc, text.as_bytes()) {
        Ok(unit) => names_accept(&unit),
        Err(refusal) => panic!(rt; "{text}: {refusal}"),
    }
}

#[test]
fn who_names_accept_asks_for_input(rt: HostRuntime) {
    let alloc = rt.alloc();
    assert!(rt; asks(&rt, alloc, ECHO));
    assert!(rt; !asks(&rt, alloc, LETTER));
    assert!(rt; !asks(&rt, alloc, WAITS));
}

// What is read of an input of so many bytes, where calls with these numbers fail.
fn reads(
    rt: &impl Abort,
    alloc: Global,
    count: usize,
    failing: &[u64],
) -> Result<usize, InputFault> {
    let mut bytes = Vec::new(alloc);
    for _byte in 0..count {
        bytes.push(b'a').expect(rt, "memory");
    }
    let mut source = MemorySource::new(alloc, &bytes, failing).expect(rt, "memory");
    match read_input(alloc, &mut source) {
        Ok(read) => Ok(read.len()),
        Err(fault) => Err(fault),
    }
}

#[test]
fn inputs_are_read_to_their_ends(rt: HostRuntime) {
    let alloc = rt.alloc();
    assert!(rt; reads(&rt, alloc, 0, &[]) == Ok(0));
    assert!(rt; reads(&rt, alloc, 65_536, &[]) == Ok(65_536));
    assert!(rt; reads(&rt, alloc, 65_537, &[]) == Err(InputFault::TooLong));
    assert!(rt; reads(&rt, alloc, 3, &[2]) == Err(InputFault::Failed));
}

#[test]
fn records_have_numbers(rt: HostRuntime) {
    let name = record_name(rt.alloc(), "p", 12).expect(&rt, "memory");
    assert!(rt; name.as_bytes() == "p.12".as_bytes());
}

// Whether a file has these choices.
fn keeps(rt: &impl Abort, alloc: Global, files: &MemoryFiles, name: &str, choices: &[u8]) -> bool {
    match files.get(name) {
        Some(bytes) => match read_choices(alloc, bytes) {
            Ok(values) => values.as_slice() == choices,
            Err(_) => panic!(rt; "{name}"),
        },
        None => false,
    }
}

// LOST has two endings. The second call of a keep fails.
#[test]
fn records_are_kept(rt: HostRuntime) {
    let alloc = rt.alloc();
    let report = explored(&rt, alloc, LOST, "", WIDE);
    let found = Exploration {
        report,
        orders: Orders::Unsaid,
    };
    let endings = &found.report.found;
    let mut files = MemoryFiles::new(alloc, &[]).expect(&rt, "memory");
    assert!(rt; keep_records(alloc, &mut files, "p", &found) == KeepEnd::Ok);
    assert_eq!(rt; endings.len(), 2);
    assert!(rt; keeps(&rt, alloc, &files, "p.1", &endings[0].choices));
    assert!(rt; keeps(&rt, alloc, &files, "p.2", &endings[1].choices));
    assert!(rt; files.get("p.3").is_none());
    let mut failing = MemoryFiles::new(alloc, &[2]).expect(&rt, "memory");
    assert!(rt; keep_records(alloc, &mut failing, "p", &found) == KeepEnd::Failed);
    assert!(rt; keeps(&rt, alloc, &failing, "p.1", &endings[0].choices));
}
