//! What is found, and that each record runs again as it is told.

use crate::explorations::texts::{
    ECHO, EITHER, FOREVER, LETTER, LOST, MONITOR, PETERSON, STANDS, WAITS,
};
use edi_compile::compile;
use edi_explore::{Limits, Report, Verdict, Watcher, explore};
use edi_kernel::{Ending, Kernel};
use edi_memory::MemoryCalls;
use edi_target::Code;
use edi_trace::Choices;
use std::alloc::Global;
use std::process::Abort;

/// Limits that these programs do not reach, but for a stint without end.
pub(crate) const WIDE: Limits = Limits {
    states: 1_000,
    turns: 1_000,
    shown: None,
};

/// A watcher that counts what it is told, and keeps the last number.
#[derive(Clone, Copy)]
pub(crate) struct Heard {
    pub(crate) times: usize,
    pub(crate) last: usize,
}

impl Watcher for Heard {
    ghost use Rattle.std.specs.Prelude.{None};

    ghost seen = { λ s. None };

    fn tell(&mut self, states: usize) {
        self.times = self.times.wrapping_add(1);
        self.last = states;
    }
}

/// A watcher that has heard nothing.
pub(crate) const SILENCE: Heard = Heard { times: 0, last: 0 };

// The code of a text.
pub(crate) fn code_of(rt: &impl Abort, alloc: Global, text: &str) -> Code {
    match compile(alloc, text.as_bytes()) {
        Ok(code) => code,
        Err(refusal) => panic!(rt; "{text}: {refusal}"),
    }
}

// What is found of a text.
pub(crate) fn explored(
    rt: &impl Abort,
    alloc: Global,
    text: &str,
    input: &str,
    limits: Limits,
) -> Report {
    let code = code_of(rt, alloc, text);
    let mut kernel = Kernel::new(alloc).expect(rt, "memory");
    let mut heard = SILENCE;
    explore(
        alloc,
        &mut kernel,
        &code,
        input.as_bytes(),
        limits,
        &mut heard,
    )
    .expect(rt, "memory")
}

// Whether an ending is one of those that are reported.
fn has(report: &Report, ending: Ending) -> bool {
    for found in &report.found {
        if found.ending == ending {
            return true;
        }
    }
    false
}

/// A text and its input, how many states it has, and its endings.
type Case = (&'static str, &'static str, usize, &'static [Ending]);

// The numbers of states of LOST, EITHER, PETERSON and MONITOR are those of a search in C. Those of the others were counted by hand.
#[test]
fn all_endings_are_found(rt: HostRuntime) {
    let cases: [Case; 8] = [
        (LETTER, "", 1, &[Ending::Done]),
        (LOST, "", 20, &[Ending::Done, Ending::Halted(18)]),
        (EITHER, "", 20, &[Ending::Done]),
        (PETERSON, "", 81, &[Ending::Halted(17)]),
        (MONITOR, "", 40, &[Ending::Done]),
        (STANDS, "", 5, &[Ending::Standstill]),
        (ECHO, "ab", 3, &[Ending::Done]),
        (WAITS, "", 2, &[]),
    ];
    let alloc = rt.alloc();
    for (text, input, states, endings) in cases {
        let report = explored(&rt, alloc, text, input, WIDE);
        assert!(rt; report.verdict == Verdict::All, "{text}");
        assert_eq!(rt; report.states, states, "{text}");
        assert_eq!(rt; report.found.len(), endings.len(), "{text}");
        for ending in endings {
            assert!(rt; has(&report, *ending), "{text}");
        }
    }
}

// The system of these runs is another than that of the search, with room for files. Each has as many turns as are told, and no more.
#[test]
fn each_record_runs_again(rt: HostRuntime) {
    let alloc = rt.alloc();
    for (text, input) in [
        (LOST, ""),
        (PETERSON, ""),
        (MONITOR, ""),
        (STANDS, ""),
        (ECHO, "ab"),
    ] {
        let code = code_of(&rt, alloc, text);
        let report = explored(&rt, alloc, text, input, WIDE);
        for found in &report.found {
            let mut calls = MemoryCalls::new(alloc, input.as_bytes(), 40).expect(&rt, "memory");
            let mut choices = Choices::list(alloc, &found.choices).expect(&rt, "memory");
            let mut kernel = Kernel::new(alloc).expect(&rt, "memory");
            let ending = kernel.run(&code, &mut calls, found.turns, &mut choices);
            assert!(rt; ending == found.ending, "{text}");
            assert_eq!(rt; kernel.turns_used(), found.turns, "{text}");
        }
    }
}

// Zeros at the end of the choices are left out: a standstill that comes whatever is chosen needs none.
#[test]
fn records_have_no_more_choices_than_they_need(rt: HostRuntime) {
    let alloc = rt.alloc();
    let report = explored(&rt, alloc, STANDS, "", WIDE);
    assert_eq!(rt; report.found.len(), 1);
    assert!(rt; report.found[0].choices.is_empty());
    for text in [LOST, PETERSON, MONITOR] {
        for found in &explored(&rt, alloc, text, "", WIDE).found {
            assert!(rt; found.choices.last() != Some(&0), "{text}");
        }
    }
}

// Of LOST one state may be kept: its first one, after the fork. A stint of the second step leads to another.
#[test]
fn limits_are_told(rt: HostRuntime) {
    let alloc = rt.alloc();
    let one = Limits {
        states: 1,
        turns: 1_000,
        shown: None,
    };
    let report = explored(&rt, alloc, LOST, "", one);
    assert!(rt; report.verdict == Verdict::Full(1));
    assert_eq!(rt; report.states, 2);
    let report = explored(&rt, alloc, FOREVER, "", WIDE);
    assert!(rt; report.verdict == Verdict::Cut(0));
    assert_eq!(rt; report.found.len(), 0);
}
