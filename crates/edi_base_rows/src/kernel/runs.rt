//! Codes that no compiler made, run by the kernel.

use edi_kernel::{Below, Ending, Kernel, Standing, StintEnd};
use edi_machine::Cause;
use edi_memory::MemoryCalls;
use edi_target::Code;
use edi_trace::Choices;
use std::alloc::{AllocError, Global};
use std::process::Abort;
use std::test::Fail;

/// A code with its call numbers, what it is run with, and what comes of it.
#[derive(Clone, Copy)]
struct Case<'a> {
    words: &'a [u16],
    numbers: &'a [u8],
    choices: &'a [u8],
    bound: u64,
    ending: Ending,
    turns: u64,
    drawn: u64,
    shown: &'a [u8],
}

fn with_calls(
    alloc: Global,
    code: &Code,
    choices: &mut Choices,
    calls: &mut MemoryCalls,
    case: Case<'_>,
) -> Result<bool, AllocError> {
    let mut kernel = Kernel::new(alloc)?;
    if calls.failed().is_some() {
        return Ok(false);
    }
    let ending = kernel.run(code, calls, case.bound, choices);
    Ok(ending == case.ending && kernel.turns_used() == case.turns)
}

fn with_choices(
    alloc: Global,
    code: &Code,
    choices: &mut Choices,
    case: Case<'_>,
) -> Result<bool, AllocError> {
    let mut calls = MemoryCalls::new(alloc, b"", 0)?;
    let ends = with_calls(alloc, code, choices, &mut calls, case)?;
    Ok(ends && calls.shown() == case.shown)
}

fn with_code(alloc: Global, code: &Code, case: Case<'_>) -> Result<bool, AllocError> {
    let mut choices = Choices::list(alloc, case.choices)?;
    let ends = with_choices(alloc, code, &mut choices, case)?;
    Ok(ends && choices.drawn() == case.drawn)
}

// The code of these words, whose entry is at address 0.
fn code_of(rt: &impl Abort, alloc: Global, words: &[u16], numbers: &[u8]) -> Result<Code, Fail> {
    assert!(rt; words.len() < 1000 && numbers.len() <= 10);
    Ok(Code::check(alloc, words.to_vec(alloc)?, 0, numbers)?)
}

// Whether the run of a code ends as the case says.
fn ends(rt: &impl Abort, alloc: Global, case: Case<'_>) -> Result<bool, Fail> {
    let code = code_of(rt, alloc, case.words, case.numbers)?;
    Ok(with_code(alloc, &code, case)?)
}

/// ENTRY 9 0 3 0 0; CONST 97; CALLP 0 5 1; RETURN 0 0.
const LETTER: [u16; 15] = [33, 9, 0, 3, 0, 0, 1, 97, 35, 0, 5, 1, 37, 0, 0];

/// The same with QUIET 0 12 in place of RETURN.
const QUIET: [u16; 15] = [33, 9, 0, 3, 0, 0, 1, 97, 35, 0, 5, 1, 44, 0, 12];

/// At 22 a TEXT with the words of ENTRY 5 0 0 0 0; QUIET 0 30. The descriptor in words 5 to 7 of the frame is 0, 24 and the
/// frame itself, so that CALLP enters the first of them.
const INSIDE: [u16; 33] = [
    33, 12, 0, 0, 3, 0, 4, 0, 5, 1, 0, 1, 24, 4, 0, 0, 8, 3, 35, 0, 5, 1, 2, 9, 33, 5, 0, 0, 0, 0,
    44, 0, 30,
];

/// main calls p, which calls itself at line 2, and so on.
const RECURSION: [u16; 28] = [
    33, 8, 0, 3, 0, 0, 34, 0, 0, 14, 2, 37, 0, 0, 33, 5, 0, 0, 0, 0, 34, 0, 0, 14, 2, 37, 0, 0,
];

/// `when false do skip end`: at 17 a QUIET.
const ALONE: [u16; 23] = [
    33, 6, 0, 0, 0, 0, 39, 1, 1, 0, 29, 0, 17, 41, 28, 0, 20, 44, 0, 8, 37, 0, 0,
];

/// The same, where the condition calls a function: at 17 a RETRY.
const RETRIED: [u16; 23] = [
    33, 6, 0, 0, 0, 0, 39, 1, 1, 0, 29, 0, 17, 41, 28, 0, 20, 40, 0, 8, 37, 0, 0,
];

/// Two branches, each `when false do skip end`.
const TOGETHER: [u16; 33] = [
    33, 5, 0, 0, 0, 0, 42, 2, 1, 6, 0, 18, 6, 0, 18, 37, 0, 0, 39, 1, 1, 0, 29, 0, 29, 41, 28, 0,
    32, 44, 0, 20, 43,
];

/// Two branches, `when true do display('a') end` and `when true do display('b') end`.
const LETTERS: [u16; 60] = [
    33, 8, 0, 3, 0, 0, 42, 2, 1, 6, 0, 18, 6, 0, 39, 37, 0, 0, 39, 1, 1, 1, 29, 0, 35, 1, 97, 35,
    1, 5, 1, 41, 28, 0, 38, 44, 0, 20, 43, 39, 1, 1, 1, 29, 0, 56, 1, 98, 35, 1, 5, 1, 41, 28, 0,
    59, 44, 0, 41, 43,
];

#[test]
fn runs_end_as_worked_out(rt: HostRuntime) -> Result<(), Fail> {
    let cases: [(&[u16], &[u8], &[u8], u64, Ending, u64, u64, &[u8]); 18] = [
        (&LETTER, &[2], &[], 1000, Ending::Done, 2, 0, b"a"),
        (&LETTER, &[2], &[], 2, Ending::Done, 2, 0, b"a"),
        (&LETTER, &[2], &[], 1, Ending::Turns, 1, 0, b"a"),
        (&LETTER, &[2], &[], 0, Ending::Turns, 0, 0, b""),
        // 13,105 frames of five words find room behind the first eight words
        (
            &RECURSION,
            &[2],
            &[],
            1_000_000,
            Ending::Failed(Cause::VariableLimit, 2),
            13_106,
            0,
            b"",
        ),
        (&ALONE, &[], &[], 10, Ending::Standstill, 3, 0, b""),
        (&ALONE, &[], &[], 2, Ending::Turns, 2, 0, b""),
        (&RETRIED, &[], &[], 10, Ending::Turns, 10, 0, b""),
        (&TOGETHER, &[], &[], 100, Ending::Standstill, 6, 4, b""),
        (&TOGETHER, &[], &[], 5, Ending::Turns, 5, 4, b""),
        (&LETTERS, &[2], &[], 100, Ending::Done, 7, 3, b"ab"),
        (&LETTERS, &[2], &[0, 0, 1], 100, Ending::Done, 7, 3, b"ba"),
        (&LETTERS, &[2], &[1], 100, Ending::Done, 7, 3, b"ba"),
        (&LETTERS, &[2], &[], 6, Ending::Turns, 6, 3, b"ab"),
        // HALT 7
        (
            &[33, 5, 0, 0, 0, 0, 38, 7],
            &[],
            &[],
            9,
            Ending::Halted(7),
            1,
            0,
            b"",
        ),
        // a push for which the frame has no room
        (
            &[33, 5, 0, 0, 0, 0, 1, 97],
            &[],
            &[],
            9,
            Ending::Bad(6),
            1,
            0,
            b"",
        ),
        // the QUIET at 12 wants held 1
        (&QUIET, &[2], &[], 9, Ending::Bad(12), 1, 0, b"a"),
        // the call enters an ENTRY inside a TEXT, and behind it stands a QUIET
        (&INSIDE, &[], &[], 9, Ending::Bad(30), 2, 0, b""),
    ];
    for (words, numbers, choices, bound, ending, turns, drawn, shown) in cases {
        let case = Case {
            words,
            numbers,
            choices,
            bound,
            ending,
            turns,
            drawn,
            shown,
        };
        assert!(rt;
            ends(&rt, rt.alloc(), case)?,
            "{words:?} {choices:?} {bound}"
        );
    }
    Ok(())
}

// A COBEGIN at line 2 of so many branches `skip`, at most 100.
fn with_branches(alloc: Global, count: u16) -> Result<Vec<u16>, AllocError> {
    let count = count.min(100);
    let exit = count.saturating_mul(3).saturating_add(12);
    let mut words = Vec::from_slice(alloc, &[33, 5, 0, 0, 0, 0, 42, count, 2])?;
    for _branch in 0..count {
        words.extend_from_slice(&[5, 0, exit])?;
    }
    words.extend_from_slice(&[37, 0, 0, 43])?;
    Ok(words)
}

#[test]
fn as_many_as_32_processes_live(rt: HostRuntime) -> Result<(), Fail> {
    let cases = [
        (1, Ending::Done, 4, 0),
        (31, Ending::Done, 34, 30),
        (32, Ending::Failed(Cause::ProcessLimit, 2), 1, 0),
    ];
    for (count, ending, turns, drawn) in cases {
        let words = with_branches(rt.alloc(), count)?;
        let case = Case {
            words: &words,
            numbers: &[],
            choices: &[],
            bound: 1000,
            ending,
            turns,
            drawn,
            shown: b"",
        };
        assert!(rt; ends(&rt, rt.alloc(), case)?, "{count}");
    }
    Ok(())
}

// Whether a first stint forks, in two turns, and a second one, with a choice between them, comes to a `when`, in one turn more.
fn are_stints(
    kernel: &mut Kernel,
    code: &Code,
    calls: &mut MemoryCalls,
    choices: &mut Choices,
) -> bool {
    if kernel.is_taken() || calls.failed().is_some() {
        return false;
    }
    kernel.start(code);
    let StintEnd::Forked { used } = kernel.stint(code, calls, 100) else {
        return false;
    };
    if used != 2 || kernel.ready() != 2 || kernel.standing().is_some() {
        return false;
    }
    kernel.choose(choices);
    if calls.failed().is_some() {
        return false;
    }
    kernel.stint(code, calls, 98) == StintEnd::Arrived { used: 1 }
}

// Whether the last of two ready processes is the first child, at its `when`. Of its one frame, which leads to none below it, the five
// words before its variables count.
fn is_kept(alloc: Global, kernel: &Kernel) -> Result<bool, AllocError> {
    let Some(slot) = kernel.ready_slot(1) else {
        return Ok(false);
    };
    if !kernel.lives(slot) {
        return Ok(false);
    }
    let kept = kernel.keep(alloc, slot)?;
    let places = [
        kept.first, kept.last, kept.base, kept.end, kept.top, kept.pc,
    ];
    let stands = kept.slot == slot && kept.parent == 0 && kept.standing == Standing::AtWhen;
    let is_whole = kept.ready && kept.held == 0 && kept.words.as_slice() == [0; 5].as_slice();
    Ok(stands && is_whole && places == [8, 32_772, 8, 14, 13, 20])
}

// Whether there are two such stints, with one choice drawn, and three turns used. At 8 is then the parent's base, and four words
// of zeros.
fn two_stints(alloc: Global, code: &Code, choices: &mut Choices) -> Result<bool, AllocError> {
    let mut calls = MemoryCalls::new(alloc, b"", 0)?;
    let mut kernel = Kernel::new(alloc)?;
    let holds = are_stints(&mut kernel, code, &mut calls, choices);
    let told = (choices.drawn(), kernel.turns_used(), kernel.word(8));
    let kept = is_kept(alloc, &kernel)?;
    Ok(holds && kept && told == (1, 3, 0) && kernel.standing().is_some())
}

#[test]
fn stints_follow_one_another(rt: HostRuntime) -> Result<(), Fail> {
    let code = code_of(&rt, rt.alloc(), &LETTERS, &[2])?;
    let mut choices = Choices::list(rt.alloc(), &[])?;
    let found = two_stints(rt.alloc(), &code, &mut choices)?;
    assert!(rt; found);
    Ok(())
}

/// main calls p at 14, on line 2, and goes on at 11. p stands at a `when` whose condition is false.
const CALLED: [u16; 37] = [
    33, 5, 0, 0, 0, 0, 34, 0, 0, 14, 2, 37, 0, 0, 33, 6, 0, 0, 0, 0, 39, 1, 1, 0, 29, 0, 31, 41,
    28, 0, 34, 44, 0, 22, 37, 0, 0,
];

// Whether this is the frame that begins at 0, in use up to 5, which goes on at 11.
fn is_main(frame: Option<Below>) -> bool {
    match frame {
        Some(frame) => frame.base == 0 && frame.top == 5 && frame.back == 11,
        None => false,
    }
}

// Whether the first process is taken, and comes to a `when` in a frame above that of main, below which there is none.
fn stands_above_main(kernel: &mut Kernel, code: &Code, calls: &mut MemoryCalls) -> bool {
    kernel.start(code);
    if kernel.taken() != Some(0) || calls.failed().is_some() {
        return false;
    }
    let _arrived = kernel.stint(code, calls, 100);
    let Some(standing) = kernel.standing() else {
        return false;
    };
    let places = (standing.segment.first, standing.base, standing.pc);
    if places != (0, 5, 22) || kernel.taken().is_some() {
        return false;
    }
    is_main(kernel.below(0, 5)) && kernel.below(0, 0).is_none()
}

#[test]
fn frames_lead_down(rt: HostRuntime) -> Result<(), Fail> {
    let code = code_of(&rt, rt.alloc(), &CALLED, &[])?;
    let mut calls = MemoryCalls::new(rt.alloc(), b"", 0)?;
    let mut kernel = Kernel::new(rt.alloc())?;
    assert!(rt; stands_above_main(&mut kernel, &code, &mut calls));
    Ok(())
}

// Whether the process at this slot stands at its `when` at this address, and the last stint left it there.
fn stands_at(kernel: &Kernel, slot: usize, at: u32) -> bool {
    if slot >= 32 {
        return false;
    }
    let (standing, activity) = kernel.process(slot);
    let told = kernel.standing_at() == Some(at);
    standing == Standing::AtWhen && activity.pc == at && told
}

// Whether the one process comes to its `when`, which is no failed attempt, and in its next stint to a standstill, which is one.
fn waits_for_ever(
    kernel: &mut Kernel,
    code: &Code,
    calls: &mut MemoryCalls,
    choices: &mut Choices,
) -> bool {
    kernel.start(code);
    if kernel.taken() != Some(0) || kernel.failed() || calls.failed().is_some() {
        return false;
    }
    let _arrived = kernel.stint(code, calls, 100);
    if kernel.taken().is_some() || kernel.failed() || kernel.ready() != 1 {
        return false;
    }
    kernel.choose(choices);
    if calls.failed().is_some() {
        return false;
    }
    let end = kernel.stint(code, calls, 50);
    let ended = match end {
        StintEnd::Over { ending, .. } => ending == Ending::Standstill,
        _ => false,
    };
    ended && kernel.failed() && stands_at(kernel, 0, 22)
}

#[test]
fn a_standstill_is_a_failed_attempt(rt: HostRuntime) -> Result<(), Fail> {
    let code = code_of(&rt, rt.alloc(), &CALLED, &[])?;
    let mut calls = MemoryCalls::new(rt.alloc(), b"", 0)?;
    let mut choices = Choices::list(rt.alloc(), &[])?;
    let mut kernel = Kernel::new(rt.alloc())?;
    assert!(rt; waits_for_ever(&mut kernel, &code, &mut calls, &mut choices));
    Ok(())
}
