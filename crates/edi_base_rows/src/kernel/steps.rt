//! Codes, run by a loop over `step` for one process.

ghost use Rattle.std.specs.Prelude.{◌≡◌, None};
ghost use Rattle.edi_memory.specs.MemoryCalls.{failed_of};
ghost use Rattle.edi_machine.specs.Activities.{IsOrdered};

use edi_machine::{Activity, Cause, StepEnd, TurnKind, begin, branch, step};
use edi_memory::MemoryCalls;
use edi_store::{Segment, Store};
use edi_target::Code;
use std::alloc::{AllocError, Global};
use std::process::Abort;
use std::test::Fail;

/// The most instructions that one of these codes is given.
const MOST: u32 = 100_000;

// The end of a process that runs alone, as the first one. It is taken at each `when` at once.
fn run_alone(
    store: &mut Store,
    activity: &mut Activity,
    code: &Code,
    calls: &mut MemoryCalls,
) -> StepEnd
    requires working { failed_of calls.old ≡ None }
    requires ordered { IsOrdered activity.old }
{
    for _ in 0..MOST {
        match step(store, activity, code, 1, true, calls) {
            StepEnd::On => {}
            StepEnd::Turn(TurnKind::Enter) => {}
            StepEnd::Turn(TurnKind::End) => {}
            StepEnd::Turn(TurnKind::Loop) => {}
            StepEnd::Turn(TurnKind::Arrive) => activity.held = 1,
            StepEnd::Turn(kind) => return StepEnd::Turn(kind),
            StepEnd::Fail(cause, line) => return StepEnd::Fail(cause, line),
            StepEnd::Bad(at) => return StepEnd::Bad(at),
            StepEnd::Fault => return StepEnd::Fault,
        }
    }
    StepEnd::On
}

// The code of these words, whose entry is at address 0.
fn code_of(rt: &impl Abort, alloc: Global, words: &[u16], numbers: &[u8]) -> Result<Code, Fail> {
    assert!(rt; words.len() < 100 && numbers.len() <= 10);
    Ok(Code::check(alloc, words.to_vec(alloc)?, 0, numbers)?)
}

// The end of a program; nothing where a call has failed before.
fn end_of(
    alloc: Global,
    code: &Code,
    calls: &mut MemoryCalls,
) -> Result<Option<StepEnd>, AllocError> {
    let mut store = Store::new(alloc)?;
    if calls.failed().is_some() {
        return Ok(None);
    }
    let mut activity = begin(&mut store, code);
    Ok(Some(run_alone(&mut store, &mut activity, code, calls)))
}

// Whether a program ends so over this input, and has then shown this.
fn ends(
    alloc: Global,
    code: &Code,
    input: &[u8],
    end: StepEnd,
    shown: &[u8],
) -> Result<bool, AllocError> {
    let mut calls = MemoryCalls::new(alloc, input, 64)?;
    let found = end_of(alloc, code, &mut calls)?;
    Ok(found == Some(end) && calls.shown() == shown)
}

#[test]
fn codes_run(rt: HostRuntime) -> Result<(), Fail> {
    let done = StepEnd::Turn(TurnKind::ProgramEnd);
    let cases: [(&str, &[u16], &[u8], &[u8], StepEnd, &[u8]); 20] = [
        (
            "display(\"a\")",
            &[33, 9, 0, 3, 0, 0, 1, 97, 35, 0, 5, 1, 37, 0, 0],
            &[2],
            b"",
            done,
            b"a",
        ),
        (
            "a character is accepted and displayed",
            &[
                33, 13, 0, 6, 1, 0, 4, 0, 11, 35, 0, 5, 1, 4, 0, 11, 7, 1, 35, 0, 8, 1, 37, 0, 0,
            ],
            &[1, 2],
            b"x",
            done,
            b"x",
        ),
        (
            "a sum",
            &[33, 10, 0, 3, 0, 0, 1, 48, 1, 7, 9, 1, 35, 0, 5, 1, 37, 0, 0],
            &[2],
            b"",
            done,
            b"7",
        ),
        (
            "the sum 32767 + 1",
            &[33, 7, 0, 0, 0, 0, 1, 32767, 1, 1, 9, 4, 37, 0, 0],
            &[],
            b"",
            StepEnd::Fail(Cause::Range, 4),
            b"",
        ),
        (
            "a quotient by 0",
            &[33, 7, 0, 0, 0, 0, 1, 1, 1, 0, 12, 9, 37, 0, 0],
            &[],
            b"",
            StepEnd::Fail(Cause::Range, 9),
            b"",
        ),
        (
            "an element of 3 words: index 2 of those from 1 on, at 8 + 3",
            &[
                33, 15, 0, 3, 4, 0, 4, 0, 8, 1, 2, 6, 1, 10, 3, 7, 1, 98, 8, 1, 4, 0, 11, 7, 1, 35,
                0, 5, 1, 37, 0, 0,
            ],
            &[2],
            b"",
            done,
            b"b",
        ),
        (
            "an index above its range",
            &[33, 7, 0, 0, 0, 0, 4, 0, 5, 1, 11, 6, 1, 10, 3, 7, 37, 0, 0],
            &[],
            b"",
            StepEnd::Fail(Cause::Range, 7),
            b"",
        ),
        (
            "5 is a member of the set with 5",
            &[
                33, 25, 0, 3, 0, 0, 1, 5, 3, 8, 1, 5, 26, 1, 25, 1, 48, 9, 1, 35, 0, 5, 1, 37, 0, 0,
            ],
            &[2],
            b"",
            done,
            b"1",
        ),
        (
            "128 can be no member",
            &[33, 14, 0, 0, 0, 0, 3, 8, 1, 128, 26, 6, 37, 0, 0],
            &[],
            b"",
            StepEnd::Fail(Cause::Range, 6),
            b"",
        ),
        (
            "halt",
            &[33, 5, 0, 0, 0, 0, 38, 3, 37, 0, 0],
            &[],
            b"",
            StepEnd::Fail(Cause::Halt, 3),
            b"",
        ),
        (
            "a sum of no words",
            &[33, 7, 0, 0, 0, 0, 9, 7, 37, 0, 0],
            &[],
            b"",
            StepEnd::Bad(6),
            b"",
        ),
        (
            "a push without room",
            &[33, 5, 0, 0, 0, 0, 1, 7, 37, 0, 0],
            &[],
            b"",
            StepEnd::Bad(6),
            b"",
        ),
        (
            "a procedure calls itself without end",
            &[33, 5, 0, 0, 0, 0, 34, 0, 0, 0, 4, 37, 0, 0],
            &[],
            b"",
            StepEnd::Fail(Cause::VariableLimit, 4),
            b"",
        ),
        (
            "a function of one parameter gives the number above it",
            &[
                33, 9, 0, 3, 0, 0, 1, 64, 34, 0, 0, 20, 1, 35, 0, 5, 1, 37, 0, 0, 33, 10, 1, 1, 0,
                1, 4, 0, 5, 4, 0, 6, 7, 1, 1, 1, 9, 2, 8, 1, 37, 1, 1,
            ],
            &[2],
            b"",
            done,
            b"A",
        ),
        (
            "a `when` whose condition is true",
            &[33, 9, 0, 3, 0, 0, 39, 1, 41, 1, 99, 35, 0, 5, 1, 37, 0, 0],
            &[2],
            b"",
            done,
            b"c",
        ),
        (
            "a `when` in a `when`",
            &[33, 5, 0, 0, 0, 0, 39, 1, 39, 2, 41, 37, 0, 0],
            &[],
            b"",
            StepEnd::Fail(Cause::Held, 2),
            b"",
        ),
        (
            "an attempt that fails",
            &[33, 5, 0, 0, 0, 0, 39, 1, 44, 0, 6, 37, 0, 0],
            &[],
            b"",
            StepEnd::Turn(TurnKind::Again(true)),
            b"",
        ),
        (
            "a branch that needs more than the share of the room",
            &[33, 5, 0, 0, 0, 0, 42, 2, 3, 5, 0, 15, 32766, 0, 15, 43],
            &[],
            b"",
            StepEnd::Fail(Cause::VariableLimit, 3),
            b"",
        ),
        (
            "a file is read that was not found",
            &[33, 9, 0, 3, 0, 0, 4, 0, 5, 35, 0, 5, 8, 37, 0, 0],
            &[6],
            b"",
            StepEnd::Fail(Cause::NoFile, 8),
            b"",
        ),
        (
            "the end of the input is character 25",
            &[
                33, 13, 0, 6, 1, 0, 4, 0, 11, 35, 0, 5, 1, 4, 0, 11, 7, 1, 35, 0, 8, 1, 37, 0, 0,
            ],
            &[1, 2],
            b"",
            done,
            &[25],
        ),
    ];
    for (what, words, numbers, input, end, shown) in cases {
        let code = code_of(&rt, rt.alloc(), words, numbers)?;
        assert!(rt; ends(rt.alloc(), &code, input, end, shown)?, "{what}");
    }
    Ok(())
}

/// Where a program forks in its first step, and where it goes on; its first branch, and how the first step of that ends.
type Forked = (u32, u32, Activity, StepEnd);

fn fork_of(store: &mut Store, code: &Code, calls: &mut MemoryCalls) -> Option<Forked> {
    if calls.failed().is_some() {
        return None;
    }
    let mut parent = begin(store, code);
    let StepEnd::Turn(TurnKind::Fork(at)) = step(store, &mut parent, code, 1, true, calls) else {
        return None;
    };
    let child = branch(store, &parent, code, at, 0);
    let mut goes_on = child;
    let end = step(store, &mut goes_on, code, 3, false, calls);
    Some((at, parent.pc, child, end))
}

fn fork_in(alloc: Global, code: &Code) -> Result<Option<Forked>, AllocError> {
    let mut store = Store::new(alloc)?;
    let mut calls = MemoryCalls::new(alloc, b"", 64)?;
    Ok(fork_of(&mut store, code, &mut calls))
}

#[test]
fn branches_begin(rt: HostRuntime) -> Result<(), Fail> {
    // a COBEGIN of two branches, which end at once
    let words = [33, 5, 0, 0, 0, 0, 42, 2, 3, 5, 0, 15, 7, 0, 15, 43];
    let code = code_of(&rt, rt.alloc(), &words, &[])?;
    let child = Activity {
        base: 5,
        end: 10,
        top: 10,
        pc: 15,
        segment: Segment {
            first: 5,
            last: 5 + 32_765,
        },
        held: 0,
    };
    let expected = (6, 15, child, StepEnd::Turn(TurnKind::Exit));
    assert!(rt; fork_in(rt.alloc(), &code)? == Some(expected));
    Ok(())
}
