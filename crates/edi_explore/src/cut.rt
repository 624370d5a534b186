//! Choices that lead to a stint that goes on for too long.

ghost use Rattle.std.specs.Prelude.{◌≡◌, ◌<◌, ◌≤◌, true, length, IfOk, IfSome};
ghost use Rattle.edi_unit.specs.Tree.{ProgramUnit};
ghost use Rattle.edi_follows.specs.Theorem.{CanBeCoded};
ghost use Rattle.edi_explored.specs.machine.Kernels.{IsUnitCode};
ghost use Rattle.edi_explore.specs.Choices.{most_choices, most_turns};
ghost use Rattle.edi_explore.specs.Verdicts.{HasCause, IsConfirmed, IsCutAt, IsCutBy};

use crate::ends::Verdict;
use crate::finding::MOST_CHOICES;
use crate::moved::{round, run_counted};
use crate::offline::Offline;
use crate::record::{MOST_TURNS, are_choices};
use edi_kernel::{Ending, Kernel};
use edi_target::Code;
use edi_trace::Choices;
use std::alloc::{AllocError, Global};

/// How a run with a bound on its turns has ended: whether the bound has cut it, after how many moves, and with how many choices drawn.
#[derive(Clone, Copy)]
struct Bounded {
    cut: bool,
    moves: usize,
    drawn: u64,
}

impl Bounded {
    /// Whether the other run, which has a greater bound, was cut in the same stint as this one: no move was made and no choice drawn in between.
    fn goes_on_as(self, other: Bounded) -> bool
        ensures one { result ≡ true → self.cut ≡ true }
        ensures both { result ≡ true → other.cut ≡ true }
        ensures moves { result ≡ true → other.moves ≡ self.moves }
        ensures drawn { result ≡ true → other.drawn ≡ self.drawn }
    {
        if other.moves != self.moves {
            return false;
        }
        if other.drawn != self.drawn {
            return false;
        }
        if !self.cut {
            return false;
        }
        other.cut
    }
}

/// The turns before the first stint that has more than so many, if the run comes to one that begins before the turn 1,000,000,000. It is tried
/// with these turns whether that is so: nothing rests on the answer.
fn turns_before(
    kernel: &mut Kernel,
    code: &Code,
    calls: &mut Offline,
    turns: u64,
    choices: &mut Choices,
) -> Option<u64>
    requires working { calls.old.failed ≡ None }
    ensures inside { IfSome result (λ before. before < most_turns) }
{
    kernel.start(code);
    let mut moves: usize = 0;
    'rounds: loop {
        let before = kernel.turns_used();
        if before >= MOST_TURNS {
            return None;
        }
        let bound = before.saturating_add(turns);
        if let Some(ending) = round(kernel, code, calls, bound, choices, &mut moves) {
            if ending == Ending::Turns {
                return Some(before);
            }
            return None;
        }
    }
}

/// The run with these choices and at most so many turns. The only error is want of memory.
fn run_bounded(
    alloc: Global,
    kernel: &mut Kernel,
    code: &Code,
    input: &[u8],
    choices: &[u8],
    turns: u64,
) -> Result<Bounded, AllocError>
    ensures exact { (unit : ProgramUnit) → CanBeCoded unit → IsUnitCode unit code.now →
        IfOk result (λ b. b.cut ≡ true → IsCutAt turns unit input.now choices.now b.moves b.drawn) }
{
    let mut calls = Offline::new(alloc, input)?;
    let mut source = Choices::list(alloc, choices)?;
    let ran = run_counted(kernel, code, &mut calls, turns, &mut source);
    // No object outside is there to fail: memory ran out in a call.
    if ran.ending == Ending::Fault {
        return Err(AllocError);
    }
    Ok(Bounded {
        cut: ran.ending == Ending::Turns,
        moves: ran.moves,
        drawn: source.drawn(),
    })
}

/// Whether the run with these choices has a stint that begins behind so many turns, and has more than these. The only error is want of memory.
fn is_cut_behind(
    alloc: Global,
    kernel: &mut Kernel,
    code: &Code,
    input: &[u8],
    choices: &[u8],
    before: u64,
    turns: u64,
) -> Result<bool, AllocError>
    requires few { length choices.now ≤ most_choices }
    ensures exact { (unit : ProgramUnit) → CanBeCoded unit → IsUnitCode unit code.now →
        IfOk result (λ cut. cut ≡ true → IsCutBy turns unit input.now choices.now) }
{
    are_choices(choices);
    if turns > u64::MAX - before {
        return Ok(false);
    }
    let first = run_bounded(alloc, kernel, code, input, choices, before)?;
    let second = run_bounded(alloc, kernel, code, input, choices, before + turns)?;
    Ok(first.goes_on_as(second))
}

/// Whether the run with these choices has a stint of more than so many turns, and no more choices than a record has. The only error is want of
/// memory.
fn is_cut(
    alloc: Global,
    kernel: &mut Kernel,
    code: &Code,
    input: &[u8],
    choices: &[u8],
    turns: u64,
) -> Result<bool, AllocError>
    ensures exact { (unit : ProgramUnit) → CanBeCoded unit → IsUnitCode unit code.now →
        IfOk result (λ cut. cut ≡ true → IsCutBy turns unit input.now choices.now) }
{
    if choices.len() > MOST_CHOICES {
        return Ok(false);
    }
    let mut calls = Offline::new(alloc, input)?;
    let mut source = Choices::list(alloc, choices)?;
    match turns_before(kernel, code, &mut calls, turns, &mut source) {
        Some(before) => is_cut_behind(alloc, kernel, code, input, choices, before, turns),
        None => Ok(false),
    }
}

/// The verdict that a stint was cut, after so many moves, if the run with these choices has a stint of more than so many turns; else one that
/// says the same of endings. If memory runs out in that run it says so.
fn confirmed_cut(
    alloc: Global,
    kernel: &mut Kernel,
    code: &Code,
    input: &[u8],
    choices: &[u8],
    turns: u64,
    moves: usize,
) -> Verdict
    ensures same { IsConfirmed (Verdict.Cut moves) result }
    ensures cause { (unit : ProgramUnit) → CanBeCoded unit → IsUnitCode unit code.now → HasCause turns unit input.now result choices.now }
{
    match is_cut(alloc, kernel, code, input, choices, turns) {
        Ok(true) => Verdict::Cut(moves),
        Ok(false) => Verdict::Unrecorded(moves),
        Err(_) => Verdict::NoMemory(moves),
    }
}

/// The verdict again, where a cut is told only if the run with these choices has a stint of more than so many turns.
pub(crate) fn confirmed(
    alloc: Global,
    kernel: &mut Kernel,
    code: &Code,
    input: &[u8],
    choices: &[u8],
    turns: u64,
    verdict: Verdict,
) -> Verdict
    ensures same { IsConfirmed verdict result }
    ensures cause { (unit : ProgramUnit) → CanBeCoded unit → IsUnitCode unit code.now → HasCause turns unit input.now result choices.now }
{
    match verdict {
        Verdict::Cut(moves) => confirmed_cut(alloc, kernel, code, input, choices, turns, moves),
        Verdict::All => Verdict::All,
        Verdict::Full(moves) => Verdict::Full(moves),
        Verdict::Many(moves) => Verdict::Many(moves),
        Verdict::Unrecorded(moves) => Verdict::Unrecorded(moves),
        Verdict::NoMemory(moves) => Verdict::NoMemory(moves),
    }
}
