//! The choices that bring an ending about.

ghost use Rattle.std.specs.Prelude.{◌≡◌, ◌<◌, [], length, reverse, IfOk, IfSome, OnOk};
ghost use Rattle.edi_waits.specs.Told.{all_of};
ghost use Rattle.edi_unit.specs.Tree.{ProgramUnit};
ghost use Rattle.edi_follows.specs.Theorem.{CanBeCoded};
ghost use Rattle.edi_explored.specs.machine.Kernels.{IsUnitCode};
ghost use Rattle.edi_explore.specs.Found.{AreChoices, RunsWith, StandsWith, TellsWaits, is_standstill};
ghost use Rattle.edi_explore.specs.States.{AreStates, slots_of};
ghost use Rattle.edi_explore.specs.Records.{noted, trail};

use crate::ends::Found;
use crate::moved::run_counted;
use crate::offline::Offline;
use crate::states::{Origin, States};
use edi_kernel::{Ending, Kernel};
use edi_target::Code;
use edi_trace::Choices;
use edi_waits::{Wait, stand_still};
use std::alloc::{AllocError, Global};

/// The turns of a run that is recorded.
pub(crate) const MOST_TURNS: u64 = 1_000_000_000;

/// Appends the index that was taken of so many ready ones, unless it was taken without a choice. Zeros in front are left out.
fn note(choices: &mut Vec<u8>, ready: usize, index: u8) -> Result<(), AllocError>
    ensures { OnOk result (choices.new.items ≡ noted ready index choices.old.items) }
{
    if ready < 2 {
        return Ok(());
    }
    if index == 0 && choices.is_empty() {
        return Ok(());
    }
    choices.push(index)?;
    Ok(())
}

/// The choices that lead to a state, and then the one that takes the process at the index there. Zeros at the end are left out: after the
/// end of a list each choice is 0.
pub(crate) fn choices_to(
    alloc: Global,
    states: &States,
    origin: Origin,
) -> Result<Vec<u8>, AllocError>
    requires states { AreStates states.now }
    requires state { origin.state < length states.now.keys.keys }
    ensures { IfOk result (λ choices. choices.items ≡ reverse (trail states.now (length states.now.keys.keys) origin [])) }
{
    let mut choices = Vec::new(alloc);
    let mut at = origin;
    for _ in 0..states.len() {
        let state = at.state as usize;
        note(&mut choices, states.ready(state), at.index)?;
        if state == 0 {
            choices.reverse();
            return Ok(choices);
        }
        at = states.origin(state);
    }
    choices.reverse();
    Ok(choices)
}

/// Bytes are choices.
pub(crate) fn are_choices(choices: &[u8])
    ensures { AreChoices choices.now }
{}

/// The run with these choices and at most so many turns. What is found is how it ended, and after how many moves.
pub(crate) fn run(
    alloc: Global,
    kernel: &mut Kernel,
    code: &Code,
    input: &[u8],
    choices: Vec<u8>,
    turns: u64,
) -> Result<Found, AllocError>
    ensures exact { (unit : ProgramUnit) → CanBeCoded unit → IsUnitCode unit code.now →
        IfOk result (RunsWith turns unit input.now choices.items) }
    ensures nobody { IfOk result (λ found. found.waits.items ≡ []) }
{
    are_choices(&choices);
    let mut calls = Offline::new(alloc, input)?;
    let mut source = Choices::list(alloc, &choices)?;
    let ran = run_counted(kernel, code, &mut calls, turns, &mut source);
    Ok(Found {
        ending: ran.ending,
        choices,
        turns: kernel.turns_used(),
        moves: ran.moves,
        shown: calls.into_shown(),
        waits: Vec::new(alloc),
    })
}

/// Whether an ending is a standstill.
fn is_standstill(ending: Ending) -> bool
    ensures { result ≡ is_standstill ending }
{
    match ending {
        Ending::Standstill => true,
        Ending::Done
        | Ending::Halted(_)
        | Ending::Failed(_, _)
        | Ending::Turns
        | Ending::Bad(_)
        | Ending::Fault => false,
    }
}

/// Who waits where at the end of the run with these choices, if it is a standstill. The only error is want of memory.
fn waits_of(
    alloc: Global,
    kernel: &mut Kernel,
    code: &Code,
    input: &[u8],
    choices: &[u8],
) -> Result<Option<Vec<Wait>>, AllocError>
    ensures exact { IfOk result (λ waits. IfSome waits (λ waits. StandsWith code.now input.now choices.now (all_of waits))) }
{
    let mut calls = Offline::new(alloc, input)?;
    let mut source = Choices::list(alloc, choices)?;
    stand_still(alloc, kernel, code, &mut calls, MOST_TURNS, &mut source)
}

/// What was found, with who waits where. If it is a standstill, the run is made once more.
/// The only error is want of memory.
pub(crate) fn finished(
    alloc: Global,
    kernel: &mut Kernel,
    code: &Code,
    input: &[u8],
    found: Found,
) -> Result<Found, AllocError>
    requires none { found.waits.items ≡ [] }
    ensures same { IfOk result (λ told. told ≡ record found { waits = told.waits }) }
    ensures waits { IfOk result (TellsWaits code.now input.now) }
{
    let mut told = found;
    if is_standstill(told.ending) {
        let Some(waits) = waits_of(alloc, kernel, code, input, &told.choices)? else {
            // It stood still just now: memory ran out in a call.
            return Err(AllocError);
        };
        told.waits = waits;
    }
    Ok(told)
}
