//! One stint from a state.

ghost use Rattle.std.specs.Prelude.{◌≡◌, ◌<◌, ◌≤◌, None, false, length, IfErr, IfOk, OnOk};
ghost use Rattle.edi_explore.specs.Shown.{asks_of};
ghost use Rattle.edi_kernel.specs.Kernel.{IsKernel, is_over};
ghost use Rattle.edi_explore.specs.States.{AreStates, MayComeFrom, slots_of};
ghost use Rattle.edi_explore.specs.Steps.{EndsSo, FollowedAs, FollowsStint, GoesOn};

use crate::ends::Limits;
use crate::offline::Offline;
use crate::states::{Origin, States};
use edi_kernel::{Ending, Kernel, StintEnd};
use edi_target::Code;
use std::alloc::{AllocError, Global};

/// How a stint was followed.
#[derive(Clone, Copy)]
pub(crate) enum Followed {
    /// The run has ended: neither by its turns, nor by a standstill, nor because an object outside failed.
    Ended(Ending),
    /// The stint has used up its turns.
    Cut,
    /// The process has only failed an attempt.
    Failed,
    /// The state to which it leads is kept.
    Led,
}

/// Why a search gives up.
#[derive(Clone, Copy, Debug, PartialEq, Eq)]
pub(crate) enum GivenUp {
    /// As many states are kept as may be, and there is one more.
    Full,
    /// As many endings are found as may be.
    Many,
    /// Memory ran out.
    NoMemory,
}

impl From<AllocError> for GivenUp {
    ghost use Rattle.std.specs.Prelude.{◌≡◌};
    ghost use Rattle.edi_explore.specs.declared.step.GivenUp.TheVariants as given_up;

    ghost from_gives = { λ _ g. g ≡ given_up.NoMemory };

    fn from(_error: AllocError) -> GivenUp {
        GivenUp::NoMemory
    }
}

/// How a stint is followed that has ended the run. A fault of the system is want of memory, and the only error.
fn ended(ending: Ending) -> Result<Followed, AllocError>
    ensures { IfOk result (EndsSo ending) }
{
    match ending {
        Ending::Turns => Ok(Followed::Cut),
        Ending::Standstill => Ok(Followed::Failed),
        Ending::Fault => Err(AllocError),
        Ending::Done => Ok(Followed::Ended(Ending::Done)),
        Ending::Halted(line) => Ok(Followed::Ended(Ending::Halted(line))),
        Ending::Failed(cause, line) => Ok(Followed::Ended(Ending::Failed(cause, line))),
        Ending::Bad(address) => Ok(Followed::Ended(Ending::Bad(address))),
    }
}

/// Follows a stint that has ended so. The process was taken at this origin. The errors are want of memory, and as many states as may be.
pub(crate) fn settle(
    alloc: Global,
    states: &mut States,
    kernel: &Kernel,
    calls: &Offline,
    origin: Origin,
    end: StintEnd,
    limits: Limits,
) -> Result<Followed, GivenUp>
    requires states { AreStates states.old }
    requires origin { MayComeFrom states.old origin }
    requires kernel { IsKernel kernel.now }
    requires free { is_over end ≡ false → kernel.now.taken ≡ None }
    requires few { length states.old.keys.keys ≤ limits.states }
    ensures follows { IfOk result (λ followed. FollowedAs (asks_of limits) origin.state followed end states.old states.new kernel.now calls.now) }
    ensures full { IfErr result (λ given_up. given_up ≡ GivenUp.Full → limits.states ≤ length states.new.keys.keys) }
    ensures few_found { IfErr result (λ given_up. given_up ≡ GivenUp.Many → ⊥) }
    ensures few { length states.new.keys.keys ≤ limits.states }
    ensures grows { length states.old.keys.keys ≤ length states.new.keys.keys }
{
    if let StintEnd::Over { ending, .. } = end {
        return Ok(ended(ending)?);
    }
    if kernel.marked() > 0 {
        return Ok(Followed::Failed);
    }
    if !states.add(alloc, kernel, calls, origin, limits)? {
        return Err(GivenUp::Full);
    }
    Ok(Followed::Led)
}

/// The process at this index of the ready ones goes on from a state, with at most so many turns. The only error is want of memory.
pub(crate) fn step(
    states: &States,
    kernel: &mut Kernel,
    code: &Code,
    calls: &mut Offline,
    state: usize,
    index: usize,
    turns: u64,
) -> Result<StintEnd, AllocError>
    requires states { AreStates states.now }
    requires state { state < length states.now.keys.keys }
    requires index { index < length (slots_of states.now state) }
    ensures goes { IfOk result (λ end. GoesOn states.now code.now turns state index end kernel.new calls.new) }
    ensures input { OnOk result (calls.new.input ≡ calls.old.input) }
{
    states.put_back(kernel, calls, state)?;
    kernel.take(index);
    let end = kernel.stint(code, calls, turns);
    let _whole = kernel.word(0);
    Ok(end)
}

/// Follows the stint of the process at an index from a state.
pub(crate) fn follow(
    alloc: Global,
    states: &mut States,
    kernel: &mut Kernel,
    code: &Code,
    calls: &mut Offline,
    origin: Origin,
    limits: Limits,
) -> Result<Followed, GivenUp>
    requires states { AreStates states.old }
    requires state { origin.state < length states.old.keys.keys }
    requires index { origin.index < length (slots_of states.old origin.state) }
    requires few { length states.old.keys.keys ≤ limits.states }
    ensures follows { IfOk result (λ followed.
        FollowsStint code.now limits origin.state origin.index followed states.old states.new kernel.new calls.new) }
    ensures full { IfErr result (λ given_up. given_up ≡ GivenUp.Full → limits.states ≤ length states.new.keys.keys) }
    ensures few_found { IfErr result (λ given_up. given_up ≡ GivenUp.Many → ⊥) }
    ensures few { length states.new.keys.keys ≤ limits.states }
    ensures grows { length states.old.keys.keys ≤ length states.new.keys.keys }
    ensures input { OnOk result (calls.new.input ≡ calls.old.input) }
{
    let state = origin.state as usize;
    let index = usize::from(origin.index);
    let end = step(states, kernel, code, calls, state, index, limits.turns)?;
    settle(alloc, states, kernel, calls, origin, end, limits)
}
