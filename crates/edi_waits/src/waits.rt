//! Processes that wait.

ghost use Rattle.std.specs.Prelude.{◌≡◌, ◌<◌, ◌&&◌, ℕ, None, IfOk, IfSome};
ghost use Rattle.edi_calls.specs.State.{State};
ghost use Rattle.edi_trace.specs.Drawn.{Drawn};
ghost use Rattle.edi_kernel.specs.Table.{is_live, process_at};
ghost use Rattle.edi_waits.specs.Names.{is_at_when, waiting_at, waiting_below};
ghost use Rattle.edi_waits.specs.Runs.{EndsNamed};
ghost use Rattle.edi_waits.specs.Told.{all_of, waiting_of};
ghost use Rattle.edi_waits.specs.Waits.{StandsSo};

use crate::births::{Branch, Names, SLOTS};
use crate::places::place_of;
use edi_kernel::{Ending, Kernel, Standing};
use edi_target::Code;
use std::alloc::{AllocError, Global};

/// A process that waits at a `when`.
#[derive(Drop)]
pub struct Wait {
    /// Its name: whose child of whose child it is, from the first process down, which has the empty name.
    pub process: Vec<Branch>,
    /// The line of its `when`, and those of the calls that lead there, the innermost first; at most five.
    pub lines: Vec<u16>,
}

/// Whether a process stands at its `when`.
fn is_at_when(standing: Standing) -> bool
    ensures { result ≡ is_at_when standing }
{
    match standing {
        Standing::AtWhen => true,
        Standing::Ready | Standing::Waiting(_) => false,
    }
}

/// The process at this slot, which waits. The only error is want of memory.
fn wait_of(
    alloc: Global,
    kernel: &Kernel,
    code: &Code,
    names: &Names,
    slot: usize,
) -> Result<Wait, AllocError>
    requires slot { slot < 32 }
    ensures exact { IfOk result (λ wait. waiting_of wait ≡ waiting_at code.now.words kernel.now.store names.now kernel.now.table slot) }
{
    let (_standing, activity) = kernel.process(slot);
    let first = activity.segment.first;
    let lines = place_of(alloc, kernel, code, first, activity.base, activity.pc)?;
    let process = names.name(alloc, kernel, slot)?;
    Ok(Wait { process, lines })
}

/// Whether a process lives at this slot and stands at its `when`.
fn waits_here(kernel: &Kernel, slot: usize) -> bool
    requires slot { slot < 32 }
    ensures exact { result ≡ (is_live kernel.now.table slot && is_at_when (process_at kernel.now.table slot).standing) }
{
    if !kernel.lives(slot) {
        return false;
    }
    let (standing, _activity) = kernel.process(slot);
    is_at_when(standing)
}

/// The processes of a kernel that stand at a `when`, by their slots. The only error is want of memory.
fn waits_in(
    alloc: Global,
    kernel: &Kernel,
    code: &Code,
    names: &Names,
) -> Result<Vec<Wait>, AllocError>
    ensures exact { IfOk result (λ waits. all_of waits ≡ waiting_below code.now.words kernel.now names.now 32) }
{
    let mut waits = Vec::new(alloc);
    for slot in 0..SLOTS {
        if !waits_here(kernel, slot) {
            continue;
        }
        let wait = wait_of(alloc, kernel, code, names, slot)?;
        waits.push(wait)?;
    }
    Ok(waits)
}

/// Who waits where in the kernel after a run that stands still, whose processes have these names. The only error is want of memory.
fn waits_at(
    alloc: Global,
    kernel: &Kernel,
    code: &Code,
    names: &Names,
) -> Result<Vec<Wait>, AllocError>
    ensures exact { IfOk result (λ waits. (s : State) (bound : ℕ) (old new : Drawn) →
        EndsNamed code.now s bound old Ending.Standstill kernel.now new names.now → StandsSo code.now s bound old (all_of waits)) }
{
    let waits = waits_in(alloc, kernel, code, names)?;
    Ok(waits)
}

/// Who waits where in the kernel after a run that has ended so, if it stands still. The only error is want of memory.
pub(crate) fn waits_by(
    alloc: Global,
    kernel: &Kernel,
    code: &Code,
    names: &Names,
    ending: Ending,
) -> Result<Option<Vec<Wait>>, AllocError>
    ensures exact { IfOk result (λ found. IfSome found (λ waits. (s : State) (bound : ℕ) (old new : Drawn) →
        EndsNamed code.now s bound old ending kernel.now new names.now → StandsSo code.now s bound old (all_of waits))) }
    ensures other { IfOk result (λ found. found ≡ None → ending ≡ Ending.Standstill → ⊥) }
{
    match ending {
        Ending::Standstill => Ok(Some(waits_at(alloc, kernel, code, names)?)),
        Ending::Done
        | Ending::Halted(_)
        | Ending::Failed(_, _)
        | Ending::Turns
        | Ending::Bad(_)
        | Ending::Fault => Ok(None),
    }
}
