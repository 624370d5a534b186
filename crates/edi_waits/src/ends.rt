//! How the processes of a kernel stand at the end of a run.

ghost use Rattle.std.specs.Prelude.{◌≡◌, ◌<◌, ◌≤◌, ◌+◌, ◌-◌, ◌^◌, ◌++◌, ℕ, Some, length, map, slice_get, IfOk, OnOk};
ghost use Rattle.edi_calls.specs.State.{State};
ghost use Rattle.edi_target.specs.Check.{CodeParts};
ghost use Rattle.edi_trace.specs.Drawn.{Drawn};
ghost use Rattle.edi_kernel.specs.declared.ends.Ending.{Ending};
ghost use Rattle.edi_kernel.specs.TableIsMachine.{standing_of};
ghost use Rattle.edi_machine.specs.Activities.{IsOrdered};
ghost use Rattle.edi_waits.specs.Ended.{EndsOr};
ghost use Rattle.edi_waits.specs.Ends.{is_before, stands_by};
ghost use Rattle.edi_waits.specs.Left.{at_end_of, at_ends, comes_before, decided, frames_below, frames_by, index_among, is_slot, put_in, told_end, told_ends};
ghost use Rattle.edi_waits.specs.Runs.{EndsNamed};
ghost use Rattle.edi_waits.specs.Told.{name_of};

use crate::births::{Branch, Names, SLOTS};
use edi_kernel::{Below, Kernel, Standing};
use edi_machine::Activity;
use std::alloc::{AllocError, Global};

/// How a process stands at the end of a run.
#[derive(Clone, Copy, PartialEq, Eq, Debug)]
pub enum Stands {
    /// It has not begun.
    Fresh,
    /// It goes on after its branches, all of which have ended.
    Joined,
    /// It stands at its `when`.
    AtWhen,
    /// It waits for so many of its branches.
    Awaits(usize),
    /// Its instruction ended the run.
    Ran,
}

/// A process at the end of a run.
#[derive(Drop)]
pub struct Process {
    /// Its name: whose child of whose child it is, from the first process down, which has the empty name.
    pub name: Vec<Branch>,
    /// How it stands.
    pub stands: Stands,
    /// Its frames, the newest first: where each begins, up to where it is in use, and the address of the instruction with which it goes on.
    pub frames: Vec<Below>,
}

/// Whether this slot is the one of the process that is taken.
fn is_slot(taken: Option<usize>, slot: usize) -> bool
    ensures { result ≡ is_slot taken slot }
{
    match taken {
        Some(at) => at == slot,
        None => false,
    }
}

/// How a process stands that has forked so often, where it ended the run or not.
fn stands_by(ran: bool, standing: Standing, forks: u32) -> Stands
    ensures { result ≡ stands_by ran (standing_of standing) forks }
{
    if ran {
        return Stands::Ran;
    }
    match standing {
        Standing::Ready => {
            if forks == 0 {
                Stands::Fresh
            } else {
                Stands::Joined
            }
        }
        Standing::AtWhen => Stands::AtWhen,
        Standing::Waiting(branches) => Stands::Awaits(branches),
    }
}

/// Appends the frames below the one at `base`, in the segment that begins at `first`. The only error is want of memory.
fn put_frames(
    frames: &mut Vec<Below>,
    kernel: &Kernel,
    first: u32,
    base: u32,
) -> Result<(), AllocError>
    requires within { base + 5 ≤ 2 ^ 16 }
    requires ordered { first ≤ base }
    ensures exact { OnOk result (frames.new.items ≡ frames.old.items ++ frames_below (base - first) kernel.now.store first base) }
{
    let mut at = base;
    for _ in 0..base - first {
        let Some(below) = kernel.below(first, at) else {
            return Ok(());
        };
        frames.push(below)?;
        at = below.base;
    }
    Ok(())
}

/// The frames of a process with this activity. The only error is want of memory.
fn frames_of(alloc: Global, kernel: &Kernel, activity: &Activity) -> Result<Vec<Below>, AllocError>
    requires ordered { IsOrdered activity.now }
    ensures exact { IfOk result (λ frames. frames.items ≡ frames_by kernel.now.store activity.now) }
{
    let newest = Below {
        base: activity.base,
        top: activity.top,
        back: activity.pc,
    };
    let mut frames = Vec::new(alloc);
    frames.push(newest)?;
    put_frames(&mut frames, kernel, activity.segment.first, newest.base)?;
    Ok(frames)
}

/// The process at this slot. The only error is want of memory.
fn process_of(
    alloc: Global,
    kernel: &Kernel,
    names: &Names,
    slot: usize,
) -> Result<Process, AllocError>
    requires slot { slot < 32 }
    ensures exact { IfOk result (λ process. told_end process ≡ at_end_of kernel.now names.now slot) }
{
    let ran = is_slot(kernel.taken(), slot);
    let (standing, activity) = kernel.process(slot);
    let frames = frames_of(alloc, kernel, &activity)?;
    let stands = stands_by(ran, standing, names.birth(slot).forks);
    let name = names.name(alloc, kernel, slot)?;
    Ok(Process {
        name,
        stands,
        frames,
    })
}

/// Whether a name with the one branch comes before a name with the other; `None` if the branches are the same.
fn decided_by(branch: Branch, other: Branch) -> Option<bool>
    ensures exact { result ≡ decided (Some branch) (Some other) }
{
    if branch.fork == other.fork && branch.number == other.number {
        return None;
    }
    Some(branch.fork < other.fork || (branch.fork == other.fork && branch.number < other.number))
}

/// Whether a name comes before another by their branches at this index; `None` if these are the same.
fn decided_at(name: &[Branch], other: &[Branch], index: usize) -> Option<bool>
    ensures exact { result ≡ decided (slice_get name.now index) (slice_get other.now index) }
{
    match (name.get(index), other.get(index)) {
        (Some(branch), Some(with)) => decided_by(*branch, *with),
        (None, Some(_)) => Some(true),
        (_, None) => Some(false),
    }
}

/// Whether a name comes before another: a parent before its branches, and branches of one fork by their numbers.
fn is_before(name: &[Branch], other: &[Branch]) -> bool
    ensures exact { result ≡ is_before (name_of name.now) (name_of other.now) }
{
    for index in 0..name.len() {
        if let Some(answer) = decided_at(name, other, index) {
            return answer;
        }
    }
    name.len() < other.len()
}

/// Whether this name comes before the process at an index, or there is none.
fn comes_before(name: &[Branch], processes: &[Process], index: usize) -> bool
    ensures exact { result ≡ comes_before (name_of name.now) (slice_get processes.now index) }
{
    match processes.get(index) {
        Some(process) => is_before(name, &process.name),
        None => true,
    }
}

/// The index of the first of these processes before which the one of this name comes.
fn index_among(processes: &[Process], name: &[Branch]) -> usize
    ensures exact { result ≡ index_among (name_of name.now) (map told_end processes.now) }
    ensures inside { result ≤ length processes.now }
{
    for index in 0..processes.len() {
        if comes_before(name, processes, index) {
            return index;
        }
    }
    processes.len()
}

/// Puts a process at its place. The only error is want of memory.
fn put_in(processes: &mut Vec<Process>, process: Process) -> Result<(), AllocError>
    ensures exact { OnOk result (told_ends processes.new ≡ put_in (told_end process) (told_ends processes.old)) }
{
    let index = index_among(processes.as_slice(), process.name.as_slice());
    processes.insert(index, process)?;
    Ok(())
}

/// The live processes of a kernel, by their names. The only error is want of memory.
fn processes_in(alloc: Global, kernel: &Kernel, names: &Names) -> Result<Vec<Process>, AllocError>
    ensures exact { IfOk result (λ processes. told_ends processes ≡ at_ends kernel.now names.now 32) }
{
    let mut processes = Vec::new(alloc);
    for slot in 0..SLOTS {
        if !kernel.lives(slot) {
            continue;
        }
        let process = process_of(alloc, kernel, names, slot)?;
        put_in(&mut processes, process)?;
    }
    Ok(processes)
}

/// Who stands where in the kernel after a run whose processes have these names: each process that lives, by the order of the
/// branches. After `Fault` nothing is said of them. The only error is want of memory.
pub fn processes_at(
    alloc: Global,
    kernel: &Kernel,
    names: &Names,
) -> Result<Vec<Process>, AllocError>
    ensures exact { IfOk result (λ processes. (code : CodeParts) (s : State) (bound : ℕ) (old new : Drawn) (e : Ending) →
        EndsNamed code s bound old e kernel.now new names.now → EndsOr code s bound old e kernel.now.store (told_ends processes)) }
{
    let processes = processes_in(alloc, kernel, names)?;
    Ok(processes)
}
