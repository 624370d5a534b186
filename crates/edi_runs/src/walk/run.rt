//! A walk on four objects.

ghost use Rattle.std.specs.Prelude.{◌≡◌, ◌≤◌, ◌<◌, ◌↔◌, IfErr, IfOk, None, IsSome};
ghost use Rattle.edi_told.specs.Faults.{CountRose};
ghost use Rattle.edi_told.specs.Told.{WhereTold};
ghost use Rattle.edi_unit.specs.View.{unit_of};
ghost use Rattle.edi_catalog.specs.Counted.{IsOfCount};
ghost use Rattle.edi_image.specs.Image.{mount_fault_of};
ghost use Rattle.edi_image.specs.Finds.{IsFirst};
ghost use Rattle.edi_execute.specs.Objects.{FailedIs, NoneFalls, faults_in, objects};
ghost use Rattle.edi_runs.specs.walk.Leaves.{WalkLeaves};

use crate::walk::execution::walk_execution;
use edi_calls::Outside;
use edi_catalog::{MountFault, check, mount};
use edi_disk::Disk;
use edi_host::{Drive, Sink, Source};
use edi_system::{Buffer, System};
use edi_trace::Choices;
use edi_unit::Unit;
use edi_walk::WalkEnd;
use std::alloc::Global;

/// How a walk ended.
#[derive(Clone, Copy, Debug, Drop)]
pub struct Walked {
    /// The end.
    pub end: WalkEnd,
    /// The object that has failed, after `Fault`.
    pub failed: Option<Outside>,
    /// Whether bytes were shown and the last of them was no line feed.
    pub due: bool,
}

/// Mounts the drive and walks through a unit on it, on an input, a terminal and a printer, with no file open. It errs where the
/// drive cannot be mounted, and with `NoMemory` also where there is none for the buffer of a file that is written; then nothing has
/// happened. The end `NoMemory` comes in the midst of a walk.
pub fn walk_on<D: Drive, S: Source, T: Sink, P: Sink>(
    alloc: Global,
    unit: &Unit,
    drive: &mut D,
    input: &mut S,
    terminal: &mut T,
    printer: &mut P,
    bound: u64,
    choices: &mut Choices,
) -> Result<Walked, MountFault>
    ensures leaves { IfOk result (λ walked. WalkLeaves D.contents S.left T.taken P.taken (unit_of unit.now) bound choices.old walked choices.new
        (objects drive.old input.old terminal.old printer.old) (objects drive.new input.new terminal.new printer.new)) }
    // The drive has as many blocks as before, whatever the answer.
    ensures size { D.count drive.new ≡ D.count drive.old }
    // The drive was a valid image before, of 64 to 4096 blocks or of none.
    ensures mounted { IfOk result (λ walked. WhereTold (D.contents drive.old) (D.contents drive.new) (λ old new. mount_fault_of old ≡ None)) }
    ensures least { IfOk result (λ walked. 0 < D.count drive.old → D.count drive.old < 64 → ⊥) }
    ensures most { IfOk result (λ walked. D.count drive.old ≤ 4096) }
    // An object has failed exactly where the end says so, and its count rose.
    ensures failed { IfOk result (λ walked. IsSome walked.failed ↔ (walked.end ≡ WalkEnd.Fault)) }
    ensures blame { IfOk result (λ walked. FailedIs walked.failed
        (faults_in D.faults S.faults T.faults P.faults (objects drive.old input.old terminal.old printer.old))
        (faults_in D.faults S.faults T.faults P.faults (objects drive.new input.new terminal.new printer.new))) }
    ensures later { NoneFalls D.faults S.faults T.faults P.faults
        (objects drive.old input.old terminal.old printer.old) (objects drive.new input.new terminal.new printer.new) }
    // A drive that is not mounted keeps its blocks, and the fault fits their number; then nothing else has changed.
    ensures not_mounted { IfErr result (λ why. WhereTold (D.contents drive.old) (D.contents drive.new)
        (λ old new. (new ≡ old) × IsFirst why (mount_fault_of old))) }
    ensures nothing_done { IfErr result (λ why. (input.new ≡ input.old) × (terminal.new ≡ terminal.old) × (printer.new ≡ printer.old)
        × (choices.new ≡ choices.old)) }
    ensures faults { IfErr result (IsOfCount (D.count drive.old)) }
    ensures cause { IfErr result (λ why. why ≡ MountFault.Fault → CountRose (D.faults drive.old) (D.faults drive.new)) }
    ensures source { choices.new.source ≡ choices.old.source }
{
    let Ok(mut buffer) = Buffer::new(alloc) else {
        return Err(MountFault::NoMemory);
    };
    let mut disk = Disk::attach(drive);
    let mut room = match check(alloc, &mut disk) {
        Ok(room) => room,
        Err(fault) => return Err(fault),
    };
    let catalog = mount(disk, &mut room);
    let mut system = System::new(catalog, input, terminal, printer, &mut buffer);
    let end = walk_execution(alloc, unit, &mut system, bound, choices);
    Ok(Walked {
        end,
        failed: system.failed(),
        due: system.due(),
    })
}
