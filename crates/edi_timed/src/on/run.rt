//! A run with its timeline, on four objects.

ghost use Rattle.std.specs.Prelude.{◌≡◌, ◌≤◌, ◌<◌, ◌+◌, ◌^◌, ◌↔◌, [], IfErr, IfOk, IsSome, None, Some};
ghost use Rattle.edi_told.specs.Faults.{CountRose};
ghost use Rattle.edi_told.specs.Told.{WhereTold};
ghost use Rattle.edi_calls.specs.declared.ends.Outside.{Outside};
ghost use Rattle.edi_catalog.specs.Counted.{IsOfCount};
ghost use Rattle.edi_image.specs.Image.{mount_fault_of};
ghost use Rattle.edi_image.specs.Finds.{IsFirst};
ghost use Rattle.edi_system.specs.Parts.{IsValid};
ghost use Rattle.edi_execute.specs.Objects.{FailedIs, NoneFalls, RunLeaves, StandsAtCall, contents_of, faults_in, objects, system_on};
ghost use Rattle.edi_timed.specs.on.Timelines.{IsOf, IsTimelineOf, Timable};

use crate::on::execution::time_execution;
use edi_catalog::{MountFault, check, mount};
use edi_disk::Disk;
use edi_execute::Ran;
use edi_host::{Drive, Sink, Source};
use edi_kernel::{Ending, Kernel};
use edi_system::{Buffer, System};
use edi_target::Code;
use edi_timeline::Timeline;
use edi_trace::Choices;
use std::alloc::Global;

/// Mounts the drive and runs the code on it, as `edi_execute::run_on` does, and fills a timeline that has no stint. Where the drive cannot
/// be mounted, the timeline is as before, too.
pub fn time_on<D: Drive, S: Source, T: Sink, P: Sink>(
    alloc: Global,
    kernel: &mut Kernel,
    code: &Code,
    drive: &mut D,
    input: &mut S,
    terminal: &mut T,
    printer: &mut P,
    bound: u32,
    choices: &mut Choices,
    timeline: &mut Timeline,
) -> Result<Ran, MountFault>
    requires empty { timeline.old ≡ record { stints = []; count = 0; ending = None } }
    // As for `run_on`.
    ensures leaves { IfOk result (λ ran. RunLeaves D.contents S.left T.taken P.taken code.now bound choices.old ran kernel.new.store kernel.new.used choices.new
        (objects drive.old input.old terminal.old printer.old) (objects drive.new input.new terminal.new printer.new)) }
    ensures call { IfOk result (λ ran. (outside : Outside) → ran.failed ≡ Some outside → choices.old.drawn + bound < 2 ^ 64
        → WhereTold (contents_of D.contents S.left T.taken P.taken (objects drive.old input.old terminal.old printer.old))
        (contents_of D.contents S.left T.taken P.taken (objects drive.new input.new terminal.new printer.new))
        (StandsAtCall code.now bound choices.old outside)) }
    // Where the four objects tell what they hold, no choice was drawn before, and no object has failed, the timeline is that of the code,
    // and of each text whose code this is.
    ensures stints { IfOk result (λ ran. (ran.ending ≡ Ending.Fault → ⊥) → choices.old.drawn ≡ 0 → (program : Timable) → IsOf program code.now
        → WhereTold (contents_of D.contents S.left T.taken P.taken (objects drive.old input.old terminal.old printer.old))
        (contents_of D.contents S.left T.taken P.taken (objects drive.new input.new terminal.new printer.new))
        (λ x y. IsTimelineOf program (system_on x) bound choices.old.source timeline.new)) }
    ensures valid { IfOk result (λ ran. IsValid (D.contents drive.new)) }
    ensures size { D.count drive.new ≡ D.count drive.old }
    ensures mounted { IfOk result (λ ran. WhereTold (D.contents drive.old) (D.contents drive.new) (λ old new. mount_fault_of old ≡ None)) }
    ensures least { IfOk result (λ ran. 0 < D.count drive.old → D.count drive.old < 64 → ⊥) }
    ensures most { IfOk result (λ ran. D.count drive.old ≤ 4096) }
    ensures used { IfOk result (λ ran. kernel.new.used ≤ bound) }
    ensures failed { IfOk result (λ ran. IsSome ran.failed ↔ (ran.ending ≡ Ending.Fault)) }
    ensures blame { IfOk result (λ ran. FailedIs ran.failed
        (faults_in D.faults S.faults T.faults P.faults (objects drive.old input.old terminal.old printer.old))
        (faults_in D.faults S.faults T.faults P.faults (objects drive.new input.new terminal.new printer.new))) }
    ensures later { NoneFalls D.faults S.faults T.faults P.faults
        (objects drive.old input.old terminal.old printer.old) (objects drive.new input.new terminal.new printer.new) }
    ensures not_mounted { IfErr result (λ why. WhereTold (D.contents drive.old) (D.contents drive.new)
        (λ old new. (new ≡ old) × IsFirst why (mount_fault_of old))) }
    ensures nothing_run { IfErr result (λ why. (input.new ≡ input.old) × (terminal.new ≡ terminal.old) × (printer.new ≡ printer.old)
        × (kernel.new ≡ kernel.old) × (choices.new ≡ choices.old) × (timeline.new ≡ timeline.old)) }
    ensures faults { IfErr result (IsOfCount (D.count drive.old)) }
    ensures cause { IfErr result (λ why. why ≡ MountFault.Fault → CountRose (D.faults drive.old) (D.faults drive.new)) }
    ensures source { choices.new.source ≡ choices.old.source }
    ensures drawn { choices.new.drawn ≤ choices.old.drawn + bound }
{
    let Ok(mut buffer) = Buffer::new(alloc) else {
        return Err(MountFault::NoMemory);
    };
    let mut disk = Disk::attach(drive);
    let mut room = match check(alloc, &mut disk) {
        Ok(room) => room,
        Err(fault) => return Err(fault),
    };
    let catalog = mount(disk, &mut room);
    let mut system = System::new(catalog, input, terminal, printer, &mut buffer);
    let ending = time_execution(kernel, code, &mut system, bound, choices, timeline);
    Ok(Ran {
        ending,
        failed: system.failed(),
        due: system.due(),
    })
}
