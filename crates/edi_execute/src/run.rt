//! A run of code on four objects.

ghost use Rattle.std.specs.Prelude.{◌≡◌, ◌≤◌, ◌<◌, ◌+◌, ◌^◌, ◌↔◌, IfErr, IfOk, None, Some, IsSome};
ghost use Rattle.edi_told.specs.Faults.{CountRose};
ghost use Rattle.edi_told.specs.Told.{WhereTold};
ghost use Rattle.edi_calls.specs.declared.ends.Outside.{Outside};
ghost use Rattle.edi_catalog.specs.Counted.{IsOfCount};
ghost use Rattle.edi_image.specs.Image.{mount_fault_of};
ghost use Rattle.edi_image.specs.Finds.{IsFirst};
ghost use Rattle.edi_kernel.specs.Kernel.{StandsAtEnd};
ghost use Rattle.edi_system.specs.Parts.{IsValid};
ghost use Rattle.edi_execute.specs.Objects.{FailedIs, NoneFalls, RunLeaves, StandsAtCall, contents_of, faults_in, objects};

use crate::execution::execute;
use edi_calls::Outside;
use edi_catalog::{MountFault, check, mount};
use edi_disk::Disk;
use edi_host::{Drive, Sink, Source};
use edi_kernel::{Ending, Kernel};
use edi_system::{Buffer, System};
use edi_target::Code;
use edi_trace::Choices;
use std::alloc::Global;

/// How a run ended.
#[derive(Clone, Copy, Debug, PartialEq, Eq, Drop)]
pub struct Ran {
    /// The ending.
    pub ending: Ending,
    /// The object that has failed, after `Fault`.
    pub failed: Option<Outside>,
    /// Whether bytes were shown and the last of them was no line feed.
    pub due: bool,
}

/// Mounts the drive and runs the code on it, on an input, a terminal and a printer, with no file open. It errs where the drive
/// cannot be mounted, and with `NoMemory` also where there is none for the buffer of a file that is written; then nothing has
/// run.
pub fn run_on<D: Drive, S: Source, T: Sink, P: Sink>(
    alloc: Global,
    kernel: &mut Kernel,
    code: &Code,
    drive: &mut D,
    input: &mut S,
    terminal: &mut T,
    printer: &mut P,
    bound: u64,
    choices: &mut Choices,
) -> Result<Ran, MountFault>
    // Where the four objects tell what they hold, a run is that of the machine's definition, and they hold afterwards what it
    // leaves (`runs`), after `Fault` what a state has through which it comes (`moment`). What an object does not tell before it
    // does not tell afterwards, and the drive is a valid image (`told`). A line is due where the last byte that the terminal
    // has taken in this call is no line feed (`due`).
    ensures leaves { IfOk result (λ ran. RunLeaves D.contents S.left T.taken P.taken code.now bound choices.old ran kernel.new.store kernel.new.used choices.new
        (objects drive.old input.old terminal.old printer.old) (objects drive.new input.new terminal.new printer.new)) }
    // After `Fault` this is the state before the call that failed, or the one that this call was to leave; and the call uses the object
    // that has failed, which is no input at its end.
    ensures call { IfOk result (λ ran. (outside : Outside) → ran.failed ≡ Some outside → choices.old.drawn + bound < 2 ^ 64
        → WhereTold (contents_of D.contents S.left T.taken P.taken (objects drive.old input.old terminal.old printer.old))
        (contents_of D.contents S.left T.taken P.taken (objects drive.new input.new terminal.new printer.new))
        (StandsAtCall code.now bound choices.old outside)) }
    ensures valid { IfOk result (λ ran. IsValid (D.contents drive.new)) }
    // The drive has as many blocks as before, whatever the answer.
    ensures size { D.count drive.new ≡ D.count drive.old }
    // The drive was a valid image before, of 64 to 4096 blocks or of none, and the kernel took no more turns than the bound.
    ensures mounted { IfOk result (λ ran. WhereTold (D.contents drive.old) (D.contents drive.new) (λ old new. mount_fault_of old ≡ None)) }
    ensures least { IfOk result (λ ran. 0 < D.count drive.old → D.count drive.old < 64 → ⊥) }
    ensures most { IfOk result (λ ran. D.count drive.old ≤ 4096) }
    ensures used { IfOk result (λ ran. kernel.new.used ≤ bound) }
    ensures standing { IfOk result (λ ran. StandsAtEnd (Some ran.ending) kernel.new.table kernel.new.arrived) }
    // An object has failed exactly where the ending says so, and its count rose.
    ensures failed { IfOk result (λ ran. IsSome ran.failed ↔ (ran.ending ≡ Ending.Fault)) }
    ensures blame { IfOk result (λ ran. FailedIs ran.failed
        (faults_in D.faults S.faults T.faults P.faults (objects drive.old input.old terminal.old printer.old))
        (faults_in D.faults S.faults T.faults P.faults (objects drive.new input.new terminal.new printer.new))) }
    ensures later { NoneFalls D.faults S.faults T.faults P.faults
        (objects drive.old input.old terminal.old printer.old) (objects drive.new input.new terminal.new printer.new) }
    // A drive that is not mounted keeps its blocks, and the fault fits their number; then nothing else has changed.
    ensures not_mounted { IfErr result (λ why. WhereTold (D.contents drive.old) (D.contents drive.new)
        (λ old new. (new ≡ old) × IsFirst why (mount_fault_of old))) }
    ensures nothing_run { IfErr result (λ why. (input.new ≡ input.old) × (terminal.new ≡ terminal.old) × (printer.new ≡ printer.old)
        × (kernel.new ≡ kernel.old) × (choices.new ≡ choices.old)) }
    ensures faults { IfErr result (IsOfCount (D.count drive.old)) }
    ensures cause { IfErr result (λ why. why ≡ MountFault.Fault → CountRose (D.faults drive.old) (D.faults drive.new)) }
    ensures source { choices.new.source ≡ choices.old.source }
    ensures drawn { choices.new.drawn ≤ choices.old.drawn + bound }
{
    let Ok(mut buffer) = Buffer::new(alloc) else {
        return Err(MountFault::NoMemory);
    };
    let mut disk = Disk::attach(drive);
    let mut room = match check(alloc, &mut disk) {
        Ok(room) => room,
        Err(fault) => return Err(fault),
    };
    let catalog = mount(disk, &mut room);
    let mut system = System::new(catalog, input, terminal, printer, &mut buffer);
    let ending = execute(kernel, code, &mut system, bound, choices);
    Ok(Ran {
        ending,
        failed: system.failed(),
        due: system.due(),
    })
}
