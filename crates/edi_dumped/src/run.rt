//! A run with the dump of its end, on four objects.

ghost use Rattle.std.specs.Prelude.{◌≡◌, ◌≤◌, ◌<◌, ◌+◌, ◌^◌, ◌↔◌, IfErr, IfOk, IfSome, IsSome, None, Option, Some, ℕ, option_map};
ghost use Rattle.edi_told.specs.Faults.{CountRose};
ghost use Rattle.edi_told.specs.Told.{WhereTold};
ghost use Rattle.edi_calls.specs.declared.ends.Outside.{Outside};
ghost use Rattle.edi_calls.specs.State.{State};
ghost use Rattle.edi_catalog.specs.Counted.{IsOfCount};
ghost use Rattle.edi_dump.specs.Told.{TellsOr};
ghost use Rattle.edi_dump.specs.Frames.{Program};
ghost use Rattle.edi_dump.specs.Views.{program_of};
ghost use Rattle.edi_dumped.specs.Dumps.{IsDumpOf};
ghost use Rattle.edi_dumped.specs.Given.{IsKnown, Told, program_given};
ghost use Rattle.edi_image.specs.Image.{mount_fault_of};
ghost use Rattle.edi_image.specs.Finds.{IsFirst};
ghost use Rattle.edi_system.specs.Parts.{IsValid};
ghost use Rattle.edi_execute.specs.Objects.{FailedIs, NoneFalls, RunLeaves, StandsAtCall, contents_of, faults_in, objects, system_on};
ghost use Rattle.edi_timed.specs.on.Timelines.{IsOf};
ghost use Rattle.edi_trace.specs.Drawn.{Drawn};
ghost use Rattle.edi_waits.specs.Runs.{EndsNamed};

use crate::execution::execute_named;
use crate::known::known_of;
use edi_catalog::{MountFault, check, mount};
use edi_disk::Disk;
use edi_dump::{Known, dump_of};
use edi_execute::Ran;
use edi_host::{Drive, Sink, Source};
use edi_kernel::{Ending, Kernel};
use edi_system::{Buffer, System};
use edi_target::Code;
use edi_trace::Choices;
use edi_waits::Names;
use std::alloc::Global;

/// How a run ended, and who stood where then.
#[derive(Drop)]
pub struct Dumped {
    /// How it ended.
    pub ran: Ran,
    /// The text of who stands where at its end. After `Fault` it says nothing. There is none where memory ran out.
    pub dump: Option<Vec<u8>>,
}

/// The text of the end of a run of the code that has ended so, whose processes have these names; none where memory runs out.
fn dump_known(
    alloc: Global,
    kernel: &Kernel,
    code: &Code,
    names: &Names,
    ending: Ending,
    known: Option<&Known>,
) -> Option<Vec<u8>>
    ensures tells { IfSome result (λ told. (s : State) (bound : ℕ) (old new : Drawn) → EndsNamed code.now s bound old ending kernel.now new names.now →
        TellsOr (option_map (λ k. program_of k.now) known.entry) code.now s bound old ending told.items) }
{
    dump_of(alloc, kernel, code, names, ending, known).ok()
}

/// The same, where the code is that of a text.
fn dump_text(
    alloc: Global,
    kernel: &Kernel,
    code: &Code,
    names: &Names,
    ending: Ending,
    text: &[u8],
) -> Option<Vec<u8>>
    ensures tells { IfSome result (λ told. (known : Option Program) × IsKnown (Some text.now) known × Told code.now ending kernel.now names.now known told.items) }
{
    let Some(known) = known_of(alloc, text) else {
        return None;
    };
    dump_known(alloc, kernel, code, names, ending, Some(&known))
}

/// The same, where a text is given or none.
fn dump_at(
    alloc: Global,
    kernel: &Kernel,
    code: &Code,
    names: &Names,
    ending: Ending,
    text: Option<&[u8]>,
) -> Option<Vec<u8>>
    ensures tells { IfSome result (λ told. (known : Option Program) × IsKnown (option_map (λ bytes. bytes.now) text.entry) known
        × Told code.now ending kernel.now names.now known told.items) }
{
    match text {
        Some(text) => dump_text(alloc, kernel, code, names, ending, text),
        None => dump_known(alloc, kernel, code, names, ending, None),
    }
}

/// Mounts the drive and runs the code on it, as `edi_execute::run_on` does, and tells who stands where at the end: where a text is given whose code
/// this is, with the names of the text. It is read once more after the run, so that it takes no memory before.
pub fn dump_on<D: Drive, S: Source, T: Sink, P: Sink>(
    alloc: Global,
    kernel: &mut Kernel,
    code: &Code,
    text: Option<&[u8]>,
    drive: &mut D,
    input: &mut S,
    terminal: &mut T,
    printer: &mut P,
    bound: u64,
    choices: &mut Choices,
) -> Result<Dumped, MountFault>
    requires small { bound < 2 ^ 32 }
    // As for `run_on`.
    ensures leaves { IfOk result (λ end. RunLeaves D.contents S.left T.taken P.taken code.now bound choices.old end.ran kernel.new.store kernel.new.used choices.new
        (objects drive.old input.old terminal.old printer.old) (objects drive.new input.new terminal.new printer.new)) }
    ensures call { IfOk result (λ end. (outside : Outside) → end.ran.failed ≡ Some outside → choices.old.drawn + bound < 2 ^ 64
        → WhereTold (contents_of D.contents S.left T.taken P.taken (objects drive.old input.old terminal.old printer.old))
        (contents_of D.contents S.left T.taken P.taken (objects drive.new input.new terminal.new printer.new))
        (StandsAtCall code.now bound choices.old outside)) }
    // Where the four objects tell what they hold, no choice was drawn before, and no object has failed, the dump is that of the text that is given
    // and whose code this is; and where none is given, that of the code.
    ensures dump { IfOk result (λ end. IfSome end.dump (λ told. (end.ran.ending ≡ Ending.Fault → ⊥) → choices.old.drawn ≡ 0
        → IsOf (program_given (option_map (λ bytes. bytes.now) text.entry) code.now) code.now
        → WhereTold (contents_of D.contents S.left T.taken P.taken (objects drive.old input.old terminal.old printer.old))
        (contents_of D.contents S.left T.taken P.taken (objects drive.new input.new terminal.new printer.new))
        (λ x y. IsDumpOf (program_given (option_map (λ bytes. bytes.now) text.entry) code.now) (system_on x) bound choices.old.source told.items))) }
    ensures valid { IfOk result (λ end. IsValid (D.contents drive.new)) }
    ensures size { D.count drive.new ≡ D.count drive.old }
    ensures mounted { IfOk result (λ end. WhereTold (D.contents drive.old) (D.contents drive.new) (λ old new. mount_fault_of old ≡ None)) }
    ensures least { IfOk result (λ end. 0 < D.count drive.old → D.count drive.old < 64 → ⊥) }
    ensures most { IfOk result (λ end. D.count drive.old ≤ 4096) }
    ensures used { IfOk result (λ end. kernel.new.used ≤ bound) }
    ensures failed { IfOk result (λ end. IsSome end.ran.failed ↔ (end.ran.ending ≡ Ending.Fault)) }
    ensures blame { IfOk result (λ end. FailedIs end.ran.failed
        (faults_in D.faults S.faults T.faults P.faults (objects drive.old input.old terminal.old printer.old))
        (faults_in D.faults S.faults T.faults P.faults (objects drive.new input.new terminal.new printer.new))) }
    ensures later { NoneFalls D.faults S.faults T.faults P.faults
        (objects drive.old input.old terminal.old printer.old) (objects drive.new input.new terminal.new printer.new) }
    ensures not_mounted { IfErr result (λ why. WhereTold (D.contents drive.old) (D.contents drive.new)
        (λ old new. (new ≡ old) × IsFirst why (mount_fault_of old))) }
    ensures nothing_run { IfErr result (λ why. (input.new ≡ input.old) × (terminal.new ≡ terminal.old) × (printer.new ≡ printer.old)
        × (kernel.new ≡ kernel.old) × (choices.new ≡ choices.old)) }
    ensures faults { IfErr result (IsOfCount (D.count drive.old)) }
    ensures cause { IfErr result (λ why. why ≡ MountFault.Fault → CountRose (D.faults drive.old) (D.faults drive.new)) }
    ensures source { choices.new.source ≡ choices.old.source }
    ensures drawn { choices.new.drawn ≤ choices.old.drawn + bound }
{
    let Ok(mut buffer) = Buffer::new(alloc) else {
        return Err(MountFault::NoMemory);
    };
    let mut disk = Disk::attach(drive);
    let mut room = match check(alloc, &mut disk) {
        Ok(room) => room,
        Err(fault) => return Err(fault),
    };
    let catalog = mount(disk, &mut room);
    let mut system = System::new(catalog, input, terminal, printer, &mut buffer);
    let end = execute_named(kernel, code, &mut system, bound, choices);
    let ran = Ran {
        ending: end.0,
        failed: system.failed(),
        due: system.due(),
    };
    let dump = dump_at(alloc, kernel, code, &end.1, end.0, text);
    Ok(Dumped { ran, dump })
}
