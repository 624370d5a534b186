//! A watched run on four objects.

ghost use Rattle.std.specs.Prelude.{◌≡◌, ◌≤◌, ◌<◌, ◌+◌, ◌^◌, ◌↔◌, ℕ, List, drop, false, length, IfErr, IfOk, IsSome, Some};
ghost use Rattle.edi_told.specs.Faults.{CountRose};
ghost use Rattle.edi_told.specs.Told.{WhereTold};
ghost use Rattle.edi_calls.specs.declared.ends.Outside.{Outside};
ghost use Rattle.edi_static.specs.Programs.{Sound};
ghost use Rattle.edi_scheme.specs.Laws.{parts_of};
ghost use Rattle.edi_catalog.specs.Counted.{IsOfCount};
ghost use Rattle.edi_image.specs.Image.{mount_fault_of};
ghost use Rattle.edi_image.specs.Finds.{IsFirst};
ghost use Rattle.edi_system.specs.Parts.{ToldStays, due_after};
ghost use Rattle.edi_execute.specs.Objects.{FailedIs, NoneFalls, RunLeaves, StandsAtCall, contents_of, faults_in, objects, system_on};
ghost use Rattle.edi_debug.specs.Points.{ArePoints, watched_in};
ghost use Rattle.edi_debug.specs.stops.Kept.{nothing_kept};
ghost use Rattle.edi_runs.specs.watch.Logs.{IsLogOf};
ghost use Rattle.edi_runs.specs.watch.Watchable.{IsWatchable, IsWhole, program_in};

use crate::watch::execution::watch_execution;
use crate::watch::source::Watchable;
use edi_catalog::{MountFault, check, mount};
use edi_debug::{Log, Points};
use edi_disk::Disk;
use edi_execute::Ran;
use edi_host::{Drive, Sink, Source};
use edi_kernel::{Ending, Kernel};
use edi_system::{Buffer, System};
use edi_trace::Choices;
use std::alloc::Global;

/// Mounts the drive and runs a watched program on it, as `edi_execute::run_on` runs a code, and logs what the points say. The points
/// are those of a file for this program. Where the drive cannot be mounted, the log is as before, too.
pub fn watch_on<D: Drive, S: Source, T: Sink, P: Sink>(
    alloc: Global,
    kernel: &mut Kernel,
    watched: &Watchable,
    points: &Points,
    drive: &mut D,
    input: &mut S,
    terminal: &mut T,
    printer: &mut P,
    bound: u64,
    choices: &mut Choices,
    log: &mut Log,
) -> Result<Ran, MountFault>
    requires sound { Sound (program_in watched.now) }
    requires points { ArePoints (program_in watched.now) points.now }
    // As for `run_on`, with the code of the program.
    ensures leaves { IfOk result (λ ran. (whole : IsWhole watched.now) →
        RunLeaves D.contents S.left T.taken P.taken (parts_of whole.unit) bound choices.old ran kernel.new.store kernel.new.used choices.new
        (objects drive.old input.old terminal.old printer.old) (objects drive.new input.new terminal.new printer.new)) }
    ensures call { IfOk result (λ ran. (whole : IsWhole watched.now) (outside : Outside) → ran.failed ≡ Some outside → choices.old.drawn + bound < 2 ^ 64
        → WhereTold (contents_of D.contents S.left T.taken P.taken (objects drive.old input.old terminal.old printer.old))
        (contents_of D.contents S.left T.taken P.taken (objects drive.new input.new terminal.new printer.new))
        (StandsAtCall (parts_of whole.unit) bound choices.old outside)) }
    // Where the four objects tell what they hold, no choice was drawn before, the log was empty, and no object has failed, the log is that
    // of each text of this program.
    ensures logs { IfOk result (λ ran. (ran.ending ≡ Ending.Fault → ⊥) → choices.old.drawn ≡ 0 → log.old ≡ nothing_kept → bound < 2 ^ 64
        → (text : List ℕ) → IsWatchable text watched.now
        → WhereTold (contents_of D.contents S.left T.taken P.taken (objects drive.old input.old terminal.old printer.old))
        (contents_of D.contents S.left T.taken P.taken (objects drive.new input.new terminal.new printer.new))
        (λ x y. IsLogOf text (system_on x) bound choices.old.source (watched_in points.now) log.new.bytes)) }
    // What is told, and whether a line is due, whatever the program.
    ensures told { IfOk result (λ ran. ToldStays (D.contents drive.old) (D.contents drive.new) (S.left input.old) (S.left input.new)
        (T.taken terminal.old) (T.taken terminal.new) (P.taken printer.old) (P.taken printer.new)
        × WhereTold (T.taken terminal.old) (T.taken terminal.new) (λ taken now. ran.due ≡ due_after false (drop (length taken) now))) }
    ensures size { D.count drive.new ≡ D.count drive.old }
    ensures mounted { IfOk result (λ ran. WhereTold (D.contents drive.old) (D.contents drive.new) (λ old new. mount_fault_of old ≡ None)) }
    ensures least { IfOk result (λ ran. 0 < D.count drive.old → D.count drive.old < 64 → ⊥) }
    ensures most { IfOk result (λ ran. D.count drive.old ≤ 4096) }
    ensures used { IfOk result (λ ran. kernel.new.used ≤ bound) }
    ensures failed { IfOk result (λ ran. IsSome ran.failed ↔ (ran.ending ≡ Ending.Fault)) }
    ensures blame { IfOk result (λ ran. FailedIs ran.failed
        (faults_in D.faults S.faults T.faults P.faults (objects drive.old input.old terminal.old printer.old))
        (faults_in D.faults S.faults T.faults P.faults (objects drive.new input.new terminal.new printer.new))) }
    ensures later { NoneFalls D.faults S.faults T.faults P.faults
        (objects drive.old input.old terminal.old printer.old) (objects drive.new input.new terminal.new printer.new) }
    ensures not_mounted { IfErr result (λ why. WhereTold (D.contents drive.old) (D.contents drive.new)
        (λ old new. (new ≡ old) × IsFirst why (mount_fault_of old))) }
    ensures nothing_run { IfErr result (λ why. (input.new ≡ input.old) × (terminal.new ≡ terminal.old) × (printer.new ≡ printer.old)
        × (kernel.new ≡ kernel.old) × (choices.new ≡ choices.old) × (log.new ≡ log.old)) }
    ensures faults { IfErr result (IsOfCount (D.count drive.old)) }
    ensures cause { IfErr result (λ why. why ≡ MountFault.Fault → CountRose (D.faults drive.old) (D.faults drive.new)) }
    ensures source { choices.new.source ≡ choices.old.source }
    ensures drawn { choices.new.drawn ≤ choices.old.drawn + bound }
{
    let Ok(mut buffer) = Buffer::new(alloc) else {
        return Err(MountFault::NoMemory);
    };
    let mut disk = Disk::attach(drive);
    let mut room = match check(alloc, &mut disk) {
        Ok(room) => room,
        Err(fault) => return Err(fault),
    };
    let catalog = mount(disk, &mut room);
    let mut system = System::new(catalog, input, terminal, printer, &mut buffer);
    let ending = watch_execution(kernel, watched, points, &mut system, bound, choices, log);
    Ok(Ran {
        ending,
        failed: system.failed(),
        due: system.due(),
    })
}
