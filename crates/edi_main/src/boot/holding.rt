//! A session on four objects.

ghost use Rattle.std.specs.Prelude.{◌≡◌, ◌≤◌, ◌+◌, ◌*◌, IfErr, IfOk, None, vec_len};
ghost use Rattle.edi_told.specs.Faults.{CountRose};
ghost use Rattle.edi_told.specs.Told.{WhereTold};
ghost use Rattle.edi_calls.specs.State.{most_bytes};
ghost use Rattle.edi_catalog.specs.Counted.{IsOfCount};
ghost use Rattle.edi_image.specs.Finds.{IsFirst};
ghost use Rattle.edi_image.specs.Image.{mount_fault_of};
ghost use Rattle.edi_shell_io.specs.calls.Standing.{failed_by};
ghost use Rattle.edi_statuses.specs.EachObject.{MayBeImage};
ghost use Rattle.edi_execute.specs.Objects.{FailedIs, NoneFalls, faults_in, objects};
ghost use Rattle.edi_main.specs.boot.OnObjects.{SessionLeft};

use edi_catalog::{MountFault, check, mount};
use edi_disk::Disk;
use edi_host::{Drive, Sink, Source};
use edi_kernel::Kernel;
use edi_session::SessionEnd;
use edi_shell::sessions::session;
use edi_system::{Buffer, System};
use edi_trace::Choices;
use std::alloc::{AllocError, Global};

/// The greatest number of bytes of a file.
const MOST: usize = 261_120;

/// How a session ended.
#[derive(Clone, Copy, Debug, PartialEq, Eq, Drop)]
pub(crate) struct SessionExit {
    /// How it ended.
    pub(crate) end: SessionEnd,
    /// Whether bytes were shown and the last of them was no line feed.
    pub(crate) due: bool,
}

// Room for the bytes of a file.
fn room_for_a_file(alloc: Global) -> Result<Vec<u8>, AllocError>
    ensures most { IfOk result (λ room. most_bytes ≤ vec_len room) }
{
    vec![in alloc; 0; MOST]
}

/// Mounts the drive and holds a session on it, on an input, a terminal and a printer. It errs where
/// the drive cannot be mounted, and with `NoMemory` also where there is none for the bytes of a file; then nothing has begun.
pub(crate) fn hold_on<D: Drive, S: Source, T: Sink, P: Sink>(
    alloc: Global,
    drive: &mut D,
    input: &mut S,
    terminal: &mut T,
    printer: &mut P,
    kernel: &mut Kernel,
    bound: u64,
    choices: &mut Choices,
) -> Result<SessionExit, MountFault>
    ensures leaves { IfOk result (λ exit. SessionLeft D.contents S.left T.taken P.taken bound choices.old exit choices.new.drawn
        (objects drive.old input.old terminal.old printer.old) (objects drive.new input.new terminal.new printer.new)) }
    // The drive has as many blocks as before, whatever the answer, and was a valid image, where it was mounted.
    ensures size { D.count drive.new ≡ D.count drive.old }
    ensures mounted { IfOk result (λ exit. WhereTold (D.contents drive.old) (D.contents drive.new) (λ old new. mount_fault_of old ≡ None)) }
    ensures image { IfOk result (λ exit. MayBeImage (D.count drive.old)) }
    // An object has failed exactly where the end says so, and its count rose.
    ensures blame { IfOk result (λ exit. FailedIs (failed_by exit.end)
        (faults_in D.faults S.faults T.faults P.faults (objects drive.old input.old terminal.old printer.old))
        (faults_in D.faults S.faults T.faults P.faults (objects drive.new input.new terminal.new printer.new))) }
    ensures later { NoneFalls D.faults S.faults T.faults P.faults
        (objects drive.old input.old terminal.old printer.old) (objects drive.new input.new terminal.new printer.new) }
    // A drive that is not mounted keeps its blocks, and the fault fits their number; then nothing else has changed.
    ensures not_mounted { IfErr result (λ why. WhereTold (D.contents drive.old) (D.contents drive.new)
        (λ old new. (new ≡ old) × IsFirst why (mount_fault_of old))) }
    ensures nothing_begun { IfErr result (λ why. (input.new ≡ input.old) × (terminal.new ≡ terminal.old) × (printer.new ≡ printer.old)
        × (kernel.new ≡ kernel.old) × (choices.new ≡ choices.old)) }
    ensures faults { IfErr result (IsOfCount (D.count drive.old)) }
    ensures cause { IfErr result (λ why. why ≡ MountFault.Fault → CountRose (D.faults drive.old) (D.faults drive.new)) }
    ensures source { choices.new.source ≡ choices.old.source }
    ensures drawn { choices.new.drawn ≤ choices.old.drawn + 4194304 * bound }
{
    let Ok(mut room) = room_for_a_file(alloc) else {
        return Err(MountFault::NoMemory);
    };
    let Ok(mut buffer) = Buffer::new(alloc) else {
        return Err(MountFault::NoMemory);
    };
    let mut disk = Disk::attach(drive);
    let mut entries = match check(alloc, &mut disk) {
        Ok(entries) => entries,
        Err(fault) => return Err(fault),
    };
    let catalog = mount(disk, &mut entries);
    let mut system = System::new(catalog, input, terminal, printer, &mut buffer);
    let end = session(alloc, &mut system, kernel, &mut room, bound, choices);
    Ok(SessionExit {
        end,
        due: system.due(),
    })
}
