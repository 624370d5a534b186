//! `get TITLE FILE`.

ghost use Rattle.std.specs.Prelude.{◌≡◌, ◌≤◌, true, length, Err, IfErr, IfOk};
ghost use Rattle.edi_told.specs.Told.{WhereTold};
ghost use Rattle.edi_calls.specs.State.{is_title};
ghost use Rattle.edi_words.specs.Words.{get};
ghost use Rattle.edi_statuses.specs.EachObject.{FitsGet, MayBeImage, is_unread};
ghost use Rattle.edi_main.specs.disk.OnDisk.{HasCauseOnDisk, MeansOnDisk};
ghost use Rattle.edi_main.specs.disk.OnDrive.{IsOfRead, KeepsCounts, ReadsOn, status_kept};

use crate::disk::titles::title_of;
use crate::steps::mount_status;
use edi_catalog::{Title, check, mount};
use edi_disk::Disk;
use edi_host::{Drive, Files, KeepEnd};
use edi_statuses::Status;
use std::alloc::Global;

/// The greatest number of bytes of a file.
const MOST: usize = 261_120;

/// Mounts the drive, and reads the file of a title, which has as many bytes as are answered.
fn read_on<D: Drive>(
    alloc: Global,
    drive: &mut D,
    title: &Title,
    into: &mut [u8],
) -> Result<u32, Status>
    requires room { MOST ≤ length into.old }
    ensures reads { WhereTold (D.contents drive.old) (D.contents drive.new) (λ old new. (new ≡ old) × ReadsOn result title.now into.new old) }
    ensures within { IfOk result (λ n. n ≤ length into.new) }
    ensures kind { IfErr result IsOfRead }
    ensures counts { KeepsCounts D.count D.faults (result ≡ Err Status.DriveFault) drive.old drive.new }
    ensures mounted { IfOk result (λ n. MayBeImage (D.count drive.old)) }
    ensures fits { IfErr result (λ s. FitsGet s (D.count drive.old)) }
{
    let mut disk = Disk::attach(drive);
    let mut room = match check(alloc, &mut disk) {
        Ok(room) => room,
        Err(fault) => return Err(mount_status(fault)),
    };
    let mut catalog = mount(disk, &mut room);
    if catalog.find(title).is_none() {
        return Err(Status::Absent);
    }
    match catalog.read_into(title, into) {
        Ok(count) => Ok(count),
        Err(_) => Err(Status::DriveFault),
    }
}

/// The status by the answer of the files.
fn kept(end: KeepEnd) -> Status
    ensures exact { result ≡ status_kept end }
{
    match end {
        KeepEnd::Ok => Status::Ok,
        KeepEnd::Failed => Status::FileFault,
        KeepEnd::NoMemory => Status::NoMemory,
    }
}

/// Mounts the drive, reads the file of the title, and keeps its bytes under the name of the file. It touches the files and the
/// drive alone.
pub fn get<F: Files, D: Drive>(
    alloc: Global,
    files: &mut F,
    drive: &mut D,
    title: &str,
    file: &str,
) -> Status
    requires title { is_title title.now ≡ true }
    ensures means { MeansOnDisk (get title.now file.now) result (F.contents files.old) (F.contents files.new) (D.contents drive.old) (D.contents drive.new) }
    ensures cause { HasCauseOnDisk result (F.faults files.old) (F.faults files.new) (D.faults drive.old) (D.faults drive.new) }
    // The status fits the number of blocks, which stays, whatever the drive tells.
    ensures size { D.count drive.new ≡ D.count drive.old }
    ensures fits { FitsGet result (D.count drive.old) }
    // The drive keeps its blocks, whatever the files tell.
    ensures same { WhereTold (D.contents drive.old) (D.contents drive.new) (λ old new. new ≡ old) }
    // The files are not touched before the file is read, whatever they tell.
    ensures unread { is_unread result ≡ true → files.new ≡ files.old }
{
    let title = title_of(title);
    let Ok(mut into) = vec![in alloc; 0; MOST] else {
        return Status::NoMemory;
    };
    let count = match read_on(alloc, drive, &title, &mut into) {
        Ok(count) => count,
        Err(status) => return status,
    };
    let (bytes, _) = into.split_at(count as usize);
    kept(files.keep(alloc, file, bytes))
}
