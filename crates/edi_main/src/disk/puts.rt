//! `put FILE TITLE`.

ghost use Rattle.std.specs.Prelude.{◌≡◌, ◌≤◌, true, length};
ghost use Rattle.edi_told.specs.Told.{WhereTold};
ghost use Rattle.edi_calls.specs.State.{is_title, most_bytes};
ghost use Rattle.edi_words.specs.Words.{put};
ghost use Rattle.edi_statuses.specs.EachObject.{FitsCount, KeepsImage, is_before_drive};
ghost use Rattle.edi_main.specs.disk.OnDisk.{HasCauseOnDisk, MeansOnDisk};
ghost use Rattle.edi_main.specs.disk.OnDrive.{IsOfPut, KeepsCounts, PutsOn};

use crate::disk::storing::store_over;
use crate::disk::titles::title_of;
use crate::steps::{fetch, mount_status};
use edi_catalog::{CatEnd, Title, check, mount};
use edi_disk::Disk;
use edi_host::{Drive, Files};
use edi_statuses::Status;
use std::alloc::Global;

/// As many bytes as decide whether a file is too long for a disk.
const LIMIT: usize = 261_121;

/// The greatest number of bytes of a file.
const MOST: usize = 261_120;

/// Mounts the drive, and stores bytes on it as the file of a title.
fn put_on<D: Drive>(alloc: Global, drive: &mut D, title: &Title, bytes: &[u8]) -> Status
    requires most { length bytes.now ≤ most_bytes }
    ensures puts { WhereTold (D.contents drive.old) (D.contents drive.new) (PutsOn result title.now bytes.now) }
    ensures kind { IsOfPut result }
    ensures counts { KeepsCounts D.count D.faults (result ≡ Status.DriveFault) drive.old drive.new }
    ensures fits { FitsCount result (D.count drive.old) }
{
    let mut disk = Disk::attach(drive);
    let mut room = match check(alloc, &mut disk) {
        Ok(room) => room,
        Err(fault) => return mount_status(fault),
    };
    let mut catalog = mount(disk, &mut room);
    match store_over(&mut catalog, title, bytes) {
        Ok(()) => Status::Ok,
        Err(CatEnd::Fault) => Status::DriveFault,
        Err(_) => Status::DiskFull,
    }
}

/// Fetches the file, checks its length, mounts the drive, and stores the file unprotected in place of any file of the title,
/// protected or not. It touches the files and the drive alone.
pub fn put<F: Files, D: Drive>(
    alloc: Global,
    files: &mut F,
    drive: &mut D,
    file: &str,
    title: &str,
) -> Status
    requires title { is_title title.now ≡ true }
    ensures means { MeansOnDisk (put file.now title.now) result (F.contents files.old) (F.contents files.new) (D.contents drive.old) (D.contents drive.new) }
    ensures cause { HasCauseOnDisk result (F.faults files.old) (F.faults files.new) (D.faults drive.old) (D.faults drive.new) }
    // The status fits the number of blocks, which stays, whatever the drive tells; and where the drive is not asked, it is left alone.
    ensures size { D.count drive.new ≡ D.count drive.old }
    ensures fits { FitsCount result (D.count drive.old) }
    ensures early { is_before_drive result ≡ true → drive.new ≡ drive.old }
    // A valid image stays one, whatever the files tell.
    ensures valid { WhereTold (D.contents drive.old) (D.contents drive.new) KeepsImage }
{
    let bytes = match fetch(alloc, files, file, LIMIT) {
        Ok(bytes) => bytes,
        Err(status) => return status,
    };
    if bytes.len() > MOST {
        return Status::FileLarge;
    }
    put_on(alloc, drive, &title_of(title), &bytes)
}
