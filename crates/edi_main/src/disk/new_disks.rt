//! `newdisk BLOCKS` and `newdisk BLOCKS --from FILE`.

ghost use Rattle.std.specs.Prelude.{◌≡◌, ◌≤◌, None, Some, true};
ghost use Rattle.edi_told.specs.Faults.{CountRose};
ghost use Rattle.edi_words.specs.Words.{newdisk};
ghost use Rattle.edi_main.specs.disk.OnDisk.{HasCauseOnDisk, IsOfDisk, MeansOnDisk, MeansOnDrive};
ghost use Rattle.edi_statuses.specs.EachObject.{CountsNew, is_before_format};

use crate::steps::fetch;
use edi_catalog::{FormatEnd, format};
use edi_host::{Drive, Files};
use edi_image::migrate::{MigrateEnd, migrate};
use edi_statuses::Status;
use std::alloc::Global;

/// As many bytes as decide what an image of version 1 is: a block more than the largest has.
const LIMIT: usize = 2_097_664;

/// Makes the drive an image of `blocks` blocks, 64 to 4096, with no files. It touches the drive alone; what was on it is lost.
pub fn new_disk<D: Drive>(alloc: Global, drive: &mut D, blocks: u32) -> Status
    requires least { 64 ≤ blocks }
    requires most { blocks ≤ 4096 }
    ensures means { MeansOnDrive (newdisk blocks None) result (D.contents drive.old) (D.contents drive.new) }
    ensures kind { IsOfDisk result }
    ensures size { CountsNew result blocks (D.count drive.old) (D.count drive.new) (D.faults drive.old) (D.faults drive.new) }
    ensures no_files { result ≡ Status.FileFault → ⊥ }
    ensures early { is_before_format result ≡ true → drive.new ≡ drive.old }
    ensures later { D.faults drive.old ≤ D.faults drive.new }
    ensures cause { result ≡ Status.DriveFault → CountRose (D.faults drive.old) (D.faults drive.new) }
{
    match format(alloc, drive, blocks) {
        FormatEnd::Ok => Status::Ok,
        FormatEnd::Fault => Status::DriveFault,
        FormatEnd::NoMemory => Status::NoMemory,
    }
}

/// Makes the drive an image of `blocks` blocks, 64 to 4096, with the files of the image of version 1 that the file is, in the
/// slots of the same numbers. It fetches the file, and checks the image and then the room before it changes the drive. It touches
/// the files and the drive alone.
pub fn new_disk_from<F: Files, D: Drive>(
    alloc: Global,
    files: &mut F,
    drive: &mut D,
    blocks: u32,
    file: &str,
) -> Status
    requires least { 64 ≤ blocks }
    requires most { blocks ≤ 4096 }
    ensures means { MeansOnDisk (newdisk blocks (Some file.now)) result (F.contents files.old) (F.contents files.new) (D.contents drive.old)
        (D.contents drive.new) }
    ensures size { CountsNew result blocks (D.count drive.old) (D.count drive.new) (D.faults drive.old) (D.faults drive.new) }
    // Where it is refused, the drive is left alone, whatever that tells.
    ensures early { is_before_format result ≡ true → drive.new ≡ drive.old }
    ensures cause { HasCauseOnDisk result (F.faults files.old) (F.faults files.new) (D.faults drive.old) (D.faults drive.new) }
{
    let old = match fetch(alloc, files, file, LIMIT) {
        Ok(old) => old,
        Err(status) => return status,
    };
    match migrate(alloc, drive, blocks, &old) {
        MigrateEnd::Ok => Status::Ok,
        MigrateEnd::Image(broken) => Status::BadImage(broken),
        MigrateEnd::Full { .. } => Status::DiskFull,
        MigrateEnd::Fault => Status::DriveFault,
        MigrateEnd::NoMemory => Status::NoMemory,
    }
}
