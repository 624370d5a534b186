//! Putting the blocks of a file.

ghost use Rattle.std.specs.Prelude.{◌≡◌, ◌<◌, ◌+◌, ◌/◌, [], length, slice_index, slice_index_or, Some};
ghost use Rattle.std.specs.Option.{ForSome};
ghost use Rattle.edi_disk.specs.Shown.{drive_of, shown, IsWorking};
ghost use Rattle.edi_image.specs.Bytes.{bytes_of_record};
ghost use Rattle.edi_catalog.specs.Plan.{content_of, used_in};
ghost use Rattle.edi_catalog.specs.Mounted.{AreEntries};
ghost use Rattle.edi_catalog.specs.Writing.{IsSettled, entries_with};
ghost use Rattle.edi_catalog.specs.Putting.{EntryCached, FileCached, MayBePut, PutsBlock, PutsBlocks, WritesNew};

use crate::contents::{block_of, content_of};
use crate::mounting::Checked;
use crate::writing::{put_kept_entry, write_cached};
use edi_calls::blocks_of;
use edi_disk::{Disk, DiskEnd};
use edi_host::Drive;
use edi_image::{StoredFile, entry_bytes};

// Puts the i-th block of a file.
fn put_block<D: Drive>(disk: &mut Disk<'_, D>, file: &StoredFile, bytes: &[u8], i: usize) -> DiskEnd
    requires works { IsWorking D.contents D.count disk.old }
    requires file { MayBePut (D.count (drive_of disk.old)) file.now bytes.now }
    requires within { i < length (used_in (Some file.now)) }
    ensures puts { PutsBlock D.contents D.count D.faults result (slice_index (used_in (Some file.now)) i) (content_of file.now bytes.now i) disk.old disk.new }
{
    disk.put_page(u32::from(block_of(file, i)), &content_of(file, bytes, i))
}

// Puts the maps and the pages of a file, each in its block.
fn put_blocks<D: Drive>(disk: &mut Disk<'_, D>, file: &StoredFile, bytes: &[u8]) -> DiskEnd
    requires works { IsWorking D.contents D.count disk.old }
    requires file { MayBePut (D.count (drive_of disk.old)) file.now bytes.now }
    ensures puts { PutsBlocks D.contents D.count D.faults result (used_in (Some file.now)) (content_of file.now bytes.now) (length (used_in (Some file.now)))
        disk.old disk.new }
{
    for i in 0..blocks_of(bytes.len()) {
        match put_block(disk, file, bytes, i) {
            DiskEnd::Ok => {}
            DiskEnd::Fault => return DiskEnd::Fault,
        }
    }
    DiskEnd::Ok
}

/// Writes the maps and the pages of a file to the drive.
pub(crate) fn write_file<D: Drive>(
    disk: &mut Disk<'_, D>,
    file: &StoredFile,
    bytes: &[u8],
) -> DiskEnd
    requires works { IsWorking D.contents D.count disk.old }
    requires file { MayBePut (D.count (drive_of disk.old)) file.now bytes.now }
    ensures puts { PutsBlocks D.contents D.count D.faults result (used_in (Some file.now)) (content_of file.now bytes.now) (length (used_in (Some file.now)))
        disk.old disk.new }
    ensures settles { result ≡ DiskEnd.Ok → D.contents (drive_of disk.new) ≡ shown D.contents disk.new }
{
    match put_blocks(disk, file, bytes) {
        DiskEnd::Ok => write_cached(disk),
        DiskEnd::Fault => DiskEnd::Fault,
    }
}

/// Writes a new file to the drive: its maps and pages, then, once the drive has them, the entry of its slot, in its block, which
/// the room of a catalogue keeps.
pub(crate) fn write_kept<D: Drive>(
    disk: &mut Disk<'_, D>,
    room: &mut Checked,
    index: usize,
    file: &StoredFile,
    bytes: &[u8],
) -> DiskEnd
    requires disk { IsSettled D.contents D.count disk.old }
    requires file { MayBePut (D.count (drive_of disk.old)) file.now bytes.now }
    requires within { index < 256 }
    requires many { length room.old.entries.items ≡ 32 }
    requires kept { ForSome (D.contents (drive_of disk.old)) (AreEntries room.old.entries.items) }
    ensures writes { WritesNew D.contents D.count D.faults result index file.now bytes.now disk.old disk.new }
    ensures entry_cached { result ≡ DiskEnd.Ok
        → EntryCached (1 + index / 8) (slice_index_or room.new.entries.items (index / 8) []) disk.old disk.new }
    ensures file_cached { result ≡ DiskEnd.Ok → FileCached file.now bytes.now disk.new }
    ensures files { room.new.files.items ≡ room.old.files.items }
    ensures kept { result ≡ DiskEnd.Ok → room.new.entries.items ≡ entries_with index (bytes_of_record file.now.record_) room.old.entries.items }
{
    match write_file(disk, file, bytes) {
        DiskEnd::Ok => put_kept_entry(disk, room, index, &entry_bytes(&file.record)),
        DiskEnd::Fault => DiskEnd::Fault,
    }
}
