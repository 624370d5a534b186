//! Writing the entry of a slot.

ghost use Rattle.std.specs.Prelude.{◌≡◌, ◌≤◌, ◌<◌, ◌+◌, ◌*◌, ◌/◌, ◌%◌, [], length, slice_index_or};
ghost use Rattle.std.specs.Option.{ForSome};
ghost use Rattle.edi_disk.specs.Shown.{drive_of, shown, IsWorking};
ghost use Rattle.edi_image.specs.Entries.{block_at};
ghost use Rattle.edi_catalog.specs.Mounted.{AreEntries};
ghost use Rattle.edi_catalog.specs.Reads.{UsesBlock};
ghost use Rattle.edi_catalog.specs.Writing.{BlockLeaves, Flushes, IsSettled, PutsEntry, Settles, entries_with, patched};

use crate::mounting::Checked;
use edi_disk::{Disk, DiskEnd};
use edi_host::Drive;
use edi_image::{BLOCK, ENTRY};

// Puts an entry over the one at an address in a block.
fn put_over(block: &mut [u8; BLOCK], at: usize, entry: &[u8; ENTRY])
    requires { at + ENTRY ≤ BLOCK }
    ensures { block.new ≡ patched at entry.now block.old }
{
    let (_, rest) = block.split_at_mut(at);
    let (index, _) = rest.split_at_mut(ENTRY);
    index.copy_from_slice(entry);
}

/// Writes to the drive what was put.
pub(crate) fn write_cached<D: Drive>(disk: &mut Disk<'_, D>) -> DiskEnd
    requires works { IsWorking D.contents D.count disk.old }
    ensures flushes { Flushes D.contents D.count D.faults result disk.old disk.new }
{
    disk.flush()
}

// Puts a block, and writes it to the drive.
fn write_block<D: Drive>(disk: &mut Disk<'_, D>, n: u32, bytes: &[u8; BLOCK]) -> DiskEnd
    requires works { IsWorking D.contents D.count disk.old }
    requires settled { D.contents (drive_of disk.old) ≡ shown D.contents disk.old }
    requires in_range { n < D.count (drive_of disk.old) }
    ensures writes { Settles D.contents D.count D.faults result (BlockLeaves result n bytes.now) disk.old disk.new }
    ensures cached { result ≡ DiskEnd.Ok → UsesBlock n bytes.now disk.old disk.new }
{
    match disk.put_page(n, bytes) {
        DiskEnd::Ok => write_cached(disk),
        DiskEnd::Fault => DiskEnd::Fault,
    }
}

/// Writes the entry of a slot to the drive, in its block, which is kept.
pub(crate) fn put_entry<D: Drive>(
    disk: &mut Disk<'_, D>,
    kept: &mut [u8; BLOCK],
    slot: u8,
    entry: &[u8; ENTRY],
) -> DiskEnd
    requires disk { IsSettled D.contents D.count disk.old }
    requires kept { ForSome (D.contents (drive_of disk.old)) (λ blocks. block_at blocks (1 + slot / 8) ≡ kept.old) }
    ensures puts { PutsEntry D.contents D.count D.faults result slot entry.now disk.old disk.new }
    ensures kept { kept.new ≡ patched (ENTRY * (slot % 8)) entry.now kept.old }
    ensures cached { result ≡ DiskEnd.Ok → UsesBlock (1 + slot / 8) kept.new disk.old disk.new }
{
    put_over(kept, ENTRY * (usize::from(slot) % 8), entry);
    write_block(disk, 1 + u32::from(slot) / 8, kept)
}

/// Writes the entry of a slot to the drive, in its block, which the room of a catalogue keeps.
pub(crate) fn put_kept_entry<D: Drive>(
    disk: &mut Disk<'_, D>,
    room: &mut Checked,
    index: usize,
    entry: &[u8; ENTRY],
) -> DiskEnd
    requires disk { IsSettled D.contents D.count disk.old }
    requires within { index < 256 }
    requires many { length room.old.entries.items ≡ 32 }
    requires kept { ForSome (D.contents (drive_of disk.old)) (AreEntries room.old.entries.items) }
    ensures puts { PutsEntry D.contents D.count D.faults result index entry.now disk.old disk.new }
    ensures files { room.new.files.items ≡ room.old.files.items }
    ensures kept { room.new.entries.items ≡ entries_with index entry.now room.old.entries.items }
    ensures cached { result ≡ DiskEnd.Ok → UsesBlock (1 + index / 8) (slice_index_or room.new.entries.items (index / 8) []) disk.old disk.new }
{
    put_entry(disk, &mut room.entries[index / 8], index as u8, entry)
}
