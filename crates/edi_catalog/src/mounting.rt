//! Mounting an image: it is checked first, by a call that only borrows the disk.

ghost use Rattle.std.specs.Prelude.{◌≡◌, ◌⊎◌, ◌≤◌, ◌<◌, [], OnOk, IfErr, IfOk, Err, None, true, false, length, map, replicate, ⊤};
ghost use Rattle.std.specs.List.{list_all};
ghost use Rattle.edi_told.specs.Faults.{CountRose};
ghost use Rattle.edi_told.specs.Told.{WhereTold};
ghost use Rattle.edi_disk.specs.Shown.{drive_of, reference_of, shown, IsClean, IsWorking};
ghost use Rattle.edi_image.specs.Rules.{first_broken};
ghost use Rattle.edi_image.specs.Image.{header_rules, entries_of, mount_fault_of};
ghost use Rattle.edi_image.specs.Stored.{is_stored, stored_of};
ghost use Rattle.edi_image.specs.Finds.{Finds, failed};
ghost use Rattle.edi_catalog.specs.Plan.{are_different, blocks_used};
ghost use Rattle.edi_catalog.specs.Reads.{Checks};
ghost use Rattle.edi_catalog.specs.Taken.{IsOtherHeader};
ghost use Rattle.edi_catalog.specs.Counted.{IsOfCount};
ghost use Rattle.edi_catalog.specs.Mounted.{AreCached, AreEntries, AreWhole, HaveEntries, IsMountedOn, disk_of, room_of, room_reference};

use crate::catalog::Catalog;
use crate::entry_blocks::entry_blocks;
use crate::reading::block;
use crate::slots::{SLOTS, read_slots};
use edi_disk::Disk;
use edi_host::Drive;
use edi_image::{BLOCK, MountFault, StoredFile, VERSION, free_slots, header_block};
use std::alloc::Global;

/// The least number of blocks of an image.
const LEAST: u32 = 64;

/// The greatest number of blocks of an image.
const MOST: u32 = 4096;

// Checks the number of blocks, and block 0.
fn check_header<D: Drive>(disk: &mut Disk<'_, D>) -> Result<(), MountFault>
    requires works { IsWorking D.contents D.count disk.old }
    requires some { 0 < D.count (drive_of disk.old) }
    ensures checks { Checks D.contents D.count D.faults (failed result) disk.old disk.new
        (λ blocks. Finds result (first_broken [] (header_rules 2 blocks)) (λ _. ⊤)) }
    ensures least { OnOk result (LEAST ≤ D.count (drive_of disk.old)) }
    ensures most { OnOk result (D.count (drive_of disk.old) ≤ MOST) }
    ensures faults { IfErr result (IsOfCount (D.count (drive_of disk.old))) }
    ensures short { D.count (drive_of disk.old) < LEAST → result ≡ Err MountFault.Short }
    ensures long { MOST < D.count (drive_of disk.old) → result ≡ Err MountFault.Header }
    ensures header { result ≡ Err MountFault.Header → (MOST < D.count (drive_of disk.old)) ⊎ IsOtherHeader (D.count (drive_of disk.old)) disk.new }
{
    let count = disk.blocks();
    if count < LEAST {
        return Err(MountFault::Short);
    }
    if count > MOST {
        return Err(MountFault::Header);
    }
    match block(disk, 0) {
        Ok(bytes) => {
            if bytes == header_block(VERSION, count as u16) {
                Ok(())
            } else {
                Err(MountFault::Header)
            }
        }
        Err(fault) => Err(fault),
    }
}

/// What a check has found of the slots of a disk, in the room that a mounted catalogue keeps it in.
#[derive(Drop)]
pub struct Checked {
    pub(crate) files: Vec<Option<StoredFile>>,
    pub(crate) entries: Vec<[u8; BLOCK]>,
}

// What is kept of no disk: it has no files and no blocks.
fn no_image(alloc: Global) -> Result<Checked, MountFault>
    ensures fault { IfErr result (λ why. why ≡ MountFault.NoMemory) }
    ensures files { IfOk result (λ checked. checked.files.items ≡ replicate SLOTS None) }
    ensures entries { IfOk result (λ checked. checked.entries.items ≡ []) }
{
    match free_slots(alloc, SLOTS) {
        Ok(files) => Ok(Checked {
            files,
            entries: Vec::new(alloc),
        }),
        Err(fault) => Err(fault),
    }
}

// Checks the image of a disk that has blocks, and gives all that is kept of it.
fn read_image<D: Drive>(alloc: Global, disk: &mut Disk<'_, D>) -> Result<Checked, MountFault>
    requires works { IsWorking D.contents D.count disk.old }
    requires some { 0 < D.count (drive_of disk.old) }
    ensures checks { Checks D.contents D.count D.faults (failed result) disk.old disk.new
        (λ blocks. Finds result (mount_fault_of blocks)
        (λ checked. (checked.files.items ≡ map (stored_of blocks) (entries_of blocks)) × AreEntries checked.entries.items blocks)) }
    ensures many { IfOk result (λ checked. length checked.files.items ≡ SLOTS) }
    ensures whole { IfOk result (λ checked. AreWhole checked.entries.items) }
    ensures cached { IfOk result (λ checked. AreCached checked.entries.items disk.new) }
    ensures said { IfOk result (λ checked. HaveEntries (D.count (drive_of disk.old)) checked.entries.items checked.files.items) }
    ensures most { OnOk result (D.count (drive_of disk.old) ≤ MOST) }
    ensures apart { IfOk result (λ checked. are_different (blocks_used checked.files.items) ≡ true) }
    ensures stored { IfOk result (λ checked. list_all (is_stored (D.count (drive_of disk.old))) checked.files.items ≡ true) }
    ensures faults { IfErr result (IsOfCount (D.count (drive_of disk.old))) }
    ensures short { D.count (drive_of disk.old) < LEAST → result ≡ Err MountFault.Short }
    ensures long { MOST < D.count (drive_of disk.old) → result ≡ Err MountFault.Header }
    ensures header { result ≡ Err MountFault.Header → (MOST < D.count (drive_of disk.old)) ⊎ IsOtherHeader (D.count (drive_of disk.old)) disk.new }
{
    match check_header(disk) {
        Ok(()) => {}
        Err(fault) => return Err(fault),
    }
    let entries = match entry_blocks(alloc, disk) {
        Ok(entries) => entries,
        Err(fault) => return Err(fault),
    };
    match read_slots(alloc, disk, &entries) {
        Ok(files) => Ok(Checked { files, entries }),
        Err(fault) => Err(fault),
    }
}

// Checks the image of a disk, and gives all that is kept of it.
fn read_disk<D: Drive>(alloc: Global, disk: &mut Disk<'_, D>) -> Result<Checked, MountFault>
    requires works { IsWorking D.contents D.count disk.old }
    ensures checks { Checks D.contents D.count D.faults (failed result) disk.old disk.new
        (λ blocks. Finds result (mount_fault_of blocks)
        (λ checked. (checked.files.items ≡ map (stored_of blocks) (entries_of blocks)) × AreEntries checked.entries.items blocks)) }
    ensures many { IfOk result (λ checked. length checked.files.items ≡ SLOTS) }
    ensures whole { IfOk result (λ checked. 0 < D.count (drive_of disk.old) → AreWhole checked.entries.items) }
    ensures cached { IfOk result (λ checked. 0 < D.count (drive_of disk.old) → AreCached checked.entries.items disk.new) }
    ensures said { IfOk result (λ checked. 0 < D.count (drive_of disk.old)
        → HaveEntries (D.count (drive_of disk.old)) checked.entries.items checked.files.items) }
    ensures most { OnOk result (D.count (drive_of disk.old) ≤ MOST) }
    ensures apart { IfOk result (λ checked. are_different (blocks_used checked.files.items) ≡ true) }
    ensures stored { IfOk result (λ checked. list_all (is_stored (D.count (drive_of disk.old))) checked.files.items ≡ true) }
    ensures faults { IfErr result (IsOfCount (D.count (drive_of disk.old))) }
    ensures short { 0 < D.count (drive_of disk.old) → D.count (drive_of disk.old) < LEAST → result ≡ Err MountFault.Short }
    ensures long { MOST < D.count (drive_of disk.old) → result ≡ Err MountFault.Header }
    ensures header { result ≡ Err MountFault.Header → (MOST < D.count (drive_of disk.old)) ⊎ IsOtherHeader (D.count (drive_of disk.old)) disk.new }
{
    if disk.blocks() == 0 {
        no_image(alloc)
    } else {
        read_image(alloc, disk)
    }
}

/// Checks the image of a disk, and makes room for all that is kept of it. Of the faults of the image the first is answered, in
/// the order of the slots. The disk keeps its blocks, and but for `Fault` it may be called after every answer.
///
/// No call of the disk has answered `Fault`, and what was put was flushed. A drive of 0 blocks is no disk: it has no files and
/// no free block.
pub fn check<D: Drive>(alloc: Global, disk: &mut Disk<'_, D>) -> Result<Checked, MountFault>
    requires works { IsWorking D.contents D.count disk.old }
    requires settled { D.contents (drive_of disk.old) ≡ shown D.contents disk.old }
    requires clean { IsClean disk.old }
    ensures checked { IfOk result (IsMountedOn D.contents D.count disk.new) }
    ensures leaves { WhereTold (D.contents (drive_of disk.old)) (D.contents (drive_of disk.new))
        (λ old new. (new ≡ old) × Finds result (mount_fault_of old) (λ _. ⊤)) }
    ensures faults { IfErr result (IsOfCount (D.count (drive_of disk.old))) }
    ensures short { 0 < D.count (drive_of disk.old) → D.count (drive_of disk.old) < LEAST → result ≡ Err MountFault.Short }
    ensures long { MOST < D.count (drive_of disk.old) → result ≡ Err MountFault.Header }
    ensures header { result ≡ Err MountFault.Header → (MOST < D.count (drive_of disk.old)) ⊎ IsOtherHeader (D.count (drive_of disk.old)) disk.new }
    ensures works { failed result ≡ false → IsWorking D.contents D.count disk.new }
    ensures settled { failed result ≡ false → D.contents (drive_of disk.new) ≡ shown D.contents disk.new }
    ensures clean { failed result ≡ false → IsClean disk.new }
    ensures same_reference { reference_of disk.new ≡ reference_of disk.old }
    ensures count { D.count (drive_of disk.new) ≡ D.count (drive_of disk.old) }
    ensures later { D.faults (drive_of disk.old) ≤ D.faults (drive_of disk.new) }
    ensures cause { result ≡ Err MountFault.Fault → CountRose (D.faults (drive_of disk.old)) (D.faults (drive_of disk.new)) }
{
    match read_disk(alloc, disk) {
        Ok(checked) => Ok(checked),
        Err(fault) => Err(fault),
    }
}

/// The files of a disk that has been checked, in the room that the check has made.
pub fn mount<'d, 'c, D: Drive>(disk: Disk<'d, D>, room: &'c mut Checked) -> Catalog<'d, 'c, D>
    requires mounted { IsMountedOn D.contents D.count disk room.old }
    ensures disk { disk_of result ≡ disk.entry }
    ensures room { room_of result ≡ room.old }
    ensures same_room { room_reference result ≡ room.entry.ghost_name }
{
    Catalog { disk, room }
}
