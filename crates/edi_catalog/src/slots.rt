//! The slots of an image.

ghost use Rattle.std.specs.Prelude.{◌≡◌, ◌≤◌, ◌<◌, ◌+◌, ◌++◌, ◌∷◌, [], map, true, Some, IfErr, IfOk, OnOk, length, Option};
ghost use Rattle.std.specs.List.{list_all};
ghost use Rattle.edi_disk.specs.Shown.{drive_of, IsWorking};
ghost use Rattle.edi_calls.specs.State.{pages_of};
ghost use Rattle.edi_image.specs.Rules.{first_broken, used_by};
ghost use Rattle.edi_image.specs.Entries.{entry_says};
ghost use Rattle.edi_image.specs.Image.{file_rules, entry_rules, entries_of, slot_rules, numbers_of, said_at};
ghost use Rattle.edi_image.specs.Stored.{StoredFile, is_fit, is_record, is_stored, stored_of, titles_of};
ghost use Rattle.edi_catalog.specs.Mounted.{AreEntries, AreWhole, HaveEntries, entry_kept, said_kept};
ghost use Rattle.edi_catalog.specs.Reads.{Checks, EntriesStay};
ghost use Rattle.edi_catalog.specs.Plan.{are_different, blocks_used, used_in};
ghost use Rattle.edi_catalog.specs.Taken.{AreTaken, IsUseOf};
ghost use Rattle.edi_catalog.specs.Counted.{IsInRange};
ghost use Rattle.edi_image.specs.Finds.{Finds, TakesSlot, failed};

use crate::maps::read_maps;
use edi_disk::Disk;
use edi_host::Drive;
use edi_image::{
    BLOCK, ENTRY, FIRST, FileRecord, MountFault, Said, StoredFile, entry_says, has_title, put_file,
};
use std::alloc::Global;

/// The number of slots.
pub(crate) const SLOTS: u32 = 256;

/// Checks the file of a slot, and gives what is kept of it.
fn read_file<D: Drive>(
    disk: &mut Disk<'_, D>,
    files: &[Option<StoredFile>],
    used: &mut Vec<u16>,
    slot: u8,
    file: FileRecord,
) -> Result<StoredFile, MountFault>
    requires works { IsWorking D.contents D.count disk.old }
    requires fits { is_record (D.count (drive_of disk.old)) file ≡ true }
    ensures checks { Checks D.contents D.count D.faults (failed result) disk.old disk.new
        (λ blocks. Finds result (first_broken used.old.items (file_rules FIRST blocks slot (titles_of files.now) file))
        (λ stored. (stored ≡ record { record_ = file; pages = numbers_of blocks (pages_of file.length) file.maps })
        × (used.new.items ≡ used.old.items ++ used_by (file_rules FIRST blocks slot (titles_of files.now) file)))) }
    ensures same { IfOk result (λ stored. stored.record_ ≡ file) }
    ensures entries { OnOk result (EntriesStay disk.old disk.new) }
    ensures taken { IfOk result (λ stored. AreTaken used.old.items used.new.items (used_in (Some stored))) }
    ensures faults { IfErr result (IsInRange (D.count (drive_of disk.old))) }
    ensures stored { IfOk result (λ stored. is_stored (D.count (drive_of disk.old)) (Some stored) ≡ true) }
{
    if has_title(files, &file.title) {
        return Err(MountFault::Entry(slot));
    }
    match read_maps(disk, used, slot, &file) {
        Ok(pages) => Ok(StoredFile {
            record: file,
            pages,
        }),
        Err(fault) => Err(fault),
    }
}

/// What the entry of a slot says, in an image of so many blocks of which these are those with the entries.
fn read_entry(entries: &[[u8; BLOCK]], count: u32, slot: u8) -> Said
    requires { AreWhole entries.now }
    ensures { result ≡ entry_says count (entry_kept entries.now slot) }
{
    let (_, rest) = entries[usize::from(slot) / 8].split_at(ENTRY * (usize::from(slot) % 8));
    let (entry, _) = rest.split_at(ENTRY);
    entry_says(count, entry)
}

/// Checks the entry of a slot, which says this, and puts what is kept of it behind the others.
fn read_slot<D: Drive>(
    disk: &mut Disk<'_, D>,
    files: &mut Vec<Option<StoredFile>>,
    used: &mut Vec<u16>,
    slot: u8,
    said: Said,
) -> Result<(), MountFault>
    requires works { IsWorking D.contents D.count disk.old }
    requires catalogue { FIRST ≤ D.count (drive_of disk.old) }
    requires fits { is_fit (D.count (drive_of disk.old)) said ≡ true }
    ensures checks { Checks D.contents D.count D.faults (failed result) disk.old disk.new
        (λ blocks. said_at blocks slot ≡ said → Finds result (first_broken used.old.items (entry_rules FIRST blocks slot (titles_of files.old.items) (said_at blocks slot)))
        (λ _. TakesSlot used.old.items used.new.items (entry_rules FIRST blocks slot (titles_of files.old.items) (said_at blocks slot))
        files.old.items files.new.items (stored_of blocks (said_at blocks slot)))) }
    ensures entries { OnOk result (EntriesStay disk.old disk.new) }
    ensures taken { OnOk result (IsUseOf used.old.items files.old.items → IsUseOf used.new.items files.new.items) }
    ensures faults { IfErr result (IsInRange (D.count (drive_of disk.old))) }
    ensures says { OnOk result ((file : Option StoredFile) × (files.new.items ≡ files.old.items ++ file ∷ []) × (said ≡ said_kept file)) }
    ensures many { OnOk result (length files.new.items ≡ length files.old.items + 1) }
    ensures stored { OnOk result (list_all (is_stored (D.count (drive_of disk.old))) files.old.items ≡ true
        → list_all (is_stored (D.count (drive_of disk.old))) files.new.items ≡ true) }
{
    match said {
        Said::Free => put_file(files, None),
        Said::Wrong => Err(MountFault::Entry(slot)),
        Said::File(file) => match read_file(disk, files, used, slot, file) {
            Ok(file) => put_file(files, Some(file)),
            Err(fault) => Err(fault),
        },
    }
}

/// Checks the entries of all slots, which stand in these blocks, and gives what is kept of them.
pub(crate) fn read_slots<D: Drive>(
    alloc: Global,
    disk: &mut Disk<'_, D>,
    entries: &[[u8; BLOCK]],
) -> Result<Vec<Option<StoredFile>>, MountFault>
    requires works { IsWorking D.contents D.count disk.old }
    requires catalogue { FIRST ≤ D.count (drive_of disk.old) }
    requires whole { AreWhole entries.now }
    ensures checks { Checks D.contents D.count D.faults (failed result) disk.old disk.new
        (λ blocks. AreEntries entries.now blocks → Finds result (first_broken [] (slot_rules FIRST blocks 0 [] (entries_of blocks)))
        (λ files. files.items ≡ map (stored_of blocks) (entries_of blocks))) }
    ensures entries { OnOk result (EntriesStay disk.old disk.new) }
    ensures apart { IfOk result (λ files. are_different (blocks_used files.items) ≡ true) }
    ensures faults { IfErr result (IsInRange (D.count (drive_of disk.old))) }
    ensures says { IfOk result (λ files. HaveEntries (D.count (drive_of disk.old)) entries.now files.items) }
    ensures many { IfOk result (λ files. length files.items ≡ SLOTS) }
    ensures stored { IfOk result (λ files. list_all (is_stored (D.count (drive_of disk.old))) files.items ≡ true) }
{
    let mut files = Vec::new(alloc);
    let mut used = Vec::new(alloc);
    let count = disk.blocks();
    for slot in 0..SLOTS {
        let said = read_entry(entries, count, slot as u8);
        match read_slot(disk, &mut files, &mut used, slot as u8, said) {
            Ok(()) => {}
            Err(fault) => return Err(fault),
        }
    }
    Ok(files)
}
