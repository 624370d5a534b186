//! The catalogue of a disk.

ghost use Rattle.std.specs.Prelude.{◌≡◌, ◌≤◌, ◌<◌, ◌+◌, ◌-◌, ◌↔◌, ◌⊎◌, None, Some, Err, IfErr, IfOk, IfSome, OnOk, length, slice_index, slice_index_or};
ghost use Rattle.std.specs.Option.{option_map};
ghost use Rattle.edi_told.specs.Faults.{CountRose};
ghost use Rattle.edi_told.specs.Told.{WhereTold};
ghost use Rattle.edi_disk.specs.Shown.{drive_of, reference_of};
ghost use Rattle.edi_calls.specs.State.{find_file, pages_of, slot_at};
ghost use Rattle.edi_image.specs.Image.{slots_of};
ghost use Rattle.edi_catalog.specs.InSlots.{entry_told, free_in, PageIn};
ghost use Rattle.edi_catalog.specs.Mounted.{IsMounted, disk_of, files_of, room_reference};
ghost use Rattle.edi_catalog.specs.Files.{entry_of, file_titled, find_index, FileIs, PageIs};
ghost use Rattle.edi_catalog.specs.Reads.{GivesBlock, GivesBlocks};
ghost use Rattle.edi_image.specs.Stored.{blocks_taken};

use crate::ends::CatEnd;
use crate::entry::Entry;
use crate::files::{entry_in, index_of, page_of};
use crate::mounting::Checked;
use crate::reading::{block, read_stored};
use edi_disk::Disk;
use edi_host::Drive;
use edi_image::{BLOCK, MOST_BYTES, StoredFile, Title, blocks_taken};

/// The number of blocks of the catalogue of an image.
const CATALOGUE: u32 = 33;

/// The files of a disk, in 256 slots. All entries and page numbers are kept in a room that is lent, so that only the pages of
/// files are read from the drive.
#[derive(Drop)]
pub struct Catalog<'d, 'c, D: Drive> {
    pub(crate) disk: Disk<'d, D>,
    pub(crate) room: &'c mut Checked,
}

impl<'d, 'c, D: Drive> Catalog<'d, 'c, D> {
    // The file with this title, as it is kept.
    fn find_kept(&self, title: &Title) -> Option<Entry>
        ensures exact { result ≡ option_map entry_of (file_titled title.now (files_of self.now)) }
    {
        match index_of(&self.room.files, title) {
            Some(index) => entry_in(&self.room.files[index]),
            None => None,
        }
    }

    // The slot of the file with this title.
    pub(crate) fn index_kept(&self, title: &Title) -> Option<usize>
        requires { IsMounted D.contents D.count self.now }
        ensures exact { result ≡ find_index title.now (files_of self.now) }
        ensures within { IfSome result (λ index. index < length (files_of self.now)) }
        ensures bound { IfSome result (λ index. index < 256) }
    {
        index_of(&self.room.files, title)
    }

    // The file in a slot, as it is kept.
    fn slot_kept(&self, i: usize) -> Option<Entry>
        ensures exact { result ≡ option_map entry_of (slice_index_or (files_of self.now) i None) }
    {
        match self.room.files.get(i) {
            Some(file) => entry_in(file),
            None => None,
        }
    }

    // The number of free blocks, as the files are kept.
    fn free_kept(&self) -> u32
        requires { IsMounted D.contents D.count self.now }
        ensures exact { result ≡ D.count (drive_of (disk_of self.now)) - (CATALOGUE + blocks_taken (files_of self.now)) }
    {
        self.disk
            .blocks()
            .saturating_sub(CATALOGUE + blocks_taken(&self.room.files))
    }

    /// The file with this title; `None` exactly where no file has it.
    pub fn find(&self, title: &Title) -> Option<Entry>
        ensures exact { result ≡ option_map entry_of (file_titled title.now (files_of self.now)) }
        ensures in_slots { IsMounted D.contents D.count self.now → IfSome (D.contents (drive_of (disk_of self.now)))
            (λ blocks. result ≡ option_map entry_told (find_file (slots_of blocks) title.now)) }
    {
        self.find_kept(title)
    }

    /// The file in a slot; `None` exactly where the slot is free, or there is none of this number.
    pub fn slot(&self, i: usize) -> Option<Entry>
        ensures exact { result ≡ option_map entry_of (slice_index_or (files_of self.now) i None) }
        ensures in_slots { IsMounted D.contents D.count self.now → IfSome (D.contents (drive_of (disk_of self.now)))
            (λ blocks. result ≡ option_map entry_told (slot_at (slots_of blocks) i)) }
    {
        self.slot_kept(i)
    }

    /// The number of free blocks: those of the drive less the 33 of the catalogue and those that the files take.
    pub fn free(&self) -> u32
        requires { IsMounted D.contents D.count self.now }
        ensures exact { result ≡ D.count (drive_of (disk_of self.now)) - (CATALOGUE + blocks_taken (files_of self.now)) }
        ensures in_slots { IfSome (D.contents (drive_of (disk_of self.now))) (λ blocks. result ≡ free_in blocks) }
    {
        self.free_kept()
    }

    /// Reads page `i` of a file, which has more than `i` pages, where a file has the title. What stands in `into` beyond the
    /// file's length is open. The one refusal is `NoSuch`.
    pub fn read_page(&mut self, title: &Title, i: u32, into: &mut [u8; BLOCK]) -> Result<(), CatEnd>
        requires mounted { IsMounted D.contents D.count self.old }
        requires page { IfSome (file_titled title.now (files_of self.old)) (λ file. i < pages_of file.record_.length) }
        ensures no_such { (result ≡ Err CatEnd.NoSuch) ↔ (file_titled title.now (files_of self.old) ≡ None) }
        ensures refusals { IfErr result (λ why. (why ≡ CatEnd.NoSuch) ⊎ (why ≡ CatEnd.Fault)) }
        ensures untouched { result ≡ Err CatEnd.NoSuch → (self.new ≡ self.old) × (into.new ≡ into.old) }
        ensures files { files_of self.new ≡ files_of self.old }
        ensures mounted { result ≡ Err CatEnd.Fault ⊎ IsMounted D.contents D.count self.new }
        ensures reads { WhereTold (D.contents (drive_of (disk_of self.old))) (D.contents (drive_of (disk_of self.new)))
            (λ old new. (new ≡ old) × PageIs result (file_titled title.now (files_of self.old)) i into.new old) }
        // Byte k of the page is byte 512 i + k of the file.
        ensures page { WhereTold (D.contents (drive_of (disk_of self.old))) (D.contents (drive_of (disk_of self.new)))
            (λ old new. PageIn result (find_file (slots_of old) title.now) i into.new) }
        // Whatever the drive tells: on Ok the page is given as it was cached, or else as it is cached from then on.
        ensures gives { OnOk result (IfSome (file_titled title.now (files_of self.old))
            (λ file. GivesBlock (slice_index file.pages i) into.new (disk_of self.old) (disk_of self.new))) }
        ensures same_reference { reference_of (disk_of self.new) ≡ reference_of (disk_of self.old) }
        ensures same_room { room_reference self.new ≡ room_reference self.old }
        ensures count { D.count (drive_of (disk_of self.new)) ≡ D.count (drive_of (disk_of self.old)) }
        ensures later { D.faults (drive_of (disk_of self.old)) ≤ D.faults (drive_of (disk_of self.new)) }
        ensures cause { result ≡ Err CatEnd.Fault → CountRose (D.faults (drive_of (disk_of self.old))) (D.faults (drive_of (disk_of self.new))) }
    {
        let Some(page) = page_of(&self.room.files, title, i) else {
            return Err(CatEnd::NoSuch);
        };
        match block(&mut self.disk, u32::from(page)) {
            Ok(bytes) => {
                *into = bytes;
                Ok(())
            }
            Err(_) => Err(CatEnd::Fault),
        }
    }

    /// Reads a whole file into `into`, which has room for 261,120 bytes, and gives the number of its bytes. What stands in
    /// `into` beyond them is open. The one refusal is `NoSuch`.
    pub fn read_into(&mut self, title: &Title, into: &mut [u8]) -> Result<u32, CatEnd>
        requires mounted { IsMounted D.contents D.count self.old }
        requires room { MOST_BYTES ≤ length into.old }
        ensures no_such { (result ≡ Err CatEnd.NoSuch) ↔ (file_titled title.now (files_of self.old) ≡ None) }
        ensures length { IfOk result (λ n. option_map (λ file. file.record_.length) (file_titled title.now (files_of self.old)) ≡ Some n) }
        ensures refusals { IfErr result (λ why. (why ≡ CatEnd.NoSuch) ⊎ (why ≡ CatEnd.Fault)) }
        ensures untouched { result ≡ Err CatEnd.NoSuch → (self.new ≡ self.old) × (into.new ≡ into.old) }
        ensures files { files_of self.new ≡ files_of self.old }
        ensures mounted { result ≡ Err CatEnd.Fault ⊎ IsMounted D.contents D.count self.new }
        ensures reads { WhereTold (D.contents (drive_of (disk_of self.old))) (D.contents (drive_of (disk_of self.new)))
            (λ old new. (new ≡ old) × FileIs result title.now into.new old) }
        // Whatever the drive tells: on Ok each page that was still cached when it was read is given as it was cached, and each
        // that is cached afterwards as it is.
        ensures gives { OnOk result (IfSome (file_titled title.now (files_of self.old))
            (λ file. GivesBlocks file.pages (length file.pages) into.new (disk_of self.old) (disk_of self.new))) }
        ensures same_reference { reference_of (disk_of self.new) ≡ reference_of (disk_of self.old) }
        ensures same_room { room_reference self.new ≡ room_reference self.old }
        ensures count { D.count (drive_of (disk_of self.new)) ≡ D.count (drive_of (disk_of self.old)) }
        ensures later { D.faults (drive_of (disk_of self.old)) ≤ D.faults (drive_of (disk_of self.new)) }
        ensures cause { result ≡ Err CatEnd.Fault → CountRose (D.faults (drive_of (disk_of self.old))) (D.faults (drive_of (disk_of self.new))) }
    {
        let Some(index) = self.index_kept(title) else {
            return Err(CatEnd::NoSuch);
        };
        match &self.room.files[index] {
            Some(file) => match read_stored(&mut self.disk, file, into) {
                Ok(count) => Ok(count),
                Err(_) => Err(CatEnd::Fault),
            },
            None => Err(CatEnd::NoSuch),
        }
    }
}
