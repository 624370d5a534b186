//! Storing a file.

ghost use Rattle.std.specs.Prelude.{◌≡◌, ◌⊎◌, ◌≤◌, ◌<◌, ◌^◌, ◌+◌, true, false, length, Some, None, Err, IfSome, IfOk, MatchResult};
ghost use Rattle.edi_calls.specs.State.{blocks_of};
ghost use Rattle.edi_disk.specs.Shown.{drive_of};
ghost use Rattle.edi_image.specs.Stored.{blocks_taken, is_stored};
ghost use Rattle.edi_catalog.specs.Files.{entry_of, file_titled};
ghost use Rattle.edi_catalog.specs.Plan.{used_in, AreFree};
ghost use Rattle.edi_catalog.specs.Mounted.{IsMounted, disk_of, files_of};
ghost use Rattle.edi_catalog.specs.Writing.{is_protected};
ghost use Rattle.edi_told.specs.Told.{WhereTold};
ghost use Rattle.edi_image.specs.Image.{slots_of};
ghost use Rattle.edi_catalog.specs.InSlots.{free_in, SlotsAnswer};
ghost use Rattle.edi_catalog.specs.Refusing.{no_room};
ghost use Rattle.edi_catalog.specs.Storing.{StoreChanges, blocks_free, free_index, not_stored, index_for, stored_entry};
ghost use Rattle.edi_catalog.specs.SlotsStored.{slots_stored};

use crate::catalog::Catalog;
use crate::ends::CatEnd;
use crate::files::index_of;
use crate::laying::lay_file;
use crate::putting::write_kept;
use edi_calls::{FileKind, blocks_of};
use edi_disk::DiskEnd;
use edi_host::Drive;
use edi_image::{MOST_BYTES, StoredFile, Title};

// The index of the first free slot.
fn free_index(files: &[Option<StoredFile>]) -> Option<usize>
    ensures exact { result ≡ free_index files.now }
    ensures within { IfSome result (λ index. index < length files.now) }
{
    for (index, file) in files.iter().enumerate() {
        if file.is_none() {
            return Some(index);
        }
    }
    None
}

// The index of the slot for a file of this title.
fn index_for(files: &[Option<StoredFile>], title: &Title) -> Option<usize>
    ensures exact { result ≡ index_for title.now files.now }
    ensures within { IfSome result (λ index. index < length files.now) }
{
    match index_of(files, title) {
        Some(index) => Some(index),
        None => free_index(files),
    }
}

// Whether the file with this title is protected.
fn is_titled_protected(files: &[Option<StoredFile>], title: &Title) -> bool
    ensures { result ≡ is_protected (file_titled title.now files.now) }
{
    match index_of(files, title) {
        Some(index) => match &files[index] {
            Some(file) => file.record.protected,
            None => false,
        },
        None => false,
    }
}

// The index of the slot where so many bytes are stored under a title, if they are, where so many blocks are free.
fn index_to_store(
    files: &[Option<StoredFile>],
    title: &Title,
    size: usize,
    free: u32,
) -> Result<usize, CatEnd>
    requires { size < 2 ^ 32 }
    ensures answers { MatchResult result
        (λ index. (not_stored title.now size free files.now ≡ None) × (index_for title.now files.now ≡ Some index))
        (λ why. not_stored title.now size free files.now ≡ Some why) }
    ensures within { IfOk result (λ index. index < length files.now) }
{
    if is_titled_protected(files, title) {
        return Err(CatEnd::Protected);
    }
    if size > MOST_BYTES as usize {
        return Err(CatEnd::TooLarge(size as u32));
    }
    let Some(index) = index_for(files, title) else {
        return Err(CatEnd::CatalogFull);
    };
    let wanted = blocks_of(size) as u32;
    if wanted > free {
        return Err(CatEnd::Full { wanted, free });
    }
    Ok(index)
}

impl<'d, 'c, D: Drive> Catalog<'d, 'c, D> {
    // A new file of these bytes, laid in free blocks beside the files that are kept.
    fn lay_kept(&self, title: &Title, kind: FileKind, bytes: &[u8]) -> StoredFile
        requires mounted { IsMounted D.contents D.count self.now }
        requires most { length bytes.now ≤ MOST_BYTES }
        requires room { blocks_of (length bytes.now) + 33 + blocks_taken (files_of self.now) ≤ D.count (drive_of (disk_of self.now)) }
        ensures entry { entry_of result ≡ stored_entry title.now kind (length bytes.now) }
        ensures kept { is_stored (D.count (drive_of (disk_of self.now))) (Some result) ≡ true }
        ensures free { AreFree (D.count (drive_of (disk_of self.now))) (files_of self.now) (used_in (Some result)) }
    {
        let count = self.disk.blocks();
        lay_file(&self.room.files, count, title, kind, bytes.len() as u32)
    }

    // Stores bytes in a slot, where nothing is against it.
    fn store_at(
        &mut self,
        index: usize,
        title: &Title,
        kind: FileKind,
        bytes: &[u8],
    ) -> Result<(), CatEnd>
        requires mounted { IsMounted D.contents D.count self.old }
        requires index { index_for title.now (files_of self.old) ≡ Some index }
        requires within { index < 256 }
        requires open { is_protected (file_titled title.now (files_of self.old)) ≡ false }
        requires most { length bytes.now ≤ MOST_BYTES }
        requires room { blocks_of (length bytes.now) + 33 + blocks_taken (files_of self.old) ≤ D.count (drive_of (disk_of self.old)) }
        ensures changes { StoreChanges D.contents D.count D.faults result None title.now kind bytes.now self.old self.new }
    {
        let file = self.lay_kept(title, kind, bytes);
        match write_kept(&mut self.disk, self.room, index, &file, bytes) {
            DiskEnd::Ok => {
                self.room.files[index] = Some(file);
                Ok(())
            }
            DiskEnd::Fault => Err(CatEnd::Fault),
        }
    }

    // Stores bytes as a file of this title.
    fn store_kept(&mut self, title: &Title, kind: FileKind, bytes: &[u8]) -> Result<(), CatEnd>
        requires mounted { IsMounted D.contents D.count self.old }
        requires size { length bytes.now < 2 ^ 32 }
        ensures changes { StoreChanges D.contents D.count D.faults result
            (not_stored title.now (length bytes.now) (blocks_free (D.count (drive_of (disk_of self.old))) (files_of self.old)) (files_of self.old))
            title.now kind bytes.now self.old self.new }
    {
        let free = self.free();
        match index_to_store(&self.room.files, title, bytes.len(), free) {
            Ok(index) => self.store_at(index, title, kind, bytes),
            Err(why) => Err(why),
        }
    }

    /// Stores fewer than 2^32 bytes as an unprotected file of this title, in place of an unprotected one. Refusals in their
    /// order: `Protected`; `TooLarge` with the number of bytes; `CatalogFull`; `Full` with the blocks that the file would take
    /// and those that are free, beside the file that is replaced.
    pub fn store(&mut self, title: &Title, kind: FileKind, bytes: &[u8]) -> Result<(), CatEnd>
        requires mounted { IsMounted D.contents D.count self.old }
        requires size { length bytes.now < 2 ^ 32 }
        ensures changes { StoreChanges D.contents D.count D.faults result
            (not_stored title.now (length bytes.now) (blocks_free (D.count (drive_of (disk_of self.old))) (files_of self.old)) (files_of self.old))
            title.now kind bytes.now self.old self.new }
        ensures exact { WhereTold (D.contents (drive_of (disk_of self.old))) (D.contents (drive_of (disk_of self.new)))
            (λ old new. SlotsAnswer result (no_room title.now (length bytes.now) (free_in old) (slots_of old)) (slots_of old)
            (slots_stored title.now kind bytes.now (slots_of old)) (slots_of new)) }
    {
        self.store_kept(title, kind, bytes)
    }
}
