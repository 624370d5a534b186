//! The calls that change one file.

ghost use Rattle.std.specs.Prelude.{◌≡◌, ◌<◌, IfSome, None, true, false};
ghost use Rattle.edi_told.specs.Told.{WhereTold};
ghost use Rattle.edi_disk.specs.Shown.{drive_of};
ghost use Rattle.edi_image.specs.Image.{slots_of};
ghost use Rattle.edi_catalog.specs.InSlots.{SlotsAnswer};
ghost use Rattle.edi_catalog.specs.Refusing.{no_deletion, no_renaming};
ghost use Rattle.edi_calls.specs.State.{find_file, is_title};
ghost use Rattle.edi_catalog.specs.Mounted.{IsMounted, disk_of, files_of};
ghost use Rattle.edi_catalog.specs.Files.{file_titled};
ghost use Rattle.edi_catalog.specs.Changes.{Changes, SetsInSlots, SetsProtection, kept_changed, kept_renamed, not_deleted};
ghost use Rattle.edi_catalog.specs.SlotsChanged.{deleted, file_renamed};
ghost use Rattle.edi_catalog.specs.Changes.{not_renamed};
ghost use Rattle.edi_catalog.specs.SlotsChanged.{slots_changed};
ghost use Rattle.edi_catalog.specs.Writing.{IsRecordAt, is_protected, kept_as, put_file, put_kept, record_protected, record_renamed};

use crate::catalog::Catalog;
use crate::ends::CatEnd;
use crate::writing::put_kept_entry;
use edi_disk::DiskEnd;
use edi_host::Drive;
use edi_image::{FileRecord, StoredFile, Title, slot_bytes};

// The file of a slot is protected.
fn is_protected(file: &Option<StoredFile>) -> bool
    ensures { result ≡ is_protected file.now }
{
    match file {
        Some(file) => file.record.protected,
        None => false,
    }
}

// The record of the file of a slot, protected or not.
fn record_protected(file: &Option<StoredFile>, protected: bool) -> Option<FileRecord>
    ensures { result ≡ record_protected protected file.now }
{
    match file {
        Some(file) => Some(FileRecord {
            title: file.record.title,
            kind: file.record.kind,
            protected,
            first_map: file.record.first_map,
            second_map: file.record.second_map,
            length: file.record.length,
        }),
        None => None,
    }
}

// The record of the file of a slot, with another title.
fn record_renamed(file: &Option<StoredFile>, title: &Title) -> Option<FileRecord>
    ensures exact { result ≡ record_renamed title.now file.now }
    ensures title { IfSome result (λ r. is_title r.title ≡ true) }
{
    match file {
        Some(file) => Some(FileRecord {
            title: title.copied(),
            kind: file.record.kind,
            protected: file.record.protected,
            first_map: file.record.first_map,
            second_map: file.record.second_map,
            length: file.record.length,
        }),
        None => None,
    }
}

// What is kept of a slot, with another record of its file, or freed.
fn kept_as(entry: Option<FileRecord>, file: Option<StoredFile>) -> Option<StoredFile>
    ensures { result ≡ kept_as entry file }
{
    match entry {
        Some(record) => match file {
            Some(file) => Some(StoredFile {
                record,
                pages: file.pages,
            }),
            None => None,
        },
        None => None,
    }
}

impl<'d, 'c, D: Drive> Catalog<'d, 'c, D> {
    // Writes another record of the file of a slot, or frees the slot.
    fn put_slot(&mut self, index: usize, entry: Option<FileRecord>) -> Result<(), CatEnd>
        requires mounted { IsMounted D.contents D.count self.old }
        requires within { index < 256 }
        requires fits { IsRecordAt (files_of self.old) index entry }
        ensures changes { Changes D.contents D.count D.faults result None
            (put_kept (files_of self.old) index entry) (put_file index entry) self.old self.new }
    {
        let bytes = slot_bytes(&entry);
        match put_kept_entry(&mut self.disk, self.room, index, &bytes) {
            DiskEnd::Ok => {
                let file = self.room.files[index].take();
                self.room.files[index] = kept_as(entry, file);
                Ok(())
            }
            DiskEnd::Fault => Err(CatEnd::Fault),
        }
    }

    // Makes a file protected or not.
    fn protect_kept(&mut self, title: &Title, protected: bool) -> Result<(), CatEnd>
        requires mounted { IsMounted D.contents D.count self.old }
        ensures changes { SetsProtection D.contents D.count D.faults result protected title.now self.old self.new }
    {
        let Some(index) = self.index_kept(title) else {
            return Err(CatEnd::NoSuch);
        };
        let entry = record_protected(&self.room.files[index], protected);
        self.put_slot(index, entry)
    }

    /// Makes the file with this title protected, or takes its protection, whichever it had. The one refusal is `NoSuch`.
    pub fn set_protected(&mut self, title: &Title, protected: bool) -> Result<(), CatEnd>
        requires mounted { IsMounted D.contents D.count self.old }
        ensures changes { SetsProtection D.contents D.count D.faults result protected title.now self.old self.new }
        ensures exact { SetsInSlots D.contents result protected title.now self.old self.new }
    {
        self.protect_kept(title, protected)
    }

    /// Protects the file with this title, which may be protected already. The one refusal is `NoSuch`.
    pub fn protect(&mut self, title: &Title) -> Result<(), CatEnd>
        requires mounted { IsMounted D.contents D.count self.old }
        ensures changes { SetsProtection D.contents D.count D.faults result true title.now self.old self.new }
        ensures exact { SetsInSlots D.contents result true title.now self.old self.new }
    {
        self.set_protected(title, true)
    }

    /// Takes the protection from the file with this title, which may have none. The one refusal is `NoSuch`.
    pub fn release(&mut self, title: &Title) -> Result<(), CatEnd>
        requires mounted { IsMounted D.contents D.count self.old }
        ensures changes { SetsProtection D.contents D.count D.faults result false title.now self.old self.new }
        ensures exact { SetsInSlots D.contents result false title.now self.old self.new }
    {
        self.set_protected(title, false)
    }

    // Deletes the file with this title.
    fn delete_kept(&mut self, title: &Title) -> Result<(), CatEnd>
        requires mounted { IsMounted D.contents D.count self.old }
        ensures changes { Changes D.contents D.count D.faults result (not_deleted (file_titled title.now (files_of self.old)))
            (kept_changed deleted title.now (files_of self.old)) (slots_changed deleted title.now) self.old self.new }
    {
        let Some(index) = self.index_kept(title) else {
            return Err(CatEnd::NoSuch);
        };
        if is_protected(&self.room.files[index]) {
            return Err(CatEnd::Protected);
        }
        self.put_slot(index, None)
    }

    // Gives a file another title.
    fn rename_kept(&mut self, from: &Title, to: &Title) -> Result<(), CatEnd>
        requires mounted { IsMounted D.contents D.count self.old }
        ensures changes { Changes D.contents D.count D.faults result
            (not_renamed (file_titled from.now (files_of self.old)) (file_titled to.now (files_of self.old)))
            (kept_changed (kept_renamed to.now) from.now (files_of self.old)) (slots_changed (file_renamed to.now) from.now) self.old self.new }
    {
        let Some(index) = self.index_kept(from) else {
            return Err(CatEnd::NoSuch);
        };
        if is_protected(&self.room.files[index]) {
            return Err(CatEnd::Protected);
        }
        if self.index_kept(to).is_some() {
            return Err(CatEnd::Taken);
        }
        let entry = record_renamed(&self.room.files[index], to);
        self.put_slot(index, entry)
    }

    /// Deletes the file with this title. Refusals in their order: `NoSuch`, `Protected`.
    pub fn delete(&mut self, title: &Title) -> Result<(), CatEnd>
        requires mounted { IsMounted D.contents D.count self.old }
        ensures changes { Changes D.contents D.count D.faults result (not_deleted (file_titled title.now (files_of self.old)))
            (kept_changed deleted title.now (files_of self.old)) (slots_changed deleted title.now) self.old self.new }
        ensures exact { WhereTold (D.contents (drive_of (disk_of self.old))) (D.contents (drive_of (disk_of self.new)))
            (λ blocks after. SlotsAnswer result (no_deletion (find_file (slots_of blocks) title.now)) (slots_of blocks)
            (slots_changed deleted title.now (slots_of blocks)) (slots_of after)) }
    {
        self.delete_kept(title)
    }

    /// Gives the file with the title `from` the title `to`. Refusals in their order: `NoSuch`, `Protected`, `Taken`, also
    /// where both titles are the same.
    pub fn rename(&mut self, from: &Title, to: &Title) -> Result<(), CatEnd>
        requires mounted { IsMounted D.contents D.count self.old }
        ensures changes { Changes D.contents D.count D.faults result
            (not_renamed (file_titled from.now (files_of self.old)) (file_titled to.now (files_of self.old)))
            (kept_changed (kept_renamed to.now) from.now (files_of self.old)) (slots_changed (file_renamed to.now) from.now) self.old self.new }
        ensures exact { WhereTold (D.contents (drive_of (disk_of self.old))) (D.contents (drive_of (disk_of self.new)))
            (λ blocks after. SlotsAnswer result (no_renaming (find_file (slots_of blocks) from.now) (find_file (slots_of blocks) to.now)) (slots_of blocks)
            (slots_changed (file_renamed to.now) from.now (slots_of blocks)) (slots_of after)) }
    {
        self.rename_kept(from, to)
    }
}
