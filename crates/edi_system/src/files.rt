//! The calls of the catalogue, on a system.
#![tactic(auto, using(crate::proofs::Catalogue::refused_leaves, crate::proofs::Catalogue::refused_ready, crate::proofs::Catalogue::untouched_else))]

ghost use Rattle.std.specs.Prelude.{◌≡◌, ◌⊎◌, ◌≤◌, ◌<◌, ◌+◌, ◌-◌, ◌^◌, ◌↔◌, true, false, None, Some, Err, IfErr, IfOk, IfSome, OnOk, length, slice_index, slice_index_or};
ghost use Rattle.std.specs.Option.{option_map};
ghost use Rattle.edi_told.specs.Told.{WhereTold};
ghost use Rattle.edi_calls.specs.State.{find_file, free, fresh, most_bytes, pages_of, slot_at};
ghost use Rattle.edi_catalog.specs.Changes.{Changes, SetsProtection, kept_changed, kept_renamed, not_deleted};
ghost use Rattle.edi_catalog.specs.SlotsChanged.{deleted, file_protected, file_renamed};
ghost use Rattle.edi_catalog.specs.Changes.{not_renamed, Untouched};
ghost use Rattle.edi_catalog.specs.SlotsChanged.{slots_changed};
ghost use Rattle.edi_catalog.specs.InSlots.{entry_told, free_in, PageIn};
ghost use Rattle.edi_catalog.specs.Refusing.{no_deletion, no_renaming, no_room, no_such};
ghost use Rattle.edi_image.specs.Image.{slots_of};
ghost use Rattle.edi_system.specs.InState.{left_open, ReadsPage, ReadsWhole, StateAnswer};
ghost use Rattle.edi_catalog.specs.Storing.{StoreChanges, blocks_free, not_stored};
ghost use Rattle.edi_catalog.specs.SlotsStored.{slots_stored};
ghost use Rattle.edi_catalog.specs.Files.{entry_of, file_titled, FileIs, PageIs};
ghost use Rattle.edi_image.specs.Stored.{blocks_taken};
ghost use Rattle.edi_catalog.specs.Mounted.{disk_of, files_of};
ghost use Rattle.edi_catalog.specs.Reads.{GivesBlock, GivesBlocks};
ghost use Rattle.edi_system.specs.State.{catalog_in, drive_in, failed_in, state_of, IsReady};
ghost use Rattle.edi_system.specs.AsCalls.{KeepsDue};
ghost use Rattle.edi_system.specs.Ends.{Keeps};
ghost use Rattle.edi_system.specs.Parts.{KeepsTold};
ghost use Rattle.edi_system.specs.Reading.{forgotten};
ghost use Rattle.edi_system.specs.Catalogue.{failed_at, is_drive_fault, is_refused, IsClosed, OnlyCatalog, OnlyFiles, OpenStays, PositionStays};

use crate::reading::forget_page;
use crate::system::{PAGE, System};
use edi_calls::{FileKind, Outside};
use edi_catalog::{CatEnd, Entry, Title};
use edi_host::{Drive, Sink, Source};

/// The object that has failed in a call of the catalogue.
pub(crate) fn failed_at<X>(answer: &Result<X, CatEnd>) -> Option<Outside>
    ensures { result ≡ failed_at answer.now }
{
    match answer {
        Err(CatEnd::Fault) => Some(Outside::Drive),
        _ => None,
    }
}

/// The call is refused for a named reason.
pub(crate) fn is_refused<X>(answer: &Result<X, CatEnd>) -> bool
    ensures { result ≡ is_refused answer.now }
{
    match answer {
        Ok(_) => false,
        Err(CatEnd::Fault) => false,
        Err(_) => true,
    }
}

impl<D: Drive, S: Source, T: Sink, P: Sink> System<'_, '_, '_, '_, '_, '_, D, S, T, P> {
    /// The file with this title; `None` exactly where no file has it.
    pub fn find(&self, title: &Title) -> Option<Entry>
        ensures exact { result ≡ option_map entry_of (file_titled title.now (files_of (catalog_in self.now))) }
        ensures in_slots { IsReady D.contents D.count self.now → IfSome (D.contents (drive_in self.now))
            (λ blocks. result ≡ option_map entry_told (find_file (slots_of blocks) title.now)) }
    {
        self.catalog.find(title)
    }

    /// The file in a slot; `None` exactly where the slot is free, or there is none of this number.
    pub fn slot(&self, i: usize) -> Option<Entry>
        ensures exact { result ≡ option_map entry_of (slice_index_or (files_of (catalog_in self.now)) i None) }
        ensures in_slots { IsReady D.contents D.count self.now → IfSome (D.contents (drive_in self.now))
            (λ blocks. result ≡ option_map entry_told (slot_at (slots_of blocks) i)) }
    {
        self.catalog.slot(i)
    }

    /// The number of free blocks.
    pub fn free(&self) -> u32
        requires ready { IsReady D.contents D.count self.now }
        ensures exact { result ≡ D.count (drive_in self.now) - (33 + blocks_taken (files_of (catalog_in self.now))) }
        ensures in_slots { IfSome (D.contents (drive_in self.now)) (λ blocks. result ≡ free_in blocks) }
    {
        self.catalog.free()
    }

    /// Reads page `i` of a file, which has more than `i` pages, where a file has the title. What stands in `into` beyond the
    /// file's length is open. The one refusal is `NoSuch`.
    pub fn read_page(&mut self, title: &Title, i: u32, into: &mut [u8; PAGE]) -> Result<(), CatEnd>
        requires ready { IsReady D.contents D.count self.old }
        requires page { IfSome (file_titled title.now (files_of (catalog_in self.old))) (λ file. i < pages_of file.record_.length) }
        ensures no_such { (result ≡ Err CatEnd.NoSuch) ↔ (file_titled title.now (files_of (catalog_in self.old)) ≡ None) }
        ensures refusals { IfErr result (λ why. (why ≡ CatEnd.NoSuch) ⊎ (why ≡ CatEnd.Fault)) }
        ensures untouched { result ≡ Err CatEnd.NoSuch → (self.new ≡ self.old) × (into.new ≡ into.old) }
        ensures files { files_of (catalog_in self.new) ≡ files_of (catalog_in self.old) }
        ensures reads { WhereTold (D.contents (drive_in self.old)) (D.contents (drive_in self.new))
            (λ old new. (new ≡ old) × PageIs result (file_titled title.now (files_of (catalog_in self.old))) i into.new old) }
        ensures page { WhereTold (D.contents (drive_in self.old)) (D.contents (drive_in self.new))
            (λ old new. PageIn result (find_file (slots_of old) title.now) i into.new) }
        ensures exact { WhereTold (state_of D.contents S.left T.taken P.taken self.old) (state_of D.contents S.left T.taken P.taken self.new)
            (λ before after. (after ≡ before) × ReadsPage result (find_file before.slots title.now) i into.new) }
        // Whatever the drive tells: on Ok the page is given as it was cached, or else as it is cached from then on.
        ensures gives { OnOk result (IfSome (file_titled title.now (files_of (catalog_in self.old)))
            (λ file. GivesBlock (slice_index file.pages i) into.new (disk_of (catalog_in self.old)) (disk_of (catalog_in self.new)))) }
        ensures count { D.count (drive_in self.new) ≡ D.count (drive_in self.old) }
        ensures only { OnlyCatalog self.old self.new }
        ensures failed { failed_in self.new ≡ failed_at result }
        ensures ready { is_drive_fault result ≡ false → IsReady D.contents D.count self.new }
        ensures due { KeepsDue T.taken self.old self.new }
        ensures told { KeepsTold D.contents S.left T.taken P.taken self.old self.new }
        ensures keeps { Keeps D.faults S.faults T.faults P.faults (is_drive_fault result) self.old self.new }
    {
        let answer = self.catalog.read_page(title, i, into);
        self.failed = failed_at(&answer);
        answer
    }

    /// Reads a whole file into `into`, which has room for 261,120 bytes, and gives the number of its bytes. What stands in
    /// `into` beyond them is open. The one refusal is `NoSuch`.
    pub fn read_into(&mut self, title: &Title, into: &mut [u8]) -> Result<u32, CatEnd>
        requires ready { IsReady D.contents D.count self.old }
        requires room { most_bytes ≤ length into.old }
        ensures no_such { (result ≡ Err CatEnd.NoSuch) ↔ (file_titled title.now (files_of (catalog_in self.old)) ≡ None) }
        ensures length { IfOk result (λ n. option_map (λ file. file.record_.length) (file_titled title.now (files_of (catalog_in self.old))) ≡ Some n) }
        ensures refusals { IfErr result (λ why. (why ≡ CatEnd.NoSuch) ⊎ (why ≡ CatEnd.Fault)) }
        ensures untouched { result ≡ Err CatEnd.NoSuch → (self.new ≡ self.old) × (into.new ≡ into.old) }
        ensures files { files_of (catalog_in self.new) ≡ files_of (catalog_in self.old) }
        ensures reads { WhereTold (D.contents (drive_in self.old)) (D.contents (drive_in self.new))
            (λ old new. (new ≡ old) × FileIs result title.now into.new old) }
        ensures exact { WhereTold (state_of D.contents S.left T.taken P.taken self.old) (state_of D.contents S.left T.taken P.taken self.new)
            (λ before after. (after ≡ before) × ReadsWhole result (find_file before.slots title.now) into.new) }
        // Whatever the drive tells: on Ok each page that was still cached when it was read is given as it was cached, and each
        // that is cached afterwards as it is.
        ensures gives { OnOk result (IfSome (file_titled title.now (files_of (catalog_in self.old)))
            (λ file. GivesBlocks file.pages (length file.pages) into.new (disk_of (catalog_in self.old)) (disk_of (catalog_in self.new)))) }
        ensures count { D.count (drive_in self.new) ≡ D.count (drive_in self.old) }
        ensures only { OnlyCatalog self.old self.new }
        ensures failed { failed_in self.new ≡ failed_at result }
        ensures ready { is_drive_fault result ≡ false → IsReady D.contents D.count self.new }
        ensures due { KeepsDue T.taken self.old self.new }
        ensures told { KeepsTold D.contents S.left T.taken P.taken self.old self.new }
        ensures keeps { Keeps D.faults S.faults T.faults P.faults (is_drive_fault result) self.old self.new }
    {
        let answer = self.catalog.read_into(title, into);
        self.failed = failed_at(&answer);
        answer
    }

    /// Stores fewer than 2^32 bytes as an unprotected file of this title, in place of an unprotected one, and drops the found
    /// file and the buffer. A named refusal leaves them: in their order `Protected`; `TooLarge` with the number of bytes;
    /// `CatalogFull`; `Full` with the blocks that the file would take and those that are free.
    pub fn store(&mut self, title: &Title, kind: FileKind, bytes: &[u8]) -> Result<(), CatEnd>
        requires ready { IsReady D.contents D.count self.old }
        requires size { length bytes.now < 2 ^ 32 }
        ensures changes { StoreChanges D.contents D.count D.faults result
            (not_stored title.now (length bytes.now) (blocks_free (D.count (drive_in self.old)) (files_of (catalog_in self.old)))
            (files_of (catalog_in self.old)))
            title.now kind bytes.now (catalog_in self.old) (catalog_in self.new) }
        ensures exact { WhereTold (state_of D.contents S.left T.taken P.taken self.old) (state_of D.contents S.left T.taken P.taken self.new)
            (λ before after. StateAnswer result (no_room title.now (length bytes.now) (free before) before.slots)
            (slots_stored title.now kind bytes.now before.slots) fresh before after) }
        ensures untouched { Untouched result self.old self.new }
        ensures stays { is_refused result ≡ true → OpenStays self.old self.new }
        ensures closes { is_refused result ≡ false → IsClosed self.new }
        ensures only { OnlyFiles self.old self.new }
        ensures failed { failed_in self.new ≡ failed_at result }
        ensures ready { is_drive_fault result ≡ false → IsReady D.contents D.count self.new }
        ensures due { KeepsDue T.taken self.old self.new }
        ensures told { KeepsTold D.contents S.left T.taken P.taken self.old self.new }
        ensures keeps { Keeps D.faults S.faults T.faults P.faults (is_drive_fault result) self.old self.new }
    {
        let answer = self.catalog.store(title, kind, bytes);
        self.failed = failed_at(&answer);
        if is_refused(&answer) {
            return answer;
        }
        self.found = None;
        self.buffer.leave();
        answer
    }

    // Makes the file with this title protected, or takes its protection. The found file, with its position, and the buffer stay; where the
    // call was not refused, no page of the file is kept.
    fn set_protected(&mut self, title: &Title, protected: bool) -> Result<(), CatEnd>
        requires ready { IsReady D.contents D.count self.old }
        ensures changes { SetsProtection D.contents D.count D.faults result protected title.now (catalog_in self.old) (catalog_in self.new) }
        ensures exact { WhereTold (state_of D.contents S.left T.taken P.taken self.old) (state_of D.contents S.left T.taken P.taken self.new)
            (λ before after. StateAnswer result (no_such (find_file before.slots title.now)) (slots_changed (file_protected protected) title.now before.slots)
            left_open before after) }
        ensures untouched { Untouched result self.old self.new }
        ensures stays { PositionStays self.old self.new }
        ensures forgets { is_refused result ≡ false → self.new.found ≡ option_map forgotten self.old.found }
        ensures only { OnlyFiles self.old self.new }
        ensures failed { failed_in self.new ≡ failed_at result }
        ensures ready { is_drive_fault result ≡ false → IsReady D.contents D.count self.new }
        ensures due { KeepsDue T.taken self.old self.new }
        ensures told { KeepsTold D.contents S.left T.taken P.taken self.old self.new }
        ensures keeps { Keeps D.faults S.faults T.faults P.faults (is_drive_fault result) self.old self.new }
    {
        let answer = self.catalog.set_protected(title, protected);
        self.failed = failed_at(&answer);
        if is_refused(&answer) {
            return answer;
        }
        forget_page(&mut self.found);
        answer
    }

    /// Protects the file with this title, which may be protected already. The found file, with its
    /// position, and the buffer stay; its page is read again, but after the one refusal, `NoSuch`.
    pub fn protect(&mut self, title: &Title) -> Result<(), CatEnd>
        requires ready { IsReady D.contents D.count self.old }
        ensures changes { SetsProtection D.contents D.count D.faults result true title.now (catalog_in self.old) (catalog_in self.new) }
        ensures exact { WhereTold (state_of D.contents S.left T.taken P.taken self.old) (state_of D.contents S.left T.taken P.taken self.new)
            (λ before after. StateAnswer result (no_such (find_file before.slots title.now)) (slots_changed (file_protected true) title.now before.slots)
            left_open before after) }
        ensures untouched { Untouched result self.old self.new }
        ensures stays { PositionStays self.old self.new }
        ensures forgets { is_refused result ≡ false → self.new.found ≡ option_map forgotten self.old.found }
        ensures only { OnlyFiles self.old self.new }
        ensures failed { failed_in self.new ≡ failed_at result }
        ensures ready { is_drive_fault result ≡ false → IsReady D.contents D.count self.new }
        ensures due { KeepsDue T.taken self.old self.new }
        ensures told { KeepsTold D.contents S.left T.taken P.taken self.old self.new }
        ensures keeps { Keeps D.faults S.faults T.faults P.faults (is_drive_fault result) self.old self.new }
    {
        self.set_protected(title, true)
    }

    /// Takes the protection from the file with this title, which may have none. The found file, with its
    /// position, and the buffer stay; its page is read again, but after the one refusal, `NoSuch`.
    pub fn release(&mut self, title: &Title) -> Result<(), CatEnd>
        requires ready { IsReady D.contents D.count self.old }
        ensures changes { SetsProtection D.contents D.count D.faults result false title.now (catalog_in self.old) (catalog_in self.new) }
        ensures exact { WhereTold (state_of D.contents S.left T.taken P.taken self.old) (state_of D.contents S.left T.taken P.taken self.new)
            (λ before after. StateAnswer result (no_such (find_file before.slots title.now)) (slots_changed (file_protected false) title.now before.slots)
            left_open before after) }
        ensures untouched { Untouched result self.old self.new }
        ensures stays { PositionStays self.old self.new }
        ensures forgets { is_refused result ≡ false → self.new.found ≡ option_map forgotten self.old.found }
        ensures only { OnlyFiles self.old self.new }
        ensures failed { failed_in self.new ≡ failed_at result }
        ensures ready { is_drive_fault result ≡ false → IsReady D.contents D.count self.new }
        ensures due { KeepsDue T.taken self.old self.new }
        ensures told { KeepsTold D.contents S.left T.taken P.taken self.old self.new }
        ensures keeps { Keeps D.faults S.faults T.faults P.faults (is_drive_fault result) self.old self.new }
    {
        self.set_protected(title, false)
    }

    /// Deletes the file with this title, and drops the found file and the buffer. A named refusal leaves them: in their order
    /// `NoSuch`, `Protected`.
    pub fn delete(&mut self, title: &Title) -> Result<(), CatEnd>
        requires ready { IsReady D.contents D.count self.old }
        ensures changes { Changes D.contents D.count D.faults result (not_deleted (file_titled title.now (files_of (catalog_in self.old))))
            (kept_changed deleted title.now (files_of (catalog_in self.old))) (slots_changed deleted title.now) (catalog_in self.old) (catalog_in self.new) }
        ensures exact { WhereTold (state_of D.contents S.left T.taken P.taken self.old) (state_of D.contents S.left T.taken P.taken self.new)
            (λ before after. StateAnswer result (no_deletion (find_file before.slots title.now)) (slots_changed deleted title.now before.slots) fresh before
            after) }
        ensures untouched { Untouched result self.old self.new }
        ensures stays { is_refused result ≡ true → OpenStays self.old self.new }
        ensures closes { is_refused result ≡ false → IsClosed self.new }
        ensures only { OnlyFiles self.old self.new }
        ensures failed { failed_in self.new ≡ failed_at result }
        ensures ready { is_drive_fault result ≡ false → IsReady D.contents D.count self.new }
        ensures due { KeepsDue T.taken self.old self.new }
        ensures told { KeepsTold D.contents S.left T.taken P.taken self.old self.new }
        ensures keeps { Keeps D.faults S.faults T.faults P.faults (is_drive_fault result) self.old self.new }
    {
        let answer = self.catalog.delete(title);
        self.failed = failed_at(&answer);
        if is_refused(&answer) {
            return answer;
        }
        self.found = None;
        self.buffer.leave();
        answer
    }

    /// Gives the file with the title `from` the title `to`, and drops the found file and the buffer. A named refusal leaves
    /// them: in their order `NoSuch`, `Protected`, `Taken`, also where both titles are the same.
    pub fn rename(&mut self, from: &Title, to: &Title) -> Result<(), CatEnd>
        requires ready { IsReady D.contents D.count self.old }
        ensures changes { Changes D.contents D.count D.faults result
            (not_renamed (file_titled from.now (files_of (catalog_in self.old))) (file_titled to.now (files_of (catalog_in self.old))))
            (kept_changed (kept_renamed to.now) from.now (files_of (catalog_in self.old))) (slots_changed (file_renamed to.now) from.now)
            (catalog_in self.old) (catalog_in self.new) }
        ensures exact { WhereTold (state_of D.contents S.left T.taken P.taken self.old) (state_of D.contents S.left T.taken P.taken self.new)
            (λ before after. StateAnswer result (no_renaming (find_file before.slots from.now) (find_file before.slots to.now))
            (slots_changed (file_renamed to.now) from.now before.slots) fresh before after) }
        ensures untouched { Untouched result self.old self.new }
        ensures stays { is_refused result ≡ true → OpenStays self.old self.new }
        ensures closes { is_refused result ≡ false → IsClosed self.new }
        ensures only { OnlyFiles self.old self.new }
        ensures failed { failed_in self.new ≡ failed_at result }
        ensures ready { is_drive_fault result ≡ false → IsReady D.contents D.count self.new }
        ensures due { KeepsDue T.taken self.old self.new }
        ensures told { KeepsTold D.contents S.left T.taken P.taken self.old self.new }
        ensures keeps { Keeps D.faults S.faults T.faults P.faults (is_drive_fault result) self.old self.new }
    {
        let answer = self.catalog.rename(from, to);
        self.failed = failed_at(&answer);
        if is_refused(&answer) {
            return answer;
        }
        self.found = None;
        self.buffer.leave();
        answer
    }
}
