//! The files of an image as they are kept, each in its slot.

ghost use Rattle.std.specs.Prelude.{◌≡◌, ◌≤◌, ◌*◌, ◌++◌, ◌∷◌, [], None, true, length, replicate, MatchResult};
ghost use Rattle.std.specs.List.{list_all, list_any};
ghost use Rattle.std.specs.Str.{bytes_eq};
ghost use Rattle.edi_image.specs.Stored.{blocks_in, blocks_taken, is_sized, is_titled, titles_of};

use crate::entries::FileRecord;
use crate::faults::MountFault;
use crate::pages::Pages;
use crate::title::Title;
use edi_calls::blocks_of;
use std::alloc::Global;
use std::marker::Model;

/// A file as it is kept: its record, and its page numbers in the order of its maps.
#[derive(Drop)]
pub struct StoredFile {
    pub record: FileRecord,
    pub pages: Pages,
}

impl Model for StoredFile {
    ghost use Rattle.edi_image.specs.Stored as spec;

    ghost Value = { spec.StoredFile };

    ghost view = { λ f. record { record_ = f.«record»; pages = f.pages.items } };
}

/// Whether a file of these slots has this title.
pub fn has_title(files: &[Option<StoredFile>], title: &Title) -> bool
    ensures { result ≡ list_any (bytes_eq title.now) (titles_of files.now) }
{
    for file in files {
        if is_titled(file, title) {
            return true;
        }
    }
    false
}

/// Whether the file of a slot has this title.
pub fn is_titled(file: &Option<StoredFile>, title: &Title) -> bool
    ensures { result ≡ is_titled title.now file.now }
{
    match file {
        Some(file) => *title == file.record.title,
        None => false,
    }
}

/// So many free slots.
pub fn free_slots(alloc: Global, count: u32) -> Result<Vec<Option<StoredFile>>, MountFault>
    ensures { MatchResult result (λ files. files.items ≡ replicate count None) (λ fault. fault ≡ MountFault.NoMemory) }
{
    let mut files = Vec::new(alloc);
    for _slot in 0..count {
        match files.push(None) {
            Ok(()) => {}
            Err(_) => return Err(MountFault::NoMemory),
        }
    }
    Ok(files)
}

/// Puts what is kept of a slot behind the others.
pub fn put_file(
    files: &mut Vec<Option<StoredFile>>,
    file: Option<StoredFile>,
) -> Result<(), MountFault>
    ensures { MatchResult result (λ _. files.new.items ≡ files.old.items ++ file ∷ []) (λ fault. fault ≡ MountFault.NoMemory) }
{
    match files.push(file) {
        Ok(()) => Ok(()),
        Err(_) => Err(MountFault::NoMemory),
    }
}

// The number of blocks that the file in a slot takes.
fn blocks_in(file: &Option<StoredFile>) -> u32
    requires { is_sized file.now ≡ true }
    ensures exact { result ≡ blocks_in file.now }
    ensures most { result ≤ 512 }
{
    match file {
        Some(file) => blocks_of(file.record.length as usize) as u32,
        None => 0,
    }
}

/// The number of blocks that the files of up to 256 slots take, none of which is longer than 261,120 bytes.
pub fn blocks_taken(files: &[Option<StoredFile>]) -> u32
    requires slots { length files.now ≤ 256 }
    requires sized { list_all is_sized files.now ≡ true }
    ensures exact { result ≡ blocks_taken files.now }
    ensures most { result ≤ 512 * length files.now }
{
    let mut taken = 0;
    for file in files {
        taken += blocks_in(file);
    }
    taken
}
