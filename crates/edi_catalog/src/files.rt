//! The slots of a mounted catalogue.

ghost use Rattle.std.specs.Prelude.{◌≡◌, ◌<◌, IfSome, length, slice_index};
ghost use Rattle.std.specs.Option.{option_map};
ghost use Rattle.edi_catalog.specs.Files.{entry_of, file_titled, find_index};

use crate::entry::Entry;
use edi_image::{StoredFile, Title, is_titled};

/// The slot of the file with this title.
pub(crate) fn index_of(files: &[Option<StoredFile>], title: &Title) -> Option<usize>
    ensures exact { result ≡ find_index title.now files.now }
    ensures within { IfSome result (λ index. index < length files.now) }
{
    for (index, file) in files.iter().enumerate() {
        if is_titled(file, title) {
            return Some(index);
        }
    }
    None
}

/// What the catalogue tells of the file in a slot.
pub(crate) fn entry_in(file: &Option<StoredFile>) -> Option<Entry>
    ensures { result ≡ option_map entry_of file.now }
{
    match file {
        Some(file) => Some(Entry {
            title: file.record.title,
            kind: file.record.kind,
            protected: file.record.protected,
            length: file.record.length,
        }),
        None => None,
    }
}

/// The number of page `i` of the file with this title, if there is one.
pub(crate) fn page_of(files: &[Option<StoredFile>], title: &Title, i: u32) -> Option<u16>
    requires { IfSome (file_titled title.now files.now) (λ file. i < length file.pages) }
    ensures { result ≡ option_map (λ file. slice_index file.pages i) (file_titled title.now files.now) }
{
    match index_of(files, title) {
        Some(index) => match &files[index] {
            Some(file) => Some(file.pages[i as usize]),
            None => None,
        },
        None => None,
    }
}
