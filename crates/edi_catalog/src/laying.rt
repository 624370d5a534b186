//! A new file, laid in free blocks.

ghost use Rattle.std.specs.Prelude.{◌≡◌, ◌≤◌, ◌+◌, true, length, slice_get, Some};
ghost use Rattle.std.specs.List.{list_all};
ghost use Rattle.edi_calls.specs.State.{blocks_of};
ghost use Rattle.edi_image.specs.Stored.{is_stored, blocks_taken};
ghost use Rattle.edi_catalog.specs.Files.{entry_of};
ghost use Rattle.edi_catalog.specs.Plan.{AreFree, used_in};
ghost use Rattle.edi_catalog.specs.Storing.{stored_entry};

use crate::free::free_blocks;
use edi_calls::{FileKind, blocks_of};
use edi_image::{FileRecord, MOST_BYTES, PAGES, Pages, StoredFile, Title, pages_of};

// The second of these numbers, if there is one.
fn second_of(maps: &[u16]) -> Option<u16>
    ensures { result ≡ slice_get maps.now 1 }
{
    maps.get(1).copied()
}

// These page numbers.
fn pages_from(numbers: &[u16]) -> Pages
    requires { length numbers.now ≤ PAGES }
    ensures { result.items ≡ numbers.now }
{
    let mut pages = Pages::new();
    for number in numbers {
        pages.push(*number);
    }
    pages
}

/// A new file of so many bytes, laid in the first free blocks of a drive of `count` blocks, beside these files.
pub(crate) fn lay_file(
    files: &[Option<StoredFile>],
    count: u32,
    title: &Title,
    kind: FileKind,
    size: u32,
) -> StoredFile
    requires image { count ≤ 4096 }
    requires stored { list_all (is_stored count) files.now ≡ true }
    requires most { size ≤ MOST_BYTES }
    requires room { blocks_of size + 33 + blocks_taken files.now ≤ count }
    ensures entry { entry_of result ≡ stored_entry title.now kind size }
    ensures kept { is_stored count (Some result) ≡ true }
    ensures free { AreFree count files.now (used_in (Some result)) }
{
    let wanted = blocks_of(size as usize);
    let blocks = free_blocks(files, count, wanted);
    let (maps, numbers) = blocks.as_slice().split_at(wanted - pages_of(size) as usize);
    StoredFile {
        record: FileRecord {
            title: title.copied(),
            kind,
            protected: false,
            first_map: maps[0],
            second_map: second_of(maps),
            length: size,
        },
        pages: pages_from(numbers),
    }
}
