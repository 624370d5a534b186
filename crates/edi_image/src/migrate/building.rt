//! The bytes of an image that is made of files of version 1.

ghost use Rattle.std.specs.Prelude.{◌≡◌, ◌≤◌, ◌<◌, ◌+◌, ◌++◌, ◌*◌, true, None, OnOk, IfOk, Some, length, map, flat_map};
ghost use Rattle.std.specs.List.{list_all, range_with_len};
ghost use Rattle.std.specs.Option.{option_map};
ghost use Rattle.edi_image.specs.Build.{all_two, map_block, two};
ghost use Rattle.edi_image.specs.Entries.{block_at, is_data};
ghost use Rattle.edi_image.specs.migrate.OldFiles.{is_old_stored};
ghost use Rattle.edi_image.specs.Bytes.{bytes_of_record, bytes_of_slot};
ghost use Rattle.edi_image.specs.migrate.Migrated.{blocks_bytes, blocks_of_slot, blocks_of_slots, entries_bytes, laid, laid_from, migrated_bytes, moved, moved_from};

use crate::migrate::old::block_in;
use crate::{BLOCK, ENTRY, FIRST, FileRecord, StoredFile, VERSION, entry_bytes, header_block};
use byteorder::{BigEndian, ByteOrder};
use std::alloc::{AllocError, Global};

// Puts a number behind bytes, in two bytes.
fn put_short(bytes: &mut Vec<u8>, number: u16) -> Result<(), AllocError>
    ensures { OnOk result (bytes.new.items ≡ bytes.old.items ++ two number) }
{
    let mut two = [0; 2];
    BigEndian::write_u16(&mut two, number);
    match bytes.extend_from_slice(&two) {
        Ok(()) => Ok(()),
        Err(error) => Err(error),
    }
}

// Puts so many numbers behind bytes, from one on.
fn put_numbers(bytes: &mut Vec<u8>, first: u16, count: usize) -> Result<(), AllocError>
    requires most { first + count < 65536 }
    ensures { OnOk result (bytes.new.items ≡ bytes.old.items ++ all_two (range_with_len first count)) }
{
    for i in 0..count {
        match put_short(bytes, first + i as u16) {
            Ok(()) => {}
            Err(error) => return Err(error),
        }
    }
    Ok(())
}

// Puts a map block with so many page numbers behind bytes, from one on.
fn put_map(bytes: &mut Vec<u8>, first: u16, count: usize) -> Result<(), AllocError>
    requires few { count ≤ 255 }
    requires most { first + count < 65536 }
    ensures { OnOk result (bytes.new.items ≡ bytes.old.items ++ map_block (range_with_len first count)) }
{
    match put_short(bytes, count as u16) {
        Ok(()) => {}
        Err(error) => return Err(error),
    }
    match put_numbers(bytes, first, count) {
        Ok(()) => {}
        Err(error) => return Err(error),
    }
    let zeros = [0; BLOCK];
    let (rest, _) = zeros.split_at(BLOCK - 2 - 2 * count);
    match bytes.extend_from_slice(rest) {
        Ok(()) => Ok(()),
        Err(error) => Err(error),
    }
}

// Puts blocks behind bytes.
fn put_pages(bytes: &mut Vec<u8>, old: &[[u8; BLOCK]], pages: &[u16]) -> Result<(), AllocError>
    requires { list_all (is_data 5 (length old.now)) pages.now ≡ true }
    ensures { OnOk result (bytes.new.items ≡ bytes.old.items ++ flat_map (block_at old.now) pages.now) }
{
    for page in pages {
        match bytes.extend_from_slice(block_in(old, *page)) {
            Ok(()) => {}
            Err(error) => return Err(error),
        }
    }
    Ok(())
}

// Puts the entry of a file whose first block is this behind bytes, and gives the first block of the next file.
fn put_entry(bytes: &mut Vec<u8>, first: u16, file: &Option<StoredFile>) -> Result<u16, AllocError>
    requires { first + blocks_of_slot file.now ≤ 4096 }
    ensures puts { OnOk result (bytes.new.items ≡ bytes.old.items ++ bytes_of_slot (option_map (moved first) file.now)) }
    ensures next { IfOk result (λ next. next ≡ first + blocks_of_slot file.now) }
{
    match file {
        None => match bytes.extend_from_slice(&[0; ENTRY]) {
            Ok(()) => Ok(first),
            Err(error) => Err(error),
        },
        Some(file) => match bytes.extend_from_slice(&moved_bytes(file, first)) {
            Ok(()) => Ok(first + 1 + file.pages.len() as u16),
            Err(error) => Err(error),
        },
    }
}

// The entry of a file whose first block is this.
fn moved_bytes(file: &StoredFile, first: u16) -> [u8; ENTRY]
    ensures { result ≡ bytes_of_record (moved first file.now) }
{
    entry_bytes(&FileRecord {
        title: file.record.title.copied(),
        kind: file.record.kind,
        protected: file.record.protected,
        first_map: first,
        second_map: None,
        length: file.record.length,
    })
}

// Puts the entries of files behind bytes.
fn put_entries(bytes: &mut Vec<u8>, files: &[Option<StoredFile>]) -> Result<(), AllocError>
    requires { FIRST + blocks_of_slots files.now ≤ 4096 }
    ensures { OnOk result (bytes.new.items ≡ bytes.old.items ++ entries_bytes (moved_from FIRST files.now)) }
{
    let mut first = FIRST;
    for file in files {
        match put_entry(bytes, first, file) {
            Ok(next) => first = next,
            Err(error) => return Err(error),
        }
    }
    Ok(())
}

// Puts the blocks of a file behind bytes, of which this is the first, and gives the first block of the next file.
fn put_file(
    bytes: &mut Vec<u8>,
    old: &[[u8; BLOCK]],
    first: u16,
    file: &Option<StoredFile>,
) -> Result<u16, AllocError>
    requires room { first + blocks_of_slot file.now ≤ 4096 }
    requires stored { is_old_stored (length old.now) file.now ≡ true }
    ensures puts { OnOk result (bytes.new.items ≡ bytes.old.items ++ blocks_bytes (laid old.now first file.now)) }
    ensures next { IfOk result (λ next. next ≡ first + blocks_of_slot file.now) }
{
    match file {
        None => Ok(first),
        Some(file) => {
            match put_map(bytes, first + 1, file.pages.len()) {
                Ok(()) => {}
                Err(error) => return Err(error),
            }
            match put_pages(bytes, old, file.pages.as_slice()) {
                Ok(()) => Ok(first + 1 + file.pages.len() as u16),
                Err(error) => Err(error),
            }
        }
    }
}

// Puts the blocks of files behind bytes.
fn put_files(
    bytes: &mut Vec<u8>,
    old: &[[u8; BLOCK]],
    files: &[Option<StoredFile>],
) -> Result<(), AllocError>
    requires room { FIRST + blocks_of_slots files.now ≤ 4096 }
    requires stored { list_all (is_old_stored (length old.now)) files.now ≡ true }
    ensures { OnOk result (bytes.new.items ≡ bytes.old.items ++ blocks_bytes (laid_from old.now FIRST files.now)) }
{
    let mut first = FIRST;
    for file in files {
        match put_file(bytes, old, first, file) {
            Ok(next) => first = next,
            Err(error) => return Err(error),
        }
    }
    Ok(())
}

/// The bytes of an image of so many blocks with these files, without its free blocks: the catalogue, and then the blocks of each
/// file, its map before its pages.
pub(crate) fn image_bytes(
    alloc: Global,
    count: u16,
    old: &[[u8; BLOCK]],
    files: &[Option<StoredFile>],
) -> Result<Vec<u8>, AllocError>
    requires room { FIRST + blocks_of_slots files.now ≤ 4096 }
    requires stored { list_all (is_old_stored (length old.now)) files.now ≡ true }
    ensures { IfOk result (λ bytes. bytes.items ≡ migrated_bytes old.now count files.now) }
{
    let mut bytes = Vec::from_slice(alloc, &header_block(VERSION, count))?;
    match put_entries(&mut bytes, files) {
        Ok(()) => {}
        Err(error) => return Err(error),
    }
    match put_files(&mut bytes, old, files) {
        Ok(()) => Ok(bytes),
        Err(error) => Err(error),
    }
}
