//! Images of version 1, which are only read.

ghost use Rattle.std.specs.Prelude.{◌≡◌, ◌≤◌, ◌<◌, ◌+◌, ◌++◌, ◌∷◌, [], true, false, Some, None, IfOk, OnOk, if◌then◌else◌, length, map, replicate};
ghost use Rattle.std.specs.Prelude.{MatchResult, ⊤};
ghost use Rattle.std.specs.List.{list_all};
ghost use Rattle.edi_calls.specs.State.{pages_of};
ghost use Rattle.edi_image.specs.Rules.{first_broken, used_by};
ghost use Rattle.edi_image.specs.Entries.{block_at, is_data};
ghost use Rattle.edi_image.specs.migrate.OldEntries.{is_old_entry, old_entry_says, old_fields_fit, old_record_in};
ghost use Rattle.edi_image.specs.Image.{entry_rules, file_rules, header_rules, map_rules, numbers_in, numbers_of, slot_rules};
ghost use Rattle.edi_image.specs.migrate.OldImage.{old_entries_of, old_fault_of};
ghost use Rattle.edi_image.specs.migrate.OldFiles.{TakesMap, is_old_fit, is_old_record, is_old_stored, old_files_of, old_said_at};
ghost use Rattle.edi_image.specs.Stored.{stored_of, titles_of};
ghost use Rattle.edi_image.specs.Finds.{Finds, TakesSlot, failed};

use crate::{
    BLOCK, FileRecord, MountFault, Pages, Said, StoredFile, Title, are_zeros, check_pages,
    free_slots, has_title, header_block, is_data, kind_of, long_at, pages_of, put_file,
    read_numbers, short_at,
};
use std::alloc::Global;

/// The version of these images.
const VERSION: u8 = 1;

/// The first block behind the catalogue.
const FIRST: u16 = 5;

/// The bytes of an entry.
const ENTRY: usize = 32;

/// The bytes of a title.
const TITLE: usize = 12;

/// The number of slots.
const SLOTS: u32 = 64;

/// The number of slots of an image of version 2 that are free at first.
const MORE_SLOTS: u32 = 192;

/// The greatest number of bytes of a file.
const MOST_BYTES: u32 = 130_560;

// Whether the fields behind the title of an entry keep their rules.
fn fields_fit(count: u32, bytes: &[u8]) -> bool
    requires { length bytes.now ≡ ENTRY }
    ensures { result ≡ old_fields_fit count bytes.now }
{
    let (_, zeros) = bytes.split_at(20);
    (bytes[12] == 1 || bytes[12] == 2)
        && bytes[13] <= 1
        && long_at(bytes, 16) <= MOST_BYTES
        && is_data(FIRST, count, short_at(bytes, 14))
        && are_zeros(zeros)
}

// The file of an entry, if it keeps its rules.
fn record_in(count: u32, bytes: &[u8]) -> Option<FileRecord>
    requires { length bytes.now ≡ ENTRY }
    ensures { result ≡ (if is_old_entry count bytes.now then Some (old_record_in bytes.now) else None) }
{
    if !fields_fit(count, bytes) {
        return None;
    }
    let (characters, _) = bytes.split_at(TITLE);
    match Title::new(characters) {
        Some(title) => Some(FileRecord {
            title,
            kind: kind_of(bytes[12]),
            protected: bytes[13] == 1,
            first_map: short_at(bytes, 14),
            second_map: None,
            length: long_at(bytes, 16),
        }),
        None => None,
    }
}

// What an entry says, in an image of so many blocks.
fn entry_says(count: u32, bytes: &[u8]) -> Said
    requires { length bytes.now ≡ ENTRY }
    ensures { result ≡ old_entry_says count bytes.now }
{
    if are_zeros(bytes) {
        return Said::Free;
    }
    match record_in(count, bytes) {
        Some(record) => Said::File(record),
        None => Said::Wrong,
    }
}

/// The block of this number.
pub(crate) fn block_in(blocks: &[[u8; BLOCK]], n: u16) -> &[u8; BLOCK]
    requires { n < length blocks.now }
    ensures { result.now ≡ block_at blocks.now n }
{
    &blocks[usize::from(n)]
}

// What the entry of a slot says.
fn said_at(blocks: &[[u8; BLOCK]], slot: u8) -> Said
    requires slot { slot < SLOTS }
    requires least { 64 ≤ length blocks.now }
    requires most { length blocks.now ≤ 4096 }
    ensures says { result ≡ old_said_at blocks.now slot }
    ensures fits { is_old_fit (length blocks.now) result ≡ true }
{
    let block = block_in(blocks, 1 + u16::from(slot) / 16);
    let (_, rest) = block.split_at(ENTRY * (usize::from(slot) % 16));
    let (entry, _) = rest.split_at(ENTRY);
    entry_says(blocks.len() as u32, entry)
}

// Checks the map block of the file in a slot, which has so many pages, and gives the page numbers.
fn read_map(
    blocks: &[[u8; BLOCK]],
    used: &mut Vec<u16>,
    slot: u8,
    map: u16,
    count: usize,
) -> Result<Pages, MountFault>
    requires on_drive { is_data FIRST (length blocks.now) map ≡ true }
    requires most { length blocks.now ≤ 4096 }
    requires few { count ≤ 255 }
    ensures finds { Finds result (first_broken used.old.items (map_rules FIRST blocks.now slot count map))
        (λ pages. TakesMap used.old.items used.new.items (map_rules FIRST blocks.now slot count map) pages.items (numbers_in (block_at blocks.now map) count)) }
    ensures pages { IfOk result (λ pages. length pages.items ≡ count) }
    ensures range { IfOk result (λ pages. list_all (is_data FIRST (length blocks.now)) pages.items ≡ true) }
    ensures alone { failed result ≡ false }
{
    if used.contains(&map) {
        return Err(MountFault::Shared(map));
    }
    if used.push(map).is_err() {
        return Err(MountFault::NoMemory);
    }
    let block = block_in(blocks, map);
    if usize::from(short_at(block, 0)) != count {
        return Err(MountFault::Entry(slot));
    }
    let mut pages = Pages::new();
    read_numbers(block, count, &mut pages);
    match check_pages(used, slot, FIRST, blocks.len() as u32, pages.as_slice()) {
        Ok(()) => Ok(pages),
        Err(fault) => Err(fault),
    }
}

// Checks the file of a slot, and gives what is kept of it.
fn read_file(
    blocks: &[[u8; BLOCK]],
    files: &[Option<StoredFile>],
    used: &mut Vec<u16>,
    slot: u8,
    file: FileRecord,
) -> Result<StoredFile, MountFault>
    requires most { length blocks.now ≤ 4096 }
    requires fits { is_old_record (length blocks.now) file ≡ true }
    ensures finds { Finds result (first_broken used.old.items (file_rules FIRST blocks.now slot (titles_of files.now) file))
        (λ stored. (stored ≡ record { record_ = file; pages = numbers_of blocks.now (pages_of file.length) file.maps })
        × (used.new.items ≡ used.old.items ++ used_by (file_rules FIRST blocks.now slot (titles_of files.now) file))) }
    ensures stored { IfOk result (λ stored. is_old_stored (length blocks.now) (Some stored) ≡ true) }
    ensures alone { failed result ≡ false }
{
    if has_title(files, &file.title) {
        return Err(MountFault::Entry(slot));
    }
    let count = pages_of(file.length) as usize;
    match read_map(blocks, used, slot, file.first_map, count) {
        Ok(pages) => Ok(StoredFile {
            record: file,
            pages,
        }),
        Err(fault) => Err(fault),
    }
}

// Checks the entry of a slot, and puts what is kept of it behind the others.
fn read_slot(
    blocks: &[[u8; BLOCK]],
    files: &mut Vec<Option<StoredFile>>,
    used: &mut Vec<u16>,
    slot: u8,
) -> Result<(), MountFault>
    requires slot { slot < SLOTS }
    requires least { 64 ≤ length blocks.now }
    requires most { length blocks.now ≤ 4096 }
    ensures finds { Finds result (first_broken used.old.items (entry_rules FIRST blocks.now slot (titles_of files.old.items) (old_said_at blocks.now slot)))
        (λ _. TakesSlot used.old.items used.new.items (entry_rules FIRST blocks.now slot (titles_of files.old.items) (old_said_at blocks.now slot))
        files.old.items files.new.items (stored_of blocks.now (old_said_at blocks.now slot))) }
    ensures stored { OnOk result (list_all (is_old_stored (length blocks.now)) files.old.items ≡ true → list_all (is_old_stored (length blocks.now))
        files.new.items ≡ true) }
    ensures alone { failed result ≡ false }
{
    match said_at(blocks, slot) {
        Said::Free => put_file(files, None),
        Said::Wrong => Err(MountFault::Entry(slot)),
        Said::File(file) => match read_file(blocks, files, used, slot, file) {
            Ok(file) => put_file(files, Some(file)),
            Err(fault) => Err(fault),
        },
    }
}

// Checks the entries of all slots, and gives what is kept of them.
fn read_slots(alloc: Global, blocks: &[[u8; BLOCK]]) -> Result<Vec<Option<StoredFile>>, MountFault>
    requires least { 64 ≤ length blocks.now }
    requires most { length blocks.now ≤ 4096 }
    ensures finds { Finds result (first_broken [] (slot_rules FIRST blocks.now 0 [] (old_entries_of blocks.now)))
        (λ files. files.items ≡ map (stored_of blocks.now) (old_entries_of blocks.now)) }
    ensures stored { IfOk result (λ files. list_all (is_old_stored (length blocks.now)) files.items ≡ true) }
    ensures alone { failed result ≡ false }
{
    let mut files = Vec::new(alloc);
    let mut used = Vec::new(alloc);
    for slot in 0..SLOTS {
        match read_slot(blocks, &mut files, &mut used, slot as u8) {
            Ok(()) => {}
            Err(fault) => return Err(fault),
        }
    }
    Ok(files)
}

// Checks the number of blocks, and block 0.
fn check_header(blocks: &[[u8; BLOCK]]) -> Result<(), MountFault>
    requires { 0 < length blocks.now }
    ensures finds { Finds result (first_broken [] (header_rules VERSION blocks.now)) (λ _. ⊤) }
    ensures least { OnOk result (64 ≤ length blocks.now) }
    ensures most { OnOk result (length blocks.now ≤ 4096) }
    ensures alone { failed result ≡ false }
{
    if blocks.len() < 64 {
        return Err(MountFault::Short);
    }
    if blocks.len() > 4096 {
        return Err(MountFault::Header);
    }
    if blocks[0] == header_block(VERSION, blocks.len() as u16) {
        Ok(())
    } else {
        Err(MountFault::Header)
    }
}

// Checks an image, and gives what is kept of its slots.
fn read_image(alloc: Global, blocks: &[[u8; BLOCK]]) -> Result<Vec<Option<StoredFile>>, MountFault>
    ensures finds { Finds result (old_fault_of blocks.now) (λ files. files.items ≡ map (stored_of blocks.now) (old_entries_of blocks.now)) }
    ensures stored { IfOk result (λ files. list_all (is_old_stored (length blocks.now)) files.items ≡ true) }
    ensures alone { failed result ≡ false }
{
    if blocks.is_empty() {
        return free_slots(alloc, SLOTS);
    }
    match check_header(blocks) {
        Ok(()) => read_slots(alloc, blocks),
        Err(fault) => Err(fault),
    }
}

// Puts so many free slots behind the others.
fn put_free(files: &mut Vec<Option<StoredFile>>, count: u32) -> Result<(), MountFault>
    ensures { MatchResult result (λ _. files.new.items ≡ files.old.items ++ replicate count None) (λ fault. fault ≡ MountFault.NoMemory) }
{
    for _slot in 0..count {
        match files.push(None) {
            Ok(()) => {}
            Err(_) => return Err(MountFault::NoMemory),
        }
    }
    Ok(())
}

/// Checks an image of version 1, and gives what is kept of its 64 slots, and 192 free ones behind them. No block at all is no
/// disk, and has no files. Of the faults of the image the first is answered; the drive's never comes.
pub(crate) fn read_old_image(
    alloc: Global,
    blocks: &[[u8; BLOCK]],
) -> Result<Vec<Option<StoredFile>>, MountFault>
    ensures finds { Finds result (old_fault_of blocks.now) (λ files. files.items ≡ old_files_of blocks.now) }
    ensures stored { IfOk result (λ files. list_all (is_old_stored (length blocks.now)) files.items ≡ true) }
    ensures alone { failed result ≡ false }
{
    let mut files = match read_image(alloc, blocks) {
        Ok(files) => files,
        Err(fault) => return Err(fault),
    };
    match put_free(&mut files, MORE_SLOTS) {
        Ok(()) => Ok(files),
        Err(fault) => Err(fault),
    }
}
