//! What is put in the blocks of a file.

ghost use Rattle.std.specs.Prelude.{◌≡◌, ◌≤◌, ◌<◌, ◌+◌, ◌-◌, ◌*◌, ◌++◌, true, length, take, drop, slice_index, Some};
ghost use Rattle.edi_image.specs.Build.{filled, map_block, two};
ghost use Rattle.edi_image.specs.Stored.{is_stored};
ghost use Rattle.edi_catalog.specs.Plan.{content_of, part, used_in};

use byteorder::{BigEndian, ByteOrder};
use edi_image::{BLOCK, FileRecord, MAP_PAGES, StoredFile};

// The i-th part of bytes that are cut into parts of 512.
fn bytes_part(bytes: &[u8], i: usize) -> &[u8]
    requires { BLOCK * i ≤ length bytes.now }
    ensures part { result.now ≡ part BLOCK bytes.now i }
    ensures most { length result.now ≤ BLOCK }
{
    let (_, rest) = bytes.split_at(BLOCK * i);
    let (part, _) = rest.split_at(rest.len().min(BLOCK));
    part
}

// The i-th part of page numbers that are cut into parts of 255.
fn pages_part(pages: &[u16], i: usize) -> &[u16]
    requires { MAP_PAGES * i ≤ length pages.now }
    ensures part { result.now ≡ part MAP_PAGES pages.now i }
    ensures most { length result.now ≤ MAP_PAGES }
{
    let (_, rest) = pages.split_at(MAP_PAGES as usize * i);
    let (part, _) = rest.split_at(rest.len().min(MAP_PAGES as usize));
    part
}

// Puts a number at an address, in two bytes.
fn put_short(bytes: &mut [u8], at: usize, number: u16)
    requires { at + 2 ≤ length bytes.old }
    ensures { bytes.new ≡ take at bytes.old ++ (two number ++ drop (at + 2) bytes.old) }
{
    let (_, rest) = bytes.split_at_mut(at);
    BigEndian::write_u16(rest, number);
}

// A map block of these page numbers.
fn map_block(pages: &[u16]) -> [u8; BLOCK]
    requires { length pages.now ≤ MAP_PAGES }
    ensures { result ≡ map_block pages.now }
{
    let mut block = [0; BLOCK];
    put_short(&mut block, 0, pages.len() as u16);
    for (i, page) in pages.iter().enumerate() {
        put_short(&mut block, 2 + 2 * i, *page);
    }
    block
}

// A block of these bytes, and zeros behind them.
fn page_block(bytes: &[u8]) -> [u8; BLOCK]
    requires { length bytes.now ≤ BLOCK }
    ensures { result ≡ filled BLOCK bytes.now }
{
    let mut block = [0; BLOCK];
    let (start, _) = block.split_at_mut(bytes.len());
    start.copy_from_slice(bytes);
    block
}

// The number of maps of a file.
fn maps_of(entry: &FileRecord) -> usize
    ensures { result ≡ length entry.now.maps }
{
    match entry.second_map {
        Some(_) => 2,
        None => 1,
    }
}

/// The number of the i-th block of a file: its maps come first, then its pages.
pub(crate) fn block_of(file: &StoredFile, i: usize) -> u16
    requires { i < length (used_in (Some file.now)) }
    ensures { result ≡ slice_index (used_in (Some file.now)) i }
{
    let maps = maps_of(&file.record);
    if i >= maps {
        return file.pages[i - maps];
    }
    match file.record.second_map {
        Some(map) => { if i == 0 { file.record.first_map } else { map } }
        None => file.record.first_map,
    }
}

/// What is put in the i-th block of a file.
pub(crate) fn content_of(file: &StoredFile, bytes: &[u8], i: usize) -> [u8; BLOCK]
    requires within { i < length (used_in (Some file.now)) }
    requires maps { MAP_PAGES * (length file.now.record_.maps - 1) ≤ length file.now.pages }
    requires pages { 512 * (length file.now.pages - 1) ≤ length bytes.now }
    ensures { result ≡ content_of file.now bytes.now i }
{
    let maps = maps_of(&file.record);
    if i < maps {
        map_block(pages_part(file.pages.as_slice(), i))
    } else {
        page_block(bytes_part(bytes, i - maps))
    }
}
