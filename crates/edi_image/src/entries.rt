//! What the bytes of an entry say.

ghost use Rattle.std.specs.Prelude.{◌≡◌, ◌≤◌, ◌*◌, length, IfSome, None, Some, if◌then◌else◌};
ghost use Rattle.edi_calls.specs.State.{most_bytes, pages_of};
ghost use Rattle.edi_image.specs.Entries.{fields_fit, is_entry, is_second_map, second_map, record_in, entry_says, kind_of};

use crate::fields::{are_zeros, is_data, long_at, short_at};
use crate::title::{TITLE, Title};
use edi_calls::FileKind;
use std::marker::Model;

/// The bytes of an entry.
pub const ENTRY: usize = 64;

/// The first block behind the catalogue.
pub const FIRST: u16 = 33;

/// The greatest number of bytes of a file.
pub const MOST_BYTES: u32 = 261_120;

/// The greatest number of pages of a map.
pub const MAP_PAGES: u32 = 255;

/// The bytes of a page.
const PAGE: u32 = 512;

/// What an entry says of a file.
#[derive(Debug, Drop)]
pub struct FileRecord {
    pub title: Title,
    pub kind: FileKind,
    pub protected: bool,
    pub first_map: u16,
    pub second_map: Option<u16>,
    pub length: u32,
}

impl Model for FileRecord {
    ghost use Rattle.edi_image.specs.Records as spec;

    ghost Value = { spec.FileRecord };

    ghost view = { λ r. record { title = r.title; kind = r.kind; protected = r.protected; maps = spec.maps_of r.first_map r.second_map; length = r.length } };
}

/// What the bytes of an entry say.
#[derive(Debug, Drop)]
pub enum Said {
    /// The slot is free.
    Free,
    /// The entry breaks a rule of its own.
    Wrong,
    /// The slot has a file.
    File(FileRecord),
}

/// The number of pages of a file of so many bytes.
pub fn pages_of(length: u32) -> u32
    requires { length ≤ MOST_BYTES }
    ensures exact { result ≡ pages_of length }
    ensures most { result ≤ 510 }
{
    length.div_ceil(PAGE)
}

/// What an entry of 64 bytes says, in an image of so many blocks.
pub fn entry_says(count: u32, bytes: &[u8]) -> Said
    requires { length bytes.now ≡ ENTRY }
    ensures { result ≡ entry_says count bytes.now }
{
    if are_zeros(bytes) {
        return Said::Free;
    }
    match record_in(count, bytes) {
        Some(record) => Said::File(record),
        None => Said::Wrong,
    }
}

// The file of an entry, if it keeps its rules.
fn record_in(count: u32, bytes: &[u8]) -> Option<FileRecord>
    requires { length bytes.now ≡ ENTRY }
    ensures { result ≡ (if is_entry count bytes.now then Some (record_in bytes.now) else None) }
{
    if !fields_fit(count, bytes) {
        return None;
    }
    let (characters, _) = bytes.split_at(TITLE);
    let length = long_at(bytes, 30);
    match Title::new(characters) {
        Some(title) => Some(FileRecord {
            title,
            kind: kind_of(bytes[24]),
            protected: bytes[25] == 1,
            first_map: short_at(bytes, 26),
            second_map: second_map(length, short_at(bytes, 28)),
            length,
        }),
        None => None,
    }
}

// Whether the fields behind the title keep their rules.
fn fields_fit(count: u32, bytes: &[u8]) -> bool
    requires { length bytes.now ≡ ENTRY }
    ensures { result ≡ fields_fit count bytes.now }
{
    let (_, zeros) = bytes.split_at(34);
    let length = long_at(bytes, 30);
    (bytes[24] == 1 || bytes[24] == 2)
        && bytes[25] <= 1
        && length <= MOST_BYTES
        && is_data(FIRST, count, short_at(bytes, 26))
        && is_second_map(count, length, short_at(bytes, 28))
        && are_zeros(zeros)
}

// Whether this may stand as the second map of a file of so many bytes.
fn is_second_map(count: u32, length: u32, map: u16) -> bool
    requires { length ≤ MOST_BYTES }
    ensures { result ≡ is_second_map count length map }
{
    if pages_of(length) <= MAP_PAGES {
        map == 0
    } else {
        is_data(FIRST, count, map)
    }
}

// The second map of a file of so many bytes, if it has one.
fn second_map(length: u32, map: u16) -> Option<u16>
    requires { length ≤ MOST_BYTES }
    ensures { result ≡ second_map length map }
{
    if pages_of(length) <= MAP_PAGES {
        None
    } else {
        Some(map)
    }
}

/// The kind of a file by its number, 1 for a text.
pub fn kind_of(number: u8) -> FileKind
    ensures { result ≡ kind_of number }
{
    if number == 1 {
        FileKind::Text
    } else {
        FileKind::Code
    }
}
