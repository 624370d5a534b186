//! The bytes of an entry.

ghost use Rattle.std.specs.Prelude.{◌≡◌, ◌%◌, ◌/◌, if◌then◌else◌, slice_index_or};
ghost use Rattle.edi_image.specs.Records.{maps_of};
ghost use Rattle.edi_image.specs.Bytes.{bytes_of_record, bytes_of_slot, field_bytes, kind_number};

use crate::entries::{ENTRY, FileRecord};
use crate::title::TITLE;
use byteorder::{BigEndian, ByteOrder};
use edi_calls::FileKind;

/// The bytes of the fields behind the title.
const FIELDS: usize = 10;

fn kind_number(kind: FileKind) -> u8
    ensures { result ≡ kind_number kind }
{
    match kind {
        FileKind::Text => 1,
        FileKind::Code => 2,
    }
}

fn flag(protected: bool) -> u8
    ensures { result ≡ (if protected then 1 else 0) }
{
    if protected { 1 } else { 0 }
}

// The two bytes of a number, the high one first.
fn two(number: u16) -> (u8, u8)
    ensures high { result.0 ≡ number / 256 }
    ensures low { result.1 ≡ number % 256 }
{
    let mut bytes = [0; 2];
    BigEndian::write_u16(&mut bytes, number);
    (bytes[0], bytes[1])
}

// The number of the second map, 0 where there is none.
fn second_number(first: u16, second: Option<u16>) -> u16
    ensures { result ≡ slice_index_or (maps_of first second) 1 0 }
{
    match second {
        Some(map) => map,
        None => 0,
    }
}

// The fields behind the title.
fn field_bytes(file: &FileRecord) -> [u8; FIELDS]
    ensures { result ≡ field_bytes file.now }
{
    let (first_high, first_low) = two(file.first_map);
    let (second_high, second_low) = two(second_number(file.first_map, file.second_map));
    let (long_high, long_low) = two((file.length / 65536) as u16);
    let (short_high, short_low) = two((file.length % 65536) as u16);
    [
        kind_number(file.kind),
        flag(file.protected),
        first_high,
        first_low,
        second_high,
        second_low,
        long_high,
        long_low,
        short_high,
        short_low,
    ]
}

/// The entry of a file.
pub fn entry_bytes(file: &FileRecord) -> [u8; ENTRY]
    ensures { result ≡ bytes_of_record file.now }
{
    let mut entry = [0; ENTRY];
    let (title, rest) = entry.split_at_mut(TITLE);
    title.copy_from_slice(file.title.characters());
    let (fields, _) = rest.split_at_mut(FIELDS);
    fields.copy_from_slice(&field_bytes(file));
    entry
}

/// The entry of a slot.
pub fn slot_bytes(file: &Option<FileRecord>) -> [u8; ENTRY]
    ensures { result ≡ bytes_of_slot file.now }
{
    match file {
        Some(file) => entry_bytes(file),
        None => [0; ENTRY],
    }
}
