//! The blocks of the catalogue.

ghost use Rattle.std.specs.Prelude.{◌≡◌, ◌<◌, ◌≤◌, ◌^◌};
ghost use Rattle.edi_image.specs.Image.{header_block};
ghost use Rattle.edi_image.specs.Formatted.{new_block};

use byteorder::{BigEndian, ByteOrder};

/// The bytes of a block.
pub const BLOCK: usize = 512;

/// The version of the images that are written.
pub const VERSION: u8 = 2;

/// Block 0 of an image of this version that has so many blocks.
pub fn header_block(version: u8, count: u16) -> [u8; BLOCK]
    ensures { result ≡ header_block version count }
{
    let mut fields = [b'E', b'D', b'I', b'S', 0, version, 0, 0];
    BigEndian::write_u16(&mut fields[6..], count);
    let mut block = [0; BLOCK];
    let (start, _) = block.split_at_mut(fields.len());
    start.copy_from_slice(&fields);
    block
}

/// A block of the catalogue of an image of so many blocks that has no files.
pub fn new_block(count: u16, n: u32) -> [u8; BLOCK]
    ensures { result ≡ new_block count n }
{
    if n == 0 {
        header_block(VERSION, count)
    } else {
        [0; BLOCK]
    }
}
