//! Numbers in a block, the high byte first.

ghost use Rattle.std.specs.Prelude.{◌≡◌, ◌+◌, ◌≤◌, ◌&&◌, length, nat_le, nat_lt};
ghost use Rattle.edi_image.specs.Entries.{are_zeros, is_data, long_at, short_at};

use byteorder::{BigEndian, ByteOrder};

/// The number of two bytes at an address.
pub fn short_at(bytes: &[u8], at: usize) -> u16
    requires { at + 2 ≤ length bytes.now }
    ensures { result ≡ short_at bytes.now at }
{
    let (_, rest) = bytes.split_at(at);
    BigEndian::read_u16(rest)
}

/// The number of four bytes at an address.
pub fn long_at(bytes: &[u8], at: usize) -> u32
    requires { at + 4 ≤ length bytes.now }
    ensures { result ≡ long_at bytes.now at }
{
    let (_, rest) = bytes.split_at(at);
    BigEndian::read_u32(rest)
}

/// Whether all bytes are zeros.
pub fn are_zeros(bytes: &[u8]) -> bool
    ensures { result ≡ are_zeros bytes.now }
{
    bytes.iter().all(|byte| *byte == 0)
}

/// Whether a block lies behind those of the catalogue, which are those below `first`, and on the drive.
pub fn is_data(first: u16, count: u32, block: u16) -> bool
    ensures { result ≡ is_data first count block }
{
    first <= block && u32::from(block) < count
}
