//! Numbers in a file, the high byte first.

ghost use Rattle.std.specs.Prelude.{◌≡◌, ◌+◌, ◌≤◌, ◌++◌, length, OnOk};
ghost use Rattle.edi_target.specs.File.{number_at, number_bytes, short_at};

use byteorder::{BigEndian, ByteOrder};
use std::alloc::AllocError;

/// The number of two bytes at an address.
pub fn short_at(bytes: &[u8], at: usize) -> u16
    requires { at + 2 ≤ length bytes.now }
    ensures { result ≡ short_at bytes.now at }
{
    let (_, rest) = bytes.split_at(at);
    BigEndian::read_u16(rest)
}

/// The number of four bytes at an address.
pub fn number_at(bytes: &[u8], at: usize) -> u32
    requires { at + 4 ≤ length bytes.now }
    ensures { result ≡ number_at bytes.now at }
{
    let (_, rest) = bytes.split_at(at);
    BigEndian::read_u32(rest)
}

/// Puts the four bytes of a number behind the others.
pub fn put_number(bytes: &mut Vec<u8>, number: u32) -> Result<(), AllocError>
    ensures { OnOk result (bytes.new.items ≡ bytes.old.items ++ number_bytes number) }
{
    let mut four = [0; 4];
    BigEndian::write_u32(&mut four, number);
    bytes.extend_from_slice(&four)
}
