//! Calls on a disk as values, so that an example is a table.

ghost use Rattle.std.specs.Prelude.{IsSome};
ghost use Rattle.edi_disk.specs.Shown.{IsWorking};

use edi_disk::{Disk, DiskEnd};
use edi_host::Drive;

/// What stands for no block.
pub const NONE: u32 = 99;

/// A call on a disk.
#[derive(Clone, Copy, Drop)]
pub enum Call {
    /// Gives a block.
    Page(u32),
    /// Puts a block of 512 times this byte.
    Put(u32, u8),
    /// Writes what was put.
    Flush,
    /// The number of a held block.
    Held(usize),
    /// The number of blocks.
    Blocks,
}

// The last byte of a block.
fn last_byte<D: Drive>(disk: &mut Disk<'_, D>, n: u32) -> Option<u32>
    requires { IsWorking D.contents D.count disk.old }
    ensures { IsSome result → IsWorking D.contents D.count disk.new }
{
    let mut block = [NONE as u8; 512];
    if n >= disk.blocks() {
        return Some(NONE);
    }
    match disk.page(n, &mut block) {
        DiskEnd::Ok => Some(u32::from(block[511])),
        DiskEnd::Fault => None,
    }
}

fn put<D: Drive>(disk: &mut Disk<'_, D>, n: u32, byte: u8) -> Option<u32>
    requires { IsWorking D.contents D.count disk.old }
    ensures { IsSome result → IsWorking D.contents D.count disk.new }
{
    if n >= disk.blocks() {
        return Some(NONE);
    }
    match disk.put_page(n, &[byte; 512]) {
        DiskEnd::Ok => Some(0),
        DiskEnd::Fault => None,
    }
}

/// Makes the call. A page is answered by its last byte, a put and a flush by 0, a number by itself, no held
/// block and a block that the drive has not by 99, and a fault by `None`.
pub fn make<D: Drive>(disk: &mut Disk<'_, D>, call: Call) -> Option<u32>
    requires { IsWorking D.contents D.count disk.old }
    ensures { IsSome result → IsWorking D.contents D.count disk.new }
{
    match call {
        Call::Page(n) => last_byte(disk, n),
        Call::Put(n, byte) => put(disk, n, byte),
        Call::Flush => match disk.flush() {
            DiskEnd::Ok => Some(0),
            DiskEnd::Fault => None,
        },
        Call::Held(i) => Some(disk.held(i).unwrap_or(NONE)),
        Call::Blocks => Some(disk.blocks()),
    }
}

/// How many of the calls are answered as the table says, from the first on. No call is made after a fault.
pub fn answered<D: Drive>(drive: &mut D, table: &[(Call, Option<u32>)]) -> usize {
    let mut disk = Disk::attach(drive);
    for (i, (call, answer)) in table.iter().enumerate() {
        let got = make(&mut disk, *call);
        if got != *answer {
            return i;
        }
        if got.is_none() {
            return i + 1;
        }
    }
    table.len()
}

/// Whether the bytes are blocks of 512 times each of these bytes.
pub fn are_blocks(bytes: &[u8], expected: &[u8]) -> bool {
    for (i, byte) in bytes.iter().enumerate() {
        match expected.get(i / 512) {
            Some(block) if block == byte => {}
            _ => return false,
        }
    }
    bytes.len() / 512 == expected.len()
}
