//! A drive in a file, and drives in memory.

use crate::rows::outside::DriveCall::{Blocks, Read, Resize, Write};
use crate::rows::outside::{DriveRow, filled, walk_drive};
use edi_host::{DRIVE_FILE, HostDrive, MemoryDrive, SteadyDrive};
use std::alloc::Global;
use std::fs;
use std::process::Abort;

/// No file is no block. A resize makes the file, and new blocks are zeros.
const FIRST: [DriveRow; 8] = [
    (Blocks, Some(0)),
    (Read(0), None),
    (Resize(2), Some(0)),
    (Blocks, Some(2)),
    (Read(1), Some(0)),
    (Write(1, 5), Some(0)),
    (Read(0), Some(0)),
    (Read(1), Some(5)),
];

/// The blocks stay in the file; new blocks are zeros, also after a cut.
const SECOND: [DriveRow; 7] = [
    (Blocks, Some(2)),
    (Read(1), Some(5)),
    (Resize(1), Some(0)),
    (Blocks, Some(1)),
    (Resize(3), Some(0)),
    (Read(1), Some(0)),
    (Blocks, Some(3)),
];

// Makes the calls of a table on the drive in the file.
fn walk_host(rt: &impl Abort, host: &HostRuntime, table: &[DriveRow]) {
    let mut drive = HostDrive::new(host);
    walk_drive(rt, host.alloc(), &mut drive, table);
}

#[test]
fn drive_in_a_file(rt: HostRuntime) {
    walk_host(&rt, &rt, &FIRST);
    walk_host(&rt, &rt, &SECOND);
}

// Makes the drive's file anew, of so many times this byte.
fn leave(rt: &impl Abort, host: &HostRuntime, byte: u8, count: usize) {
    let bytes = filled(host.alloc(), byte, count).expect(rt, "memory");
    assert!(rt; fs::write(host, DRIVE_FILE, bytes.as_slice()).is_ok());
}

/// The bytes after the last whole block are not seen, and are not in the blocks that come later.
const REST: [DriveRow; 5] = [
    (Blocks, Some(1)),
    (Read(0), Some(9)),
    (Resize(2), Some(0)),
    (Read(0), Some(9)),
    (Read(1), Some(0)),
];

/// A file that gets shorter behind the drive's back.
const SHORTER: [DriveRow; 2] = [(Read(1), None), (Read(0), Some(8))];

#[test]
fn drive_with_a_rest(rt: HostRuntime) {
    leave(&rt, &rt, 9, 1000);
    let mut drive = HostDrive::new(&rt);
    walk_drive(&rt, rt.alloc(), &mut drive, &REST);
    leave(&rt, &rt, 8, 600);
    walk_drive(&rt, rt.alloc(), &mut drive, &SHORTER);
}

/// 64 blocks of which every call fails.
const UNOPENED: [DriveRow; 5] = [
    (Blocks, Some(64)),
    (Read(63), None),
    (Write(0, 1), None),
    (Resize(1), None),
    (Blocks, Some(64)),
];

// A folder cannot be opened for reading and writing.
#[test]
fn drive_that_cannot_be_opened(rt: HostRuntime) {
    let _ = fs::remove_file(&rt, DRIVE_FILE);
    assert!(rt; fs::create_dir(&rt, DRIVE_FILE).is_ok());
    walk_host(&rt, &rt, &UNOPENED);
    assert!(rt; fs::remove_dir(&rt, DRIVE_FILE).is_ok());
}

// A drive of so many sevens, whose calls of these numbers fail.
fn sevens(
    rt: &impl Abort,
    alloc: Global,
    count: usize,
    failing: &[u64],
    lands: bool,
) -> MemoryDrive {
    let bytes = filled(alloc, 7, count).expect(rt, "memory");
    assert!(rt; bytes.len() % 512 == 0);
    MemoryDrive::new(alloc, &bytes, failing, lands).expect(rt, "memory")
}

// Whether a block's worth of bytes is this byte.
fn is_block(bytes: &[u8], byte: u8) -> bool {
    bytes.len() == 512 && bytes.iter().all(|found| *found == byte)
}

/// Calls 2, 3 and 5 are to fail; the number of blocks is no call that can. What a write that fails leaves comes between the rows.
const BEFORE: [DriveRow; 4] = [
    (Blocks, Some(2)),
    (Write(0, 4), Some(0)),
    (Write(1, 5), None),
    (Read(0), None),
];

const BEHIND: [DriveRow; 6] = [
    (Resize(1), None),
    (Blocks, Some(2)),
    (Resize(3), Some(0)),
    (Read(2), Some(0)),
    (Read(0), Some(4)),
    (Resize(1), Some(0)),
];

// A write that fails lands or does not, so that the block has this last byte.
fn walk_failing(rt: &impl Abort, alloc: Global, lands: bool, second: u32) {
    let mut drive = sevens(rt, alloc, 1024, &[2, 3, 5], lands);
    walk_drive(rt, alloc, &mut drive, &BEFORE);
    walk_drive(rt, alloc, &mut drive, &[(Read(1), Some(second))]);
    walk_drive(rt, alloc, &mut drive, &BEHIND);
    assert!(rt; is_block(drive.bytes(), 4));
}

#[test]
fn drives_in_memory(rt: HostRuntime) {
    for (lands, second) in [(false, 7), (true, 5)] {
        walk_failing(&rt, rt.alloc(), lands, second);
    }
}

/// A drive with no block at first.
const STEADY: [DriveRow; 5] = [
    (Blocks, Some(0)),
    (Resize(2), Some(0)),
    (Write(0, 3), Some(0)),
    (Read(0), Some(3)),
    (Resize(1), Some(0)),
];

#[test]
fn steady_drives(rt: HostRuntime) {
    let mut drive = SteadyDrive::new(rt.alloc(), &[]).expect(&rt, "memory");
    walk_drive(&rt, rt.alloc(), &mut drive, &STEADY);
    assert!(rt; is_block(drive.bytes(), 3));
}
