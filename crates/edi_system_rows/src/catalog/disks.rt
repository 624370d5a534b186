//! A disk, over drives of 17 blocks.

use crate::catalog::disk_calls::Call::{Blocks, Flush, Held, Page, Put};
use crate::catalog::disk_calls::{Call, NONE, answered, are_blocks};
use crate::catalog::images::{failing, filled};
use edi_host::MemoryDrive;
use std::alloc::{AllocError, Global};
use std::process::Abort;
use std::test::Fail;

/// A call and its answer.
type Row = (Call, Option<u32>);

// A drive of 17 blocks of nines, whose call of this number fails, and lands or not.
fn nines(
    rt: &impl Abort,
    alloc: Global,
    number: u64,
    lands: bool,
) -> Result<MemoryDrive, AllocError> {
    let bytes = filled(alloc, 9, 8704)?;
    failing(rt, alloc, &bytes, number, lands)
}

// Rows that put into so many blocks from 0 on a byte and those behind it.
fn puts(alloc: Global, count: u8, first: u8) -> Result<Vec<Row>, AllocError> {
    let mut rows = Vec::new(alloc);
    for n in 0..count {
        rows.push((Put(u32::from(n), first.saturating_add(n)), Some(0)))?;
    }
    Ok(rows)
}

// Rows that give so many blocks from 0 on, which have a byte and those behind it.
fn pages(alloc: Global, count: u8, first: u8) -> Result<Vec<Row>, AllocError> {
    let mut rows = Vec::new(alloc);
    for n in 0..count {
        let byte = first.saturating_add(n);
        rows.push((Page(u32::from(n)), Some(u32::from(byte))))?;
    }
    Ok(rows)
}

// The rows of three tables.
fn joined(alloc: Global, one: &[Row], two: &[Row], three: &[Row]) -> Result<Vec<Row>, AllocError> {
    let mut rows = Vec::from_slice(alloc, one)?;
    rows.extend_from_slice(two)?;
    rows.extend_from_slice(three)?;
    Ok(rows)
}

// A number of blocks, 17 that are put, and a flush of them.
fn seventeen_put(alloc: Global) -> Result<Vec<Row>, AllocError> {
    let before = [(Blocks, Some(17)), (Held(0), Some(NONE))];
    let behind = [(Flush, Some(0)), (Held(0), Some(1))];
    joined(alloc, &before, &puts(alloc, 17, 100)?, &behind)
}

// 17 blocks that are given, of which the first is driven out, and calls behind it.
fn seventeen_given(alloc: Global) -> Result<Vec<Row>, AllocError> {
    let rest = [
        (Held(0), Some(1)),
        (Held(1), Some(2)),
        (Held(15), Some(16)),
        (Held(16), Some(NONE)),
        (Page(1), Some(101)),
        (Held(0), Some(2)),
        (Held(15), Some(1)),
        (Page(0), None),
    ];
    joined(alloc, &pages(alloc, 17, 100)?, &rest, &[])
}

// The bytes 100 to 116 are put into blocks 0 to 16, so that block 0 is driven out, and then flushed. Another disk
// over the same drive gives 17 pages: block 0 is driven out again. The next call on the drive, after 17 writes and
// 17 reads, fails: block 1 is still given, and then block 0 is a fault.
#[test]
fn seventeen_pages(rt: HostRuntime) -> Result<(), Fail> {
    let alloc = rt.alloc();
    let (put, given) = (seventeen_put(alloc)?, seventeen_given(alloc)?);
    let mut drive = nines(&rt, alloc, 35, false)?;
    assert!(rt; answered(&mut drive, &put) == 21);
    assert!(rt; answered(&mut drive, &given) == 25);
    Ok(())
}

// Rows that put two bytes into each of 16 blocks, of which the second stands, that give block 16 and then the others, and that
// put and flush block 16.
fn put_and_given(alloc: Global) -> Result<Vec<Row>, AllocError> {
    let mut rows = Vec::new(alloc);
    for n in 0..16u8 {
        let (block, byte) = (u32::from(n), n.saturating_add(20));
        rows.extend_from_slice(&[(Put(block, 1), Some(0)), (Put(block, byte), Some(0))])?;
    }
    rows.push((Page(16), Some(9)))?;
    let last = [(Put(16, 36), Some(0)), (Flush, Some(0))];
    joined(alloc, &rows, &pages(alloc, 16, 20)?, &last)
}

// What was put is given back, whether it is still held or was driven out, and the last put stands. The drive has
// a block when it is driven out, and all after a flush.
#[test]
fn put_and_driven_out(rt: HostRuntime) -> Result<(), Fail> {
    let alloc = rt.alloc();
    let table = put_and_given(alloc)?;
    let mut drive = nines(&rt, alloc, 0, false)?;
    let cases = [
        (32, [9; 17]),
        (33, [20, 9, 9, 9, 9, 9, 9, 9, 9, 9, 9, 9, 9, 9, 9, 9, 9]),
        (
            51,
            [
                20, 21, 22, 23, 24, 25, 26, 27, 28, 29, 30, 31, 32, 33, 34, 35, 36,
            ],
        ),
    ];
    for (count, expected) in cases {
        let (rows, _) = table.as_slice().split_at(table.len().min(count));
        assert!(rt; answered(&mut drive, rows) == count, "{count}");
        assert!(rt; are_blocks(drive.bytes(), &expected), "{count}");
    }
    Ok(())
}

// How many rows are answered where the drive's call of a number fails, which lands or not, and whether blocks 0 and 1 are then
// of these bytes and the others of nines.
fn left(
    rt: &impl Abort,
    alloc: Global,
    table: &[Row],
    fault: (u64, bool),
    bytes: (u8, u8),
) -> Result<(usize, bool), AllocError> {
    let (number, lands) = fault;
    let (zero, one) = bytes;
    let mut drive = nines(rt, alloc, number, lands)?;
    let count = answered(&mut drive, table);
    let expected = [zero, one, 9, 9, 9, 9, 9, 9, 9, 9, 9, 9, 9, 9, 9, 9, 9];
    Ok((count, are_blocks(drive.bytes(), &expected)))
}

// A write that fails, with and without landing: when a block is driven out, and in the midst of a flush.
#[test]
fn failing_writes(rt: HostRuntime) -> Result<(), Fail> {
    let alloc = rt.alloc();
    let full = joined(alloc, &puts(alloc, 16, 20)?, &[(Put(16, 20), None)], &[])?;
    let few = [
        (Put(0, 20), Some(0)),
        (Put(1, 21), Some(0)),
        (Put(2, 22), Some(0)),
        (Flush, None),
    ];
    for (lands, zero, one) in [(false, 9, 9), (true, 20, 21)] {
        let driven_out = left(&rt, alloc, &full, (1, lands), (zero, 9))?;
        assert!(rt; driven_out == (17, true), "driven out");
        let flushed = left(&rt, alloc, &few, (2, lands), (20, one))?;
        assert!(rt; flushed == (4, true), "flushed");
    }
    Ok(())
}
