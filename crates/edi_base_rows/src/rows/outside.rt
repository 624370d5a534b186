//! Calls on a drive and on files as values, so that an example is a table.

use edi_host::{Drive, DriveEnd, FetchEnd, Files, KeepEnd, ResizeEnd};
use std::alloc::{AllocError, Global};
use std::process::Abort;

/// So many times this byte.
pub fn filled(alloc: Global, byte: u8, count: usize) -> Result<Vec<u8>, AllocError> {
    vec![in alloc; byte; count]
}

/// A call on a drive.
#[derive(Clone, Copy, Drop)]
pub enum DriveCall {
    /// The number of blocks.
    Blocks,
    /// Reads a block.
    Read(u32),
    /// Writes a block of 512 times this byte.
    Write(u32, u8),
    /// Sets the number of blocks.
    Resize(u32),
}

// The last byte of a block.
fn last_byte<D: Drive>(drive: &mut D, n: u32) -> Option<u32> {
    let mut block = [99u8; 512];
    if n < drive.blocks() && drive.read(n, &mut block) == DriveEnd::Ok {
        Some(u32::from(block[511]))
    } else {
        None
    }
}

// Makes the call. A number of blocks is answered by itself, a read by the block's last byte, another call
// by 0, and a call that does not succeed by `None`.
fn call_drive<D: Drive>(drive: &mut D, alloc: Global, call: DriveCall) -> Option<u32> {
    let succeeds = match call {
        DriveCall::Blocks => return Some(drive.blocks()),
        DriveCall::Read(n) => return last_byte(drive, n),
        DriveCall::Write(n, byte) => {
            n < drive.blocks() && drive.write(n, &[byte; 512]) == DriveEnd::Ok
        }
        DriveCall::Resize(n) => drive.resize(alloc, n) == ResizeEnd::Ok,
    };
    if succeeds { Some(0) } else { None }
}

/// A call on a drive with its answer: a number of blocks by itself, a read by the block's last byte, another call by 0, and a
/// call that does not succeed by `None`.
pub type DriveRow = (DriveCall, Option<u32>);

/// Makes the calls of a table.
pub fn walk_drive<D: Drive>(rt: &impl Abort, alloc: Global, drive: &mut D, table: &[DriveRow]) {
    for (row, (call, answer)) in table.iter().enumerate() {
        let found = call_drive(drive, alloc, *call);
        assert!(rt; found == *answer, "row {row}");
    }
}

/// A call on files.
#[derive(Clone, Copy, Drop)]
pub enum FilesCall<'a> {
    /// Fetches the first bytes of a file, up to this limit.
    Fetch(usize),
    /// Keeps this text.
    Keep(&'a str),
}

/// A name, a call, and what a fetch leaves in a buffer that had bytes before; another end leaves none there, and a text that
/// is kept neither.
pub type FilesRow<'a> = (&'a str, FilesCall<'a>, Result<&'a str, FetchEnd>);

// How a text is kept.
fn keep<F: Files>(files: &mut F, alloc: Global, name: &str, text: &str) -> FetchEnd {
    match files.keep(alloc, name, text.as_bytes()) {
        KeepEnd::Ok => FetchEnd::Ok,
        KeepEnd::Failed => FetchEnd::Failed,
        KeepEnd::NoMemory => FetchEnd::NoMemory,
    }
}

/// Makes the calls of a table.
pub fn walk_files<F: Files>(rt: &impl Abort, alloc: Global, files: &mut F, table: &[FilesRow<'_>]) {
    let mut into = Vec::new(alloc);
    for (row, (name, call, wanted)) in table.iter().enumerate() {
        let _ = into.resize(2, 1);
        let ended = match call {
            FilesCall::Fetch(limit) => files.fetch(alloc, name, *limit, &mut into),
            FilesCall::Keep(text) => {
                into.clear();
                keep(files, alloc, name, text)
            }
        };
        let (end, bytes) = match wanted {
            Ok(text) => (FetchEnd::Ok, text.as_bytes()),
            Err(end) => (*end, b"".as_slice()),
        };
        assert!(rt; ended == end && into.as_slice() == bytes, "row {row}");
    }
}
