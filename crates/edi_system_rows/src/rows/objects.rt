//! A system over objects in memory.

use crate::rows::calls::{self, Answer, Call};
use crate::rows::image::{Image, image_bytes, zeros};
use crate::rows::requests::{self, Reply, Request};
use edi_calls::Outside;
use edi_catalog::{check, mount};
use edi_disk::Disk;
use edi_host::{Drive, MemoryDrive, MemorySink, MemorySource, Sink, Source};
use edi_system::{Buffer, System};
use std::alloc::{AllocError, Global};
use std::process::Abort;

/// What is asked of a system, and what it tells.
#[derive(Clone, Copy)]
pub(crate) enum Table<'a> {
    /// Calls of a program.
    Calls(&'a [(Call, Answer)]),
    /// Calls of the shell.
    Requests(&'a [(Request, Reply)]),
}

/// A table of calls over an image, and what comes of it.
#[derive(Clone, Copy)]
pub(crate) struct Case<'a> {
    pub(crate) table: Table<'a>,
    /// The bytes of the input.
    pub(crate) input: &'a [u8],
    /// How many bytes the terminal takes.
    pub(crate) capacity: usize,
    /// The object that fails at its n-th call, or none where n is 0.
    pub(crate) fails: (Outside, u64),
    /// How many calls are answered as the table says, and which object has failed.
    pub(crate) answered: usize,
    pub(crate) failed: Option<Outside>,
    /// What the terminal and the printer have taken.
    pub(crate) shown: &'a [u8],
    pub(crate) printed: &'a [u8],
}

// The number of the call of an object that fails.
fn failing(case: Case<'_>, which: Outside) -> [u64; 1] {
    let (object, n) = case.fails;
    if object == which { [n] } else { [0] }
}

// How many calls of a table are answered as it says, and which object has failed; nothing where there is no system.
fn told<D: Drive, S: Source, T: Sink, P: Sink>(
    alloc: Global,
    drive: &mut D,
    input: &mut S,
    terminal: &mut T,
    printer: &mut P,
    buffer: &mut Buffer,
    room: &mut [u8],
    table: Table<'_>,
) -> Option<(usize, Option<Outside>)> {
    if room.len() < 261_120 {
        return None;
    }
    let mut disk = Disk::attach(drive);
    let Ok(mut kept) = check(alloc, &mut disk) else {
        return None;
    };
    let files = mount(disk, &mut kept);
    let mut system = System::new(files, input, terminal, printer, buffer);
    let count = match table {
        Table::Calls(table) => calls::answered(&mut system, table),
        Table::Requests(table) => requests::answered(&mut system, table, room),
    };
    Some((count, system.failed()))
}

/// The number of its calls.
pub(crate) fn count_of(table: Table<'_>) -> usize {
    match table {
        Table::Calls(table) => table.len(),
        Table::Requests(table) => table.len(),
    }
}

/// The case in which no object fails and each call is answered.
pub(crate) fn unbroken<'a>(
    table: Table<'a>,
    input: &'a [u8],
    capacity: usize,
    shown: &'a [u8],
    printed: &'a [u8],
) -> Case<'a> {
    Case {
        table,
        input,
        capacity,
        fails: (Outside::Drive, 0),
        answered: count_of(table),
        failed: None,
        shown,
        printed,
    }
}

fn with_streams<D: Drive, S: Source, T: Sink, P: Sink>(
    alloc: Global,
    drive: &mut D,
    input: &mut S,
    terminal: &mut T,
    printer: &mut P,
    case: Case<'_>,
) -> Result<bool, AllocError> {
    let mut room = zeros(alloc, 261_120)?;
    let mut buffer = Buffer::new(alloc)?;
    let found = told(
        alloc,
        drive,
        input,
        terminal,
        printer,
        &mut buffer,
        &mut room,
        case.table,
    );
    Ok(found == Some((case.answered, case.failed)))
}

fn with_terminal<D: Drive, S: Source, T: Sink>(
    alloc: Global,
    drive: &mut D,
    input: &mut S,
    terminal: &mut T,
    case: Case<'_>,
) -> Result<bool, AllocError> {
    let mut printer = MemorySink::new(alloc, 16, &failing(case, Outside::Printer))?;
    let is_told = with_streams(alloc, drive, input, terminal, &mut printer, case)?;
    Ok(is_told && printer.bytes() == case.printed)
}

fn with_input<D: Drive, S: Source>(
    alloc: Global,
    drive: &mut D,
    input: &mut S,
    case: Case<'_>,
) -> Result<bool, AllocError> {
    let number = failing(case, Outside::Terminal);
    let mut terminal = MemorySink::new(alloc, case.capacity, &number)?;
    let is_told = with_terminal(alloc, drive, input, &mut terminal, case)?;
    Ok(is_told && terminal.bytes() == case.shown)
}

// Whether the case holds over this drive, and the input then has these bytes, where they are asked for.
fn with_drive<D: Drive>(
    alloc: Global,
    drive: &mut D,
    case: Case<'_>,
    unread: Option<&[u8]>,
) -> Result<bool, AllocError> {
    let number = failing(case, Outside::Input);
    let mut input = MemorySource::new(alloc, case.input, &number)?;
    let is_told = with_input(alloc, drive, &mut input, case)?;
    match unread {
        Some(bytes) => Ok(is_told && input.bytes() == bytes),
        None => Ok(is_told),
    }
}

/// Whether the case holds over the image of three files.
pub(crate) fn holds(rt: &impl Abort, alloc: Global, case: Case<'_>) -> Result<bool, AllocError> {
    let bytes = image_bytes(alloc, Image::Three)?;
    assert!(rt; bytes.len() % 512 == 0);
    let mut drive = MemoryDrive::new(alloc, &bytes, &failing(case, Outside::Drive), false)?;
    with_drive(alloc, &mut drive, case, None)
}

// Whether these bytes are a valid image, of which a system tells this.
fn has_files(
    rt: &impl Abort,
    alloc: Global,
    bytes: &[u8],
    files: &[(Request, Reply)],
) -> Result<bool, AllocError> {
    assert!(rt; bytes.len() % 512 == 0);
    let mut drive = MemoryDrive::new(alloc, bytes, &[0], false)?;
    let case = unbroken(Table::Requests(files), b"", 0, b"", b"");
    with_drive(alloc, &mut drive, case, None)
}

/// Whether the case holds over an image where the failing call of the drive lands or not, the input then has these bytes, and
/// the drive is a valid image of these files.
pub(crate) fn leaves(
    rt: &impl Abort,
    alloc: Global,
    which: Image,
    case: Case<'_>,
    lands: bool,
    unread: &[u8],
    files: &[(Request, Reply)],
) -> Result<bool, AllocError> {
    let bytes = image_bytes(alloc, which)?;
    assert!(rt; bytes.len() % 512 == 0);
    let mut drive = MemoryDrive::new(alloc, &bytes, &failing(case, Outside::Drive), lands)?;
    let is_told = with_drive(alloc, &mut drive, case, Some(unread))?;
    Ok(is_told && has_files(rt, alloc, drive.bytes(), files)?)
}
