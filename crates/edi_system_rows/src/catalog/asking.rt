//! What is asked of a catalogue as values, so that an example is a table.

ghost use Rattle.edi_catalog.specs.Mounted.{IsMounted};

use edi_calls::FileKind;
use edi_catalog::{CatEnd, Catalog, Entry, FormatEnd, MountFault, Title, check, format, mount};
use edi_disk::Disk;
use edi_host::Drive;
use edi_image::migrate::{MigrateEnd, migrate};
use std::alloc::Global;
use std::process::Abort;

/// What is asked of a catalogue.
#[derive(Clone, Copy)]
pub(crate) enum Request<'a> {
    /// The number of free blocks.
    Free,
    /// The file in a slot.
    Slot(usize),
    /// The file of a title.
    Find(&'a [u8]),
    /// The bytes of a page of a file.
    Page(&'a [u8], u32),
    /// Stores bytes as a text.
    Store(&'a [u8], &'a [u8]),
    /// Stores bytes as a text, and tells the number of blocks that are then free.
    StoreAndFree(&'a [u8], &'a [u8]),
    Protect(&'a [u8]),
    Release(&'a [u8]),
    Delete(&'a [u8]),
    Rename(&'a [u8], &'a [u8]),
}

/// What a catalogue tells.
#[derive(Clone, Copy, PartialEq)]
pub(crate) enum Reply {
    Number(u32),
    File(Entry),
    NoFile,
    Page([u8; 512]),
    Ended(Result<(), CatEnd>),
    Left(Result<(), CatEnd>, u32),
}

fn file_of(entry: Option<Entry>) -> Reply {
    match entry {
        Some(entry) => Reply::File(entry),
        None => Reply::NoFile,
    }
}

// The bytes of a page, if it is there.
fn page<D: Drive>(catalog: &mut Catalog<'_, '_, D>, title: &Title, n: u32) -> Option<Reply>
    requires { IsMounted D.contents D.count catalog.old }
{
    let Some(entry) = catalog.find(title) else {
        return Some(Reply::NoFile);
    };
    if n >= 510 || n * 512 >= entry.length {
        return None;
    }
    let mut into = [0; 512];
    match catalog.read_page(title, n, &mut into) {
        Ok(()) => Some(Reply::Page(into)),
        Err(_) => None,
    }
}

// How bytes are stored, and the number of blocks that are then free; none where the drive has failed.
fn store_and_free<D: Drive>(
    catalog: &mut Catalog<'_, '_, D>,
    title: &Title,
    bytes: &[u8],
) -> Option<Reply>
    requires { IsMounted D.contents D.count catalog.old }
{
    if bytes.len() > 300_000 {
        return None;
    }
    let answer = catalog.store(title, FileKind::Text, bytes);
    if let Err(CatEnd::Fault) = answer {
        return None;
    }
    Some(Reply::Left(answer, catalog.free()))
}

fn store<D: Drive>(catalog: &mut Catalog<'_, '_, D>, title: &Title, bytes: &[u8]) -> Option<Reply>
    requires { IsMounted D.contents D.count catalog.old }
{
    if bytes.len() > 300_000 {
        return None;
    }
    Some(Reply::Ended(catalog.store(title, FileKind::Text, bytes)))
}

// What a catalogue tells; none where it is asked for what is no title or for a page that is not there.
fn tell<D: Drive>(catalog: &mut Catalog<'_, '_, D>, request: Request<'_>) -> Option<Reply>
    requires { IsMounted D.contents D.count catalog.old }
{
    match request {
        Request::Free => Some(Reply::Number(catalog.free())),
        Request::Slot(i) => Some(file_of(catalog.slot(i))),
        Request::Find(title) => Some(file_of(catalog.find(&Title::new(title)?))),
        Request::Page(title, n) => page(catalog, &Title::new(title)?, n),
        Request::Store(title, bytes) => store(catalog, &Title::new(title)?, bytes),
        Request::StoreAndFree(title, bytes) => {
            store_and_free(catalog, &Title::new(title)?, bytes)
        }
        Request::Protect(title) => Some(Reply::Ended(catalog.protect(&Title::new(title)?))),
        Request::Release(title) => Some(Reply::Ended(catalog.release(&Title::new(title)?))),
        Request::Delete(title) => Some(Reply::Ended(catalog.delete(&Title::new(title)?))),
        Request::Rename(old, new) => {
            let (old, new) = (Title::new(old)?, Title::new(new)?);
            Some(Reply::Ended(catalog.rename(&old, &new)))
        }
    }
}

/// Mounts a drive, and asks its catalogue; none where it is not mounted, or is asked for what is no title or for a page that
/// is not there.
pub(crate) fn asked<D: Drive>(alloc: Global, drive: &mut D, request: Request<'_>) -> Option<Reply> {
    let mut disk = Disk::attach(drive);
    let Ok(mut room) = check(alloc, &mut disk) else {
        return None;
    };
    let mut catalog = mount(disk, &mut room);
    tell(&mut catalog, request)
}

/// Mounts a drive for each row of a table, and asks its catalogue.
pub(crate) fn tells<D: Drive>(
    rt: &impl Abort,
    alloc: Global,
    drive: &mut D,
    table: &[(Request<'_>, Reply)],
) {
    for (row, (request, reply)) in table.iter().enumerate() {
        let found = asked(alloc, drive, *request);
        assert!(rt; found == Some(*reply), "row {row}");
    }
}

/// Mounts a drive, and reads a whole file, into room for the longest; none where it is not mounted, or where there is no such
/// room or title.
pub(crate) fn whole<D: Drive>(
    alloc: Global,
    drive: &mut D,
    title: &[u8],
    into: &mut [u8],
) -> Option<Result<u32, CatEnd>> {
    let title = Title::new(title)?;
    if into.len() < 261_120 {
        return None;
    }
    let mut disk = Disk::attach(drive);
    let Ok(mut room) = check(alloc, &mut disk) else {
        return None;
    };
    let mut catalog = mount(disk, &mut room);
    Some(catalog.read_into(&title, into))
}

/// What a check of a drive finds.
pub(crate) fn fault_of<D: Drive>(alloc: Global, drive: &mut D) -> Option<MountFault> {
    let mut disk = Disk::attach(drive);
    check(alloc, &mut disk).err()
}

/// Makes a new image; none where none has so many blocks.
pub(crate) fn formatted<D: Drive>(alloc: Global, drive: &mut D, blocks: u32) -> Option<FormatEnd> {
    if blocks < 64 || blocks > 4096 {
        return None;
    }
    Some(format(alloc, drive, blocks))
}

/// Makes an image of one of version 1; none where none has so many blocks.
pub(crate) fn migrated<D: Drive>(
    alloc: Global,
    drive: &mut D,
    blocks: u32,
    old: &[u8],
) -> Option<MigrateEnd> {
    if blocks < 64 || blocks > 4096 {
        return None;
    }
    Some(migrate(alloc, drive, blocks, old))
}
