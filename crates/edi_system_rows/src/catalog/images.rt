//! Images: a new one, one for each rule that is broken, and one with files.

use crate::catalog::asking::{Reply, Request, asked, fault_of, formatted, tells};
use edi_calls::FileKind;
use edi_catalog::{Entry, FormatEnd, MountFault, Title};
use edi_host::{MemoryDrive, SteadyDrive};
use std::alloc::{AllocError, Global};
use std::process::Abort;
use std::test::Fail;

/// An entry: a title of one character, the kind, the two maps, the length.
type Slot = (u8, u8, u16, u16, u32);

/// So many times this byte.
pub(crate) fn filled(alloc: Global, byte: u8, count: usize) -> Result<Vec<u8>, AllocError> {
    vec![in alloc; byte; count]
}

/// Puts bytes from a place on, as far as there is room.
pub(crate) fn put(bytes: &mut [u8], at: usize, from: &[u8]) {
    for (place, byte) in bytes.iter_mut().skip(at).zip(from) {
        *place = *byte;
    }
}

// Puts an entry of version 2.
fn put_entry(bytes: &mut [u8], at: usize, slot: Slot) {
    let (title, kind, first, second, length) = slot;
    let [_, high, middle, low] = length.to_be_bytes();
    put(bytes, at, &[b' '; 24]);
    put(bytes, at, &[title]);
    put(bytes, at.saturating_add(24), &[kind]);
    put(bytes, at.saturating_add(26), &first.to_be_bytes());
    put(bytes, at.saturating_add(28), &second.to_be_bytes());
    put(bytes, at.saturating_add(31), &[high, middle, low]);
}

// Puts a map block of these page numbers, without the rest of the block.
fn put_map(bytes: &mut [u8], at: usize, pages: &[u16]) {
    put(bytes, at, &[0, (pages.len() % 256) as u8]);
    let mut place = at;
    for page in pages {
        place = place.saturating_add(2);
        put(bytes, place, &page.to_be_bytes());
    }
}

/// An image of so many blocks with these entries in its first slots; blocks 33 and 34 are map blocks of these page numbers.
pub(crate) fn image(
    alloc: Global,
    start: &[u8],
    count: u16,
    slots: &[Slot],
    first: &[u16],
    second: &[u16],
) -> Result<Vec<u8>, AllocError> {
    let mut bytes = filled(alloc, 0, usize::from(count) * 512)?;
    put(&mut bytes, 0, start);
    let mut place = 512usize;
    for slot in slots {
        put_entry(&mut bytes, place, *slot);
        place = place.saturating_add(64);
    }
    put_map(&mut bytes, 33 * 512, first);
    put_map(&mut bytes, 34 * 512, second);
    Ok(bytes)
}

/// A drive that has these blocks and never fails.
pub(crate) fn steady(
    rt: &impl Abort,
    alloc: Global,
    bytes: &[u8],
) -> Result<SteadyDrive, AllocError> {
    assert!(rt; bytes.len() % 512 == 0);
    SteadyDrive::new(alloc, bytes)
}

/// A drive that has these blocks and fails at the call of this number, which lands or not.
pub(crate) fn failing(
    rt: &impl Abort,
    alloc: Global,
    bytes: &[u8],
    number: u64,
    lands: bool,
) -> Result<MemoryDrive, AllocError> {
    assert!(rt; bytes.len() % 512 == 0);
    MemoryDrive::new(alloc, bytes, &[number], lands)
}

// A block stands twice.
fn shared(n: u16) -> Option<MountFault> {
    Some(MountFault::Shared(n))
}

#[test]
fn the_first_broken_rule_is_answered(rt: HostRuntime) -> Result<(), Fail> {
    let alloc = rt.alloc();
    let new = b"EDIS\0\x02\0\x40".as_slice();
    let old = b"EDIS\0\x01\0\x40".as_slice();
    let none = None;
    let entry = Some(MountFault::Entry(0));
    let cases: [(&[u8], u16, &[Slot], &[u16], &[u16], Option<MountFault>); 20] = [
        (new, 64, &[], &[], &[], none),
        (new, 0, &[], &[], &[], none),
        (new, 63, &[], &[], &[], Some(MountFault::Short)),
        (&[], 64, &[], &[], &[], Some(MountFault::Header)),
        (new, 65, &[], &[], &[], Some(MountFault::Header)),
        (old, 64, &[], &[], &[], Some(MountFault::Header)),
        // a kind of 3; a map in the catalogue; a map behind the drive; a second map that is not needed
        (new, 64, &[(b'a', 3, 33, 0, 0)], &[], &[], entry),
        (new, 64, &[(b'a', 1, 32, 0, 0)], &[], &[], entry),
        (new, 64, &[(b'a', 1, 64, 0, 0)], &[], &[], entry),
        (new, 64, &[(b'a', 1, 33, 34, 0)], &[], &[], entry),
        // a digit for a title; a file that is a byte too long
        (new, 64, &[(b'1', 1, 33, 0, 0)], &[], &[], entry),
        (new, 64, &[(b'a', 1, 33, 34, 261_121)], &[], &[], entry),
        // an empty file; one whose map tells a page too many
        (new, 64, &[(b'a', 1, 33, 0, 0)], &[], &[], none),
        (new, 64, &[(b'a', 1, 33, 0, 0)], &[34], &[], entry),
        // a page behind the drive; one that is its own map; one that stands twice
        (
            new,
            64,
            &[(b'a', 1, 33, 0, 1)],
            &[64],
            &[],
            Some(MountFault::Page(0, 64)),
        ),
        (new, 64, &[(b'a', 1, 33, 0, 1)], &[33], &[], shared(33)),
        (
            new,
            64,
            &[(b'a', 1, 33, 0, 513)],
            &[35, 35],
            &[],
            shared(35),
        ),
        // two files with one map, and with one title; two files
        (
            new,
            64,
            &[(b'a', 1, 33, 0, 0), (b'b', 1, 33, 0, 0)],
            &[],
            &[],
            shared(33),
        ),
        (
            new,
            64,
            &[(b'a', 1, 33, 0, 0), (b'a', 1, 34, 0, 0)],
            &[],
            &[],
            Some(MountFault::Entry(1)),
        ),
        (
            new,
            64,
            &[(b'a', 1, 33, 0, 0), (b'b', 2, 34, 0, 1)],
            &[],
            &[40],
            none,
        ),
    ];
    for (start, count, slots, first, second, expected) in cases {
        let bytes = image(alloc, start, count, slots, first, second)?;
        let mut drive = steady(&rt, alloc, &bytes)?;
        assert!(rt; fault_of(alloc, &mut drive) == expected, "{slots:?}");
        // the drive keeps its blocks, whatever the answer
        assert!(rt; drive.bytes() == bytes.as_slice(), "{slots:?}");
    }
    Ok(())
}

#[test]
fn a_new_image_has_no_files(rt: HostRuntime) -> Result<(), Fail> {
    let alloc = rt.alloc();
    let mut drive = SteadyDrive::new(alloc, &[])?;
    assert!(rt; formatted(alloc, &mut drive, 64) == Some(FormatEnd::Ok));
    let expected = image(alloc, b"EDIS\0\x02\0\x40", 64, &[], &[], &[])?;
    assert!(rt; drive.bytes() == expected.as_slice());
    let cases = [
        (Request::Free, Reply::Number(31)),
        (Request::Slot(0), Reply::NoFile),
        (Request::Slot(256), Reply::NoFile),
    ];
    tells(&rt, alloc, &mut drive, &cases);
    Ok(())
}

#[test]
fn files_are_found_and_read(rt: HostRuntime) -> Result<(), Fail> {
    let alloc = rt.alloc();
    let slots = [(b'a', 1, 33, 0, 0), (b'b', 2, 34, 0, 600)];
    let bytes = image(alloc, b"EDIS\0\x02\0\x40", 64, &slots, &[], &[40, 39])?;
    let mut drive = steady(&rt, alloc, &bytes)?;
    let found = Entry {
        title: Title::new(b"b").ok_or("no title")?,
        kind: FileKind::Code,
        protected: false,
        length: 600,
    };
    let cases = [
        (Request::Find(b"b"), Reply::File(found)),
        (Request::Free, Reply::Number(27)),
    ];
    tells(&rt, alloc, &mut drive, &cases);
    Ok(())
}

#[test]
fn a_drive_that_fails_is_answered(rt: HostRuntime) -> Result<(), Fail> {
    let alloc = rt.alloc();
    let bytes = image(alloc, b"EDIS\0\x02\0\x40", 64, &[], &[], &[])?;
    // a format makes 34 calls; a check of a new image reads 33 blocks
    let cases: [(u64, FormatEnd, Option<MountFault>); 4] = [
        (1, FormatEnd::Fault, Some(MountFault::Fault)),
        (33, FormatEnd::Fault, Some(MountFault::Fault)),
        (34, FormatEnd::Fault, None),
        (35, FormatEnd::Ok, None),
    ];
    for (n, end, expected) in cases {
        let mut drive = failing(&rt, alloc, &bytes, n, false)?;
        assert!(rt; formatted(alloc, &mut drive, 64) == Some(end), "{n}");
        let mut other = failing(&rt, alloc, &bytes, n, false)?;
        assert!(rt; fault_of(alloc, &mut other) == expected, "{n}");
    }
    Ok(())
}

/// A page that begins with so many sevens.
pub(crate) fn sevens(count: usize) -> [u8; 512] {
    let mut page = [0; 512];
    for byte in page.iter_mut().take(count) {
        *byte = 7;
    }
    page
}

#[test]
fn pages_are_read(rt: HostRuntime) -> Result<(), Fail> {
    let alloc = rt.alloc();
    let slots = [(b'b', 2, 34, 0, 600)];
    let mut bytes = image(alloc, b"EDIS\0\x02\0\x40", 64, &slots, &[], &[40, 39])?;
    put(&mut bytes, 39 * 512, &[7]);
    let mut drive = steady(&rt, alloc, &bytes)?;
    let page = asked(alloc, &mut drive, Request::Page(b"b", 1));
    assert!(rt; page == Some(Reply::Page(sevens(1))));
    Ok(())
}
