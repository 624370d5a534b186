//! Images of version 2 that are made of images of version 1.

use crate::catalog::asking::{Reply, Request, migrated, tells};
use crate::catalog::images::{failing, filled, put, sevens};
use edi_calls::FileKind;
use edi_catalog::{Entry, Title};
use edi_host::SteadyDrive;
use edi_image::migrate::{MigrateEnd, MountFault};
use std::alloc::{AllocError, Global};
use std::test::Fail;

/// An entry of version 1: a title of one character, or 0 for a free slot, the kind, the map, the length.
type Slot = (u8, u8, u8, u32);

// Puts an entry of version 1.
fn put_entry(bytes: &mut [u8], at: usize, slot: Slot) {
    let (title, kind, map, length) = slot;
    if title == 0 {
        return;
    }
    let [_, high, middle, low] = length.to_be_bytes();
    put(bytes, at, &[b' '; 12]);
    put(bytes, at, &[title]);
    put(bytes, at.saturating_add(12), &[kind]);
    put(bytes, at.saturating_add(15), &[map]);
    put(bytes, at.saturating_add(17), &[high, middle, low]);
}

// An image of 64 blocks with these entries in its first slots; block 5 is a map block of so many pages, from block 6 on, which
// begin with a 7.
fn image(alloc: Global, start: &[u8], slots: &[Slot], pages: u8) -> Result<Vec<u8>, AllocError> {
    let mut bytes = filled(alloc, 0, 64 * 512)?;
    put(&mut bytes, 0, start);
    let mut place = 512usize;
    for slot in slots {
        put_entry(&mut bytes, place, *slot);
        place = place.saturating_add(32);
    }
    put(&mut bytes, 5 * 512, &[0, pages]);
    let mut place = 2560usize;
    for page in 0..pages {
        place = place.saturating_add(2);
        put(&mut bytes, place, &[0, page.saturating_add(6)]);
    }
    put(&mut bytes, 6 * 512, &[7]);
    Ok(bytes)
}

#[test]
fn each_end_comes(rt: HostRuntime) -> Result<(), Fail> {
    let alloc = rt.alloc();
    let old = b"EDIS\0\x01\0\x40".as_slice();
    let new = b"EDIS\0\x02\0\x40".as_slice();
    let long = [(b't', 1, 5, 29_696)];
    let entry = MigrateEnd::Image(MountFault::Entry(0));
    let full = MigrateEnd::Full {
        wanted: 59,
        free: 31,
    };
    let shared = MigrateEnd::Image(MountFault::Shared(5));
    let page = MigrateEnd::Image(MountFault::Page(0, 64));
    let again = MigrateEnd::Image(MountFault::Entry(1));
    let cases: [(&[u8], &[Slot], u8, u32, MigrateEnd); 13] = [
        (old, &[], 0, 64, MigrateEnd::Ok),
        (
            old,
            &[(0, 0, 0, 0), (b't', 1, 5, 60)],
            1,
            64,
            MigrateEnd::Ok,
        ),
        (old, &[(b't', 2, 5, 0)], 0, 64, MigrateEnd::Ok),
        (old, &long, 58, 64, full),
        (old, &long, 58, 92, MigrateEnd::Ok),
        (new, &[], 0, 64, MigrateEnd::Image(MountFault::Header)),
        (old, &[(b't', 1, 4, 0)], 0, 64, entry),
        (old, &[(b't', 3, 5, 0)], 0, 64, entry),
        (old, &[(b't', 1, 5, 60)], 2, 64, entry),
        (old, &[(b't', 1, 5, 130_561)], 0, 64, entry),
        (old, &[(b't', 1, 5, 0), (b'u', 1, 5, 0)], 0, 64, shared),
        // a title that stands twice is found before its map
        (old, &[(b't', 1, 5, 0), (b't', 1, 5, 0)], 0, 64, again),
        (old, &[(b't', 1, 5, 30_000)], 59, 64, page),
    ];
    for (start, slots, pages, blocks, expected) in cases {
        let bytes = image(alloc, start, slots, pages)?;
        let mut drive = SteadyDrive::new(alloc, &[])?;
        let end = migrated(alloc, &mut drive, blocks, &bytes);
        assert!(rt; end == Some(expected), "{slots:?}");
        let is_made = expected == MigrateEnd::Ok;
        assert!(rt; is_made || drive.bytes().is_empty(), "{slots:?}");
    }
    Ok(())
}

#[test]
fn files_keep_their_slots(rt: HostRuntime) -> Result<(), Fail> {
    let alloc = rt.alloc();
    let slots = [(0, 0, 0, 0), (b't', 1, 5, 60)];
    let mut bytes = image(alloc, b"EDIS\0\x01\0\x40", &slots, 1)?;
    bytes.push(1)?;
    let mut drive = SteadyDrive::new(alloc, &[])?;
    let end = migrated(alloc, &mut drive, 64, &bytes);
    assert!(rt; end == Some(MigrateEnd::Ok));
    let found = Entry {
        title: Title::new(b"t").ok_or("no title")?,
        kind: FileKind::Text,
        protected: false,
        length: 60,
    };
    let cases = [
        (Request::Free, Reply::Number(29)),
        (Request::Slot(0), Reply::NoFile),
        (Request::Slot(1), Reply::File(found)),
        (Request::Find(b"t"), Reply::File(found)),
        (Request::Page(b"t", 0), Reply::Page(sevens(1))),
    ];
    tells(&rt, alloc, &mut drive, &cases);
    Ok(())
}

#[test]
fn a_drive_that_fails_is_told(rt: HostRuntime) -> Result<(), Fail> {
    let alloc = rt.alloc();
    let bytes = image(alloc, b"EDIS\0\x01\0\x40", &[(b't', 1, 5, 60)], 1)?;
    // a call that gives the drive its size, and 35 blocks
    let cases: [(u64, MigrateEnd); 4] = [
        (1, MigrateEnd::Fault),
        (2, MigrateEnd::Fault),
        (36, MigrateEnd::Fault),
        (37, MigrateEnd::Ok),
    ];
    for (n, expected) in cases {
        let mut drive = failing(&rt, alloc, &[], n, false)?;
        assert!(rt;
            migrated(alloc, &mut drive, 64, &bytes) == Some(expected),
            "{n}"
        );
    }
    Ok(())
}
