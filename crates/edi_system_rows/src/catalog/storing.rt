//! Files that are stored.

use crate::catalog::asking::{Reply, Request, asked, formatted, tells};
use crate::catalog::images::{failing, filled, image, sevens, steady};
use edi_catalog::{CatEnd, FormatEnd};
use edi_host::SteadyDrive;
use std::alloc::{AllocError, Global};
use std::process::Abort;
use std::test::Fail;

/// The blocks of the pages, in order.
const PAGES: [u16; 30] = [
    34, 35, 36, 37, 38, 39, 40, 41, 42, 43, 44, 45, 46, 47, 48, 49, 50, 51, 52, 53, 54, 55, 56, 57,
    58, 59, 60, 61, 62, 63,
];

// An image of 64 blocks with the file `b` in slot 0: block 33 is its map, and the blocks from 34 on are its pages.
fn with_pages(alloc: Global, pages: u16) -> Result<Vec<u8>, AllocError> {
    let (numbers, _) = PAGES.as_slice().split_at(usize::from(pages.min(30)));
    let slots = [(b'b', 1, 33, 0, u32::from(pages) * 512)];
    image(alloc, b"EDIS\0\x02\0\x40", 64, &slots, numbers, &[])
}

/// What is stored as the file `a`: how many sevens, how that ends where the drive's call of a number fails, which lands or not,
/// and then a page of the file and the number of free blocks.
type Case = (usize, u64, bool, Result<(), CatEnd>, u32, Reply, u32);

// Stores on these blocks, and asks another catalogue over what that leaves.
fn is_stored(rt: &impl Abort, alloc: Global, bytes: &[u8], case: Case) -> Result<(), Fail> {
    let (size, number, lands, answer, page, found, free) = case;
    let contents = filled(alloc, 7, size)?;
    let mut drive = failing(rt, alloc, bytes, number, lands)?;
    let stored = asked(alloc, &mut drive, Request::Store(b"a", &contents));
    assert!(rt; stored == Some(Reply::Ended(answer)), "{number}");
    let mut drive = steady(rt, alloc, drive.bytes())?;
    let table = [
        (Request::Page(b"a", page), found),
        (Request::Free, Reply::Number(free)),
    ];
    tells(rt, alloc, &mut drive, &table);
    Ok(())
}

#[test]
fn a_file_of_513_bytes_takes_three_blocks(rt: HostRuntime) -> Result<(), Fail> {
    let alloc = rt.alloc();
    let full = Err(CatEnd::Full { wanted: 3, free: 2 });
    let cases: [(u16, Case); 2] = [
        (28, (513, 0, false, full, 1, Reply::NoFile, 2)),
        (27, (513, 0, false, Ok(()), 1, Reply::Page(sevens(1)), 0)),
    ];
    for (pages, case) in cases {
        let bytes = with_pages(alloc, pages)?;
        is_stored(&rt, alloc, &bytes, case)?;
    }
    Ok(())
}

// What a store of 2,000 bytes leaves: the third page of the file, or no file, and the free blocks.
fn found_after(is_there: bool) -> (Reply, u32) {
    if is_there {
        (Reply::Page(sevens(464)), 24)
    } else {
        (Reply::NoFile, 29)
    }
}

#[test]
fn a_fault_leaves_the_files_before_or_after(rt: HostRuntime) -> Result<(), Fail> {
    let alloc = rt.alloc();
    let bytes = with_pages(alloc, 1)?;
    // a mount reads the 33 blocks of the catalogue and one map; a store of 2,000 bytes writes five blocks, and then that of
    // the entry
    let cases: [(u64, bool, bool); 14] = [
        (35, false, false),
        (35, true, false),
        (36, false, false),
        (36, true, false),
        (37, false, false),
        (37, true, false),
        (38, false, false),
        (38, true, false),
        (39, false, false),
        (39, true, false),
        (40, false, false),
        (40, true, true),
        (41, false, true),
        (41, true, true),
    ];
    for (n, lands, is_there) in cases {
        let answer = if n < 41 { Err(CatEnd::Fault) } else { Ok(()) };
        let (found, free) = found_after(is_there);
        is_stored(&rt, alloc, &bytes, (2000, n, lands, answer, 3, found, free))?;
    }
    Ok(())
}

#[test]
fn a_file_takes_its_pages_and_maps(rt: HostRuntime) -> Result<(), Fail> {
    let alloc = rt.alloc();
    let full = Err(CatEnd::Full {
        wanted: 512,
        free: 511,
    });
    let large = Err(CatEnd::TooLarge(261_121));
    // How many bytes are stored on a new image of so many blocks, and how many blocks are then free.
    let cases: [(u32, usize, Result<(), CatEnd>, u32); 7] = [
        (64, 0, Ok(()), 30),
        (64, 1, Ok(()), 29),
        (64, 512, Ok(()), 29),
        (300, 130_561, Ok(()), 9),
        (545, 261_120, Ok(()), 0),
        (544, 261_120, full, 511),
        (64, 261_121, large, 31),
    ];
    for (blocks, size, expected, free) in cases {
        let contents = filled(alloc, 7, size)?;
        let mut drive = SteadyDrive::new(alloc, &[])?;
        let made = formatted(alloc, &mut drive, blocks);
        let found = asked(alloc, &mut drive, Request::StoreAndFree(b"a", &contents));
        assert!(rt; made == Some(FormatEnd::Ok), "{blocks}");
        assert!(rt;
            found == Some(Reply::Left(expected, free)),
            "{blocks} {size}"
        );
    }
    Ok(())
}
