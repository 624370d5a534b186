//! Whole files that are read.

use crate::catalog::asking::whole;
use crate::catalog::images::{filled, image, steady};
use edi_catalog::CatEnd;
use std::test::Fail;

/// The blocks of the pages, the last one first: a file of n pages has the first n of them.
const PAGES: [u16; 17] = [
    51, 50, 49, 48, 47, 46, 45, 44, 43, 42, 41, 40, 39, 38, 37, 36, 35,
];

// Fills each page with its number in the file, counted from 1.
fn number_pages(bytes: &mut [u8]) {
    for (place, byte) in bytes.iter_mut().enumerate() {
        let block = place / 512;
        if 35 <= block && block <= 51 {
            *byte = (52 - block) as u8;
        }
    }
}

// Whether so many bytes are those of numbered pages.
fn are_numbered(bytes: &[u8], count: usize) -> bool {
    bytes
        .iter()
        .take(count)
        .enumerate()
        .all(|(place, byte)| usize::from(*byte) == place / 512 + 1)
}

#[test]
fn whole_files_are_read(rt: HostRuntime) -> Result<(), Fail> {
    let alloc = rt.alloc();
    let none = Err(CatEnd::NoSuch);
    let cases: [(u32, usize, &[u8], Result<u32, CatEnd>, usize); 6] = [
        (0, 0, b"b", Ok(0), 0),
        (1, 1, b"b", Ok(1), 1),
        (512, 1, b"b", Ok(512), 512),
        (513, 2, b"b", Ok(513), 513),
        (8_704, 17, b"b", Ok(8_704), 8_704),
        (8_704, 17, b"c", none, 0),
    ];
    for (length, pages, title, expected, count) in cases {
        let (numbers, _) = PAGES.as_slice().split_at(pages.min(17));
        let slots = [(b'b', 1, 34, 0, length)];
        let mut bytes = image(alloc, b"EDIS\0\x02\0\x40", 64, &slots, &[], numbers)?;
        number_pages(&mut bytes);
        let mut drive = steady(&rt, alloc, &bytes)?;
        let mut into = filled(alloc, 255, 261_120)?;
        let answer = whole(alloc, &mut drive, title, &mut into);
        assert!(rt; answer == Some(expected), "{length}");
        assert!(rt; are_numbered(&into, count), "{length}");
    }
    Ok(())
}
