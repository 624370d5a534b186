//! The images of the examples.

use std::alloc::{AllocError, Global};

/// An image of 64 blocks.
#[derive(Clone, Copy, Drop)]
pub(crate) enum Image {
    /// With three files in its first slots: the text `text` of the bytes 104, 233 and 10, the code `code` and the protected text
    /// `kept`, both without bytes. 27 blocks are free.
    Three,
    /// With the text `long` in its first slot, of 513 bytes, of which the last two are 98 and 99. 28 blocks are free.
    Long,
}

// Puts bytes from an index on, as far as there is room.
fn put(bytes: &mut [u8], at: usize, from: &[u8]) {
    for (old, byte) in bytes.iter_mut().skip(at).zip(from) {
        *old = *byte;
    }
}

// Puts an entry: the title, the kind and whether the file is protected, its map block, its length in two bytes.
fn put_entry(bytes: &mut [u8], at: usize, title: &[u8], kind: [u8; 2], map: u8, length: [u8; 2]) {
    put(bytes, at, &[b' '; 24]);
    put(bytes, at, title);
    put(bytes, at.saturating_add(24), &kind);
    put(bytes, at.saturating_add(27), &[map]);
    put(bytes, at.saturating_add(32), &length);
}

/// So many zeros.
pub(crate) fn zeros(alloc: Global, count: usize) -> Result<Vec<u8>, AllocError> {
    vec![in alloc; 0; count]
}

// Puts the catalogue and the blocks of three files.
fn put_three(bytes: &mut [u8]) {
    put_entry(bytes, 512, b"text", [1, 0], 33, [0, 3]);
    put_entry(bytes, 576, b"code", [2, 0], 35, [0, 0]);
    put_entry(bytes, 640, b"kept", [1, 1], 36, [0, 0]);
    put(bytes, 33 * 512, &[0, 1, 0, 34]);
    put(bytes, 34 * 512, &[104, 233, 10]);
}

// Puts those of one file of two pages: 512 bytes in block 34, of which the last is 98, and one in block 35.
fn put_long(bytes: &mut [u8]) {
    put_entry(bytes, 512, b"long", [1, 0], 33, [2, 1]);
    put(bytes, 33 * 512, &[0, 2, 0, 34, 0, 35]);
    put(bytes, 34 * 512 + 511, &[98, 99]);
}

/// The bytes of an image.
pub(crate) fn image_bytes(alloc: Global, which: Image) -> Result<Vec<u8>, AllocError> {
    let mut bytes = zeros(alloc, 64 * 512)?;
    put(&mut bytes, 0, b"EDIS\0\x02\0\x40");
    match which {
        Image::Three => put_three(&mut bytes),
        Image::Long => put_long(&mut bytes),
    }
    Ok(bytes)
}
