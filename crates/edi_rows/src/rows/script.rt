//! The texts, bytes and words of a line of a script.

ghost use Rattle.std.specs.Prelude.{◌<◌};

use std::alloc::Global;
use std::process::Abort;

/// A text as a script writes it.
pub fn meant(rt: &impl Abort, alloc: Global, text: &str) -> Vec<u8> {
    let mut bytes = text.as_bytes().to_vec(alloc).expect(rt, "memory");
    for byte in bytes.iter_mut() {
        if *byte == b'/' {
            *byte = b'\n';
        }
        if *byte == b'~' {
            *byte = 25;
        }
    }
    bytes
}

/// The number that a text says.
pub fn number(rt: &impl Abort, text: &str) -> u64 {
    text.parse::<u64>().expect(rt, text)
}

/// The number that a text says.
pub fn size(rt: &impl Abort, text: &str) -> usize {
    text.parse::<usize>().expect(rt, text)
}

/// The number of a byte that a text says.
pub fn byte(rt: &impl Abort, text: &str) -> u8 {
    text.parse::<u8>().expect(rt, text)
}

/// The value of a digit.
fn digit(rt: &impl Abort, byte: u8) -> u8
    ensures { result < 16 }
{
    match byte {
        b'0'..=b'9' => byte - b'0',
        b'a'..=b'f' => byte - b'a' + 10,
        _ => panic!(rt; "no digit"),
    }
}

/// Writes bytes of two digits each from a place on.
pub fn write_hex(rt: &impl Abort, bytes: &mut [u8], at: usize, hex: &str) {
    let (pairs, _) = hex.as_bytes().as_chunks::<2>();
    let Some(bytes) = bytes.get_mut(at..) else {
        panic!(rt; "no such place: {hex}");
    };
    assert!(rt;
        pairs.len() <= bytes.len() && hex.len() == 2 * pairs.len(),
        "{hex}"
    );
    for (byte, [high, low]) in bytes.iter_mut().zip(pairs) {
        *byte = digit(rt, *high) * 16 + digit(rt, *low);
    }
}

/// Two parts of a line.
pub fn parts(text: &str) -> (&str, &str) {
    text.split_once(' ').unwrap_or((text, ""))
}
