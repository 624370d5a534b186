//! Choices and their files.

use edi_trace::{ChoiceFault, Choices, read_choices, write_choices};
use std::alloc::Global;
use std::process::Abort;

// The choices to come first are these, and are told as those that were drawn.
fn are_drawn(rt: &impl Abort, choices: &mut Choices, values: &[u8]) {
    for (i, value) in values.iter().enumerate() {
        assert!(rt; choices.drawn() == i as u64, "choice {i}");
        assert!(rt; choices.draw() == *value, "choice {i}");
    }
    assert!(rt; choices.used() == values);
    assert!(rt; choices.drawn() == values.len() as u64);
}

#[test]
fn a_seed_generates(rt: HostRuntime) {
    let mut choices = Choices::seeded(rt.alloc(), 7).expect(&rt, "memory");
    are_drawn(&rt, &mut choices, &[230, 15]);
}

#[test]
fn a_list_goes_on_with_zeros(rt: HostRuntime) {
    let mut choices = Choices::list(rt.alloc(), &[3, 255]).expect(&rt, "memory");
    are_drawn(&rt, &mut choices, &[3, 255, 0, 0]);
}

#[test]
fn the_first_choices_are_kept(rt: HostRuntime) {
    let mut choices = Choices::seeded(rt.alloc(), 1).expect(&rt, "memory");
    for _ in 0..65_540 {
        choices.draw();
    }
    assert!(rt; (choices.drawn(), choices.used().len()) == (65_540, 65_536));
}

/// The first bad line of a file, or 0 where it has none.
fn bad_line(alloc: Global, bytes: &[u8]) -> u32 {
    match read_choices(alloc, bytes) {
        Ok(_) => 0,
        Err(ChoiceFault::Line(line)) => line,
        Err(ChoiceFault::NoMemory) => u32::MAX,
    }
}

/// Whether a file has these choices.
fn are_read(alloc: Global, bytes: &[u8], values: &[u8]) -> bool {
    match read_choices(alloc, bytes) {
        Ok(found) => found.as_slice() == values,
        Err(_) => false,
    }
}

/// Files of choices, each with its first bad line, or 0.
const FILES: [(&[u8], u32); 11] = [
    (b"", 0),
    (b"0\n", 0),
    (b"007\n255\n", 0),
    (b"0\n300\n", 2),
    (b"256\n", 1),
    (b"1\n2", 2),
    (b"1\n\n", 2),
    (b"1\r\n", 1),
    (b"0001\n", 1),
    (b"-1\n", 1),
    (b" 1\n", 1),
];

fn have_bad_lines(rt: &impl Abort, alloc: Global, table: &[(&[u8], u32)]) {
    for (bytes, line) in table {
        assert!(rt; bad_line(alloc, bytes) == *line, "{bytes:?}");
    }
}

#[test]
fn files_are_read_to_the_first_bad_line(rt: HostRuntime) {
    have_bad_lines(&rt, rt.alloc(), &FILES);
    assert!(rt; are_read(rt.alloc(), b"7\n007\n255\n", &[7, 7, 255]));
}

/// What comes behind 65,536 lines: nothing, a digit, and then a line feed; and the first bad line.
const ENDS: [(&[u8], u32); 3] = [(b"", 0), (b"1", 65_537), (b"\n", 65_537)];

fn lengthen(rt: &impl Abort, alloc: Global, bytes: &mut Vec<u8>, table: &[(&[u8], u32)]) {
    for (more, line) in table {
        bytes.extend_from_slice(more).expect(rt, "memory");
        assert!(rt; bad_line(alloc, bytes) == *line, "{line}");
    }
}

#[test]
fn a_file_has_at_most_65536_lines(rt: HostRuntime) {
    let mut bytes = Vec::new(rt.alloc());
    for _ in 0..65_536 {
        bytes.extend_from_slice(b"1\n").expect(&rt, "memory");
    }
    lengthen(&rt, rt.alloc(), &mut bytes, &ENDS);
}

#[test]
fn files_are_written(rt: HostRuntime) {
    let bytes = write_choices(rt.alloc(), &[0, 9, 10, 255]).expect(&rt, "memory");
    assert!(rt; bytes.as_slice() == b"0\n9\n10\n255\n".as_slice());
}
