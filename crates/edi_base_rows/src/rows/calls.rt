//! Programs' calls of a system in memory.

use crate::rows::call_rows::{
    ACCEPT, CLOSE, DISPLAY, FAULTS, FILE, FIND, FREE, FRESH, IS_TEXT, KEPT, MORE, NEW, PRINT,
    PRINTED, READ, REMOVE, SHOWN, Step, TITLED, WRITE, add, take, walk,
};
use crate::rows::outside::filled;
use edi_calls::{FileKind, blocks_of, is_title, words_of};
use edi_memory::MemoryCalls;
use std::alloc::Global;
use std::process::Abort;

/// The words of the calls 1 to 10: how many each takes, and how many it answers.
const WORDS: [(usize, usize); 10] = [
    (0, 1),
    (1, 0),
    (1, 0),
    (12, 1),
    (0, 1),
    (0, 1),
    (0, 0),
    (1, 0),
    (12, 1),
    (12, 1),
];

fn have_words(rt: &impl Abort, table: &[(usize, usize)]) {
    for (i, words) in (1..11).zip(table) {
        assert!(rt; 1 <= i && i <= 10);
        assert!(rt; words_of(i) == *words, "call {i}");
    }
}

#[test]
fn calls_have_their_words(rt: HostRuntime) {
    have_words(&rt, &WORDS);
}

/// Texts, and whether they are titles.
const TITLES: [(&str, bool); 9] = [
    ("a", true),
    ("Z9_", true),
    ("abcdefghijklmnopqrstuvwx", true),
    ("abcdefghijklmnopqrstuvwxy", false),
    ("", false),
    ("9a", false),
    ("_a", false),
    ("a b", false),
    ("a-b", false),
];

fn are_titles(rt: &impl Abort, table: &[(&str, bool)]) {
    for (text, valid) in table {
        assert!(rt; is_title(text.as_bytes()) == *valid, "{text}");
    }
}

#[test]
fn titles_are_names(rt: HostRuntime) {
    are_titles(&rt, &TITLES);
}

/// Numbers of bytes, and of the blocks that they take.
const BLOCKS: [(usize, usize); 7] = [
    (0, 1),
    (1, 2),
    (512, 2),
    (513, 3),
    (130_560, 256),
    (130_561, 258),
    (261_120, 512),
];

fn take_blocks(rt: &impl Abort, table: &[(usize, usize)]) {
    for (bytes, blocks) in table {
        assert!(rt; *bytes <= 261_120);
        assert!(rt; blocks_of(*bytes) == *blocks, "{bytes} bytes");
    }
}

#[test]
fn files_take_blocks(rt: HostRuntime) {
    take_blocks(&rt, &BLOCKS);
}

/// Calls, from each NEW on of a system of its own.
const CALLS: &[Step] = &[
    // characters are taken, shown and printed, of which the lower seven bits count
    (NEW, 0, "x\u{f8}", 0),
    (ACCEPT, 0, "", 120),
    (DISPLAY, 120, "", 0),
    (ACCEPT, 0, "", 67),
    (DISPLAY, 67, "", 0),
    (ACCEPT, 0, "", 56),
    (ACCEPT, 0, "", 25),
    (DISPLAY, 25, "", 0),
    (ACCEPT, 0, "", 25),
    (DISPLAY, 25, "", 0),
    (PRINT, 0xff41, "", 0),
    (SHOWN, 0, "xC\x19\x19", 1),
    (PRINTED, 0, "A", 1),
    (FAULTS, 0, "", 0),
    // a file from its first character to its removal
    (NEW, 64, "", 0),
    (FREE, 0, "", 31),
    (MORE, 0, "", 1_000),
    (READ, 0, "", 1_000),
    (WRITE, 97, "", 1_000),
    (CLOSE, 0, "9", 1_000),
    (FILE, 2, "", 0),
    (CLOSE, 0, "9", 0),
    (CLOSE, 0, "t", 1),
    (CLOSE, 0, "t", 1_000),
    (FREE, 0, "", 29),
    (FIND, 0, "u", 0),
    (FIND, 0, "t", 1),
    (MORE, 0, "", 1),
    (READ, 0, "", 97),
    (READ, 0, "", 97),
    (MORE, 0, "", 0),
    (READ, 0, "", 25),
    (READ, 0, "", 25),
    (REMOVE, 0, "t", 1),
    (REMOVE, 0, "t", 0),
    (MORE, 0, "", 1_000),
    (FREE, 0, "", 31),
    // 4 blocks for files: one of 513 bytes takes 3 of them, and cannot be replaced by one as long
    (NEW, 37, "", 0),
    (FILE, 513, "", 0),
    (CLOSE, 0, "t", 1),
    (FILE, 513, "", 0),
    (CLOSE, 0, "t", 0),
    (FRESH, 0, "", 0),
    (CLOSE, 0, "t", 1),
    (FREE, 0, "", 3),
    // a file of the greatest length takes no character more; 4096 blocks less 33 of the catalogue and 512 of the file are left
    (NEW, 4_096, "", 0),
    (FILE, 261_120, "", 0),
    (WRITE, 97, "", 1_001),
    (CLOSE, 0, "t", 1),
    (FREE, 0, "", 3_551),
];

/// A system with this input and so many blocks.
fn system(rt: &impl Abort, alloc: Global, input: &str, blocks: u32) -> MemoryCalls {
    MemoryCalls::new(alloc, input.as_bytes(), blocks).expect(rt, "memory")
}

/// Makes the calls of a table that begins with NEW.
fn walk_new(rt: &impl Abort, alloc: Global, steps: &[Step]) {
    let mut calls = system(rt, alloc, "", 0);
    for step in steps {
        let (number, blocks, input, _) = step;
        if *number == NEW {
            calls = system(rt, alloc, input, *blocks);
        } else {
            take(rt, &mut calls, step);
        }
    }
}

#[test]
fn new_systems_answer_calls(rt: HostRuntime) {
    walk_new(&rt, rt.alloc(), CALLS);
}

/// A disk of 64 blocks has 31 for files; a first file of so many bytes leaves 2 or 3 of them to a second one.
fn needs_room(rt: &impl Abort, alloc: Global, size: usize, done: u16) {
    let mut calls = system(rt, alloc, "", 64);
    let bytes = filled(alloc, 0, size).expect(rt, "memory");
    let first = add(alloc, &mut calls, ("first", FileKind::Text, false), &bytes);
    assert!(rt; first == Some(true), "{size}");
    let steps = [(FILE, 513, "", 0), (CLOSE, 0, "second", done)];
    walk(rt, &mut calls, &steps);
}

#[test]
fn files_need_room(rt: HostRuntime) {
    for (size, done) in [(14_336, 0), (13_824, 1)] {
        needs_room(&rt, rt.alloc(), size, done);
    }
}

/// A file to be added, protected or not, with its bytes, and whether it is.
type Added = (&'static str, FileKind, bool, &'static str, bool);

/// Files; the second has the title of the first, which is protected.
const ADDED: [Added; 3] = [
    ("p", FileKind::Text, true, "kept", true),
    ("p", FileKind::Text, false, "", false),
    ("code", FileKind::Code, false, "c", true),
];

/// What may be done with a protected file, and with one of code.
const PROTECTED: [Step; 10] = [
    (FIND, 0, "p", 1),
    (FILE, 1, "", 0),
    (CLOSE, 0, "p", 0),
    (REMOVE, 0, "p", 0),
    (READ, 0, "", 107),
    (FIND, 0, "code", 0),
    (READ, 0, "", 1_000),
    (CLOSE, 0, "code", 1),
    (IS_TEXT, 1, "", 1),
    (KEPT, 0, "kept", 1),
];

fn add_all(rt: &impl Abort, alloc: Global, calls: &mut MemoryCalls, table: &[Added]) {
    for (text, kind, protected, bytes, done) in table {
        let added = add(alloc, calls, (text, *kind, *protected), bytes.as_bytes());
        assert!(rt; added == Some(*done), "{text}");
    }
}

#[test]
fn protected_files_and_code_stay_as_they_are(rt: HostRuntime) {
    let mut calls = system(&rt, rt.alloc(), "", 64);
    add_all(&rt, rt.alloc(), &mut calls, &ADDED);
    walk(&rt, &mut calls, &PROTECTED);
}

/// With all slots taken a file takes the slot of its title, and that of one that was removed.
const FULL: [Step; 4] = [
    (FRESH, 0, "", 0),
    (CLOSE, 0, "u", 0),
    (CLOSE, 0, "t7", 1),
    (REMOVE, 0, "t9", 1),
];

/// The slot that is free again.
const FREED: [Step; 3] = [(FRESH, 0, "", 0), (CLOSE, 0, "u", 1), (TITLED, 9, "u", 1)];

/// Adds so many files, of which the first 256 have room.
fn fill(rt: &impl Abort, alloc: Global, calls: &mut MemoryCalls, count: u32) {
    for i in 0..count {
        let text = format!(in alloc; "t{i}").expect(rt, "memory");
        let added = add(alloc, calls, (text.as_str(), FileKind::Text, false), b"");
        assert!(rt; added == Some(i < 256), "{i}");
    }
}

#[test]
fn there_are_256_slots(rt: HostRuntime) {
    let mut calls = system(&rt, rt.alloc(), "", 4_096);
    fill(&rt, rt.alloc(), &mut calls, 257);
    walk(&rt, &mut calls, &FULL);
    calls.fresh();
    walk(&rt, &mut calls, &FREED);
}
