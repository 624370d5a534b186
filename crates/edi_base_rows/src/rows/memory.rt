//! The memory and its shares.

use edi_store::{Segment, Store, carve};
use std::alloc::Global;
use std::process::Abort;

/// Puts words.
fn put(store: &mut Store, words: &[(u16, u16)]) {
    for (at, word) in words {
        store.put(*at, *word);
    }
}

/// Clears words, so many from a place on; none where they are not all in the memory.
fn clear(store: &mut Store, ranges: &[(u32, u32)]) {
    for (at, n) in ranges {
        if *n <= 65_536 && *at <= 65_536 && *at + *n <= 65_536 {
            store.clear(*at, *n);
        }
    }
}

/// The words are in their places.
fn holds(rt: &impl Abort, store: &Store, words: &[(u16, u16)]) {
    for (at, word) in words {
        assert!(rt; store.get(*at) == *word, "{at}");
    }
}

/// What is put, where how many words are cleared, and what is there then.
type Step = (
    &'static [(u16, u16)],
    &'static [(u32, u32)],
    &'static [(u16, u16)],
);

/// A memory of zeros at first, with both of its ends.
const STEPS: [Step; 3] = [
    (&[], &[], &[(0, 0), (65535, 0)]),
    (
        &[
            (0, 65535),
            (7, 65528),
            (8, 65527),
            (9, 65526),
            (10, 65525),
            (65535, 0),
        ],
        &[(8, 2), (65536, 0)],
        &[
            (0, 65535),
            (7, 65528),
            (8, 0),
            (9, 0),
            (10, 65525),
            (65535, 0),
        ],
    ),
    (
        &[(65534, 5), (65535, 6)],
        &[(65534, 2)],
        &[(65534, 0), (65535, 0)],
    ),
];

fn walk(rt: &impl Abort, store: &mut Store, steps: &[Step]) {
    for (words, cleared, found) in steps {
        put(store, words);
        clear(store, cleared);
        holds(rt, store, found);
    }
}

#[test]
fn words_are_put_and_cleared(rt: HostRuntime) {
    let mut store = Store::new(rt.alloc()).expect(&rt, "memory");
    walk(&rt, &mut store, &STEPS);
}

/// The words from 10 on, after four of 1 to 6 that stand there are copied; none where they have no room.
fn copied(rt: &impl Abort, alloc: Global, to: u32) -> Option<[u16; 6]> {
    let mut store = Store::new(alloc).expect(rt, "memory");
    put(
        &mut store,
        &[(10, 1), (11, 2), (12, 3), (13, 4), (14, 5), (15, 6)],
    );
    if to > 65_532 {
        return None;
    }
    store.copy(10, to, 4);
    let mut found = [0; 6];
    for (at, word) in (10..16).zip(found.iter_mut()) {
        *word = store.get(at);
    }
    Some(found)
}

/// Where the copy goes, and what the words from 10 on are then.
const COPIES: [(u32, [u16; 6]); 6] = [
    (10, [1, 2, 3, 4, 5, 6]),
    (11, [1, 1, 2, 3, 4, 6]),
    (12, [1, 2, 1, 2, 3, 4]),
    (9, [2, 3, 4, 4, 5, 6]),
    (8, [3, 4, 3, 4, 5, 6]),
    (100, [1, 2, 3, 4, 5, 6]),
];

fn are_copied(rt: &impl Abort, alloc: Global, table: &[(u32, [u16; 6])]) {
    for (to, want) in table {
        assert!(rt; copied(rt, alloc, *to) == Some(*want), "copied to {to}");
    }
}

#[test]
fn copies_overlap_both_ways(rt: HostRuntime) {
    are_copied(&rt, rt.alloc(), &COPIES);
}

/// Whether the words are equal; none where they are not all in the memory.
fn are_equal(store: &Store, a: u32, b: u32, n: u32) -> Option<bool> {
    if n > 65_536 || a > 65_536 || b > 65_536 || a + n > 65_536 || b + n > 65_536 {
        return None;
    }
    Some(store.equal(a, b, n))
}

/// Words to be compared, at their addresses.
const COMPARED: [(u16, u16); 9] = [
    (100, 7),
    (101, 7),
    (102, 7),
    (103, 7),
    (200, 7),
    (201, 7),
    (202, 7),
    (203, 8),
    (65535, 7),
];

/// Two addresses, how many words from each are compared, and whether they are equal.
const RANGES: [(u32, u32, u32, bool); 7] = [
    (100, 200, 3, true),
    (100, 200, 4, false),
    (203, 100, 1, false),
    (100, 65535, 1, true),
    (100, 65536, 0, true),
    (101, 100, 3, true),
    (0, 0, 65536, true),
];

fn are_compared(rt: &impl Abort, store: &Store, table: &[(u32, u32, u32, bool)]) {
    for (a, b, n, want) in table {
        let found = are_equal(store, *a, *b, *n);
        assert!(rt; found == Some(*want), "{n} words from {a} and from {b}");
    }
}

#[test]
fn ranges_are_compared_whole(rt: HostRuntime) {
    let mut store = Store::new(rt.alloc()).expect(&rt, "memory");
    put(&mut store, &COMPARED);
    are_compared(&rt, &store, &RANGES);
}

/// The share of a child, as its first word and the one behind its last; none where there is no such child or memory.
fn share(room: (u32, u32), n: u32, i: u32) -> Option<(u32, u32)> {
    let (first, last) = room;
    if first > last || last > 65_536 || i >= n {
        return None;
    }
    let found = carve(Segment { first, last }, n, i);
    Some((found.first, found.last))
}

/// A room, the number of children, a child, and its share.
type Share = ((u32, u32), u32, u32, (u32, u32));

/// Rooms that are carved evenly, with a rest, and among more children than words.
const SHARES: [Share; 6] = [
    ((0, 65536), 1, 0, (0, 65536)),
    ((0, 65536), 3, 2, (43690, 65535)),
    ((100, 110), 3, 0, (100, 103)),
    ((100, 110), 3, 1, (103, 106)),
    ((100, 110), 3, 2, (106, 109)),
    ((100, 110), 11, 10, (100, 100)),
];

fn are_carved(rt: &impl Abort, table: &[Share]) {
    for (room, n, i, want) in table {
        assert!(rt; share(*room, *n, *i) == Some(*want), "child {i} of {n}");
    }
}

#[test]
fn a_room_is_carved_into_shares(rt: HostRuntime) {
    are_carved(&rt, &SHARES);
}
