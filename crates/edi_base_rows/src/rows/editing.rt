//! The editor's text, as tables of calls.

ghost use Rattle.std.specs.Prelude.{◌≡◌, ◌≤◌, ◌+◌, length, false, IsTrue};
ghost use Rattle.edi_edit.specs.Lines.{has_feed};

use crate::rows::outside::filled;
use edi_edit::{EditEnd, ROOM, Text, UNDOS};
use std::alloc::{AllocError, Global};
use std::process::Abort;

#[derive(Clone, Copy)]
enum Call<'a> {
    Insert(u32, &'a [u8]),
    Replace(u32, &'a [u8]),
    Delete(u32),
    Undo,
}

#[derive(Clone, Copy, PartialEq)]
enum Answer {
    Done,
    NothingToUndo,
    NoLine,
    Full(u32),
    NoMemory,
    NotCalled,
}

fn answer_of(end: Result<(), EditEnd>) -> Answer {
    match end {
        Ok(()) => Answer::Done,
        Err(EditEnd::NoLine) => Answer::NoLine,
        Err(EditEnd::Full(size)) => Answer::Full(size),
        Err(EditEnd::NoMemory) => Answer::NoMemory,
    }
}

fn fits(line: &[u8]) -> bool
    ensures short { IsTrue result → length line.now ≤ ROOM + 1 }
    ensures one_line { IsTrue result → has_feed line.now ≡ false }
{
    if line.len() > ROOM as usize + 1 || line.contains(&b'\n') {
        return false;
    }
    true
}

// Makes the call, where what it asks for holds.
fn make(text: &mut Text, alloc: Global, call: Call) -> Answer {
    match call {
        Call::Insert(at, line) if fits(line) => answer_of(text.insert(alloc, at, line)),
        Call::Replace(at, line) if fits(line) => answer_of(text.replace(alloc, at, line)),
        Call::Delete(at) => answer_of(text.delete(alloc, at)),
        Call::Undo => match text.undo(alloc) {
            Ok(true) => Answer::Done,
            Ok(false) => Answer::NothingToUndo,
            Err(AllocError) => Answer::NoMemory,
        },
        _ => Answer::NotCalled,
    }
}

fn read(rt: &impl Abort, alloc: Global, bytes: &[u8]) -> Text {
    assert!(rt; bytes.len() <= ROOM as usize);
    Text::new(alloc, bytes).expect(rt, "memory")
}

// Whether the text has these bytes; not where memory is wanting.
fn has_bytes(text: &Text, alloc: Global, expected: &[u8]) -> bool {
    match text.bytes(alloc) {
        Ok(bytes) => bytes.as_slice() == expected,
        Err(AllocError) => false,
    }
}

/// A call, its answer, and the bytes of the text behind it.
type Step<'a> = (Call<'a>, Answer, &'a [u8]);

// Makes the calls of a table.
fn walk(rt: &impl Abort, alloc: Global, text: &mut Text, steps: &[Step<'_>]) {
    for (row, (call, answer, bytes)) in steps.iter().enumerate() {
        let made = make(text, alloc, *call) == *answer;
        assert!(rt; made && has_bytes(text, alloc, bytes), "row {row}");
    }
}

// Makes a call so many times.
fn repeat(rt: &impl Abort, alloc: Global, text: &mut Text, count: usize, step: (Call<'_>, Answer)) {
    let (call, answer) = step;
    for i in 0..count {
        assert!(rt; make(text, alloc, call) == answer, "{i} of {count}");
    }
}

/// Calls on the text of one line `a`.
const EDITING: [Step<'static>; 22] = [
    (Call::Insert(2, b"b"), Answer::Done, b"a\nb\n"),
    (Call::Delete(1), Answer::Done, b"b\n"),
    (Call::Undo, Answer::Done, b"a\nb\n"),
    (Call::Insert(0, b"x"), Answer::NoLine, b"a\nb\n"),
    (Call::Insert(4, b"x"), Answer::NoLine, b"a\nb\n"),
    (Call::Replace(0, b"x"), Answer::NoLine, b"a\nb\n"),
    (Call::Replace(3, b"x"), Answer::NoLine, b"a\nb\n"),
    (Call::Delete(0), Answer::NoLine, b"a\nb\n"),
    (Call::Delete(3), Answer::NoLine, b"a\nb\n"),
    (Call::Replace(2, b"xyz"), Answer::Done, b"a\nxyz\n"),
    (Call::Insert(3, b"end"), Answer::Done, b"a\nxyz\nend\n"),
    (Call::Insert(1, b""), Answer::Done, b"\na\nxyz\nend\n"),
    (Call::Undo, Answer::Done, b"a\nxyz\nend\n"),
    (Call::Undo, Answer::Done, b"a\nxyz\n"),
    (Call::Undo, Answer::Done, b"a\nb\n"),
    (Call::Undo, Answer::Done, b"a\n"),
    (Call::Undo, Answer::NothingToUndo, b"a\n"),
    (Call::Delete(1), Answer::Done, b""),
    (Call::Delete(1), Answer::NoLine, b""),
    (Call::Insert(1, b"c"), Answer::Done, b"c\n"),
    (Call::Undo, Answer::Done, b""),
    (Call::Undo, Answer::Done, b"a\n"),
];

#[test]
fn an_editing(rt: HostRuntime) {
    let mut text = read(&rt, rt.alloc(), b"a\n");
    walk(&rt, rt.alloc(), &mut text, &EDITING);
}

// Whether the lines 0 to 3 are these.
fn has_lines(text: &Text, lines: &[Option<&[u8]>]) -> bool {
    for (at, line) in (0..4u32).zip(lines) {
        if text.line(at) != *line {
            return false;
        }
    }
    true
}

/// A text, and its lines 0 to 3.
type Piece = (&'static [u8], [Option<&'static [u8]>; 4]);

/// Texts of no line to three, with a line feed at the end or none.
const PIECES: [Piece; 6] = [
    (b"", [None, None, None, None]),
    (b"\n", [None, Some(b""), None, None]),
    (b"a", [None, Some(b"a"), None, None]),
    (b"a\n", [None, Some(b"a"), None, None]),
    (b"\n\na", [None, Some(b""), Some(b""), Some(b"a")]),
    (b"a\n\na\n", [None, Some(b"a"), Some(b""), Some(b"a")]),
];

fn have_lines(rt: &impl Abort, alloc: Global, table: &[Piece]) {
    for (bytes, lines) in table {
        let text = read(rt, alloc, bytes);
        assert!(rt; has_lines(&text, lines), "{bytes:?}");
    }
}

#[test]
fn pieces_of_a_text(rt: HostRuntime) {
    have_lines(&rt, rt.alloc(), &PIECES);
}

// All but the last byte.
fn less_one(bytes: &[u8]) -> &[u8] {
    match bytes.split_last() {
        Some((_, front)) => front,
        None => bytes,
    }
}

// A text of so many bytes with no line feed is one line, which counts one more. `count` is 261,120, as the answers
// below say; as an argument it costs the proof nothing, where a long literal does.
fn fill(rt: &impl Abort, alloc: Global, count: usize) {
    use Answer::{Done, Full, NoLine};
    use Call::{Delete, Insert, Replace, Undo};
    let bytes = filled(alloc, b'a', count).expect(rt, "memory");
    let all = bytes.as_slice();
    let less = less_one(all);
    let steps: [(Call<'_>, Answer); 9] = [
        (Insert(1, b""), Full(261_122)),
        (Replace(1, all), Full(261_121)),
        (Insert(3, b""), NoLine),
        (Replace(1, b"b"), Done),
        (Undo, Done),
        (Delete(1), Done),
        (Insert(1, all), Full(261_121)),
        (Insert(1, less), Done),
        (Insert(1, b""), Full(261_121)),
    ];
    let mut text = read(rt, alloc, all);
    for step in &steps {
        repeat(rt, alloc, &mut text, 1, *step);
    }
}

#[test]
fn a_full_text(rt: HostRuntime) {
    fill(&rt, rt.alloc(), 261_120);
}

/// How often a call is made, and what it answers each time.
type Repeated = (usize, (Call<'static>, Answer));

/// One change more than can be undone.
const CHANGES: [Repeated; 4] = [
    (1, (Call::Replace(1, b"first"), Answer::Done)),
    (UNDOS, (Call::Insert(1, b"y"), Answer::Done)),
    (UNDOS, (Call::Undo, Answer::Done)),
    (1, (Call::Undo, Answer::NothingToUndo)),
];

fn repeat_all(rt: &impl Abort, alloc: Global, text: &mut Text, table: &[Repeated]) {
    for (count, step) in table {
        repeat(rt, alloc, text, *count, *step);
    }
}

#[test]
fn the_last_changes(rt: HostRuntime) {
    let mut text = read(&rt, rt.alloc(), b"x\n");
    repeat_all(&rt, rt.alloc(), &mut text, &CHANGES);
    assert!(rt; has_bytes(&text, rt.alloc(), b"first\n"));
}
