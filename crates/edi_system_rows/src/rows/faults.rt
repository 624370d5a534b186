//! What each call leaves where one of the objects fails in it: the files from before it, or those that it was to leave.

use crate::rows::calls::Answer::{Done, Word};
use crate::rows::calls::Call::{
    Accept, Close, Display, Find, Fresh, More, Print, Read, ReadOn, Remove, Write,
};
use crate::rows::image::Image;
use crate::rows::objects::{Case, Table, count_of, leaves};
use crate::rows::requests::Reply;
use crate::rows::requests::Reply::{File, No, Number, Yes};
use crate::rows::requests::Request::{
    self, Delete, Free, FreshLine, Page, PrintOut, Protect, Release, Rename, Show, Slot, Store,
    Take, Whole,
};
use edi_calls::{FileKind, Outside};
use std::alloc::{AllocError, Global};
use std::process::Abort;
use std::test::Fail;

/// Nothing of the input is taken.
const INPUT: &[u8] = b"xy";

/// The text and the protected file of the image.
const TEXT: Reply = File(FileKind::Text, 3, false);

const KEPT: Reply = File(FileKind::Text, 0, true);

/// What the slots have, the free blocks, and the first byte of a file.
type Files = [(Request, Reply); 6];

// The files of the image, with what these slots have, and a file's first byte.
fn files(
    first: Reply,
    third: Reply,
    fourth: Reply,
    free: u32,
    of: &'static str,
    byte: Reply,
) -> Files {
    [
        (Slot(0), first),
        (Slot(1), File(FileKind::Code, 0, false)),
        (Slot(2), third),
        (Slot(3), fourth),
        (Free, Number(free)),
        (Page(of, 0), byte),
    ]
}

// A table of calls of which the last uses the drive; the drive's call behind which it has changed the files; the files then.
type Row<'a> = (Table<'a>, u64, &'a Files);

// Whether the table is answered up to where the drive's n-th call fails, and leaves these files.
fn ends_so(
    rt: &impl Abort,
    alloc: Global,
    image: Image,
    row: Row<'_>,
    n: u64,
    lands: bool,
    left: &Files,
) -> Result<bool, AllocError> {
    let (table, last, _) = row;
    let is_fault = n <= last;
    let count = count_of(table);
    let case = Case {
        table,
        input: INPUT,
        capacity: 16,
        fails: (Outside::Drive, n),
        answered: if is_fault {
            count.saturating_sub(1)
        } else {
            count
        },
        failed: if is_fault { Some(Outside::Drive) } else { None },
        shown: b"",
        printed: b"",
    };
    leaves(rt, alloc, image, case, lands, INPUT, left)
}

// Before its last call a table makes so many calls of the drive. The files are those from before wherever a later one fails, but
// where the last one lands; and where none fails they are those that the table leaves.
fn is_before_or_after(
    rt: &impl Abort,
    alloc: Global,
    image: Image,
    made: u64,
    row: Row<'_>,
    before: &Files,
) -> Result<(), AllocError> {
    let (_, last, after) = row;
    for n in made.saturating_add(1)..last.saturating_add(1) {
        let landed = if n == last { after } else { before };
        assert!(rt; ends_so(rt, alloc, image, row, n, false, before)?, "{n}");
        assert!(rt;
            ends_so(rt, alloc, image, row, n, true, landed)?,
            "{n} lands"
        );
    }
    assert!(rt; ends_so(rt, alloc, image, row, last.saturating_add(1), false, after)?);
    Ok(())
}

#[test]
fn a_drive_that_fails_in_a_call_has_the_files_before_or_after(rt: HostRuntime) -> Result<(), Fail> {
    let alloc = rt.alloc();
    let before = files(TEXT, KEPT, No, 27, "text", Number(104));
    let gone = files(No, KEPT, No, 29, "text", No);
    let renamed = files(TEXT, KEPT, No, 27, "t2", Number(104));
    let protected = files(
        File(FileKind::Text, 3, true),
        KEPT,
        No,
        27,
        "text",
        Number(104),
    );
    let released = files(
        TEXT,
        File(FileKind::Text, 0, false),
        No,
        27,
        "text",
        Number(104),
    );
    let stored = files(
        TEXT,
        KEPT,
        File(FileKind::Text, 1, false),
        25,
        "new",
        Number(97),
    );
    let more = [(Find("text"), Word(1)), (More, Word(1))];
    let read = [(Find("text"), Word(1)), (Read, Word(104))];
    let remove = [(Remove("text"), Word(1))];
    let close = [(Fresh, Done), (Write(97), Done), (Close("new"), Word(1))];
    let page = [(Page("text", 0), Number(104))];
    let whole = [(Whole("text"), Number(3))];
    let store = [(Store("new", "a"), Yes)];
    let delete = [(Delete("text"), Yes)];
    let rename = [(Rename("text", "t2"), Yes)];
    let protect = [(Protect("text"), Yes)];
    let release = [(Release("kept"), Yes)];
    // Mounting reads the 33 blocks of the catalogue and three maps. A change writes the block of the entry; a store before it a
    // map and a page.
    let rows: [Row<'_>; 11] = [
        (Table::Calls(&more), 37, &before),
        (Table::Calls(&read), 37, &before),
        (Table::Calls(&remove), 37, &gone),
        (Table::Calls(&close), 39, &stored),
        (Table::Requests(&page), 37, &before),
        (Table::Requests(&whole), 37, &before),
        (Table::Requests(&store), 39, &stored),
        (Table::Requests(&delete), 37, &gone),
        (Table::Requests(&rename), 37, &renamed),
        (Table::Requests(&protect), 37, &protected),
        (Table::Requests(&release), 37, &released),
    ];
    for row in &rows {
        is_before_or_after(&rt, alloc, Image::Three, 36, *row, &before)?;
    }
    Ok(())
}

#[test]
fn a_drive_that_fails_at_a_second_page_has_the_files_before(rt: HostRuntime) -> Result<(), Fail> {
    let alloc = rt.alloc();
    let text = File(FileKind::Text, 513, false);
    let before = [
        (Slot(0), text),
        (Slot(1), No),
        (Slot(2), No),
        (Free, Number(28)),
        (Page("long", 0), Number(0)),
        (Page("long", 1), Number(99)),
    ];
    let read = [
        (Find("long"), Word(1)),
        (ReadOn(512), Word(98)),
        (Read, Word(99)),
    ];
    let more = [
        (Find("long"), Word(1)),
        (ReadOn(512), Word(98)),
        (More, Word(1)),
    ];
    let whole = [(Whole("long"), Number(513))];
    let page = [(Page("long", 0), Number(0)), (Page("long", 1), Number(99))];
    // Mounting reads the 33 blocks of the catalogue and one map; then each page is read once, the first in call 35.
    let rows: [(u64, Row<'_>); 4] = [
        (35, (Table::Calls(&read), 36, &before)),
        (35, (Table::Calls(&more), 36, &before)),
        (34, (Table::Requests(&whole), 36, &before)),
        (35, (Table::Requests(&page), 36, &before)),
    ];
    for (made, row) in &rows {
        is_before_or_after(&rt, alloc, Image::Long, *made, *row, &before)?;
    }
    Ok(())
}

// Whether the last of these calls fails with the n-th call of an object, and leaves the input, these files, and what was shown.
fn stays(
    rt: &impl Abort,
    alloc: Global,
    table: Table<'_>,
    fails: (Outside, u64),
    shown: &[u8],
    left: &Files,
) -> Result<bool, AllocError> {
    let case = Case {
        table,
        input: INPUT,
        capacity: 16,
        fails,
        answered: count_of(table).saturating_sub(1),
        failed: Some(fails.0),
        shown,
        printed: b"",
    };
    leaves(rt, alloc, Image::Three, case, false, INPUT, left)
}

#[test]
fn a_stream_that_fails_in_a_call_is_as_before(rt: HostRuntime) -> Result<(), Fail> {
    let alloc = rt.alloc();
    let before = files(TEXT, KEPT, No, 27, "text", Number(104));
    let accept = [(Accept, Word(120))];
    let display = [(Display(97), Done)];
    let print = [(Print(99), Done)];
    let take = [(Take, Number(120))];
    let show = [(Show("ab"), Yes)];
    let fresh_line = [(Show("a"), Yes), (FreshLine, Yes)];
    let print_out = [(PrintOut("ab"), Yes)];
    // The object that fails, and what has been shown before.
    let rows: [(Table<'_>, Outside, u64, &[u8]); 7] = [
        (Table::Calls(&accept), Outside::Input, 1, b""),
        (Table::Calls(&display), Outside::Terminal, 1, b""),
        (Table::Calls(&print), Outside::Printer, 1, b""),
        (Table::Requests(&take), Outside::Input, 1, b""),
        (Table::Requests(&show), Outside::Terminal, 1, b""),
        (Table::Requests(&fresh_line), Outside::Terminal, 2, b"a"),
        (Table::Requests(&print_out), Outside::Printer, 1, b""),
    ];
    for (table, object, n, shown) in rows {
        assert!(&rt;
            stays(&rt, alloc, table, (object, n), shown, &before)?,
            "{object:?}"
        );
    }
    Ok(())
}
