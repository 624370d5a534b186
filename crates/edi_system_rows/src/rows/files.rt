//! The shell's calls over objects in memory.

use crate::rows::objects::{Case, Table, holds, unbroken};
use crate::rows::requests::Reply::{File, No, Number, Refused, Yes};
use crate::rows::requests::Request::{
    Delete, Due, Find, Free, FreshLine, Page, PrintOut, Protect, Release, Rename, Show, Slot,
    Store, Take, Whole,
};
use edi_calls::{FileKind, Outside};
use edi_catalog::CatEnd;
use std::test::Fail;

#[test]
fn the_shell_shows_and_stores(rt: HostRuntime) -> Result<(), Fail> {
    let text = FileKind::Text;
    let table = [
        (Due, No),
        (FreshLine, Yes),
        (Show("ab"), Yes),
        (Due, Yes),
        (FreshLine, Yes),
        (Due, No),
        (FreshLine, Yes),
        (PrintOut("cd"), Yes),
        (Take, Number(120)),
        (Take, No),
        (Find("text"), File(text, 3, false)),
        (Find("code"), File(FileKind::Code, 0, false)),
        (Find("kept"), File(text, 0, true)),
        (Find("none"), No),
        (Slot(0), File(text, 3, false)),
        (Slot(3), No),
        (Slot(256), No),
        (Free, Number(27)),
        (Page("text", 0), Number(104)),
        (Page("text", 1), No),
        (Whole("text"), Number(3)),
        (Whole("none"), Refused(CatEnd::NoSuch)),
        (Store("new", "ab"), Yes),
        (Slot(3), File(text, 2, false)),
        (Free, Number(25)),
        (Page("new", 0), Number(97)),
        (Store("kept", "ab"), Refused(CatEnd::Protected)),
        (Rename("new", "text"), Refused(CatEnd::Taken)),
        (Rename("new", "other"), Yes),
        (Find("new"), No),
        (Whole("other"), Number(2)),
        (Delete("kept"), Refused(CatEnd::Protected)),
        (Delete("new"), Refused(CatEnd::NoSuch)),
        (Protect("none"), Refused(CatEnd::NoSuch)),
        (Protect("other"), Yes),
        (Find("other"), File(text, 2, true)),
        (Delete("other"), Refused(CatEnd::Protected)),
        (Release("other"), Yes),
        (Delete("other"), Yes),
        (Free, Number(27)),
    ];
    let case = unbroken(Table::Requests(&table), b"x", 5, b"ab\n", b"cd");
    assert!(rt; holds(&rt, rt.alloc(), case)?);
    Ok(())
}

#[test]
fn a_fault_ends_the_calls(rt: HostRuntime) -> Result<(), Fail> {
    let table = [
        (Show("abc"), Yes),
        (Page("text", 0), Number(104)),
        (Show("de"), Yes),
        (Store("new", "a"), Yes),
        (Delete("new"), Yes),
        (Show("fg"), Yes),
    ];
    // Mounting reads the 33 blocks of the catalogue and three maps; then a page is read, a store writes two blocks and that of
    // the entry, and a delete writes this again. The terminal has room for 5 bytes.
    let cases: [(u64, usize, Outside, &[u8]); 4] = [
        (37, 1, Outside::Drive, b"abc"),
        (40, 3, Outside::Drive, b"abcde"),
        (41, 4, Outside::Drive, b"abcde"),
        (42, 5, Outside::Terminal, b"abcde"),
    ];
    for (n, calls, object, shown) in cases {
        let case = Case {
            table: Table::Requests(&table),
            input: b"x",
            capacity: 5,
            fails: (Outside::Drive, n),
            answered: calls,
            failed: Some(object),
            shown,
            printed: b"",
        };
        assert!(rt; holds(&rt, rt.alloc(), case)?, "{n}");
    }
    Ok(())
}
