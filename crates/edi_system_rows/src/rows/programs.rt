//! Programs' calls over objects in memory.

use crate::rows::calls::Answer::{Done, NoFile, Word};
use crate::rows::calls::Call::{
    Accept, Close, Display, Find, Fresh, More, Print, Read, Remove, Write,
};
use crate::rows::objects::{Case, Table, holds, unbroken};
use edi_calls::Outside;
use std::test::Fail;

/// An input of the characters `x` and `y`, which comes with an octet above 127.
const INPUT: &[u8] = b"x\xf9";

#[test]
fn each_call_is_answered(rt: HostRuntime) -> Result<(), Fail> {
    let table = [
        (More, NoFile),
        (Read, NoFile),
        (Write(97), NoFile),
        (Close("9"), NoFile),
        (Accept, Word(120)),
        (Accept, Word(121)),
        (Accept, Word(25)),
        (Display(0xff41), Done),
        (Print(0xff42), Done),
        (Find("code"), Word(0)),
        (Find("none"), Word(0)),
        (Find("9"), Word(0)),
        (Read, NoFile),
        (Find("text"), Word(1)),
        (More, Word(1)),
        (Read, Word(104)),
        // 233 modulo 128
        (Read, Word(105)),
        (Read, Word(10)),
        (More, Word(0)),
        (Read, Word(25)),
        (Fresh, Done),
        (Write(0xff61), Done),
        (Close("9"), Word(0)),
        (Close("kept"), Word(0)),
        (Remove("kept"), Word(0)),
        (Remove("none"), Word(0)),
        (Remove("9"), Word(0)),
        (Read, Word(25)),
        // the text is replaced, and then neither found nor written
        (Close("text"), Word(1)),
        (Read, NoFile),
        (Write(97), NoFile),
        (Find("text"), Word(1)),
        (Read, Word(97)),
        (Read, Word(25)),
        // a code is replaced, and another file is still found
        (Fresh, Done),
        (Close("code"), Word(1)),
        (More, Word(0)),
        (Remove("code"), Word(1)),
        (More, Word(0)),
        (Remove("text"), Word(1)),
        (More, NoFile),
        (Remove("text"), Word(0)),
        (Find("text"), Word(0)),
    ];
    let case = unbroken(Table::Calls(&table), INPUT, 16, b"A", b"B");
    assert!(rt; holds(&rt, rt.alloc(), case)?);
    Ok(())
}

#[test]
fn each_object_fails_in_each_of_its_calls(rt: HostRuntime) -> Result<(), Fail> {
    let table = [
        (Accept, Word(120)),
        (Display(97), Done),
        (Print(99), Done),
        (Find("text"), Word(1)),
        (More, Word(1)),
        (Read, Word(104)),
        (Display(98), Done),
        (Fresh, Done),
        (Write(97), Done),
        (Close("new"), Word(1)),
        (Remove("new"), Word(1)),
        (Accept, Word(121)),
        (Print(100), Done),
    ];
    let (drive, input) = (Outside::Drive, Outside::Input);
    let (terminal, printer) = (Outside::Terminal, Outside::Printer);
    // Mounting reads the 33 blocks of the catalogue and three maps. Then `more` reads a page; `close` writes a map and a page,
    // and the block of the entry; `remove` writes this block again.
    let cases: [(Outside, u64, usize, &[u8], &[u8]); 15] = [
        (input, 1, 0, b"", b""),
        (input, 2, 11, b"ab", b"c"),
        (input, 3, 13, b"ab", b"cd"),
        (terminal, 1, 1, b"", b""),
        (terminal, 2, 6, b"a", b"c"),
        (terminal, 3, 13, b"ab", b"cd"),
        (printer, 1, 2, b"a", b""),
        (printer, 2, 12, b"ab", b"c"),
        (printer, 3, 13, b"ab", b"cd"),
        (drive, 37, 4, b"a", b"c"),
        (drive, 38, 9, b"ab", b"c"),
        (drive, 39, 9, b"ab", b"c"),
        (drive, 40, 9, b"ab", b"c"),
        (drive, 41, 10, b"ab", b"c"),
        (drive, 42, 13, b"ab", b"cd"),
    ];
    for (object, n, calls, shown, printed) in cases {
        let case = Case {
            table: Table::Calls(&table),
            input: INPUT,
            capacity: 16,
            fails: (object, n),
            answered: calls,
            failed: if calls < 13 { Some(object) } else { None },
            shown,
            printed,
        };
        assert!(rt; holds(&rt, rt.alloc(), case)?, "{object:?} {n}");
    }
    Ok(())
}
