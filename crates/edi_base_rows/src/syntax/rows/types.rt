//! Types that no text can declare, since it has no negative bounds, and a table of types; the need of a block that is not there.

use edi_unit::{BOOL, INT, Shape, TypeTable, need};
use std::alloc::Global;
use std::process::Abort;

/// An array.
fn array(index: u32, lo: i16, hi: i16, element: u32) -> Shape {
    Shape::Array {
        index,
        lo,
        hi,
        element,
    }
}

/// A table in which the type 3 is this one, and the words that its values take.
fn with_type(rt: &impl Abort, alloc: Global, shape: Shape) -> (TypeTable, u32) {
    let mut table = TypeTable::new(alloc).expect(rt, "memory");
    assert_eq!(rt; table.len(), 3);
    assert!(rt; table.is_declarable(&shape));
    let number = table.declare(alloc, shape).expect(rt, "memory");
    assert_eq!(rt; number, 3);
    let words = table.size(number);
    (table, words)
}

#[test]
fn types_that_no_text_declares(rt: HostRuntime) {
    let alloc = rt.alloc();
    let (sets, words) = with_type(&rt, alloc, Shape::Set(INT));
    // The words of a set. Too many words; and a set as index.
    assert!(rt; words == 8 && sets.len() == 4);
    assert!(rt; !sets.is_declarable(&array(INT, -32768, 32767, INT)));
    assert!(rt; !sets.is_declarable(&array(3, 1, 2, INT)));
    // One element less.
    let (_, most) = with_type(&rt, alloc, array(INT, -32767, 32767, BOOL));
    assert!(rt; most == 65_535);
}

#[test]
fn a_block_that_is_not_there_needs_5(rt: HostRuntime) {
    let types = TypeTable::new(rt.alloc()).expect(&rt, "memory");
    assert_eq!(rt; need(&types, &[], 2), 5);
}
