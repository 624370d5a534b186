//! The lists.

use edi_lex::{Mark, Marks, Symbol, Text};
use edi_unit::Numbers;
use std::alloc::{AllocError, Global};
use std::test::Fail;

/// A text to which these bytes are pushed.
fn pushed(alloc: Global, bytes: &[u8]) -> Result<Text, AllocError> {
    let mut text = Text::new(alloc);
    for byte in bytes {
        text.push(alloc, *byte)?;
    }
    Ok(text)
}

/// A text of these bytes, made in one of three ways.
fn made(alloc: Global, way: u8, bytes: &[u8]) -> Result<Text, AllocError> {
    match way {
        0 => pushed(alloc, bytes),
        1 => Text::from_slice(alloc, bytes),
        _ => Ok(Text::from_vec(bytes.to_vec(alloc)?)),
    }
}

/// Whether each call tells these bytes of a text.
fn has(text: &Text, bytes: &[u8]) -> bool {
    text.len() == bytes.len()
        && text.is_empty() == bytes.is_empty()
        && text.get(1).copied() == bytes.get(1).copied()
        && text.get(2).copied() == bytes.get(2).copied()
        && text.as_slice() == bytes
}

/// Whether a text equals one that has these bytes.
fn equals(alloc: Global, text: &Text, bytes: &[u8]) -> Result<bool, AllocError> {
    let other = Text::from_slice(alloc, bytes)?;
    Ok(*text == other)
}

/// Whether a text that is made in this way has its bytes, is another one than a longer text, and then is cleared.
fn is_right(alloc: Global, way: u8, bytes: &[u8], longer: &[u8]) -> Result<bool, AllocError> {
    let mut text = made(alloc, way, bytes)?;
    let told = has(&text, bytes);
    let same = equals(alloc, &text, bytes)?;
    let other = equals(alloc, &text, longer)?;
    text.clear();
    Ok(told && same && !other && has(&text, b""))
}

/// The bytes of a text that is made in this way and taken apart.
fn apart(alloc: Global, way: u8, bytes: &[u8]) -> Result<Vec<u8>, AllocError> {
    Ok(made(alloc, way, bytes)?.into_vec())
}

#[test]
fn bytes(rt: HostRuntime) -> Result<(), Fail> {
    let alloc = rt.alloc();
    for (word, longer) in [("", "a"), ("ab", "abc"), ("xyz", "xyzz")] {
        for way in 0..3 {
            let right = is_right(alloc, way, word.as_bytes(), longer.as_bytes())?;
            let bytes = apart(alloc, way, word.as_bytes())?;
            assert!(rt; right && bytes.len() == word.len(), "{word} in way {way}");
        }
    }
    Ok(())
}

/// The line of a mark, or 0 where there is none.
fn line_of(mark: Option<&Mark>) -> u16 {
    match mark {
        Some(mark) => mark.line,
        None => 0,
    }
}

/// Whether there are two marks, on lines 1 and 2.
fn are_two(marks: &Marks) -> bool {
    marks.len() == 2
        && !marks.is_empty()
        && line_of(marks.get(0)) == 1
        && line_of(marks.get(1)) == 2
        && line_of(marks.get(2)) == 0
        && marks.as_slice().len() == 2
}

#[test]
fn marks(rt: HostRuntime) -> Result<(), Fail> {
    let mut marks = Marks::new(rt.alloc());
    let empty = marks.is_empty();
    for line in [1, 2] {
        let symbol = Symbol::Numeral(7);
        marks.push(rt.alloc(), Mark { symbol, line })?;
    }
    let two = are_two(&marks);
    let marks = Marks::from_vec(marks.into_vec());
    assert!(rt; empty && two && are_two(&marks));
    Ok(())
}

/// Whether a list has just these items.
fn has_items(list: &Numbers, items: &[u32]) -> bool {
    list.len() == items.len()
        && list.is_empty() == items.is_empty()
        && list.get(0).copied() == items.get(0).copied()
        && list.get(1).copied() == items.get(1).copied()
        && list.get(2).copied() == items.get(2).copied()
        && list.items() == items
}

#[test]
fn numbers(rt: HostRuntime) -> Result<(), Fail> {
    let alloc = rt.alloc();
    let mut list = Numbers::new(alloc);
    let none = has_items(&list, &[]);
    list.push(alloc, 4)?;
    list.push(alloc, 5)?;
    let two = has_items(&list, &[4, 5]);
    let mut vector = list.into_vec();
    vector.push(6)?;
    let three = has_items(&Numbers::from_vec(vector), &[4, 5, 6]);
    assert!(rt; none && two && three);
    Ok(())
}
