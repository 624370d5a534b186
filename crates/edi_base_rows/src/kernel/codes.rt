//! Codes, checked: the words of a program that displays the letter a, with one change each.

use edi_target::{Code, CodeFault};
use std::alloc::{AllocError, Global};
use std::process::Abort;
use std::test::Fail;

/// ENTRY 9 0 3 0 0; CONST 97; CALLP 0 5 1; RETURN 0 0.
const SAMPLE: [u16; 15] = [33, 9, 0, 3, 0, 0, 1, 97, 35, 0, 5, 1, 37, 0, 0];

// Whether a code is of these words, this entry and these calls.
fn is_of(code: &Code, words: &[u16], entry: u32, calls: &[u8]) -> bool {
    code.words() == words && code.entry() == entry && code.calls() == calls
}

// What `Code::check` finds, and whether a code is what was given.
fn fault_of(
    rt: &impl Abort,
    alloc: Global,
    words: &[u16],
    entry: u32,
    calls: &[u8],
) -> Result<Option<CodeFault>, Fail> {
    assert!(rt; words.len() < 1000 && calls.len() < 100);
    match Code::check(alloc, words.to_vec(alloc)?, entry, calls) {
        Err(fault) => Ok(Some(fault)),
        Ok(code) => {
            assert!(rt; is_of(&code, words, entry, calls), "{words:?}");
            Ok(None)
        }
    }
}

#[test]
fn words_are_checked(rt: HostRuntime) -> Result<(), Fail> {
    let cases: [(&[u16], Option<CodeFault>); 22] = [
        (&SAMPLE, None),
        // a JUMP into its own operand
        (
            &[33, 9, 0, 3, 0, 0, 28, 0, 7, 15, 5, 1, 37, 0, 0],
            Some(CodeFault::Jump { at: 6, target: 7 }),
        ),
        // a QUIET to itself
        (&[33, 9, 0, 3, 0, 0, 1, 97, 35, 0, 5, 1, 44, 0, 12], None),
        // the last word is gone
        (
            &[33, 9, 0, 3, 0, 0, 1, 97, 35, 0, 5, 1, 37, 0],
            Some(CodeFault::Operation { at: 12, found: 37 }),
        ),
        // numbers of no instruction
        (
            &[33, 9, 0, 3, 0, 0, 45, 97, 37, 0, 0],
            Some(CodeFault::Operation { at: 6, found: 45 }),
        ),
        (
            &[33, 9, 0, 3, 0, 0, 0, 97, 37, 0, 0],
            Some(CodeFault::Operation { at: 6, found: 0 }),
        ),
        // a need of 7 words for a frame of 8
        (
            &[33, 7, 0, 3, 0, 0, 37, 0, 0],
            Some(CodeFault::Operation { at: 0, found: 33 }),
        ),
        // an index from 5 to 4, and from -1 to 0; a check from 5 to 4
        (
            &[33, 9, 0, 3, 0, 0, 6, 5, 4, 1, 1, 37, 0, 0],
            Some(CodeFault::Operation { at: 6, found: 6 }),
        ),
        (&[33, 9, 0, 3, 0, 0, 6, 65_535, 0, 1, 1, 37, 0, 0], None),
        (&[33, 9, 0, 3, 0, 0, 27, 5, 4, 1, 37, 0, 0], None),
        // a JUMP to itself; a LOOP to itself, and ahead
        (
            &[33, 9, 0, 3, 0, 0, 28, 0, 6, 37, 0, 0],
            Some(CodeFault::Jump { at: 6, target: 6 }),
        ),
        (&[33, 9, 0, 3, 0, 0, 32, 0, 6, 37, 0, 0], None),
        (
            &[33, 9, 0, 3, 0, 0, 32, 0, 9, 37, 0, 0],
            Some(CodeFault::Jump { at: 6, target: 9 }),
        ),
        // a JUMP ahead, and one behind the last word
        (&[33, 9, 0, 3, 0, 0, 28, 0, 9, 37, 0, 0], None),
        (
            &[33, 9, 0, 3, 0, 0, 28, 1, 0, 37, 0, 0],
            Some(CodeFault::Jump {
                at: 6,
                target: 65_536,
            }),
        ),
        // a CALL of the ENTRY, and of itself
        (&[33, 9, 0, 3, 0, 0, 34, 0, 0, 0, 1, 37, 0, 0], None),
        (
            &[33, 9, 0, 3, 0, 0, 34, 0, 0, 6, 1, 37, 0, 0],
            Some(CodeFault::Jump { at: 6, target: 6 }),
        ),
        // a COBEGIN of one branch at an EXIT, and into its operands; with a need of 4 words; without branches
        (&[33, 9, 0, 3, 0, 0, 42, 1, 1, 5, 0, 12, 43, 37, 0, 0], None),
        (
            &[33, 9, 0, 3, 0, 0, 42, 1, 1, 5, 0, 11, 43, 37, 0, 0],
            Some(CodeFault::Jump { at: 6, target: 11 }),
        ),
        (
            &[33, 9, 0, 3, 0, 0, 42, 1, 1, 4, 0, 12, 43, 37, 0, 0],
            Some(CodeFault::Operation { at: 6, found: 42 }),
        ),
        (
            &[33, 9, 0, 3, 0, 0, 42, 0, 1, 37, 0, 0],
            Some(CodeFault::Operation { at: 6, found: 42 }),
        ),
        // an operation before a jump, which stands before it
        (
            &[33, 9, 0, 3, 0, 0, 28, 0, 7, 45, 0, 0],
            Some(CodeFault::Operation { at: 9, found: 45 }),
        ),
    ];
    for (words, fault) in cases {
        let found = fault_of(&rt, rt.alloc(), words, 0, &[2])?;
        assert!(rt; found == fault, "{words:?}");
    }
    Ok(())
}

#[test]
fn headers_are_checked(rt: HostRuntime) -> Result<(), Fail> {
    let cases: [(&[u16], u32, &[u8], Option<CodeFault>); 10] = [
        (&[], 0, &[2], Some(CodeFault::Header { at: 4, found: 0 })),
        (
            &SAMPLE,
            15,
            &[2],
            Some(CodeFault::Header { at: 8, found: 0 }),
        ),
        (
            &SAMPLE,
            0x0102_0304,
            &[2],
            Some(CodeFault::Header { at: 8, found: 1 }),
        ),
        (
            &SAMPLE,
            0,
            &[1, 2, 3, 4, 5, 6, 7, 8, 9, 10, 1],
            Some(CodeFault::Header { at: 12, found: 11 }),
        ),
        (
            &SAMPLE,
            0,
            &[0],
            Some(CodeFault::Header { at: 13, found: 0 }),
        ),
        (
            &SAMPLE,
            0,
            &[11],
            Some(CodeFault::Header { at: 13, found: 11 }),
        ),
        (
            &SAMPLE,
            0,
            &[10, 2, 10],
            Some(CodeFault::Header { at: 15, found: 10 }),
        ),
        // no parameter, and two, for an ENTRY with three words of parameters
        (&SAMPLE, 0, &[], Some(CodeFault::Jump { at: 0, target: 0 })),
        (
            &SAMPLE,
            0,
            &[1, 2],
            Some(CodeFault::Jump { at: 0, target: 0 }),
        ),
        // the entry at a CONST
        (&SAMPLE, 6, &[2], Some(CodeFault::Jump { at: 6, target: 6 })),
    ];
    for (words, entry, calls, fault) in cases {
        let found = fault_of(&rt, rt.alloc(), words, entry, calls)?;
        assert!(rt; found == fault, "{entry} {calls:?}");
    }
    Ok(())
}

// What is found in a code of an ENTRY, and NOTs up to a number of words.
fn long_fault(
    rt: &impl Abort,
    alloc: Global,
    count: usize,
) -> Result<Option<CodeFault>, AllocError> {
    let mut words = [33, 5, 0, 0, 0, 0].to_vec(alloc)?;
    words.resize(count, 15)?;
    assert!(rt; words.len() < 5_000_000);
    Ok(Code::check(alloc, words, 0, &[]).err())
}

// The longest code has 4,194,304 words.
#[test]
fn the_longest_code_is_checked(rt: HostRuntime) -> Result<(), Fail> {
    let longer = CodeFault::Header { at: 4, found: 0 };
    for (count, fault) in [(4_194_304, None), (4_194_305, Some(longer))] {
        let found = long_fault(&rt, rt.alloc(), count)?;
        assert!(rt; found == fault, "{count}");
    }
    Ok(())
}
