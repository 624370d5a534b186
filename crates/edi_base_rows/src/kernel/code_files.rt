//! Code files.

use edi_codefile::{load, pack};
use edi_target::CodeFault;
use std::alloc::Global;
use std::test::Fail;

/// A file of version 1: a program with one parameter, the call of number 2, which it is given the character `a`.
const FILE: [u8; 62] = [
    0xED, 0x15, 0, 1, // mark and version
    0, 0, 0, 15, // 15 words
    0, 0, 0, 0, // the entry is at 0
    1, 2, // one parameter, call 2
    0, 0, 0, 0, 0, 0, 0, 0, 0, 0, 0, 0, 0, 0, 0, 0, 0, 0, //
    0, 33, 0, 9, 0, 0, 0, 3, 0, 0, 0, 0, // 0: ENTRY 9 0 3 0 0
    0, 1, 0, 97, // 6: CONST 97
    0, 35, 0, 0, 0, 5, 0, 1, // 8: CALLP 0 5 1
    0, 37, 0, 0, 0, 0, // 12: RETURN 0 0
];

/// The file with other bytes at these indices.
fn changed(changes: &[(usize, u8)]) -> [u8; 62] {
    let mut file = FILE;
    for (at, byte) in changes {
        if let Some(old) = file.get_mut(*at) {
            *old = *byte;
        }
    }
    file
}

/// What is found in a file of these bytes.
fn fault_of(alloc: Global, bytes: &[u8]) -> Option<CodeFault> {
    load(alloc, bytes).err()
}

#[test]
fn files_of_every_length(rt: HostRuntime) -> Result<(), Fail> {
    let mut longer = FILE.to_vec(rt.alloc())?;
    longer.push(0)?;
    for length in 0..longer.len() {
        let (front, _) = longer.as_slice().split_at(length);
        let short = CodeFault::Short { at: length as u32 };
        let expected = if length < 62 { Some(short) } else { None };
        assert!(rt; fault_of(rt.alloc(), front) == expected, "{length} bytes");
    }
    assert!(rt; fault_of(rt.alloc(), &longer) == Some(CodeFault::Over { at: 62 }));
    Ok(())
}

fn header(at: u32, found: u8) -> Option<CodeFault> {
    Some(CodeFault::Header { at, found })
}

#[test]
fn fields_of_the_header(rt: HostRuntime) -> Result<(), Fail> {
    let cases = [
        (0, 0xEC, header(0, 0xEC)),
        (1, 0x16, header(0, 0xED)),
        (2, 1, header(2, 1)),
        (3, 0, header(2, 0)),
        (3, 2, None),
        (3, 3, header(2, 0)),
        (4, 1, header(4, 1)),
        (7, 0, header(4, 0)),
        (7, 14, Some(CodeFault::Over { at: 60 })),
        (7, 16, Some(CodeFault::Short { at: 62 })),
        (8, 9, header(8, 9)),
        (11, 15, header(8, 0)),
        (11, 6, Some(CodeFault::Jump { at: 6, target: 6 })),
        (12, 0, header(13, 2)),
        (12, 11, header(12, 11)),
        (13, 0, header(13, 0)),
        (13, 11, header(13, 11)),
        (14, 1, header(14, 1)),
        (31, 1, header(31, 1)),
    ];
    for (at, byte, fault) in cases {
        let file = changed(&[(at, byte)]);
        assert!(rt;
            fault_of(rt.alloc(), &file) == fault,
            "byte {at} made {byte}"
        );
    }
    Ok(())
}

#[test]
fn faults_of_the_words(rt: HostRuntime) -> Result<(), Fail> {
    let jump = CodeFault::Jump { at: 6, target: 7 };
    let quiet = CodeFault::Operation { at: 12, found: 44 };
    let cases: [(&[(usize, u8)], Option<CodeFault>); 3] = [
        // a JUMP into its own operand, and a NOT behind it
        (&[(45, 28), (47, 0), (49, 7), (51, 15)], Some(jump)),
        // a QUIET that leads back to 6, which only version 2 has
        (&[(57, 44), (61, 6)], Some(quiet)),
        (&[(3, 2), (57, 44), (61, 6)], None),
    ];
    for (changes, fault) in cases {
        let file = changed(changes);
        assert!(rt; fault_of(rt.alloc(), &file) == fault, "{changes:?}");
    }
    Ok(())
}

/// The file that is packed of the code of a file.
fn packed(alloc: Global, bytes: &[u8]) -> Result<Vec<u8>, Fail> {
    let code = load(alloc, bytes)?;
    Ok(pack(alloc, &code)?)
}

/// Whether a file has a code of these words from address 0 on, with a parameter that is call 2.
fn has_words(alloc: Global, bytes: &[u8], words: &[u16]) -> bool {
    match load(alloc, bytes) {
        Ok(code) => code.words() == words && code.entry() == 0 && code.calls() == [2].as_slice(),
        Err(_) => false,
    }
}

#[test]
fn packed_files(rt: HostRuntime) -> Result<(), Fail> {
    let words = [33, 9, 0, 3, 0, 0, 1, 97, 35, 0, 5, 1, 37, 0, 0];
    let file = packed(rt.alloc(), &FILE)?;
    assert!(rt; file.as_slice() == changed(&[(3, 2)]).as_slice());
    assert!(rt; has_words(rt.alloc(), &FILE, &words));
    assert!(rt; has_words(rt.alloc(), &file, &words));
    Ok(())
}
