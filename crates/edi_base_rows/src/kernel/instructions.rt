//! Each instruction, written and read, and words that are none.

use edi_target::{Op, read_op, write_op};
use std::alloc::{AllocError, Global};
use std::test::Fail;

// The words of an instruction behind two others; none where it is not allowed.
fn written(alloc: Global, op: Op<'_>) -> Result<Vec<u16>, AllocError> {
    let mut words = Vec::from_slice(alloc, &[9, 9])?;
    if op.is_allowed() {
        write_op(alloc, &mut words, &op)?;
    }
    Ok(words)
}

// The words of the instruction that stands behind two of these words, and where the next one stands; nothing where there is
// none.
fn read(alloc: Global, words: &[u16]) -> Result<Option<(Vec<u16>, u32)>, AllocError> {
    if words.len() > 100 {
        return Ok(None);
    }
    match read_op(words, 2) {
        Some((op, next)) => Ok(Some((written(alloc, op)?, next))),
        None => Ok(None),
    }
}

// The instruction is written as these words, behind two others, and read again before another.
fn is_written_and_read(alloc: Global, op: Op<'_>, words: &[u16]) -> Result<bool, AllocError> {
    let mut expected = Vec::from_slice(alloc, &[9, 9])?;
    expected.extend_from_slice(words)?;
    let is_written = written(alloc, op)?.as_slice() == expected.as_slice();
    expected.push(15)?;
    let Some((mut again, next)) = read(alloc, &expected)? else {
        return Ok(false);
    };
    let is_next = next as usize == again.len();
    again.push(15)?;
    Ok(is_written && is_next && again.as_slice() == expected.as_slice())
}

// Whether no instruction stands at an address of these words.
fn is_none(words: &[u16], at: u32) -> bool {
    words.len() <= 100 && read_op(words, at).is_none()
}

// Whether these words without their last are no instruction.
fn is_cut_short(words: &[u16]) -> bool {
    match words.split_last() {
        Some((_, front)) => is_none(front, 0),
        None => false,
    }
}

#[test]
fn each_is_written_and_read(rt: HostRuntime) -> Result<(), Fail> {
    let cases: [(Op<'_>, &[u16]); 44] = [
        (Op::Const { value: 97 }, &[1, 97]),
        (Op::Text { words: &[104, 105] }, &[2, 2, 104, 105]),
        (Op::Zeros { count: 8 }, &[3, 8]),
        (
            Op::Address {
                level: 64,
                offset: 5,
            },
            &[4, 64, 5],
        ),
        (Op::Field { offset: 3 }, &[5, 3]),
        (
            Op::Index {
                low: -1,
                high: 2,
                size: 4,
                line: 9,
            },
            &[6, 65_535, 2, 4, 9],
        ),
        (Op::Load { count: 1 }, &[7, 1]),
        (Op::Store { count: 2 }, &[8, 2]),
        (Op::Add { line: 1 }, &[9, 1]),
        (Op::Sub { line: 2 }, &[10, 2]),
        (Op::Mul { line: 3 }, &[11, 3]),
        (Op::Div { line: 4 }, &[12, 4]),
        (Op::Mod { line: 5 }, &[13, 5]),
        (Op::Neg { line: 6 }, &[14, 6]),
        (Op::Not, &[15]),
        (Op::Eq { count: 1 }, &[16, 1]),
        (Op::Ne { count: 3 }, &[17, 3]),
        (Op::Lt, &[18]),
        (Op::Le, &[19]),
        (Op::Gt, &[20]),
        (Op::Ge, &[21]),
        (Op::Union, &[22]),
        (Op::Minus, &[23]),
        (Op::Meet, &[24]),
        (Op::In, &[25]),
        (Op::Member { line: 7 }, &[26, 7]),
        (
            Op::Check {
                low: -32_768,
                high: -32_767,
                line: 8,
            },
            &[27, 32_768, 32_769, 8],
        ),
        (Op::Jump { target: 65_537 }, &[28, 1, 1]),
        (Op::False { target: 12 }, &[29, 0, 12]),
        (Op::And { target: 131_071 }, &[30, 1, 65_535]),
        (
            Op::Or {
                target: 4_294_967_295,
            },
            &[31, 65_535, 65_535],
        ),
        (Op::Loop { target: 0 }, &[32, 0, 0]),
        (
            Op::Entry {
                need: 11,
                results: 1,
                parameters: 2,
                variables: 3,
                function: 1,
            },
            &[33, 11, 1, 2, 3, 1],
        ),
        (
            Op::Call {
                level: 2,
                target: 65_538,
                line: 9,
            },
            &[34, 2, 1, 2, 9],
        ),
        (
            Op::CallP {
                level: 0,
                offset: 5,
                line: 1,
            },
            &[35, 0, 5, 1],
        ),
        (
            Op::Proc {
                level: 1,
                target: 7,
            },
            &[36, 1, 0, 7],
        ),
        (
            Op::Return {
                results: 1,
                function: 1,
            },
            &[37, 1, 1],
        ),
        (Op::Halt { line: 3 }, &[38, 3]),
        (Op::When { line: 4 }, &[39, 4]),
        (Op::Retry { target: 5 }, &[40, 0, 5]),
        (Op::Done, &[41]),
        (
            Op::Cobegin {
                line: 6,
                branches: &[5, 0, 20, 9, 1, 2],
            },
            &[42, 2, 6, 5, 0, 20, 9, 1, 2],
        ),
        (Op::Exit, &[43]),
        (Op::Quiet { target: 8 }, &[44, 0, 8]),
    ];
    for (op, words) in cases {
        let found = is_written_and_read(rt.alloc(), op, words)?;
        assert!(rt; found && is_cut_short(words), "{words:?}");
    }
    Ok(())
}

#[test]
fn words_of_none_are_refused(rt: HostRuntime) -> Result<(), Fail> {
    let cases: [&[u16]; 24] = [
        &[],
        &[0, 0, 0, 0, 0, 0],
        &[45, 0, 0, 0, 0, 0],
        &[65_535, 0, 0, 0, 0, 0],
        // nothing of a text, of a block of words, of zeros or of branches
        &[2, 0],
        &[3, 0],
        &[7, 0],
        &[8, 0],
        &[16, 0],
        &[17, 0],
        &[42, 0, 1],
        // more than 64 static links
        &[4, 65, 0],
        &[34, 65, 0, 0, 1],
        &[35, 65, 0, 1],
        &[36, 65, 0, 0],
        // an index from 1 to 0, and from 0 to -1
        &[6, 1, 0, 1, 1],
        &[6, 0, 65_535, 1, 1],
        // needs that are too small, also where a sum of words would wrap
        &[33, 4, 0, 0, 0, 0],
        &[33, 10, 1, 2, 3, 0],
        &[33, 4, 65_535, 0, 0, 0],
        &[42, 2, 1, 5, 0, 0, 4, 0, 0],
        // neither a procedure nor a function
        &[33, 5, 0, 0, 0, 2],
        &[37, 0, 2],
        // a branch that is not there whole
        &[42, 2, 1, 5, 0, 0, 5, 0],
    ];
    for words in cases {
        assert!(rt; is_none(words, 0), "{words:?}");
    }
    for at in [1, 4_294_967_295] {
        assert!(rt; is_none(&[15], at), "{at}");
    }
    Ok(())
}
