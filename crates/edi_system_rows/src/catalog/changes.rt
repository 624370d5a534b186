//! Files that are protected, released, deleted and renamed.

use crate::catalog::asking::{Reply, Request, asked};
use crate::catalog::images::{failing, image, put};
use edi_catalog::CatEnd;
use std::alloc::{AllocError, Global};
use std::process::Abort;
use std::test::Fail;

/// A file: a title of one character, and whether it is protected.
type File = (u8, bool);

// An image with this file, or none, in slot 0, and the file `b` in slot 1.
fn two_slots(alloc: Global, first: Option<File>) -> Result<Vec<u8>, AllocError> {
    let (title, protected) = first.unwrap_or((b'a', false));
    let slots = [(title, 1, 33, 0, 0), (b'b', 1, 34, 0, 0)];
    let mut bytes = image(alloc, b"EDIS\0\x02\0\x40", 64, &slots, &[], &[])?;
    if protected {
        put(&mut bytes, 512 + 25, &[1]);
    }
    if first.is_none() {
        put(&mut bytes, 512, &[0; 64]);
    }
    Ok(bytes)
}

/// What is asked, of an image with which file, how that ends, and which file it leaves.
type Case<'a> = (Request<'a>, Option<File>, Result<(), CatEnd>, Option<File>);

// The drive's call of a number fails, and lands or not.
fn is_changed(
    rt: &impl Abort,
    alloc: Global,
    fault: (u64, bool),
    case: Case<'_>,
) -> Result<bool, Fail> {
    let (number, lands) = fault;
    let (request, before, answer, after) = case;
    let bytes = two_slots(alloc, before)?;
    let expected = two_slots(alloc, after)?;
    let mut drive = failing(rt, alloc, &bytes, number, lands)?;
    let found = asked(alloc, &mut drive, request);
    Ok(found == Some(Reply::Ended(answer)) && drive.bytes() == expected.as_slice())
}

#[test]
fn one_file_is_changed(rt: HostRuntime) -> Result<(), Fail> {
    use Request::{Delete, Protect, Release, Rename};
    let alloc = rt.alloc();
    let (plain, protected) = (Some((b'a', false)), Some((b'a', true)));
    let (none, kept) = (Err(CatEnd::NoSuch), Err(CatEnd::Protected));
    let (taken, renamed) = (Err(CatEnd::Taken), Some((b'c', false)));
    let cases: [Case<'_>; 14] = [
        (Protect(b"a"), plain, Ok(()), protected),
        (Protect(b"a"), protected, Ok(()), protected),
        (Protect(b"x"), plain, none, plain),
        (Release(b"a"), protected, Ok(()), plain),
        (Release(b"x"), protected, none, protected),
        (Delete(b"a"), plain, Ok(()), None),
        (Delete(b"a"), protected, kept, protected),
        (Delete(b"x"), plain, none, plain),
        (Rename(b"a", b"c"), plain, Ok(()), renamed),
        (Rename(b"a", b"c"), protected, kept, protected),
        (Rename(b"a", b"b"), protected, kept, protected),
        (Rename(b"a", b"b"), plain, taken, plain),
        (Rename(b"a", b"a"), plain, taken, plain),
        (Rename(b"x", b"b"), plain, none, plain),
    ];
    for (row, case) in cases.iter().enumerate() {
        let done = is_changed(&rt, alloc, (0, false), *case)?;
        assert!(rt; done, "row {row}");
    }
    Ok(())
}

#[test]
fn a_fault_leaves_the_files_from_before_or_after(rt: HostRuntime) -> Result<(), Fail> {
    let alloc = rt.alloc();
    let (delete, plain) = (Request::Delete(b"a"), Some((b'a', false)));
    let fault = Err(CatEnd::Fault);
    // mounting reads the 33 blocks of the catalogue and two maps; then one block is written
    let cases: [((u64, bool), Case<'_>); 3] = [
        ((36, false), (delete, plain, fault, plain)),
        ((36, true), (delete, plain, fault, None)),
        ((37, true), (delete, plain, Ok(()), None)),
    ];
    for ((number, lands), case) in cases {
        let done = is_changed(&rt, alloc, (number, lands), case)?;
        assert!(rt; done, "{number} {lands}");
    }
    Ok(())
}
