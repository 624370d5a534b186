//! The host's files, and files in memory.

use crate::rows::outside::FilesCall::{Fetch, Keep};
use crate::rows::outside::{FilesRow, walk_files};
use edi_host::{FetchEnd, HostFiles, MemoryFiles, SteadyFiles};
use std::alloc::Global;
use std::fs;
use std::process::Abort;

/// Files that are kept and fetched.
const HOST: [FilesRow<'static>; 12] = [
    ("text of a file", Fetch(9), Err(FetchEnd::Absent)),
    ("text of a file", Keep("hello, there"), Ok("")),
    ("text of a file", Fetch(12), Ok("hello, there")),
    ("text of a file", Keep("hello"), Ok("")),
    ("text of a file", Fetch(9), Ok("hello")),
    ("text of a file", Fetch(5), Ok("hello")),
    ("text of a file", Fetch(3), Ok("hel")),
    ("text of a file", Fetch(0), Ok("")),
    ("folder of files/text", Keep("deep"), Ok("")),
    ("folder of files/text", Fetch(9), Ok("deep")),
    ("nothing", Keep(""), Ok("")),
    ("nothing", Fetch(9), Ok("")),
];

#[test]
fn files_of_the_host(rt: HostRuntime) {
    assert!(rt; fs::create_dir(&rt, "folder of files").is_ok());
    let mut files = HostFiles::new(&rt);
    walk_files(&rt, rt.alloc(), &mut files, &HOST);
}

/// A folder, a name below a file, a name with a NUL, a full device: an answer, and never a stop.
const BAD: [FilesRow<'static>; 12] = [
    ("", Fetch(9), Err(FetchEnd::Absent)),
    ("", Keep("x"), Err(FetchEnd::Failed)),
    ("absent/below", Fetch(9), Err(FetchEnd::Absent)),
    ("absent/below", Keep("x"), Err(FetchEnd::Failed)),
    ("folder", Fetch(9), Err(FetchEnd::Failed)),
    ("folder", Fetch(0), Err(FetchEnd::Failed)),
    ("folder", Keep("x"), Err(FetchEnd::Failed)),
    ("text/below", Fetch(9), Err(FetchEnd::Failed)),
    ("text/below", Keep("x"), Err(FetchEnd::Failed)),
    ("a\0b", Fetch(9), Err(FetchEnd::Failed)),
    ("a\0b", Keep("x"), Err(FetchEnd::Failed)),
    ("/dev/full", Keep("x"), Err(FetchEnd::Failed)),
];

#[test]
fn bad_names(rt: HostRuntime) {
    assert!(rt; fs::create_dir(&rt, "folder").is_ok());
    assert!(rt; fs::write(&rt, "text", "hello").is_ok());
    let mut files = HostFiles::new(&rt);
    walk_files(&rt, rt.alloc(), &mut files, &BAD);
}

// A name of so many bytes is no file.
fn long_name(rt: &impl Abort, host: &HostRuntime, count: usize) {
    let name = "n".repeat(host.alloc(), count).expect(rt, "memory");
    let calls: [FilesRow<'_>; 2] = [
        (&name, Keep("x"), Err(FetchEnd::Failed)),
        (&name, Fetch(9), Err(FetchEnd::Failed)),
    ];
    walk_files(rt, host.alloc(), &mut HostFiles::new(host), &calls);
}

// A file of so many bytes is fetched whole.
fn long_file(rt: &impl Abort, host: &HostRuntime, count: usize, limit: usize) {
    let text = "\x07".repeat(host.alloc(), count).expect(rt, "memory");
    let calls: [FilesRow<'_>; 2] = [
        ("many", Keep(&text), Ok("")),
        ("many", Fetch(limit), Ok(&text)),
    ];
    walk_files(rt, host.alloc(), &mut HostFiles::new(host), &calls);
}

// A name of 5000 bytes, and a file of more bytes than one read gives.
#[test]
fn long_names_and_files(rt: HostRuntime) {
    long_name(&rt, &rt, 5000);
    long_file(&rt, &rt, 10_000, 10_001);
}

// Files in memory of which only `one` is there.
fn one_file(rt: &impl Abort, alloc: Global, failing: &[u64]) -> MemoryFiles {
    let mut files = MemoryFiles::new(alloc, failing).expect(rt, "memory");
    assert!(rt; files.get("one").is_none());
    files.add(alloc, "one", b"hello").expect(rt, "memory");
    files
}

/// Calls 2, 4 and 6 are to fail; the fourth is for a name that is not there, so that it is absent.
const FAILING: [FilesRow<'static>; 9] = [
    ("one", Fetch(3), Ok("hel")),
    ("one", Fetch(3), Err(FetchEnd::Failed)),
    ("two", Keep("2"), Ok("")),
    ("three", Fetch(3), Err(FetchEnd::Absent)),
    ("one", Keep("new"), Ok("")),
    ("two", Keep("22"), Err(FetchEnd::Failed)),
    ("one", Fetch(0), Ok("")),
    ("one", Fetch(9), Ok("new")),
    ("two", Fetch(9), Ok("2")),
];

#[test]
fn files_in_memory(rt: HostRuntime) {
    let mut files = one_file(&rt, rt.alloc(), &[2, 4, 6]);
    walk_files(&rt, rt.alloc(), &mut files, &FAILING);
    assert!(rt; files.get("two") == Some(b"2".as_slice()));
    assert!(rt; files.get("three").is_none());
}

// The same, on files that do not fail.
fn one_steady_file(rt: &impl Abort, alloc: Global) -> SteadyFiles {
    let mut files = SteadyFiles::new(alloc).expect(rt, "memory");
    assert!(rt; files.get("one").is_none());
    files.add(alloc, "one", b"hello").expect(rt, "memory");
    files
}

/// What files that do not fail answer.
const STEADY: [FilesRow<'static>; 3] = [
    ("two", Keep("2"), Ok("")),
    ("one", Fetch(9), Ok("hello")),
    ("on", Fetch(9), Err(FetchEnd::Absent)),
];

#[test]
fn steady_files(rt: HostRuntime) {
    let mut files = one_steady_file(&rt, rt.alloc());
    walk_files(&rt, rt.alloc(), &mut files, &STEADY);
    assert!(rt; files.get("two") == Some(b"2".as_slice()));
}
