//! Words that the code reads.

use edi_words::{Account, ChoicesFrom, Command, Options, command};
use std::alloc::{AllocError, Global};
use std::process::Abort;

/// The words of a line, cut at blanks.
fn words_of(alloc: Global, line: &str) -> Result<Vec<String>, AllocError> {
    let mut words = Vec::new(alloc);
    for word in line.split(' ') {
        words.push(String::from_str(alloc, word)?)?;
    }
    Ok(words)
}

/// Whether the words of a line are refused; none where memory is wanting.
fn is_refused(alloc: Global, line: &str) -> Option<bool> {
    let words = words_of(alloc, line).ok()?;
    let found = command(alloc, &words).ok()?;
    Some(found.is_none())
}

const REFUSED: [&str; 17] = [
    "run",
    "--version",
    "run a --turns=5",
    "run a --seed 1 --choices b",
    "run a --seed 1 --seed 2",
    "put a t-1",
    "replay a b --record c",
    "boot a",
    "demo 1001",
    "run a --timeline",
    "run a --timeline b --timeline b",
    "replay a b --timeline c --record d",
    "watch a b c --timeline d",
    "explore a --timeline b",
    "demo 0 --timeline a",
    "run a --dump b --timeline c",
    "boot --dump a",
];

fn are_refused(rt: &impl Abort, alloc: Global, table: &[&str]) {
    for line in table {
        assert!(rt; is_refused(alloc, line) == Some(true), "{line}");
    }
}

#[test]
fn bad_words(rt: HostRuntime) {
    are_refused(&rt, rt.alloc(), &REFUSED);
}

/// Whether the words of a line are this command; none where memory is wanting.
fn is_command(alloc: Global, line: &str, expected: Command<'_>) -> Option<bool> {
    let words = words_of(alloc, line).ok()?;
    let found = command(alloc, &words).ok()?;
    Some(found == Some(expected))
}

#[test]
fn options_anywhere(rt: HostRuntime) {
    let line = "--seed 7 run --turns 0000000005 a --record r";
    let options = Options {
        turns: 5,
        choices: ChoicesFrom::Seed(7),
        record_file: Some("r"),
    };
    let expected = Command::Run { file: "a", options };
    assert!(rt; is_command(rt.alloc(), line, expected) == Some(true));
}

#[test]
fn a_timeline(rt: HostRuntime) {
    let options = Options {
        turns: 9,
        choices: ChoicesFrom::File("c"),
        record_file: None,
    };
    let expected = Command::RunWith {
        file: "a",
        account: Account::Timeline("t"),
        options,
    };
    let line = "replay a --timeline t c --turns 9";
    assert!(rt; is_command(rt.alloc(), line, expected) == Some(true));
}

#[test]
fn a_dump_of_a_demonstration(rt: HostRuntime) {
    let options = Options {
        turns: 1_000_000,
        choices: ChoicesFrom::Seed(3),
        record_file: Some("r"),
    };
    let expected = Command::DemoWith {
        n: 1000,
        account: Account::Dump("d"),
        options,
    };
    let line = "demo 1000 --record r --dump d --seed 3";
    assert!(rt; is_command(rt.alloc(), line, expected) == Some(true));
}

#[test]
fn an_old_disk(rt: HostRuntime) {
    let expected = Command::NewDisk {
        blocks: 64,
        old: Some("old"),
    };
    assert!(rt; is_command(rt.alloc(), "newdisk --from old 64", expected) == Some(true));
}
