//! Programs' calls of a system in memory as values, so that an example is a table.

ghost use Rattle.std.specs.Prelude.{◌≡◌, ◌≤◌};

use edi_calls::{CallEnd, Calls, FileKind, Outside, words_of};
use edi_memory::MemoryCalls;
use std::alloc::Global;
use std::process::Abort;

pub(crate) const ACCEPT: u8 = 1;

pub(crate) const DISPLAY: u8 = 2;

pub(crate) const PRINT: u8 = 3;

pub(crate) const FIND: u8 = 4;

pub(crate) const MORE: u8 = 5;

pub(crate) const READ: u8 = 6;

pub(crate) const FRESH: u8 = 7;

pub(crate) const WRITE: u8 = 8;

pub(crate) const CLOSE: u8 = 9;

pub(crate) const REMOVE: u8 = 10;

/// No call: a file of so many characters is begun and written.
pub(crate) const FILE: u8 = 11;

/// No call: the number of free blocks.
pub(crate) const FREE: u8 = 12;

/// No call: the faults of the terminal.
pub(crate) const FAULTS: u8 = 13;

/// No call: 1 where the terminal was shown these characters.
pub(crate) const SHOWN: u8 = 14;

/// No call: 1 where the printer was given these characters.
pub(crate) const PRINTED: u8 = 15;

/// No call: 1 where the file `p` has these bytes.
pub(crate) const KEPT: u8 = 16;

/// No call: 1 where the slot has a file of this title.
pub(crate) const TITLED: u8 = 17;

/// No call: 1 where the slot has a text.
pub(crate) const IS_TEXT: u8 = 18;

/// No call: a new system, with this input and so many blocks, in the place of the one before.
pub(crate) const NEW: u8 = 19;

/// A call with a character (for `FILE` and `NEW` a number, for others the number of a slot) and a title, as far as it takes them, and
/// what it answers: its word, 0 where it has none, and 1000 or more for another end than `Ok`.
pub(crate) type Step = (u8, u32, &'static str, u16);

/// Makes a call of a system which works.
fn call(
    rt: &impl Abort,
    calls: &mut MemoryCalls,
    number: u8,
    args: &[u16],
    answer: &mut [u16],
) -> CallEnd
    requires from { 1 ≤ number }
    requires to { number ≤ 10 }
{
    let (arguments, answers) = words_of(number);
    assert_eq!(rt; args.len(), arguments);
    assert_eq!(rt; answer.len(), answers);
    assert_eq!(rt; calls.failed(), None);
    calls.call(number, args, answer)
}

/// The word that a call of a system which works answers, or the number 1000 and more for another end.
fn answer(rt: &impl Abort, calls: &mut MemoryCalls, number: u8, args: &[u16]) -> u16
    requires from { 1 ≤ number }
    requires to { number ≤ 10 }
{
    let mut word = [u16::MAX];
    let end = call(rt, calls, number, args, &mut word);
    if end == CallEnd::Ok {
        word[0]
    } else {
        ended(end)
    }
}

/// A title filled with blanks.
fn title(text: &str) -> [u16; 12] {
    let mut words = [32; 12];
    for (word, byte) in words.iter_mut().zip(text.as_bytes()) {
        *word = u16::from(*byte);
    }
    words
}

/// What the end of a call without answer is in a `Step`.
fn ended(end: CallEnd) -> u16 {
    match end {
        CallEnd::Ok => 0,
        CallEnd::NoFile => 1_000,
        CallEnd::FileLimit => 1_001,
        CallEnd::OutsideFault => 1_002,
    }
}

/// Begins a file and writes so many characters.
fn write(rt: &impl Abort, calls: &mut MemoryCalls, length: u32) -> u16 {
    let mut last = ended(call(rt, calls, FRESH, &[], &mut []));
    for _ in 0..length {
        if last == 0 {
            last = ended(call(rt, calls, WRITE, &[97], &mut []));
        }
    }
    last
}

/// Whether a slot has a file of this title.
fn is_titled(calls: &MemoryCalls, slot: u32, title: &[u8]) -> bool {
    match calls.slot(slot as usize) {
        Some(file) => file.title() == title,
        None => false,
    }
}

/// Whether a slot has a text.
fn is_text(calls: &MemoryCalls, slot: u32) -> bool {
    match calls.slot(slot as usize) {
        Some(file) => file.kind() == FileKind::Text,
        None => false,
    }
}

/// Whether the file `p` has these bytes.
fn are_kept(calls: &MemoryCalls, bytes: &[u8]) -> bool {
    match calls.file(b"p") {
        Some(file) => file.bytes() == bytes,
        None => false,
    }
}

/// Whether what is asked of a system, and is no call, is so.
fn is_so(calls: &MemoryCalls, number: u8, slot: u32, text: &[u8]) -> bool {
    if number == SHOWN {
        return calls.shown() == text;
    }
    if number == PRINTED {
        return calls.printed() == text;
    }
    if number == KEPT {
        return are_kept(calls, text);
    }
    if number == TITLED {
        return is_titled(calls, slot, text);
    }
    is_text(calls, slot)
}

/// What is asked of a system, and is no call.
fn told(calls: &MemoryCalls, number: u8, slot: u32, text: &[u8]) -> u16 {
    if number == FREE {
        return (calls.free_blocks() % 65_536) as u16;
    }
    if number == FAULTS {
        return (calls.faults(Outside::Terminal) % 65_536) as u16;
    }
    if number < SHOWN || number > IS_TEXT {
        return 1_003;
    }
    u16::from(is_so(calls, number, slot, text))
}

/// What a call of a system which works answers.
fn made(rt: &impl Abort, calls: &mut MemoryCalls, number: u8, character: u32, text: &str) -> u16 {
    if number == FILE {
        return write(rt, calls, character);
    }
    if number < 1 || number > 10 {
        return told(calls, number, character, text.as_bytes());
    }
    match words_of(number) {
        (0, 1) => answer(rt, calls, number, &[]),
        (12, 1) => answer(rt, calls, number, &title(text)),
        (0, 0) => ended(call(rt, calls, number, &[], &mut [])),
        (1, 0) => {
            let args = [(character % 65_536) as u16];
            ended(call(rt, calls, number, &args, &mut []))
        }
        _ => 1_003,
    }
}

/// Adds a file, and says whether there was room for it; none where memory is wanting.
pub(crate) fn add(
    alloc: Global,
    calls: &mut MemoryCalls,
    file: (&str, FileKind, bool),
    bytes: &[u8],
) -> Option<bool> {
    let (title, kind, protected) = file;
    calls
        .add(alloc, title.as_bytes(), kind, protected, bytes)
        .ok()
}

/// Makes a call.
pub(crate) fn take(rt: &impl Abort, calls: &mut MemoryCalls, step: &Step) {
    let (number, character, text, word) = step;
    let found = made(rt, calls, *number, *character, text);
    assert!(rt; found == *word, "call {number} {text}");
}

/// Makes the calls of a table.
pub(crate) fn walk(rt: &impl Abort, calls: &mut MemoryCalls, steps: &[Step]) {
    for step in steps {
        take(rt, calls, step);
    }
}
