//! Calls of a program as values, so that an example is a table.

ghost use Rattle.std.specs.Prelude.{◌≡◌, ◌≤◌, None, IsSome, length};
ghost use Rattle.edi_calls.specs.Calls.{argument_words, answer_words};
ghost use Rattle.edi_system.specs.AsCalls.{HasFailed};

use edi_calls::{CallEnd, Calls};
use edi_host::{Drive, Sink, Source};
use edi_system::System;

/// A call of a program.
#[derive(Clone, Copy, Drop)]
pub(crate) enum Call {
    Accept,
    Display(u16),
    Print(u16),
    Find(&'static str),
    More,
    Read,
    /// Reads so many characters; the answer is the last one.
    ReadOn(u16),
    Fresh,
    Write(u16),
    Close(&'static str),
    Remove(&'static str),
}

/// How a call was answered.
#[derive(Clone, Copy, PartialEq, Drop)]
pub(crate) enum Answer {
    /// Without an answer word.
    Done,
    /// By this word.
    Word(u16),
    NoFile,
    FileLimit,
}

// A title as a program passes it, filled with blanks.
fn name(title: &str) -> [u16; 12] {
    let mut words = [32; 12];
    for (word, byte) in words.iter_mut().zip(title.as_bytes()) {
        *word = u16::from(*byte);
    }
    words
}

// Makes a call with as many answer words as there is room for, at most one; `None` where an object has failed.
fn ask<C: Calls>(calls: &mut C, number: u8, args: &[u16], answer: &mut [u16]) -> Option<Answer>
    requires from { 1 ≤ number }
    requires to { number ≤ 10 }
    requires arguments { length args.now ≡ argument_words number }
    requires answer { length answer.old ≡ answer_words number }
    requires working { C.failed calls.old None }
    ensures working { IsSome result → C.failed calls.new None }
{
    match calls.call(number, args, answer) {
        CallEnd::Ok => match answer.first() {
            Some(word) => Some(Answer::Word(*word)),
            None => Some(Answer::Done),
        },
        CallEnd::NoFile => Some(Answer::NoFile),
        CallEnd::FileLimit => Some(Answer::FileLimit),
        CallEnd::OutsideFault => None,
    }
}

// Reads so many characters, and tells the last; `None` where an object has failed.
fn read_on<C: Calls>(calls: &mut C, many: u16) -> Option<Answer>
    requires working { C.failed calls.old None }
    ensures working { IsSome result → C.failed calls.new None }
{
    let mut last = Answer::Done;
    for _ in 0..many {
        match ask(calls, 6, &[], &mut [999]) {
            Some(answer) => last = answer,
            None => return None,
        }
    }
    Some(last)
}

// Makes a call; `None` where an object has failed.
fn make<D: Drive, S: Source, T: Sink, P: Sink>(
    calls: &mut System<'_, '_, '_, '_, '_, '_, D, S, T, P>,
    call: Call,
) -> Option<Answer>
    requires working { HasFailed D.contents D.count S.left calls.old None }
    ensures working { IsSome result → HasFailed D.contents D.count S.left calls.new None }
{
    match call {
        Call::Accept => ask(calls, 1, &[], &mut [999]),
        Call::Display(c) => ask(calls, 2, &[c], &mut []),
        Call::Print(c) => ask(calls, 3, &[c], &mut []),
        Call::Find(title) => ask(calls, 4, &name(title), &mut [999]),
        Call::More => ask(calls, 5, &[], &mut [999]),
        Call::Read => ask(calls, 6, &[], &mut [999]),
        Call::ReadOn(many) => read_on(calls, many),
        Call::Fresh => ask(calls, 7, &[], &mut []),
        Call::Write(c) => ask(calls, 8, &[c], &mut []),
        Call::Close(title) => ask(calls, 9, &name(title), &mut [999]),
        Call::Remove(title) => ask(calls, 10, &name(title), &mut [999]),
    }
}

/// How many of the calls are answered as the table says, from the first on. No call is made after one that is not.
pub(crate) fn answered<D: Drive, S: Source, T: Sink, P: Sink>(
    calls: &mut System<'_, '_, '_, '_, '_, '_, D, S, T, P>,
    table: &[(Call, Answer)],
) -> usize
    requires working { HasFailed D.contents D.count S.left calls.old None }
{
    for (i, (call, answer)) in table.iter().enumerate() {
        if make(calls, *call) != Some(*answer) {
            return i;
        }
    }
    table.len()
}
