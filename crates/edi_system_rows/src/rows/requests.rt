//! Calls of the shell as values, so that an example is a table.

ghost use Rattle.std.specs.Prelude.{◌≡◌, ◌≤◌, IsSome, false, length};
ghost use Rattle.edi_calls.specs.State.{most_bytes};
ghost use Rattle.edi_system.specs.State.{IsReady};
ghost use Rattle.edi_system.specs.Catalogue.{is_drive_fault};

use edi_calls::FileKind;
use edi_catalog::{CatEnd, Entry, Title};
use edi_host::{Drive, Next, Sink, Source};
use edi_system::System;

/// A call of the shell.
#[derive(Clone, Copy, Drop)]
pub(crate) enum Request {
    Take,
    Show(&'static str),
    PrintOut(&'static str),
    FreshLine,
    Due,
    Find(&'static str),
    Slot(usize),
    Free,
    /// The first byte of a page.
    Page(&'static str, u32),
    /// The number of the bytes of a file.
    Whole(&'static str),
    Store(&'static str, &'static str),
    Delete(&'static str),
    Rename(&'static str, &'static str),
    Protect(&'static str),
    Release(&'static str),
}

/// What a call tells.
#[derive(Clone, Copy, PartialEq, Drop)]
pub(crate) enum Reply {
    Yes,
    No,
    Number(u32),
    /// A file of this kind and length, and whether it is protected.
    File(FileKind, u32, bool),
    Refused(CatEnd),
}

fn is_fault<X>(answer: &Result<X, CatEnd>) -> bool
    ensures { result ≡ is_drive_fault answer.now }
{
    match answer {
        Err(CatEnd::Fault) => true,
        Err(CatEnd::NoSuch) => false,
        Err(CatEnd::Taken) => false,
        Err(CatEnd::Protected) => false,
        Err(CatEnd::TooLarge(_)) => false,
        Err(CatEnd::CatalogFull) => false,
        Err(CatEnd::Full { .. }) => false,
        Ok(_) => false,
    }
}

// What a call of the catalogue tells, unless it has failed.
fn reply_of(answer: Result<(), CatEnd>) -> Option<Reply>
    ensures { IsSome result → is_drive_fault answer ≡ false }
{
    if is_fault(&answer) {
        return None;
    }
    match answer {
        Ok(()) => Some(Reply::Yes),
        Err(end) => Some(Reply::Refused(end)),
    }
}

fn file_of(entry: Option<Entry>) -> Reply {
    match entry {
        Some(entry) => Reply::File(entry.kind, entry.length, entry.protected),
        None => Reply::No,
    }
}

fn truth_of(value: bool) -> Reply {
    if value { Reply::Yes } else { Reply::No }
}

fn title(text: &str) -> Option<Title> {
    Title::new(text.as_bytes())
}

// The first byte of a page, if it is there.
fn first_byte<D: Drive, S: Source, T: Sink, P: Sink>(
    system: &mut System<'_, '_, '_, '_, '_, '_, D, S, T, P>,
    title: &Title,
    i: u32,
) -> Option<Reply>
    requires { IsReady D.contents D.count system.old }
    ensures { IsSome result → IsReady D.contents D.count system.new }
{
    let Some(entry) = system.find(title) else {
        return Some(Reply::No);
    };
    if i >= 510 || i * 512 >= entry.length {
        return Some(Reply::No);
    }
    let mut page = [0; 512];
    match system.read_page(title, i, &mut page) {
        Ok(()) => Some(Reply::Number(u32::from(page[0]))),
        Err(_) => None,
    }
}

// The number of the bytes of a file, unless the call has failed.
fn whole(answer: Result<u32, CatEnd>) -> Option<Reply>
    ensures { IsSome result → is_drive_fault answer ≡ false }
{
    if is_fault(&answer) {
        return None;
    }
    match answer {
        Ok(n) => Some(Reply::Number(n)),
        Err(end) => Some(Reply::Refused(end)),
    }
}

// Stores a few bytes as a text.
fn store<D: Drive, S: Source, T: Sink, P: Sink>(
    system: &mut System<'_, '_, '_, '_, '_, '_, D, S, T, P>,
    title: &Title,
    bytes: &[u8],
) -> Option<Reply>
    requires { IsReady D.contents D.count system.old }
    ensures { IsSome result → IsReady D.contents D.count system.new }
{
    if bytes.len() > 100 {
        return Some(Reply::No);
    }
    reply_of(system.store(title, FileKind::Text, bytes))
}

// Makes a call on the objects; `None` where one has failed.
fn stream<D: Drive, S: Source, T: Sink, P: Sink>(
    system: &mut System<'_, '_, '_, '_, '_, '_, D, S, T, P>,
    request: Request,
) -> Option<Reply>
    requires { IsReady D.contents D.count system.old }
    ensures { IsSome result → IsReady D.contents D.count system.new }
{
    match request {
        Request::Take => match system.take() {
            Next::Byte(byte) => Some(Reply::Number(u32::from(byte))),
            Next::End => Some(Reply::No),
            Next::Failed => None,
        },
        Request::Show(text) => {
            if system.show(text.as_bytes()) {
                Some(Reply::Yes)
            } else {
                None
            }
        }
        Request::PrintOut(text) => {
            if system.print_out(text.as_bytes()) {
                Some(Reply::Yes)
            } else {
                None
            }
        }
        Request::FreshLine => {
            if system.fresh_line() {
                Some(Reply::Yes)
            } else {
                None
            }
        }
        Request::Due => Some(truth_of(system.due())),
        Request::Slot(i) => Some(file_of(system.slot(i))),
        Request::Free => Some(Reply::Number(system.free())),
        _ => Some(Reply::No),
    }
}

// Makes a call; `None` where an object has failed. `room` has room for the longest file.
fn make<D: Drive, S: Source, T: Sink, P: Sink>(
    system: &mut System<'_, '_, '_, '_, '_, '_, D, S, T, P>,
    request: Request,
    room: &mut [u8],
) -> Option<Reply>
    requires ready { IsReady D.contents D.count system.old }
    requires room { most_bytes ≤ length room.old }
    ensures ready { IsSome result → IsReady D.contents D.count system.new }
    ensures room { length room.new ≡ length room.old }
{
    match request {
        Request::Find(text) => Some(file_of(system.find(&title(text)?))),
        Request::Page(text, i) => first_byte(system, &title(text)?, i),
        Request::Whole(text) => whole(system.read_into(&title(text)?, room)),
        Request::Store(text, bytes) => store(system, &title(text)?, bytes.as_bytes()),
        Request::Delete(text) => reply_of(system.delete(&title(text)?)),
        Request::Rename(old, new) => reply_of(system.rename(&title(old)?, &title(new)?)),
        Request::Protect(text) => reply_of(system.protect(&title(text)?)),
        Request::Release(text) => reply_of(system.release(&title(text)?)),
        other => stream(system, other),
    }
}

/// How many of the calls tell what the table says, from the first on. No call is made after one that does not.
pub(crate) fn answered<D: Drive, S: Source, T: Sink, P: Sink>(
    system: &mut System<'_, '_, '_, '_, '_, '_, D, S, T, P>,
    table: &[(Request, Reply)],
    room: &mut [u8],
) -> usize
    requires ready { IsReady D.contents D.count system.old }
    requires room { most_bytes ≤ length room.old }
{
    for (i, (request, expected)) in table.iter().enumerate() {
        if make(system, *request, room) != Some(*expected) {
            return i;
        }
    }
    table.len()
}
