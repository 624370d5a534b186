//! A text that is entered.

ghost use Rattle.std.specs.Prelude.{◌≡◌, ◌≤◌, ◌<◌, ◌+◌, ◌-◌, ◌^◌, ◌++◌, ◌∷◌, [], ℕ, List, length, take};
ghost use Rattle.edi_calls.specs.Calls.{is_protected};
ghost use Rattle.edi_calls.specs.State.{most_bytes};
ghost use Rattle.edi_calls.specs.declared.kinds.FileKind.TheVariants.{Text};
ghost use Rattle.edi_session.specs.Files.{file_in, stores};
ghost use Rattle.edi_session.specs.Shell.{Shell, line_with, next_text, text_with};
ghost use Rattle.edi_shell_io.specs.calls.Standing.{At, IsLeft, Leads};
ghost use Rattle.edi_shell.specs.commands.Rows.{LineDoesOrEnds, EntersFile};
ghost use Rattle.edi_shell.specs.commands.Taking.{GivesText, IsLeftSo, IsSoFar};

use crate::commands::files::store_file;
use crate::commands::saying::answer;
use crate::commands::taking::{LIMIT, next_byte};
use edi_calls::FileKind;
use edi_catalog::CatEnd;
use edi_image::Title;
use edi_session::SessionEnd;
use edi_shell_io::calls::{OrEnd, ShellCalls};

const LINE_FEED: u8 = 10;

/// The greatest number of bytes of a file.
const MOST_BYTES: u32 = 261_120;

/// A text that is underway: how many bytes of it have been taken, how many of these are whole lines with their line feeds, and
/// whether the line behind them is `.` so far.
#[derive(Clone, Copy)]
struct Progress {
    length: u32,
    whole: u32,
    dot: bool,
}

// The text with one byte more.
fn with_byte(progress: Progress, byte: u8) -> Progress
    requires few { progress.length < 2 ^ 32 - 1 }
    ensures exact { (text line : List ℕ) → IsSoFar progress.length progress.whole progress.dot text line →
        IsSoFar result.length result.whole result.dot (text_with byte text line) (line_with byte line) }
    ensures one { result.length ≡ progress.length + 1 }
{
    let length = progress.length + 1;
    if byte == LINE_FEED {
        return Progress {
            length,
            whole: length,
            dot: false,
        };
    }
    Progress {
        length,
        whole: progress.whole,
        dot: progress.length == progress.whole && byte == b'.',
    }
}

// Keeps a byte behind `at` others, where there is room for it.
fn keep_byte(room: &mut [u8], at: u32, byte: u8)
    ensures same { length room.new ≡ length room.old }
    ensures kept { (bytes : List ℕ) → length bytes ≡ at → take at room.old ≡ take (length room.old) bytes →
        take (at + 1) room.new ≡ take (length room.old) (bytes ++ byte ∷ []) }
{
    let at = at as usize;
    if at < room.len() {
        room[at] = byte;
    }
}

// Takes lines up to a line `.`, and gives how many bytes they have with their line feeds. The first of them stand in `room`, as
// many as it has room for.
fn take_text<C: ShellCalls>(calls: &mut C, taken: &mut u32, room: &mut [u8]) -> OrEnd<u32>
    requires ready { C.ready calls.old }
    requires limit { taken.old ≤ LIMIT }
    ensures exact { (s : Shell) → s.taken ≡ taken.old → At C.at calls.old s → C.tells calls.new →
        GivesText C.at C.stands result (next_text s) room.new taken.new calls.new }
    ensures same { length room.new ≡ length room.old }
    ensures left { IsLeftSo C.ready C.failed result calls.new }
    ensures limit { taken.new ≤ LIMIT }
    ensures later { taken.old ≤ taken.new }
    ensures lasts { C.lasts calls.old calls.new }
{
    let mut progress = Progress {
        length: 0,
        whole: 0,
        dot: false,
    };
    'bytes: loop {
        let Some(byte) = next_byte(calls, taken)? else {
            if progress.dot {
                return Ok(progress.whole);
            }
            return Err(SessionEnd::InputEnd);
        };
        if progress.dot && byte == LINE_FEED {
            return Ok(progress.whole);
        }
        keep_byte(room, progress.length, byte);
        progress = with_byte(progress, byte);
    }
}

// Whether there is such a file, and it is protected.
fn is_protected<C: ShellCalls>(calls: &C, f: &Title) -> bool
    requires ready { C.ready calls.now }
    ensures exact { (s : Shell) → At C.at calls.now s → C.tells calls.now → result ≡ is_protected (file_in s f.now) }
{
    match calls.find(f) {
        Some(entry) => entry.protected,
        None => false,
    }
}

// Shows why a text of so many bytes, which are too many for a file, is not stored as `f`.
fn refuse_large<C: ShellCalls>(calls: &mut C, f: &Title, bytes: u32) -> OrEnd<()>
    requires ready { C.ready calls.old }
    requires large { most_bytes < bytes }
    ensures exact { (s : Shell) (text : List ℕ) → length text ≡ bytes → At C.at calls.old s → C.tells calls.new →
        Leads C.at C.stands result (stores f.now Text text s) calls.new }
    ensures left { IsLeft C.ready C.failed result calls.new }
    ensures lasts { C.lasts calls.old calls.new }
{
    if is_protected(calls, f) {
        return answer(calls, f, f, Err(CatEnd::Protected));
    }
    answer(calls, f, f, Err(CatEnd::TooLarge(bytes)))
}

/// `enter f`. What stands in `room` afterwards, which has room for 261,120 bytes, is open. `taken` counts the bytes that the
/// shell has taken.
pub fn enter_file<C: ShellCalls>(
    calls: &mut C,
    taken: &mut u32,
    f: &Title,
    room: &mut [u8],
) -> OrEnd<()>
    requires ready { C.ready calls.old }
    requires limit { taken.old ≤ LIMIT }
    requires room { most_bytes ≤ length room.old }
    ensures exact { (s : Shell) → s.taken ≡ taken.old → At C.at calls.old s → C.tells calls.new →
        LineDoesOrEnds C.at C.stands (EntersFile f.now) result taken.new s.drawn s calls.new }
    ensures left { IsLeftSo C.ready C.failed result calls.new }
    ensures limit { taken.new ≤ LIMIT }
    ensures later { taken.old ≤ taken.new }
    ensures lasts { C.lasts calls.old calls.new }
{
    let length = take_text(calls, taken, room)?;
    if length > MOST_BYTES {
        return refuse_large(calls, f, length);
    }
    let (bytes, _) = room.split_at(length as usize);
    store_file(calls, f, FileKind::Text, bytes)
}
