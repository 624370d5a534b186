//! Lines of the list of the files.

ghost use Rattle.std.specs.Prelude.{◌≡◌, ◌≤◌, ◌+◌, ◌-◌, ◌++◌, ◌∷◌, [], length, replicate, decimal, codes};
ghost use Rattle.edi_session.specs.Texts as texts;

use crate::lines::lines::{Shown, push, push_number, push_title};
use edi_calls::FileKind;
use edi_catalog::Entry;
use itoa::Buffer;

// So many blanks more.
fn push_blanks(line: &mut Shown, n: usize)
    requires few { n ≤ 24 }
    requires room { length line.old.items ≤ 40 }
    ensures items { line.new.items ≡ line.old.items ++ replicate n 32 }
    ensures longer { length line.new.items ≡ length line.old.items + n }
{
    let blanks = [b' '; 24];
    let (some, _) = blanks.split_at(n);
    push(line, some);
}

// A number, right in 6 places.
fn push_right(line: &mut Shown, n: u32)
    requires room { length line.old.items ≤ 40 }
    ensures items { line.new.items ≡ line.old.items ++ texts.right_in 6 (decimal n) }
    ensures longer { length line.new.items ≤ length line.old.items + 16 }
{
    let mut buffer = Buffer::new();
    let digits = buffer.format(n).as_bytes();
    push_blanks(line, 6_usize.saturating_sub(digits.len()));
    push(line, digits);
}

fn kind_text(kind: FileKind) -> &'static str
    ensures exact { result.now ≡ texts.file_kind_text kind }
    ensures short { length result.now ≤ 4 }
{
    match kind {
        FileKind::Text => "text",
        FileKind::Code => "code",
    }
}

fn protected_text(protected: bool) -> &'static str
    ensures exact { result.now ≡ texts.protected_text protected }
    ensures short { length result.now ≤ 10 }
{
    if protected { " protected" } else { "" }
}

/// The line of a file in the list of the files.
pub fn entry_line(entry: &Entry) -> Shown
    ensures exact { result.items ≡ texts.entry_line entry.now.title entry.now.kind entry.now.length entry.now.protected ++ codes "\n" }
{
    let mut line = Shown::new();
    push_title(&mut line, &entry.title);
    let title = line.len();
    push_blanks(&mut line, 24_usize.saturating_sub(title));
    push(&mut line, b" ");
    push(&mut line, kind_text(entry.kind).as_bytes());
    push(&mut line, b" ");
    push_right(&mut line, entry.length);
    push(&mut line, protected_text(entry.protected).as_bytes());
    push(&mut line, b"\n");
    line
}

/// The last line of the list: the number of free blocks.
pub fn free_line(n: u32) -> Shown
    ensures exact { result.items ≡ decimal n ++ codes " blocks free\n" }
{
    let mut line = Shown::new();
    push_number(&mut line, n);
    push(&mut line, b" blocks free\n");
    line
}
