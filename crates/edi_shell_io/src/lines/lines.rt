//! Lines of refusals and of endings.

ghost use Rattle.std.specs.Prelude.{◌≡◌, ◌≤◌, ◌+◌, ◌++◌, ◌∷◌, [], length, option_map, true, decimal};
ghost use Rattle.arrayvec.specs.ArrayVec.{array_vec_len};
ghost use Rattle.edi_texts.specs.Kinds.{kind_text};
ghost use Rattle.edi_session.specs.Files.{why_line};
ghost use Rattle.edi_session.specs.Texts as texts;
ghost use Rattle.edi_shell_io.specs.lines.Endings.{line_for};

use arrayvec::ArrayVec;
use edi_catalog::CatEnd;
use edi_image::Title;
use edi_kernel::Ending;
use edi_texts::{RefusalKind, cause_text};
use itoa::Buffer;

/// Room for the longest line.
pub type Shown = ArrayVec<u8, 64>;

/// Bytes more.
pub(crate) fn push(line: &mut Shown, bytes: &[u8])
    requires room { length line.old.items + length bytes.now ≤ 64 }
    ensures items { line.new.items ≡ line.old.items ++ bytes.now }
    ensures longer { length line.new.items ≡ length line.old.items + length bytes.now }
{
    line.try_extend_from_slice(bytes).unwrap();
}

/// The digits of a number more.
pub(crate) fn push_number(line: &mut Shown, n: u32)
    requires room { length line.old.items ≤ 54 }
    ensures items { line.new.items ≡ line.old.items ++ decimal n }
    ensures longer { length line.new.items ≤ length line.old.items + 10 }
{
    let mut buffer = Buffer::new();
    let digits = buffer.format(n);
    push(line, digits.as_bytes());
}

/// The characters of a title more.
pub(crate) fn push_title(line: &mut Shown, title: &Title)
    requires room { length line.old.items ≤ 40 }
    ensures items { line.new.items ≡ line.old.items ++ title.now }
    ensures longer { length line.new.items ≤ length line.old.items + 24 }
{
    push(line, title.bytes());
}

// A text and the bytes behind it: a line, or the beginning of one.
fn joined(text: &str, behind: &[u8]) -> Shown
    requires { length text.now + length behind.now ≤ 64 }
    ensures exact { result.items ≡ text.now ++ behind.now }
    ensures longer { length result.items ≡ length text.now + length behind.now }
{
    let mut line = Shown::new();
    push(&mut line, text.as_bytes());
    push(&mut line, behind);
    line
}

/// A text as a line.
pub fn plain(text: &str) -> Shown
    requires { length text.now ≤ 32 }
    ensures exact { result.items ≡ text.now ++ 10 ∷ [] }
{
    joined(text, b"\n")
}

/// `TEXT N`
pub fn with_number(text: &str, n: u32) -> Shown
    requires { length text.now ≤ 16 }
    ensures exact { result.items ≡ texts.with_number text.now n ++ 10 ∷ [] }
{
    let mut line = joined(text, b" ");
    push_number(&mut line, n);
    push(&mut line, b"\n");
    line
}

// `disk full W F`
fn disk_full(wanted: u32, free: u32) -> Shown
    ensures exact { result.items ≡ texts.disk_full wanted free ++ 10 ∷ [] }
{
    let mut line = Shown::new();
    push(&mut line, b"disk full ");
    push_number(&mut line, wanted);
    push(&mut line, b" ");
    push_number(&mut line, free);
    push(&mut line, b"\n");
    line
}

// `line N TEXT`
fn on_line(n: u16, text: &str) -> Shown
    requires { length text.now ≤ 32 }
    ensures exact { result.items ≡ texts.on_line n text.now ++ 10 ∷ [] }
{
    let mut line = Shown::new();
    push(&mut line, b"line ");
    push_number(&mut line, u32::from(n));
    push(&mut line, b" ");
    push(&mut line, text.as_bytes());
    push(&mut line, b"\n");
    line
}

/// `TEXT TITLE`
pub fn about(text: &str, title: &Title) -> Shown
    requires { length text.now ≤ 16 }
    ensures exact { result.items ≡ texts.about text.now title.now ++ 10 ∷ [] }
{
    let mut line = joined(text, b" ");
    push_title(&mut line, title);
    push(&mut line, b"\n");
    line
}

/// Why a change of the file `f` is refused; `g` is the new title where it is renamed. A fault of the drive has no line.
pub fn change_refusal(f: &Title, g: &Title, why: CatEnd) -> Shown
    ensures exact { result.items ≡ why_line f.now g.now why ++ 10 ∷ [] }
{
    match why {
        CatEnd::NoSuch => about("no file", f),
        CatEnd::Taken => about("title taken", g),
        CatEnd::Protected => about("protected", f),
        CatEnd::TooLarge(bytes) => with_number("file too large", bytes),
        CatEnd::CatalogFull => plain("catalogue full"),
        CatEnd::Full { wanted, free } => disk_full(wanted, free),
        CatEnd::Fault => plain(""),
    }
}

/// The first fault of a text.
pub fn fault_line(kind: RefusalKind, line: u16) -> Shown
    ensures exact { result.items ≡ texts.on_line line (kind_text kind) ++ 10 ∷ [] }
{
    on_line(line, kind.text())
}

/// The line of the ending of the program of a title, if it has one; an execution that an object has broken off has none.
pub fn ending_line(title: &Title, ending: Ending) -> Option<Shown>
    ensures exact { option_map (λ line. line.items) result ≡ line_for title.now ending }
{
    match ending {
        Ending::Done | Ending::Fault => None,
        Ending::Halted(line) => Some(on_line(line, "halt")),
        Ending::Failed(cause, line) => Some(on_line(line, cause_text(cause))),
        Ending::Turns => Some(plain("turn limit")),
        Ending::Standstill => Some(plain("standstill")),
        Ending::Bad(_) => Some(about("bad code", title)),
    }
}
