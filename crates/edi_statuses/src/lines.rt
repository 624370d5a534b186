//! The lines of statuses, made without memory.

ghost use Rattle.std.specs.Prelude.{◌≡◌, ◌≤◌, [], length, option_map, IfSome};
ghost use Rattle.edi_texts.specs.Kinds.{kind_text};
ghost use Rattle.edi_statuses.specs.Lines as lines;

use crate::status::Status;
use arrayvec::ArrayString;
use edi_image::MountFault;
use edi_target::CodeFault;
use edi_texts::{RefusalKind, cause_text};
use itoa::Buffer;

/// Room for the longest line of a status, with a line feed before it and one behind it.
pub type Line = ArrayString<64>;

fn plain(text: &str) -> Line
    requires { length text.now ≤ 32 }
    ensures exact { result.bytes ≡ text.now }
    ensures short { length result.bytes ≤ 32 }
{
    let mut line = Line::new();
    line.push_str(text);
    line
}

fn with_number(text: &str, n: u32) -> Line
    requires { length text.now ≤ 32 }
    ensures exact { result.bytes ≡ lines.with_number text.now n }
    ensures short { length result.bytes ≤ 43 }
{
    let mut buffer = Buffer::new();
    let digits = buffer.format(n);
    let mut line = plain(text);
    line.push_str(" ");
    line.push_str(digits);
    line
}

fn with_count(text: &str, n: usize) -> Line
    requires { length text.now ≤ 32 }
    ensures exact { result.bytes ≡ lines.with_number text.now n }
    ensures short { length result.bytes ≤ 53 }
{
    let mut buffer = Buffer::new();
    let digits = buffer.format(n);
    let mut line = plain(text);
    line.push_str(" ");
    line.push_str(digits);
    line
}

fn with_numbers(text: &str, n: u32, m: u32) -> Line
    requires { length text.now ≤ 32 }
    ensures exact { result.bytes ≡ lines.with_number (lines.with_number text.now n) m }
    ensures short { length result.bytes ≤ 54 }
{
    let mut buffer = Buffer::new();
    let digits = buffer.format(m);
    let mut line = with_number(text, n);
    line.push_str(" ");
    line.push_str(digits);
    line
}

fn on_line(n: u16, text: &str) -> Line
    requires { length text.now ≤ 32 }
    ensures exact { result.bytes ≡ lines.on_line n text.now }
    ensures short { length result.bytes ≤ 48 }
{
    let mut buffer = Buffer::new();
    let digits = buffer.format(n);
    let mut line = plain("line ");
    line.push_str(digits);
    line.push_str(" ");
    line.push_str(text);
    line
}

fn refusal_line(kind: RefusalKind, line: u16) -> Line
    ensures exact { result.bytes ≡ lines.on_line line (kind_text kind) }
    ensures short { length result.bytes ≤ 48 }
{
    on_line(line, kind.text())
}

fn image_line(broken: MountFault) -> Line
    ensures exact { result.bytes ≡ lines.image_text broken }
    ensures short { length result.bytes ≤ 54 }
{
    match broken {
        MountFault::Short => plain("bad image short"),
        MountFault::Header => plain("bad image header"),
        MountFault::Entry(slot) => with_number("bad image entry", u32::from(slot)),
        MountFault::Page(slot, block) => with_numbers(
            "bad image page",
            u32::from(slot),
            u32::from(block),
        ),
        MountFault::Shared(block) => with_number("bad image shared", u32::from(block)),
        MountFault::Fault => plain("drive fault"),
        MountFault::NoMemory => plain("no memory"),
    }
}

fn code_line(broken: CodeFault) -> Line
    ensures exact { result.bytes ≡ lines.code_text broken }
    ensures short { length result.bytes ≤ 43 }
{
    match broken {
        CodeFault::Short { at } => with_number("bad code short", at),
        CodeFault::Over { at } => with_number("bad code over", at),
        CodeFault::Header { at, .. } => with_number("bad code header", at),
        CodeFault::Operation { at, .. } => with_number("bad code operation", at),
        CodeFault::Jump { at, .. } => with_number("bad code jump", at),
        CodeFault::NoMemory => plain("no memory"),
    }
}

/// The text of the status; none where it has none.
pub(crate) fn text_of(status: Status) -> Option<Line>
    ensures exact { option_map (λ line. line.bytes) result ≡ lines.text_of status }
    ensures short { IfSome result (λ line. length line.bytes ≤ 54) }
{
    match status {
        Status::Ok | Status::OutputFault => None,
        Status::Words => Some(plain("bad words")),
        Status::Refused(kind, line) => Some(refusal_line(kind, line)),
        Status::Stopped(cause, line) => Some(on_line(line, cause_text(cause))),
        Status::Turns => Some(plain("turn limit")),
        Status::NoMemory => Some(plain("no memory")),
        Status::FileFault => Some(plain("file fault")),
        Status::DriveFault => Some(plain("drive fault")),
        Status::InputFault => Some(plain("input fault")),
        Status::BadImage(broken) => Some(image_line(broken)),
        Status::BadCode(broken) => Some(code_line(broken)),
        Status::BadState(address) => Some(with_number("bad code state", address)),
        Status::Absent => Some(plain("absent")),
        Status::BadChoices(line) => Some(with_number("choices line", line)),
        Status::SessionLimit => Some(plain("session limit")),
        Status::DiskFull => Some(plain("disk full")),
        Status::FileLarge => Some(plain("file too large")),
        Status::Standstill => Some(plain("standstill")),
        Status::BadPoints(line) => Some(with_number("points line", line)),
        Status::Found(others) => Some(with_count("found", others)),
        Status::NotAll => Some(plain("not all")),
        Status::InputLimit => Some(plain("input limit")),
        Status::NoEnding => Some(plain("no ending")),
    }
}

fn feed(due: bool) -> &'static str
    ensures exact { result.now ≡ lines.feed due }
    ensures short { length result.now ≤ 1 }
{
    if due { "\n" } else { "" }
}

/// What is shown for the status: its line, behind a line feed where one is due; nothing where it has no line.
pub(crate) fn closing_line(status: Status, due: bool) -> Line
    ensures exact { result.bytes ≡ lines.closing_line due status }
{
    let Some(text) = text_of(status) else {
        return Line::new();
    };
    let mut line = Line::new();
    line.push_str(feed(due));
    line.push_str(text.as_str());
    line.push_str("\n");
    line
}
