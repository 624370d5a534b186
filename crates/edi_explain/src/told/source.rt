//! A line of a text as it is shown, and the caret below it.

ghost use Rattle.std.specs.Prelude.{◌≡◌, ◌≤◌, ◌-◌, ◌++◌, OnOk, drop, length, map, take};
ghost use Rattle.edi_explain.specs.told.Source as spec;

use itoa::Buffer;
use std::alloc::AllocError;

// As many columns of a line as are shown.
const MOST_COLUMNS: usize = 200;

// ---- parts of bytes

/// The first so many bytes, or all.
#[tactic(auto, using(crate::proofs::told::Cutting::front_all))]
pub(crate) fn front_of(bytes: &[u8], count: usize) -> &[u8]
    ensures exact { result.now ≡ take count bytes.now }
{
    if count < bytes.len() {
        let (front, _) = bytes.split_at(count);
        return front;
    }
    bytes
}

/// The bytes after so many, or none.
#[tactic(auto, using(crate::proofs::told::Cutting::back_none))]
pub(crate) fn back_of(bytes: &[u8], count: usize) -> &[u8]
    ensures exact { result.now ≡ drop count bytes.now }
    ensures left { length result.now ≡ length bytes.now - count }
{
    if count < bytes.len() {
        let (_, back) = bytes.split_at(count);
        return back;
    }
    &[]
}

// Where the line of this number begins, in bytes from the front.
fn line_start(text: &[u8], line: u16) -> usize
    ensures exact { result ≡ spec.line_start text.now line }
{
    let mut feeds = line.saturating_sub(1);
    let mut at: usize = 0;
    for b in text {
        if feeds == 0 {
            return at;
        }
        if *b == b'\n' {
            feeds -= 1;
        }
        at += 1;
    }
    at
}

// How many bytes stand before the first line feed.
fn feed_after(bytes: &[u8]) -> usize
    ensures exact { result ≡ spec.before_feed bytes.now }
    ensures most { result ≤ length bytes.now }
{
    let mut count: usize = 0;
    while count < bytes.len() && bytes[count] != b'\n' {
        count += 1;
    }
    count
}

/// The bytes of the line of this number.
pub(crate) fn line_bytes(text: &[u8], line: u16) -> &[u8]
    ensures exact { result.now ≡ spec.line_bytes text.now line }
{
    let rest = back_of(text, line_start(text, line));
    front_of(rest, feed_after(rest))
}

// ---- bytes as they are shown

fn shown_byte(b: u8) -> u8
    ensures exact { result ≡ spec.shown_byte b }
{
    if 32 <= b && b <= 126 {
        return b;
    }
    match b {
        9 => 9,
        13 => 32,
        _ => 46,
    }
}

fn under_byte(b: u8) -> u8
    ensures exact { result ≡ spec.under_byte b }
{
    if b == 9 { 9 } else { 32 }
}

// Puts bytes behind others, as they are shown.
fn put_shown(out: &mut Vec<u8>, bytes: &[u8]) -> Result<(), AllocError>
    ensures { OnOk result (out.new.items ≡ out.old.items ++ map spec.shown_byte bytes.now) }
{
    for b in bytes {
        out.push(shown_byte(*b))?;
    }
    Ok(())
}

// Puts behind bytes what stands below others, before a caret.
fn put_under(out: &mut Vec<u8>, bytes: &[u8]) -> Result<(), AllocError>
    ensures { OnOk result (out.new.items ≡ out.old.items ++ map spec.under_byte bytes.now) }
{
    for b in bytes {
        out.push(under_byte(*b))?;
    }
    Ok(())
}

// ---- lines

// The sign that a line has bytes before this one, which are not shown.
fn sign_before(from: usize) -> &'static [u8]
    ensures exact { result.now ≡ spec.sign_before from }
{
    if 0 < from { b".. " } else { b"" }
}

// The sign that of so many bytes not all are shown.
fn sign_after(left: usize) -> &'static [u8]
    ensures exact { result.now ≡ spec.sign_after left }
{
    if MOST_COLUMNS < left { b" .." } else { b"" }
}

// Puts the bytes of a line behind others, from one of them on.
fn put_line(out: &mut Vec<u8>, line: u16, bytes: &[u8], from: usize) -> Result<(), AllocError>
    ensures { OnOk result (out.new.items ≡ out.old.items ++ spec.shown_line line bytes.now from) }
{
    let mut buffer = Buffer::new();
    out.extend_from_slice(buffer.format(line).as_bytes())?;
    let rest = back_of(bytes, from);
    out.extend_from_slice(b": ")?;
    out.extend_from_slice(sign_before(from))?;
    put_shown(out, front_of(rest, MOST_COLUMNS))?;
    out.extend_from_slice(sign_after(rest.len()))?;
    out.push(b'\n')?;
    Ok(())
}

// Puts the line of the caret behind bytes.
fn put_caret(
    out: &mut Vec<u8>,
    line: u16,
    bytes: &[u8],
    from: usize,
    at: usize,
) -> Result<(), AllocError>
    ensures { OnOk result (out.new.items ≡ out.old.items ++ spec.caret_line line bytes.now from at) }
{
    let mut buffer = Buffer::new();
    put_under(out, buffer.format(line).as_bytes())?;
    out.extend_from_slice(b"  ")?;
    put_under(out, sign_before(from))?;
    put_under(out, front_of(back_of(bytes, from), at.saturating_sub(from)))?;
    out.extend_from_slice(b"^\n")?;
    Ok(())
}

// From which byte on a line is shown.
fn first_shown(size: usize, at: usize) -> usize
    ensures exact { result ≡ spec.first_shown size at }
{
    if size <= MOST_COLUMNS {
        return 0;
    }
    at.saturating_sub(100)
}

/// Puts the line of a place behind bytes, with the caret at it.
pub(crate) fn put_pointed(
    out: &mut Vec<u8>,
    text: &[u8],
    line: u16,
    place: usize,
) -> Result<(), AllocError>
    ensures { OnOk result (out.new.items ≡ out.old.items ++ spec.pointed_line text.now line place) }
{
    let bytes = line_bytes(text, line);
    let at = place.saturating_sub(line_start(text, line));
    let from = first_shown(bytes.len(), at);
    put_line(out, line, bytes, from)?;
    put_caret(out, line, bytes, from, at)
}

/// Puts a line without a caret behind bytes.
pub(crate) fn put_whole(out: &mut Vec<u8>, text: &[u8], line: u16) -> Result<(), AllocError>
    ensures { OnOk result (out.new.items ≡ out.old.items ++ spec.whole_line text.now line) }
{
    put_line(out, line, line_bytes(text, line), 0)
}

/// Puts the line of the end of the text behind bytes.
pub(crate) fn put_end(out: &mut Vec<u8>, line: u16) -> Result<(), AllocError>
    ensures { OnOk result (out.new.items ≡ out.old.items ++ spec.end_line line) }
{
    let mut buffer = Buffer::new();
    out.extend_from_slice(buffer.format(line).as_bytes())?;
    out.extend_from_slice(b": (the end of the text)\n")?;
    Ok(())
}
