//! The lines of most stints, each put with one copy: it is written from its end to its start into an array.

ghost use Rattle.std.specs.Prelude.{◌≡◌, suc, ◌+◌, ◌*◌, ◌++◌, ◌∷◌, ◌<◌, ◌≤◌, [], All, OnOk, codes, decimal, drop, length, true, false};
ghost use Rattle.edi_kernel.specs.declared.ends.Ending.{Ending};
ghost use Rattle.edi_timeline.specs.Plain.{IsPlain};
ghost use Rattle.edi_timeline.specs.Told.{IsRow};
ghost use Rattle.edi_timeline.specs.Told as told;
ghost use Rattle.edi_timeline.specs.Text as spec;

use crate::rows::{Kind, NO_ROW, Row, numbered, row_of};
use itoa::write_digits;
use std::alloc::AllocError;

/// Room for the longest of these lines.
const ROOM: usize = 208;

// Writes a text so that it ends there. The answer is where it starts, as everywhere here.
#[inline(always)]
fn write_text(text: &[u8], line: &mut [u8; ROOM], end: usize) -> usize
    requires within { (length text.now ≤ end) × (end ≤ 208) }
    ensures start { result + length text.now ≡ end }
    ensures written { drop result line.new ≡ text.now ++ drop end line.old }
{
    let at = end - text.len();
    line[at..end].copy_from_slice(text);
    at
}

// Writes a number.
#[inline]
fn write_number(number: u64, line: &mut [u8; ROOM], end: usize) -> usize
    requires small { number < 10000000000 }
    requires within { (10 ≤ end) × (end ≤ 208) }
    ensures start { (end ≤ result + 10) × (result ≤ end) }
    ensures written { drop result line.new ≡ decimal number ++ drop end line.old }
{
    write_digits(number, line, end)
}

// Writes the lines of a place.
fn write_place(lines: &[u16], line: &mut [u8; ROOM], end: usize) -> usize
    requires few { length lines.now ≤ 5 }
    requires within { (55 ≤ end) × (end ≤ 208) }
    ensures start { (end ≤ result + 55) × (result ≤ end) }
    ensures written { drop result line.new ≡ spec.place_text lines.now ++ drop end line.old }
{
    let mut at = end;
    let mut left = lines.len();
    while left > 0 {
        left -= 1;
        at = write_number(u64::from(lines[left]), line, at);
        at = write_text(b" ", line, at);
    }
    at
}

// Writes the turns of a stint.
fn write_turns(first: u64, last: u32, line: &mut [u8; ROOM], end: usize) -> usize
    requires small { first < 10000000000 }
    requires within { (28 ≤ end) × (end ≤ 208) }
    ensures start { (end ≤ result + 28) × (result ≤ end) }
    ensures written { drop result line.new ≡ spec.turns_text first last ++ drop end line.old }
{
    if first > u64::from(last) {
        return write_text(b" no turn", line, end);
    }
    let behind_first = write_number(u64::from(last), line, end);
    let first_end = write_text(b" ", line, behind_first);
    let first_start = write_number(first, line, first_end);
    write_text(b" turns ", line, first_start)
}

// Writes where the next stint of a process begins.
fn write_behind(row: &Row, line: &mut [u8; ROOM], end: usize) -> usize
    requires row { IsRow row.now }
    requires within { (55 ≤ end) × (end ≤ 208) }
    ensures start { (end ≤ result + 55) × (result ≤ end) }
    ensures written { drop result line.new ≡ spec.start_text (told.start_behind row.now row.now.kind) ++ drop end line.old }
{
    match row.kind {
        Kind::Arrives | Kind::Waits | Kind::Tries => write_place(row.place(), line, end),
        Kind::Forks | Kind::Ends | Kind::Over => write_text(b" join", line, end),
    }
}

// Writes where a stint has begun.
fn write_start(rows: &[Row], row: &Row, line: &mut [u8; ROOM], end: usize) -> usize
    requires rows { All IsRow rows.now }
    requires within { (55 ≤ end) × (end ≤ 208) }
    ensures start { (end ≤ result + 55) × (result ≤ end) }
    ensures written { drop result line.new ≡ spec.start_text (told.start_in rows.now row.now) ++ drop end line.old }
{
    if row.before == 0 {
        return write_text(b" begin", line, end);
    }
    write_behind(row_of(rows, row.before, &NO_ROW), line, end)
}

// Writes how a stint has ended that has not ended the run.
fn write_end(row: &Row, line: &mut [u8; ROOM], end: usize) -> usize
    requires row { IsRow row.now }
    requires goes_on { row.now.kind ≡ Kind.Over → ⊥ }
    requires within { (62 ≤ end) × (end ≤ 208) }
    ensures start { (end ≤ result + 62) × (result ≤ end) }
    ensures written { drop result line.new ≡ spec.end_text (told.end_as Ending.Done row.now row.now.kind) ++ drop end line.old }
{
    match row.kind {
        Kind::Arrives => {
            let at = write_place(row.place(), line, end);
            write_text(b"arrives", line, at)
        }
        Kind::Waits => write_text(b"waits", line, end),
        Kind::Tries => write_text(b"tries", line, end),
        Kind::Forks => {
            let at = write_number(u64::from(row.many), line, end);
            write_text(b"forks ", line, at)
        }
        Kind::Ends => write_text(b"ends", line, end),
        Kind::Over => unreachable!(),
    }
}

// Writes the name of the first process, or of a branch of it.
fn write_name(row: &Row, line: &mut [u8; ROOM], end: usize) -> usize
    requires within { (21 ≤ end) × (end ≤ 208) }
    ensures start { (end ≤ result + 21) × (result ≤ end) }
    ensures main { row.now.born ≡ 0 → drop result line.new ≡ codes "main" ++ drop end line.old }
    ensures branch { (row.now.born ≡ 0 → ⊥) → drop result line.new ≡ spec.branch_text row.now.fork row.now.branch ++ drop end line.old }
{
    if row.born == 0 {
        return write_text(b"main", line, end);
    }
    let point_end = write_number(u64::from(row.branch) + 1, line, end);
    let fork_end = write_text(b".", line, point_end);
    write_number(u64::from(row.fork), line, fork_end)
}

// Writes the number, the turns and the process of a stint behind so many turns.
fn write_head(
    rows: &[Row],
    number: u32,
    used: u32,
    row: &Row,
    line: &mut [u8; ROOM],
    end: usize,
) -> usize
    requires plain { IsPlain rows.now row.now }
    requires within { (68 ≤ end) × (end ≤ 208) }
    ensures start { (end ≤ result + 68) × (result ≤ end) }
    ensures written { drop result line.new ≡ spec.head_text number (told.stint_in Ending.Done rows.now (suc used) row.now) ++ drop end line.old }
{
    let name_start = write_name(row, line, end);
    let turns_end = write_text(b" process ", line, name_start);
    let number_end = write_turns(u64::from(used) + 1, row.used, line, turns_end);
    write_number(u64::from(number), line, number_end)
}

// Writes where a stint has begun, and how it has ended.
fn write_tail(rows: &[Row], used: u32, row: &Row, line: &mut [u8; ROOM], end: usize) -> usize
    requires rows { All IsRow rows.now }
    requires row { IsRow row.now }
    requires plain { IsPlain rows.now row.now }
    requires within { (123 ≤ end) × (end ≤ 208) }
    ensures start { (end ≤ result + 123) × (result ≤ end) }
    ensures written { drop result line.new ≡ spec.tail_text (told.stint_in Ending.Done rows.now (suc used) row.now) ++ drop end line.old }
{
    let end_start = write_end(row, line, end);
    let start_end = write_text(b" ", line, end_start);
    let start_start = write_start(rows, row, line, start_end);
    write_text(b" from", line, start_start)
}

// Whether a stint has not ended the run.
fn goes_on(kind: Kind) -> bool
    ensures { result ≡ true → kind ≡ Kind.Over → ⊥ }
{
    match kind {
        Kind::Over => false,
        Kind::Arrives | Kind::Waits | Kind::Tries | Kind::Forks | Kind::Ends => true,
    }
}

// Whether its line is written so.
pub(crate) fn is_plain(rows: &[Row], row: &Row) -> bool
    ensures { result ≡ true → IsPlain rows.now row.now }
{
    if row.said > 0 {
        return false;
    }
    if !goes_on(row.kind) {
        return false;
    }
    numbered(rows, row.born).born == 0
}

// Puts the line of a stint behind so many turns, with its line feed.
pub(crate) fn put_plain(
    out: &mut Vec<u8>,
    rows: &[Row],
    number: u32,
    used: u32,
    row: &Row,
) -> Result<(), AllocError>
    requires rows { All IsRow rows.now }
    requires row { IsRow row.now }
    requires plain { IsPlain rows.now row.now }
    ensures exact { OnOk result (out.new.items
        ≡ out.old.items ++ (spec.stint_text number (told.stint_in Ending.Done rows.now (suc used) row.now) ++ codes "\n")) }
{
    let mut line = [0; ROOM];
    let tail_end = write_text(b"\n", &mut line, ROOM);
    let head_end = write_tail(rows, used, row, &mut line, tail_end);
    let start = write_head(rows, number, used, row, &mut line, head_end);
    out.extend_from_slice(&line[start..])?;
    Ok(())
}
