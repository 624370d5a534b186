//! The line of a stint, and the text.

ghost use Rattle.std.specs.Option.{option_map};
ghost use Rattle.std.specs.Prelude.{◌≡◌, suc, ◌+◌, ◌++◌, ◌∷◌, ◌<◌, ◌≤◌, ◌^◌, [], All, OnOk, IfOk, codes, decimal, length};
ghost use Rattle.edi_timeline.specs.Told.{IsRow, numbered};
ghost use Rattle.edi_timeline.specs.Told as told;
ghost use Rattle.edi_timeline.specs.Text as spec;

use crate::plain::{is_plain, put_plain};
use crate::rows::{Kind, Row, numbered};
use crate::words::{put_branch, put_ending, put_how, put_number, put_place, put_shown, put_turns};
use edi_kernel::Ending;
use std::alloc::{AllocError, Global};

// Puts where the next stint of a process begins.
fn put_behind(out: &mut Vec<u8>, row: &Row) -> Result<(), AllocError>
    requires row { IsRow row.now }
    ensures exact { OnOk result (out.new.items ≡ out.old.items ++ spec.start_text (told.start_behind row.now row.now.kind)) }
{
    match row.kind {
        Kind::Arrives | Kind::Waits | Kind::Tries => put_place(out, row.place()),
        Kind::Forks | Kind::Ends | Kind::Over => {
            out.extend_from_slice(b" join")?;
            Ok(())
        }
    }
}

// Puts how a stint has ended.
fn put_end(out: &mut Vec<u8>, row: &Row, ending: Ending) -> Result<(), AllocError>
    requires row { IsRow row.now }
    ensures exact { OnOk result (out.new.items ≡ out.old.items ++ spec.end_text (told.end_as ending row.now row.now.kind)) }
{
    match row.kind {
        Kind::Arrives => {
            out.extend_from_slice(b"arrives")?;
            put_place(out, row.place())
        }
        Kind::Waits => {
            out.extend_from_slice(b"waits")?;
            Ok(())
        }
        Kind::Tries => {
            out.extend_from_slice(b"tries")?;
            Ok(())
        }
        Kind::Forks => {
            out.extend_from_slice(b"forks ")?;
            put_number(out, u64::from(row.many))
        }
        Kind::Ends => {
            out.extend_from_slice(b"ends")?;
            Ok(())
        }
        Kind::Over => put_ending(out, ending),
    }
}

// Puts where a stint has begun.
fn put_start(out: &mut Vec<u8>, rows: &[Row], row: &Row) -> Result<(), AllocError>
    requires rows { All IsRow rows.now }
    ensures exact { OnOk result (out.new.items ≡ out.old.items ++ spec.start_text (told.start_in rows.now row.now)) }
{
    if row.before == 0 {
        out.extend_from_slice(b" begin")?;
        return Ok(());
    }
    put_behind(out, &numbered(rows, row.before))
}

// The forks and branches that lead to a process, the last one first; at most so many.
fn path(alloc: Global, rows: &[Row], row: &Row, most: u32) -> Result<Vec<(u32, u8)>, AllocError>
    ensures exact { IfOk result (λ path. path.items ≡ told.path_in rows.now most row.now) }
{
    let mut path = Vec::new(alloc);
    let mut at = *row;
    for _level in 0..most {
        if at.born == 0 {
            return Ok(path);
        }
        path.push((at.fork, at.branch))?;
        at = numbered(rows, at.born);
    }
    Ok(path)
}

// Those that lead to the process of a stint.
pub(crate) fn whole_path(
    alloc: Global,
    rows: &[Row],
    row: &Row,
) -> Result<Vec<(u32, u8)>, AllocError>
    ensures exact { IfOk result (λ path. path.items ≡ told.path_of rows.now row.now) }
{
    path(alloc, rows, row, row.born)
}

// Puts the name of the process to which these lead.
pub(crate) fn put_name(out: &mut Vec<u8>, path: &[(u32, u8)]) -> Result<(), AllocError>
    ensures exact { OnOk result (out.new.items ≡ out.old.items ++ spec.process_text (told.name_of path.now)) }
{
    if path.is_empty() {
        out.extend_from_slice(b"main")?;
        return Ok(());
    }
    put_branches(out, path)
}

fn put_branches(out: &mut Vec<u8>, path: &[(u32, u8)]) -> Result<(), AllocError>
    ensures exact { OnOk result (out.new.items ≡ out.old.items ++ spec.branches_text (told.name_of path.now)) }
{
    let mut left = path.len();
    while left > 0 {
        left -= 1;
        put_branch(out, path[left].0, path[left].1)?;
        if left > 0 {
            out.extend_from_slice(b"/")?;
        }
    }
    Ok(())
}

// Puts the number, the turns and the process of a stint behind so many turns.
fn put_head(
    alloc: Global,
    out: &mut Vec<u8>,
    rows: &[Row],
    number: u32,
    used: u32,
    row: &Row,
    ending: Ending,
) -> Result<(), AllocError>
    ensures exact { OnOk result (out.new.items ≡ out.old.items ++ spec.head_text number (told.stint_in ending rows.now (suc used) row.now)) }
{
    let path = whole_path(alloc, rows, row)?;
    put_number(out, u64::from(number))?;
    put_turns(out, u64::from(used) + 1, u64::from(row.used))?;
    out.extend_from_slice(b" process ")?;
    put_name(out, &path)
}

// Puts where it has begun, how it has ended, and what was shown.
fn put_tail(
    out: &mut Vec<u8>,
    rows: &[Row],
    used: u32,
    row: &Row,
    ending: Ending,
) -> Result<(), AllocError>
    requires rows { All IsRow rows.now }
    requires row { IsRow row.now }
    ensures exact { OnOk result (out.new.items ≡ out.old.items ++ spec.tail_text (told.stint_in ending rows.now (suc used) row.now)) }
{
    out.extend_from_slice(b" from")?;
    put_start(out, rows, row)?;
    out.extend_from_slice(b" ")?;
    put_end(out, row, ending)?;
    put_shown(out, row.characters())
}

// Puts the line of a stint behind so many turns.
pub(crate) fn put_stint(
    alloc: Global,
    out: &mut Vec<u8>,
    rows: &[Row],
    number: u32,
    used: u32,
    row: &Row,
    ending: Ending,
) -> Result<(), AllocError>
    requires rows { All IsRow rows.now }
    requires row { IsRow row.now }
    ensures exact { OnOk result (out.new.items ≡ out.old.items ++ spec.stint_text number (told.stint_in ending rows.now (suc used) row.now)) }
{
    put_head(alloc, out, rows, number, used, row, ending)?;
    put_tail(out, rows, used, row, ending)
}

// Puts the line of a stint behind so many turns, with its line feed.
fn put_line(
    alloc: Global,
    out: &mut Vec<u8>,
    rows: &[Row],
    number: u32,
    used: u32,
    row: &Row,
    ending: Ending,
) -> Result<(), AllocError>
    requires rows { All IsRow rows.now }
    requires row { IsRow row.now }
    ensures exact { OnOk result (out.new.items
        ≡ out.old.items ++ (spec.stint_text number (told.stint_in ending rows.now (suc used) row.now) ++ codes "\n")) }
{
    if is_plain(rows, row) {
        return put_plain(out, rows, number, used, row);
    }
    put_stint(alloc, out, rows, number, used, row, ending)?;
    out.extend_from_slice(b"\n")?;
    Ok(())
}

// The lines of rows, of a run that has ended so, if it has ended.
fn lines_of(alloc: Global, rows: &[Row], ending: Ending) -> Result<Vec<u8>, AllocError>
    requires rows { All IsRow rows.now }
    requires few { length rows.now ≤ 100000 }
    ensures exact { IfOk result (λ text. text.items ≡ spec.lines_text 1 (told.stints_in ending rows.now 0 rows.now)) }
{
    let mut out = Vec::new(alloc);
    let mut number: u32 = 0;
    let mut used: u32 = 0;
    for row in rows {
        number += 1;
        put_line(alloc, &mut out, rows, number, used, row, ending)?;
        used = row.used;
    }
    Ok(out)
}

// Puts that these are the first of so many stints, where there are more, and how the run has ended, if it has.
fn put_cut(out: &mut Vec<u8>, count: u64, ended: Option<Ending>) -> Result<(), AllocError>
    ensures exact { OnOk result (out.new.items ≡ out.old.items ++ spec.cut_text count (option_map told.meant ended)) }
{
    if count <= 100_000 {
        return Ok(());
    }
    out.extend_from_slice(b"first 100000 of ")?;
    put_number(out, count)?;
    out.extend_from_slice(b" stints")?;
    put_how(out, ended)?;
    out.extend_from_slice(b"\n")?;
    Ok(())
}

// The text of rows, the first of so many stints, of a run that has ended so, if it has ended.
pub(crate) fn text_of(
    alloc: Global,
    rows: &[Row],
    count: u64,
    ending: Ending,
    ended: Option<Ending>,
) -> Result<Vec<u8>, AllocError>
    requires rows { All IsRow rows.now }
    requires few { length rows.now ≤ 100000 }
    ensures exact { IfOk result (λ text. text.items
        ≡ spec.text_of count (option_map told.meant ended) (told.stints_in ending rows.now 0 rows.now)) }
{
    let mut out = lines_of(alloc, rows, ending)?;
    put_cut(&mut out, count, ended)?;
    Ok(out)
}
