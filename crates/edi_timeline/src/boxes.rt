//! A box of a picture, and the line to it.

ghost use Rattle.std.specs.Prelude.{◌≡◌, suc, ◌+◌, ◌-◌, ◌++◌, ◌≤◌, ◌<◌, ◌^◌, OnOk, codes, decimal, length, map, take};
ghost use Rattle.edi_timeline.specs.Text.{characters_text};
ghost use Rattle.edi_timeline.specs.Sheet.{IsSheet, box_in, frame_in, line_for, own_line};
ghost use Rattle.edi_timeline.specs.Told.{AreRows, IsRow};
ghost use Rattle.edi_timeline.specs.Told as told;
ghost use Rattle.edi_timeline.specs.Picture as spec;

use crate::lanes::{is_of_parent, is_same, lane_of};
use crate::rows::{Kind, Row, numbered, row_at, used_before};
use crate::text::put_stint;
use crate::words::{put_characters, put_number};
use edi_kernel::Ending;
use std::alloc::{AllocError, Global};

/// What is drawn: the rows of a timeline, the first of them, those that begin lanes, and how the run has ended.
#[derive(Clone, Copy)]
pub(crate) struct Sheet<'a> {
    pub(crate) rows: &'a [Row],
    pub(crate) few: &'a [Row],
    pub(crate) lanes: &'a [Row],
    pub(crate) ending: Ending,
}

// Puts a character of a line.
fn put_escaped_one(out: &mut Vec<u8>, c: u8) -> Result<(), AllocError>
    ensures exact { OnOk result (out.new.items ≡ out.old.items ++ spec.escaped c) }
{
    match c {
        b'&' => out.extend_from_slice(b"&amp;")?,
        b'<' => out.extend_from_slice(b"&lt;")?,
        b'>' => out.extend_from_slice(b"&gt;")?,
        _ => out.push(c)?,
    }
    Ok(())
}

// Puts a line as characters of the picture.
pub(crate) fn put_escaped(out: &mut Vec<u8>, line: &[u8]) -> Result<(), AllocError>
    ensures exact { OnOk result (out.new.items ≡ out.old.items ++ spec.escaped_text line.now) }
{
    for c in line {
        put_escaped_one(out, *c)?;
    }
    Ok(())
}

// How far to the right a column stands.
pub(crate) fn column_x(index: usize) -> u64
    requires small { index ≤ 1000 }
    ensures exact { result ≡ spec.column_x index }
{
    100 + 38 * index as u64
}

// How far down a lane stands.
pub(crate) fn lane_y(lane: usize) -> u64
    requires small { lane ≤ 1000 }
    ensures exact { result ≡ spec.lane_y lane }
{
    62 + 46 * lane as u64
}

// Begins a group that is moved.
pub(crate) fn put_moved(out: &mut Vec<u8>, x: u64, y: u64) -> Result<(), AllocError>
    ensures exact { OnOk result (out.new.items ≡ out.old.items ++ spec.moved x y) }
{
    out.extend_from_slice(b"<g transform=\"translate(")?;
    put_number(out, x)?;
    out.extend_from_slice(b" ")?;
    put_number(out, y)?;
    out.extend_from_slice(b")\">")?;
    Ok(())
}

// Puts how a stint that has ended so leaves its lane.
fn put_line_kind(out: &mut Vec<u8>, kind: Kind) -> Result<(), AllocError>
    ensures exact { OnOk result (out.new.items ≡ out.old.items ++ spec.line_kind (told.end_as Ending.Done told.no_row kind)) }
{
    match kind {
        Kind::Waits | Kind::Tries => out.extend_from_slice(
            b"stroke=\"#000\" stroke-width=\"2\" stroke-dasharray=\"4 3\"",
        )?,
        Kind::Forks => out.extend_from_slice(
            b"stroke=\"#666\" stroke-width=\"2\" stroke-dasharray=\"1 4\"",
        )?,
        Kind::Arrives | Kind::Ends | Kind::Over => out.extend_from_slice(
            b"stroke=\"#56a8d8\" stroke-width=\"4\"",
        )?,
    }
    Ok(())
}

// Puts a line from the box so many columns before, the stint of which has ended so.
fn put_line_over(out: &mut Vec<u8>, kind: Kind, columns: u64) -> Result<(), AllocError>
    requires from { 1 ≤ columns }
    requires to { columns ≤ 1000 }
    ensures exact { OnOk result (out.new.items ≡ out.old.items ++ spec.line_over (told.end_as Ending.Done told.no_row kind) columns) }
{
    out.extend_from_slice(b"<path d=\"M-")?;
    put_number(out, 38 * columns - 32)?;
    out.extend_from_slice(b" 13H0\" ")?;
    put_line_kind(out, kind)?;
    out.extend_from_slice(b"/>")?;
    Ok(())
}

// Puts that line where the process goes on after it.
fn put_line_back(out: &mut Vec<u8>, kind: Kind, columns: u64) -> Result<(), AllocError>
    requires from { 1 ≤ columns }
    requires to { columns ≤ 1000 }
    ensures exact { OnOk result (out.new.items ≡ out.old.items ++ spec.line_back (told.end_as Ending.Done told.no_row kind) columns) }
{
    match kind {
        Kind::Arrives => put_line_over(out, Kind::Arrives, columns),
        Kind::Waits => put_line_over(out, Kind::Waits, columns),
        Kind::Tries => put_line_over(out, Kind::Tries, columns),
        Kind::Forks => put_line_over(out, Kind::Forks, columns),
        Kind::Ends | Kind::Over => Ok(()),
    }
}

// Puts the line of the process of such a row to the column of this index.
fn put_line_to(out: &mut Vec<u8>, sheet: &Sheet, row: &Row, index: usize) -> Result<(), AllocError>
    requires rows { AreRows sheet.now.rows.now }
    requires within { index ≤ 1000 }
    ensures exact { OnOk result (out.new.items ≡ out.old.items ++ line_for sheet.now row.now index) }
{
    for back in 0..index {
        let before = row_at(sheet.few, index - 1 - back);
        if is_same(sheet.rows, &before, row) {
            return put_line_back(out, before.kind, back as u64 + 1);
        }
        if is_of_parent(sheet.rows, &before, row) {
            return put_line_back(out, Kind::Arrives, back as u64 + 1);
        }
    }
    Ok(())
}

// Puts the line from the last stint of the process of such a row in the first columns to behind these.
pub(crate) fn put_own_line(
    out: &mut Vec<u8>,
    sheet: &Sheet,
    row: &Row,
    columns: usize,
) -> Result<(), AllocError>
    requires rows { AreRows sheet.now.rows.now }
    requires within { columns ≤ 1000 }
    ensures exact { OnOk result (out.new.items ≡ out.old.items ++ own_line sheet.now row.now columns) }
{
    for back in 0..columns {
        let before = row_at(sheet.few, columns - 1 - back);
        if is_same(sheet.rows, &before, row) {
            return put_line_back(out, before.kind, back as u64 + 1);
        }
    }
    Ok(())
}

// Puts the box itself.
fn put_rectangle(out: &mut Vec<u8>, row: &Row, ending: Ending) -> Result<(), AllocError>
    ensures exact { OnOk result (out.new.items ≡ out.old.items ++ spec.rectangle (told.end_as ending row.now row.now.kind)) }
{
    match (row.kind, ending) {
        (Kind::Waits | Kind::Tries, _) => out.extend_from_slice(
            b"<rect width=\"32\" height=\"26\" fill=\"#fff\" stroke=\"#000\" stroke-width=\"2\" stroke-dasharray=\"4 2\"/>",
        )?,
        (Kind::Ends, _) => out.extend_from_slice(
            b"<rect width=\"32\" height=\"26\" rx=\"13\" fill=\"#fff\" stroke=\"#000\"/>",
        )?,
        (Kind::Over, Ending::Done) => out.extend_from_slice(
            b"<rect width=\"32\" height=\"26\" rx=\"13\" fill=\"#000\"/>",
        )?,
        (Kind::Over, _) => out.extend_from_slice(
            b"<rect width=\"32\" height=\"26\" fill=\"#000\"/>",
        )?,
        _ => out.extend_from_slice(
            b"<rect width=\"32\" height=\"26\" fill=\"#9fd0f0\" stroke=\"#000\"/>",
        )?,
    }
    Ok(())
}

// Puts the colour of what stands in the box.
fn put_ink(out: &mut Vec<u8>, row: &Row) -> Result<(), AllocError>
    ensures exact { OnOk result (out.new.items ≡ out.old.items ++ spec.ink (told.end_as Ending.Done row.now row.now.kind)) }
{
    match row.kind {
        Kind::Over => out.extend_from_slice(b"#fff")?,
        Kind::Arrives | Kind::Waits | Kind::Tries | Kind::Forks | Kind::Ends =>
            out.extend_from_slice(b"#000")?,
    }
    Ok(())
}

// Puts the line of a place, or a point.
fn put_first_line(out: &mut Vec<u8>, place: &[u16]) -> Result<(), AllocError>
    ensures exact { OnOk result (out.new.items ≡ out.old.items ++ spec.first_line place.now) }
{
    if place.is_empty() {
        out.extend_from_slice(b"&#183;")?;
        return Ok(());
    }
    put_number(out, u64::from(place[0]))
}

// Puts the line from which the next stint of a process begins, or a point.
fn put_behind(out: &mut Vec<u8>, row: &Row) -> Result<(), AllocError>
    requires row { IsRow row.now }
    ensures exact { OnOk result (out.new.items ≡ out.old.items ++ spec.box_text (told.start_behind row.now row.now.kind)) }
{
    match row.kind {
        Kind::Arrives | Kind::Waits | Kind::Tries => put_first_line(out, row.place()),
        Kind::Forks | Kind::Ends | Kind::Over => {
            out.extend_from_slice(b"&#183;")?;
            Ok(())
        }
    }
}

// Puts the line from which a stint begins, or a point.
fn put_box_text(out: &mut Vec<u8>, rows: &[Row], row: &Row) -> Result<(), AllocError>
    requires rows { AreRows rows.now }
    ensures exact { OnOk result (out.new.items ≡ out.old.items ++ spec.box_text (told.start_in rows.now row.now)) }
{
    if row.before == 0 {
        out.extend_from_slice(b"&#183;")?;
        return Ok(());
    }
    put_behind(out, &numbered(rows, row.before))
}

// Puts what stands in a box.
fn put_inside(out: &mut Vec<u8>, rows: &[Row], row: &Row) -> Result<(), AllocError>
    requires rows { AreRows rows.now }
    ensures exact { OnOk result (out.new.items ≡ out.old.items
        ++ spec.inside (told.end_as Ending.Done row.now row.now.kind) (told.start_in rows.now row.now)) }
{
    out.extend_from_slice(b"<text x=\"16\" y=\"17\" fill=\"")?;
    put_ink(out, row)?;
    out.extend_from_slice(b"\">")?;
    put_box_text(out, rows, row)?;
    out.extend_from_slice(b"</text>")?;
    Ok(())
}

// Puts the first three of characters.
fn put_first_characters(out: &mut Vec<u8>, shown: &[u8]) -> Result<(), AllocError>
    ensures exact { OnOk result (out.new.items ≡ out.old.items ++ characters_text (take 3 shown.now)) }
{
    if shown.len() > 3 {
        return put_characters(out, &shown[..3]);
    }
    put_characters(out, shown)
}

// Puts the first characters that were shown, above the box.
fn put_shown_above(alloc: Global, out: &mut Vec<u8>, shown: &[u8]) -> Result<(), AllocError>
    ensures exact { OnOk result (out.new.items ≡ out.old.items ++ spec.shown_above shown.now) }
{
    if shown.is_empty() {
        return Ok(());
    }
    let mut above = Vec::new(alloc);
    put_first_characters(&mut above, shown)?;
    out.extend_from_slice(b"<text x=\"16\" y=\"-4\" font-weight=\"bold\">")?;
    put_escaped(out, &above)?;
    out.extend_from_slice(b"</text>")?;
    Ok(())
}

// Puts the number of a stint over its column.
fn put_number_over(out: &mut Vec<u8>, index: usize) -> Result<(), AllocError>
    requires within { index < 1000 }
    ensures exact { OnOk result (out.new.items ≡ out.old.items ++ spec.over_column (suc index)) }
{
    out.extend_from_slice(b"<text x=\"")?;
    put_number(out, column_x(index) + 16)?;
    out.extend_from_slice(b"\" y=\"42\" font-size=\"10\">")?;
    put_number(out, index as u64 + 1)?;
    out.extend_from_slice(b"</text>")?;
    Ok(())
}

// Puts the line of the stint of this index as a title.
fn put_title(
    alloc: Global,
    out: &mut Vec<u8>,
    sheet: &Sheet,
    index: usize,
    row: &Row,
) -> Result<(), AllocError>
    requires rows { AreRows sheet.now.rows.now }
    requires row { IsRow row.now }
    requires within { index < 1000 }
    ensures exact { OnOk result (out.new.items ≡ out.old.items
        ++ spec.title (suc index) (told.stint_in sheet.now.ending sheet.now.rows.now (suc (told.used_before sheet.now.few.now index)) row.now)) }
{
    let mut line = Vec::new(alloc);
    let used = used_before(sheet.few, index);
    put_stint(
        alloc,
        &mut line,
        sheet.rows,
        index as u32 + 1,
        used,
        row,
        sheet.ending,
    )?;
    out.extend_from_slice(b"<title>")?;
    put_escaped(out, &line)?;
    out.extend_from_slice(b"</title>")?;
    Ok(())
}

// Puts the frame of a stint of this index in its lane, with its title and the line to it.
fn put_frame(
    alloc: Global,
    out: &mut Vec<u8>,
    sheet: &Sheet,
    index: usize,
    row: &Row,
) -> Result<(), AllocError>
    requires sheet { IsSheet sheet.now }
    requires row { IsRow row.now }
    requires within { index < 1000 }
    ensures exact { OnOk result (out.new.items ≡ out.old.items ++ frame_in sheet.now index row.now) }
{
    let lane = lane_of(sheet.rows, sheet.lanes, row);
    put_number_over(out, index)?;
    put_moved(out, column_x(index), lane_y(lane))?;
    put_title(alloc, out, sheet, index, row)?;
    put_line_to(out, sheet, row, index)?;
    Ok(())
}

// Puts the box of the stint of this index.
pub(crate) fn put_box(
    alloc: Global,
    out: &mut Vec<u8>,
    sheet: &Sheet,
    index: usize,
) -> Result<(), AllocError>
    requires sheet { IsSheet sheet.now }
    requires within { index < length sheet.now.few.now }
    ensures exact { OnOk result (out.new.items ≡ out.old.items ++ box_in sheet.now index) }
{
    let row = row_at(sheet.few, index);
    put_frame(alloc, out, sheet, index, &row)?;
    put_rectangle(out, &row, sheet.ending)?;
    put_inside(out, sheet.rows, &row)?;
    put_shown_above(alloc, out, row.characters())?;
    out.extend_from_slice(b"</g>\n")?;
    Ok(())
}
