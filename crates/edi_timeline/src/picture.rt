//! The picture.

ghost use Rattle.std.specs.Option.{option_map};
ghost use Rattle.std.specs.Prelude.{◌≡◌, suc, ◌+◌, ◌++◌, ◌≤◌, ◌<◌, ◌^◌, [], OnOk, IfOk, codes, decimal, if◌then◌else◌, length, nat_le, take, map};
ghost use Rattle.edi_timeline.specs.Sheet.{IsSheet, lanes_in, line_on_in, lines_on_in};
ghost use Rattle.edi_timeline.specs.Told.{AreRows, stints_in};
ghost use Rattle.edi_timeline.specs.Told as told;
ghost use Rattle.edi_timeline.specs.Picture as spec;

use crate::boxes::{Sheet, column_x, lane_y, put_box, put_moved, put_own_line};
use crate::lanes::lanes_of;
use crate::rows::Row;
use crate::text::{put_name, whole_path};
use crate::words::{put_how, put_number};
use edi_kernel::Ending;
use std::alloc::{AllocError, Global};

/// The stints that a picture shows.
const MOST_BOXES: usize = 1_000;

/// What the boxes and lines mean.
const KEY: &[u8] =
    b"<g transform=\"translate(0 0)\"><g text-anchor=\"middle\"><rect width=\"32\" height=\"26\" fill=\"#9fd0f0\" stroke=\"#000\"/><text x=\"16\" y=\"17\" fill=\"#000\">12</text></g><text x=\"40\" y=\"17\">from the when of line 12</text></g>\n\
<g transform=\"translate(265 0)\"><g text-anchor=\"middle\"><rect width=\"32\" height=\"26\" fill=\"#9fd0f0\" stroke=\"#000\"/><text x=\"16\" y=\"17\" fill=\"#000\">&#183;</text></g><text x=\"40\" y=\"17\">begins, or its branches ended</text></g>\n\
<g transform=\"translate(530 0)\"><g text-anchor=\"middle\"><rect width=\"32\" height=\"26\" fill=\"#9fd0f0\" stroke=\"#000\"/><text x=\"16\" y=\"17\" fill=\"#000\">12</text><text x=\"16\" y=\"-4\" font-weight=\"bold\">x</text></g><text x=\"40\" y=\"17\">what was shown in it</text></g>\n\
<g transform=\"translate(0 36)\"><rect width=\"32\" height=\"26\" fill=\"#9fd0f0\" stroke=\"#000\"/><text x=\"40\" y=\"17\">comes to a when or cobegin</text></g>\n\
<g transform=\"translate(265 36)\"><rect width=\"32\" height=\"26\" fill=\"#fff\" stroke=\"#000\" stroke-width=\"2\" stroke-dasharray=\"4 2\"/><text x=\"40\" y=\"17\">tries its when, and waits</text></g>\n\
<g transform=\"translate(530 36)\"><rect width=\"32\" height=\"26\" rx=\"13\" fill=\"#fff\" stroke=\"#000\"/><text x=\"40\" y=\"17\">ends</text></g>\n\
<g transform=\"translate(0 72)\"><rect width=\"32\" height=\"26\" rx=\"13\" fill=\"#000\"/><text x=\"40\" y=\"17\">the run ends as done</text></g>\n\
<g transform=\"translate(265 72)\"><rect width=\"32\" height=\"26\" fill=\"#000\"/><text x=\"40\" y=\"17\">the run ends in another way</text></g>\n\
<g transform=\"translate(0 108)\"><path d=\"M0 13H32\" stroke=\"#56a8d8\" stroke-width=\"4\"/><text x=\"40\" y=\"17\">ready</text></g>\n\
<g transform=\"translate(265 108)\"><path d=\"M0 13H32\" stroke=\"#000\" stroke-width=\"2\" stroke-dasharray=\"4 3\"/><text x=\"40\" y=\"17\">waits: its last try failed</text></g>\n\
<g transform=\"translate(530 108)\"><path d=\"M0 13H32\" stroke=\"#666\" stroke-width=\"2\" stroke-dasharray=\"1 4\"/><text x=\"40\" y=\"17\">waits for its branches</text></g>\n";

// Puts the key.
fn put_key(out: &mut Vec<u8>) -> Result<(), AllocError>
    ensures exact { OnOk result (out.new.items ≡ out.old.items ++ spec.key) }
{
    out.extend_from_slice(KEY)?;
    Ok(())
}

// Begins the picture.
fn put_opened(out: &mut Vec<u8>, width: u64, height: u64) -> Result<(), AllocError>
    ensures exact { OnOk result (out.new.items ≡ out.old.items ++ spec.opened width height) }
{
    out.extend_from_slice(b"<svg xmlns=\"http://www.w3.org/2000/svg\" width=\"")?;
    put_number(out, width)?;
    out.extend_from_slice(b"\" height=\"")?;
    put_number(out, height)?;
    out.extend_from_slice(b"\" viewBox=\"0 0 ")?;
    put_number(out, width)?;
    out.extend_from_slice(b" ")?;
    put_number(out, height)?;
    out.extend_from_slice(
        b"\" font-family=\"monospace\" font-size=\"12\">\n<rect width=\"100%\" height=\"100%\" fill=\"#fff\"/>\n",
    )?;
    Ok(())
}

// Puts how many stints there are, or that these are the first of so many.
fn put_count(out: &mut Vec<u8>, count: u64) -> Result<(), AllocError>
    ensures exact { OnOk result (out.new.items ≡ out.old.items
        ++ (if nat_le count 1000 then decimal count ++ codes " stints" else codes "first 1000 of " ++ (decimal count ++ codes " stints"))) }
{
    if count <= 1_000 {
        put_number(out, count)?;
        out.extend_from_slice(b" stints")?;
        return Ok(());
    }
    out.extend_from_slice(b"first 1000 of ")?;
    put_number(out, count)?;
    out.extend_from_slice(b" stints")?;
    Ok(())
}

// Puts the heading, and what the numbers of the top row count.
fn put_headed(out: &mut Vec<u8>, count: u64, ended: Option<Ending>) -> Result<(), AllocError>
    ensures exact { OnOk result (out.new.items ≡ out.old.items ++ spec.headed count (option_map told.meant ended)) }
{
    out.extend_from_slice(b"<text x=\"8\" y=\"20\" font-size=\"15\">")?;
    put_count(out, count)?;
    put_how(out, ended)?;
    out.extend_from_slice(b"</text>\n<text x=\"8\" y=\"42\" font-size=\"10\">stint</text>\n")?;
    Ok(())
}

// Puts the name of a lane.
fn put_lane(
    alloc: Global,
    out: &mut Vec<u8>,
    rows: &[Row],
    lane: usize,
    row: &Row,
) -> Result<(), AllocError>
    requires small { lane ≤ 1000 }
    ensures exact { OnOk result (out.new.items ≡ out.old.items ++ spec.lane_name lane (told.process_in rows.now row.now)) }
{
    let path = whole_path(alloc, rows, row)?;
    out.extend_from_slice(b"<text x=\"8\" y=\"")?;
    put_number(out, lane_y(lane) + 17)?;
    out.extend_from_slice(b"\">")?;
    put_name(out, &path)?;
    out.extend_from_slice(b"</text>\n")?;
    Ok(())
}

// Puts the names of the lanes.
fn put_lanes(
    alloc: Global,
    out: &mut Vec<u8>,
    rows: &[Row],
    lanes: &[Row],
) -> Result<(), AllocError>
    requires few { length lanes.now ≤ 1000 }
    ensures exact { OnOk result (out.new.items ≡ out.old.items ++ spec.lane_names 0 (map (told.process_in rows.now) lanes.now)) }
{
    for (lane, row) in lanes.iter().enumerate() {
        put_lane(alloc, out, rows, lane, row)?;
    }
    Ok(())
}

// Puts how the process of a lane goes on behind the last column.
fn put_line_on(out: &mut Vec<u8>, sheet: &Sheet, lane: usize, row: &Row) -> Result<(), AllocError>
    requires sheet { IsSheet sheet.now }
    requires small { lane ≤ 1000 }
    ensures exact { OnOk result (out.new.items ≡ out.old.items ++ line_on_in sheet.now lane row.now) }
{
    put_moved(out, column_x(sheet.few.len()), lane_y(lane))?;
    put_own_line(out, sheet, row, sheet.few.len())?;
    out.extend_from_slice(b"</g>\n")?;
    Ok(())
}

// Puts how each process goes on behind the last column.
fn put_lines_on(out: &mut Vec<u8>, sheet: &Sheet) -> Result<(), AllocError>
    requires sheet { IsSheet sheet.now }
    ensures exact { OnOk result (out.new.items ≡ out.old.items ++ lines_on_in sheet.now) }
{
    for (lane, row) in sheet.lanes.iter().enumerate() {
        put_line_on(out, sheet, lane, row)?;
    }
    Ok(())
}

// Puts the boxes, and how each process goes on behind the last of them.
fn put_boxes(alloc: Global, out: &mut Vec<u8>, sheet: &Sheet) -> Result<(), AllocError>
    requires sheet { IsSheet sheet.now }
    ensures exact { OnOk result (out.new.items ≡ out.old.items
        ++ spec.boxes (lanes_in sheet.now) 1 [] (stints_in sheet.now.ending sheet.now.rows.now 0 sheet.now.few.now)) }
{
    for index in 0..sheet.few.len() {
        put_box(alloc, out, sheet, index)?;
    }
    put_lines_on(out, sheet)
}

// Puts the lanes with their boxes, and the key.
fn put_body(alloc: Global, out: &mut Vec<u8>, sheet: &Sheet) -> Result<(), AllocError>
    requires sheet { IsSheet sheet.now }
    ensures exact { OnOk result (out.new.items ≡ out.old.items
        ++ spec.body (lanes_in sheet.now) (stints_in sheet.now.ending sheet.now.rows.now 0 sheet.now.few.now)) }
{
    put_lanes(alloc, out, sheet.rows, sheet.lanes)?;
    out.extend_from_slice(b"<g text-anchor=\"middle\">\n")?;
    put_boxes(alloc, out, sheet)?;
    out.extend_from_slice(b"</g>\n")?;
    put_moved(out, 8, lane_y(sheet.lanes.len()) + 10)?;
    put_key(out)?;
    out.extend_from_slice(b"</g>\n</svg>\n")?;
    Ok(())
}

// How wide the picture is.
fn width(boxes: usize) -> u64
    requires small { boxes ≤ 1000 }
    ensures exact { result ≡ spec.width boxes }
{
    if boxes <= 17 {
        770
    } else {
        column_x(boxes) + 16
    }
}

// The rows that are drawn.
fn first_rows(rows: &[Row]) -> &[Row]
    ensures exact { result.now ≡ take 1000 rows.now }
    ensures few { length result.now ≤ 1000 }
{
    if rows.len() > MOST_BOXES {
        return &rows[..MOST_BOXES];
    }
    rows
}

// The picture of the first rows.
pub(crate) fn picture_of(
    alloc: Global,
    rows: &[Row],
    count: u64,
    ending: Ending,
    ended: Option<Ending>,
) -> Result<Vec<u8>, AllocError>
    requires rows { AreRows rows.now }
    ensures exact { IfOk result (λ picture. picture.items
        ≡ spec.picture_of count (option_map told.meant ended) (stints_in ending rows.now 0 rows.now)) }
{
    let few = first_rows(rows);
    let lanes = lanes_of(alloc, rows, few)?;
    let sheet = Sheet {
        rows,
        few,
        lanes: &lanes,
        ending,
    };
    let mut out = Vec::new(alloc);
    put_opened(&mut out, width(few.len()), lane_y(lanes.len()) + 156)?;
    put_headed(&mut out, count, ended)?;
    put_body(alloc, &mut out, &sheet)?;
    Ok(out)
}
