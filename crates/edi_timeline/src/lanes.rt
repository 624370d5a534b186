//! The lanes of a picture.

ghost use Rattle.std.specs.Prelude.{◌≡◌, ◌+◌, ◌≤◌, ◌<◌, IfOk, OnOk, List, map, length, take};
ghost use Rattle.edi_calls.specs.Names.{same};
ghost use Rattle.edi_calls.specs.Ready.{parent_of};
ghost use Rattle.edi_kernel.specs.declared.ends.Ending.{Ending};
ghost use Rattle.edi_timeline.specs.Told.{AreRows, process_in, stints_in};
ghost use Rattle.edi_timeline.specs.Picture as spec;

use crate::rows::{Row, numbered};
use std::alloc::{AllocError, Global};

// Whether two stints are of one process.
pub(crate) fn is_same(rows: &[Row], one: &Row, other: &Row) -> bool
    requires rows { AreRows rows.now }
    ensures exact { result ≡ same (process_in rows.now one.now) (process_in rows.now other.now) }
{
    let mut x = *one;
    let mut y = *other;
    for _level in 0..one.born {
        if x.born == 0 || y.born == 0 {
            return x.born == y.born;
        }
        if x.fork != y.fork || x.branch != y.branch {
            return false;
        }
        x = numbered(rows, x.born);
        y = numbered(rows, y.born);
    }
    x.born == y.born
}

// Whether a stint is of the parent of the process of another. The first process stands for its own.
pub(crate) fn is_of_parent(rows: &[Row], one: &Row, other: &Row) -> bool
    requires rows { AreRows rows.now }
    ensures exact { result ≡ same (process_in rows.now one.now) (parent_of (process_in rows.now other.now)) }
{
    if other.born == 0 {
        return is_same(rows, one, other);
    }
    is_same(rows, one, &numbered(rows, other.born))
}

// The number of the lane of a process, which is that of the lanes where it has none.
pub(crate) fn lane_of(rows: &[Row], lanes: &[Row], row: &Row) -> usize
    requires rows { AreRows rows.now }
    ensures exact { result ≡ spec.lane_of (map (process_in rows.now) lanes.now) (process_in rows.now row.now) }
{
    let mut lane = 0;
    for first in lanes {
        if is_same(rows, row, first) {
            return lane;
        }
        lane += 1;
    }
    lane
}

// A process that has no lane gets one.
fn add_lane(rows: &[Row], lanes: &mut Vec<Row>, row: &Row) -> Result<(), AllocError>
    requires rows { AreRows rows.now }
    ensures exact { OnOk result (map (process_in rows.now) lanes.new.items
        ≡ spec.with_lane (map (process_in rows.now) lanes.old.items) (process_in rows.now row.now)) }
    ensures less { OnOk result (length lanes.new.items ≤ length lanes.old.items + 1) }
{
    if lane_of(rows, lanes, row) < lanes.len() {
        return Ok(());
    }
    lanes.push(*row)?;
    Ok(())
}

// The first stints of the processes of these.
pub(crate) fn lanes_of(alloc: Global, rows: &[Row], few: &[Row]) -> Result<Vec<Row>, AllocError>
    requires rows { AreRows rows.now }
    ensures exact { IfOk result (λ lanes. (e : Ending) → map (process_in rows.now) lanes.items ≡ spec.lanes_of (stints_in e rows.now 0 few.now)) }
    ensures less { IfOk result (λ lanes. length lanes.items ≤ length few.now) }
{
    let mut lanes = Vec::new(alloc);
    for row in few {
        add_lane(rows, &mut lanes, row)?;
    }
    Ok(lanes)
}
