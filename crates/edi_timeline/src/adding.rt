//! A stint more.

ghost use Rattle.std.specs.Option.{option_map};
ghost use Rattle.std.specs.Prelude.{◌≡◌, ◌+◌, ◌<◌, ◌≤◌, ◌-◌, ◌^◌, true, nat_le};
ghost use Rattle.edi_timeline.specs.Told as told;
ghost use Rattle.edi_timeline.specs.Told.{numbered};
ghost use Rattle.edi_timeline.specs.Entered as spec;
ghost use Rattle.edi_timeline.specs.Adding.{CameFits, SeatFits, added, is_going, skipped};
ghost use Rattle.edi_timeline.specs.Timelines.{IsTimeline, told_in};

use crate::entry::{Came, Place, Said, Seat};
use crate::rows::{Kind, Row, numbered};
use crate::timeline::Kept;
use edi_kernel::Ending;

// The kind of its row.
fn kind_of(came: Came) -> Kind
    ensures exact { result ≡ spec.kind_of came }
{
    match came {
        Came::Arrived(_) => Kind::Arrives,
        Came::Waited => Kind::Waits,
        Came::Tried => Kind::Tries,
        Came::Forked(_) => Kind::Forks,
        Came::Ended => Kind::Ends,
        Came::Over(_) => Kind::Over,
    }
}

// A place without lines, and with a number.
fn no_place(many: u8) -> Place
    ensures exact { result ≡ spec.no_place many }
{
    Place {
        lines: [0; 5],
        many,
    }
}

// The lines that the row of this stint keeps, and their number.
fn place_kept(rows: &[Row], number: u32) -> Place
    ensures exact { result ≡ spec.place_in (numbered rows.now number) }
{
    let row = numbered(rows, number);
    let lines = row.lines;
    Place {
        lines,
        many: row.many,
    }
}

// The lines that its row keeps, and their number, where the stint before has this number.
fn kept_place(rows: &[Row], came: Came, before: u32) -> Place
    ensures exact { result ≡ spec.kept_place came (numbered rows.now before) }
{
    match came {
        Came::Arrived(place) => place,
        Came::Waited | Came::Tried => place_kept(rows, before),
        Came::Forked(many) => no_place(many),
        Came::Ended | Came::Over(_) => no_place(0),
    }
}

// How the stint that has ended the run has ended it, where this one has a row.
fn ending_with(came: Came, ending: Ending) -> Ending
    ensures exact { result ≡ spec.ending_with came ending }
{
    match came {
        Came::Over(ending) => ending,
        Came::Arrived(_) | Came::Waited | Came::Tried | Came::Forked(_) | Came::Ended => ending,
    }
}

// How the run has ended, if this stint has ended it.
fn ended_with(came: Came) -> Option<Ending>
    ensures exact { result ≡ spec.ended_with came }
{
    match came {
        Came::Over(ending) => Some(ending),
        Came::Arrived(_) | Came::Waited | Came::Tried | Came::Forked(_) | Came::Ended => None,
    }
}

// Its row.
fn row_for(rows: &[Row], seat: Seat, came: Came, used: u32, said: Said) -> Row
    ensures exact { result ≡ spec.row_for rows.now seat came used said }
{
    let place = kept_place(rows, came, seat.before);
    let lines = place.lines;
    let shown = said.characters;
    Row {
        used,
        born: seat.born,
        fork: seat.fork,
        before: seat.before,
        lines,
        shown,
        branch: seat.branch,
        kind: kind_of(came),
        many: place.many,
        said: said.many,
    }
}

// Adds a stint for which there is room.
#[inline(always)]
pub(crate) fn put(kept: &mut Kept, seat: Seat, came: Came, used: u32, said: Said)
    requires kept { IsTimeline kept.old }
    requires room { kept.old.count < 100000 }
    requires going { is_going (told_in kept.old).stints ≡ true }
    requires seat { SeatFits (told_in kept.old).stints seat came }
    requires came { CameFits came }
    requires said { said.many ≤ 7 }
    ensures exact { told_in kept.new ≡ added (told_in kept.old) seat came used said }
    ensures kept { IsTimeline kept.new }
{
    let row = row_for(&kept.rows, seat, came, used, said);
    kept.ending = ending_with(came, kept.ending);
    kept.ended = ended_with(came);
    kept.rows.push_reserved(row);
    kept.count += 1;
}

// Whether there is no room for a stint more.
pub(crate) fn is_full(kept: &Kept) -> bool
    ensures exact { result ≡ nat_le 100000 kept.now.count }
{
    kept.count >= 100_000
}

// Counts so many stints for which there is no room, of which the last has ended the run so, if it has.
pub(crate) fn count_more(kept: &mut Kept, many: u64, ended: Option<Ending>)
    requires kept { IsTimeline kept.old }
    requires full { 100000 ≤ kept.old.count }
    requires small { kept.old.count + many < 2 ^ 64 }
    ensures exact { told_in kept.new ≡ skipped (told_in kept.old) many (option_map told.meant ended) }
    ensures kept { IsTimeline kept.new }
{
    kept.count += many;
    kept.ended = ended;
}

// Adds a stint, or counts it.
#[inline(always)]
pub(crate) fn put_or_count(kept: &mut Kept, seat: Seat, came: Came, used: u32, said: Said)
    requires kept { IsTimeline kept.old }
    requires going { is_going (told_in kept.old).stints ≡ true }
    requires seat { SeatFits (told_in kept.old).stints seat came }
    requires came { CameFits came }
    requires said { said.many ≤ 7 }
    requires small { kept.old.count < 2 ^ 64 - 1 }
    ensures exact { told_in kept.new ≡ added (told_in kept.old) seat came used said }
    ensures kept { IsTimeline kept.new }
{
    if is_full(kept) {
        return count_more(kept, 1, ended_with(came));
    }
    put(kept, seat, came, used, said)
}
