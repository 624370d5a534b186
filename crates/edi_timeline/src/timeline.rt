//! A timeline.

ghost use Rattle.std.specs.Option.{option_map};
ghost use Rattle.std.specs.Prelude.{◌≡◌, ◌+◌, ◌≤◌, ◌<◌, ◌-◌, ◌^◌, [], IfOk, None, true, nat_le};
ghost use Rattle.edi_timeline.specs.Adding.{CameFits, SeatFits, added, is_going, skipped};
ghost use Rattle.edi_timeline.specs.Text as text;
ghost use Rattle.edi_timeline.specs.Picture as picture;
ghost use Rattle.edi_timeline.specs.Told.{meant};
ghost use Rattle.edi_timeline.specs.Timelines.{told_in, IsTimeline};

use crate::adding::{count_more, is_full, put_or_count};
use crate::entry::{Came, Said, Seat};
use crate::picture::picture_of;
use crate::rows::Row;
use crate::text::text_of;
use edi_kernel::Ending;
use std::alloc::{AllocError, Global};
use std::marker::Model;

/// The stints of which more than their number is kept.
const MOST_ROWS: usize = 100_000;

/// What is kept of a run.
#[derive(Drop)]
pub(crate) struct Kept {
    pub(crate) rows: Vec<Row>,
    /// The number of its stints.
    pub(crate) count: u64,
    /// How the stint that has ended the run has ended it, if there is a row of it.
    pub(crate) ending: Ending,
    /// How the run has ended, if it has.
    pub(crate) ended: Option<Ending>,
}

// The text of what is kept.
fn text_in(alloc: Global, kept: &Kept) -> Result<Vec<u8>, AllocError>
    requires kept { IsTimeline kept.now }
    ensures exact { IfOk result (λ bytes. bytes.items ≡ text.text_of (told_in kept.now).count (told_in kept.now).ending (told_in kept.now).stints) }
{
    text_of(alloc, &kept.rows, kept.count, kept.ending, kept.ended)
}

// The picture of what is kept.
fn picture_in(alloc: Global, kept: &Kept) -> Result<Vec<u8>, AllocError>
    requires kept { IsTimeline kept.now }
    ensures exact { IfOk result (λ bytes. bytes.items ≡ picture.picture_of (told_in kept.now).count (told_in kept.now).ending (told_in kept.now).stints) }
{
    picture_of(alloc, &kept.rows, kept.count, kept.ending, kept.ended)
}

/// A timeline: the first 100,000 stints of a run, and how many there were. All its memory, 4 MB, is taken at the start.
///
/// Contracts see the stints, each with the first seven characters that were shown in it, their number, and how the run has ended, if it has.
#[derive(Drop)]
pub struct Timeline {
    kept: Kept,
}

impl Model for Timeline {
    ghost use Rattle.edi_timeline.specs.Timelines.{Told, told_in, IsTimeline};

    ghost Value = { Told };

    ghost view = { λ t. told_in t.kept };

    ghost invariant = { λ t. IsTimeline t.kept };
}

impl Timeline {
    /// The timeline of a run that has not begun. The only error is want of memory.
    pub fn new(alloc: Global) -> Result<Timeline, AllocError>
        ensures empty { IfOk result (λ timeline. timeline ≡ record { stints = []; count = 0; ending = None }) }
    {
        Ok(Timeline {
            kept: Kept {
                rows: Vec::with_capacity(alloc, MOST_ROWS)?,
                count: 0,
                ending: Ending::Done,
                ended: None,
            },
        })
    }

    /// The number of stints.
    pub fn count(&self) -> u64
        ensures { result ≡ self.now.count }
    {
        self.kept.count
    }

    /// Whether further stints are only counted.
    pub fn is_full(&self) -> bool
        ensures { result ≡ nat_le 100000 self.now.count }
    {
        is_full(&self.kept)
    }

    /// Counts so many stints more, of a run of which no further stints are kept. The last has ended the run so, if it has.
    pub fn skip(&mut self, many: u64, ended: Option<Ending>)
        requires full { 100000 ≤ self.old.count }
        requires small { self.old.count + many < 2 ^ 64 }
        ensures exact { self.new ≡ skipped self.old many (option_map meant ended) }
    {
        count_more(&mut self.kept, many, ended);
    }

    /// Adds a stint that ended when so many turns were used in all. Where 100,000 are kept already, it is only counted. It takes no memory.
    ///
    /// By `laws::timelines_grow` a timeline that tells the stints of a run then tells them and this one.
    #[inline(always)]
    pub fn add(&mut self, seat: Seat, came: Came, used: u32, said: Said)
        requires going { is_going self.old.stints ≡ true }
        requires seat { SeatFits self.old.stints seat came }
        requires came { CameFits came }
        requires said { said.many ≤ 7 }
        requires small { self.old.count < 2 ^ 64 - 1 }
        ensures exact { self.new ≡ added self.old seat came used said }
    {
        put_or_count(&mut self.kept, seat, came, used, said);
    }

    /// Its text: a line for each of the stints. Where it has the first 100,000 of them, one more line says how many there were, and how the run has ended.
    /// The only error is want of memory.
    pub fn text(&self, alloc: Global) -> Result<Vec<u8>, AllocError>
        ensures exact { IfOk result (λ bytes. bytes.items ≡ text.text_of self.now.count self.now.ending self.now.stints) }
    {
        text_in(alloc, &self.kept)
    }

    /// Its picture, of the first 1,000 stints, as SVG. The only error is want of memory.
    pub fn picture(&self, alloc: Global) -> Result<Vec<u8>, AllocError>
        ensures exact { IfOk result (λ bytes. bytes.items ≡ picture.picture_of self.now.count self.now.ending self.now.stints) }
    {
        picture_in(alloc, &self.kept)
    }
}
