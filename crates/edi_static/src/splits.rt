//! The procedures of a scope that are begun: a list in the order of the text, in which each is found by its name.

ghost use Rattle.std.specs.Prelude.{◌≡◌, ◌++◌, ◌∷◌, [], OnErr, OnOk, option_map};
ghost use Rattle.edi_static.specs.Declarations.{begun_named, without_begun};
ghost use Rattle.edi_static.specs.Waiting as spec;

use crate::places::Places;
use edi_tree::Name;
use std::alloc::{AllocError, Global};
use std::marker::Model;

/// A procedure whose `pre` has stood, and whether its `post` is still to come.
#[derive(Drop)]
struct Row {
    name: Name,
    block: u32,
    waits: bool,
}

/// The procedures of a scope whose `pre` has stood and whose `post` is still to come.
///
/// Contracts see their list, in the order of the text. A row stays when its procedure is completed, and waits no longer.
#[derive(Drop)]
pub struct Splits {
    places: Places,
    rows: Vec<Row>,
}

impl Model for Splits {
    ghost use Rattle.std.specs.Prelude.{List};
    ghost use Rattle.edi_static.specs.Environment.{Begun};
    ghost use Rattle.edi_static.specs.Waiting.{waiting, ArePlaced};

    ghost Value = { List Begun };

    ghost view = { λ s. waiting s.rows.items };

    ghost invariant = { λ s. ArePlaced s.places s.rows.items };
}

/// The line of the first row that waits.
fn first_line(rows: &[Row]) -> Option<u16>
    ensures exact { result ≡ option_map (λ b. b.name.line) (spec.first_of (spec.waiting rows.now)) }
{
    for row in rows {
        if row.waits {
            return Some(row.name.line);
        }
    }
    None
}

/// The row at this place waits no longer.
fn end(rows: &mut Vec<Row>, place: usize)
    ensures exact { rows.new.items ≡ spec.ended_at place rows.old.items }
{
    if place < rows.len() {
        rows[place].waits = false;
    }
}

/// The rows at these places wait no longer.
fn end_all(rows: &mut Vec<Row>, places: &[usize])
    ensures exact { rows.new.items ≡ spec.ended_all places.now rows.old.items }
{
    for place in places {
        end(rows, *place);
    }
}

/// The block of the row at this place, if there is one.
fn block_at(rows: &[Row], place: usize) -> Option<u32>
    ensures exact { result ≡ spec.block_at rows.now place }
{
    match rows.get(place) {
        Some(row) => Some(row.block),
        None => None,
    }
}

impl Splits {
    /// None is begun.
    pub fn new(alloc: Global) -> Self
        ensures none { result ≡ [] }
    {
        Splits {
            places: Places::new(alloc),
            rows: Vec::new(alloc),
        }
    }

    /// The block of the procedure of this name, if it is begun.
    pub fn block_of(&self, name: &[u8]) -> Option<u32>
        ensures exact { result ≡ option_map (λ b. b.block) (begun_named self.now name.now) }
    {
        match self.places.of(name).first() {
            Some(place) => block_at(self.rows.as_slice(), *place),
            None => None,
        }
    }

    /// The line of the first that is begun.
    pub fn first_line(&self) -> Option<u16>
        ensures exact { result ≡ option_map (λ b. b.name.line) (spec.first_of self.now) }
    {
        first_line(self.rows.as_slice())
    }

    /// Puts a procedure behind the others.
    pub fn push(&mut self, alloc: Global, name: Name, block: u32) -> Result<(), AllocError>
        ensures ok { OnOk result (self.new ≡ self.old ++ record { name = name; block = block } ∷ []) }
        ensures err { OnErr result (self.new ≡ self.old) }
    {
        self.rows.reserve(1)?;
        self.places
            .add(alloc, name.text.as_slice(), self.rows.len())?;
        let Ok(()) = self.rows.push(Row {
            name,
            block,
            waits: true,
        })
        else {
            unreachable!()
        };
        Ok(())
    }

    /// The procedure of this name no longer waits.
    pub fn complete(&mut self, name: &[u8])
        ensures exact { self.new ≡ without_begun name.now self.old }
    {
        let Some(places) = self.places.take(name) else {
            return;
        };
        end_all(&mut self.rows, places.as_slice());
    }
}
