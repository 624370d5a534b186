//! Values, and what variables hold.

ghost use Rattle.std.specs.Prelude.{◌≡◌, IfOk, IfSome};
ghost use Rattle.edi_meaning.specs.Parts.{part_at, with_part};
ghost use Rattle.edi_walk.specs.Data.{value_of, location_of, spot_of, closure_of, cell_of};

use crate::lists::exchange;
use edi_word::Members;
use std::alloc::{AllocError, Global};

/// A value at run time.
#[derive(Drop)]
pub enum Datum {
    /// A value of an elementary type.
    Ordinal(i16),
    /// The fields of a record or the elements of an array.
    Compound(Vec<Datum>),
    /// The members of a set.
    Members(Members),
}

impl Datum {
    /// The same value again.
    pub fn copy(&self, alloc: Global) -> Result<Datum, AllocError>
        ensures exact { IfOk result (λ copy. value_of copy ≡ value_of self.now) }
    {
        match self {
            Datum::Ordinal(n) => Ok(Datum::Ordinal(*n)),
            Datum::Compound(parts) => {
                let mut copies = Vec::with_capacity(alloc, parts.len())?;
                for part in parts {
                    copies.push(part.copy(alloc)?)?;
                }
                Ok(Datum::Compound(copies))
            }
            Datum::Members(set) => Ok(Datum::Members(*set)),
        }
    }

    /// The part that a path leads to, where there is one.
    pub fn part(&self, path: &[u32]) -> Option<&Datum>
        ensures exact { IfSome result (λ part. value_of part.now ≡ part_at (value_of self.now) path.now) }
    {
        let [first, rest @ ..] = path else {
            return Some(self);
        };
        let Datum::Compound(parts) = self else {
            return None;
        };
        parts.get(*first as usize)?.part(rest)
    }

    /// The value with another one in the place of the part that a path leads to, where there is one.
    pub fn replaced(self, path: &[u32], value: Datum) -> Option<Datum>
        ensures exact { IfSome result (λ whole. value_of whole ≡ with_part (value_of self) path.now (value_of value)) }
    {
        let [first, rest @ ..] = path else {
            return Some(value);
        };
        let Datum::Compound(parts) = self else {
            return None;
        };
        let index = *first as usize;
        if index >= parts.len() {
            return None;
        }
        let mut parts = parts;
        let part = exchange(&mut parts, index, Datum::Ordinal(0));
        let part = part.replaced(rest, value)?;
        let _filler = exchange(&mut parts, index, part);
        Some(Datum::Compound(parts))
    }
}

/// An instance, by its process and its depth in the list of that process.
#[derive(Drop)]
pub struct SpotAt {
    pub name: Vec<u64>,
    pub depth: usize,
}

impl SpotAt {
    pub fn new(alloc: Global, name: &[u64], depth: usize) -> Result<SpotAt, AllocError>
        ensures exact { IfOk result (λ spot. spot_of spot ≡ (name.now, depth)) }
    {
        Ok(SpotAt {
            name: Vec::from_slice(alloc, name)?,
            depth,
        })
    }

    pub fn copy(&self, alloc: Global) -> Result<SpotAt, AllocError>
        ensures exact { IfOk result (λ copy. spot_of copy ≡ spot_of self.now) }
    {
        SpotAt::new(alloc, &self.name, self.depth)
    }
}

/// A variable, or a part of it, by the numbers of the parts that lead there.
#[derive(Drop)]
pub struct LocationAt {
    pub spot: SpotAt,
    pub variable: u32,
    pub path: Vec<u32>,
}

impl LocationAt {
    pub fn copy(&self, alloc: Global) -> Result<LocationAt, AllocError>
        ensures exact { IfOk result (λ copy. location_of copy ≡ location_of self.now) }
    {
        Ok(LocationAt {
            spot: self.spot.copy(alloc)?,
            variable: self.variable,
            path: Vec::from_slice(alloc, &self.path)?,
        })
    }
}

/// A variable or a part of it, with its type.
#[derive(Drop)]
pub struct Target {
    pub at: LocationAt,
    pub of: u32,
}

/// A procedure: a call of the system, or a block with the instance that its surroundings mean.
#[derive(Drop)]
pub enum Closed {
    System(u8),
    Block(u32, SpotAt),
}

impl Closed {
    pub fn copy(&self, alloc: Global) -> Result<Closed, AllocError>
        ensures exact { IfOk result (λ copy. closure_of copy ≡ closure_of self.now) }
    {
        match self {
            Closed::System(number) => Ok(Closed::System(*number)),
            Closed::Block(number, parent) => Ok(Closed::Block(*number, parent.copy(alloc)?)),
        }
    }
}

/// What a variable holds.
#[derive(Drop)]
pub enum Held {
    Value(Datum),
    /// For a `var` parameter.
    Location(LocationAt),
    /// For a procedure parameter.
    Procedure(Closed),
}
