//! The variables of all processes.

ghost use Rattle.std.specs.Prelude.{◌≡◌, ◌<◌, ◌++◌, ◌∷◌, [], true, length, map, slice_get, IfOk, IfSome, None, Some};
ghost use Rattle.edi_calls.specs.Names.{find, same, with_at, without};
ghost use Rattle.edi_meaning.specs.Parts.{with_part};
ghost use Rattle.edi_meaning.specs.Store.{cell, frames, get, grown, instances, now, put, reached, room, shape, shrunk, value_in};
ghost use Rattle.edi_walk.specs.Counted.{words_needed};
ghost use Rattle.edi_walk.specs.Data.{cell_of, location_of, spot_of, value_of};
ghost use Rattle.edi_walk.specs.Memory.{cells_put, instance_of, instances_put, StandsAt, store_of};

use crate::data::{Datum, Held, LocationAt, SpotAt};
use crate::entry::Entry;
use crate::lists::exchange;
use std::alloc::{AllocError, Global};

/// An instance of a block: the words that it needs, its static parent, and what its variables hold.
#[derive(Drop)]
pub struct Activation {
    pub block: u32,
    pub need: u32,
    pub parent: SpotAt,
    pub cells: Vec<Held>,
}

/// The variables of all processes.
#[derive(Drop)]
pub struct Memory {
    pub entries: Vec<Entry>,
}

impl Memory {
    /// No process has a variable.
    pub fn new(alloc: Global) -> Memory
        ensures exact { store_of result ≡ [] }
    {
        Memory {
            entries: Vec::new(alloc),
        }
    }

    /// The instances of a process, where it has an entry.
    pub fn instances(&self, name: &[u64]) -> Option<&[Activation]>
        ensures exact { IfSome result (λ is. map instance_of is.now ≡ instances (store_of self.now) name.now) }
        ensures none { result ≡ None → instances (store_of self.now) name.now ≡ [] }
    {
        match self.place(name) {
            Some(place) => Some(&self.entries[place].instances),
            None => None,
        }
    }

    /// The place of the first entry of a process.
    fn place(&self, name: &[u64]) -> Option<usize>
        ensures exact { IfSome result (λ i. StandsAt name.now i self.now.entries.items) }
        ensures inside { IfSome result (λ i. i < length self.now.entries.items) }
        ensures none { result ≡ None → find (store_of self.now) name.now ≡ None }
    {
        let mut place = 0;
        for entry in &self.entries {
            if is_same(name, &entry.name) {
                return Some(place);
            }
            place += 1;
        }
        None
    }

    /// The words that are left of a segment of this size.
    pub fn room(&self, name: &[u64], size: u32) -> u32
        ensures exact { result ≡ room size (shape (store_of self.now) name.now) }
    {
        match self.place(name) {
            Some(place) => self.entries[place].room(size),
            None => size,
        }
    }

    /// The depth of the newest instance of a process; 0 where it has none.
    pub fn newest(&self, name: &[u64]) -> usize
        ensures exact { (name.now, result) ≡ now (shape (store_of self.now)) name.now }
    {
        match self.instances(name) {
            Some(instances) => instances.len().saturating_sub(1),
            None => 0,
        }
    }

    /// The instance that so many static parents lead to from the newest one of a process.
    pub fn reached<'m>(&'m self, name: &'m [u64], levels: u32) -> Option<(&'m [u64], usize)>
        ensures exact { IfSome result (λ spot. (spot.0.now, spot.1) ≡ reached (shape (store_of self.now)) levels (now (shape (store_of self.now)) name.now)) }
    {
        let (mut process, mut depth) = (name, self.newest(name));
        for _level in 0..levels {
            let instance = self.instance(process, depth)?;
            process = &instance.parent.name;
            depth = instance.parent.depth;
        }
        Some((process, depth))
    }

    /// The instance of a process at a depth.
    pub fn instance(&self, name: &[u64], depth: usize) -> Option<&Activation>
        ensures exact { IfSome result (λ i. slice_get (instances (store_of self.now) name.now) depth ≡ Some (instance_of i.now)) }
    {
        let instances = self.instances(name)?;
        let instance = instances.get(depth)?;
        Some(instance)
    }

    /// What a variable of an instance holds, where there is one.
    pub fn cell(&self, name: &[u64], depth: usize, variable: u32) -> Option<&Held>
        ensures exact { IfSome result (λ x. cell_of x.now ≡ cell (store_of self.now) (name.now, depth) variable) }
    {
        let instance = self.instance(name, depth)?;
        let cell = instance.cells.get(variable as usize)?;
        Some(cell)
    }

    /// The value at a location, where there is one.
    pub fn get(&self, location: &LocationAt) -> Option<&Datum>
        ensures exact { IfSome result (λ x. value_of x.now ≡ get (store_of self.now) (location_of location.now)) }
    {
        match self.cell(&location.spot.name, location.spot.depth, location.variable)? {
            Held::Value(value) => value.part(&location.path),
            _ => None,
        }
    }

    /// Puts a value at a location. The answer is false where there is none: then nothing is said of the variables.
    pub fn put(&mut self, location: &LocationAt, value: Datum) -> bool
        ensures exact { result ≡ true → store_of self.new ≡ put (store_of self.old) (location_of location.now) (value_of value) }
    {
        let Some(place) = self.place(&location.spot.name) else {
            return false;
        };
        self.entries[place].put(location, value)
    }

    /// A new instance, the newest of its process, which has some already.
    pub fn grow(&mut self, name: &[u64], instance: Activation) -> Result<(), AllocError>
        ensures exact { IfOk result (λ _. store_of self.new ≡ grown name.now (instance_of instance) (store_of self.old)) }
    {
        let Some(place) = self.place(name) else {
            return Err(AllocError);
        };
        self.entries[place].push(instance)
    }

    /// The end of the newest instance of a process. The answer is false where the process has none: then nothing is said.
    pub fn shrink(&mut self, name: &[u64]) -> bool
        ensures exact { result ≡ true → store_of self.new ≡ shrunk name.now (store_of self.old) }
    {
        let Some(place) = self.place(name) else {
            return false;
        };
        self.entries[place].pop();
        true
    }

    /// A process has this instance alone, in the place of those that it had, or at the end.
    pub fn begin(
        &mut self,
        alloc: Global,
        name: &[u64],
        instance: Activation,
    ) -> Result<(), AllocError>
        ensures exact { IfOk result (λ _. store_of self.new ≡ with_at (store_of self.old) name.now (instance_of instance ∷ [])) }
    {
        match self.place(name) {
            Some(place) => self.entries[place].begin(alloc, instance),
            None => self.begin_new(alloc, name, instance),
        }
    }

    /// A process that has no entry yet.
    fn begin_new(
        &mut self,
        alloc: Global,
        name: &[u64],
        instance: Activation,
    ) -> Result<(), AllocError>
        ensures exact { IfOk result (λ _. store_of self.new ≡ store_of self.old ++ (name.now, instance_of instance ∷ []) ∷ []) }
    {
        let entry = Entry::new(alloc, name, instance)?;
        self.entries.push(entry)?;
        Ok(())
    }

    /// The process goes, with its instances.
    pub fn end(&mut self, name: &[u64])
        ensures exact { store_of self.new ≡ without (store_of self.old) name.now }
    {
        while let Some(place) = self.place(name) {
            let _gone = self.entries.remove(place);
        }
    }
}

/// Puts a value at a location of these instances.
pub fn put_in(instances: &mut Vec<Activation>, location: &LocationAt, value: Datum) -> bool
    ensures exact { result ≡ true → map instance_of instances.new.items
        ≡ instances_put (map instance_of instances.old.items) (location_of location.now) (value_of value) }
    ensures needed { words_needed instances.new.items ≡ words_needed instances.old.items }
{
    let depth = location.spot.depth;
    if depth >= instances.len() {
        return false;
    }
    put_cell(&mut instances[depth].cells, location, value)
}

/// Puts a value at a location of these variables.
fn put_cell(cells: &mut Vec<Held>, location: &LocationAt, value: Datum) -> bool
    ensures exact { result ≡ true → map cell_of cells.new.items
        ≡ cells_put (map cell_of cells.old.items) (location_of location.now) (value_of value) }
{
    let variable = location.variable as usize;
    if variable >= cells.len() {
        return false;
    }
    let held = exchange(cells, variable, Held::Value(Datum::Ordinal(0)));
    let Some(whole) = replaced(held, &location.path, value) else {
        return false;
    };
    let _filler = exchange(cells, variable, Held::Value(whole));
    true
}

/// The value that is held, where it is one, with another in the place of the part that a path leads to.
fn replaced(held: Held, path: &[u32], value: Datum) -> Option<Datum>
    ensures exact { IfSome result (λ whole. value_of whole ≡ with_part (value_in (cell_of held)) path.now (value_of value)) }
{
    match held {
        Held::Value(whole) => whole.replaced(path, value),
        Held::Location(_) => None,
        Held::Procedure(_) => None,
    }
}

/// Whether two names are the same.
pub fn is_same(one: &[u64], other: &[u64]) -> bool
    ensures exact { result ≡ same one.now other.now }
{
    one == other
}
