//! The instances of one process, with a running count of the words that they need.

ghost use Rattle.std.specs.Prelude.{◌≡◌};
ghost use Rattle.edi_walk.specs.Counted.{words_needed};

use crate::data::{Datum, LocationAt};
use crate::memory::{Activation, put_in};
use std::alloc::{AllocError, Global};

/// The instances of one process, the oldest first, with the words that they need together.
#[derive(Drop)]
pub struct Entry {
    pub name: Vec<u64>,
    pub instances: Vec<Activation>,
    pub needed: u64,
    pub ghost counted: { needed ≡ words_needed instances.items },
}

impl Entry {
    ghost use Rattle.std.specs.Prelude.{◌++◌, ◌∷◌, ◌-◌, [], length, map, take, true, IfOk};
    ghost use Rattle.edi_walk.specs.Data.{location_of, value_of};
    ghost use Rattle.edi_walk.specs.Memory.{instance_of, instances_put};

    /// A process with this instance alone.
    pub fn new(alloc: Global, name: &[u64], instance: Activation) -> Result<Entry, AllocError>
        ensures name { IfOk result (λ entry. entry.name.items ≡ name.now) }
        ensures exact { IfOk result (λ entry. entry.instances.items ≡ instance ∷ []) }
    {
        let needed = u64::from(instance.need);
        let mut instances = Vec::new(alloc);
        instances.push(instance)?;
        Ok(Entry {
            name: Vec::from_slice(alloc, name)?,
            instances,
            needed,
        })
    }

    /// The process has this instance alone, in the place of those that it had.
    pub fn begin(&mut self, alloc: Global, instance: Activation) -> Result<(), AllocError>
        ensures name { self.new.name ≡ self.old.name }
        ensures exact { IfOk result (λ _. self.new.instances.items ≡ instance ∷ []) }
    {
        let needed = u64::from(instance.need);
        let mut instances = Vec::new(alloc);
        instances.push(instance)?;
        self.instances = instances;
        self.needed = needed;
        Ok(())
    }

    /// A new instance, the newest.
    pub fn push(&mut self, instance: Activation) -> Result<(), AllocError>
        ensures name { self.new.name ≡ self.old.name }
        ensures exact { IfOk result (λ _. self.new.instances.items ≡ self.old.instances.items ++ instance ∷ []) }
    {
        let Some(needed) = self.needed.checked_add(u64::from(instance.need)) else {
            return Err(AllocError);
        };
        self.instances.push(instance)?;
        self.needed = needed;
        Ok(())
    }

    /// The newest instance goes.
    pub fn pop(&mut self)
        ensures name { self.new.name ≡ self.old.name }
        ensures exact { self.new.instances.items ≡ take (length self.old.instances.items - 1) self.old.instances.items }
    {
        if let Some(instance) = self.instances.pop() {
            self.needed = self.needed.saturating_sub(u64::from(instance.need));
        }
    }

    /// Puts a value at a location of its instances. The answer is false where there is none.
    pub fn put(&mut self, location: &LocationAt, value: Datum) -> bool
        ensures name { self.new.name ≡ self.old.name }
        ensures exact { result ≡ true → map instance_of self.new.instances.items
            ≡ instances_put (map instance_of self.old.instances.items) (location_of location.now) (value_of value) }
    {
        put_in(&mut self.instances, location, value)
    }

    /// The words that are left of a segment of this size.
    pub fn room(&self, size: u32) -> u32
        ensures exact { result ≡ size - words_needed self.now.instances.items }
    {
        u64::from(size).saturating_sub(self.needed) as u32
    }
}
