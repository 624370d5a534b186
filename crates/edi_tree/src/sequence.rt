//! The lists in a tree.

ghost use Rattle.std.specs.Prelude.{
  ◌≡◌,
  [],
  ◌∷◌,
  ◌++◌,
  length,
  slice_get,
  option_copied,
  is_ok,
  if◌then◌else◌,
  ◌==◌,
};
ghost use Rattle.edi_tree.specs.Sequences.{items_of};

use std::alloc::{AllocError, Global};

/// Any number of parts, in the order of the text.
#[derive(Drop)]
pub struct Sequence<T> {
    items: Vec<T>,
}

impl<T: Drop> Sequence<T> {
    /// No parts. It takes no memory.
    pub fn new(alloc: Global) -> Sequence<T>
        ensures exact { items_of result ≡ [] }
    {
        Sequence {
            items: Vec::new(alloc),
        }
    }

    /// The parts of a vector. It takes no memory.
    pub fn from_vec(items: Vec<T>) -> Sequence<T>
        ensures exact { items_of result ≡ items.items }
    {
        Sequence { items }
    }

    /// Puts a part at the end. Where memory is wanting the list stays as it was, and the part is given up.
    pub fn push(&mut self, alloc: Global, item: T) -> Result<(), AllocError>
        ensures exact { items_of self.new
            ≡ (if is_ok result then items_of self.old ++ item ∷ [] else items_of self.old) }
    {
        let _ = alloc;
        self.items.push(item)?;
        Ok(())
    }

    /// The number of parts.
    pub fn len(&self) -> usize
        ensures exact { result ≡ length (items_of self.now) }
    {
        self.items.len()
    }

    /// Whether there is no part.
    pub fn is_empty(&self) -> bool
        ensures exact { result ≡ (length (items_of self.now) == 0) }
    {
        self.items.is_empty()
    }

    /// The part at place `i`, counted from 0, or `None` where there is no such place.
    pub fn get(&self, i: usize) -> Option<&T>
        ensures exact { option_copied result ≡ slice_get (items_of self.now) i }
    {
        self.items.get(i)
    }

    /// The parts in their order.
    pub fn items(&self) -> &[T]
        ensures exact { result.now ≡ items_of self.now }
    {
        &self.items
    }

    /// The parts in their order, as a vector. It takes no memory.
    pub fn into_vec(self) -> Vec<T>
        ensures exact { result.items ≡ items_of self }
    {
        self.items
    }
}
