//! The lists of which types, trees and units are made.

ghost use Rattle.std.specs.Prelude.{
  ◌≡◌,
  [],
  ◌∷◌,
  ◌++◌,
  length,
  slice_get,
  option_copied,
  is_ok,
  if◌then◌else◌,
  ◌==◌,
};
ghost use Rattle.edi_unit.specs.Lists.{list_items};

use std::alloc::{AllocError, Global};

/// A list of items, which keeps their order.
#[derive(Drop)]
pub struct List<T> {
    items: Vec<T>,
}

// What only reads asks for no `Drop` of the items: whoever reads a tree need not prove how its parts are dropped.
impl<T> List<T> {
    /// The number of items.
    pub fn len(&self) -> usize
        ensures exact { result ≡ length (list_items self.now) }
    {
        self.items.len()
    }

    /// Whether there is no item.
    pub fn is_empty(&self) -> bool
        ensures exact { result ≡ (length (list_items self.now) == 0) }
    {
        self.items.is_empty()
    }

    /// The item at index `i`, counted from 0, or `None` where there is none.
    pub fn get(&self, i: usize) -> Option<&T>
        ensures exact { option_copied result ≡ slice_get (list_items self.now) i }
    {
        self.items.get(i)
    }

    /// The items in their order.
    pub fn items(&self) -> &[T]
        ensures exact { result.now ≡ list_items self.now }
    {
        &self.items
    }
}

impl<T: Drop> List<T> {
    /// The empty list. It takes no memory.
    pub fn new(alloc: Global) -> List<T>
        ensures exact { list_items result ≡ [] }
    {
        List {
            items: Vec::new(alloc),
        }
    }

    /// The list of a vector's items. It takes no memory.
    pub fn from_vec(items: Vec<T>) -> List<T>
        ensures exact { list_items result ≡ items.items }
    {
        List { items }
    }

    /// Puts an item at the end. Where memory is wanting the list stays as it was, and the item is given up.
    pub fn push(&mut self, alloc: Global, item: T) -> Result<(), AllocError>
        ensures exact { list_items self.new
            ≡ (if is_ok result then list_items self.old ++ item ∷ [] else list_items self.old) }
    {
        let _ = alloc;
        self.items.push(item)?;
        Ok(())
    }

    /// The items in their order, as a vector. It takes no memory.
    pub fn into_vec(self) -> Vec<T>
        ensures exact { result.items ≡ list_items self }
    {
        self.items
    }
}
