//! The places of each name in a list.

ghost use Rattle.std.specs.Prelude.{◌≡◌, ◌++◌, ◌∷◌, [], ℕ, List, IsTrue, OnErr, OnOk, if◌then◌else◌, is_some};
ghost use Rattle.std.specs.BTreeMap.{get_by};
ghost use Rattle.std.specs.Option.{option_map_or};
ghost use Rattle.std.specs.Cmp.Lexicographic.{slice_cmp};
ghost use Rattle.std.specs.Ordering.{nat_cmp};
ghost use Rattle.std.specs.Str.{bytes_eq};
ghost use Rattle.edi_static.specs.Waiting.{listed};

use std::alloc::{AllocError, Global};
use std::collections::BTreeMap;

/// The places of each name, in their order. Those of a name are found in logarithmic time, however many names there are.
#[derive(Drop)]
pub(crate) struct Places {
    lists: BTreeMap<Vec<u8>, Vec<usize>>,
}

impl Places {
    /// No places.
    pub(crate) fn new(alloc: Global) -> Self
        ensures none { (q : List ℕ) → listed result q ≡ [] }
    {
        Places {
            lists: BTreeMap::new(alloc),
        }
    }

    /// The places of the name.
    pub(crate) fn of(&self, name: &[u8]) -> &[usize]
        ensures exact { result.now ≡ listed self.now name.now }
    {
        match self.lists.get(name) {
            Some(list) => list.as_slice(),
            None => &[],
        }
    }

    /// Makes a list for the name, if it has none.
    fn make_list(&mut self, alloc: Global, name: &[u8]) -> Result<(), AllocError>
        ensures made { OnOk result (IsTrue (is_some (get_by (λ k. slice_cmp nat_cmp name.now k.items) self.new.lists))) }
        ensures same { (q : List ℕ) → listed self.new q ≡ listed self.old q }
    {
        if !self.lists.contains_key(name) {
            let spelling = name.to_vec(alloc)?;
            self.lists.insert(spelling, Vec::new(alloc))?;
        }
        Ok(())
    }

    /// Puts a place behind the others of the name.
    pub(crate) fn add(&mut self, alloc: Global, name: &[u8], place: usize) -> Result<(), AllocError>
        ensures ok { OnOk result ((q : List ℕ) → listed self.new q
            ≡ (if bytes_eq name.now q then listed self.old q ++ place ∷ [] else listed self.old q)) }
        ensures err { OnErr result ((q : List ℕ) → listed self.new q ≡ listed self.old q) }
    {
        self.make_list(alloc, name)?;
        let Some(list) = self.lists.get_mut(name) else {
            unreachable!()
        };
        list.push(place)?;
        Ok(())
    }

    /// Takes the places of the name out, if there are any.
    pub(crate) fn take(&mut self, name: &[u8]) -> Option<Vec<usize>>
        ensures taken { option_map_or (λ places. places.items) result [] ≡ listed self.old name.now }
        ensures left { (q : List ℕ) → listed self.new q ≡ (if bytes_eq name.now q then [] else listed self.old q) }
    {
        self.lists.remove(name)
    }
}
