//! The declarations of each spelling.

ghost use Rattle.std.specs.Prelude.{◌≡◌, ◌<◌, nat_lt, ◌≤◌, ◌==◌, List, ℕ, [], length, OnOk, OnErr, IsTrue, is_some, insert, remove, if◌then◌else◌};
ghost use Rattle.std.specs.List.{list_any, prefix_len};
ghost use Rattle.std.specs.Ordering.{nat_cmp};
ghost use Rattle.std.specs.Cmp.Lexicographic.{slice_cmp};
ghost use Rattle.std.specs.BTreeMap.{get_by};
ghost use Rattle.std.specs.Str.{bytes_eq};
ghost use Rattle.edi_scope.specs.Listed.{listed};

use crate::entity::Entity;
use std::alloc::{AllocError, Global};
use std::collections::BTreeMap;

/// One declaration of a name: how many scopes stand round its scope, and what the name means there.
#[derive(Clone, Copy)]
pub(crate) struct Declaration {
    pub(crate) depth: usize,
    pub(crate) entity: Entity,
}

/// For each spelling the list of its declarations, the innermost last. A spelling is looked up in
/// logarithmic time, however many are declared.
#[derive(Drop)]
pub(crate) struct Declarations {
    lists: BTreeMap<Vec<u8>, Vec<Declaration>>,
}

impl Declarations {
    /// No declarations.
    pub(crate) fn new(alloc: Global) -> Self
        ensures none { (q : List ℕ) → listed result q ≡ [] }
    {
        Declarations {
            lists: BTreeMap::new(alloc),
        }
    }

    /// The declarations of the name.
    pub(crate) fn of(&self, name: &[u8]) -> &[Declaration]
        ensures exact { result.now ≡ listed self.now name.now }
    {
        match self.lists.get(name) {
            Some(list) => list.as_slice(),
            None => &[],
        }
    }

    /// Whether one of the name's declarations has this depth.
    pub(crate) fn is_at(&self, name: &[u8], depth: usize) -> bool
        ensures exact { result ≡ list_any (λ d. d.depth == depth) (listed self.now name.now) }
    {
        self.of(name).iter().any(|d| d.depth == depth)
    }

    /// How many of the name's declarations, from the outermost on, are less deep than this.
    pub(crate) fn further_out(&self, name: &[u8], depth: usize) -> usize
        ensures exact { result ≡ prefix_len (λ d. nat_lt d.depth depth) (listed self.now name.now) }
    {
        self.of(name).iter().take_while(|d| d.depth < depth).count()
    }

    /// Makes a list for the name, if it has none.
    fn make_list(&mut self, alloc: Global, name: &[u8]) -> Result<(), AllocError>
        ensures made { OnOk result (IsTrue (is_some (get_by (λ k. slice_cmp nat_cmp name.now k.items) self.new.lists))) }
        ensures same { (q : List ℕ) → listed self.new q ≡ listed self.old q }
    {
        if !self.lists.contains_key(name) {
            let spelling = name.to_vec(alloc)?;
            self.lists.insert(spelling, Vec::new(alloc))?;
        }
        Ok(())
    }

    /// Puts a declaration of the name at index `at` of its list.
    pub(crate) fn insert(
        &mut self,
        alloc: Global,
        name: &[u8],
        at: usize,
        declaration: Declaration,
    ) -> Result<(), AllocError>
        requires { at ≤ length (listed self.old name.now) }
        ensures ok { OnOk result ((q : List ℕ) → listed self.new q
            ≡ (if bytes_eq name.now q then insert (listed self.old q) at declaration else listed self.old q)) }
        ensures err { OnErr result ((q : List ℕ) → listed self.new q ≡ listed self.old q) }
    {
        self.make_list(alloc, name)?;
        let Some(list) = self.lists.get_mut(name) else {
            unreachable!()
        };
        list.insert(at, declaration)?;
        Ok(())
    }

    /// Takes the declaration at index `at` out of the name's list.
    pub(crate) fn remove(&mut self, name: &[u8], at: usize)
        requires { at < length (listed self.old name.now) }
        ensures exact { (q : List ℕ) → listed self.new q ≡ (if bytes_eq name.now q then remove (listed self.old q) at else listed self.old q) }
    {
        let Some(list) = self.lists.get_mut(name) else {
            unreachable!()
        };
        let _removed = list.remove(at);
    }
}
