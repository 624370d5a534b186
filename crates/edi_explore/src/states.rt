//! The states that a search keeps.

ghost use Rattle.std.specs.Prelude.{◌≡◌, ◌<◌, ◌≤◌, ◌+◌, ◌-◌, ◌++◌, [], None, Some, true, false, length, slice_get, IfOk, IfSome, OnOk};
ghost use Rattle.edi_kernel.specs.declared.kept.Kept.{Kept};
ghost use Rattle.edi_kernel.specs.Kernel.{IsKernel};
ghost use Rattle.edi_explore.specs.declared.offline.Place.{Place};
ghost use Rattle.edi_kernel.specs.Table.{ready_slots};
ghost use Rattle.edi_explore.specs.Links.{AddsLink};
ghost use Rattle.edi_explore.specs.Shown.{asks_of};
ghost use Rattle.edi_explore.specs.Tables.{shown_at};
ghost use Rattle.edi_explore.specs.States.{
  AddsParts,
  AreNone,
  AreStates,
  IsAdded,
  IsAddedFrom,
  IsKeyOf,
  IsSameKept,
  IsSamePlace,
  MayComeFrom,
  PutsStateBack,
  end_of,
  slots_of,
  start_of,
};

use crate::back::{line_all_up, put_all_back};
use crate::ends::Limits;
use crate::offline::{Offline, Place};
use edi_kernel::{Kept, Kernel};
use indexmap::IndexSet;
use std::alloc::{AllocError, Global};

/// Where a state came from: the state before it, and the index of the process that was taken there.
#[derive(Clone, Copy)]
pub(crate) struct Origin {
    pub(crate) state: u32,
    pub(crate) index: u8,
}

/// Where the start of the program comes from: the number of no state.
pub(crate) const START: u32 = 4_294_967_295;

/// That a stint from one state leads to another one.
#[derive(Clone, Copy)]
pub(crate) struct Link {
    pub(crate) from: u32,
    pub(crate) to: u32,
}

/// What a state is: the numbers of its parts, of the place of the system, and of each live process in the order of their slots.
#[derive(PartialEq, Eq, Hash, Drop)]
pub(crate) struct Key {
    place: u32,
    parts: Vec<u32>,
}

/// States, numbered as they were found.
#[derive(Drop)]
pub(crate) struct States {
    processes: IndexSet<Kept>,
    places: IndexSet<Place>,
    keys: IndexSet<Key>,
    /// Of each state, where it came from first.
    origins: Vec<Origin>,
    /// The slots of those that are ready in each state, in their order, one state after another.
    orders: Vec<u8>,
    /// Where the slots of each state end.
    ends: Vec<usize>,
    /// Where the stints that were followed lead, in the order in which they were.
    links: Vec<Link>,
}

/// An index as a number. That of a part beyond all that memory can have is told as want of memory.
fn as_number(index: usize) -> Result<u32, AllocError>
    ensures { IfOk result (λ number. number ≡ index) }
{
    if index > 4_294_967_295 {
        return Err(AllocError);
    }
    Ok(index as u32)
}

impl States {
    /// No states.
    pub(crate) fn new(alloc: Global) -> States
        ensures none { AreNone result }
        ensures states { AreStates result }
    {
        States {
            processes: IndexSet::new(alloc),
            places: IndexSet::new(alloc),
            keys: IndexSet::new(alloc),
            origins: Vec::new(alloc),
            orders: Vec::new(alloc),
            ends: Vec::new(alloc),
            links: Vec::new(alloc),
        }
    }

    /// The number of states.
    pub(crate) fn len(&self) -> usize
        ensures { result ≡ length self.now.keys.keys }
    {
        self.keys.len()
    }

    /// The number of states, with the start of the program as one.
    pub(crate) fn total(&self) -> usize
        ensures { result ≡ length self.now.keys.keys + 1 }
    {
        self.keys.len() + 1
    }

    /// Where the stints lead. All else is let go.
    pub(crate) fn into_links(self) -> Vec<Link>
        ensures { result ≡ self.links }
    {
        self.links
    }

    /// Where a state but the first came from.
    pub(crate) fn origin(&self, state: usize) -> Origin
        requires states { AreStates self.now }
        requires state { state < length self.now.keys.keys }
        ensures is { slice_get self.now.origins.items state ≡ Some result }
        ensures before { 0 < state → result.state < state }
        ensures index { 0 < state → result.index < length (slots_of self.now result.state) }
    {
        self.origins[state]
    }

    /// Where the ready slots of a state begin, and where they end.
    fn range(&self, state: usize) -> (usize, usize)
        requires { state < length self.now.ends.items }
        ensures from { result.0 ≡ start_of self.now state }
        ensures to { result.1 ≡ end_of self.now state }
    {
        let to = self.ends[state];
        if state == 0 {
            return (0, to);
        }
        (self.ends[state - 1], to)
    }

    /// What was shown in a state, where output is looked at. The only error is want of memory.
    pub(crate) fn shown(&self, alloc: Global, state: usize) -> Result<Vec<u8>, AllocError>
        requires states { AreStates self.now }
        requires state { state < length self.now.keys.keys }
        ensures { IfOk result (λ shown. shown.items ≡ shown_at self.now state) }
    {
        let key = &self.keys[state];
        let place = &self.places[key.place as usize];
        let shown = Vec::from_slice(alloc, &place.shown)?;
        Ok(shown)
    }

    /// How many are ready in a state.
    pub(crate) fn ready(&self, state: usize) -> usize
        requires states { AreStates self.now }
        requires state { state < length self.now.keys.keys }
        ensures count { result ≡ end_of self.now state - start_of self.now state }
        ensures slots { result ≡ length (slots_of self.now state) }
    {
        let (from, to) = self.range(state);
        to - from
    }

    /// Puts a state back. The only error is want of memory.
    pub(crate) fn put_back(
        &self,
        kernel: &mut Kernel,
        calls: &mut Offline,
        state: usize,
    ) -> Result<(), AllocError>
        requires states { AreStates self.now }
        requires state { state < length self.now.keys.keys }
        ensures back { OnOk result (PutsStateBack self.now state kernel.new calls.new) }
        ensures printed { OnOk result (calls.new.printed.items ≡ []) }
        ensures working { OnOk result (calls.new.failed ≡ None) }
        ensures input { OnOk result (calls.new.input ≡ calls.old.input) }
    {
        let key = &self.keys[state];
        calls.put_back(&self.places[key.place as usize])?;
        kernel.clear();
        put_all_back(kernel, &self.processes, &key.parts);
        let (from, to) = self.range(state);
        line_all_up(kernel, &self.orders[from..to]);
        Ok(())
    }

    /// The number of a part: its own, if it is kept, or the next one.
    fn number_of(&mut self, kept: Kept) -> Result<u32, AllocError>
        ensures adds { OnOk result (AddsParts self.old self.new) }
        ensures there { IfOk result (λ number. (part : Kept) × (slice_get self.new.processes.keys number ≡ Some part) × IsSameKept kept part) }
        ensures keys { self.new.keys ≡ self.old.keys }
    {
        let (number, _) = self.processes.insert_full(kept)?;
        as_number(number)
    }

    /// The number of a place: its own, if it is kept, or the next one.
    fn place_of(&mut self, place: Place) -> Result<u32, AllocError>
        ensures adds { OnOk result (AddsParts self.old self.new) }
        ensures there { IfOk result (λ number. (other : Place) × (slice_get self.new.places.keys number ≡ Some other) × IsSamePlace place other) }
        ensures keys { self.new.keys ≡ self.old.keys }
    {
        let (number, _) = self.places.insert_full(place)?;
        as_number(number)
    }

    /// The numbers of the parts of what kernel and system are now: with what was shown, if that is asked.
    fn key_of(
        &mut self,
        alloc: Global,
        kernel: &Kernel,
        calls: &Offline,
        asks: bool,
    ) -> Result<Key, AllocError>
        requires kernel { IsKernel kernel.now }
        ensures key { IfOk result (λ key. IsKeyOf asks self.new key kernel.now calls.now) }
        ensures adds { OnOk result (AddsParts self.old self.new) }
        ensures keys { self.new.keys ≡ self.old.keys }
    {
        let place = self.place_of(calls.keep(asks)?)?;
        // Those that are ready, and the one that waits for them: most often no others live. A list that grows doubles what it takes.
        let mut parts = Vec::with_capacity(alloc, kernel.ready().saturating_add(1))?;
        for slot in 0..32 {
            if !kernel.lives(slot) {
                continue;
            }
            let number = self.number_of(kernel.keep(alloc, slot)?)?;
            parts.push(number)?;
        }
        Ok(Key { place, parts })
    }

    /// Appends the slots of those that are ready.
    fn note_order(&mut self, kernel: &Kernel) -> Result<(), AllocError>
        requires kernel { IsKernel kernel.now }
        ensures exact { OnOk result (self.new.orders.items ≡ self.old.orders.items ++ ready_slots kernel.now.table) }
        ensures rest { self.new ≡ record self.old { orders = self.new.orders } }
    {
        for index in 0..kernel.ready() {
            let slot = kernel.ready_slot(index).unwrap();
            self.orders.push(slot as u8)?;
        }
        Ok(())
    }

    /// Keeps the state that kernel and system are now, if it is new: with what was shown, where output is looked at. The answer is its number:
    /// none where it is new and as many states are kept as may be.
    fn keep(
        &mut self,
        alloc: Global,
        kernel: &Kernel,
        calls: &Offline,
        origin: Origin,
        limits: Limits,
    ) -> Result<Option<usize>, AllocError>
        requires kernel { IsKernel kernel.now }
        requires free { kernel.now.taken ≡ None }
        requires states { AreStates self.old }
        requires origin { MayComeFrom self.old origin }
        requires few { length self.old.keys.keys ≤ limits.states }
        ensures added { IfOk result (λ kept. IfSome kept (λ number.
            (h : IsAdded (asks_of limits) self.old self.new kernel.now calls.now) × (h.number ≡ number))) }
        ensures links { OnOk result (self.new.links ≡ self.old.links) }
        ensures full { IfOk result (λ kept. kept ≡ None → limits.states ≤ length self.new.keys.keys) }
        ensures few { length self.new.keys.keys ≤ limits.states }
        ensures grows { length self.old.keys.keys ≤ length self.new.keys.keys }
    {
        let key = self.key_of(alloc, kernel, calls, limits.asks())?;
        if self.keys.len() >= limits.states as usize && !self.keys.contains(&key) {
            return Ok(None);
        }
        let (number, added) = self.keys.insert_full(key)?;
        if !added {
            return Ok(Some(number));
        }
        self.note_order(kernel)?;
        self.origins.push(origin)?;
        self.ends.push(self.orders.len())?;
        Ok(Some(number))
    }

    /// Notes that a stint leads from one state to the state of this number.
    fn note_link(&mut self, from: u32, number: usize) -> Result<(), AllocError>
        ensures exact { OnOk result (AddsLink from number self.old.links.items self.new.links.items) }
        ensures rest { self.new ≡ record self.old { links = self.new.links } }
    {
        let to = as_number(number)?;
        self.links.push(Link { from, to })?;
        Ok(())
    }

    /// Keeps the state that kernel and system are now, if it is new, with a link from the state of this origin. The answer is whether it is kept:
    /// not where it is new and as many states are kept as may be.
    pub(crate) fn add(
        &mut self,
        alloc: Global,
        kernel: &Kernel,
        calls: &Offline,
        origin: Origin,
        limits: Limits,
    ) -> Result<bool, AllocError>
        requires kernel { IsKernel kernel.now }
        requires free { kernel.now.taken ≡ None }
        requires states { AreStates self.old }
        requires origin { MayComeFrom self.old origin }
        requires few { length self.old.keys.keys ≤ limits.states }
        ensures added { IfOk result (λ kept. kept ≡ true →
            IsAddedFrom origin.state (asks_of limits) self.old self.new kernel.now calls.now) }
        ensures full { IfOk result (λ kept. kept ≡ false → limits.states ≤ length self.new.keys.keys) }
        ensures few { length self.new.keys.keys ≤ limits.states }
        ensures grows { length self.old.keys.keys ≤ length self.new.keys.keys }
    {
        let kept = self.keep(alloc, kernel, calls, origin, limits)?;
        let Some(number) = kept else {
            return Ok(false);
        };
        self.note_link(origin.state, number)?;
        Ok(true)
    }
}
