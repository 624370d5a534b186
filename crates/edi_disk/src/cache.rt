//! The blocks that are cached, in the order of their use.

ghost use Rattle.std.specs.Prelude.{◌≡◌, ℕ, ◌+◌, ◌<◌, ◌≤◌, ◌++◌, [], ◌∷◌, true, false, length, slice_get, map, Some, None, IfSome, IfNone, IsSome};
ghost use Rattle.std.specs.Option.{option_copied};
ghost use Rattle.edi_ring.specs.Lists.{home_of};
ghost use Rattle.edi_disk.specs.declared.cache.Slot.{Slot};
ghost use Rattle.edi_disk.specs.Use.{slot_of, without_block, with_room, cached_slot, settled_slot};
ghost use Rattle.edi_disk.specs.Slots.{slot_at, IsPacked, Vacates};

use edi_ring::Lists;
use std::marker::Model;

/// How many blocks are cached at most.
pub const SLOTS: usize = 16;

/// A block that is cached.
#[derive(Clone, Copy, Debug)]
pub struct Slot {
    /// Its number on the drive.
    pub number: u32,
    /// Whether it was put and is not written to the drive yet.
    pub unwritten: bool,
    /// What it has.
    pub bytes: [u8; 512],
}

const BLANK: Slot = Slot {
    number: 0,
    unwritten: false,
    bytes: [0; 512],
};

/// Up to 16 blocks of different numbers. Contracts see the list of them, the one used longest ago first.
#[derive(Drop)]
pub struct Cache {
    slots: [Slot; 16],
    order: Lists<16, 1>,
}

impl Model for Cache {
    ghost use Rattle.std.specs.Prelude.{List};
    ghost use Rattle.edi_disk.specs.declared.cache.Slot.{Slot};
    ghost use Rattle.edi_disk.specs.Slots.{slots_in, OrderIsKept};

    ghost Value = { List Slot };

    ghost view = { λ c. slots_in c.slots c.order };

    ghost invariant = { λ c. OrderIsKept c.slots c.order };
}

// The slot in use that has block n.
fn find(slots: &[Slot; 16], order: &Lists<16, 1>, n: u32) -> Option<usize>
    ensures within { IfSome result (λ slot. slot < 16) }
    ensures in_use { IfSome result (λ slot. IsSome (home_of order.now slot)) }
    ensures number { IfSome result (λ slot. (slot_at slots.now slot).number ≡ n) }
    ensures none { IfNone result ((slot : ℕ) → slot < 16 → IsSome (home_of order.now slot) → (slot_at slots.now slot).number ≡ n → ⊥) }
{
    for slot in 0..SLOTS {
        if order.home(slot).is_some() && slots[slot].number == n {
            return Some(slot);
        }
    }
    None
}

// Makes a slot the last in use: a free one, or where there is none the one used longest ago.
fn vacate(order: &mut Lists<16, 1>) -> usize
    requires { IsPacked order.old }
    ensures { Vacates order.old order.new result }
{
    let used = order.len(0);
    if used < SLOTS {
        order.push_back(0, used);
        return used;
    }
    let first = order.front(0).unwrap();
    order.to_back(first);
    first
}

fn settle(slots: &mut [Slot; 16])
    ensures { slots.new ≡ map settled_slot slots.old }
{
    for slot in slots.iter_mut() {
        *slot = Slot {
            unwritten: false,
            ..*slot
        };
    }
}

impl Cache {
    /// No block is cached.
    pub fn new() -> Cache
        ensures { result ≡ [] }
    {
        Cache {
            slots: [BLANK; 16],
            order: Lists::new(),
        }
    }

    /// How many blocks are cached.
    pub fn len(&self) -> usize
        ensures exact { result ≡ length self.now }
        ensures bound { result ≤ 16 }
    {
        self.order.len(0)
    }

    /// The i-th cached block, the one used longest ago first; `None` exactly where fewer are cached.
    pub fn get(&self, i: usize) -> Option<&Slot>
        ensures { option_copied result ≡ slice_get self.now i }
    {
        let slot = self.order.nth(0, i)?;
        Some(&self.slots[slot])
    }

    /// Gives block `n` where it is cached, which is then the one used last. The answer says whether it is cached.
    pub fn recall(&mut self, n: u32, into: &mut [u8; 512]) -> bool
        ensures found { result ≡ true → (slot : Slot) × (slot_of n self.old ≡ Some slot) × (into.new ≡ slot.bytes)
            × (self.new ≡ without_block n self.old ++ slot ∷ []) }
        ensures absent { result ≡ false → (slot_of n self.old ≡ None) × (self.new ≡ self.old) }
        ensures bound { length self.old ≤ 16 }
    {
        let Some(slot) = find(&self.slots, &self.order, n) else {
            return false;
        };
        *into = self.slots[slot].bytes;
        self.order.to_back(slot);
        true
    }

    /// Puts other bytes into block `n` where it is cached, which is then the one used last. The answer says
    /// whether it is cached.
    pub fn replace(&mut self, n: u32, from: &[u8; 512]) -> bool
        ensures found { result ≡ true → (slot : Slot) × (slot_of n self.old ≡ Some slot)
            × (self.new ≡ without_block n self.old ++ cached_slot n from.now true ∷ []) }
        ensures absent { result ≡ false → (slot_of n self.old ≡ None) × (self.new ≡ self.old) }
        ensures bound { length self.old ≤ 16 }
    {
        let Some(slot) = find(&self.slots, &self.order, n) else {
            return false;
        };
        self.slots[slot] = Slot {
            number: n,
            unwritten: true,
            bytes: *from,
        };
        self.order.to_back(slot);
        true
    }

    /// Takes in block `n`, which is not cached, as the one used last. Where 16 are cached, the one used longest ago
    /// is driven out.
    pub fn hold(&mut self, n: u32, bytes: &[u8; 512], unwritten: bool)
        requires { slot_of n self.old ≡ None }
        ensures { self.new ≡ with_room self.old ++ cached_slot n bytes.now unwritten ∷ [] }
    {
        let slot = vacate(&mut self.order);
        self.slots[slot] = Slot {
            number: n,
            unwritten,
            bytes: *bytes,
        };
    }

    /// All cached blocks are written.
    pub fn settle(&mut self)
        ensures { self.new ≡ map settled_slot self.old }
    {
        settle(&mut self.slots);
    }
}
