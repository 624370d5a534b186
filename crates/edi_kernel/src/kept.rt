//! What is kept of a process between two stints.

ghost use Rattle.std.specs.Prelude.{◌≡◌, ◌+◌, ◌-◌, ◌^◌, ◌<◌, ◌≤◌, ◌++◌, length, List, ℕ, [], None, Some, IsSome, false, true, OnOk, IfOk};
ghost use Rattle.edi_store.specs.Memory.{words_at, written};
ghost use Rattle.edi_store.specs.Copied.{IsMemory};
ghost use Rattle.edi_target.specs.Memory.{word};
ghost use Rattle.edi_calls.specs.Names.{Name};
ghost use Rattle.edi_calls.specs.Ready.{name_at, without_index};
ghost use Rattle.edi_target.specs.Mach.{Machine};
ghost use Rattle.edi_ring.specs.Lists.{home_of};
ghost use Rattle.edi_kernel.specs.Table.{first_home, is_live, is_waiting, no_marks, process_at, ready_slots};
ghost use Rattle.edi_kernel.specs.Kernel.{Holds, IsKernel};
ghost use Rattle.edi_kernel.specs.Kept.{
  AgreeOutside,
  IsCleared,
  IsKeptOf,
  IsMarkCount,
  IsWhole,
  LinesUp,
  PutsBack,
  TakesAt,
  kept_of,
  leads_down,
  process_of,
};

use crate::IDLE;
use crate::state::KernelState;
use crate::table::{Process, Standing, Table};
use edi_machine::Activity;
use edi_store::{Segment, Store};
use std::alloc::{AllocError, Global};

/// What is kept of a live process between two stints: its slot and that of its parent, what it does, its activity, whether
/// it is ready, and the words that count, of each of its frames from the newest down the links and the variables.
/// Equality compares all of it.
#[derive(PartialEq, Eq, Hash, Drop)]
pub struct Kept {
    /// The slot, below 32.
    pub slot: usize,
    /// The slot of the parent, below 32. The first process stands for its own parent.
    pub parent: usize,
    /// What the process does while it is not taken.
    pub standing: Standing,
    /// The first word of its newest frame.
    pub base: u32,
    /// The address after that of the last word of that frame.
    pub end: u32,
    /// The address after that of the last word of that frame that is in use.
    pub top: u32,
    /// The address of the next instruction in the code.
    pub pc: u32,
    /// The address of the first word of its segment.
    pub first: u32,
    /// The address after that of the last word of its segment.
    pub last: u32,
    /// How many critical phases and function calls it is in.
    pub held: u16,
    /// Whether it is ready.
    pub ready: bool,
    /// The words that count.
    pub words: Vec<u16>,
}

/// Whether a link of the frame at `base` leads to a frame below it, at `x` up to `t`, in the segment from `first`.
pub(crate) fn leads_down(first: u32, base: u32, x: u32, t: u32) -> bool
    requires small { x < 2 ^ 16 }
    ensures { result ≡ leads_down first base x t }
{
    first <= x && x + 5 <= t && t <= base
}

/// Where the links of the frame at `base` say that the frame below it begins, and up to where it was in use.
pub(crate) fn below(store: &Store, base: u32) -> (u32, u32)
    requires { base + 5 ≤ 2 ^ 16 }
    ensures base { result.0 ≡ word store.now (base + 1) }
    ensures top { result.1 ≡ word store.now (base + 4) }
    ensures small { result.0 < 2 ^ 16 }
{
    let x = store.get((base + 1) as u16);
    let t = store.get((base + 4) as u16);
    (u32::from(x), u32::from(t))
}

/// Appends the words from `from` up to `to`.
fn keep_frame(words: &mut Vec<u16>, store: &Store, from: u32, to: u32) -> Result<(), AllocError>
    requires ordered { from ≤ to }
    requires within { to ≤ 2 ^ 16 }
    ensures exact { OnOk result (words.new.items ≡ words.old.items ++ words_at store.now from (to - from)) }
{
    let _whole = store.get(0);
    for i in 0..to - from {
        words.push(store.get((from + i) as u16))?;
    }
    Ok(())
}

/// The words that count of an activity, whose newest frame is at `base`, in use up to `top`, and whose segment begins at
/// `first`.
pub(crate) fn keep_words(
    alloc: Global,
    store: &Store,
    first: u32,
    base: u32,
    top: u32,
) -> Result<Vec<u16>, AllocError>
    requires first { first ≤ base }
    requires base { base + 5 ≤ top }
    requires top { top ≤ 2 ^ 16 }
    ensures exact { IfOk result (λ words. words.items ≡ kept_of store.now first base top) }
    ensures whole { IsMemory store.now }
{
    let _whole = store.get(0);
    let mut words = Vec::with_capacity(alloc, (top - first) as usize)?;
    let mut from = base;
    let mut to = top;
    for _ in 0..top - first {
        keep_frame(&mut words, store, from, to)?;
        let (x, t) = below(store, from);
        if !leads_down(first, from, x, t) {
            return Ok(words);
        }
        from = x;
        to = t;
    }
    Ok(words)
}

/// Writes words from `at` on.
fn put_frame(store: &mut Store, at: u32, words: &[u16])
    requires within { at + length words.now ≤ 2 ^ 16 }
    ensures exact { store.new ≡ written store.old at words.now }
{
    let _whole = store.get(0);
    for (i, word) in words.iter().enumerate() {
        store.put((at as usize + i) as u16, *word);
    }
}

/// Puts the words that count of an activity back, whose newest frame is at `base`, in use up to `top`, and whose segment
/// begins at `first`.
pub(crate) fn put_words(store: &mut Store, words: &[u16], first: u32, base: u32, top: u32)
    requires first { first ≤ base }
    requires base { base + 5 ≤ top }
    requires top { top ≤ 2 ^ 16 }
    requires kept { (m : List ℕ) × (length m ≡ 2 ^ 16) × (words.now ≡ kept_of m first base top) }
    ensures kept { kept_of store.new first base top ≡ words.now }
    ensures outside { AgreeOutside first top store.old store.new }
    ensures was_long { length store.old ≡ 2 ^ 16 }
    ensures long { length store.new ≡ 2 ^ 16 }
{
    let _whole = store.get(0);
    let mut done = 0;
    let mut from = base;
    let mut to = top;
    for _ in 0..top - first {
        let next = done + (to - from) as usize;
        put_frame(store, from, &words[done..next]);
        let (x, t) = below(store, from);
        if !leads_down(first, from, x, t) {
            return;
        }
        done = next;
        from = x;
        to = t;
    }
}

impl Kept {
    /// The process, as the table has it.
    fn process(&self) -> Process
        ensures { result ≡ process_of self.now }
    {
        Process {
            parent: self.parent,
            standing: self.standing,
            activity: Activity {
                base: self.base,
                end: self.end,
                top: self.top,
                pc: self.pc,
                segment: Segment {
                    first: self.first,
                    last: self.last,
                },
                held: self.held,
            },
        }
    }
}

impl KernelState {
    /// Keeps the live process at this slot.
    pub(crate) fn keep(&self, alloc: Global, slot: usize) -> Result<Kept, AllocError>
        requires kernel { IsKernel self.now }
        requires lives { is_live self.now.table slot ≡ true }
        ensures exact { IfOk result (λ kept. IsKeptOf self.now kept) }
        ensures slot { IfOk result (λ kept. kept.slot ≡ slot) }
        ensures whole { IfOk result IsWhole }
    {
        let ready = self.table.is_ready(slot);
        let process = self.table.processes[slot];
        let activity = process.activity;
        let first = activity.segment.first;
        let words = keep_words(alloc, &self.store, first, activity.base, activity.top)?;
        Ok(Kept {
            slot,
            parent: process.parent,
            standing: process.standing,
            base: activity.base,
            end: activity.end,
            top: activity.top,
            pc: activity.pc,
            first,
            last: activity.segment.last,
            held: activity.held,
            ready,
            words,
        })
    }

    /// The number of processes that are marked.
    pub(crate) fn marked(&self) -> usize
        requires kernel { IsKernel self.now }
        requires free { self.now.taken ≡ None }
        ensures exact { result ≡ self.now.table.marks }
        ensures marks { (m : Machine) (ready : List Name) → Holds self.now m None ready → IsMarkCount result m.marks ready }
        ensures memory { IsMemory self.now.store }
    {
        let _whole = self.store.get(0);
        self.table.marks
    }

    /// Forgets all processes, but no words.
    pub(crate) fn clear(&mut self)
        ensures exact { IsCleared self.old self.new }
        ensures kernel { IsKernel self.new }
    {
        self.table = Table::first(IDLE);
        self.taken = None;
        self.entering = false;
        self.arrived = None;
        self.failed = false;
        self.used = 0;
    }

    /// Puts a process back at its slot, where no other has been put back.
    pub(crate) fn put_back(&mut self, kept: &Kept)
        requires kernel { IsKernel self.old }
        requires free { self.old.taken ≡ None }
        requires whole { IsWhole kept.now }
        requires absent { home_of self.old.table.lists kept.now.slot ≡ first_home kept.now.slot }
        ensures exact { PutsBack kept.now self.old self.new }
        ensures kernel { IsKernel self.new }
    {
        self.table.admit(kept.slot, kept.process());
        put_words(
            &mut self.store,
            &kept.words,
            kept.first,
            kept.base,
            kept.top,
        );
    }

    /// The process at this slot, which is in no list and does not wait, becomes the last of the ready ones.
    pub(crate) fn line_up(&mut self, slot: usize)
        requires kernel { IsKernel self.old }
        requires free { self.old.taken ≡ None }
        requires slot { slot < 32 }
        requires homeless { home_of self.old.table.lists slot ≡ None }
        requires going { is_waiting (process_at self.old.table slot).standing ≡ false }
        requires unmarked { self.old.table.marked ≡ no_marks }
        ensures exact { LinesUp slot self.old self.new }
        ensures kernel { IsKernel self.new }
    {
        self.table.line_up(slot);
    }

    /// Takes the process at this index of the ready list.
    pub(crate) fn take(&mut self, index: usize)
        requires kernel { IsKernel self.old }
        requires free { self.old.taken ≡ None }
        requires index { index < length (ready_slots self.old.table) }
        ensures exact { (m : Machine) (ready : List Name) → Holds self.old m None ready
            → Holds self.new m (Some (name_at ready index)) (without_index ready index) }
        ensures takes { TakesAt index self.old self.new }
        ensures kernel { IsKernel self.new }
    {
        let slot = self.table.next(index);
        self.taken = Some(slot);
    }
}
