//! The memory of the machine.

ghost use Rattle.std.specs.Prelude.{◌≡◌, ◌+◌, ◌<◌, ◌≤◌, ◌^◌, ◌↔◌, IfOk, IsTrue, length, slice_index, slice_set};
ghost use Rattle.edi_store.specs.Memory.{zero_words, zero_memory, words_at};
ghost use Rattle.edi_store.specs.Copied.{IsMemory, copied, cleared};

use std::alloc::{AllocError, Global};
use std::marker::Model;

/// How many words the memory has.
pub const MEMORY_WORDS: u32 = 65_536;

/// The memory of the machine: `MEMORY_WORDS` words, which contracts see as a list. It takes all its memory when it is
/// made.
#[derive(Drop)]
pub struct Store {
    words: Vec<u16>,
}

impl Model for Store {
    ghost use Rattle.std.specs.Prelude.{ℕ, List};
    ghost use Rattle.edi_store.specs.Copied.{IsMemory};

    ghost Value = { List ℕ };

    ghost view = { λ store. store.words.items };

    ghost invariant = { λ store. IsMemory store.words.items };
}

/// `n` words, each 0.
#[tactic(auto, unfolding(crate::specs::Memory::zero_words))]
fn zeros(alloc: Global, n: usize) -> Result<Vec<u16>, AllocError>
    ensures exact { IfOk result (λ words. words.items ≡ zero_words n) }
{
    vec![in alloc; 0; n]
}

// Writes the `n` words from `from` on to those from `to` on, which come after them all. Two slices that are apart are copied by one call of
// `memcpy`; where they overlap the copy goes word by word.
#[tactic(auto, using(crate::proofs::Copies::copied_up))]
#[inline(always)]
fn copy_up(words: &mut [u16], from: usize, to: usize, n: usize)
    requires apart { from + n ≤ to }
    requires within { to + n ≤ length words.old }
    ensures exact { words.new ≡ copied words.old from to n }
{
    let (low, high) = words.split_at_mut(to);
    high[..n].copy_from_slice(&low[from..from + n]);
}

// The same where those from `from` on come after all others.
#[tactic(auto, using(crate::proofs::Copies::copied_down))]
#[inline(always)]
fn copy_down(words: &mut [u16], from: usize, to: usize, n: usize)
    requires apart { to + n ≤ from }
    requires within { from + n ≤ length words.old }
    ensures exact { words.new ≡ copied words.old from to n }
{
    let (low, high) = words.split_at_mut(from);
    low[to..to + n].copy_from_slice(&high[..n]);
}

// Writes the `n` words from `from` on to those from `to` on.
#[tactic(auto, using(crate::proofs::Copies::copied_none))]
#[inline(always)]
fn copy_words(words: &mut Vec<u16>, from: usize, to: usize, n: usize)
    requires from_within { from + n ≤ length words.old.items }
    requires to_within { to + n ≤ length words.old.items }
    requires small { length words.old.items < 2 ^ 32 }
    ensures exact { words.new.items ≡ copied words.old.items from to n }
{
    if n == 0 {
        return;
    }
    if from + n <= to {
        copy_up(words.as_mut_slice(), from, to, n);
    } else if to + n <= from {
        copy_down(words.as_mut_slice(), from, to, n);
    } else {
        words.copy_within(from..from + n, to);
    }
}

impl Store {
    /// A memory of zeros. The only error is want of memory.
    pub fn new(alloc: Global) -> Result<Store, AllocError>
        ensures zero { IfOk result (λ store. store ≡ zero_memory) }
        ensures whole { IfOk result IsMemory }
    {
        let words = zeros(alloc, MEMORY_WORDS as usize)?;
        Ok(Store { words })
    }

    /// The word at `at`.
    pub fn get(&self, at: u16) -> u16
        ensures exact { result ≡ slice_index self.now at }
        ensures whole { IsMemory self.now }
    {
        self.words[usize::from(at)]
    }

    /// Writes the word at `at`.
    pub fn put(&mut self, at: u16, word: u16)
        ensures exact { self.new ≡ slice_set self.old at word }
        ensures was_whole { IsMemory self.old }
        ensures whole { IsMemory self.new }
    {
        self.words[usize::from(at)] = word;
    }

    /// Writes the `n` words from `from` on to the `n` words from `to` on, as if all of them were read before the first
    /// is written.
    pub fn copy(&mut self, from: u32, to: u32, n: u32)
        requires from_within { from + n ≤ MEMORY_WORDS }
        requires to_within { to + n ≤ MEMORY_WORDS }
        ensures exact { self.new ≡ copied self.old from to n }
        ensures was_whole { IsMemory self.old }
        ensures whole { IsMemory self.new }
    {
        copy_words(&mut self.words, from as usize, to as usize, n as usize);
    }

    /// Writes zeros to the `n` words from `at` on.
    pub fn clear(&mut self, at: u32, n: u32)
        requires within { at + n ≤ MEMORY_WORDS }
        ensures exact { self.new ≡ cleared self.old at n }
        ensures was_whole { IsMemory self.old }
        ensures whole { IsMemory self.new }
    {
        self.words[at as usize..(at + n) as usize].fill(0);
    }

    /// Whether the `n` words from `a` on are those from `b` on.
    pub fn equal(&self, a: u32, b: u32, n: u32) -> bool
        requires a_within { a + n ≤ MEMORY_WORDS }
        requires b_within { b + n ≤ MEMORY_WORDS }
        ensures exact { IsTrue result ↔ (words_at self.now a n ≡ words_at self.now b n) }
        ensures whole { IsMemory self.now }
    {
        self.words[a as usize..(a + n) as usize] == self.words[b as usize..(b + n) as usize]
    }
}
