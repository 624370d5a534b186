//! The names of processes, by their slots.

ghost use Rattle.std.specs.Prelude.{◌≡◌, ◌<◌, ◌+◌, ◌-◌, ◌^◌, ℕ, length, min, IfOk};
ghost use Rattle.edi_kernel.specs.Table.{ready_slots};
ghost use Rattle.edi_waits.specs.Names.{Bears, HasForked, birth_at, child_of, forked_more, name_at, name_from, no_birth};
ghost use Rattle.edi_waits.specs.Told.{name_of};

use edi_kernel::Kernel;
use std::alloc::{AllocError, Global};

/// A child of a process: which fork of its parent it is of, counted from 1, and its number among the children of that fork, counted from 0.
#[derive(Clone, Copy, Debug, PartialEq, Eq)]
pub struct Branch {
    pub fork: u32,
    pub number: u32,
}

/// The processes that a kernel has at most.
pub(crate) const SLOTS: usize = 32;

/// What is kept of the process at a slot: which child of which fork of its parent it is, how deep it lies, and how often it has forked. The kernel
/// knows its parent.
#[derive(Clone, Copy)]
pub struct Birth {
    pub(crate) fork: u32,
    pub(crate) number: u32,
    pub(crate) depth: u32,
    pub(crate) forks: u32,
}

/// What the first process is.
const FIRST: Birth = Birth {
    fork: 0,
    number: 0,
    depth: 0,
    forks: 0,
};

/// The names of the processes of a kernel, by their slots. They take no memory: a name is built when it is told.
#[derive(Clone, Copy)]
pub struct Names {
    pub(crate) births: [Birth; SLOTS],
}

/// The number that follows, or the same where there is none.
fn next_of(n: u32) -> u32
    ensures { result ≡ min (n + 1) (2 ^ 32 - 1) }
{
    n.saturating_add(1)
}

/// The child of this number, of the next fork of this process.
fn child_of(parent: Birth, number: u32) -> Birth
    ensures exact { result ≡ child_of parent number }
{
    Birth {
        fork: next_of(parent.forks),
        number,
        depth: next_of(parent.depth),
        forks: 0,
    }
}

/// The process, where it has forked once more.
fn forked_more(birth: Birth) -> Birth
    ensures exact { result ≡ forked_more birth }
{
    Birth {
        forks: next_of(birth.forks),
        ..birth
    }
}

impl Names {
    /// The first process lives alone, and has not forked.
    pub(crate) fn first() -> Names
        ensures wide { length result.births ≡ 32 }
        ensures births { (slot : ℕ) → birth_at result slot ≡ no_birth }
    {
        Names {
            births: [FIRST; SLOTS],
        }
    }

    /// What is kept of the process at this slot.
    pub(crate) fn birth(&self, slot: usize) -> Birth
        requires slot { slot < 32 }
        ensures exact { result ≡ birth_at self.now slot }
    {
        self.births[slot]
    }

    /// Who is ready at this index or after it is a child of the next fork of this process, by its number.
    fn bear(&mut self, kernel: &Kernel, slot: usize, from: usize)
        requires slot { slot < 32 }
        requires wide { length self.old.births ≡ 32 }
        ensures bears { Bears slot from (length (ready_slots kernel.now.table)) (ready_slots kernel.now.table) self.old self.new }
    {
        let parent = self.birth(slot);
        for index in from..kernel.ready() {
            let born = kernel.ready_slot(index).unwrap();
            if born == slot {
                continue;
            }
            if born >= SLOTS {
                continue;
            }
            self.births[born] = child_of(parent, (index - from) as u32);
        }
    }

    /// The process at this slot has forked: who is ready at this index or after it is a child of that fork, by its number.
    pub(crate) fn fork(&mut self, kernel: &Kernel, slot: usize, from: usize)
        requires slot { slot < 32 }
        requires wide { length self.old.births ≡ 32 }
        ensures forked { HasForked slot from (ready_slots kernel.now.table) self.old self.new }
    {
        self.bear(kernel, slot, from);
        self.births[slot] = forked_more(self.birth(slot));
    }

    /// The branches that lead down to the process at this slot, which lies so deep. The only error is want of memory.
    fn climb(
        &self,
        alloc: Global,
        kernel: &Kernel,
        slot: usize,
        depth: u32,
    ) -> Result<Vec<Branch>, AllocError>
        requires slot { slot < 32 }
        ensures exact { IfOk result (λ name. name_of name.items ≡ name_from self.now kernel.now.table depth slot) }
    {
        let mut name = Vec::new(alloc);
        let mut at = slot;
        for _ in 0..depth {
            let birth = self.birth(at);
            name.push(Branch {
                fork: birth.fork,
                number: birth.number,
            })?;
            at = kernel.parent(at);
        }
        name.reverse();
        Ok(name)
    }

    /// The name of the process at this slot: whose child of whose child it is, from the first process down, which has the empty name. The only
    /// error is want of memory.
    pub(crate) fn name(
        &self,
        alloc: Global,
        kernel: &Kernel,
        slot: usize,
    ) -> Result<Vec<Branch>, AllocError>
        requires slot { slot < 32 }
        ensures exact { IfOk result (λ name. name_of name.items ≡ name_at self.now kernel.now.table slot) }
    {
        let own = self.birth(slot);
        let name = self.climb(alloc, kernel, slot, own.depth)?;
        Ok(name)
    }
}
