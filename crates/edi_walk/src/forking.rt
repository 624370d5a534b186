//! Forks: children begin, and their parent waits.

ghost use Rattle.std.specs.Prelude.{◌≡◌, ◌≤◌, ◌<◌, ◌++◌, ◌∷◌, [], length, map, IfOk, OnErr, OnOk, Err};
ghost use Rattle.std.specs.List.{list_any};
ghost use Rattle.edi_calls.specs.Forks as spec;
ghost use Rattle.edi_calls.specs.Ready as ready;
ghost use Rattle.edi_unit.specs.Need.{block_at};
ghost use Rattle.edi_unit.specs.View.{act_of, unit_of};
ghost use Rattle.edi_unit.specs.View as view;
ghost use Rattle.edi_meaning.specs.Step.{exceeds};
ghost use Rattle.edi_walk.specs.declared.process.Asked.TheVariants as asks;
ghost use Rattle.edi_walk.specs.declared.process.Standing.TheVariants as stands;
ghost use Rattle.edi_walk.specs.declared.stop.Stop.TheVariants as stop;
ghost use Rattle.edi_walk.specs.Processes.{acts_bare, ends_branch, work_of};
ghost use Rattle.edi_walk.specs.Walkers.{BeginAll, Begins, Enlists, Follows, Forked, Parted, WaitsThere};
ghost use Rattle.edi_walk.specs.Works.{IsCalm};

use crate::data::SpotAt;
use crate::lists::{add, exchange};
use crate::process::{Process, Standing, Work, put_before};
use crate::stop::Stop;
use crate::walker::Walker;
use edi_calls::Cause;
use edi_unit::Act;
use std::alloc::Global;
use std::mem;

/// As many processes as may live at once.
const MOST_PROCESSES: usize = 32;

/// A fork: the newest instance of its process, the number of the fork, and the words of each child.
#[derive(Drop)]
pub struct Fork {
    pub parent: SpotAt,
    pub number: u64,
    pub share: u32,
}

/// The name of child `i` of the `f`-th fork of a process.
fn child(alloc: Global, parent: &[u64], f: u64, i: u64) -> Result<Vec<u64>, Stop>
    ensures exact { IfOk result (λ name. name.items ≡ ready.child parent.now f i) }
    ensures err { OnErr result (result ≡ Err stop.NoMemory) }
{
    let mut name = Vec::from_slice(alloc, parent)?;
    add(&mut name, f)?;
    add(&mut name, i)?;
    Ok(name)
}

/// The words for each of so many branches, in a room of so many.
fn equal_share(room: u32, branches: usize) -> u32
    requires few { branches ≤ 32 }
    ensures exact { result ≡ spec.equal_share room branches }
{
    if branches == 0 {
        return 0;
    }
    room / branches as u32
}

/// A process at the beginning of a branch.
fn branch<'u>(alloc: Global, name: &[u64], share: u32, body: &'u [Act]) -> Result<Process<'u>, Stop>
    ensures named { IfOk result (λ c. c.name.items ≡ name.now) }
    ensures size { IfOk result (λ c. (c.size ≡ share) × (c.forks ≡ 0) × (c.standing ≡ stands.Ready)) }
    ensures work { IfOk result (λ c. work_of c.work.items [] ≡ acts_bare (view.acts (map act_of body.now)) ++ ends_branch ∷ []) }
    ensures err { OnErr result (result ≡ Err stop.NoMemory) }
{
    let mut work = Vec::new(alloc);
    match put_before(&mut work, Work::BranchEnd, body) {
        Ok(_) => Ok(Process {
            name: Vec::from_slice(alloc, name)?,
            size: share,
            forks: 0,
            work,
            standing: Standing::Ready,
        }),
        Err(_) => Err(Stop::NoMemory),
    }
}

/// The process waits for so many children of its fork of this number.
fn wait_for(process: &mut Process, number: u64, children: usize)
    ensures exact { process.new ≡ record process.old { forks = number; standing = stands.Waiting children } }
{
    process.forks = number;
    process.standing = Standing::Waiting(children);
}

impl<'u> Walker<'u> {
    /// The words that a block needs; 0 where there is no such block.
    fn need(&self, number: u32) -> u32
        ensures exact { result ≡ (block_at (unit_of self.now.evaluation.unit.now).blocks number).need }
    {
        match self.evaluation.unit.blocks.get(number as usize) {
            Some(block) => block.need,
            None => 0,
        }
    }

    /// Whether one of these blocks needs more than a share.
    fn exceeds(&self, share: u32, branches: &[u32]) -> bool
        ensures exact { result ≡ list_any (exceeds (unit_of self.now.evaluation.unit.now) share) branches.now }
    {
        for number in branches {
            if self.need(*number) > share {
                return true;
            }
        }
        false
    }

    /// The process forks into these blocks.
    pub fn fork(&mut self, index: usize, branches: &'u [u32], line: u16) -> Result<(), Stop>
        requires inside { index < length self.old.live.items }
        requires free { self.old.evaluation.frames.items ≡ [] }
        ensures exact { Follows (asks.Forks branches.entry line) index result self.old self.new }
        ensures free { OnOk result (self.new.evaluation.frames.items ≡ []) }
        ensures calm { IsCalm result }
    {
        if self.live.len().saturating_add(branches.len()) > MOST_PROCESSES {
            return Err(Stop::Failed(Cause::ProcessLimit, line));
        }
        let size = self.live[index].size;
        let share = equal_share(self.evaluation.room(size), branches.len());
        if self.exceeds(share, branches) {
            return Err(Stop::Failed(Cause::VariableLimit, line));
        }
        self.forked(index, share, branches)
    }

    /// The turn of a fork, and its children.
    fn forked(&mut self, index: usize, share: u32, branches: &'u [u32]) -> Result<(), Stop>
        requires inside { index < length self.old.live.items }
        requires free { self.old.evaluation.frames.items ≡ [] }
        ensures exact { Forked index share branches.now result self.old self.new }
        ensures free { OnOk result (self.new.evaluation.frames.items ≡ []) }
        ensures calm { IsCalm result }
    {
        match self.evaluation.turn() {
            Ok(()) => self.parted(index, share, branches),
            Err(stop) => Err(stop),
        }
    }

    /// The process waits, and its children begin.
    fn parted(&mut self, index: usize, share: u32, branches: &'u [u32]) -> Result<(), Stop>
        requires inside { index < length self.old.live.items }
        requires free { self.old.evaluation.frames.items ≡ [] }
        ensures exact { OnOk result (Parted index share branches.now self.old self.new) }
        ensures free { OnOk result (self.new.evaluation.frames.items ≡ []) }
        ensures err { OnErr result (result ≡ Err stop.NoMemory) }
    {
        let none = Vec::new(self.evaluation.alloc);
        let name = mem::replace(&mut self.evaluation.name, none);
        let depth = self.evaluation.memory.newest(&name);
        let number = self.live[index].forks.saturating_add(1);
        self.wait(index, number, branches.len());
        let parent = SpotAt { name, depth };
        let fork = Fork {
            parent,
            number,
            share,
        };
        self.begin_all(&fork, branches)
    }

    /// The process waits for so many children of its fork of this number.
    fn wait(&mut self, index: usize, number: u64, children: usize)
        requires inside { index < length self.old.live.items }
        ensures live { WaitsThere index number children self.old.live.items self.new.live.items }
        ensures others { self.new ≡ record self.old { live = self.new.live } }
    {
        wait_for(&mut self.live[index], number, children);
    }

    /// The children of a fork begin, in the order of the text.
    fn begin_all(&mut self, fork: &Fork, branches: &[u32]) -> Result<(), Stop>
        ensures exact { OnOk result (BeginAll fork.now branches.now self.old self.new) }
        ensures free { self.new.evaluation.frames ≡ self.old.evaluation.frames }
        ensures err { OnErr result (result ≡ Err stop.NoMemory) }
    {
        let mut i = 0;
        for number in branches {
            match self.begin(fork, i, *number) {
                Ok(()) => i += 1,
                Err(stop) => return Err(stop),
            }
        }
        Ok(())
    }

    /// Child `i` of a fork begins.
    fn begin(&mut self, fork: &Fork, i: u64, number: u32) -> Result<(), Stop>
        ensures exact { OnOk result (Begins fork.now i number self.old self.new) }
        ensures free { self.new.evaluation.frames ≡ self.old.evaluation.frames }
        ensures err { OnErr result (result ≡ Err stop.NoMemory) }
    {
        let alloc = self.evaluation.alloc;
        let name = child(alloc, &fork.parent.name, fork.number, i)?;
        let parent = fork.parent.copy(alloc)?;
        let instance = self.evaluation.instance(number, parent, Vec::new(alloc))?;
        let process = branch(alloc, &name, fork.share, self.evaluation.body(number))?;
        self.evaluation.memory.begin(alloc, &name, instance)?;
        self.enlist(process)?;
        add(&mut self.listed, name)
    }

    /// A process lives, in the place of the one of its name, or at the end.
    fn enlist(&mut self, process: Process<'u>) -> Result<(), Stop>
        ensures exact { OnOk result (Enlists process.entry self.old.live.items self.new.live.items) }
        ensures others { self.new ≡ record self.old { live = self.new.live } }
        ensures err { OnErr result (result ≡ Err stop.NoMemory) }
    {
        match self.index(&process.name) {
            Some(index) => {
                let _old = exchange(&mut self.live, index, process);
                Ok(())
            }
            None => add(&mut self.live, process),
        }
    }
}
