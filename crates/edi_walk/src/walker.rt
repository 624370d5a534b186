//! All processes of a walk, and one step of it.

ghost use Rattle.std.specs.Prelude.{◌≡◌, ◌≤◌, ◌<◌, ◌+◌, ◌-◌, ◌^◌, ◌++◌, ◌∷◌, ℕ, [], length, nat_eq, slice_set, IfOk, IfSome, OnErr, OnOk, Err, None, Some};
ghost use Rattle.edi_told.specs.Told.{WhereTold};
ghost use Rattle.edi_calls.specs.Ends.{CallsLast};
ghost use Rattle.edi_calls.specs.Ready as ready;
ghost use Rattle.edi_calls.specs.State.{State};
ghost use Rattle.edi_unit.specs.View.{unit_of};
ghost use Rattle.edi_meaning.specs.Step.{start};
ghost use Rattle.edi_walk.specs.declared.process.Asked.TheVariants as asks;
ghost use Rattle.edi_walk.specs.declared.process.Standing.TheVariants as stands;
ghost use Rattle.edi_walk.specs.declared.process.Work.TheVariants as piece;
ghost use Rattle.edi_walk.specs.declared.stop.Stop.TheVariants as stop;
ghost use Rattle.edi_walk.specs.Ends.{PicksBy, StopBlames};
ghost use Rattle.edi_walk.specs.Processes.{Holds, LivesAt, NoneLives, without_named};
ghost use Rattle.edi_walk.specs.Walkers.{Follows, Freed, GoneBack, LessOne, Notifies, StandsThere, Takes, Walks};
ghost use Rattle.edi_walk.specs.Works.{IsCalm};

use crate::evaluation::Evaluation;
use crate::frames::Given;
use crate::lists::add;
use crate::memory::{Memory, is_same};
use crate::process::{Asked, Process, Standing, Work};
use crate::stop::Stop;
use edi_calls::Calls;
use edi_trace::Choices;
use edi_unit::Unit;
use std::alloc::Global;
use std::mem;

/// All processes.
#[derive(Drop)]
pub struct Walker<'u> {
    pub evaluation: Evaluation<'u>,
    /// The processes that live.
    pub live: Vec<Process<'u>>,
    /// Those that are ready or at their `when`, in the order of the list.
    pub listed: Vec<Vec<u64>>,
}

/// The index of the next process in the list of so many. A single one is taken without a choice.
fn pick(listed: usize, choices: &mut Choices) -> usize
    requires some { 0 < listed }
    ensures inside { result < listed }
    ensures exact { PicksBy (nat_eq listed 1) listed choices.old result choices.new }
    ensures source { choices.new.source ≡ choices.old.source }
    ensures drawn { choices.new.drawn ≤ choices.old.drawn + 1 }
{
    if listed == 1 {
        return 0;
    }
    usize::from(choices.draw()) % listed
}

/// The name of the parent of a process; the first process has none and stands for its own.
fn parent_of(name: &[u64]) -> &[u64]
    ensures exact { result.now ≡ ready.parent_of name.now }
{
    &name[..name.len().saturating_sub(2)]
}

/// A list of one item.
fn single<T: Drop>(alloc: Global, item: T) -> Result<Vec<T>, Stop>
    ensures exact { IfOk result (λ items. items.items ≡ item ∷ []) }
{
    let mut items = Vec::new(alloc);
    add(&mut items, item)?;
    Ok(items)
}

/// The first process, at the program's entry.
fn first_process<'u>(alloc: Global) -> Result<Process<'u>, Stop>
    ensures named { IfOk result (λ c. c.name.items ≡ []) }
    ensures size { IfOk result (λ c. (c.size ≡ 65536) × (c.forks ≡ 0) × (c.standing ≡ stands.Ready)) }
    ensures work { IfOk result (λ c. c.work.items ≡ piece.ProgramEnd ∷ piece.ProgramEntry ∷ []) }
{
    let mut work = Vec::new(alloc);
    add(&mut work, Work::ProgramEnd)?;
    add(&mut work, Work::ProgramEntry)?;
    Ok(Process {
        name: Vec::new(alloc),
        size: 65_536,
        forks: 0,
        work,
        standing: Standing::Ready,
    })
}

impl<'u> Walker<'u> {
    /// The first process, at the program's entry.
    pub fn start(alloc: Global, unit: &'u Unit, bound: u64) -> Result<Walker<'u>, Stop>
        ensures exact { IfOk result (λ w. (system : State) → Holds (unit_of unit.now) bound w (start (unit_of unit.now) system bound) ([] ∷ [])) }
        ensures free { IfOk result (λ w. w.evaluation.frames.items ≡ []) }
    {
        let first = first_process(alloc)?;
        let live = single(alloc, first)?;
        let name = Vec::new(alloc);
        let listed = single(alloc, name)?;
        let memory = Memory::new(alloc);
        let frames = Vec::new(alloc);
        Ok(Walker {
            evaluation: Evaluation {
                alloc,
                unit,
                memory,
                turns: bound,
                name: Vec::new(alloc),
                size: 65_536,
                frames,
                given: Given::Nothing,
            },
            live,
            listed,
        })
    }

    /// The index of the first process of this name.
    pub fn index(&self, name: &[u64]) -> Option<usize>
        ensures exact { IfSome result (λ i. LivesAt name.now i self.now.live.items) }
        ensures inside { IfSome result (λ i. i < length self.now.live.items) }
        ensures none { result ≡ None → NoneLives name.now self.now.live.items }
    {
        let mut index = 0;
        for process in &self.live {
            if is_same(name, &process.name) {
                return Some(index);
            }
            index += 1;
        }
        None
    }

    /// The next process takes a step.
    pub fn step<C: Calls>(&mut self, calls: &mut C, choices: &mut Choices) -> Result<(), Stop>
        requires free { self.old.evaluation.frames.items ≡ [] }
        requires working { C.failed calls.old None }
        ensures exact { WhereTold (C.state calls.old) (C.state calls.new) (λ s t. Walks result self.old self.new choices.old choices.new s t) }
        ensures free { OnOk result (self.new.evaluation.frames.items ≡ []) }
        ensures source { choices.new.source ≡ choices.old.source }
        ensures drawn { choices.new.drawn ≤ choices.old.drawn + 1 }
        ensures blame { StopBlames result (C.failed calls.new) (C.faults calls.old) (C.faults calls.new) }
        ensures lasts { CallsLast C.faults C.references C.leads calls.old calls.new }
    {
        if self.listed.is_empty() {
            return Err(Stop::Turns);
        }
        let at = pick(self.listed.len(), choices);
        let name = self.listed.remove(at);
        match self.index(&name) {
            Some(index) => self.taken(calls, name, index),
            None => Err(Stop::Turns),
        }
    }

    /// The process of this name and index, which was taken from the list, takes a step.
    fn taken<C: Calls>(&mut self, calls: &mut C, name: Vec<u64>, index: usize) -> Result<(), Stop>
        requires inside { index < length self.old.live.items }
        requires free { self.old.evaluation.frames.items ≡ [] }
        requires working { C.failed calls.old None }
        ensures exact { WhereTold (C.state calls.old) (C.state calls.new) (λ s t. Takes name.items index result self.old self.new s t) }
        ensures free { OnOk result (self.new.evaluation.frames.items ≡ []) }
        ensures blame { StopBlames result (C.failed calls.new) (C.faults calls.old) (C.faults calls.new) }
        ensures lasts { CallsLast C.faults C.references C.leads calls.old calls.new }
    {
        self.evaluation.name = name;
        self.evaluation.size = self.live[index].size;
        let standing = self.live[index].standing;
        match self
            .evaluation
            .local(calls, standing, &mut self.live[index].work)
        {
            Ok(asked) => self.follow(index, asked),
            Err(stop) => Err(stop),
        }
    }

    /// What the process at this index asks, which has done its part.
    fn follow(&mut self, index: usize, asked: Asked<'u>) -> Result<(), Stop>
        requires inside { index < length self.old.live.items }
        requires free { self.old.evaluation.frames.items ≡ [] }
        ensures exact { Follows asked.entry index result self.old self.new }
        ensures free { OnOk result (self.new.evaluation.frames.items ≡ []) }
        ensures calm { IsCalm result }
    {
        match asked {
            Asked::Goes => self.back(index, Standing::Ready),
            Asked::Stands(clauses) => self.back(index, Standing::AtWhen(clauses)),
            Asked::Forks(branches, line) => self.fork(index, branches, line),
            Asked::Leaves => self.leave(),
        }
    }

    /// The process goes to the back of the list.
    fn back(&mut self, index: usize, standing: Standing<'u>) -> Result<(), Stop>
        requires inside { index < length self.old.live.items }
        ensures exact { OnOk result (GoneBack index standing.entry self.old self.new) }
        ensures err { OnErr result (result ≡ Err stop.NoMemory) }
    {
        let none = Vec::new(self.evaluation.alloc);
        let name = mem::replace(&mut self.evaluation.name, none);
        self.stand(index, standing);
        add(&mut self.listed, name)
    }

    /// The process goes, and its parent waits for one child less.
    fn leave(&mut self) -> Result<(), Stop>
        requires free { self.old.evaluation.frames.items ≡ [] }
        ensures exact { (index : ℕ) → Follows asks.Leaves index result self.old self.new }
        ensures free { OnOk result (self.new.evaluation.frames.items ≡ []) }
        ensures calm { IsCalm result }
    {
        let none = Vec::new(self.evaluation.alloc);
        let name = mem::replace(&mut self.evaluation.name, none);
        self.remove(&name);
        self.evaluation.memory.end(&name);
        let parent = parent_of(&name);
        match self.index(parent) {
            Some(index) => self.notify(index, parent),
            None => Ok(()),
        }
    }

    /// The processes of this name go.
    fn remove(&mut self, name: &[u64])
        ensures live { self.new.live.items ≡ without_named name.now self.old.live.items }
        ensures others { self.new ≡ record self.old { live = self.new.live } }
    {
        while let Some(index) = self.index(name) {
            let _gone = self.live.remove(index);
        }
    }

    /// A parent at this index waits for one child less.
    fn notify(&mut self, index: usize, parent: &[u64]) -> Result<(), Stop>
        requires inside { index < length self.old.live.items }
        ensures exact { Notifies parent.now index result self.old self.new }
        ensures evaluation { self.new.evaluation ≡ self.old.evaluation }
        ensures calm { IsCalm result }
    {
        match self.live[index].standing {
            Standing::Ready => Ok(()),
            Standing::AtWhen(_) => Ok(()),
            Standing::Waiting(children) => self.one_less(index, children, parent),
        }
    }

    /// A parent has waited for so many children.
    fn one_less(&mut self, index: usize, children: usize, parent: &[u64]) -> Result<(), Stop>
        requires inside { index < length self.old.live.items }
        ensures exact { LessOne children parent.now index result self.old self.new }
        ensures evaluation { self.new.evaluation ≡ self.old.evaluation }
    {
        if children > 1 {
            self.stand(index, Standing::Waiting(children - 1));
            return Ok(());
        }
        self.free(index, parent)
    }

    /// The process at this index stands so.
    fn stand(&mut self, index: usize, standing: Standing<'u>)
        requires inside { index < length self.old.live.items }
        ensures live { StandsThere index standing.entry self.old.live.items self.new.live.items }
        ensures others { self.new ≡ record self.old { live = self.new.live } }
    {
        self.live[index].standing = standing;
    }

    /// A parent is ready, at the back of the list.
    fn free(&mut self, index: usize, parent: &[u64]) -> Result<(), Stop>
        requires inside { index < length self.old.live.items }
        ensures exact { OnOk result (Freed parent.now index self.old self.new) }
        ensures evaluation { self.new.evaluation ≡ self.old.evaluation }
        ensures err { OnErr result (result ≡ Err stop.NoMemory) }
    {
        self.stand(index, Standing::Ready);
        match Vec::from_slice(self.evaluation.alloc, parent) {
            Ok(name) => add(&mut self.listed, name),
            Err(_) => Err(Stop::NoMemory),
        }
    }
}
