//! The endings that are found.

ghost use Rattle.std.specs.Prelude.{◌≡◌, ◌<◌, ◌≤◌, length, true, false, Some, IfErr, IfOk, ℕ};
ghost use Rattle.edi_explore.specs.Found.{IsTold};
ghost use Rattle.edi_explore.specs.Shown.{HasEnding, HasMany, IsMet, asks_of};
ghost use Rattle.edi_explore.specs.States.{AreStates};
ghost use Rattle.edi_explore.specs.Finding.{FindsAt, IsBegun};

use crate::ends::{Found, Limits};
use crate::offline::Offline;
use crate::record::{MOST_TURNS, choices_to, finished, run};
use crate::states::{Origin, States};
use crate::step::GivenUp;
use edi_kernel::{Ending, Kernel};
use edi_target::Code;
use std::alloc::{AllocError, Global};

/// The number of choices of a record.
pub(crate) const MOST_CHOICES: usize = 65_536;

/// The states that are kept, the system of the stints, the endings that were found, and choices that lead to a stint that was cut, if one was.
#[derive(Drop)]
pub(crate) struct Search {
    pub(crate) states: States,
    pub(crate) calls: Offline,
    pub(crate) found: Vec<Found>,
    pub(crate) cut: Vec<u8>,
    /// All executions of fewer moves were followed, unless something was lacking.
    pub(crate) moves: usize,
}

/// An ending that is met, with all that was shown by then, where output is looked at.
#[derive(Drop)]
pub(crate) struct Met {
    pub(crate) ending: Ending,
    pub(crate) shown: Vec<u8>,
}

impl Met {
    /// Whether what was found is this.
    fn is(&self, found: &Found, asks: bool) -> bool
        ensures is { result ≡ true → IsMet asks found.now self.now.ending self.now.shown.items }
        ensures is_not { result ≡ false → IsMet asks found.now self.now.ending self.now.shown.items → ⊥ }
    {
        if found.ending != self.ending {
            return false;
        }
        if !asks {
            return true;
        }
        found.shown == self.shown
    }

    /// Whether a run has come to this, after so many moves.
    fn came_after(&self, moves: usize, found: &Found, asks: bool) -> bool
        ensures is { result ≡ true → IsMet asks found.now self.now.ending self.now.shown.items }
        ensures moves { result ≡ true → found.now.moves ≡ moves }
    {
        if found.moves != moves {
            return false;
        }
        self.is(found, asks)
    }
}

/// Whether an ending has been found.
fn has(found: &[Found], met: &Met, asks: bool) -> bool
    ensures has { result ≡ true → HasEnding asks found.now met.now.ending met.now.shown.items }
    ensures lacks { result ≡ false → HasEnding asks found.now met.now.ending met.now.shown.items → ⊥ }
{
    for one in found {
        if met.is(one, asks) {
            return true;
        }
    }
    false
}

impl Limits {
    /// Whether so many endings are as many as may be found.
    fn has_many(self, found: usize) -> bool
        ensures many { result ≡ true → (most : ℕ) × (self.shown ≡ Some most) × (most ≤ found) }
        ensures few { result ≡ false → (most : ℕ) → self.shown ≡ Some most → found < most }
    {
        match self.shown {
            Some(most) => found >= most as usize,
            None => false,
        }
    }
}

impl Search {
    /// A search that has found nothing, of a program with this input. The only error is want of memory.
    pub(crate) fn new(alloc: Global, input: &[u8]) -> Result<Search, AllocError>
        ensures begun { IfOk result (λ search. IsBegun input.now search) }
    {
        Ok(Search {
            states: States::new(alloc),
            calls: Offline::new(alloc, input)?,
            found: Vec::new(alloc),
            cut: Vec::new(alloc),
            moves: 0,
        })
    }

    /// Notes the choices that lead to the process at an index of a state, whose stint was cut, unless some are noted already. The only error is
    /// want of memory.
    pub(crate) fn note_cut(&mut self, origin: Origin) -> Result<(), AllocError>
        requires states { AreStates self.old.states }
        requires state { origin.state < length self.old.states.keys.keys }
        ensures rest { self.new ≡ record self.old { cut = self.new.cut } }
    {
        if self.cut.is_empty() {
            self.cut = choices_to(self.calls.alloc, &self.states, origin)?;
        }
        Ok(())
    }

    /// Runs the choices, and keeps them as those of an ending that has not been found, if the run ends so after as many moves as are noted. The
    /// answer is whether it does, with no more choices than a record has.
    pub(crate) fn record(
        &mut self,
        kernel: &mut Kernel,
        code: &Code,
        input: &[u8],
        limits: Limits,
        met: Met,
        choices: Vec<u8>,
    ) -> Result<bool, GivenUp>
        requires told { IsTold met.ending }
        requires lacks { HasEnding (asks_of limits) self.old.found.items met.ending met.shown.items → ⊥ }
        ensures told { IfOk result (λ told. told ≡ true → HasEnding (asks_of limits) self.new.found.items met.ending met.shown.items) }
        ensures finds { FindsAt code.now input.now limits self.old self.new }
        ensures full { IfErr result (λ given_up. given_up ≡ GivenUp.Full → ⊥) }
        ensures many { IfErr result (λ given_up. given_up ≡ GivenUp.Many → HasMany limits self.new.found.items) }
        ensures rest { self.new ≡ record self.old { found = self.new.found } }
    {
        if choices.len() > MOST_CHOICES {
            return Ok(false);
        }
        if limits.has_many(self.found.len()) {
            return Err(GivenUp::Many);
        }
        let alloc = self.calls.alloc;
        let came = run(alloc, kernel, code, input, choices, MOST_TURNS)?;
        if came.ending == Ending::Fault {
            return Err(GivenUp::NoMemory);
        }
        if !met.came_after(self.moves, &came, limits.asks()) {
            return Ok(false);
        }
        let found = finished(alloc, kernel, code, input, came)?;
        match self.found.push(found) {
            Ok(()) => Ok(true),
            Err(_failed) => Err(GivenUp::NoMemory),
        }
    }

    /// Finds an ending to which the process at an index of a state comes. The answer is whether it is found: not where the run with its
    /// choices ends otherwise, or where these are more than a record has.
    pub(crate) fn find(
        &mut self,
        kernel: &mut Kernel,
        code: &Code,
        input: &[u8],
        limits: Limits,
        met: Met,
        origin: Origin,
    ) -> Result<bool, GivenUp>
        requires told { IsTold met.ending }
        requires states { AreStates self.old.states }
        requires state { origin.state < length self.old.states.keys.keys }
        ensures told { IfOk result (λ told. told ≡ true → HasEnding (asks_of limits) self.new.found.items met.ending met.shown.items) }
        ensures finds { FindsAt code.now input.now limits self.old self.new }
        ensures full { IfErr result (λ given_up. given_up ≡ GivenUp.Full → ⊥) }
        ensures many { IfErr result (λ given_up. given_up ≡ GivenUp.Many → HasMany limits self.new.found.items) }
        ensures rest { self.new ≡ record self.old { found = self.new.found } }
    {
        if has(&self.found, &met, limits.asks()) {
            return Ok(true);
        }
        let choices = choices_to(self.calls.alloc, &self.states, origin)?;
        self.record(kernel, code, input, limits, met, choices)
    }
}
