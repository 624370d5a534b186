//! A walk: one process after another takes a step, each chosen among those that may.

ghost use Rattle.std.specs.Prelude.{◌≡◌, None};
ghost use Rattle.edi_told.specs.Told.{WhereTold};
ghost use Rattle.edi_unit.specs.View.{unit_of};
ghost use Rattle.edi_calls.specs.Ends.{CallsLast};
ghost use Rattle.edi_walk.specs.Ends.{end_for, WalkBlames, WalkFaultsBy, WalksTo};

use crate::stop::Stop;
use crate::walker::Walker;
use edi_calls::{Calls, Cause};
use edi_trace::Choices;
use edi_unit::Unit;
use std::alloc::Global;

/// How a walk ended.
#[derive(Clone, Copy, Debug, Drop)]
pub enum WalkEnd {
    /// The program came to its end.
    Done,
    /// It called `halt`, at this line.
    Halted(u16),
    /// It failed for a cause, at a line.
    Failed(Cause, u16),
    /// The bound on its turns was used up.
    Turns,
    /// An object outside the machine failed.
    Fault,
    /// There was not enough memory.
    NoMemory,
}

/// The end of a walk whose step goes no further.
fn end_of(stop: Stop) -> WalkEnd
    ensures exact { result ≡ end_for stop }
{
    match stop {
        Stop::Done => WalkEnd::Done,
        Stop::Halted(line) => WalkEnd::Halted(line),
        Stop::Failed(cause, line) => WalkEnd::Failed(cause, line),
        Stop::Turns => WalkEnd::Turns,
        Stop::Fault(_) => WalkEnd::Fault,
        Stop::NoMemory => WalkEnd::NoMemory,
    }
}

/// Walks through a program from its start. A list has the processes that are ready or at their `when`, at first the
/// first process. With `k` processes in it the one at place `c % k` from the front takes a step, `c` being the next
/// choice; where `k` is 1 no choice is used. Afterwards it goes to the back, if it is still ready or at its `when`.
/// Children join the back in the order of the text, and so does a parent whose last child has ended.
pub fn walk<C: Calls>(
    alloc: Global,
    unit: &Unit,
    calls: &mut C,
    bound: u64,
    choices: &mut Choices,
) -> WalkEnd
    requires working { C.failed calls.old None }
    ensures exact { WhereTold (C.state calls.old) (C.state calls.new) (λ s t. WalksTo (unit_of unit.now) s bound choices.old result t choices.new) }
    // The call in which an object failed is one that uses this object.
    ensures asked { WhereTold (C.state calls.old) (C.state calls.new)
        (λ s t. WalkFaultsBy (C.failed calls.new) (unit_of unit.now) s bound choices.old result t choices.new) }
    ensures source { choices.new.source ≡ choices.old.source }
    ensures blame { WalkBlames result (C.failed calls.new) (C.faults calls.old) (C.faults calls.new) }
    ensures lasts { CallsLast C.faults C.references C.leads calls.old calls.new }
{
    let Ok(mut walker) = Walker::start(alloc, unit, bound) else {
        return WalkEnd::NoMemory;
    };
    for _step in choices.drawn()..u64::MAX {
        match walker.step(calls, choices) {
            Ok(()) => {}
            Err(stop) => return end_of(stop),
        }
    }
    WalkEnd::NoMemory
}
