//! A text that is explored.

ghost use Rattle.std.specs.Prelude.{◌≡◌, ◌+◌, List, ℕ, IfOk};
ghost use Rattle.edi_unit.specs.Tree.{ProgramUnit};
ghost use Rattle.edi_scheme.specs.Laws.{parts_of};
ghost use Rattle.edi_told.specs.Told.{WhereTold};
ghost use Rattle.edi_compile.specs.Compiled.{IsFrontOf};
ghost use Rattle.edi_explore.specs.Watched.{IsWatched};
ghost use Rattle.edi_runs.specs.explore.Explorations.{IsExplorationOf};
ghost use Rattle.edi_runs.specs.explore.Openness.{IsOpenness};
ghost use Rattle.edi_runs.specs.explore.Told.{findings_of};

use crate::explore::openness::Openness;
use crate::explore::orders::{Exploration, orders_by_openness};
use edi_explore::{Limits, Watcher, explore};
use edi_kernel::Kernel;
use edi_target::Code;
use std::alloc::{AllocError, Global};

/// Looks for every ending that any choices bring about, for a text with this input and no disk.
///
/// The code is that of the text's unit: `front` gives the unit and `translate` the code. Each ending that is found has choices, which bring it
/// about in so many turns. The verdict says whether no execution ends otherwise, or none of fewer moves than its number. An execution that goes
/// on for ever has no ending. With a number in `limits.shown` an ending with other output is another one. The kernel holds what the last run has
/// left. The watcher is told, after each state that was expanded, how many there are.
///
/// Where all executions were followed, output is not looked at, and each ending is `done` or a standstill, something is said of every order of steps:
/// that none ends otherwise, if the branches use nothing outside critical phases; else what they use so, by `openness_of`. A number of moves that is
/// found is one that no execution of the text exceeds.
///
/// The only error is that memory ran out before the search: memory that runs out later is a verdict.
pub fn explore_text<W: Watcher>(
    alloc: Global,
    kernel: &mut Kernel,
    code: &Code,
    openly: Openness,
    input: &[u8],
    limits: Limits,
    watcher: &mut W,
) -> Result<Exploration, AllocError>
    ensures explored { (text : List ℕ) (unit : ProgramUnit) → IsFrontOf text unit → code.now ≡ parts_of unit → IsOpenness text unit openly →
        IfOk result (λ found. IsExplorationOf text input.now limits.states limits.turns limits.shown (findings_of found)) }
    ensures watches { IfOk result (λ found. WhereTold (W.seen watcher.old) (W.seen watcher.new)
        (IsWatched found.report.verdict (limits.states + 1) found.report.states)) }
{
    let report = explore(alloc, kernel, code, input, limits, watcher)?;
    let orders = orders_by_openness(&report, limits.shown, openly);
    Ok(Exploration { report, orders })
}
