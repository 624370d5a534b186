//! What is found of a program, and the lines that tell it.

ghost use Rattle.std.specs.Prelude.{◌+◌, List, ℕ, IfOk, option_map};
ghost use Rattle.edi_told.specs.Told.{WhereTold};
ghost use Rattle.edi_unit.specs.Tree.{ProgramUnit};
ghost use Rattle.edi_explore.specs.Watched.{IsWatched};
ghost use Rattle.edi_main.specs.text.ExploreCommand.{IsExplorable, IsExplored};

use crate::text::explore::programs::Explorable;
use edi_explore::{Limits, Watcher};
use edi_kernel::Kernel;
use edi_runs::explore::{Exploration, explore_text, report_text};
use std::alloc::{AllocError, Global};

/// What was found, and the lines that tell it.
#[derive(Drop)]
pub(crate) struct Explored {
    pub(crate) exploration: Exploration,
    pub(crate) lines: Vec<u8>,
}

/// What is found of a program with this input, and its lines, where choices are kept under this name or not. Output is told where it is looked at.
/// The only error is want of memory.
pub(crate) fn explore_program<W: Watcher>(
    alloc: Global,
    kernel: &mut Kernel,
    program: Explorable,
    input: &[u8],
    limits: Limits,
    record_file: Option<&str>,
    watcher: &mut W,
) -> Result<Explored, AllocError>
    ensures finds { (text : List ℕ) (unit : ProgramUnit) → IsExplorable text unit program →
        IfOk result (λ e. IsExplored text input.now limits.states limits.turns limits.shown (option_map (λ name. name.now) record_file.entry) e) }
    ensures watches { IfOk result (λ e. WhereTold (W.seen watcher.old) (W.seen watcher.new)
        (IsWatched e.exploration.report.verdict (limits.states + 1) e.exploration.report.states)) }
{
    let Explorable { code, openly, .. } = program;
    let exploration = explore_text(alloc, kernel, &code, openly, input, limits, watcher)?;
    let lines = report_text(alloc, &exploration, limits.shown.is_some(), record_file)?;
    Ok(Explored { exploration, lines })
}
