//! The whole text.

ghost use Rattle.std.specs.Option.{option_map};
ghost use Rattle.std.specs.Prelude.{◌≡◌, ◌++◌, ℕ, IfOk, OnOk, map};
ghost use Rattle.edi_calls.specs.State.{State};
ghost use Rattle.edi_trace.specs.Drawn.{Drawn};
ghost use Rattle.edi_timeline.specs.Told.{meant};
ghost use Rattle.edi_waits.specs.Left.{told_end};
ghost use Rattle.edi_waits.specs.Runs.{EndsNamed};
ghost use Rattle.edi_dump.specs.Text.{dump_text};
ghost use Rattle.edi_dump.specs.Told.{TellsOr};
ghost use Rattle.edi_dump.specs.Views.{IsScene, known_in, memory_in, program_of, words_in};

use crate::blocks::block_ends;
use crate::known::Known;
use crate::lines::put_lines;
use crate::memory::memory_of;
use crate::scene::Scene;
use edi_kernel::{Ending, Kernel};
use edi_target::Code;
use edi_timeline::words::put_ending;
use edi_waits::{Names, Process, processes_at};
use std::alloc::{AllocError, Global};

// Puts the text of a run that has ended so, where these processes stand. The only error is want of memory.
fn put_dump(
    out: &mut Vec<u8>,
    scene: &Scene<'_>,
    ending: Ending,
    processes: &[Process],
) -> Result<(), AllocError>
    requires scene { IsScene scene.now }
    ensures exact { OnOk result (out.new.items ≡ out.old.items ++
        dump_text (known_in scene.now) (words_in scene.now) (memory_in scene.now) (meant ending) (map told_end processes.now)) }
{
    put_ending(out, ending)?;
    out.extend_from_slice(b"\n")?;
    put_lines(out, scene, processes)
}

// The text of a kernel and a code after a run that has ended so, where these processes stand.
fn dump_text(
    alloc: Global,
    kernel: &Kernel,
    code: &Code,
    known: Option<&Known>,
    ending: Ending,
    processes: &[Process],
) -> Result<Vec<u8>, AllocError>
    ensures exact { IfOk result (λ text. text.items ≡
        dump_text (option_map (λ k. program_of k.now) known.entry) code.now.words kernel.now.store (meant ending) (map told_end processes.now)) }
{
    let ends = block_ends(alloc, code.words())?;
    let memory = memory_of(alloc, kernel)?;
    let scene = Scene {
        alloc,
        code,
        ends: ends.as_slice(),
        known,
        memory: memory.as_slice(),
    };
    let mut text = Vec::new(alloc);
    put_dump(&mut text, &scene, ending, processes)?;
    Ok(text)
}

/// The text of the end of a run of the code that has ended so, whose processes have these names. Where its program is known, blocks and
/// variables have their names. The only error is want of memory.
pub fn dump_of(
    alloc: Global,
    kernel: &Kernel,
    code: &Code,
    names: &Names,
    ending: Ending,
    known: Option<&Known>,
) -> Result<Vec<u8>, AllocError>
    ensures tells { IfOk result (λ text. (s : State) (bound : ℕ) (old new : Drawn) →
        EndsNamed code.now s bound old ending kernel.now new names.now →
        TellsOr (option_map (λ k. program_of k.now) known.entry) code.now s bound old ending text.items) }
{
    let processes = processes_at(alloc, kernel, names)?;
    let text = dump_text(alloc, kernel, code, known, ending, processes.as_slice())?;
    Ok(text)
}
