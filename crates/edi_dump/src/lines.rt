//! The lines of processes.

ghost use Rattle.std.specs.Prelude.{◌≡◌, ◌++◌, true, OnOk, flat_map, map};
ghost use Rattle.edi_waits.specs.Left.{told_end};
ghost use Rattle.edi_dump.specs.Text as spec;
ghost use Rattle.edi_dump.specs.Views.{IsScene, known_in, memory_in, words_in};

use crate::blocks::block_of;
use crate::frames::put_frame;
use crate::names::put_process;
use crate::raw::put_raw_frame;
use crate::scene::{Scene, name_at};
use crate::values::short;
use edi_kernel::Below;
use edi_timeline::words::put_number;
use edi_waits::{Process, Stands, line_before};
use std::alloc::AllocError;

// Puts the number of branches for which a process waits.
fn put_branches(out: &mut Vec<u8>, branches: usize) -> Result<(), AllocError>
    ensures exact { OnOk result (out.new.items ≡ out.old.items ++ spec.branches_text branches) }
{
    if branches == 1 {
        out.extend_from_slice(b"1 branch")?;
        return Ok(());
    }
    put_number(out, branches as u64)?;
    out.extend_from_slice(b" branches")?;
    Ok(())
}

// Puts ` in NAME`; a block without a name is told by nothing.
fn put_in(out: &mut Vec<u8>, name: &[u8]) -> Result<(), AllocError>
    ensures exact { OnOk result (out.new.items ≡ out.old.items ++ spec.in_text name.now) }
{
    if name.is_empty() {
        return Ok(());
    }
    out.extend_from_slice(b" in ")?;
    out.extend_from_slice(short(name))?;
    Ok(())
}

// Puts the line of the instruction that ends at an address, and the block.
fn put_line(out: &mut Vec<u8>, scene: &Scene<'_>, at: u32) -> Result<(), AllocError>
    requires scene { IsScene scene.now }
    ensures exact { OnOk result (out.new.items ≡ out.old.items ++
        spec.line_text (known_in scene.now) (words_in scene.now) (memory_in scene.now) at) }
{
    let name = name_at(scene, at);
    put_number(out, u64::from(line_before(scene.code, at)))?;
    put_in(out, name)
}

// What comes before the line of a call.
fn call_word(newest: bool) -> &'static [u8]
    ensures exact { result.now ≡ spec.call_word newest }
{
    if newest {
        return b", called on line ";
    }
    b", on line "
}

// Puts the lines of calls.
fn put_calls(out: &mut Vec<u8>, scene: &Scene<'_>, calls: &[Below]) -> Result<(), AllocError>
    requires scene { IsScene scene.now }
    ensures exact { OnOk result (out.new.items ≡ out.old.items ++
        spec.calls_text (known_in scene.now) (words_in scene.now) (memory_in scene.now) true calls.now) }
{
    let mut newest = true;
    for call in calls {
        out.extend_from_slice(call_word(newest))?;
        put_line(out, scene, call.back)?;
        newest = false;
    }
    Ok(())
}

// Puts the line of a `when`.
fn put_at(out: &mut Vec<u8>, scene: &Scene<'_>, at: u32) -> Result<(), AllocError>
    requires scene { IsScene scene.now }
    ensures exact { OnOk result (out.new.items ≡ out.old.items ++
        spec.at_text (known_in scene.now) (words_in scene.now) (memory_in scene.now) at) }
{
    out.extend_from_slice(b" is at the when of line ")?;
    put_line(out, scene, at)
}

// Puts how a process stands that goes on at this address.
fn put_stands(
    out: &mut Vec<u8>,
    scene: &Scene<'_>,
    stands: Stands,
    at: u32,
) -> Result<(), AllocError>
    requires scene { IsScene scene.now }
    ensures exact { OnOk result (out.new.items ≡ out.old.items ++
        spec.stands_text (known_in scene.now) (words_in scene.now) (memory_in scene.now) stands at) }
{
    match stands {
        Stands::Fresh => out.extend_from_slice(b" has not begun")?,
        Stands::Joined => out.extend_from_slice(b" goes on after its branches")?,
        Stands::AtWhen => put_at(out, scene, at)?,
        Stands::Awaits(branches) => {
            out.extend_from_slice(b" waits for ")?;
            put_branches(out, branches)?;
        }
        Stands::Ran => out.extend_from_slice(b" ran last")?,
    }
    Ok(())
}

// Puts how a process with these frames stands, and the calls that lead there.
fn put_place(
    out: &mut Vec<u8>,
    scene: &Scene<'_>,
    stands: Stands,
    frames: &[Below],
) -> Result<(), AllocError>
    requires scene { IsScene scene.now }
    ensures exact { OnOk result (out.new.items ≡ out.old.items ++
        spec.place_text (known_in scene.now) (words_in scene.now) (memory_in scene.now) stands frames.now) }
{
    let Some((newest, calls)) = frames.split_first() else {
        return Ok(());
    };
    put_stands(out, scene, stands, newest.back)?;
    put_calls(out, scene, calls)
}

// Puts the lines of a frame.
fn put_told(out: &mut Vec<u8>, scene: &Scene<'_>, frame: Below) -> Result<(), AllocError>
    requires scene { IsScene scene.now }
    ensures exact { OnOk result (out.new.items ≡ out.old.items ++
        spec.frame_text (known_in scene.now) (words_in scene.now) (memory_in scene.now) frame) }
{
    match scene.known {
        Some(known) => {
            let block = block_of(scene.ends, frame.back);
            put_frame(out, scene.alloc, known, scene.memory, block, frame.base)
        }
        None => put_raw_frame(out, scene.memory, frame),
    }
}

// Puts those of frames.
fn put_frames(out: &mut Vec<u8>, scene: &Scene<'_>, frames: &[Below]) -> Result<(), AllocError>
    requires scene { IsScene scene.now }
    ensures exact { OnOk result (out.new.items ≡ out.old.items ++
        flat_map (spec.frame_text (known_in scene.now) (words_in scene.now) (memory_in scene.now)) frames.now) }
{
    for frame in frames {
        put_told(out, scene, *frame)?;
    }
    Ok(())
}

// Puts the lines of a process.
fn put_one(out: &mut Vec<u8>, scene: &Scene<'_>, process: &Process) -> Result<(), AllocError>
    requires scene { IsScene scene.now }
    ensures exact { OnOk result (out.new.items ≡ out.old.items ++
        spec.end_text (known_in scene.now) (words_in scene.now) (memory_in scene.now) (told_end process.now)) }
{
    put_process(out, &process.name)?;
    put_place(out, scene, process.stands, &process.frames)?;
    out.extend_from_slice(b"\n")?;
    put_frames(out, scene, &process.frames)
}

/// Puts the lines of processes. The only error is that memory ran out.
pub(crate) fn put_lines(
    out: &mut Vec<u8>,
    scene: &Scene<'_>,
    processes: &[Process],
) -> Result<(), AllocError>
    requires scene { IsScene scene.now }
    ensures exact { OnOk result (out.new.items ≡ out.old.items ++
        flat_map (spec.end_text (known_in scene.now) (words_in scene.now) (memory_in scene.now)) (map told_end processes.now)) }
{
    for process in processes {
        put_one(out, scene, process)?;
    }
    Ok(())
}
