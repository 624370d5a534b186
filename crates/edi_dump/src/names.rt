//! The names of processes.

ghost use Rattle.std.specs.Prelude.{◌≡◌, ◌++◌, true, OnOk};
ghost use Rattle.edi_timeline.specs.Text.{branch_text, process_text};
ghost use Rattle.edi_waits.specs.Told.{name_of};
ghost use Rattle.edi_dump.specs.Told.{step_text, steps_text};

use edi_timeline::words::put_number;
use edi_waits::Branch;
use std::alloc::AllocError;

// Puts `1.2`, the second branch of the first fork.
fn put_branch(out: &mut Vec<u8>, branch: Branch) -> Result<(), AllocError>
    ensures exact { OnOk result (out.new.items ≡ out.old.items ++ branch_text branch.fork branch.number) }
{
    put_number(out, u64::from(branch.fork))?;
    out.extend_from_slice(b".")?;
    put_number(out, u64::from(branch.number) + 1)
}

// Puts a branch, after a stroke unless it is the first one.
fn put_step(out: &mut Vec<u8>, first: bool, branch: Branch) -> Result<(), AllocError>
    ensures exact { OnOk result (out.new.items ≡ out.old.items ++ step_text first branch) }
{
    if first {
        return put_branch(out, branch);
    }
    out.extend_from_slice(b"/")?;
    put_branch(out, branch)
}

// Puts the branches of a process.
fn put_steps(out: &mut Vec<u8>, branches: &[Branch]) -> Result<(), AllocError>
    ensures exact { OnOk result (out.new.items ≡ out.old.items ++ steps_text true branches.now) }
{
    let mut first = true;
    for branch in branches {
        put_step(out, first, *branch)?;
        first = false;
    }
    Ok(())
}

/// Puts the name of a process. The only error is that memory ran out, as everywhere here.
pub fn put_process(out: &mut Vec<u8>, process: &[Branch]) -> Result<(), AllocError>
    ensures exact { OnOk result (out.new.items ≡ out.old.items ++ process_text (name_of process.now)) }
{
    if process.is_empty() {
        out.extend_from_slice(b"main")?;
        return Ok(());
    }
    put_steps(out, process)?;
    Ok(())
}
