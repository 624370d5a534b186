//! The lines that tell who waits where.

ghost use Rattle.std.specs.Prelude.{◌≡◌, ◌++◌, true, false, OnOk, map};
ghost use Rattle.edi_waits.specs.Told.{waiting_of};
ghost use Rattle.edi_runs.specs.explore.Lines as spec;

use edi_dump::put_process;
use edi_timeline::words::put_number;
use edi_waits::Wait;
use std::alloc::AllocError;

// Puts the line at which a process waits.
fn put_waiting(out: &mut Vec<u8>, line: u16) -> Result<(), AllocError>
    ensures exact { OnOk result (out.new.items ≡ out.old.items ++ spec.line_text true line) }
{
    out.extend_from_slice(b" waits at line ")?;
    put_number(out, u64::from(line))?;
    Ok(())
}

// Puts the line of a call.
fn put_called(out: &mut Vec<u8>, line: u16) -> Result<(), AllocError>
    ensures exact { OnOk result (out.new.items ≡ out.old.items ++ spec.line_text false line) }
{
    out.extend_from_slice(b", called on line ")?;
    put_number(out, u64::from(line))?;
    Ok(())
}

// Puts the line at which a process waits, or that of a call.
fn put_line(out: &mut Vec<u8>, first: bool, line: u16) -> Result<(), AllocError>
    ensures exact { OnOk result (out.new.items ≡ out.old.items ++ spec.line_text first line) }
{
    if first {
        return put_waiting(out, line);
    }
    put_called(out, line)
}

// Puts at which line a process waits, and where it was called.
fn put_lines(out: &mut Vec<u8>, lines: &[u16]) -> Result<(), AllocError>
    ensures exact { OnOk result (out.new.items ≡ out.old.items ++ spec.lines_text true lines.now) }
{
    let mut first = true;
    for line in lines {
        put_line(out, first, *line)?;
        first = false;
    }
    Ok(())
}

// Puts the line of a process that waits.
fn put_wait(out: &mut Vec<u8>, wait: &Wait) -> Result<(), AllocError>
    ensures exact { OnOk result (out.new.items ≡ out.old.items ++ spec.wait_line (waiting_of wait.now)) }
{
    out.extend_from_slice(b"  ")?;
    put_process(out, &wait.process)?;
    put_lines(out, &wait.lines)?;
    out.extend_from_slice(b"\n")?;
    Ok(())
}

// Puts the lines of processes that wait.
pub(crate) fn put_waits(out: &mut Vec<u8>, waits: &[Wait]) -> Result<(), AllocError>
    ensures exact { OnOk result (out.new.items ≡ out.old.items ++ spec.wait_lines (map waiting_of waits.now)) }
{
    for wait in waits {
        put_wait(out, wait)?;
    }
    Ok(())
}
