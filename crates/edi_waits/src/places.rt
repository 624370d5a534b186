//! Where a process stands, in lines.

ghost use Rattle.std.specs.Prelude.{◌≡◌, ◌+◌, ◌≤◌, ◌^◌, IfOk};
ghost use Rattle.edi_waits.specs.Places as spec;

use edi_kernel::Kernel;
use edi_target::Code;
use std::alloc::{AllocError, Global};

/// The lines of a place.
const MOST_LINES: usize = 5;

/// The line before an address of the code: that of the `when` or the call that ends there.
pub fn line_before(code: &Code, at: u32) -> u16
    ensures { result ≡ spec.line_before code.now.words at }
{
    match code.words().get(at.saturating_sub(1) as usize) {
        Some(line) => *line,
        None => 0,
    }
}

/// The place of a process whose newest frame is at `base` in the segment from `first`, and which goes on at `pc`. The only error is want of
/// memory.
pub(crate) fn place_of(
    alloc: Global,
    kernel: &Kernel,
    code: &Code,
    first: u32,
    base: u32,
    pc: u32,
) -> Result<Vec<u16>, AllocError>
    requires within { base + 5 ≤ 2 ^ 16 }
    ensures exact { IfOk result (λ lines. lines.items ≡ spec.place code.now.words kernel.now.store first base pc) }
{
    let mut lines = Vec::with_capacity(alloc, MOST_LINES)?;
    lines.push(line_before(code, pc))?;
    let mut at = base;
    for _ in 1..MOST_LINES {
        let Some(below) = kernel.below(first, at) else {
            return Ok(lines);
        };
        lines.push(line_before(code, below.back))?;
        at = below.base;
    }
    Ok(lines)
}
