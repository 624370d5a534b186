//! Where a process stands in the code.

ghost use Rattle.std.specs.Prelude.{◌≡◌, ◌+◌, ◌≤◌, ◌^◌};
ghost use Rattle.edi_timeline.specs.Adding.{lines_in};
ghost use Rattle.edi_waits.specs.Places.{place};

use edi_kernel::Kernel;
use edi_machine::Activity;
use edi_target::Code;
use edi_timeline::Place;
use edi_waits::line_before;

/// The place where a process with this activity stands.
pub(crate) fn place_of(kernel: &Kernel, code: &Code, activity: &Activity) -> Place
    requires within { activity.now.base + 5 ≤ 2 ^ 16 }
    ensures exact { lines_in result ≡ place code.now.words kernel.now.store activity.now.segment.first activity.now.base activity.now.pc }
    ensures few { result.many ≤ 5 }
{
    let mut lines = [0_u16; 5];
    lines[0] = line_before(code, activity.pc);
    let mut many: u8 = 1;
    let mut base = activity.base;
    while many < 5 {
        let Some(below) = kernel.below(activity.segment.first, base) else {
            return Place { lines, many };
        };
        lines[many as usize] = line_before(code, below.back);
        many += 1;
        base = below.base;
    }
    Place { lines, many }
}
