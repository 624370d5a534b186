//! Processes that are put back into a kernel.

ghost use Rattle.std.specs.Prelude.{◌≡◌, length};
ghost use Rattle.edi_kernel.specs.Kernel.{IsKernel};
ghost use Rattle.edi_explore.specs.Back.{AreBack, AreLinedUp, AreProcesses, IsEmpty, IsSameRest, MayLineUp};

use edi_kernel::{Kept, Kernel};
use indexmap::IndexSet;

/// Puts the processes of these numbers back, where no process has been put back.
pub(crate) fn put_all_back(kernel: &mut Kernel, kept: &IndexSet<Kept>, numbers: &[u32])
    requires processes { AreProcesses kept.now.keys numbers.now }
    requires kernel { IsKernel kernel.old }
    requires empty { IsEmpty kept.now.keys numbers.now kernel.old }
    ensures back { AreBack kept.now.keys numbers.now (length numbers.now) kernel.new }
    ensures rest { IsSameRest kernel.old kernel.new }
    ensures kernel { IsKernel kernel.new }
{
    for number in numbers {
        kernel.put_back(&kept[*number as usize]);
    }
}

/// These processes line up, in this order.
pub(crate) fn line_all_up(kernel: &mut Kernel, slots: &[u8])
    requires kernel { IsKernel kernel.old }
    requires may { MayLineUp slots.now kernel.old }
    ensures lined { AreLinedUp slots.now (length slots.now) kernel.old kernel.new }
{
    for slot in slots {
        kernel.line_up(usize::from(*slot));
    }
}
