//! Units that are coded by themselves.

ghost use Rattle.std.specs.Prelude.{◌≡◌, IfOk};
ghost use Rattle.edi_unit.specs.View.{unit_of};
ghost use Rattle.edi_scheme.specs.Laws.{parts_of};
ghost use Rattle.edi_follows.specs.Theorem.{CanBeCoded};
ghost use Rattle.edi_compile.specs.Meant.{DoesAsMeant};

use edi_code::generate;
use edi_target::Code;
use edi_unit::Unit;
use std::alloc::{AllocError, Global};

/// The code of a unit that can be coded, as the one that `front` gives. It is the code that `generate` gives, and it does what the
/// unit means: from every state of the system, with every bound on the turns and all choices it has the same outcome, and comes
/// through the same states of the system. It has no fault, and none of its processes changes a word of a stranger. The only error
/// is want of memory.
pub fn translate(alloc: Global, unit: &Unit) -> Result<Code, AllocError>
    requires can { CanBeCoded (unit_of unit.now) }
    ensures exact { IfOk result (λ code. code ≡ parts_of (unit_of unit.now)) }
    ensures meant { IfOk result (λ code. DoesAsMeant (unit_of unit.now) code) }
{
    generate(alloc, unit)
}
