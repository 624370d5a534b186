//! A timed run over calls that are lent.

ghost use Rattle.std.specs.Prelude.{◌≡◌, ◌+◌, ◌<◌, ◌≤◌, ◌^◌, [], None, Some};
ghost use Rattle.edi_told.specs.Told.{WhereTold};
ghost use Rattle.edi_calls.specs.declared.ends.Outside.{Outside};
ghost use Rattle.edi_kernel.specs.Kernel.{fault_of};
ghost use Rattle.edi_kernel.specs.Runs.{FaultsBy};
ghost use Rattle.edi_kernel.specs.Stretch.{Blamed};
ghost use Rattle.edi_timed.specs.Timed.{Timed};

use crate::heard::Heard;
use crate::running::timed;
use edi_calls::Calls;
use edi_kernel::{Ending, Kernel};
use edi_target::Code;
use edi_timeline::Timeline;
use edi_trace::Choices;

/// Runs the code from its start, as `timed` does, with the calls of an object that is lent.
pub(crate) fn timed_lent<C: Calls>(
    kernel: &mut Kernel,
    code: &Code,
    calls: &mut C,
    bound: u32,
    choices: &mut Choices,
    timeline: &mut Timeline,
) -> Ending
    requires working { C.failed calls.old None }
    requires empty { timeline.old ≡ record { stints = []; count = 0; ending = None } }
    ensures exact { choices.old.drawn + bound < 2 ^ 64 → WhereTold (C.state calls.old) (C.state calls.new) (λ s t.
        Timed code.now s bound choices.old result kernel.new t choices.new timeline.new) }
    ensures asked { choices.old.drawn + bound < 2 ^ 64 → WhereTold (C.state calls.old) (C.state calls.new) (λ s t.
        FaultsBy (C.failed calls.new) code.now s bound choices.old result kernel.new.used t choices.new) }
    ensures used { kernel.new.used ≤ bound }
    ensures source { choices.new.source ≡ choices.old.source }
    ensures drawn { choices.new.drawn ≤ choices.old.drawn + bound }
    ensures later { (outside : Outside) → C.faults calls.old outside ≤ C.faults calls.new outside }
    ensures blame { Blamed (fault_of (Some result)) (C.failed calls.new) (C.faults calls.old) (C.faults calls.new) }
    ensures references { C.references calls.new ≡ C.references calls.old }
    ensures leads { (start : C) → C.leads start calls.old → C.leads start calls.new }
{
    let mut heard = Heard::new(calls);
    timed(kernel, code, &mut heard, bound, choices, timeline)
}
