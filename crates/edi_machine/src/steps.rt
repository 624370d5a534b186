//! One instruction.

ghost use Rattle.std.specs.Prelude.{◌≡◌, ◌<◌, ◌≤◌, ◌^◌, ℕ, None, true, length, IsTrue};
ghost use Rattle.edi_calls.specs.declared.ends.Outside.{Outside};
ghost use Rattle.edi_store.specs.Copied.{IsMemory};
ghost use Rattle.edi_machine.specs.Activities.{IsOrdered, local_of};
ghost use Rattle.edi_machine.specs.Steps.{Blames, CanFork, Forks, Keeps, Takes, UsesFailed, effect_of, ends_phase, is_released};

use crate::activity::Activity;
use crate::common::execute_here;
use crate::ends::StepEnd;
use edi_calls::Calls;
use edi_store::Store;
use edi_target::Code;

/// Executes the instruction at the activity's `pc`, as the definition of the machine has it. `live` is the number of live
/// processes, at most 32, and `first` tells whether this is the program's first process.
///
/// A turn that is due is not taken here. `On` with `held` gone from 1 to 0 is the end of a critical phase. Only a system
/// call uses `calls`, which must not have failed before.
pub fn step<C: Calls>(
    store: &mut Store,
    activity: &mut Activity,
    code: &Code,
    live: u32,
    first: bool,
    calls: &mut C,
) -> StepEnd
    requires working { C.failed calls.old None }
    requires live { live ≤ 32 }
    requires ordered { IsOrdered activity.old }
    ensures exact { let before = local_of store.old activity.old in
        Takes (effect_of code.now.words live first before) result before (local_of store.new activity.new) (C.state calls.old) (C.state calls.new) }
    ensures keeps { Keeps (effect_of code.now.words live first (local_of store.old activity.old)) calls.old calls.new }
    ensures later { (outside : Outside) → C.faults calls.old outside ≤ C.faults calls.new outside }
    ensures blame { Blames result (C.failed calls.new) (C.faults calls.old) (C.faults calls.new) }
    ensures used { UsesFailed (effect_of code.now.words live first (local_of store.old activity.old)) (C.failed calls.new) }
    ensures references { C.references calls.new ≡ C.references calls.old }
    ensures leads { (start : C) → C.leads start calls.old → C.leads start calls.new }
    ensures phase { let before = local_of store.old activity.old in
        ends_phase result before (local_of store.new activity.new) ≡ is_released (effect_of code.now.words live first before) }
    ensures fork { let before = local_of store.old activity.old in
        Forks (effect_of code.now.words live first before) code.now.words activity.old.pc }
    ensures branches { CanFork result code.now.words (local_of store.new activity.new) }
    ensures ordered { IsOrdered activity.new }
    ensures was_whole { IsMemory store.old }
    ensures whole { IsMemory store.new }
{
    let _was_whole = store.get(0);
    let words = code.words();
    let end = execute_here(store, activity, words, live, first, calls);
    let _whole = store.get(0);
    end
}
