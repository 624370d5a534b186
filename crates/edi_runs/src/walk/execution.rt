//! A walk on a system.

ghost use Rattle.std.specs.Prelude.{◌≡◌, ◌↔◌, IsSome};
ghost use Rattle.edi_told.specs.Told.{WhereTold};
ghost use Rattle.edi_calls.specs.State.{fresh};
ghost use Rattle.edi_unit.specs.View.{unit_of};
ghost use Rattle.edi_system.specs.AsCalls.{FailsBeforeEnd, KeepsDue};
ghost use Rattle.edi_system.specs.Ends.{Keeps};
ghost use Rattle.edi_system.specs.Parts.{KeepsTold};
ghost use Rattle.edi_system.specs.State.{drive_in, failed_in, state_of, IsReady};
ghost use Rattle.edi_walk.specs.Ends.{WalkFaultsBy, WalksTo};
ghost use Rattle.edi_runs.specs.walk.Leaves.{is_fault_end};

use edi_host::{Drive, Sink, Source};
use edi_system::System;
use edi_trace::Choices;
use edi_unit::Unit;
use edi_walk::{WalkEnd, walk};
use std::alloc::Global;

/// Walks through a unit from its start on a system, from the state with no file open, with at most `bound` turns and the choices
/// after those that were drawn before. No object of the system has failed. After `Fault` one has, and no further call is made.
pub(crate) fn walk_execution<D: Drive, S: Source, T: Sink, P: Sink>(
    alloc: Global,
    unit: &Unit,
    system: &mut System<'_, '_, '_, '_, '_, '_, D, S, T, P>,
    bound: u64,
    choices: &mut Choices,
) -> WalkEnd
    requires ready { IsReady D.contents D.count system.old }
    ensures exact { WhereTold (state_of D.contents S.left T.taken P.taken system.old)
        (state_of D.contents S.left T.taken P.taken system.new)
        (λ before after. WalksTo (unit_of unit.now) (fresh before) bound choices.old result after choices.new) }
    // The call in which an object failed is one that uses this object.
    ensures asked { WhereTold (state_of D.contents S.left T.taken P.taken system.old)
        (state_of D.contents S.left T.taken P.taken system.new)
        (λ before after. WalkFaultsBy (λ outside. failed_in system.new ≡ outside) (unit_of unit.now) (fresh before) bound choices.old result after
        choices.new) }
    // The input has failed before its end.
    ensures before_end { FailsBeforeEnd S.left system.new }
    // An object has failed exactly where the answer says so, and its count rose.
    ensures failed { IsSome (failed_in system.new) ↔ (result ≡ WalkEnd.Fault) }
    ensures due { KeepsDue T.taken system.old system.new }
    ensures told { KeepsTold D.contents S.left T.taken P.taken system.old system.new }
    // The drive has as many blocks as before.
    ensures size { D.count (drive_in system.new) ≡ D.count (drive_in system.old) }
    ensures keeps { Keeps D.faults S.faults T.faults P.faults (is_fault_end result) system.old system.new }
    ensures source { choices.new.source ≡ choices.old.source }
{
    system.begin_program();
    walk(alloc, unit, system, bound, choices)
}
