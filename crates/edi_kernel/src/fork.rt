//! A process forks.

ghost use Rattle.std.specs.Prelude.{◌≡◌, ◌≤◌, ◌<◌, ◌^◌, length, None};
ghost use Rattle.edi_machine.specs.Activities.{IsOrdered, local_of};
ghost use Rattle.edi_machine.specs.Starts.{IsFork, branches_at};
ghost use Rattle.edi_kernel.specs.Table.{free_slots};
ghost use Rattle.edi_kernel.specs.TableIsMachine.{IsTable};
ghost use Rattle.edi_kernel.specs.Forks.{HaveBegun};

use crate::table::Table;
use edi_machine::{Activity, branch};
use edi_store::Store;
use edi_target::{Code, Op, read_op};

/// The number of branches of the COBEGIN at this address, 0 where none stands there.
pub(crate) fn branch_count(code: &Code, at: u32) -> u32
    ensures { result ≡ length (branches_at code.now.words at) }
{
    let Some((op, _)) = read_op(code.words(), at) else {
        return 0;
    };
    match op {
        Op::Cobegin { branches, .. } => (branches.len() / 3) as u32,
        _ => 0,
    }
}

/// The children of the process at `slot`, of the COBEGIN at `at`, begin. There is room for them.
pub(crate) fn fork(
    store: &mut Store,
    table: &mut Table,
    code: &Code,
    at: u32,
    slot: usize,
    parent: &Activity,
)
    requires ordered { IsOrdered parent.now }
    requires fork { IsFork code.now.words at (branches_at code.now.words at) (local_of store.old parent.now) }
    requires table { IsTable table.old }
    requires slot { slot < 32 }
    requires room { length (branches_at code.now.words at) ≤ length (free_slots table.old) }
    ensures exact { let branches = branches_at code.now.words at in
        HaveBegun slot parent.now branches store.old table.old (length branches) store.new table.new }
    ensures table { IsTable table.new }
{
    for i in 0..branch_count(code, at) {
        let activity = branch(store, parent, code, at, i);
        table.add(slot, activity);
    }
}
