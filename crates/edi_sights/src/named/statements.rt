//! The blocks of statements: each branch of a `cobegin` is one.

ghost use Rattle.std.specs.Prelude.{◌≡◌, OnOk};
ghost use Rattle.edi_tree.specs.View.{branch_of, cobegin_of, condition_of, conditions_of, list_of, statement_of};
ghost use Rattle.edi_sights.specs.named.Naming as spec;
ghost use Rattle.edi_sights.specs.named.Views.{naming_of};

use crate::named::walk::{Walk, add_branch};
use edi_tree::{Branch, Cobegin, Condition, Conditions, List, Statement};
use std::alloc::{AllocError, Global};

/// The branches in a list of statements.
#[cycle(branches)]
pub(crate) fn list_named(list: &List, walk: &mut Walk, alloc: Global) -> Result<(), AllocError>
    ensures exact { OnOk result (naming_of walk.new ≡ spec.list_named (list_of list.now) (naming_of walk.old)) }
{
    statement_named(&list.first, walk, alloc)?;
    for one in list.more.items() {
        statement_named(one, walk, alloc)?;
    }
    Ok(())
}

#[cycle(branches)]
fn statement_named(statement: &Statement, walk: &mut Walk, alloc: Global) -> Result<(), AllocError>
    ensures exact { OnOk result (naming_of walk.new ≡ spec.statement_named (statement_of statement.now) (naming_of walk.old)) }
{
    match statement {
        Statement::Skip => Ok(()),
        Statement::Assignment(_) => Ok(()),
        Statement::Call(_) => Ok(()),
        Statement::If(conditions) => conditions_named(conditions, walk, alloc),
        Statement::While(conditions) => conditions_named(conditions, walk, alloc),
        Statement::When(when) => conditions_named(&when.conditions, walk, alloc),
        Statement::Cobegin(cobegin) => cobegin_named(cobegin, walk, alloc),
    }
}

#[cycle(branches)]
fn conditions_named(
    conditions: &Conditions,
    walk: &mut Walk,
    alloc: Global,
) -> Result<(), AllocError>
    ensures exact { OnOk result (naming_of walk.new ≡ spec.conditions_named (conditions_of conditions.now) (naming_of walk.old)) }
{
    condition_named(&conditions.first, walk, alloc)?;
    for one in conditions.more.items() {
        condition_named(one, walk, alloc)?;
    }
    Ok(())
}

#[cycle(branches)]
fn condition_named(condition: &Condition, walk: &mut Walk, alloc: Global) -> Result<(), AllocError>
    ensures exact { OnOk result (naming_of walk.new ≡ spec.condition_named (condition_of condition.now) (naming_of walk.old)) }
{
    list_named(&condition.list, walk, alloc)
}

#[cycle(branches)]
fn cobegin_named(cobegin: &Cobegin, walk: &mut Walk, alloc: Global) -> Result<(), AllocError>
    ensures exact { OnOk result (naming_of walk.new ≡ spec.statement_named (cobegin_of cobegin.now) (naming_of walk.old)) }
{
    branch_named(&cobegin.first, walk, alloc)?;
    for one in cobegin.more.items() {
        branch_named(one, walk, alloc)?;
    }
    Ok(())
}

#[cycle(branches)]
fn branch_named(branch: &Branch, walk: &mut Walk, alloc: Global) -> Result<(), AllocError>
    ensures exact { OnOk result (naming_of walk.new ≡ spec.branch_named (branch_of branch.now).opened (naming_of walk.old)) }
{
    add_branch(walk, alloc)?;
    list_named(&branch.list, walk, alloc)
}
