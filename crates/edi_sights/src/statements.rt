//! The `when`s of statements. These are not judged here: besides what is known where they begin only the number of the next
//! block has to be known.

ghost use Rattle.std.specs.Prelude.{◌≡◌, OnOk};
ghost use Rattle.edi_tree.specs.View.{branch_of, cobegin_of, condition_of, conditions_of, list_of, statement_of};
ghost use Rattle.edi_static.specs.Prelude.{JudgedAnswers, environment, gives};
ghost use Rattle.edi_sema.specs.Blocks.{inside_block, outside_block};
ghost use Rattle.edi_sights.specs.Counted as spec;
ghost use Rattle.edi_sights.specs.Views.{met_of};

use crate::awaits::{Met, meet, next_block};
use edi_sema::{enter_around, leave_around};
use edi_static::Known;
use edi_tree::{Branch, Cobegin, Condition, Conditions, List, Statement};
use std::alloc::AllocError;

/// Enters a block.
fn enter(known: &mut Known, block: u32) -> Result<(), AllocError>
    ensures exact { OnOk result (environment known.new ≡ inside_block block (environment known.old)) }
{
    match enter_around(known, block) {
        Ok(()) => Ok(()),
        Err(_) => Err(AllocError),
    }
}

/// The `when`s of a list of statements.
#[cycle(statements)]
pub(crate) fn list_met(
    list: &List,
    name: &[u8],
    known: &mut Known,
    met: &mut Met,
) -> Result<(), AllocError>
    ensures exact { OnOk result (met_of met.new ≡ spec.list_counted name.now (list_of list.now) (environment known.old) (met_of met.old)) }
    ensures same { OnOk result (environment known.new ≡ environment known.old) }
{
    statement_met(&list.first, name, known, met)?;
    for one in list.more.items() {
        statement_met(one, name, known, met)?;
    }
    Ok(())
}

#[cycle(statements)]
fn statement_met(
    statement: &Statement,
    name: &[u8],
    known: &mut Known,
    met: &mut Met,
) -> Result<(), AllocError>
    ensures exact { OnOk result (met_of met.new ≡ spec.statement_counted name.now (statement_of statement.now) (environment known.old) (met_of met.old)) }
    ensures same { OnOk result (environment known.new ≡ environment known.old) }
{
    match statement {
        Statement::Skip => Ok(()),
        Statement::Assignment(_) => Ok(()),
        Statement::Call(_) => Ok(()),
        Statement::If(conditions) => conditions_met(conditions, name, known, met),
        Statement::While(conditions) => conditions_met(conditions, name, known, met),
        Statement::When(when) => {
            meet(met, known, name, when.line)?;
            conditions_met(&when.conditions, name, known, met)
        }
        Statement::Cobegin(cobegin) => cobegin_met(cobegin, name, known, met),
    }
}

#[cycle(statements)]
fn conditions_met(
    conditions: &Conditions,
    name: &[u8],
    known: &mut Known,
    met: &mut Met,
) -> Result<(), AllocError>
    ensures exact { OnOk result (met_of met.new ≡ spec.conditions_counted name.now (conditions_of conditions.now) (environment known.old) (met_of met.old)) }
    ensures same { OnOk result (environment known.new ≡ environment known.old) }
{
    condition_met(&conditions.first, name, known, met)?;
    for one in conditions.more.items() {
        condition_met(one, name, known, met)?;
    }
    Ok(())
}

#[cycle(statements)]
fn condition_met(
    condition: &Condition,
    name: &[u8],
    known: &mut Known,
    met: &mut Met,
) -> Result<(), AllocError>
    ensures exact { OnOk result (met_of met.new ≡ spec.condition_counted name.now (condition_of condition.now) (environment known.old) (met_of met.old)) }
    ensures same { OnOk result (environment known.new ≡ environment known.old) }
{
    list_met(&condition.list, name, known, met)
}

#[cycle(statements)]
fn cobegin_met(
    cobegin: &Cobegin,
    name: &[u8],
    known: &mut Known,
    met: &mut Met,
) -> Result<(), AllocError>
    ensures exact { OnOk result (met_of met.new ≡ spec.statement_counted name.now (cobegin_of cobegin.now) (environment known.old) (met_of met.old)) }
    ensures same { OnOk result (environment known.new ≡ environment known.old) }
{
    branch_met(&cobegin.first, name, known, met)?;
    for one in cobegin.more.items() {
        branch_met(one, name, known, met)?;
    }
    Ok(())
}

/// A branch is the next block.
#[cycle(statements)]
fn branch_met(
    branch: &Branch,
    name: &[u8],
    known: &mut Known,
    met: &mut Met,
) -> Result<(), AllocError>
    ensures exact { OnOk result (met_of met.new ≡ spec.branch_counted name.now (branch_of branch.now).opened (environment known.old) (met_of met.old)) }
    ensures same { OnOk result (environment known.new ≡ environment known.old) }
{
    let block = next_block(met)?;
    enter(known, block)?;
    list_met(&branch.list, name, known, met)?;
    leave_around(known);
    Ok(())
}
