//! The rules on statements.

ghost use Rattle.std.specs.Prelude.{◌≡◌, map, OnOk, IfOk, length, Option, Some, None, option_map, option_copied};
ghost use Rattle.edi_tree.specs.View.{args_of, assignment_of, branch_of, call_of, cobegin_of, condition_of, conditions_of, list_of, statement_of};
ghost use Rattle.edi_unit.specs.Tree as unit;
ghost use Rattle.edi_unit.specs.View.{act_of, acts_of, clause_of, clauses_of};
ghost use Rattle.edi_static.specs.Prelude.{JudgedAnswers, Proper, environment, gives, list_items};
ghost use Rattle.edi_static.specs.Fitting as fitting;
ghost use Rattle.edi_static.specs.Statements as spec;
ghost use Rattle.edi_values.specs.Views.{called_of, used_of};
ghost use Rattle.edi_sema.specs.Frames.{Stays};
ghost use Rattle.edi_sema.specs.Walks.{closed_branch};

use crate::blocks::{close_block, enter_around, leave_around};
use edi_static::{Judged, Known, StaticKind, add, constant, fault, must, no_asked, number};
use edi_tree as text;
use edi_unit::{Act, Acts, BOOL, BlockKind, Clause, Clauses, INT, List, Numbers};
use edi_values::{Called, Use, args_count, arguments, expression, use_of, variable_place};
use std::alloc::Global;

/// The variable and the expression are of one type.
fn assignment(known: &Known, alloc: Global, assignment: &text::Assignment) -> Judged<Act>
    ensures exact { JudgedAnswers (λ a. record { what = act_of a; env = environment known.now }) result
        (spec.statement (assignment_of assignment.now) (environment known.now)) }
{
    let located = variable_place(known, alloc, &assignment.variable)?;
    let value = expression(known, alloc, &assignment.expr)?;
    must(located.of == value.of, StaticKind::Types, assignment.line)?;
    Ok(Act::Assign(located.place, value.what))
}

/// A call of a procedure, with as many arguments as its heading has parameters.
fn procedure_call(
    known: &Known,
    alloc: Global,
    line: u16,
    called: Called,
    args: &text::Args,
) -> Judged<Act>
    ensures exact { JudgedAnswers act_of result (spec.called (environment known.now) line (fitting.calls (called_of called.entry)) (Some (args_of args.now))) }
{
    must(
        called.is_procedure_of(args_count(args)),
        StaticKind::Call,
        line,
    )?;
    let arguments = arguments(known, alloc, line, args, called.formals())?;
    Ok(Act::Call(called.callee, arguments, line))
}

/// A call of a procedure without arguments.
fn bare_call(known: &Known, alloc: Global, line: u16, called: Called) -> Judged<Act>
    ensures exact { JudgedAnswers act_of result (spec.called (environment known.now) line (fitting.calls (called_of called.entry)) None) }
{
    let _ = known;
    must(called.is_procedure_of(0), StaticKind::Call, line)?;
    Ok(Act::Call(called.callee, List::new(alloc), line))
}

/// A call as a statement is that of a procedure.
fn called(
    known: &Known,
    alloc: Global,
    line: u16,
    used: Use,
    args: Option<&text::Args>,
) -> Judged<Act>
    ensures exact { JudgedAnswers act_of result
        (spec.called (environment known.now) line (used_of used.entry) (option_map args_of (option_copied args.entry))) }
{
    match used {
        Use::Calls(called) => match args {
            Some(args) => procedure_call(known, alloc, line, called, args),
            None => bare_call(known, alloc, line, called),
        },
        Use::Halts => match args {
            Some(_) => fault(StaticKind::Call, line),
            None => Ok(Act::Halt(line)),
        },
        Use::Constructs(_) => fault(StaticKind::Kind, line),
        Use::Neither => fault(StaticKind::Kind, line),
    }
}

/// The name before arguments, or alone, is judged first.
fn call(known: &Known, alloc: Global, call: &text::Call) -> Judged<Act>
    ensures exact { JudgedAnswers (λ a. record { what = act_of a; env = environment known.now }) result
        (spec.statement (call_of call.now) (environment known.now)) }
{
    let means = known.look_up(&call.name)?;
    let used = use_of(known, means)?;
    called(known, alloc, call.name.line, used, call.args.as_ref())
}

/// A branch is a block of its own in the block where it stands.
fn enter_branch(known: &mut Known, alloc: Global) -> Judged<u32>
    requires proper { Proper (environment known.old) }
    ensures exact { JudgedAnswers (λ _. environment known.new) result (gives (spec.enter_branch (environment known.old))) }
    ensures number { IfOk result (λ block. block ≡ length (environment known.old).blocks) }
    ensures proper { OnOk result (Proper (environment known.new)) }
{
    let block = number(known.blocks.len())?;
    known.push_block(alloc, BlockKind::Branch, List::new(alloc), no_asked(alloc))?;
    enter_around(known, block)?;
    Ok(block)
}

fn cobegin_act(blocks: Numbers, line: u16) -> Act
    ensures exact { act_of result ≡ unit.cobegin (list_items blocks) line }
{
    Act::Cobegin(blocks, line)
}

/// Statements from left to right.
#[cycle(statements)]
pub(crate) fn statement_list(known: &mut Known, alloc: Global, list: &text::List) -> Judged<Acts>
    requires proper { Proper (environment known.old) }
    ensures exact { JudgedAnswers (λ acts. record { what = acts_of acts; env = environment known.new }) result
        (spec.statement_list (list_of list.now) (environment known.old)) }
    ensures stays { OnOk result (Stays (environment known.old) (environment known.new)) }
{
    let mut acts = List::new(alloc);
    let first = statement(known, alloc, &list.first)?;
    add(&mut acts, alloc, first)?;
    for one in list.more.items() {
        let act = statement(known, alloc, one)?;
        add(&mut acts, alloc, act)?;
    }
    Ok(acts)
}

#[cycle(statements)]
fn statement(known: &mut Known, alloc: Global, statement: &text::Statement) -> Judged<Act>
    requires proper { Proper (environment known.old) }
    ensures exact { JudgedAnswers (λ act. record { what = act_of act; env = environment known.new }) result
        (spec.statement (statement_of statement.now) (environment known.old)) }
    ensures stays { OnOk result (Stays (environment known.old) (environment known.new)) }
{
    match statement {
        text::Statement::Skip => Ok(Act::Skip),
        text::Statement::Assignment(one) => assignment(known, alloc, one),
        text::Statement::Call(one) => call(known, alloc, one),
        text::Statement::If(cs) => Ok(Act::If(conditions(known, alloc, cs)?)),
        text::Statement::While(cs) => Ok(Act::While(conditions(known, alloc, cs)?)),
        text::Statement::When(when) => {
            let clauses = conditions(known, alloc, &when.conditions)?;
            Ok(Act::When(clauses, when.line))
        }
        text::Statement::Cobegin(one) => cobegin(known, alloc, one),
    }
}

/// Conditions from left to right.
#[cycle(statements)]
fn conditions(known: &mut Known, alloc: Global, conditions: &text::Conditions) -> Judged<Clauses>
    requires proper { Proper (environment known.old) }
    ensures exact { JudgedAnswers (λ clauses. record { what = clauses_of clauses; env = environment known.new }) result
        (spec.conditions (conditions_of conditions.now) (environment known.old)) }
    ensures stays { OnOk result (Stays (environment known.old) (environment known.new)) }
{
    let mut clauses = List::new(alloc);
    let first = condition(known, alloc, &conditions.first)?;
    add(&mut clauses, alloc, first)?;
    for one in conditions.more.items() {
        let clause = condition(known, alloc, one)?;
        add(&mut clauses, alloc, clause)?;
    }
    Ok(clauses)
}

/// A condition is of type `bool`; that is judged at its `do`, before the statements behind it.
#[cycle(statements)]
fn condition(known: &mut Known, alloc: Global, condition: &text::Condition) -> Judged<Clause>
    requires proper { Proper (environment known.old) }
    ensures exact { JudgedAnswers (λ clause. record { what = clause_of clause; env = environment known.new }) result
        (spec.condition (condition_of condition.now) (environment known.old)) }
    ensures stays { OnOk result (Stays (environment known.old) (environment known.new)) }
{
    let value = expression(known, alloc, &condition.expr)?;
    must(value.of == BOOL, StaticKind::Types, condition.line)?;
    let body = statement_list(known, alloc, &condition.list)?;
    Ok(Clause {
        condition: value.what,
        body,
    })
}

/// The branches from left to right.
#[cycle(statements)]
fn cobegin(known: &mut Known, alloc: Global, cobegin: &text::Cobegin) -> Judged<Act>
    requires proper { Proper (environment known.old) }
    ensures exact { JudgedAnswers (λ act. record { what = act_of act; env = environment known.new }) result
        (spec.statement (cobegin_of cobegin.now) (environment known.old)) }
    ensures stays { OnOk result (Stays (environment known.old) (environment known.new)) }
{
    let mut blocks = List::new(alloc);
    let first = branch_block(known, alloc, &cobegin.first)?;
    add(&mut blocks, alloc, first)?;
    for one in cobegin.more.items() {
        let block = branch_block(known, alloc, one)?;
        add(&mut blocks, alloc, block)?;
    }
    Ok(cobegin_act(blocks, cobegin.line))
}

/// A branch's constant is of type `int`; that too is judged at its `do`. The symbol behind the branch closes its block.
#[cycle(statements)]
fn branch_block(known: &mut Known, alloc: Global, branch: &text::Branch) -> Judged<u32>
    requires proper { Proper (environment known.old) }
    ensures exact { JudgedAnswers (λ block. record { what = block; env = environment known.new }) result
        (closed_branch (branch_of branch.now) (environment known.old)) }
    ensures stays { OnOk result (Stays (environment known.old) (environment known.new)) }
{
    let value = constant(known, &branch.constant)?;
    must(value.of == INT, StaticKind::Types, branch.line)?;
    let block = enter_branch(known, alloc)?;
    let acts = statement_list(known, alloc, &branch.list)?;
    close_block(known, alloc, block, acts, branch.end)?;
    leave_around(known);
    Ok(block)
}
