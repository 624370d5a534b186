//! The layers of trees of statements, each with the plain tree for which it stands.

ghost use Rattle.std.specs.Prelude.{◌≡◌, Some, None, IfOk};
ghost use Rattle.edi_tree.specs.Tree as tree;
ghost use Rattle.edi_tree.specs.View.{args_of, branch_of, branches_of, condition_of, conditions_of, else_of, expr_of, list_of, selectors_of, statement_of};
ghost use Rattle.edi_tree.specs.View.{statements_of};
ghost use Rattle.edi_syntax.specs.statements.Guards.{guarded};

use edi_lex::Symbol;
use edi_tree::{
    Args, Assignment, Branch, Branches, Call, Cobegin, Condition, Conditions, Constant, Else, Expr,
    List, Name, Root, Selectors, Statement, Statements, Variable, When,
};
use std::alloc::{AllocError, Global};

/// `"skip"`
pub fn make_skip() -> Statement
    ensures seen { statement_of result ≡ tree.skip }
{
    Statement::Skip
}

/// `Root { Selector } ":=" Expr`
pub fn make_assignment(root: Root, selectors: Selectors, line: u16, expr: Expr) -> Statement
    ensures seen { statement_of result ≡ tree.assignment (tree.variable root (selectors_of selectors)) line (expr_of expr) }
{
    let variable = Variable { root, selectors };
    Statement::Assignment(Assignment {
        variable,
        line,
        expr,
    })
}

/// `Name Args`
pub fn make_call(name: Name, args: Args) -> Statement
    ensures seen { statement_of result ≡ tree.call name (Some (args_of args)) }
{
    let args = Some(args);
    Statement::Call(Call { name, args })
}

/// `Name`
pub fn make_lone_call(name: Name) -> Statement
    ensures seen { statement_of result ≡ tree.call name None }
{
    let args = None;
    Statement::Call(Call { name, args })
}

/// `"if" Conditions "end" | "while" Conditions "end" | "when" Conditions "end"`, by the symbol that begins it. The line is
/// that of the symbol, which only a `when` keeps.
pub fn make_guarded(guard: &Symbol, line: u16, conditions: Conditions) -> Statement
    ensures seen { statement_of result ≡ guarded guard.now line (conditions_of conditions) }
{
    match guard {
        Symbol::If => Statement::If(conditions),
        Symbol::While => Statement::While(conditions),
        _ => Statement::When(When { line, conditions }),
    }
}

/// `"cobegin" Branch { "also" Branch } "end"`
pub fn make_cobegin(line: u16, first: Branch, more: Branches) -> Statement
    ensures seen { statement_of result ≡ tree.cobegin line (branch_of first).opened (branches_of (branch_of first).end more) }
{
    Statement::Cobegin(Cobegin { line, first, more })
}

/// `Constant "do" List`, and the line of the symbol behind it.
pub fn make_branch(constant: Constant, line: u16, list: List, end: u16) -> Branch
    ensures seen { (branch_of result).opened ≡ tree.branch constant line (list_of list) }
    ensures closed { (branch_of result).end ≡ end }
{
    Branch {
        constant,
        line,
        list,
        end,
    }
}

/// `Expr "do" List`
pub fn make_condition(expr: Expr, line: u16, list: List) -> Condition
    ensures seen { condition_of result ≡ tree.condition (expr_of expr) line (list_of list) }
{
    Condition { expr, line, list }
}

/// `Condition { "else" Condition }`
pub fn make_conditions(first: Condition, more: Else) -> Conditions
    ensures seen { conditions_of result ≡ tree.conditions (condition_of first) (else_of more) }
{
    Conditions { first, more }
}

/// `Statement { ";" Statement }`
pub fn make_list(alloc: Global, first: Statement, more: Statements) -> Result<List, AllocError>
    ensures seen { IfOk result (λ l. list_of l ≡ tree.list (statement_of first) (statements_of more)) }
{
    let boxed = Box::new(alloc, first)?;
    Ok(List { first: boxed, more })
}
