//! Printing of statements.

ghost use Rattle.std.specs.Prelude.{◌≡◌, OnOk};
ghost use Rattle.edi_tree.specs.View.{branch_of, branches_of, cobegin_of, condition_of, conditions_of, list_of, statement_of};
ghost use Rattle.edi_tree.specs.Stands.{just};
ghost use Rattle.edi_lex.specs.declared.symbol.Symbol.TheVariants as is;
ghost use Rattle.edi_tree.specs.Printing as spec;

use crate::printer::Printer;
use crate::statements::{Branch, Branches, Cobegin, Condition, Conditions, List, Statement};
use std::alloc::{AllocError, Global};

impl Printer {
    #[cycle(print_list)]
    pub(crate) fn list(&mut self, alloc: Global, list: &List) -> Result<(), AllocError>
        ensures exact { OnOk result (self.new ≡ spec.print_list (list_of list.now) self.old) }
    {
        self.statement(alloc, &list.first)?;
        for statement in list.more.items() {
            self.word(alloc, b";")?;
            self.statement(alloc, statement)?;
        }
        Ok(())
    }

    #[cycle(print_list)]
    fn statement(&mut self, alloc: Global, statement: &Statement) -> Result<(), AllocError>
        ensures exact { OnOk result (self.new ≡ spec.print_statement (statement_of statement.now) self.old) }
    {
        match statement {
            Statement::Skip => self.word(alloc, b"skip"),
            Statement::Assignment(assignment) => {
                self.variable(alloc, &assignment.variable)?;
                self.symbol(alloc, b":=", Some(assignment.line))?;
                self.expr(alloc, &assignment.expr)
            }
            Statement::Call(call) => {
                self.name(alloc, &call.name)?;
                match &call.args {
                    Some(args) => self.args(alloc, args),
                    None => Ok(()),
                }
            }
            Statement::If(conditions) => self.conditions(alloc, b"if", None, conditions),
            Statement::While(conditions) => self.conditions(alloc, b"while", None, conditions),
            Statement::When(when) => {
                self.conditions(alloc, b"when", Some(when.line), &when.conditions)
            }
            Statement::Cobegin(cobegin) => self.cobegin(alloc, cobegin),
        }
    }

    // The word that opens conditions, on this line if its line is kept; the conditions, and `end`.
    #[cycle(print_list)]
    fn conditions(
        &mut self,
        alloc: Global,
        opening: &[u8],
        line: Option<u16>,
        conditions: &Conditions,
    ) -> Result<(), AllocError>
        ensures exact { OnOk result
            (self.new ≡ spec.put (just is.End) (spec.print_conditions (conditions_of conditions.now) (spec.put_text opening.now line self.old))) }
    {
        self.condition(alloc, opening, line, &conditions.first)?;
        for condition in conditions.more.items() {
            self.condition(alloc, b"else", None, condition)?;
        }
        self.word(alloc, b"end")
    }

    // The word before a condition, on this line if its line is kept; the condition, and its list.
    #[cycle(print_list)]
    fn condition(
        &mut self,
        alloc: Global,
        opening: &[u8],
        line: Option<u16>,
        condition: &Condition,
    ) -> Result<(), AllocError>
        ensures exact { OnOk result
            (self.new ≡ spec.print_condition (condition_of condition.now) (spec.put_text opening.now line self.old)) }
    {
        self.symbol(alloc, opening, line)?;
        self.expr(alloc, &condition.expr)?;
        self.symbol(alloc, b"do", Some(condition.line))?;
        self.list(alloc, &condition.list)
    }

    #[cycle(print_list)]
    fn cobegin(&mut self, alloc: Global, cobegin: &Cobegin) -> Result<(), AllocError>
        ensures exact { OnOk result (self.new ≡ spec.print_statement (cobegin_of cobegin.now) self.old) }
    {
        self.symbol(alloc, b"cobegin", Some(cobegin.line))?;
        self.branch(alloc, &cobegin.first)?;
        self.branches(alloc, cobegin.first.end, &cobegin.more)
    }

    // The branches behind one that is closed on this line, and the `end` behind the last.
    #[cycle(print_list)]
    fn branches(&mut self, alloc: Global, end: u16, branches: &Branches) -> Result<(), AllocError>
        ensures exact { OnOk result (self.new ≡ spec.print_branches (branches_of end branches.now) self.old) }
    {
        let mut end = end;
        for branch in branches.items() {
            self.symbol(alloc, b"also", Some(end))?;
            self.branch(alloc, branch)?;
            end = branch.end;
        }
        self.symbol(alloc, b"end", Some(end))
    }

    #[cycle(print_list)]
    fn branch(&mut self, alloc: Global, branch: &Branch) -> Result<(), AllocError>
        ensures exact { OnOk result (self.new ≡ spec.print_branch (branch_of branch.now).opened self.old) }
    {
        self.constant(alloc, &branch.constant)?;
        self.symbol(alloc, b"do", Some(branch.line))?;
        self.list(alloc, &branch.list)
    }
}
