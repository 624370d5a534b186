//! Printing of expressions.

ghost use Rattle.std.specs.Prelude.{◌≡◌, OnOk};
ghost use Rattle.edi_tree.specs.View.{args_of, comparison_of, expr_of, exprs_of, factor_of, simple_of, term_of, variable_of};
ghost use Rattle.edi_tree.specs.Printing as spec;

use crate::expressions::{
    Args, Comparison, Expr, Exprs, Factor, Root, Selector, Sign, Simple, Term, Variable,
};
use crate::printer::{Printer, addition_text, multiplication_text, relation_text};
use std::alloc::{AllocError, Global};

impl Printer {
    #[cycle(print_expr)]
    pub(crate) fn expr(&mut self, alloc: Global, expr: &Expr) -> Result<(), AllocError>
        ensures exact { OnOk result (self.new ≡ spec.print_expr (expr_of expr.now) self.old) }
    {
        self.simple(alloc, &expr.left)?;
        match &expr.comparison {
            Some(comparison) => self.comparison(alloc, comparison),
            None => Ok(()),
        }
    }

    #[cycle(print_expr)]
    fn comparison(&mut self, alloc: Global, comparison: &Comparison) -> Result<(), AllocError>
        ensures exact { OnOk result (self.new ≡ spec.print_comparison (comparison_of comparison.now) self.old) }
    {
        self.symbol(
            alloc,
            relation_text(comparison.relation),
            Some(comparison.line),
        )?;
        self.simple(alloc, &comparison.right)
    }

    fn sign(&mut self, alloc: Global, sign: Option<Sign>) -> Result<(), AllocError>
        ensures exact { OnOk result (self.new ≡ spec.print_sign sign self.old) }
    {
        match sign {
            Some(Sign::Plus(line)) => self.symbol(alloc, b"+", Some(line)),
            Some(Sign::Minus(line)) => self.symbol(alloc, b"-", Some(line)),
            None => Ok(()),
        }
    }

    #[cycle(print_expr)]
    fn simple(&mut self, alloc: Global, simple: &Simple) -> Result<(), AllocError>
        ensures exact { OnOk result (self.new ≡ spec.print_simple (simple_of simple.now) self.old) }
    {
        self.sign(alloc, simple.sign)?;
        self.term(alloc, &simple.first)?;
        for addend in simple.more.items() {
            self.symbol(alloc, addition_text(addend.operator), Some(addend.line))?;
            self.term(alloc, &addend.term)?;
        }
        Ok(())
    }

    #[cycle(print_expr)]
    fn term(&mut self, alloc: Global, term: &Term) -> Result<(), AllocError>
        ensures exact { OnOk result (self.new ≡ spec.print_term (term_of term.now) self.old) }
    {
        self.factor(alloc, &term.first)?;
        for multiplier in term.more.items() {
            self.symbol(
                alloc,
                multiplication_text(multiplier.operator),
                Some(multiplier.line),
            )?;
            self.factor(alloc, &multiplier.factor)?;
        }
        Ok(())
    }

    #[cycle(print_expr)]
    fn factor(&mut self, alloc: Global, factor: &Factor) -> Result<(), AllocError>
        ensures exact { OnOk result (self.new ≡ spec.print_factor (factor_of factor.now) self.old) }
    {
        match factor {
            Factor::Numeral(value) => self.numeral(alloc, *value),
            Factor::String(chars) => self.chars(alloc, chars),
            Factor::Not(line, factor) => {
                self.symbol(alloc, b"not", Some(*line))?;
                self.factor(alloc, factor)
            }
            Factor::Parenthesized(expr) => {
                self.word(alloc, b"(")?;
                self.expr(alloc, expr)?;
                self.word(alloc, b")")
            }
            Factor::Call(name, args) => {
                self.name(alloc, name)?;
                self.args(alloc, args)
            }
            Factor::Variable(variable) => self.variable(alloc, variable),
        }
    }

    #[cycle(print_expr)]
    pub(crate) fn args(&mut self, alloc: Global, args: &Args) -> Result<(), AllocError>
        ensures exact { OnOk result (self.new ≡ spec.print_args (args_of args.now) self.old) }
    {
        self.word(alloc, b"(")?;
        self.expr(alloc, &args.first)?;
        self.exprs(alloc, &args.more)?;
        self.word(alloc, b")")
    }

    // The further expressions of a list, each behind a comma.
    #[cycle(print_expr)]
    fn exprs(&mut self, alloc: Global, exprs: &Exprs) -> Result<(), AllocError>
        ensures exact { OnOk result (self.new ≡ spec.print_exprs (exprs_of exprs.now) self.old) }
    {
        for expr in exprs.items() {
            self.word(alloc, b",")?;
            self.expr(alloc, expr)?;
        }
        Ok(())
    }

    fn root(&mut self, alloc: Global, root: &Root) -> Result<(), AllocError>
        ensures exact { OnOk result (self.new ≡ spec.print_root root.now self.old) }
    {
        match root {
            Root::Name(name) => self.name(alloc, name),
            Root::Val(name) => {
                self.word(alloc, b"val")?;
                self.name(alloc, name)
            }
        }
    }

    #[cycle(print_expr)]
    pub(crate) fn variable(&mut self, alloc: Global, variable: &Variable) -> Result<(), AllocError>
        ensures exact { OnOk result (self.new ≡ spec.print_variable (variable_of variable.now) self.old) }
    {
        self.root(alloc, &variable.root)?;
        for selector in variable.selectors.items() {
            match selector {
                Selector::Field(line, name) => {
                    self.symbol(alloc, b".", Some(*line))?;
                    self.name(alloc, name)?;
                }
                Selector::Index(line, expr) => {
                    self.symbol(alloc, b"[", Some(*line))?;
                    self.expr(alloc, expr)?;
                    self.word(alloc, b"]")?;
                }
            }
        }
        Ok(())
    }
}
