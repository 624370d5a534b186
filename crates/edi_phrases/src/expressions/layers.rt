//! The layers of trees of expressions, each with the plain tree for which it stands.

ghost use Rattle.std.specs.Prelude.{◌≡◌, option_map, IfOk};
ghost use Rattle.edi_tree.specs.Tree as tree;
ghost use Rattle.edi_tree.specs.View.{selector_of, selectors_of, exprs_of, args_of, factor_of, multiplier_of, multipliers_of, term_of, addend_of, addends_of};
ghost use Rattle.edi_tree.specs.View.{simple_of, optional_comparison, comparison_of, expr_of};

use edi_tree::{
    Addend, Addends, Addition, Args, Chars, Comparison, Expr, Exprs, Factor, Multiplication,
    Multiplier, Multipliers, Name, Relation, Root, Selector, Selectors, Sign, Simple, Term,
    Variable,
};
use std::alloc::{AllocError, Global};

/// `"." Name`
pub fn make_field(line: u16, name: Name) -> Selector
    ensures seen { selector_of result ≡ tree.field line name }
{
    Selector::Field(line, name)
}

/// `"[" Expr "]"`
pub fn make_index(alloc: Global, line: u16, expr: Expr) -> Result<Selector, AllocError>
    ensures seen { IfOk result (λ s. selector_of s ≡ tree.index line (expr_of expr)) }
{
    let boxed = Box::new(alloc, expr)?;
    Ok(Selector::Index(line, boxed))
}

/// `"(" Expr { "," Expr } ")"`
pub fn make_args(alloc: Global, first: Expr, more: Exprs) -> Result<Args, AllocError>
    ensures seen { IfOk result (λ a. args_of a ≡ tree.args (expr_of first) (exprs_of more)) }
{
    let boxed = Box::new(alloc, first)?;
    Ok(Args { first: boxed, more })
}

/// `Numeral`
pub fn make_numeral(value: i16) -> Factor
    ensures seen { factor_of result ≡ tree.numeral value }
{
    Factor::Numeral(value)
}

/// `String`
pub fn make_string(chars: Chars) -> Factor
    ensures seen { factor_of result ≡ tree.string chars }
{
    Factor::String(chars)
}

/// `"not" Factor`
pub fn make_not(alloc: Global, line: u16, factor: Factor) -> Result<Factor, AllocError>
    ensures seen { IfOk result (λ f. factor_of f ≡ tree.not_factor line (factor_of factor)) }
{
    let boxed = Box::new(alloc, factor)?;
    Ok(Factor::Not(line, boxed))
}

/// `"(" Expr ")"`
pub fn make_parenthesized(alloc: Global, expr: Expr) -> Result<Factor, AllocError>
    ensures seen { IfOk result (λ f. factor_of f ≡ tree.parenthesized (expr_of expr)) }
{
    let boxed = Box::new(alloc, expr)?;
    Ok(Factor::Parenthesized(boxed))
}

/// `Name Args`
pub fn make_call(name: Name, args: Args) -> Factor
    ensures seen { factor_of result ≡ tree.call_factor name (args_of args) }
{
    Factor::Call(name, args)
}

/// `Root { Selector }`
pub fn make_variable(root: Root, selectors: Selectors) -> Factor
    ensures seen { factor_of result ≡ tree.variable_factor (tree.variable root (selectors_of selectors)) }
{
    Factor::Variable(Variable { root, selectors })
}

/// `Multiplication Factor`
pub fn make_multiplier(operator: Multiplication, line: u16, factor: Factor) -> Multiplier
    ensures seen { multiplier_of result ≡ tree.multiplier operator line (factor_of factor) }
{
    Multiplier {
        operator,
        line,
        factor,
    }
}

/// `Factor { Multiplier }`
pub fn make_term(first: Factor, more: Multipliers) -> Term
    ensures seen { term_of result ≡ tree.term (factor_of first) (multipliers_of more) }
{
    Term { first, more }
}

/// `Addition Term`
pub fn make_addend(operator: Addition, line: u16, term: Term) -> Addend
    ensures seen { addend_of result ≡ tree.addend operator line (term_of term) }
{
    Addend {
        operator,
        line,
        term,
    }
}

/// `[ Sign ] Term { Addend }`
pub fn make_simple(sign: Option<Sign>, first: Term, more: Addends) -> Simple
    ensures seen { simple_of result ≡ tree.simple sign (term_of first) (addends_of more) }
{
    Simple { sign, first, more }
}

/// `Relation Simple`
pub fn make_comparison(relation: Relation, line: u16, right: Simple) -> Comparison
    ensures seen { comparison_of result ≡ tree.compared relation line (simple_of right) }
{
    Comparison {
        relation,
        line,
        right,
    }
}

/// `Simple [ Comparison ]`
pub fn make_expr(left: Simple, comparison: Option<Comparison>) -> Expr
    ensures seen { expr_of result ≡ tree.expr (simple_of left) (optional_comparison (option_map comparison_of comparison)) }
{
    Expr { left, comparison }
}
