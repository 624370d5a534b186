//! Expressions of one factor.

ghost use Rattle.std.specs.Prelude.{◌≡◌, Some, option_copied, option_map};
ghost use Rattle.edi_tree.specs.View.{expr_of, factor_of, simple_of, term_of, variable_of};
ghost use Rattle.edi_tree.specs.Tree as text;
ghost use Rattle.edi_static.specs.Fitting as spec;
ghost use Rattle.edi_values.specs.Parts as part;

use edi_tree::{Expr, Factor, Name, Root, Simple, Term, Variable};

/// The factor of which a term consists, where it has no operator.
fn term_factor(term: &Term) -> Option<&Factor>
    ensures exact { option_map factor_of (option_copied result) ≡ part.term_factor (term_of term.now) }
{
    if term.more.is_empty() {
        Some(&term.first)
    } else {
        None
    }
}

/// The factor of which a simple expression consists, where it has no operator and no sign.
fn simple_factor(simple: &Simple) -> Option<&Factor>
    ensures exact { option_map factor_of (option_copied result) ≡ part.simple_factor (simple_of simple.now) }
{
    match simple.sign {
        Some(_) => None,
        None => {
            if simple.more.is_empty() {
                term_factor(&simple.first)
            } else {
                None
            }
        }
    }
}

/// The factor of which an expression consists, where it has no operator and no sign.
fn only_factor(expr: &Expr) -> Option<&Factor>
    ensures exact { option_map factor_of (option_copied result) ≡ spec.only_factor (expr_of expr.now) }
{
    match &expr.comparison {
        Some(_) => None,
        None => simple_factor(&expr.left),
    }
}

/// The name of a variable without selectors, where it is no `val`.
pub(crate) fn whole_name(variable: &Variable) -> Option<&Name>
    ensures exact { option_copied result ≡ spec.name_of_factor (Some (text.variable_factor (variable_of variable.now))) }
{
    match &variable.root {
        Root::Name(name) => {
            if variable.selectors.is_empty() {
                Some(name)
            } else {
                None
            }
        }
        Root::Val(_) => None,
    }
}

fn factor_name(factor: &Factor) -> Option<&Name>
    ensures exact { option_copied result ≡ spec.name_of_factor (Some (factor_of factor.now)) }
{
    match factor {
        Factor::Variable(variable) => whole_name(variable),
        _ => None,
    }
}

/// A name alone.
pub(crate) fn name_alone(expr: &Expr) -> Option<&Name>
    ensures exact { option_copied result ≡ spec.name_alone (expr_of expr.now) }
{
    match only_factor(expr) {
        Some(factor) => factor_name(factor),
        None => None,
    }
}

fn is_variable_factor(factor: &Factor) -> bool
    ensures exact { result ≡ spec.is_variable_factor (Some (factor_of factor.now)) }
{
    match factor {
        Factor::Variable(_) => true,
        _ => false,
    }
}

/// Whether an expression is a variable alone, without parentheses.
pub(crate) fn is_variable_alone(expr: &Expr) -> bool
    ensures exact { result ≡ spec.is_variable_alone (expr_of expr.now) }
{
    match only_factor(expr) {
        Some(factor) => is_variable_factor(factor),
        None => false,
    }
}

fn factor_string(factor: &Factor) -> Option<&[u8]>
    ensures exact { option_copied result ≡ spec.string_of_factor (Some (factor_of factor.now)) }
{
    match factor {
        Factor::String(chars) => Some(chars.text.as_slice()),
        _ => None,
    }
}

/// The characters of a string alone.
fn string_alone(expr: &Expr) -> Option<&[u8]>
    ensures exact { option_copied result ≡ spec.string_alone (expr_of expr.now) }
{
    match only_factor(expr) {
        Some(factor) => factor_string(factor),
        None => None,
    }
}

/// The characters of a string alone, where the constructor takes strings.
pub(crate) fn taken_string(strings: bool, expr: &Expr) -> Option<&[u8]>
    ensures exact { option_copied result ≡ part.taken_string strings (expr_of expr.now) }
{
    if strings { string_alone(expr) } else { None }
}
