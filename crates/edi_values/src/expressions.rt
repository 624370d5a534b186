//! The rules on expressions and variables, construct by construct: each is judged after its parts, the parts from left to
//! right.

ghost use Rattle.std.specs.Prelude.{◌≡◌, map};
ghost use Rattle.edi_tree.specs.View.{
  addend_of,
  addends_of,
  args_of,
  expr_of,
  exprs_of,
  factor_of,
  multiplier_of,
  multipliers_of,
  selector_of,
  selectors_of,
  simple_of,
  term_of,
  variable_of,
};
ghost use Rattle.edi_tree.specs.Tree as text;
ghost use Rattle.edi_unit.specs.Tree as unit;
ghost use Rattle.edi_static.specs.Prelude.{JudgedAnswers, argument_of, arguments_of, asked_of, environment, expression_of, formal_of, linked_of};
ghost use Rattle.edi_static.specs.Prelude.{parted_of, typed_of};
ghost use Rattle.edi_static.specs.Expressions as rule;
ghost use Rattle.edi_static.specs.Fitting as spec;
ghost use Rattle.edi_static.specs.Views as view;
ghost use Rattle.edi_values.specs.Parts as part;
ghost use Rattle.edi_values.specs.Views.{called_of, chained_of, located_of, reached_of, used_of};

use crate::chains::{Chained, compared, negated, with_chain};
use crate::constructors::{add_characters, constructed};
use crate::factors::{is_variable_alone, name_alone, taken_string, whole_name};
use crate::names::{alone, constant_value, function_called, invoked};
use crate::passing::{args_count, rest_of, value_argument};
use crate::places::{Located, Reached, loaded, part_at, rooted};
use crate::uses::{Called, Use, passed, use_of};
use edi_static::{
    Asked, Formal, Judged, Known, Linked, Parted, StaticKind, Typed, add, addition_operator,
    element_of, fault, field_of, multiplication_operator, operated, put, signed, single,
    takes_strings, variable_argument,
};
use edi_tree::{
    Addend, Addends, Args, Expr, Factor, Multiplier, Multipliers, Name, Selector, Selectors,
    Simple, Term, Variable,
};
use edi_unit::{Argument, Arguments, INT, List};
use std::alloc::Global;

/// An expression with its type.
#[cycle(expressions)]
pub fn expression(known: &Known, alloc: Global, expr: &Expr) -> Judged<Typed>
    ensures exact { JudgedAnswers typed_of result (rule.expression (environment known.now) (expr_of expr.now)) }
{
    let left = simple(known, alloc, &expr.left)?;
    match &expr.comparison {
        None => Ok(left),
        Some(comparison) => {
            let right = simple(known, alloc, &comparison.right)?;
            compared(
                known,
                alloc,
                left,
                comparison.relation,
                comparison.line,
                right,
            )
        }
    }
}

/// A leading sign belongs to the first term.
#[cycle(expressions)]
fn simple(known: &Known, alloc: Global, simple: &Simple) -> Judged<Typed>
    ensures exact { JudgedAnswers typed_of result (rule.simple (environment known.now) (simple_of simple.now)) }
{
    let first = term(known, alloc, &simple.first)?;
    let first = signed(alloc, simple.sign, first)?;
    let links = addends(known, alloc, first.of, &simple.more)?;
    with_chain(alloc, first, links)
}

#[cycle(expressions)]
fn addends(known: &Known, alloc: Global, left: u32, addends: &Addends) -> Judged<Chained>
    ensures exact { JudgedAnswers chained_of result (rule.addends (environment known.now) left (addends_of addends.now)) }
{
    let mut links = List::new(alloc);
    let mut of = left;
    for one in addends.items() {
        let linked = addend(known, alloc, of, one)?;
        add(&mut links, alloc, linked.link)?;
        of = linked.of;
    }
    Ok(Chained { links, of })
}

#[cycle(expressions)]
fn addend(known: &Known, alloc: Global, left: u32, addend: &Addend) -> Judged<Linked>
    ensures exact { JudgedAnswers linked_of result (rule.addend (environment known.now) left (addend_of addend.now)) }
{
    let right = term(known, alloc, &addend.term)?;
    let operator = addition_operator(addend.operator);
    operated(known, operator, addend.line, left, right)
}

#[cycle(expressions)]
fn term(known: &Known, alloc: Global, term: &Term) -> Judged<Typed>
    ensures exact { JudgedAnswers typed_of result (rule.term (environment known.now) (term_of term.now)) }
{
    let first = factor(known, alloc, &term.first)?;
    let links = multipliers(known, alloc, first.of, &term.more)?;
    with_chain(alloc, first, links)
}

#[cycle(expressions)]
fn multipliers(
    known: &Known,
    alloc: Global,
    left: u32,
    multipliers: &Multipliers,
) -> Judged<Chained>
    ensures exact { JudgedAnswers chained_of result (rule.multipliers (environment known.now) left (multipliers_of multipliers.now)) }
{
    let mut links = List::new(alloc);
    let mut of = left;
    for one in multipliers.items() {
        let linked = multiplier(known, alloc, of, one)?;
        add(&mut links, alloc, linked.link)?;
        of = linked.of;
    }
    Ok(Chained { links, of })
}

#[cycle(expressions)]
fn multiplier(known: &Known, alloc: Global, left: u32, multiplier: &Multiplier) -> Judged<Linked>
    ensures exact { JudgedAnswers linked_of result (rule.multiplier (environment known.now) left (multiplier_of multiplier.now)) }
{
    let right = factor(known, alloc, &multiplier.factor)?;
    let operator = multiplication_operator(multiplier.operator);
    operated(known, operator, multiplier.line, left, right)
}

#[cycle(expressions)]
fn factor(known: &Known, alloc: Global, one: &Factor) -> Judged<Typed>
    ensures exact { JudgedAnswers typed_of result (rule.factor (environment known.now) (factor_of one.now)) }
{
    match one {
        Factor::Numeral(ordinal) => Ok(constant_value(INT, *ordinal)),
        Factor::String(chars) => single(chars.line, chars.text.as_slice()),
        Factor::Not(line, operand) => {
            let value = factor(known, alloc, operand)?;
            negated(alloc, *line, value)
        }
        Factor::Parenthesized(expr) => expression(known, alloc, expr),
        Factor::Call(name, args) => call(known, alloc, name, args),
        Factor::Variable(variable) => variable_value(known, alloc, variable),
    }
}

/// The name before arguments is judged first: it is a type or a function.
#[cycle(expressions)]
fn call(known: &Known, alloc: Global, name: &Name, args: &Args) -> Judged<Typed>
    ensures exact { JudgedAnswers typed_of result (rule.factor (environment known.now) (text.call_factor name.now (args_of args.now))) }
{
    let entity = known.look_up(name)?;
    let used = use_of(known, entity)?;
    applied(known, alloc, name.line, used, args)
}

#[cycle(expressions)]
#[tactic(auto, using(crate::proofs::Calls::construction_answered, crate::proofs::Calls::invocation_answered))]
fn applied(known: &Known, alloc: Global, line: u16, used: Use, args: &Args) -> Judged<Typed>
    ensures exact { JudgedAnswers typed_of result (rule.applied (environment known.now) line (used_of used.entry) (args_of args.now)) }
{
    match used {
        Use::Constructs(of) => constructor(known, alloc, line, of, args),
        Use::Calls(called) => application(known, alloc, line, called, args),
        Use::Halts => fault(StaticKind::Call, line),
        Use::Neither => fault(StaticKind::Kind, line),
    }
}

#[cycle(expressions)]
fn constructor(known: &Known, alloc: Global, line: u16, of: u32, args: &Args) -> Judged<Typed>
    ensures exact { JudgedAnswers typed_of result (part.construction (environment known.now) line of (args_of args.now)) }
{
    let strings = takes_strings(known.shape(of));
    let parts = parts(known, alloc, strings, args)?;
    constructed(known, alloc, line, of, parts)
}

#[cycle(expressions)]
fn application(
    known: &Known,
    alloc: Global,
    line: u16,
    called: Called,
    args: &Args,
) -> Judged<Typed>
    ensures exact { JudgedAnswers typed_of result (part.invocation (environment known.now) line (called_of called.entry) (args_of args.now)) }
{
    function_called(line, called, args_count(args))?;
    let arguments = arguments(known, alloc, line, args, called.formals())?;
    Ok(invoked(line, called, arguments))
}

/// The parts that the arguments of a constructor stand for.
#[cycle(expressions)]
fn parts(known: &Known, alloc: Global, strings: bool, args: &Args) -> Judged<Vec<Typed>>
    ensures exact { JudgedAnswers (λ parts. map typed_of parts.items) result (part.elements (environment known.now) strings (args_of args.now)) }
{
    let mut parts = Vec::new(alloc);
    add_element(known, alloc, strings, &args.first, &mut parts)?;
    for expr in args.more.items() {
        add_element(known, alloc, strings, expr, &mut parts)?;
    }
    Ok(parts)
}

/// A string that the constructor takes stands for its characters; every other argument is a value.
#[cycle(expressions)]
fn add_element(
    known: &Known,
    alloc: Global,
    strings: bool,
    expr: &Expr,
    parts: &mut Vec<Typed>,
) -> Judged<()>
    ensures exact { JudgedAnswers (λ _. map typed_of parts.new.items) result (part.behind (map typed_of parts.old.items)
        (rule.element (environment known.now) strings (expr_of expr.now) (rule.expression (environment known.now) (expr_of expr.now)))) }
{
    match taken_string(strings, expr) {
        Some(characters) => add_characters(characters, parts),
        None => {
            let value = expression(known, alloc, expr)?;
            put(parts, value)
        }
    }
}

/// The arguments of a call, each judged and fitted before the next.
#[cycle(expressions)]
pub fn arguments(
    known: &Known,
    alloc: Global,
    line: u16,
    args: &Args,
    formals: &[Formal],
) -> Judged<Arguments>
    ensures exact { JudgedAnswers arguments_of result
        (rule.all_arguments (environment known.now) line (args_of args.now) (view.formals (map formal_of formals.now))) }
{
    let mut arguments = List::new(alloc);
    let first = argument(known, alloc, line, &args.first, formals)?;
    add(&mut arguments, alloc, first)?;
    let mut rest = rest_of(formals);
    for expr in args.more.items() {
        let one = argument(known, alloc, line, expr, rest)?;
        add(&mut arguments, alloc, one)?;
        rest = rest_of(rest);
    }
    Ok(arguments)
}

/// An argument of a call, for the first of these parameters.
#[cycle(expressions)]
#[tactic(auto, using(crate::proofs::Fitted::first_answered, crate::proofs::Fitted::none_answered))]
fn argument(
    known: &Known,
    alloc: Global,
    line: u16,
    expr: &Expr,
    formals: &[Formal],
) -> Judged<Argument>
    ensures exact { JudgedAnswers argument_of result (rule.argument (environment known.now) line (expr_of expr.now)
        (rule.expression (environment known.now) (expr_of expr.now)) (view.formals (map formal_of formals.now))) }
{
    match formals.split_first() {
        Some((formal, _)) => fitted(known, alloc, line, expr, formal),
        None => fault(StaticKind::Call, line),
    }
}

/// An argument of a call, for this parameter.
#[cycle(expressions)]
fn fitted(known: &Known, alloc: Global, line: u16, expr: &Expr, formal: &Formal) -> Judged<Argument>
    ensures exact { JudgedAnswers argument_of result (part.fitted (environment known.now) line (expr_of expr.now)
        (rule.expression (environment known.now) (expr_of expr.now)) (formal_of formal.now)) }
{
    match formal {
        Formal::Value(of) => {
            let value = expression(known, alloc, expr)?;
            value_argument(line, *of, value)
        }
        Formal::Variable(of) => {
            let value = expression(known, alloc, expr)?;
            variable_argument(line, *of, is_variable_alone(expr), value)
        }
        Formal::Procedure(asked) => procedure_argument(known, alloc, line, expr, asked),
    }
}

/// For a procedure parameter an argument that is a name alone is only looked up; every other one is judged as an
/// expression, and does not fit.
#[cycle(expressions)]
fn procedure_argument(
    known: &Known,
    alloc: Global,
    line: u16,
    expr: &Expr,
    asked: &Asked,
) -> Judged<Argument>
    ensures exact { JudgedAnswers argument_of result (rule.procedure_argument (environment known.now) line (asked_of asked.now)
        (spec.name_alone (expr_of expr.now)) (rule.expression (environment known.now) (expr_of expr.now))) }
{
    match name_alone(expr) {
        Some(name) => {
            let entity = known.look_up(name)?;
            let used = use_of(known, entity)?;
            passed(line, asked, used)
        }
        None => {
            let _value = expression(known, alloc, expr)?;
            fault(StaticKind::Call, line)
        }
    }
}

/// A variable as a value.
#[cycle(expressions)]
#[tactic(auto, using(crate::proofs::Steps::whole, crate::proofs::Steps::not_whole))]
fn variable_value(known: &Known, alloc: Global, variable: &Variable) -> Judged<Typed>
    ensures exact { JudgedAnswers typed_of result (rule.variable_value (environment known.now) (variable_of variable.now)) }
{
    match whole_name(variable) {
        Some(name) => alone(known, alloc, name),
        None => place_value(known, alloc, variable),
    }
}

/// The value of a variable that is `val f` or has a selector.
#[cycle(expressions)]
fn place_value(known: &Known, alloc: Global, variable: &Variable) -> Judged<Typed>
    ensures exact { JudgedAnswers typed_of result (part.place_value (environment known.now) (variable_of variable.now)) }
{
    let located = variable_place(known, alloc, variable)?;
    Ok(loaded(located))
}

/// A variable as a place.
#[cycle(expressions)]
pub fn variable_place(known: &Known, alloc: Global, variable: &Variable) -> Judged<Located>
    ensures exact { JudgedAnswers located_of result (rule.variable_place (environment known.now) (variable_of variable.now)) }
{
    let root = rooted(known, &variable.root)?;
    let steps = selectors(known, alloc, root.of, &variable.selectors)?;
    Ok(part_at(root, steps))
}

#[cycle(expressions)]
fn selectors(known: &Known, alloc: Global, of: u32, selectors: &Selectors) -> Judged<Reached>
    ensures exact { JudgedAnswers reached_of result (rule.selectors (environment known.now) of (selectors_of selectors.now)) }
{
    let mut parts = List::new(alloc);
    let mut reached = of;
    for one in selectors.items() {
        let parted = selector(known, alloc, reached, one)?;
        add(&mut parts, alloc, parted.part)?;
        reached = parted.of;
    }
    Ok(Reached { parts, of: reached })
}

#[cycle(expressions)]
fn selector(known: &Known, alloc: Global, of: u32, selector: &Selector) -> Judged<Parted>
    ensures exact { JudgedAnswers parted_of result (rule.selector (environment known.now) of (selector_of selector.now)) }
{
    match selector {
        Selector::Field(line, name) => field_of(known, *line, of, name),
        Selector::Index(line, index) => {
            let index = expression(known, alloc, index)?;
            element_of(known, alloc, *line, of, index)
        }
    }
}
