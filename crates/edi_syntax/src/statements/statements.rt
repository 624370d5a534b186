//! Statements, and lists of statements.
#![tactic(auto, using(edi_phrases::proofs::Moves::no_memory))]

ghost use Rattle.std.specs.Prelude.{◌≡◌, [], ◌∷◌, ◌<◌, ◌≤◌, true, false, length, IfOk, IfErr};
ghost use Rattle.edi_phrases.specs.Prelude.{front, kind_of, has, is_word, Passes, HaltsAt};
ghost use Rattle.edi_tree.specs.View.{branch_of, condition_of, conditions_of, else_of, list_of, statement_of, statements_of};
ghost use Rattle.edi_tree.specs.Levels.{branch_elements, condition_elements, conditions_elements, else_elements, list_elements, statement_elements};
ghost use Rattle.edi_tree.specs.Levels.{statements_elements};
ghost use Rattle.edi_grammar.specs.Kinds as kind;
ghost use Rattle.edi_grammar.specs.Rules as g;
ghost use Rattle.edi_syntax.specs.statements.Guards.{is_guard};
ghost use Rattle.edi_syntax.specs.statements.Lines.{front_line};

use crate::statements::assignments::{parse_named, parse_val};
use crate::statements::layers::{
    make_branch, make_cobegin, make_condition, make_conditions, make_guarded, make_list, make_skip,
};
use edi_lex::{Mark, Symbol};
use edi_phrases::expressions::parse_expr;
use edi_phrases::{Parsed, at, at_name, eat, expect, open, parse_constant};
use edi_tree::{Branch, Condition, Conditions, Else, List, Sequence, Statement, Statements};
use std::alloc::Global;

/// The line of the symbol in front, and 0 where the text ends.
fn line_in_front(marks: &[Mark]) -> u16
    ensures exact { result ≡ front_line marks.now }
{
    match marks.first() {
        Some(mark) => mark.line,
        None => 0,
    }
}

/// `Expr "do" List`, and the marks behind it.
#[cycle(statement)]
fn parse_condition<'a>(alloc: Global, marks: &'a [Mark], level: u16) -> Parsed<'a, Condition>
    ensures passes { IfOk result (λ r. Passes g.Condition level (condition_elements (condition_of r.0)) marks.now r.1.now) }
    ensures halts { IfErr result (λ e. HaltsAt g.Condition level marks.now e) }
    ensures shorter { IfOk result (λ r. length r.1.now < length marks.now) }
{
    let (expr, behind_expr) = parse_expr(alloc, marks, level)?;
    let (line, behind_do) = expect(behind_expr, &Symbol::Do)?;
    let (list, rest) = parse_list(alloc, behind_do, level)?;
    Ok((make_condition(expr, line, list), rest))
}

/// `{ "else" Expr "do" List }`, and the marks behind it.
#[cycle(statement)]
fn parse_else<'a>(alloc: Global, marks: &'a [Mark], level: u16) -> Parsed<'a, Else>
    ensures passes { IfOk result (λ r. Passes g.Else level (else_elements (else_of r.0)) marks.now r.1.now) }
    ensures halts { IfErr result (λ e. HaltsAt g.Else level marks.now e) }
    ensures shorter { IfOk result (λ r. length r.1.now ≤ length marks.now) }
{
    let mut conditions = Vec::new(alloc);
    let mut rest = marks;
    while let Some((_, behind_else)) = eat(rest, &Symbol::Else) {
        let (condition, behind) = parse_condition(alloc, behind_else, level)?;
        conditions.push(condition)?;
        rest = behind;
    }
    Ok((Sequence::from_vec(conditions), rest))
}

/// `Expr "do" List { "else" Expr "do" List }`, and the marks behind it.
#[cycle(statement)]
fn parse_conditions<'a>(alloc: Global, marks: &'a [Mark], level: u16) -> Parsed<'a, Conditions>
    ensures passes { IfOk result (λ r. Passes g.Conditions level (conditions_elements (conditions_of r.0)) marks.now r.1.now) }
    ensures halts { IfErr result (λ e. HaltsAt g.Conditions level marks.now e) }
    ensures shorter { IfOk result (λ r. length r.1.now < length marks.now) }
{
    let (first, behind_first) = parse_condition(alloc, marks, level)?;
    let (more, rest) = parse_else(alloc, behind_first, level)?;
    Ok((make_conditions(first, more), rest))
}

/// `Conditions "end"` behind this `if`, `while` or `when`, which must be in front, and the marks behind it.
#[cycle(statement)]
fn parse_guarded<'a>(
    alloc: Global,
    marks: &'a [Mark],
    wanted: &Symbol,
    level: u16,
) -> Parsed<'a, Statement>
    requires word { is_word wanted.now ≡ true }
    requires guard { is_guard wanted.now ≡ true }
    requires chosen { front marks.now ≡ kind_of wanted.now }
    ensures passes { IfOk result (λ r. Passes g.Statement level (statement_elements (statement_of r.0)) marks.now r.1.now) }
    ensures halts { IfErr result (λ e. HaltsAt g.Statement level marks.now e) }
    ensures shorter { IfOk result (λ r. length r.1.now < length marks.now) }
{
    let (line, behind_guard) = open(marks, wanted, level)?;
    let (conditions, behind_conditions) = parse_conditions(alloc, behind_guard, level + 1)?;
    let (_, rest) = expect(behind_conditions, &Symbol::End)?;
    Ok((make_guarded(wanted, line, conditions), rest))
}

/// `Constant "do" List`, and the marks behind it. The branch is closed on the line of the symbol behind it.
#[cycle(statement)]
fn parse_branch<'a>(alloc: Global, marks: &'a [Mark], level: u16) -> Parsed<'a, Branch>
    ensures passes { IfOk result (λ r. Passes g.Branch level (branch_elements (branch_of r.0).opened) marks.now r.1.now) }
    ensures closed { IfOk result (λ r. (branch_of r.0).end ≡ front_line r.1.now) }
    ensures halts { IfErr result (λ e. HaltsAt g.Branch level marks.now e) }
    ensures shorter { IfOk result (λ r. length r.1.now < length marks.now) }
{
    let (constant, behind_constant) = parse_constant(alloc, marks, level)?;
    let (line, behind_do) = expect(behind_constant, &Symbol::Do)?;
    let (list, rest) = parse_list(alloc, behind_do, level)?;
    let end = line_in_front(rest);
    Ok((make_branch(constant, line, list, end), rest))
}

/// `"cobegin" Branch { "also" Branch } "end"`, where no other statement is in front, and the marks behind it.
#[cycle(statement)]
fn parse_cobegin<'a>(alloc: Global, marks: &'a [Mark], level: u16) -> Parsed<'a, Statement>
    requires chosen { has (front marks.now) (kind.Skip ∷ kind.Name ∷ kind.Val ∷ kind.If ∷ kind.While ∷ kind.When ∷ []) ≡ false }
    ensures passes { IfOk result (λ r. Passes g.Statement level (statement_elements (statement_of r.0)) marks.now r.1.now) }
    ensures halts { IfErr result (λ e. HaltsAt g.Statement level marks.now e) }
    ensures shorter { IfOk result (λ r. length r.1.now < length marks.now) }
{
    let (line, behind_cobegin) = open(marks, &Symbol::Cobegin, level)?;
    let (first, behind_first) = parse_branch(alloc, behind_cobegin, level + 1)?;
    let mut branches = Vec::new(alloc);
    let mut rest = behind_first;
    while let Some((_, behind_also)) = eat(rest, &Symbol::Also) {
        let (branch, behind) = parse_branch(alloc, behind_also, level + 1)?;
        branches.push(branch)?;
        rest = behind;
    }
    let (_, behind_end) = expect(rest, &Symbol::End)?;
    let more = Sequence::from_vec(branches);
    Ok((make_cobegin(line, first, more), behind_end))
}

/// `"skip" | Assignment | Call | If | While | When | Cobegin`, and the marks behind it.
#[cycle(statement)]
fn parse_statement<'a>(alloc: Global, marks: &'a [Mark], level: u16) -> Parsed<'a, Statement>
    ensures passes { IfOk result (λ r. Passes g.Statement level (statement_elements (statement_of r.0)) marks.now r.1.now) }
    ensures halts { IfErr result (λ e. HaltsAt g.Statement level marks.now e) }
    ensures shorter { IfOk result (λ r. length r.1.now < length marks.now) }
{
    if let Some((_, behind_skip)) = eat(marks, &Symbol::Skip) {
        return Ok((make_skip(), behind_skip));
    }
    if at_name(marks) {
        return parse_named(alloc, marks, level);
    }
    if at(marks, &Symbol::Val) {
        return parse_val(alloc, marks, level);
    }
    if at(marks, &Symbol::If) {
        return parse_guarded(alloc, marks, &Symbol::If, level);
    }
    if at(marks, &Symbol::While) {
        return parse_guarded(alloc, marks, &Symbol::While, level);
    }
    if at(marks, &Symbol::When) {
        return parse_guarded(alloc, marks, &Symbol::When, level);
    }
    parse_cobegin(alloc, marks, level)
}

/// `{ ";" Statement }`, and the marks behind it.
#[cycle(statement)]
fn parse_statements<'a>(alloc: Global, marks: &'a [Mark], level: u16) -> Parsed<'a, Statements>
    ensures passes { IfOk result (λ r. Passes g.Statements level (statements_elements (statements_of r.0)) marks.now r.1.now) }
    ensures halts { IfErr result (λ e. HaltsAt g.Statements level marks.now e) }
    ensures shorter { IfOk result (λ r. length r.1.now ≤ length marks.now) }
{
    let mut statements = Vec::new(alloc);
    let mut rest = marks;
    while let Some((_, behind_semicolon)) = eat(rest, &Symbol::Semicolon) {
        let (statement, behind) = parse_statement(alloc, behind_semicolon, level)?;
        statements.push(statement)?;
        rest = behind;
    }
    Ok((Sequence::from_vec(statements), rest))
}

/// `Statement { ";" Statement }`, and the marks behind it.
#[cycle(statement)]
pub fn parse_list<'a>(alloc: Global, marks: &'a [Mark], level: u16) -> Parsed<'a, List>
    ensures passes { IfOk result (λ r. Passes g.StatementList level (list_elements (list_of r.0)) marks.now r.1.now) }
    ensures halts { IfErr result (λ e. HaltsAt g.StatementList level marks.now e) }
    ensures shorter { IfOk result (λ r. length r.1.now < length marks.now) }
{
    let (first, behind_first) = parse_statement(alloc, marks, level)?;
    let (more, rest) = parse_statements(alloc, behind_first, level)?;
    let list = make_list(alloc, first, more)?;
    Ok((list, rest))
}
