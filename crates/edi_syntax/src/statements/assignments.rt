//! Assignments and calls.
#![tactic(auto, using(edi_phrases::proofs::Moves::no_memory))]

ghost use Rattle.std.specs.Prelude.{◌≡◌, [], ◌∷◌, ◌<◌, length, IfOk, IfErr};
ghost use Rattle.edi_phrases.specs.Prelude.{front, has, Passes, HaltsAt};
ghost use Rattle.edi_tree.specs.View.{statement_of};
ghost use Rattle.edi_tree.specs.Levels.{statement_elements};
ghost use Rattle.edi_grammar.specs.Kinds as kind;
ghost use Rattle.edi_grammar.specs.Rules as g;

use crate::statements::layers::{make_assignment, make_call, make_lone_call};
use edi_lex::{Mark, Symbol};
use edi_phrases::expressions::{parse_args, parse_expr, parse_selectors};
use edi_phrases::{Parsed, at, expect, parse_name};
use edi_tree::{Root, Statement};
use std::alloc::Global;

/// Whether `.`, `[` or `:=` is in front.
fn at_assignment(marks: &[Mark]) -> bool
    ensures exact { result ≡ has (front marks.now) (kind.Period ∷ kind.OpenBracket ∷ kind.Becomes ∷ []) }
{
    match marks.first() {
        Some(mark) => matches!(
            mark.symbol,
            Symbol::Period | Symbol::OpenBracket | Symbol::Becomes
        ),
        None => false,
    }
}

/// `Name Args | Name { "." Name | "[" Expr "]" } ":=" Expr | Name`, where a name is in front, and the marks behind it.
pub fn parse_named<'a>(alloc: Global, marks: &'a [Mark], level: u16) -> Parsed<'a, Statement>
    requires chosen { front marks.now ≡ kind.Name }
    ensures passes { IfOk result (λ r. Passes g.Statement level (statement_elements (statement_of r.0)) marks.now r.1.now) }
    ensures halts { IfErr result (λ e. HaltsAt g.Statement level marks.now e) }
    ensures shorter { IfOk result (λ r. length r.1.now < length marks.now) }
{
    let (name, behind_name) = parse_name(alloc, marks)?;
    if at(behind_name, &Symbol::Open) {
        let (args, behind_args) = parse_args(alloc, behind_name, level)?;
        return Ok((make_call(name, args), behind_args));
    }
    if at_assignment(behind_name) {
        let (selectors, behind_selectors) = parse_selectors(alloc, behind_name, level)?;
        let (line, behind_becomes) = expect(behind_selectors, &Symbol::Becomes)?;
        let (expr, behind_expr) = parse_expr(alloc, behind_becomes, level)?;
        let assignment = make_assignment(Root::Name(name), selectors, line, expr);
        return Ok((assignment, behind_expr));
    }
    Ok((make_lone_call(name), behind_name))
}

/// `"val" Name { "." Name | "[" Expr "]" } ":=" Expr`, where `val` is in front, and the marks behind it.
pub fn parse_val<'a>(alloc: Global, marks: &'a [Mark], level: u16) -> Parsed<'a, Statement>
    requires chosen { front marks.now ≡ kind.Val }
    ensures passes { IfOk result (λ r. Passes g.Statement level (statement_elements (statement_of r.0)) marks.now r.1.now) }
    ensures halts { IfErr result (λ e. HaltsAt g.Statement level marks.now e) }
    ensures shorter { IfOk result (λ r. length r.1.now < length marks.now) }
{
    let (_, behind_val) = expect(marks, &Symbol::Val)?;
    let (name, behind_name) = parse_name(alloc, behind_val)?;
    let (selectors, behind_selectors) = parse_selectors(alloc, behind_name, level)?;
    let (line, behind_becomes) = expect(behind_selectors, &Symbol::Becomes)?;
    let (expr, rest) = parse_expr(alloc, behind_becomes, level)?;
    Ok((
        make_assignment(Root::Val(name), selectors, line, expr),
        rest,
    ))
}
