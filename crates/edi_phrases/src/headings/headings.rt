//! Headings of procedures. A level is the number of levels that are open where a part begins; at most 64 may be open.
#![tactic(auto, using(crate::proofs::Moves::no_memory))]

ghost use Rattle.std.specs.Prelude.{◌≡◌, ◌<◌, ◌≤◌, length, IfOk, IfErr};
ghost use Rattle.edi_phrases.specs.Prelude.{front, Passes, HaltsAt};
ghost use Rattle.edi_tree.specs.View.{heading_of, param_of, params_of};
ghost use Rattle.edi_tree.specs.Levels.{param_elements, params_elements, result_elements};
ghost use Rattle.edi_grammar.specs.derivation.Parts.{head_elements};
ghost use Rattle.edi_grammar.specs.Kinds as kind;
ghost use Rattle.edi_grammar.specs.Rules as g;

use crate::{Parsed, at, eat, expect, open, parse_group, parse_name};
use edi_lex::{Mark, Symbol};
use edi_tree::{Heading, Name, Param, Params, Sequence};
use std::alloc::Global;

/// `[ ":" Name ]`, and the marks behind it.
fn parse_result<'a>(alloc: Global, marks: &'a [Mark], level: u16) -> Parsed<'a, Option<Name>>
    ensures passes { IfOk result (λ r. Passes g.Result level (result_elements r.0) marks.now r.1.now) }
    ensures halts { IfErr result (λ e. HaltsAt g.Result level marks.now e) }
    ensures shorter { IfOk result (λ r. length r.1.now ≤ length marks.now) }
{
    let Some((_, behind_colon)) = eat(marks, &Symbol::Colon) else {
        return Ok((None, marks));
    };
    let (name, rest) = parse_name(alloc, behind_colon)?;
    Ok((Some(name), rest))
}

/// `[ "var" ] Group | Heading`, and the marks behind it.
#[cycle(heading)]
fn parse_param<'a>(alloc: Global, marks: &'a [Mark], level: u16) -> Parsed<'a, Param>
    ensures passes { IfOk result (λ r. Passes g.Param level (param_elements (param_of r.0)) marks.now r.1.now) }
    ensures halts { IfErr result (λ e. HaltsAt g.Param level marks.now e) }
    ensures shorter { IfOk result (λ r. length r.1.now < length marks.now) }
{
    if let Some((_, behind_var)) = eat(marks, &Symbol::Var) {
        let (group, behind_group) = parse_group(alloc, behind_var, level)?;
        return Ok((Param::Var(group), behind_group));
    }
    if at(marks, &Symbol::Proc) {
        let (_, behind_proc) = open(marks, &Symbol::Proc, level)?;
        let (heading, behind_heading) = parse_head(alloc, behind_proc, level + 1)?;
        return Ok((Param::Heading(heading), behind_heading));
    }
    let (value, rest) = parse_group(alloc, marks, level)?;
    Ok((Param::Value(value), rest))
}

/// `"(" Param { ";" Param } ")"`, where `(` is in front, and the marks behind it.
#[cycle(heading)]
fn parse_some_params<'a>(alloc: Global, marks: &'a [Mark], level: u16) -> Parsed<'a, Params>
    requires chosen { front marks.now ≡ kind.Open }
    ensures passes { IfOk result (λ r. Passes g.Params level (params_elements (params_of r.0)) marks.now r.1.now) }
    ensures halts { IfErr result (λ e. HaltsAt g.Params level marks.now e) }
    ensures shorter { IfOk result (λ r. length r.1.now < length marks.now) }
{
    let mut params = Vec::new(alloc);
    let (_, behind_open) = open(marks, &Symbol::Open, level)?;
    let (first, behind_first) = parse_param(alloc, behind_open, level + 1)?;
    params.push(first)?;
    let mut behind_params = behind_first;
    while let Some((_, behind_semicolon)) = eat(behind_params, &Symbol::Semicolon) {
        let (param, behind) = parse_param(alloc, behind_semicolon, level + 1)?;
        params.push(param)?;
        behind_params = behind;
    }
    let (_, rest) = expect(behind_params, &Symbol::Close)?;
    Ok((Sequence::from_vec(params), rest))
}

/// `[ "(" Param { ";" Param } ")" ]`, and the marks behind it.
#[cycle(heading)]
fn parse_params<'a>(alloc: Global, marks: &'a [Mark], level: u16) -> Parsed<'a, Params>
    ensures passes { IfOk result (λ r. Passes g.Params level (params_elements (params_of r.0)) marks.now r.1.now) }
    ensures halts { IfErr result (λ e. HaltsAt g.Params level marks.now e) }
    ensures shorter { IfOk result (λ r. length r.1.now ≤ length marks.now) }
{
    if at(marks, &Symbol::Open) {
        return parse_some_params(alloc, marks, level);
    }
    Ok((Sequence::new(alloc), marks))
}

/// `Name [ "(" Param { ";" Param } ")" ] [ ":" Name ]`, what stands behind a `proc`, and the marks behind it.
/// The level counts that of the `proc`. Fails where another symbol stands, where a 65th level would open, and where memory
/// is wanting.
#[cycle(heading)]
pub fn parse_head<'a>(alloc: Global, marks: &'a [Mark], level: u16) -> Parsed<'a, Heading>
    ensures passes { IfOk result (λ r. Passes g.Head level (head_elements (heading_of r.0)) marks.now r.1.now) }
    ensures halts { IfErr result (λ e. HaltsAt g.Head level marks.now e) }
    ensures shorter { IfOk result (λ r. length r.1.now < length marks.now) }
{
    let (name, behind_name) = parse_name(alloc, marks)?;
    let (params, behind_params) = parse_params(alloc, behind_name, level)?;
    let (result_name, rest) = parse_result(alloc, behind_params, level)?;
    Ok((
        Heading {
            name,
            params,
            result: result_name,
        },
        rest,
    ))
}
