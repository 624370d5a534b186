//! Procedures and modules, and what is declared in them. A level is the number of levels that are open where a part begins;
//! at most 64 may be open.
#![tactic(auto, using(edi_phrases::proofs::Moves::no_memory))]

ghost use Rattle.std.specs.Prelude.{◌≡◌, [], ◌∷◌, ◌<◌, ◌≤◌, false, length, IfOk, IfErr};
ghost use Rattle.edi_phrases.specs.Prelude.{front, has, Passes, HaltsAt};
ghost use Rattle.edi_tree.specs.View.{procedure_of, item_of, module_of, member_of, members_of, declaration_of, declarations_of};
ghost use Rattle.edi_tree.specs.Levels.{procedure_elements, item_elements, module_elements, member_elements, members_elements, declaration_elements};
ghost use Rattle.edi_tree.specs.Levels.{declarations_elements};
ghost use Rattle.edi_grammar.specs.Kinds as kind;
ghost use Rattle.edi_grammar.specs.Rules as g;

use crate::declarations::fronts::{at_declaration, at_member};
use crate::declarations::items::{parse_const_item, parse_pre, parse_type_item, parse_var_item};
use crate::declarations::layers::{
    make_exported, make_item_declaration, make_item_member, make_module, make_module_declaration,
    make_module_member, make_post, make_procedure, make_procedure_item,
};
use crate::statements::parse_list;
use edi_lex::{Mark, Symbol};
use edi_phrases::headings::parse_head;
use edi_phrases::{Parsed, at, at_type_decl, by_front, eat, expect, open};
use edi_tree::{Declaration, Declarations, Item, Member, Members, Module, Procedure, Sequence};
use std::alloc::Global;

/// `Heading { Declaration } "begin" List "end"`, and the marks behind it. The level is the number of levels that are open
/// before its `proc`. Fails where another symbol stands, where a 65th level would open, and where memory is wanting.
#[cycle(declaration)]
pub fn parse_procedure<'a>(alloc: Global, marks: &'a [Mark], level: u16) -> Parsed<'a, Procedure>
    ensures passes { IfOk result (λ r. Passes g.Procedure level (procedure_elements (procedure_of r.0)) marks.now r.1.now) }
    ensures halts { IfErr result (λ e. HaltsAt g.Procedure level marks.now e) }
    ensures shorter { IfOk result (λ r. length r.1.now < length marks.now) }
{
    let (_, behind_proc) = open(marks, &Symbol::Proc, level)?;
    let (heading, behind_heading) = parse_head(alloc, behind_proc, level + 1)?;
    let (declarations, behind_declarations) = parse_declarations(alloc, behind_heading, level + 1)?;
    let (_, behind_begin) = expect(behind_declarations, &Symbol::Begin)?;
    let (list, behind_list) = parse_list(alloc, behind_begin, level + 1)?;
    let (end, rest) = expect(behind_list, &Symbol::End)?;
    Ok((make_procedure(heading, declarations, list, end), rest))
}

/// `Procedure`, where no other item is in front, and the marks behind it.
#[cycle(declaration)]
fn parse_procedure_item<'a>(alloc: Global, marks: &'a [Mark], level: u16) -> Parsed<'a, Item>
    requires chosen { has (front marks.now) (kind.Const ∷ kind.Array ∷ kind.Enum ∷ kind.Record ∷ kind.Set ∷ kind.Var ∷ kind.Pre ∷ kind.Post ∷ []) ≡ false }
    ensures passes { IfOk result (λ r. Passes g.Item level (item_elements (item_of r.0)) marks.now r.1.now) }
    ensures halts { IfErr result (λ e. HaltsAt g.Item level marks.now e) }
    ensures shorter { IfOk result (λ r. length r.1.now < length marks.now) }
{
    let (procedure, rest) = parse_procedure(alloc, marks, level)?;
    Ok((make_procedure_item(procedure), rest))
}

/// `"post" Procedure`, where `post` is in front, and the marks behind it.
#[cycle(declaration)]
fn parse_post<'a>(alloc: Global, marks: &'a [Mark], level: u16) -> Parsed<'a, Item>
    requires chosen { front marks.now ≡ kind.Post }
    ensures passes { IfOk result (λ r. Passes g.Item level (item_elements (item_of r.0)) marks.now r.1.now) }
    ensures halts { IfErr result (λ e. HaltsAt g.Item level marks.now e) }
    ensures shorter { IfOk result (λ r. length r.1.now < length marks.now) }
{
    let (_, behind_post) = expect(marks, &Symbol::Post)?;
    let (procedure, rest) = parse_procedure(alloc, behind_post, level)?;
    Ok((make_post(procedure), rest))
}

/// `ConstList | TypeDecl | VarList | Procedure | Pre | Post`, and the marks behind it.
#[cycle(declaration)]
fn parse_item<'a>(alloc: Global, marks: &'a [Mark], level: u16) -> Parsed<'a, Item>
    ensures passes { IfOk result (λ r. Passes g.Item level (item_elements (item_of r.0)) marks.now r.1.now) }
    ensures halts { IfErr result (λ e. HaltsAt g.Item level marks.now e) }
    ensures shorter { IfOk result (λ r. length r.1.now < length marks.now) }
{
    by_front!(
        alloc, marks, level,
        Const => parse_const_item, Var => parse_var_item, Pre => parse_pre, Post => parse_post,
        | at_type_decl => parse_type_item, _ => parse_procedure_item
    )
}

/// `"module" { [ "*" ] Item | Module } "begin" List "end"`, and the marks behind it.
#[cycle(declaration)]
fn parse_module<'a>(alloc: Global, marks: &'a [Mark], level: u16) -> Parsed<'a, Module>
    ensures passes { IfOk result (λ r. Passes g.Module level (module_elements (module_of r.0)) marks.now r.1.now) }
    ensures halts { IfErr result (λ e. HaltsAt g.Module level marks.now e) }
    ensures shorter { IfOk result (λ r. length r.1.now < length marks.now) }
{
    let (_, behind_module) = open(marks, &Symbol::Module, level)?;
    let (members, behind_members) = parse_members(alloc, behind_module, level + 1)?;
    let (_, behind_begin) = expect(behind_members, &Symbol::Begin)?;
    let (list, behind_statements) = parse_list(alloc, behind_begin, level + 1)?;
    let (_, rest) = expect(behind_statements, &Symbol::End)?;
    Ok((make_module(members, list), rest))
}

/// `[ "*" ] Item | Module`, and the marks behind it.
#[cycle(declaration)]
fn parse_member<'a>(alloc: Global, marks: &'a [Mark], level: u16) -> Parsed<'a, Member>
    ensures passes { IfOk result (λ r. Passes g.Member level (member_elements (member_of r.0)) marks.now r.1.now) }
    ensures halts { IfErr result (λ e. HaltsAt g.Member level marks.now e) }
    ensures shorter { IfOk result (λ r. length r.1.now < length marks.now) }
{
    if let Some((_, behind_star)) = eat(marks, &Symbol::Star) {
        let (exported, behind_exported) = parse_item(alloc, behind_star, level)?;
        return Ok((make_exported(exported), behind_exported));
    }
    if at(marks, &Symbol::Module) {
        let (inner, behind_inner) = parse_module(alloc, marks, level)?;
        return Ok((make_module_member(inner), behind_inner));
    }
    let (plain, rest) = parse_item(alloc, marks, level)?;
    Ok((make_item_member(plain), rest))
}

/// `{ [ "*" ] Item | Module }`, and the marks behind it.
#[cycle(declaration)]
fn parse_members<'a>(alloc: Global, marks: &'a [Mark], level: u16) -> Parsed<'a, Members>
    ensures passes { IfOk result (λ r. Passes g.Members level (members_elements (members_of r.0)) marks.now r.1.now) }
    ensures halts { IfErr result (λ e. HaltsAt g.Members level marks.now e) }
    ensures shorter { IfOk result (λ r. length r.1.now ≤ length marks.now) }
{
    let mut members = Vec::new(alloc);
    let mut rest = marks;
    while at_member(rest) {
        let (member, behind) = parse_member(alloc, rest, level)?;
        members.push(member)?;
        rest = behind;
    }
    Ok((Sequence::from_vec(members), rest))
}

/// `Item | Module`, and the marks behind it.
#[cycle(declaration)]
fn parse_declaration<'a>(alloc: Global, marks: &'a [Mark], level: u16) -> Parsed<'a, Declaration>
    ensures passes { IfOk result (λ r. Passes g.Declaration level (declaration_elements (declaration_of r.0)) marks.now r.1.now) }
    ensures halts { IfErr result (λ e. HaltsAt g.Declaration level marks.now e) }
    ensures shorter { IfOk result (λ r. length r.1.now < length marks.now) }
{
    if at(marks, &Symbol::Module) {
        let (inner, behind_inner) = parse_module(alloc, marks, level)?;
        return Ok((make_module_declaration(inner), behind_inner));
    }
    let (item, rest) = parse_item(alloc, marks, level)?;
    Ok((make_item_declaration(item), rest))
}

/// `{ Item | Module }`, and the marks behind it.
#[cycle(declaration)]
fn parse_declarations<'a>(alloc: Global, marks: &'a [Mark], level: u16) -> Parsed<'a, Declarations>
    ensures passes { IfOk result (λ r. Passes g.Declarations level (declarations_elements (declarations_of r.0)) marks.now r.1.now) }
    ensures halts { IfErr result (λ e. HaltsAt g.Declarations level marks.now e) }
    ensures shorter { IfOk result (λ r. length r.1.now ≤ length marks.now) }
{
    let mut declarations = Vec::new(alloc);
    let mut rest = marks;
    while at_declaration(rest) {
        let (declaration, behind) = parse_declaration(alloc, rest, level)?;
        declarations.push(declaration)?;
        rest = behind;
    }
    Ok((Sequence::from_vec(declarations), rest))
}
