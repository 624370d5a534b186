//! The items that have no procedure in them.
#![tactic(auto, using(edi_phrases::proofs::Moves::no_memory))]

ghost use Rattle.std.specs.Prelude.{◌≡◌, ◌<◌, true, length, IfOk, IfErr};
ghost use Rattle.edi_phrases.specs.Prelude.{front, has, Passes, HaltsAt};
ghost use Rattle.edi_tree.specs.View.{item_of};
ghost use Rattle.edi_tree.specs.Levels.{item_elements};
ghost use Rattle.edi_grammar.specs.Kinds as kind;
ghost use Rattle.edi_grammar.specs.Rules as g;
ghost use Rattle.edi_grammar.specs.Edison as sets;

use crate::declarations::layers::{make_const_item, make_pre, make_type_item, make_var_item};
use edi_lex::{Mark, Symbol};
use edi_phrases::headings::parse_head;
use edi_phrases::{Parsed, expect, open, parse_const_list, parse_type_decl, parse_var_list};
use edi_tree::Item;
use std::alloc::Global;

/// `ConstList`, where `const` is in front, and the marks behind it.
pub fn parse_const_item<'a>(alloc: Global, marks: &'a [Mark], level: u16) -> Parsed<'a, Item>
    requires chosen { front marks.now ≡ kind.Const }
    ensures passes { IfOk result (λ r. Passes g.Item level (item_elements (item_of r.0)) marks.now r.1.now) }
    ensures halts { IfErr result (λ e. HaltsAt g.Item level marks.now e) }
    ensures shorter { IfOk result (λ r. length r.1.now < length marks.now) }
{
    let (consts, rest) = parse_const_list(alloc, marks, level)?;
    Ok((make_const_item(consts), rest))
}

/// `TypeDecl`, where one is in front, and the marks behind it.
pub fn parse_type_item<'a>(alloc: Global, marks: &'a [Mark], level: u16) -> Parsed<'a, Item>
    requires chosen { has (front marks.now) (sets.first g.TypeDecl) ≡ true }
    ensures passes { IfOk result (λ r. Passes g.Item level (item_elements (item_of r.0)) marks.now r.1.now) }
    ensures halts { IfErr result (λ e. HaltsAt g.Item level marks.now e) }
    ensures shorter { IfOk result (λ r. length r.1.now < length marks.now) }
{
    let (type_decl, rest) = parse_type_decl(alloc, marks, level)?;
    Ok((make_type_item(type_decl), rest))
}

/// `VarList`, where `var` is in front, and the marks behind it.
pub fn parse_var_item<'a>(alloc: Global, marks: &'a [Mark], level: u16) -> Parsed<'a, Item>
    requires chosen { front marks.now ≡ kind.Var }
    ensures passes { IfOk result (λ r. Passes g.Item level (item_elements (item_of r.0)) marks.now r.1.now) }
    ensures halts { IfErr result (λ e. HaltsAt g.Item level marks.now e) }
    ensures shorter { IfOk result (λ r. length r.1.now < length marks.now) }
{
    let (vars, rest) = parse_var_list(alloc, marks, level)?;
    Ok((make_var_item(vars), rest))
}

/// `"pre" Heading`, where `pre` is in front, and the marks behind it. The level of the heading ends with it.
pub fn parse_pre<'a>(alloc: Global, marks: &'a [Mark], level: u16) -> Parsed<'a, Item>
    requires chosen { front marks.now ≡ kind.Pre }
    ensures passes { IfOk result (λ r. Passes g.Item level (item_elements (item_of r.0)) marks.now r.1.now) }
    ensures halts { IfErr result (λ e. HaltsAt g.Item level marks.now e) }
    ensures shorter { IfOk result (λ r. length r.1.now < length marks.now) }
{
    let (_, behind_pre) = expect(marks, &Symbol::Pre)?;
    let (_, behind_proc) = open(behind_pre, &Symbol::Proc, level)?;
    let (heading, rest) = parse_head(alloc, behind_proc, level + 1)?;
    Ok((make_pre(heading), rest))
}
