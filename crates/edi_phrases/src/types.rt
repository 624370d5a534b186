//! Declarations of types, and lists of variables.
#![tactic(auto, using(crate::proofs::Moves::no_memory))]

ghost use Rattle.std.specs.Prelude.{◌≡◌, [], ◌∷◌, ◌<◌, true, false, length, IfOk, IfErr};
ghost use Rattle.edi_phrases.specs.Prelude.{front, kind_of, has, is_word, HeadStands, Passes, HaltsAt, HaltsInHead};
ghost use Rattle.edi_tree.specs.View.{type_decl_of, var_list_of};
ghost use Rattle.edi_tree.specs.Levels.{type_decl_elements, var_list_elements};
ghost use Rattle.edi_grammar.specs.Kinds as kind;
ghost use Rattle.edi_grammar.specs.Rules as g;
ghost use Rattle.edi_grammar.specs.Edison as sets;

use crate::by_front;
use crate::constants::parse_constant;
use crate::names::{parse_group, parse_groups, parse_name, parse_names};
use crate::stop::{Parsed, Stop, expect, open};
use edi_lex::{Mark, Symbol};
use edi_tree::{Array, Enum, Name, Record, Set, TypeDecl, VarList};
use std::alloc::Global;

/// Whether the declaration of a type is in front.
pub fn at_type_decl(marks: &[Mark]) -> bool
    ensures exact { result ≡ has (front marks.now) (sets.first g.TypeDecl) }
{
    match marks.first() {
        Some(mark) => matches!(
            mark.symbol,
            Symbol::Enum | Symbol::Record | Symbol::Array | Symbol::Set
        ),
        None => false,
    }
}

/// The word, the name and the bracket with which the declaration of a type begins: the name, the line of the bracket, which
/// opens a level where so many are open, and the marks behind it.
fn parse_type_head<'a>(
    alloc: Global,
    marks: &'a [Mark],
    wanted: &Symbol,
    bracket: &Symbol,
    level: u16,
) -> Result<(Name, u16, &'a [Mark]), Stop<'a>>
    requires word { is_word wanted.now ≡ true }
    requires shut { g.opens (kind_of wanted.now) ≡ false }
    requires bracket_word { is_word bracket.now ≡ true }
    requires opening { g.opens (kind_of bracket.now) ≡ true }
    ensures found { IfOk result (λ r. HeadStands wanted.now r.0 bracket.now r.1 marks.now r.2.now) }
    ensures room { IfOk result (λ r. level < 64) }
    ensures shorter { IfOk result (λ r. length r.2.now < length marks.now) }
    ensures halts { IfErr result (λ e. HaltsInHead wanted.now bracket.now level marks.now e) }
{
    let (_, behind_word) = expect(marks, wanted)?;
    let (name, behind_name) = parse_name(alloc, behind_word)?;
    let (line, rest) = open(behind_name, bracket, level)?;
    Ok((name, line, rest))
}

/// `"enum" Name "(" Name { "," Name } ")"`, where `enum` is in front, and the marks behind it.
fn parse_enum<'a>(alloc: Global, marks: &'a [Mark], level: u16) -> Parsed<'a, TypeDecl>
    requires chosen { front marks.now ≡ kind.Enum }
    ensures passes { IfOk result (λ r. Passes g.TypeDecl level (type_decl_elements (type_decl_of r.0)) marks.now r.1.now) }
    ensures halts { IfErr result (λ e. HaltsAt g.TypeDecl level marks.now e) }
    ensures shorter { IfOk result (λ r. length r.1.now < length marks.now) }
{
    let (name, _, behind_open) = parse_type_head(
        alloc,
        marks,
        &Symbol::Enum,
        &Symbol::Open,
        level,
    )?;
    let (first, behind_first) = parse_name(alloc, behind_open)?;
    let (more, behind_more) = parse_names(alloc, behind_first, level + 1)?;
    let (_, rest) = expect(behind_more, &Symbol::Close)?;
    Ok((TypeDecl::Enum(Enum { name, first, more }), rest))
}

/// `"record" Name "(" Group { ";" Group } ")"`, where `record` is in front, and the marks behind it.
fn parse_record<'a>(alloc: Global, marks: &'a [Mark], level: u16) -> Parsed<'a, TypeDecl>
    requires chosen { front marks.now ≡ kind.Record }
    ensures passes { IfOk result (λ r. Passes g.TypeDecl level (type_decl_elements (type_decl_of r.0)) marks.now r.1.now) }
    ensures halts { IfErr result (λ e. HaltsAt g.TypeDecl level marks.now e) }
    ensures shorter { IfOk result (λ r. length r.1.now < length marks.now) }
{
    let (name, _, behind_open) = parse_type_head(
        alloc,
        marks,
        &Symbol::Record,
        &Symbol::Open,
        level,
    )?;
    let (first, behind_first) = parse_group(alloc, behind_open, level + 1)?;
    let (more, behind_more) = parse_groups(alloc, behind_first, level + 1)?;
    let (_, rest) = expect(behind_more, &Symbol::Close)?;
    Ok((TypeDecl::Record(Record { name, first, more }), rest))
}

/// `"array" Name "[" Constant ":" Constant "]" "(" Name ")"`, where `array` is in front, and the marks behind it.
fn parse_array<'a>(alloc: Global, marks: &'a [Mark], level: u16) -> Parsed<'a, TypeDecl>
    requires chosen { front marks.now ≡ kind.Array }
    ensures passes { IfOk result (λ r. Passes g.TypeDecl level (type_decl_elements (type_decl_of r.0)) marks.now r.1.now) }
    ensures halts { IfErr result (λ e. HaltsAt g.TypeDecl level marks.now e) }
    ensures shorter { IfOk result (λ r. length r.1.now < length marks.now) }
{
    let (name, line, behind_bracket) = parse_type_head(
        alloc,
        marks,
        &Symbol::Array,
        &Symbol::OpenBracket,
        level,
    )?;
    let (lower, behind_lower) = parse_constant(alloc, behind_bracket, level + 1)?;
    let (_, behind_colon) = expect(behind_lower, &Symbol::Colon)?;
    let (upper, behind_upper) = parse_constant(alloc, behind_colon, level + 1)?;
    let (_, behind_range) = expect(behind_upper, &Symbol::CloseBracket)?;
    let (_, behind_open) = open(behind_range, &Symbol::Open, level)?;
    let (element, behind_element) = parse_name(alloc, behind_open)?;
    let (_, rest) = expect(behind_element, &Symbol::Close)?;
    Ok((
        TypeDecl::Array(Array {
            name,
            line,
            lower,
            upper,
            element,
        }),
        rest,
    ))
}

/// `"set" Name "(" Name ")"`, where no other declaration of a type is in front, and the marks behind it.
fn parse_set<'a>(alloc: Global, marks: &'a [Mark], level: u16) -> Parsed<'a, TypeDecl>
    requires chosen { has (front marks.now) (kind.Enum ∷ kind.Record ∷ kind.Array ∷ []) ≡ false }
    ensures passes { IfOk result (λ r. Passes g.TypeDecl level (type_decl_elements (type_decl_of r.0)) marks.now r.1.now) }
    ensures halts { IfErr result (λ e. HaltsAt g.TypeDecl level marks.now e) }
    ensures shorter { IfOk result (λ r. length r.1.now < length marks.now) }
{
    let (name, _, behind_open) = parse_type_head(alloc, marks, &Symbol::Set, &Symbol::Open, level)?;
    let (base, behind_base) = parse_name(alloc, behind_open)?;
    let (_, rest) = expect(behind_base, &Symbol::Close)?;
    Ok((TypeDecl::Set(Set { name, base }), rest))
}

/// `Enum | Record | Array | Set`, and the marks behind it.
pub fn parse_type_decl<'a>(alloc: Global, marks: &'a [Mark], level: u16) -> Parsed<'a, TypeDecl>
    ensures passes { IfOk result (λ r. Passes g.TypeDecl level (type_decl_elements (type_decl_of r.0)) marks.now r.1.now) }
    ensures halts { IfErr result (λ e. HaltsAt g.TypeDecl level marks.now e) }
    ensures shorter { IfOk result (λ r. length r.1.now < length marks.now) }
{
    by_front!(alloc, marks, level, Enum => parse_enum, Record => parse_record, Array => parse_array, _ => parse_set)
}

/// `"var" Group { ";" Group }`, and the marks behind it.
pub fn parse_var_list<'a>(alloc: Global, marks: &'a [Mark], level: u16) -> Parsed<'a, VarList>
    ensures passes { IfOk result (λ r. Passes g.VarList level (var_list_elements (var_list_of r.0)) marks.now r.1.now) }
    ensures halts { IfErr result (λ e. HaltsAt g.VarList level marks.now e) }
    ensures shorter { IfOk result (λ r. length r.1.now < length marks.now) }
{
    let (_, behind_var) = expect(marks, &Symbol::Var)?;
    let (first, behind_first) = parse_group(alloc, behind_var, level)?;
    let (more, rest) = parse_groups(alloc, behind_first, level)?;
    Ok((VarList { first, more }, rest))
}
