//! Constants.
#![tactic(auto, using(crate::proofs::Moves::no_memory))]

ghost use Rattle.std.specs.Prelude.{◌≡◌, [], ◌∷◌, ◌<◌, ◌≤◌, length, IfOk, IfErr, IfSome, IfNone};
ghost use Rattle.edi_phrases.specs.Prelude.{front, at_line, StandsHere, Passes, HaltsAt, Lacks};
ghost use Rattle.edi_lex.specs.declared.symbol.Symbol.TheVariants as is;
ghost use Rattle.edi_tree.specs.Sequences.{items_of};
ghost use Rattle.edi_tree.specs.View.{const_decls, const_list_of};
ghost use Rattle.edi_tree.specs.Levels.{const_decl_elements, const_decls_elements, const_list_elements, constant_elements};
ghost use Rattle.edi_grammar.specs.Kinds as kind;
ghost use Rattle.edi_grammar.specs.Rules as g;
ghost use Rattle.edi_grammar.specs.derivation.Parts.{code_elements};

use crate::names::{eat_numeral, parse_name};
use crate::separated;
use crate::stop::{Parsed, Stop, at, expect, open};
use edi_lex::{Mark, Symbol};
use edi_tree::{Char, ConstDecl, ConstDecls, ConstList, Constant};
use std::alloc::Global;

/// The string of one character in front, and the marks behind it.
pub fn eat_char(marks: &[Mark]) -> Option<(Char, &[Mark])>
    ensures found { IfSome result (λ r. marks.now ≡ at_line (is.Chars (r.0.character ∷ [])) r.0.line ∷ r.1.now) }
    ensures shorter { IfSome result (λ r. length r.1.now < length marks.now) }
    ensures none { IfNone result (front marks.now ≡ kind.Char → ⊥) }
{
    let (first, rest) = marks.split_first()?;
    let Symbol::Chars(text) = &first.symbol else {
        return None;
    };
    match text.as_slice() {
        [character] => Some((
            Char {
                character: *character,
                line: first.line,
            },
            rest,
        )),
        _ => None,
    }
}

/// The numeral that must stand here, and the marks behind it.
fn parse_numeral(marks: &[Mark]) -> Result<(i16, &[Mark]), Stop<'_>>
    ensures found { IfOk result (λ r. StandsHere (is.Numeral r.0) marks.now r.1.now) }
    ensures shorter { IfOk result (λ r. length r.1.now < length marks.now) }
    ensures none { IfErr result (λ e. Lacks kind.Numeral marks.now e) }
{
    match eat_numeral(marks) {
        Some(found) => Ok(found),
        None => Err(Stop::Fault(marks)),
    }
}

/// `[ "(" Numeral ")" ]`, and the marks behind it.
fn parse_code<'a>(marks: &'a [Mark], level: u16) -> Parsed<'a, Option<i16>>
    ensures passes { IfOk result (λ r. Passes g.Code level (code_elements r.0) marks.now r.1.now) }
    ensures halts { IfErr result (λ e. HaltsAt g.Code level marks.now e) }
    ensures shorter { IfOk result (λ r. length r.1.now ≤ length marks.now) }
{
    if at(marks, &Symbol::Open) {
        let (_, behind_open) = open(marks, &Symbol::Open, level)?;
        let (value, behind_code) = parse_numeral(behind_open)?;
        let (_, behind_value) = expect(behind_code, &Symbol::Close)?;
        return Ok((Some(value), behind_value));
    }
    Ok((None, marks))
}

/// `Numeral | Char | Name [ "(" Numeral ")" ]`, and the marks behind it.
pub fn parse_constant<'a>(alloc: Global, marks: &'a [Mark], level: u16) -> Parsed<'a, Constant>
    ensures passes { IfOk result (λ r. Passes g.Constant level (constant_elements r.0) marks.now r.1.now) }
    ensures halts { IfErr result (λ e. HaltsAt g.Constant level marks.now e) }
    ensures shorter { IfOk result (λ r. length r.1.now < length marks.now) }
{
    if let Some((value, behind_value)) = eat_numeral(marks) {
        return Ok((Constant::Numeral(value), behind_value));
    }
    if let Some((char, behind_char)) = eat_char(marks) {
        return Ok((Constant::Char(char), behind_char));
    }
    let (name, behind_name) = parse_name(alloc, marks)?;
    let (code, rest) = parse_code(behind_name, level)?;
    Ok((Constant::Name(name, code), rest))
}

/// `Name "=" Constant`, and the marks behind it.
fn parse_const_decl<'a>(alloc: Global, marks: &'a [Mark], level: u16) -> Parsed<'a, ConstDecl>
    ensures passes { IfOk result (λ r. Passes g.ConstDecl level (const_decl_elements r.0) marks.now r.1.now) }
    ensures halts { IfErr result (λ e. HaltsAt g.ConstDecl level marks.now e) }
    ensures shorter { IfOk result (λ r. length r.1.now < length marks.now) }
{
    let (name, behind_name) = parse_name(alloc, marks)?;
    let (_, behind_equal) = expect(behind_name, &Symbol::Equal)?;
    let (constant, rest) = parse_constant(alloc, behind_equal, level)?;
    Ok((ConstDecl { name, constant }, rest))
}

/// `{ ";" ConstDecl }`, and the marks behind it.
fn parse_const_decls<'a>(alloc: Global, marks: &'a [Mark], level: u16) -> Parsed<'a, ConstDecls>
    ensures passes { IfOk result (λ r. Passes g.ConstDecls level (const_decls_elements (const_decls (items_of r.0))) marks.now r.1.now) }
    ensures halts { IfErr result (λ e. HaltsAt g.ConstDecls level marks.now e) }
    ensures shorter { IfOk result (λ r. length r.1.now ≤ length marks.now) }
{
    separated!(alloc, marks, Semicolon => |behind| parse_const_decl(alloc, behind, level))
}

/// `"const" ConstDecl { ";" ConstDecl }`, and the marks behind it.
pub fn parse_const_list<'a>(alloc: Global, marks: &'a [Mark], level: u16) -> Parsed<'a, ConstList>
    ensures passes { IfOk result (λ r. Passes g.ConstList level (const_list_elements (const_list_of r.0)) marks.now r.1.now) }
    ensures halts { IfErr result (λ e. HaltsAt g.ConstList level marks.now e) }
    ensures shorter { IfOk result (λ r. length r.1.now < length marks.now) }
{
    let (_, behind_const) = expect(marks, &Symbol::Const)?;
    let (first, behind_first) = parse_const_decl(alloc, behind_const, level)?;
    let (more, rest) = parse_const_decls(alloc, behind_first, level)?;
    Ok((ConstList { first, more }, rest))
}
