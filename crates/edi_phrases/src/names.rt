//! Names, strings and groups of names.
#![tactic(auto, using(crate::proofs::Moves::no_memory))]

ghost use Rattle.std.specs.Prelude.{◌≡◌, ◌∷◌, ◌<◌, ◌≤◌, length, nat_eq, IfSome, IfNone, IfOk, IfErr};
ghost use Rattle.edi_phrases.specs.Prelude.{front, at_line, StandsHere, Passes, HaltsAt, Lacks};
ghost use Rattle.edi_lex.specs.declared.symbol.Symbol.TheVariants as is;
ghost use Rattle.edi_tree.specs.Sequences.{items_of};
ghost use Rattle.edi_tree.specs.View.{group_of, groups_of, names};
ghost use Rattle.edi_tree.specs.Levels.{group_elements, groups_elements, names_elements};
ghost use Rattle.edi_grammar.specs.Kinds as kind;
ghost use Rattle.edi_grammar.specs.Rules as g;

use crate::stop::{Parsed, expect};
use crate::{separated, text_here};
use edi_lex::{Mark, Symbol};
use edi_tree::{Group, Groups, Name, Names};
use std::alloc::Global;

/// Whether a name is in front.
pub fn at_name(marks: &[Mark]) -> bool
    ensures exact { result ≡ nat_eq (front marks.now) kind.Name }
{
    match marks.first() {
        Some(mark) => matches!(mark.symbol, Symbol::Name(_)),
        None => false,
    }
}

/// The name that must stand here, and the marks behind it.
pub fn parse_name<'a>(alloc: Global, marks: &'a [Mark]) -> Parsed<'a, Name>
    ensures found { IfOk result (λ r. marks.now ≡ at_line (is.Name r.0.text) r.0.line ∷ r.1.now) }
    ensures shorter { IfOk result (λ r. length r.1.now < length marks.now) }
    ensures none { IfErr result (λ e. Lacks kind.Name marks.now e) }
{
    text_here!(alloc, marks, Name)
}

/// The numeral in front, and the marks behind it.
pub fn eat_numeral(marks: &[Mark]) -> Option<(i16, &[Mark])>
    ensures found { IfSome result (λ r. StandsHere (is.Numeral r.0) marks.now r.1.now) }
    ensures shorter { IfSome result (λ r. length r.1.now < length marks.now) }
    ensures none { IfNone result (front marks.now ≡ kind.Numeral → ⊥) }
{
    let (first, rest) = marks.split_first()?;
    match first.symbol {
        Symbol::Numeral(value) => Some((value, rest)),
        _ => None,
    }
}

/// `{ "," Name }`, and the marks behind it.
pub fn parse_names<'a>(alloc: Global, marks: &'a [Mark], level: u16) -> Parsed<'a, Names>
    ensures passes { IfOk result (λ r. Passes g.Names level (names_elements (names (items_of r.0))) marks.now r.1.now) }
    ensures halts { IfErr result (λ e. HaltsAt g.Names level marks.now e) }
    ensures shorter { IfOk result (λ r. length r.1.now ≤ length marks.now) }
{
    separated!(alloc, marks, Comma => |behind| parse_name(alloc, behind))
}

/// `Name { "," Name } ":" Name`, and the marks behind it.
pub fn parse_group<'a>(alloc: Global, marks: &'a [Mark], level: u16) -> Parsed<'a, Group>
    ensures passes { IfOk result (λ r. Passes g.Group level (group_elements (group_of r.0)) marks.now r.1.now) }
    ensures halts { IfErr result (λ e. HaltsAt g.Group level marks.now e) }
    ensures shorter { IfOk result (λ r. length r.1.now < length marks.now) }
{
    let (first, behind_first) = parse_name(alloc, marks)?;
    let (more, behind_more) = parse_names(alloc, behind_first, level)?;
    let (_, behind_colon) = expect(behind_more, &Symbol::Colon)?;
    let (type_name, rest) = parse_name(alloc, behind_colon)?;
    Ok((
        Group {
            first,
            more,
            type_name,
        },
        rest,
    ))
}

/// `{ ";" Group }`, and the marks behind it.
pub fn parse_groups<'a>(alloc: Global, marks: &'a [Mark], level: u16) -> Parsed<'a, Groups>
    ensures passes { IfOk result (λ r. Passes g.Groups level (groups_elements (groups_of r.0)) marks.now r.1.now) }
    ensures halts { IfErr result (λ e. HaltsAt g.Groups level marks.now e) }
    ensures shorter { IfOk result (λ r. length r.1.now ≤ length marks.now) }
{
    separated!(alloc, marks, Semicolon => |behind| parse_group(alloc, behind, level))
}
