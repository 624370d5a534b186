//! The declarations in front of the procedure of a program. No level is open there.
#![tactic(auto, using(edi_phrases::proofs::Moves::no_memory))]

ghost use Rattle.std.specs.Prelude.{◌<◌, ◌≤◌, length, IfOk, IfErr};
ghost use Rattle.edi_phrases.specs.Prelude.{Passes, HaltsAt};
ghost use Rattle.edi_tree.specs.View.{global_of, globals_of};
ghost use Rattle.edi_tree.specs.Levels.{global_elements, globals_elements};
ghost use Rattle.edi_grammar.specs.Rules as g;

use crate::declarations::fronts::at_global;
use edi_lex::{Mark, Symbol};
use edi_phrases::{Parsed, at, parse_const_list, parse_type_decl};
use edi_tree::{Global as Declared, Globals, Sequence};
use std::alloc::Global;

/// `ConstList | TypeDecl`, and the marks behind it.
fn parse_global<'a>(alloc: Global, marks: &'a [Mark]) -> Parsed<'a, Declared>
    ensures passes { IfOk result (λ r. Passes g.Global 0 (global_elements (global_of r.0)) marks.now r.1.now) }
    ensures halts { IfErr result (λ e. HaltsAt g.Global 0 marks.now e) }
    ensures shorter { IfOk result (λ r. length r.1.now < length marks.now) }
{
    if at(marks, &Symbol::Const) {
        let (const_list, behind_list) = parse_const_list(alloc, marks, 0)?;
        return Ok((Declared::ConstList(const_list), behind_list));
    }
    let (type_decl, rest) = parse_type_decl(alloc, marks, 0)?;
    Ok((Declared::TypeDecl(type_decl), rest))
}

/// `{ ConstList | TypeDecl }`, the declarations in front of the procedure of a program, and the marks behind them. Fails
/// where another symbol stands, where a 65th level would open, and where memory is wanting.
pub fn parse_globals<'a>(alloc: Global, marks: &'a [Mark]) -> Parsed<'a, Globals>
    ensures passes { IfOk result (λ r. Passes g.Globals 0 (globals_elements (globals_of r.0)) marks.now r.1.now) }
    ensures halts { IfErr result (λ e. HaltsAt g.Globals 0 marks.now e) }
    ensures shorter { IfOk result (λ r. length r.1.now ≤ length marks.now) }
{
    let mut globals = Vec::new(alloc);
    let mut rest = marks;
    while at_global(rest) {
        let (global, behind) = parse_global(alloc, rest)?;
        globals.push(global)?;
        rest = behind;
    }
    Ok((Sequence::from_vec(globals), rest))
}
