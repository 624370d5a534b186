//! Programs.

ghost use Rattle.std.specs.Prelude.{◌≡◌, ◌≤◌, ◌-◌, ◌⊎◌, [], length, IfOk, IfErr, Err};
ghost use Rattle.edi_tree.specs.Tree as plain;
ghost use Rattle.edi_tree.specs.View.{program_with};
ghost use Rattle.edi_tree.specs.Whole.{program_of};
ghost use Rattle.edi_tree.specs.Spells.{Spells, to_end};
ghost use Rattle.edi_tree.specs.Levels.{most_levels};
ghost use Rattle.edi_grammar.specs.Parser.{Stops, complete};
ghost use Rattle.edi_grammar.specs.Edison.{edison, start};
ghost use Rattle.edi_grammar.specs.derivation.Faults.{IsTheTree};
ghost use Rattle.edi_syntax.specs.Ends.{EndsAt, EndsDeep, EndsWrong};
ghost use Rattle.edi_syntax.specs.Refusal.{IsSyntaxFault, Refuses};

use crate::declarations::{parse_globals, parse_procedure};
use crate::fault::SyntaxFault;
use crate::inside::is_outside;
use edi_lex::{Mark, Symbols};
use edi_phrases::Stop;
use edi_tree::{Globals, Procedure, Program};
use std::alloc::Global;

/// Parses `{ ConstList | TypeDecl } Procedure` and then the end of the program: the globals and the procedure that these marks
/// spell, or the marks at which no program goes on (`Stop`), or no memory.
pub fn parse_program(alloc: Global, marks: &[Mark]) -> Result<(Globals, Procedure), Stop<'_>>
    ensures tree { IfOk result (λ r. IsTheTree marks.now (program_with r.0 r.1)) }
    ensures complete { IfOk result (λ r. Stops edison 64 start (to_end marks.now) complete []) }
    ensures ends { IfErr result (λ e. EndsAt marks.now e) }
{
    let (globals, behind_globals) = parse_globals(alloc, marks)?;
    let (procedure, rest) = parse_procedure(alloc, behind_globals, 0)?;
    if !rest.is_empty() {
        return Err(Stop::Fault(rest));
    }
    Ok((globals, procedure))
}

/// How many symbols stand before the rest.
#[tactic(auto, using(crate::proofs::Stopping::few_marks))]
fn count_before(symbols: &Symbols, rest: &[Mark]) -> u32
    requires { length rest.now ≤ length symbols.now.marks }
    ensures { result ≡ length symbols.now.marks - length rest.now }
{
    let count = symbols.marks.len() - rest.len();
    count as u32
}

/// The fault of symbols of which what stands in front of the rest is misplaced.
fn fault_of_wrong(symbols: &Symbols, rest: &[Mark]) -> SyntaxFault
    requires { EndsWrong symbols.now.marks rest.now }
    ensures exact { Refuses symbols.now.marks symbols.now.last result }
{
    let index = count_before(symbols, rest);
    let before = &symbols.marks.as_slice()[..index as usize];
    let Some(first) = rest.first() else {
        return SyntaxFault::Syntax {
            line: symbols.last,
            index,
        };
    };
    if is_outside(before, &first.symbol) {
        return SyntaxFault::NotInProfile {
            line: first.line,
            index,
        };
    }
    SyntaxFault::Syntax {
        line: first.line,
        index,
    }
}

/// The fault of symbols of which the first of the rest opens a level too many.
fn fault_of_deep(symbols: &Symbols, rest: &[Mark]) -> SyntaxFault
    requires { EndsDeep symbols.now.marks rest.now }
    ensures exact { Refuses symbols.now.marks symbols.now.last result }
{
    let index = count_before(symbols, rest);
    let Some(first) = rest.first() else {
        unreachable!()
    };
    SyntaxFault::TooDeep {
        line: first.line,
        index,
    }
}

/// The fault of symbols at which the parser stops so.
fn fault_of(symbols: &Symbols, stop: Stop<'_>) -> SyntaxFault
    requires { EndsAt symbols.now.marks stop }
    ensures exact { Refuses symbols.now.marks symbols.now.last result }
{
    match stop {
        Stop::Fault(rest) => fault_of_wrong(symbols, rest),
        Stop::TooDeep(rest) => fault_of_deep(symbols, rest),
        Stop::NoMemory => SyntaxFault::NoMemory,
    }
}

/// The tree that the symbols spell, which at most 64 levels may be open in; else the first symbol at which they are no
/// program, or which opens a 65th level. Each comes exactly where it is so, but that memory may be wanting.
pub fn parse(alloc: Global, symbols: &Symbols) -> Result<Program, SyntaxFault>
    ensures tree { IfOk result (λ p. IsTheTree symbols.now.marks (program_of p)) }
    ensures fault { IfErr result (λ f. Refuses symbols.now.marks symbols.now.last f) }
    ensures accepted { (tree : plain.Program) → Spells tree symbols.now.marks → most_levels tree ≤ 64 → IfErr result (λ f. f ≡ SyntaxFault.NoMemory) }
    ensures refused { (f : SyntaxFault) → IsSyntaxFault symbols.now.marks symbols.now.last f → (result ≡ Err f) ⊎ (result ≡ Err SyntaxFault.NoMemory) }
{
    // Read, so that the proof knows its range.
    let _last = symbols.last;
    match parse_program(alloc, symbols.marks.as_slice()) {
        Ok((globals, procedure)) => Ok(Program { globals, procedure }),
        Err(stop) => Err(fault_of(symbols, stop)),
    }
}
