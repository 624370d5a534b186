//! The passes behind the scanner: from the symbols of a text to its unit and its code.

ghost use Rattle.std.specs.Prelude.{◌≡◌, ℕ, List, Ok, Err, IfOk};
ghost use Rattle.edi_lex.specs.Symbols.{ScanGives, symbols_of};
ghost use Rattle.edi_unit.specs.View.{unit_of};
ghost use Rattle.edi_texts.specs.Answers.{GivesBy, TextAnswers};
ghost use Rattle.edi_compile.specs.Compiled.{IsCodeOf, IsCompiledFrom, IsFront, IsFrontOf};
ghost use Rattle.edi_compile.specs.Meant.{IsPrivateCode};

use edi_code::generate;
use edi_lex::{LexFault, Symbols};
use edi_sema::resolve;
use edi_syntax::parse;
use edi_target::Code;
use edi_texts::Refusal;
use edi_unit::Unit;
use std::alloc::Global;

/// The unit of the symbols of a text, or their first fault.
fn unit_of_symbols(alloc: Global, symbols: &Symbols) -> Result<Unit, Refusal>
    ensures gives { GivesBy (λ unit. IsFront (symbols.now.marks, symbols.now.last) (unit_of unit)) (Ok (symbols.now.marks, symbols.now.last)) result }
{
    let tree = parse(alloc, symbols)?;
    let unit = resolve(alloc, &tree)?;
    Ok(unit)
}

/// The code of the symbols of a text, or their first fault.
fn code_of_symbols(alloc: Global, symbols: &Symbols) -> Result<Code, Refusal>
    ensures gives { GivesBy (IsCompiledFrom (symbols.now.marks, symbols.now.last)) (Ok (symbols.now.marks, symbols.now.last)) result }
{
    let unit = unit_of_symbols(alloc, symbols)?;
    let code = generate(alloc, &unit)?;
    Ok(code)
}

/// The unit of a text that was scanned so, or its first fault.
pub fn unit_by(alloc: Global, scanned: Result<Symbols, LexFault>) -> Result<Unit, Refusal>
    ensures answers { (text : List ℕ) → ScanGives scanned (symbols_of text) → TextAnswers (λ unit. IsFrontOf text (unit_of unit)) text result }
{
    let symbols = scanned?;
    unit_of_symbols(alloc, &symbols)
}

/// The code of a text that was scanned so, or its first fault.
pub fn code_by(alloc: Global, scanned: Result<Symbols, LexFault>) -> Result<Code, Refusal>
    ensures answers { (text : List ℕ) → ScanGives scanned (symbols_of text) → TextAnswers (IsCodeOf text) text result }
    ensures is_private { IfOk result IsPrivateCode }
    ensures failed { scanned ≡ Err LexFault.NoMemory → result ≡ Err Refusal.NoMemory }
{
    let symbols = scanned?;
    code_of_symbols(alloc, &symbols)
}
