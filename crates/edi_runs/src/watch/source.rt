//! A text that can be watched.

ghost use Rattle.std.specs.Prelude.{◌≡◌, ℕ, List, Ok};
ghost use Rattle.edi_lex.specs.Symbols.{ScanGives, symbols_of};
ghost use Rattle.edi_static.specs.Programs.{Sound};
ghost use Rattle.edi_texts.specs.Answers.{GivesBy, TextAnswers};
ghost use Rattle.edi_debug.specs.Points.{ReadsPoints};
ghost use Rattle.edi_runs.specs.watch.Watchable.{IsWatchable, IsWatchableFrom, program_in};

use edi_code::{Mapped, generate_mapped};
use edi_debug::{PointFault, Points, points};
use edi_lex::{LexFault, Symbols, scan};
use edi_sema::resolve;
use edi_syntax::parse;
use edi_texts::Refusal;
use edi_tree::Program;
use std::alloc::Global;

/// The program of an accepted text, and its code with the addresses of its `when`s and the offsets of its variables.
#[derive(Drop)]
pub struct Watchable {
    pub(crate) tree: Program,
    pub(crate) mapped: Mapped,
}

/// The program of the symbols of a text, or their first fault.
fn watchable_of_symbols(alloc: Global, symbols: &Symbols) -> Result<Watchable, Refusal>
    ensures gives { GivesBy (IsWatchableFrom (symbols.now.marks, symbols.now.last)) (Ok (symbols.now.marks, symbols.now.last)) result }
{
    let tree = parse(alloc, symbols)?;
    let unit = resolve(alloc, &tree)?;
    let mapped = generate_mapped(alloc, &unit)?;
    Ok(Watchable { tree, mapped })
}

/// The program of a text that was scanned so, or its first fault.
fn watchable_by(alloc: Global, scanned: Result<Symbols, LexFault>) -> Result<Watchable, Refusal>
    ensures answers { (text : List ℕ) → ScanGives scanned (symbols_of text) → TextAnswers (IsWatchable text) text result }
{
    let symbols = scanned?;
    watchable_of_symbols(alloc, &symbols)
}

/// The program of a text, or the text's first fault, as `edi_compile::compile` has it.
pub fn read_watchable(alloc: Global, text: &[u8]) -> Result<Watchable, Refusal>
    ensures exact { TextAnswers (IsWatchable text.now) text.now result }
{
    watchable_by(alloc, scan(alloc, text))
}

impl Watchable {
    /// The points that the bytes of a file are for this program, or the first bad line.
    pub fn points(&self, alloc: Global, bytes: &[u8]) -> Result<Points, PointFault>
        requires sound { Sound (program_in self.now) }
        ensures exact { ReadsPoints (program_in self.now) bytes.now result }
    {
        points(alloc, &self.tree, bytes)
    }
}
