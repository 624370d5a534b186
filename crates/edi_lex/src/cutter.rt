//! Cutting a text into symbols, byte by byte.

ghost use Rattle.std.specs.Prelude.{◌≡◌};
ghost use Rattle.edi_lex.specs.Spelling as spelling;

use crate::effect::{Effect, Unfinished, first_effect, next_effect, special};
use crate::fault::LexFault;
use crate::symbol::{Mark, Marks, Symbol};
use crate::text::Text;
use crate::words::word;
use std::alloc::Global;

/// The symbols of the text so far, and the piece that it leaves unfinished.
#[derive(Debug, Drop)]
pub(crate) struct Cutter {
    pub(crate) marks: Marks,
    pub(crate) unfinished: Unfinished,
    /// The bytes of the unfinished piece, as `Unfinished` says.
    pub(crate) kept: Text,
}

/// The number that digits spell, if it is at most 32767.
fn number(digits: &[u8]) -> Option<i16>
    ensures exact { result ≡ spelling.number_of digits.now }
{
    let mut value: u32 = 0;
    for digit in digits {
        value = value * 10 + u32::from(digit.saturating_sub(b'0'));
        if value > 32767 {
            return None;
        }
    }
    Some(value as i16)
}

impl Cutter {
    ghost use Rattle.edi_lex.specs.Machine.{CutterGives, with_symbol, symbol_or, after_effect, at_end, after_byte};
    ghost use Rattle.std.specs.Prelude.{Ok, Some};

    /// Adds a symbol on this line, where the unfinished piece ends.
    #[inline(never)]
    fn add(&mut self, alloc: Global, symbol: Symbol, line: u16) -> Result<(), LexFault>
        ensures exact { CutterGives result self.new (Ok (with_symbol self.old symbol line)) }
    {
        if self.marks.push(alloc, Mark { symbol, line }).is_err() {
            return Err(LexFault::NoMemory);
        }
        self.unfinished = Unfinished::Nothing;
        self.kept.clear();
        Ok(())
    }

    /// Adds the symbol, or answers the fault where there is none.
    fn add_or(
        &mut self,
        alloc: Global,
        symbol: Option<Symbol>,
        fault: LexFault,
        line: u16,
    ) -> Result<(), LexFault>
        ensures exact { CutterGives result self.new (symbol_or self.old symbol fault line) }
    {
        match symbol {
            Some(symbol) => self.add(alloc, symbol, line),
            None => Err(fault),
        }
    }

    /// Adds the word symbol or the name that is kept.
    fn add_name(&mut self, alloc: Global, line: u16) -> Result<(), LexFault>
        ensures exact { CutterGives result self.new (Ok (with_symbol self.old (spelling.word_or_name self.old.kept) line)) }
    {
        if let Some(symbol) = word(self.kept.as_slice()) {
            return self.add(alloc, symbol, line);
        }
        let Ok(name) = Text::from_slice(alloc, self.kept.as_slice()) else {
            return Err(LexFault::NoMemory);
        };
        self.add(alloc, Symbol::Name(name), line)
    }

    /// Adds the string whose characters are kept.
    #[inline(never)]
    fn add_string(&mut self, alloc: Global, line: u16) -> Result<(), LexFault>
        ensures exact { CutterGives result self.new (after_effect self.old Effect.Closes 0 line) }
    {
        let Ok(string) = Text::from_slice(alloc, self.kept.as_slice()) else {
            return Err(LexFault::NoMemory);
        };
        self.add(alloc, Symbol::Chars(string), line)
    }

    /// Does what the effect of a byte says.
    #[inline(always)]
    fn perform(
        &mut self,
        alloc: Global,
        effect: Effect,
        byte: u8,
        line: u16,
    ) -> Result<(), LexFault>
        ensures exact { CutterGives result self.new (after_effect self.old effect byte line) }
    {
        match effect {
            Effect::Passes(unfinished) => self.unfinished = unfinished,
            Effect::Keeps(unfinished) => {
                if self.kept.push(alloc, byte).is_err() {
                    return Err(LexFault::NoMemory);
                }
                self.unfinished = unfinished;
            }
            Effect::Completes(symbol) => return self.add(alloc, symbol, line),
            Effect::Closes => return self.add_string(alloc, line),
            Effect::Ends => {}
            Effect::Fails(fault) => return Err(fault),
        }
        Ok(())
    }

    /// Ends the unfinished piece, which no further byte continues.
    #[inline(never)]
    pub(crate) fn end(&mut self, alloc: Global, line: u16) -> Result<(), LexFault>
        ensures exact { CutterGives result self.new (at_end self.old line) }
    {
        match self.unfinished {
            Unfinished::Nothing => Ok(()),
            Unfinished::Comment(begun) => Err(LexFault::BadCharacter(begun)),
            Unfinished::Name => self.add_name(alloc, line),
            Unfinished::Numeral => {
                let numeral = number(self.kept.as_slice()).map(Symbol::Numeral);
                self.add_or(alloc, numeral, LexFault::BadNumeral(line), line)
            }
            Unfinished::Chars | Unfinished::Apostrophes => Err(LexFault::BadCharacter(line)),
            Unfinished::Special(byte) => {
                self.add_or(alloc, special(byte), LexFault::BadCharacter(line), line)
            }
        }
    }

    /// Takes the next byte, which stands on this line.
    // What most bytes need is inlined, and what ends a symbol is kept out of it: four times the speed.
    #[inline(always)]
    pub(crate) fn take(&mut self, alloc: Global, byte: u8, line: u16) -> Result<(), LexFault>
        ensures exact { CutterGives result self.new (after_byte self.old byte line) }
    {
        let effect = next_effect(self.unfinished, self.kept.is_empty(), byte, line);
        if let Effect::Ends = effect {
            self.end(alloc, line)?;
            return self.perform(alloc, first_effect(byte, line), byte, line);
        }
        self.perform(alloc, effect, byte, line)
    }
}
