//! The scanner, to which a text may come in pieces.

ghost use Rattle.std.specs.Prelude.{◌≡◌, ℕ, ◌+◌, ◌<◌, ◌≤◌, ◌↔◌, Bool, List, [], ◌∷◌, ◌++◌, None, IsTrue, IsErr, OnOk};
ghost use Rattle.edi_lex.specs.Sound.{IsSound};
ghost use Rattle.edi_lex.specs.Symbols.{symbols_of, ScanGives};
ghost use Rattle.edi_lex.specs.Machine.{FaultGives, after_byte};

use crate::bytes::feeds_at;
use crate::cutter::Cutter;
use crate::effect::Unfinished;
use crate::fault::LexFault;
use crate::symbol::{Marks, Symbols};
use crate::text::Text;
use std::alloc::{AllocError, Global};

/// The most bytes of a text.
const MAX_BYTES: u32 = 262144;

/// The last line of a text with the most line feeds, 65,534.
const MAX_LINE: u16 = 65535;

/// Reads a text that comes in pieces. It keeps the symbols so far and the piece of text that is unfinished, never the
/// text. Once memory has run out it has failed.
#[derive(Debug, Drop)]
pub struct Scanner {
    cutter: Cutter,
    // The line of the next byte. It and the number of bytes stand still in a text that is too long.
    line: u16,
    // The number of bytes so far.
    bytes: u32,
    // The fault of the text so far. It gives way to that of a text that is too long.
    fault: Option<LexFault>,
    ghost sound: { fault ≡ None → IsSound cutter line bytes },
    ghost counted: { bytes ≤ 262144 },
    ghost lined: { line ≤ 65535 },
}

/// The fault of a text with one byte more, unless it is too long.
fn fault_with(
    cutter: &mut Cutter,
    alloc: Global,
    before: Option<LexFault>,
    byte: u8,
    line: u16,
) -> Option<LexFault>
    ensures exact { FaultGives before result cutter.new (after_byte cutter.old byte line) }
{
    if before.is_some() {
        return before;
    }
    cutter.take(alloc, byte, line).err()
}

#[tactic(auto, unfolding(crate::specs::Reading::HasFailed))]
impl Scanner {
    ghost use Rattle.edi_lex.specs.Machine.{is_full};
    ghost use Rattle.edi_lex.specs.Reading.{HasRead, HasFailed};

    /// No text so far. It takes no memory.
    pub fn new(alloc: Global) -> Scanner
        ensures empty { HasRead result [] }
    {
        Scanner {
            cutter: Cutter {
                marks: Marks::new(alloc),
                unfinished: Unfinished::Nothing,
                kept: Text::new(alloc),
            },
            line: 1,
            bytes: 0,
            fault: None,
        }
    }

    /// Whether the text is too long with this byte.
    fn is_full(&self, byte: u8) -> bool
        ensures full { result ≡ is_full self.now.bytes self.now.line byte }
    {
        self.bytes == MAX_BYTES || (byte == b'\n' && self.line == MAX_LINE)
    }

    /// One byte more.
    fn take(&mut self, alloc: Global, byte: u8) -> Result<(), AllocError>
        requires works { HasFailed self.old → ⊥ }
        ensures read { OnOk result ((text : List ℕ) → HasRead self.old text → HasRead self.new (text ++ byte ∷ [])) }
        ensures failed { IsErr result ↔ HasFailed self.new }
    {
        if self.fault == Some(LexFault::TooLong) {
            return Ok(());
        }
        if self.is_full(byte) {
            self.fault = Some(LexFault::TooLong);
            return Ok(());
        }
        let fault = fault_with(&mut self.cutter, alloc, self.fault, byte, self.line);
        self.fault = fault;
        self.bytes += 1;
        self.line += feeds_at(byte);
        if fault == Some(LexFault::NoMemory) {
            return Err(AllocError);
        }
        Ok(())
    }

    /// The text so far is followed by this piece. After want of memory the scanner has failed: this call is refused from
    /// then on, and `finish` answers that memory ran out.
    pub fn feed(&mut self, alloc: Global, piece: &[u8]) -> Result<(), AllocError>
        ensures read { OnOk result ((text : List ℕ) → HasRead self.old text → HasRead self.new (text ++ piece.now)) }
        ensures failed { IsErr result ↔ HasFailed self.new }
        ensures stays_failed { HasFailed self.old → HasFailed self.new }
    {
        if self.fault == Some(LexFault::NoMemory) {
            return Err(AllocError);
        }
        for byte in piece {
            self.take(alloc, *byte)?;
        }
        Ok(())
    }

    /// The symbols of the text, however it was cut into pieces, or its fault.
    pub fn finish(self, alloc: Global) -> Result<Symbols, LexFault>
        ensures exact { (text : List ℕ) → HasRead self text → ScanGives result (symbols_of text) }
        ensures failed { HasFailed self → result ≡ Err LexFault.NoMemory }
    {
        if let Some(fault) = self.fault {
            return Err(fault);
        }
        let mut cutter = self.cutter;
        match cutter.end(alloc, self.line) {
            Ok(()) => Ok(Symbols {
                marks: cutter.marks,
                last: self.line,
            }),
            Err(fault) => Err(fault),
        }
    }
}

/// The symbols of a text, or its fault.
pub fn scan(alloc: Global, text: &[u8]) -> Result<Symbols, LexFault>
    ensures exact { ScanGives result (symbols_of text.now) }
{
    let mut scanner = Scanner::new(alloc);
    if scanner.feed(alloc, text).is_err() {
        return Err(LexFault::NoMemory);
    }
    scanner.finish(alloc)
}
