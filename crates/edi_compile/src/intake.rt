//! Texts that come in pieces.

ghost use Rattle.std.specs.Prelude.{◌≡◌, ◌↔◌, ◌++◌, ℕ, List, [], Err, IfOk, IsErr, OnOk};
ghost use Rattle.edi_texts.specs.Answers.{TextAnswers};
ghost use Rattle.edi_compile.specs.Compiled.{IsCodeOf};
ghost use Rattle.edi_compile.specs.Meant.{IsPrivateCode};

use crate::passes::code_by;
use edi_lex::Scanner;
use edi_target::Code;
use edi_texts::Refusal;
use std::alloc::{AllocError, Global};

/// Takes a text that comes in pieces, and compiles it at its end. It keeps the symbols so far, never the text. Once memory has
/// run out it has failed.
#[derive(Debug, Drop)]
pub struct Intake {
    scanner: Scanner,
}

impl Intake {
    ghost use Rattle.edi_compile.specs.Taken.{HasTaken, HasFailed};

    /// No text so far. It takes no memory.
    pub fn new(alloc: Global) -> Intake
        ensures empty { HasTaken result [] }
    {
        Intake {
            scanner: Scanner::new(alloc),
        }
    }

    /// The text so far is followed by this piece. After a refusal the intake has failed: this call is refused from then on, and
    /// `finish` answers that memory ran out.
    pub fn feed(&mut self, alloc: Global, piece: &[u8]) -> Result<(), AllocError>
        ensures taken { OnOk result ((text : List ℕ) → HasTaken self.old text → HasTaken self.new (text ++ piece.now)) }
        ensures failed { IsErr result ↔ HasFailed self.new }
        ensures stays_failed { HasFailed self.old → HasFailed self.new }
    {
        self.scanner.feed(alloc, piece)
    }

    /// What `compile` gives for the text so far, however it was cut into pieces.
    pub fn finish(self, alloc: Global) -> Result<Code, Refusal>
        ensures exact { (text : List ℕ) → HasTaken self text → TextAnswers (IsCodeOf text) text result }
        ensures is_private { IfOk result IsPrivateCode }
        ensures failed { HasFailed self → result ≡ Err Refusal.NoMemory }
    {
        let scanned = self.scanner.finish(alloc);
        code_by(alloc, scanned)
    }
}
