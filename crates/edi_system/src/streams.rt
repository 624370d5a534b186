//! The input, the terminal and the printer.
#![tactic(auto, using(crate::proofs::Characters::shows_as, crate::proofs::Characters::prints_as, crate::proofs::Used::taken_used, crate::proofs::Used::shown_used, crate::proofs::Used::printed_used))]

ghost use Rattle.std.specs.Prelude.{◌≡◌, ◌%◌, true, false, not, Err, None, Some, if◌then◌else◌, [], ◌∷◌};
ghost use Rattle.edi_told.specs.Told.{WhereTold};
ghost use Rattle.edi_host.specs.Streams.{Takes, next_fault};
ghost use Rattle.edi_calls.specs.Calls.{accept, display, print, word_of};
ghost use Rattle.edi_system.specs.State.{due_in, failed_in, input_in, state_of, IsReady};
ghost use Rattle.edi_system.specs.Ends.{is_fault, Keeps, Reaches};
ghost use Rattle.edi_system.specs.AsCalls.{FailsUsed, KeepsDue, KeepsSystem};
ghost use Rattle.edi_system.specs.Does.{AcceptsByte, AsksOnly, TellsOnly};
ghost use Rattle.edi_system.specs.Parts.{due_after, line_end, KeepsTold, OnlyInput, OnlyPrinter, OnlyTerminal, Prints, PrintsMore, Shows, ShowsMore, TakesByte};

use crate::ends::Stop;
use crate::system::System;
use edi_calls::Outside;
use edi_host::{Drive, Next, PutEnd, Sink, Source};

const LINE_FEED: u8 = 10;

/// The character that stands for the end of the input and of a file.
pub(crate) const END_OF_TEXT: u8 = 25;

/// A word as a character.
pub(crate) fn character(word: u16) -> u8
    ensures { result ≡ word % 128 }
{
    (word % 128) as u8
}

/// A truth value as a word.
pub(crate) fn word_of(value: bool) -> u16
    ensures { result ≡ word_of value }
{
    u16::from(value)
}

// Whether a line that was begun is not ended, after these bytes were shown.
fn due_after(due: bool, shown: &[u8]) -> bool
    ensures { result ≡ due_after due shown.now }
{
    match shown.last() {
        Some(byte) => *byte != LINE_FEED,
        None => due,
    }
}

impl<D: Drive, S: Source, T: Sink, P: Sink> System<'_, '_, '_, '_, '_, '_, D, S, T, P> {
    /// The next byte of the input.
    pub fn take(&mut self) -> Next
        requires ready { IsReady D.contents D.count self.old }
        ensures takes { WhereTold (S.left (input_in self.old)) (S.left (input_in self.new)) (Takes result) }
        ensures exact { WhereTold (state_of D.contents S.left T.taken P.taken self.old) (state_of D.contents S.left T.taken P.taken self.new)
            (TakesByte result) }
        ensures only { OnlyInput self.old self.new }
        ensures failed { failed_in self.new ≡ (if next_fault result then Some Outside.Input else None) }
        ensures ready { next_fault result ≡ false → IsReady D.contents D.count self.new }
        ensures due { KeepsDue T.taken self.old self.new }
        ensures told { KeepsTold D.contents S.left T.taken P.taken self.old self.new }
        ensures keeps { Keeps D.faults S.faults T.faults P.faults (next_fault result) self.old self.new }
    {
        match self.input.next() {
            Next::Byte(byte) => Next::Byte(byte),
            Next::End => Next::End,
            Next::Failed => {
                self.failed = Some(Outside::Input);
                Next::Failed
            }
        }
    }

    /// Shows these bytes, and tells whether the terminal has taken them all. Where it has failed it has taken a first part of
    /// them, perhaps all.
    pub fn show(&mut self, bytes: &[u8]) -> bool
        requires ready { IsReady D.contents D.count self.old }
        ensures shows { Shows T.taken result bytes.now self.old self.new }
        ensures exact { WhereTold (state_of D.contents S.left T.taken P.taken self.old) (state_of D.contents S.left T.taken P.taken self.new)
            (ShowsMore result bytes.now) }
        ensures only { OnlyTerminal self.old self.new }
        ensures failed { failed_in self.new ≡ (if result then None else Some Outside.Terminal) }
        ensures ready { result ≡ true → IsReady D.contents D.count self.new }
        ensures due { KeepsDue T.taken self.old self.new }
        ensures told { KeepsTold D.contents S.left T.taken P.taken self.old self.new }
        ensures keeps { Keeps D.faults S.faults T.faults P.faults (not result) self.old self.new }
    {
        let put = self.terminal.put(bytes);
        self.due = due_after(self.due, &bytes[..put.taken]);
        match put.end {
            PutEnd::Ok => true,
            PutEnd::Failed => {
                self.failed = Some(Outside::Terminal);
                false
            }
        }
    }

    /// Prints these bytes, and tells whether the printer has taken them all. Where it has failed it has taken a first part of
    /// them, perhaps all.
    pub fn print_out(&mut self, bytes: &[u8]) -> bool
        requires ready { IsReady D.contents D.count self.old }
        ensures prints { Prints P.taken result bytes.now self.old self.new }
        ensures exact { WhereTold (state_of D.contents S.left T.taken P.taken self.old) (state_of D.contents S.left T.taken P.taken self.new)
            (PrintsMore result bytes.now) }
        ensures only { OnlyPrinter self.old self.new }
        ensures failed { failed_in self.new ≡ (if result then None else Some Outside.Printer) }
        ensures ready { result ≡ true → IsReady D.contents D.count self.new }
        ensures due { KeepsDue T.taken self.old self.new }
        ensures told { KeepsTold D.contents S.left T.taken P.taken self.old self.new }
        ensures keeps { Keeps D.faults S.faults T.faults P.faults (not result) self.old self.new }
    {
        match self.printer.put(bytes).end {
            PutEnd::Ok => true,
            PutEnd::Failed => {
                self.failed = Some(Outside::Printer);
                false
            }
        }
    }

    /// Shows a line feed where a line was begun on the terminal and is not ended, and else nothing. It answers as `show`.
    pub fn fresh_line(&mut self) -> bool
        requires ready { IsReady D.contents D.count self.old }
        ensures shows { Shows T.taken result (line_end (due_in self.old)) self.old self.new }
        ensures quiet { due_in self.old ≡ false → (result ≡ true) × (self.new ≡ self.old) }
        ensures exact { WhereTold (state_of D.contents S.left T.taken P.taken self.old) (state_of D.contents S.left T.taken P.taken self.new)
            (ShowsMore result (line_end (due_in self.old))) }
        ensures only { OnlyTerminal self.old self.new }
        ensures failed { failed_in self.new ≡ (if result then None else Some Outside.Terminal) }
        ensures ready { result ≡ true → IsReady D.contents D.count self.new }
        ensures due { KeepsDue T.taken self.old self.new }
        ensures told { KeepsTold D.contents S.left T.taken P.taken self.old self.new }
        ensures keeps { Keeps D.faults S.faults T.faults P.faults (not result) self.old self.new }
    {
        if self.due {
            self.show(&[LINE_FEED])
        } else {
            true
        }
    }

    /// The next byte of the input as a character.
    pub(crate) fn accept(&mut self) -> Result<Option<u16>, Stop>
        requires ready { IsReady D.contents D.count self.old }
        ensures exact { WhereTold (state_of D.contents S.left T.taken P.taken self.old) (state_of D.contents S.left T.taken P.taken self.new)
            (λ before after. Reaches (accept before) result before after) }
        ensures asks { AsksOnly result }
        ensures accepts { WhereTold (S.left (input_in self.old)) (S.left (input_in self.new)) (AcceptsByte result) }
        ensures only { OnlyInput self.old self.new }
        ensures used { FailsUsed S.left 1 self.new }
        ensures untouched { result ≡ Err Stop.NoFile → self.new ≡ self.old }
        ensures ready { is_fault result ≡ false → IsReady D.contents D.count self.new }
        ensures told { KeepsTold D.contents S.left T.taken P.taken self.old self.new }
        ensures stays { KeepsSystem D.count T.taken D.faults S.faults T.faults P.faults (is_fault result) self.old self.new }
    {
        match self.take() {
            Next::Byte(byte) => Ok(Some(u16::from(byte % 128))),
            Next::End => Ok(Some(u16::from(END_OF_TEXT))),
            Next::Failed => Err(Stop::Fault),
        }
    }

    /// Shows a character.
    pub(crate) fn display(&mut self, word: u16) -> Result<Option<u16>, Stop>
        requires ready { IsReady D.contents D.count self.old }
        ensures exact { WhereTold (state_of D.contents S.left T.taken P.taken self.old) (state_of D.contents S.left T.taken P.taken self.new)
            (λ before after. Reaches (display word before) result before after) }
        ensures tells { TellsOnly result }
        ensures shows { Shows T.taken (not (is_fault result)) (word % 128 ∷ []) self.old self.new }
        ensures only { OnlyTerminal self.old self.new }
        ensures used { FailsUsed S.left 2 self.new }
        ensures untouched { result ≡ Err Stop.NoFile → self.new ≡ self.old }
        ensures ready { is_fault result ≡ false → IsReady D.contents D.count self.new }
        ensures told { KeepsTold D.contents S.left T.taken P.taken self.old self.new }
        ensures stays { KeepsSystem D.count T.taken D.faults S.faults T.faults P.faults (is_fault result) self.old self.new }
    {
        if self.show(&[character(word)]) {
            Ok(None)
        } else {
            Err(Stop::Fault)
        }
    }

    /// Prints a character.
    pub(crate) fn print(&mut self, word: u16) -> Result<Option<u16>, Stop>
        requires ready { IsReady D.contents D.count self.old }
        ensures exact { WhereTold (state_of D.contents S.left T.taken P.taken self.old) (state_of D.contents S.left T.taken P.taken self.new)
            (λ before after. Reaches (print word before) result before after) }
        ensures tells { TellsOnly result }
        ensures prints { Prints P.taken (not (is_fault result)) (word % 128 ∷ []) self.old self.new }
        ensures only { OnlyPrinter self.old self.new }
        ensures used { FailsUsed S.left 3 self.new }
        ensures untouched { result ≡ Err Stop.NoFile → self.new ≡ self.old }
        ensures ready { is_fault result ≡ false → IsReady D.contents D.count self.new }
        ensures told { KeepsTold D.contents S.left T.taken P.taken self.old self.new }
        ensures stays { KeepsSystem D.count T.taken D.faults S.faults T.faults P.faults (is_fault result) self.old self.new }
    {
        if self.print_out(&[character(word)]) {
            Ok(None)
        } else {
            Err(Stop::Fault)
        }
    }
}
