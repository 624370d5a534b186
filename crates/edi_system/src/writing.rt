//! Writing, storing and removing a file.
#![tactic(auto, using(crate::proofs::Used::nothing_used, crate::proofs::Used::changed_used))]

ghost use Rattle.std.specs.Prelude.{◌≡◌, ◌%◌, ◌↔◌, false, length, [], Ok, Err, None, Some, IfOk, IfSome};
ghost use Rattle.edi_told.specs.Told.{WhereTold};
ghost use Rattle.edi_calls.specs.State.{title_of};
ghost use Rattle.edi_calls.specs.Calls.{close, fresh_buffer, remove, write};
ghost use Rattle.edi_system.specs.Buffers.{WritesTo};
ghost use Rattle.edi_system.specs.Catalogue.{done, is_refused, OnlyFiles};
ghost use Rattle.edi_system.specs.Closing.{Closes, Removes};
ghost use Rattle.edi_system.specs.State.{buffer_in, state_of, IsReady};
ghost use Rattle.edi_system.specs.AsCalls.{FailsUsed, KeepsSystem};
ghost use Rattle.edi_system.specs.Ends.{is_fault, Reaches};
ghost use Rattle.edi_system.specs.Parts.{KeepsTold, OnlyOpenFiles};

use crate::ends::Stop;
use crate::files::{failed_at, is_refused};
use crate::reading::{drop_titled, title_of};
use crate::streams::{character, word_of};
use crate::system::System;
use edi_calls::FileKind;
use edi_catalog::CatEnd;
use edi_host::{Drive, Sink, Source};

// What a call of the catalogue answers to a program, where it was not refused.
fn done(answer: Result<(), CatEnd>) -> Result<Option<u16>, Stop>
    requires { is_refused answer ≡ false }
    ensures { result ≡ done answer }
{
    match answer {
        Ok(()) => Ok(Some(word_of(true))),
        Err(_) => Err(Stop::Fault),
    }
}

impl<D: Drive, S: Source, T: Sink, P: Sink> System<'_, '_, '_, '_, '_, '_, D, S, T, P> {
    /// Begins an empty file.
    pub(crate) fn fresh(&mut self) -> Result<Option<u16>, Stop>
        requires ready { IsReady D.contents D.count self.old }
        ensures exact { WhereTold (state_of D.contents S.left T.taken P.taken self.old) (state_of D.contents S.left T.taken P.taken self.new)
            (λ before after. Reaches (fresh_buffer before) result before after) }
        ensures begins { (result ≡ Ok None) × (buffer_in self.new ≡ Some []) }
        ensures found { self.new.found ≡ self.old.found }
        ensures only { OnlyOpenFiles self.old self.new }
        ensures used { FailsUsed S.left 7 self.new }
        ensures ready { IsReady D.contents D.count self.new }
        ensures told { KeepsTold D.contents S.left T.taken P.taken self.old self.new }
        ensures stays { KeepsSystem D.count T.taken D.faults S.faults T.faults P.faults (is_fault result) self.old self.new }
    {
        self.buffer.begin();
        Ok(None)
    }

    /// Appends a character to the file that is being written.
    pub(crate) fn write(&mut self, word: u16) -> Result<Option<u16>, Stop>
        requires ready { IsReady D.contents D.count self.old }
        ensures exact { WhereTold (state_of D.contents S.left T.taken P.taken self.old) (state_of D.contents S.left T.taken P.taken self.new)
            (λ before after. Reaches (write word before) result before after) }
        ensures writes { WritesTo result (word % 128) (buffer_in self.old) (buffer_in self.new) }
        ensures answer { IfOk result (λ answer. answer ≡ None) }
        ensures found { self.new.found ≡ self.old.found }
        ensures only { OnlyOpenFiles self.old self.new }
        ensures used { FailsUsed S.left 8 self.new }
        ensures untouched { result ≡ Err Stop.NoFile → self.new ≡ self.old }
        ensures ready { IsReady D.contents D.count self.new }
        ensures told { KeepsTold D.contents S.left T.taken P.taken self.old self.new }
        ensures stays { KeepsSystem D.count T.taken D.faults S.faults T.faults P.faults (is_fault result) self.old self.new }
    {
        match self.buffer.write(character(word)) {
            Ok(()) => Ok(None),
            Err(stop) => Err(stop),
        }
    }

    /// Stores the file that is being written as the text of a title, and tells whether that was done.
    pub(crate) fn close(&mut self, words: &[u16]) -> Result<Option<u16>, Stop>
        requires ready { IsReady D.contents D.count self.old }
        requires words { length words.now ≡ 12 }
        ensures exact { WhereTold (state_of D.contents S.left T.taken P.taken self.old) (state_of D.contents S.left T.taken P.taken self.new)
            (λ before after. Reaches (close words.now before) result before after) }
        ensures no_file { (result ≡ Err Stop.NoFile) ↔ (buffer_in self.old ≡ None) }
        ensures stores { IfSome (buffer_in self.old) (λ bytes. Closes D.contents D.count result (title_of words.now) bytes self.old self.new) }
        ensures only { OnlyFiles self.old self.new }
        ensures used { FailsUsed S.left 9 self.new }
        ensures untouched { result ≡ Err Stop.NoFile → self.new ≡ self.old }
        ensures ready { is_fault result ≡ false → IsReady D.contents D.count self.new }
        ensures told { KeepsTold D.contents S.left T.taken P.taken self.old self.new }
        ensures stays { KeepsSystem D.count T.taken D.faults S.faults T.faults P.faults (is_fault result) self.old self.new }
    {
        let Some(bytes) = self.buffer.bytes() else {
            return Err(Stop::NoFile);
        };
        let Some(title) = title_of(words) else {
            return Ok(Some(word_of(false)));
        };
        let answer = self.catalog.store(&title, FileKind::Text, bytes);
        self.failed = failed_at(&answer);
        if is_refused(&answer) {
            return Ok(Some(word_of(false)));
        }
        drop_titled(&mut self.found, &title);
        self.buffer.leave();
        done(answer)
    }

    /// Removes the file of a title, and tells whether that was done.
    pub(crate) fn remove(&mut self, words: &[u16]) -> Result<Option<u16>, Stop>
        requires ready { IsReady D.contents D.count self.old }
        requires words { length words.now ≡ 12 }
        ensures exact { WhereTold (state_of D.contents S.left T.taken P.taken self.old) (state_of D.contents S.left T.taken P.taken self.new)
            (λ before after. Reaches (remove words.now before) result before after) }
        ensures removes { Removes D.contents D.count result (title_of words.now) self.old self.new }
        ensures only { OnlyFiles self.old self.new }
        ensures used { FailsUsed S.left 10 self.new }
        ensures ready { is_fault result ≡ false → IsReady D.contents D.count self.new }
        ensures told { KeepsTold D.contents S.left T.taken P.taken self.old self.new }
        ensures stays { KeepsSystem D.count T.taken D.faults S.faults T.faults P.faults (is_fault result) self.old self.new }
    {
        let Some(title) = title_of(words) else {
            return Ok(Some(word_of(false)));
        };
        let answer = self.catalog.delete(&title);
        self.failed = failed_at(&answer);
        if is_refused(&answer) {
            return Ok(Some(word_of(false)));
        }
        drop_titled(&mut self.found, &title);
        done(answer)
    }
}
