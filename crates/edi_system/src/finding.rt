//! The found file.
#![tactic(auto, using(crate::proofs::Used::nothing_used, crate::proofs::Used::looked_used))]

ghost use Rattle.std.specs.Prelude.{◌≡◌, ◌<◌, ◌↔◌, false, length, is_some, Ok, Err, None, Some, IfOk, IfSome, IsSome, OnOk, if◌then◌else◌};
ghost use Rattle.edi_told.specs.Told.{WhereTold};
ghost use Rattle.edi_calls.specs.Calls.{find, more, read, word_of};
ghost use Rattle.edi_catalog.specs.Mounted.{files_of};
ghost use Rattle.edi_system.specs.State.{buffer_in, catalog_in, failed_in, state_of, IsReady};
ghost use Rattle.edi_system.specs.Catalogue.{OnlyReading};
ghost use Rattle.edi_system.specs.Does.{MayLackFile, NeedsFile};
ghost use Rattle.edi_system.specs.Ends.{is_fault, Keeps, Reaches};
ghost use Rattle.edi_system.specs.AsCalls.{FailsUsed, KeepsDue, KeepsSystem};
ghost use Rattle.edi_system.specs.Loading.{IsOn, LoadsNext};
ghost use Rattle.edi_system.specs.Parts.{KeepsTold, OnlyOpenFiles};
ghost use Rattle.edi_system.specs.Reading.{text_spelled, CatalogRests, LooksAt, LooksIn, MoreIs, ReadsOn};

use crate::ends::Stop;
use crate::reading::{next_byte, text_spelled};
use crate::streams::{END_OF_TEXT, word_of};
use crate::system::System;
use edi_calls::Outside;
use edi_host::{Drive, Sink, Source};

impl<D: Drive, S: Source, T: Sink, P: Sink> System<'_, '_, '_, '_, '_, '_, D, S, T, P> {
    /// The text file of a title becomes the found file.
    pub(crate) fn find_text(&mut self, words: &[u16]) -> Result<Option<u16>, Stop>
        requires ready { IsReady D.contents D.count self.old }
        requires words { length words.now ≡ 12 }
        ensures exact { WhereTold (state_of D.contents S.left T.taken P.taken self.old) (state_of D.contents S.left T.taken P.taken self.new)
            (λ before after. Reaches (find words.now before) result before after) }
        ensures only { OnlyOpenFiles self.old self.new }
        ensures used { FailsUsed S.left 4 self.new }
        ensures found { self.new.found ≡ text_spelled words.now (files_of (catalog_in self.old)) }
        ensures answer { result ≡ Ok (Some (word_of (is_some self.new.found))) }
        ensures buffer { buffer_in self.new ≡ buffer_in self.old }
        ensures ready { IsReady D.contents D.count self.new }
        ensures told { KeepsTold D.contents S.left T.taken P.taken self.old self.new }
        ensures stays { KeepsSystem D.count T.taken D.faults S.faults T.faults P.faults (is_fault result) self.old self.new }
    {
        let found = text_spelled(&self.catalog, words);
        let is_found = found.is_some();
        self.found = found;
        Ok(Some(word_of(is_found)))
    }

    // The byte of the found file at its position, or nothing at its end. The refusals are `NoFile` and `Fault`.
    fn next_found(&mut self) -> Result<Option<u8>, Stop>
        requires ready { IsReady D.contents D.count self.old }
        ensures exact { WhereTold (state_of D.contents S.left T.taken P.taken self.old) (state_of D.contents S.left T.taken P.taken self.new)
            (λ before after. LooksAt result before.found before after) }
        ensures no_file { (result ≡ Err Stop.NoFile) ↔ (self.old.found ≡ None) }
        ensures refusals { MayLackFile result }
        ensures looks { IfOk result (λ byte. LooksIn (is_some byte) self.old.found self.new.found) }
        ensures loads { OnOk result (LoadsNext self.old.found self.new.found self.old.page self.new.page (catalog_in self.old) (catalog_in self.new)) }
        ensures on { IfOk result (IsOn self.new.page self.old.found) }
        ensures only { OnlyReading self.old self.new }
        ensures failed { failed_in self.new ≡ (if is_fault result then Some Outside.Drive else None) }
        ensures rests { CatalogRests D.contents D.count (catalog_in self.old) (catalog_in self.new) }
        ensures untouched { result ≡ Err Stop.NoFile → self.new ≡ self.old }
        ensures ready { is_fault result ≡ false → IsReady D.contents D.count self.new }
        ensures inside { IfOk result (λ byte. IsSome byte → IfSome self.new.found (λ reading. reading.position < reading.length)) }
        ensures due { KeepsDue T.taken self.old self.new }
        ensures told { KeepsTold D.contents S.left T.taken P.taken self.old self.new }
        ensures keeps { Keeps D.faults S.faults T.faults P.faults (is_fault result) self.old self.new }
    {
        let Some(mut reading) = self.found.take() else {
            return Err(Stop::NoFile);
        };
        match next_byte(&mut self.catalog, &mut reading, &mut self.page) {
            Ok(byte) => {
                self.found = Some(reading);
                Ok(byte)
            }
            Err(_) => {
                self.failed = Some(Outside::Drive);
                Err(Stop::Fault)
            }
        }
    }

    /// Whether bytes of the found file are left.
    pub(crate) fn more(&mut self) -> Result<Option<u16>, Stop>
        requires ready { IsReady D.contents D.count self.old }
        ensures exact { WhereTold (state_of D.contents S.left T.taken P.taken self.old) (state_of D.contents S.left T.taken P.taken self.new)
            (λ before after. Reaches (more before) result before after) }
        ensures needs { NeedsFile D.contents D.count result self.old self.new }
        ensures used { FailsUsed S.left 5 self.new }
        ensures tells { IfOk result (λ word. MoreIs word self.old.found self.new.found) }
        ensures untouched { result ≡ Err Stop.NoFile → self.new ≡ self.old }
        ensures ready { is_fault result ≡ false → IsReady D.contents D.count self.new }
        ensures told { KeepsTold D.contents S.left T.taken P.taken self.old self.new }
        ensures stays { KeepsSystem D.count T.taken D.faults S.faults T.faults P.faults (is_fault result) self.old self.new }
    {
        match self.next_found() {
            Ok(byte) => Ok(Some(word_of(byte.is_some()))),
            Err(stop) => Err(stop),
        }
    }

    /// The next byte of the found file as a character.
    pub(crate) fn read(&mut self) -> Result<Option<u16>, Stop>
        requires ready { IsReady D.contents D.count self.old }
        ensures exact { WhereTold (state_of D.contents S.left T.taken P.taken self.old) (state_of D.contents S.left T.taken P.taken self.new)
            (λ before after. Reaches (read before) result before after) }
        ensures needs { NeedsFile D.contents D.count result self.old self.new }
        ensures used { FailsUsed S.left 6 self.new }
        ensures moves { IfOk result (λ word. ReadsOn word self.new.page self.old.found self.new.found) }
        ensures untouched { result ≡ Err Stop.NoFile → self.new ≡ self.old }
        ensures ready { is_fault result ≡ false → IsReady D.contents D.count self.new }
        ensures told { KeepsTold D.contents S.left T.taken P.taken self.old self.new }
        ensures stays { KeepsSystem D.count T.taken D.faults S.faults T.faults P.faults (is_fault result) self.old self.new }
    {
        match self.next_found() {
            Ok(Some(byte)) => {
                if let Some(reading) = &mut self.found {
                    reading.position += 1;
                }
                Ok(Some(u16::from(byte % 128)))
            }
            Ok(None) => Ok(Some(u16::from(END_OF_TEXT))),
            Err(stop) => Err(stop),
        }
    }
}
