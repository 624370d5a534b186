//! The ten calls of a program.

ghost use Rattle.std.specs.Prelude.{◌≡◌, ◌≤◌, false, length, Err};
ghost use Rattle.edi_told.specs.Told.{WhereTold};
ghost use Rattle.edi_calls.specs.Calls.{argument_words, call};
ghost use Rattle.edi_system.specs.State.{state_of, IsReady};
ghost use Rattle.edi_system.specs.AsCalls.{FailsUsed, KeepsSystem};
ghost use Rattle.edi_system.specs.Does.{Does};
ghost use Rattle.edi_system.specs.Ends.{is_fault, Reaches};
ghost use Rattle.edi_system.specs.Parts.{KeepsTold};

use crate::ends::Stop;
use crate::system::System;
use edi_calls::{CallEnd, Calls, call_number};
use edi_host::{Drive, Sink, Source};

impl<D: Drive, S: Source, T: Sink, P: Sink> System<'_, '_, '_, '_, '_, '_, D, S, T, P> {
    /// Makes a program's call of this number, 1 to 10, with as many argument words as `edi_calls::words_of` gives for it, and
    /// gives its answer word, if it has one. The refusals are `NoFile`, `FileLimit` and `Fault`.
    pub fn program_call(&mut self, number: u8, args: &[u16]) -> Result<Option<u16>, Stop>
        requires ready { IsReady D.contents D.count self.old }
        requires from { 1 ≤ number }
        requires to { number ≤ 10 }
        requires arguments { length args.now ≡ argument_words number }
        ensures exact { WhereTold (state_of D.contents S.left T.taken P.taken self.old) (state_of D.contents S.left T.taken P.taken self.new)
            (λ before after. Reaches (call number args.now before) result before after) }
        // What it leaves of the open files and of the kept catalogue, and the objects that it uses: also where none is told.
        ensures does { Does D.contents D.count S.left T.taken P.taken number args.now result self.old self.new }
        // Where it is a fault, only an object has failed that the call uses, and an input not at its end.
        ensures used { FailsUsed S.left number self.new }
        ensures untouched { result ≡ Err Stop.NoFile → self.new ≡ self.old }
        ensures ready { is_fault result ≡ false → IsReady D.contents D.count self.new }
        ensures told { KeepsTold D.contents S.left T.taken P.taken self.old self.new }
        ensures stays { KeepsSystem D.count T.taken D.faults S.faults T.faults P.faults (is_fault result) self.old self.new }
    {
        match number {
            call_number::ACCEPT => self.accept(),
            call_number::DISPLAY => self.display(args[0]),
            call_number::PRINT => self.print(args[0]),
            call_number::FIND => self.find_text(args),
            call_number::MORE => self.more(),
            call_number::READ => self.read(),
            call_number::FRESH => self.fresh(),
            call_number::WRITE => self.write(args[0]),
            call_number::CLOSE => self.close(args),
            _ => self.remove(args),
        }
    }
}

impl<'d, 'c, 'i, 't, 'p, 'b, D: Drive, S: Source, T: Sink, P: Sink> Calls
    for System<'d, 'c, 'i, 't, 'p, 'b, D, S, T, P> {
    ghost use Rattle.std.proofs.Common.{sym, ◌∙◌};
    ghost use Rattle.edi_system.specs.State.{faults_of, state_of};
    ghost use Rattle.edi_system.specs.AsCalls.{HasFailed, IsBehind, references_in};

    ghost state = { λ system. state_of D.contents S.left T.taken P.taken system };

    ghost faults = { λ system. faults_of D.faults S.faults T.faults P.faults system };

    ghost failed = { λ system outside. HasFailed D.contents D.count S.left system outside };

    ghost references = { λ system. references_in system };

    ghost leads = { λ start system. IsBehind D.contents D.count S.left T.taken P.taken start system };

    ghost one_failed = { λ system one other p q. sym p.is ∙ q.is };

    #[tactic(auto, using(crate::proofs::Chained::behind_one_more, crate::proofs::Used::used_by))]
    fn call(&mut self, number: u8, args: &[u16], answer: &mut [u16]) -> CallEnd {
        match self.program_call(number, args) {
            Ok(Some(word)) => {
                answer.fill(word);
                CallEnd::Ok
            }
            Ok(None) => CallEnd::Ok,
            Err(Stop::NoFile) => CallEnd::NoFile,
            Err(Stop::FileLimit) => CallEnd::FileLimit,
            Err(Stop::Fault) => CallEnd::OutsideFault,
        }
    }
}
