//! A system, as the shell works on it.

ghost use Rattle.std.specs.Prelude.{◌≡◌};
ghost use Rattle.edi_shell_io.specs.calls.OnSystem as on_system;

use crate::calls::calls::{OrEnd, ShellCalls};
use edi_calls::{FileKind, Outside};
use edi_catalog::{CatEnd, Entry};
use edi_execute::execute;
use edi_host::{Drive, Next, Sink, Source};
use edi_image::Title;
use edi_kernel::{Ending, Kernel};
use edi_session::SessionEnd;
use edi_system::System;
use edi_target::Code;
use edi_trace::Choices;

/// The bytes of a page.
const PAGE: u64 = 512;

fn taken_by(next: Next) -> OrEnd<Option<u8>>
    ensures { result ≡ on_system.taken_by next }
{
    match next {
        Next::Byte(byte) => Ok(Some(byte)),
        Next::End => Ok(None),
        Next::Failed => Err(SessionEnd::InputFault),
    }
}

fn put_by(done: bool, fault: SessionEnd) -> OrEnd<()>
    ensures { result ≡ on_system.put_by done fault }
{
    if done { Ok(()) } else { Err(fault) }
}

fn read_by(answer: Result<u32, CatEnd>) -> OrEnd<Option<usize>>
    ensures { result ≡ on_system.read_by answer }
{
    match answer {
        Ok(n) => Ok(Some(n as usize)),
        Err(CatEnd::NoSuch) => Ok(None),
        Err(_) => Err(SessionEnd::DriveFault),
    }
}

fn page_by(answer: Result<(), CatEnd>, size: usize) -> OrEnd<Option<usize>>
    ensures { result ≡ on_system.page_by size answer }
{
    match answer {
        Ok(()) => Ok(Some(size)),
        Err(CatEnd::NoSuch) => Ok(None),
        Err(_) => Err(SessionEnd::DriveFault),
    }
}

// How many bytes of a file of this length its page `i` has.
fn page_size(i: u32, length: u32) -> usize
    ensures { result ≡ on_system.page_size i length }
{
    u64::from(length)
        .saturating_sub(PAGE * u64::from(i))
        .min(PAGE) as usize
}

// The end of a session in which this object has failed.
fn fault_of(outside: Outside) -> SessionEnd
    ensures { result ≡ on_system.fault_by outside }
{
    match outside {
        Outside::Drive => SessionEnd::DriveFault,
        Outside::Input => SessionEnd::InputFault,
        Outside::Terminal => SessionEnd::TerminalFault,
        Outside::Printer => SessionEnd::PrinterFault,
    }
}

impl<'d, 'c, 'i, 't, 'p, 'b, D: Drive, S: Source, T: Sink, P: Sink> ShellCalls
    for System<'d, 'c, 'i, 't, 'p, 'b, D, S, T, P> {
    ghost use Rattle.std.specs.Prelude.{IsSome};
    ghost use Rattle.edi_system.specs.State.{failed_in, state_of, IsReady};
    ghost use Rattle.edi_shell_io.specs.calls.OnSystem.{FailsAt, StandsAt, SystemLasts};
    ghost use Rattle.edi_shell_io.specs.calls.Lasting.{lasts_itself, lasts_then, told_before};

    ghost ready = { λ system. IsReady D.contents D.count system };

    ghost failed = { λ system. failed_in system };

    ghost tells = { λ system. IsSome (state_of D.contents S.left T.taken P.taken system) };

    ghost stands = { λ system outside state. FailsAt D.contents S.left T.taken P.taken system outside state };

    ghost at = { λ system state shown_before. StandsAt D.contents S.left T.taken P.taken system state shown_before };

    ghost lasts = { λ before after. SystemLasts D.contents D.count S.left T.taken P.taken D.faults S.faults T.faults P.faults before after };

    ghost lasts_same = { lasts_itself D.contents D.count S.left T.taken P.taken D.faults S.faults T.faults P.faults };

    ghost lasts_on = { lasts_then D.contents D.count S.left T.taken P.taken D.faults S.faults T.faults P.faults };

    ghost lasts_told = { told_before D.contents D.count S.left T.taken P.taken D.faults S.faults T.faults P.faults };

    fn take(&mut self) -> OrEnd<Option<u8>> {
        taken_by(System::take(self))
    }

    fn show(&mut self, bytes: &[u8]) -> OrEnd<()> {
        if bytes.is_empty() {
            return Ok(());
        }
        put_by(System::show(self, bytes), SessionEnd::TerminalFault)
    }

    fn print_out(&mut self, bytes: &[u8]) -> OrEnd<()> {
        if bytes.is_empty() {
            return Ok(());
        }
        put_by(System::print_out(self, bytes), SessionEnd::PrinterFault)
    }

    fn fresh_line(&mut self) -> OrEnd<()> {
        put_by(System::fresh_line(self), SessionEnd::TerminalFault)
    }

    fn find(&self, title: &Title) -> Option<Entry> {
        System::find(self, title)
    }

    fn slot(&self, i: usize) -> Option<Entry> {
        System::slot(self, i)
    }

    fn free(&self) -> u32 {
        System::free(self)
    }

    fn read_into(&mut self, title: &Title, into: &mut [u8]) -> OrEnd<Option<usize>> {
        read_by(System::read_into(self, title, into))
    }

    fn read_page(&mut self, title: &Title, i: u32, into: &mut [u8; 512]) -> OrEnd<Option<usize>> {
        let Some(entry) = System::find(self, title) else {
            return Ok(None);
        };
        let size = page_size(i, entry.length);
        if size == 0 {
            return Ok(Some(0));
        }
        page_by(System::read_page(self, title, i, into), size)
    }

    fn store(&mut self, title: &Title, kind: FileKind, bytes: &[u8]) -> Result<(), CatEnd> {
        System::store(self, title, kind, bytes)
    }

    fn delete(&mut self, title: &Title) -> Result<(), CatEnd> {
        System::delete(self, title)
    }

    fn rename(&mut self, old: &Title, new: &Title) -> Result<(), CatEnd> {
        System::rename(self, old, new)
    }

    fn protect(&mut self, title: &Title, protected: bool) -> Result<(), CatEnd> {
        if protected {
            return System::protect(self, title);
        }
        System::release(self, title)
    }

    fn execute(
        &mut self,
        kernel: &mut Kernel,
        code: &Code,
        bound: u64,
        choices: &mut Choices,
    ) -> OrEnd<Ending> {
        let ending = execute(kernel, code, self, bound, choices);
        match self.failed() {
            Some(outside) => Err(fault_of(outside)),
            None => Ok(ending),
        }
    }
}
